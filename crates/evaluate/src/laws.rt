// What a formula comes to, in terms of what the cells show; each function stands for a theorem.
ghost use Rattle.evaluate.specs.Laws.{EndsAtFirst, SettledStays, LooksAreEnough, ErrorsSpread, CyclesAreLookedAt, NeverEmpty};

// Work ends at the first place that is not known, or else as it does where all is known.
pub fn ends_at_first_unknown()
    ensures { EndsAtFirst }
{}

// What was settled stays, however much more is known.
pub fn settled_stays()
    ensures { SettledStays }
{}

// What agrees at the places looked at gives the same.
pub fn looks_are_enough()
    ensures { LooksAreEnough }
{}

// A formula shows an error that it looks at, and the cycle error only if it looks at one; it never shows nothing.
pub fn errors_spread()
    ensures errors { ErrorsSpread }
    ensures cycles { CyclesAreLookedAt }
    ensures never { NeverEmpty }
{}
