// What the cells of a sheet show, in terms of their formulas; each function stands for a theorem.
ghost use Rattle.recalc.specs.Shown.{ShownIsConsistent, DeeperIsTheSame, OnlyAnswer, CycleExactly};
ghost use Rattle.recalc.specs.Stair.{StairShows};

// Each cell shows what its formula makes of what the others show, and looking deeper than there are cells changes nothing.
pub fn shown_agrees_with_itself()
    ensures consistent { ShownIsConsistent }
    ensures deeper { DeeperIsTheSame }
{}

// Whatever else the cells may show by their formulas, it is this wherever this shows no cycle.
pub fn only_answer()
    ensures { OnlyAnswer }
{}

// A cell shows the cycle error exactly if it is, or a way of looks leads from it to, a cell with a way back to itself.
pub fn cycles_are_exact()
    ensures { CycleExactly }
{}

// A stair shows what one works out by hand, with a row inserted, written to, deleted, with what is lost and with a cycle.
pub fn stair_shows()
    ensures { StairShows }
{}
