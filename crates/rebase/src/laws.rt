// What is promised of writes and a shift that were made apart; each function stands for theorems.
ghost use Rattle.rebase.specs.Promise.{EitherFirst, RefusedAlike};

// The shift and then the carried writes come to the same as the writes and then the shift, and what is refused the one way is the other.
pub fn either_first()
    ensures same { EitherFirst }
    ensures refused { RefusedAlike }
{}
