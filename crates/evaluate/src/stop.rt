// What ends the work before there is a number.
ghost use Rattle.std.specs.Prelude.{◌≡◌};
ghost use Rattle.evaluate.specs.declared.stop.Stop.TheVariants.{Error};

use crate::value::CellError;
use formula::CellRef;

#[derive(Clone, Copy)]
pub enum Stop {
    Error(CellError),
    // The first cell looked at of which it is not known yet what it shows.
    Needs(CellRef),
}

impl From<CellError> for Stop {
    ghost from_gives = { λ error stop. stop ≡ Error error };

    fn from(error: CellError) -> Stop {
        Stop::Error(error)
    }
}
