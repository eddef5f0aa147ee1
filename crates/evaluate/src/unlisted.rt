// Why there is no list of the places that a formula looks at.
ghost use Rattle.std.specs.Prelude.{◌≡◌};
ghost use Rattle.evaluate.specs.declared.unlisted.Unlisted.TheVariants.{OutOfMemory};

use std::alloc::AllocError;

#[derive(Clone, Copy)]
pub enum Unlisted {
    // The row is no formula.
    Malformed,
    OutOfMemory,
}

impl From<AllocError> for Unlisted {
    ghost from_gives = { λ _ unlisted. unlisted ≡ OutOfMemory };

    fn from(_error: AllocError) -> Unlisted {
        Unlisted::OutOfMemory
    }
}
