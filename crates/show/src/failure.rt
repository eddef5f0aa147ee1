// Why there is no sheet to list.
ghost use Rattle.std.specs.Prelude.{◌≡◌, Some};
ghost use Rattle.notation.specs.declared.text_error.TextError.TheVariants.{OutOfMemory};
ghost use Rattle.show.specs.declared.failure.Failure.TheVariants.{Text, Sheet};
ghost use Rattle.show.specs.Failures.{failure_text};

use notation::TextError;
use recalc::Refusal;
use std::alloc::AllocError;
use std::fmt;
use std::fmt::Display;

#[derive(Clone, Copy)]
pub enum Failure {
    Text(TextError),
    Sheet(Refusal),
}

// By hand: what thiserror's derive prints has no contract.
impl Display for Failure {
    ghost output = { λ e. Some (failure_text e) };

    fn fmt<W: fmt::Write>(&self, f: &mut fmt::Formatter<W>) -> fmt::Result {
        match self {
            Failure::Text(error) => error.fmt(f),
            Failure::Sheet(refusal) => refusal.fmt(f),
        }
    }
}

impl From<TextError> for Failure {
    ghost from_gives = { λ e r. r ≡ Text e };

    fn from(error: TextError) -> Failure {
        Failure::Text(error)
    }
}

impl From<Refusal> for Failure {
    ghost from_gives = { λ e r. r ≡ Sheet e };

    fn from(refusal: Refusal) -> Failure {
        Failure::Sheet(refusal)
    }
}

impl From<AllocError> for Failure {
    ghost from_gives = { λ _ r. r ≡ Text OutOfMemory };

    fn from(_refused: AllocError) -> Failure {
        Failure::Text(TextError::OutOfMemory)
    }
}
