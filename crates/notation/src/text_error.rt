// Why a text was refused.
ghost use Rattle.std.specs.Prelude.{◌≡◌, Some};
ghost use Rattle.notation.specs.declared.text_error.TextError.TheVariants.{OutOfMemory};
ghost use Rattle.notation.specs.Errors.{error_text};

use std::alloc::AllocFailed;
use std::error::Error;
use std::fmt;

#[derive(Debug, Clone, Copy)]
pub enum TextError {
    // Which word, counted from 1.
    NotANumber(usize),
    OutOfMemory,
}

impl Error for TextError {}

// By hand: what thiserror's derive prints has no contract.
impl fmt::Display for TextError {
    ghost output = { λ e. Some (error_text e) };

    fn fmt<W: fmt::Write>(&self, f: &mut fmt::Formatter<W>) -> fmt::Result {
        match *self {
            TextError::NotANumber(word) => {
                write!(f, "word {word} is no number from 0 to {}", u64::MAX)
            }
            TextError::OutOfMemory => f.write_str("out of memory"),
        }
    }
}

impl<T: Drop> From<AllocFailed<T>> for TextError {
    ghost from_gives = { λ _ r. r ≡ OutOfMemory };

    fn from(_refused: AllocFailed<T>) -> TextError {
        Self::OutOfMemory
    }
}
