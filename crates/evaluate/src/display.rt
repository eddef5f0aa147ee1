// The text of values and errors.
ghost use Rattle.std.specs.Prelude.{Some};
ghost use Rattle.evaluate.specs.Values.{error_text, value_text};

use crate::value::{CellError, Value};
use std::fmt;

impl fmt::Display for CellError {
    ghost output = { λ e. Some (error_text e) };

    fn fmt<W: fmt::Write>(&self, f: &mut fmt::Formatter<W>) -> fmt::Result {
        match self {
            CellError::DivideByZero => f.write_str("by-nothing"),
            CellError::OutOfRange => f.write_str("too-big"),
            CellError::Lost => f.write_str("lost"),
            CellError::Cycle => f.write_str("ring"),
        }
    }
}

impl fmt::Display for Value {
    ghost output = { λ v. Some (value_text v) };

    fn fmt<W: fmt::Write>(&self, f: &mut fmt::Formatter<W>) -> fmt::Result {
        match self {
            Value::Empty => f.write_str("."),
            Value::Number(n) => n.fmt(f),
            Value::Error(error) => error.fmt(f),
        }
    }
}
