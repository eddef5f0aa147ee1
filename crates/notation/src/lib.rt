// Formulas and numbers as text that people read and write.
#![tactic(auto)]

mod laws;
mod notation;
mod numbers;
mod operand;
mod text_error;

pub use laws::written_numbers_are_read;
pub use notation::Notation;
pub use numbers::parse_numbers;
pub use text_error::TextError;
