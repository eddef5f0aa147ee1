// Formulas as they stand in a lent row: five numbers a token, each token before the formulas that it needs.
#![tactic(auto)]

mod cell;
mod display;
mod expression;
mod laws;
mod layout;
mod moving;
mod node;
mod reading;
mod token;

pub use cell::{Cell, NotWritten};
pub use expression::Expression;
pub use laws::{reading_is_spelling, written_is_read};
pub use layout::{CELL_LEN, FORMULA_LEN, MAX_TOKENS, TOKEN_LEN};
pub use moving::{Moves, rewrite};
pub use node::Node;
pub use reading::{is_formula, read_operand, read_token};
pub use token::{Aggregate, CellRef, Operator, Range, Token, UnknownKind};
