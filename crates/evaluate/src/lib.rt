// Working out one formula from what cells show.
#![tactic(auto)]

mod cells;
mod display;
mod evaluating;
mod fold;
mod laws;
mod limits;
mod reader;
mod row;
mod stop;
mod tally;
mod trail;
mod unlisted;
mod value;
mod work;

pub use cells::Cells;
pub use evaluating::{evaluate, evaluate_expression, looks};
pub use laws::{ends_at_first_unknown, errors_spread, looks_are_enough, settled_stays};
pub use limits::{MAX_COLUMNS, MAX_ROWS};
pub use stop::Stop;
pub use unlisted::Unlisted;
pub use value::{CellError, NotAValue, Value};
