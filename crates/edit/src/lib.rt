// A write into a lent sheet and the row of values that belongs to it, working out again only what has to be.
#![tactic(auto)]

mod changes;
mod check;
mod formulas;
mod laws;
mod memory;
mod place_list;
mod shown;
mod shown_sheet;
mod values;
mod write;
mod writing;

pub use changes::Changes;
pub use check::check_write;
pub use laws::{not_worked_stays, stair_writes, told_exactly, worked_exactly};
pub use recalc::Room;
pub use shown_sheet::ShownSheet;
pub use write::Write;
pub use writing::{write_cell, write_shown};
