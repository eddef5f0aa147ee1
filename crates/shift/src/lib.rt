// Rows and columns that come and go: references, ranges, formulas, whole sheets and what they show.
#![tactic(auto)]

mod along;
mod cells;
mod entries;
mod laws;
mod memory;
mod moves;
mod reshape;
mod sheet;
mod shift;
mod values;

pub use laws::{
    deletion_blanks_a_line, either_order, insertion_keeps_values, one_memory,
    ranges_keep_their_lines, stair_shifts,
};
pub use memory::shift_memory;
pub use reshape::Reshape;
pub use sheet::shift_sheet;
pub use shift::{Axis, Change, Shift, Span};
pub use values::insert_values;
