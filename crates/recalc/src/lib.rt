// Whole sheets in lent memory: how they lie there, which are refused, and what their cells show.
#![tactic(auto)]

mod before;
mod display;
mod filled;
mod filling;
mod formulas;
mod laws;
mod lent;
mod mark;
mod readable;
mod recalculation;
mod refusal;
mod room;
mod sheet;
mod show;
mod size;
mod theory;

pub use before::{Before, Lists, Overwritten, Unshown, row_value};
pub use formulas::{Formulas, Progress};
pub use laws::{cycles_are_exact, only_answer, shown_agrees_with_itself, stair_shows};
pub use lent::LentSheet;
pub use mark::Mark;
pub use readable::Lent;
pub use recalculation::recalculate;
pub use refusal::Refusal;
pub use room::{MAX_CELLS, Room};
pub use sheet::{HEADER_LEN, cell_at, check_fitting, check_sheet};
pub use show::show_sheet;
pub use size::Size;
pub use theory::{every_language_is_settled, one_result};
