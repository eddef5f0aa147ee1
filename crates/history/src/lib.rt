// Earlier sheets in the memory that a book was given: undo and redo.
#![tactic(auto)]

mod history;
mod laws;

pub use history::{History, NothingKept};
pub use laws::there_and_back;
