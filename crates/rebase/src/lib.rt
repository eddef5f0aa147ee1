// What two people did apart, brought together: writes carried over a row or a column that came in or went.
#![tactic(auto)]

mod all;
mod laws;
mod rebased;
mod rebasing;

pub use all::rebase_all;
pub use laws::either_first;
pub use rebased::Rebased;
pub use rebasing::rebase_write;
