// Examples: formulas read, written as text and worked out, whole sheets shown, rows and columns that come and go, writes, writes carried over
// them, undo and redo.
#![tactic(auto)]

#[cfg(test)]
mod editing;
#[cfg(test)]
mod grid;
#[cfg(test)]
mod places;
#[cfg(test)]
mod reading;
#[cfg(test)]
mod rebasing;
#[cfg(test)]
mod recalculating;
#[cfg(test)]
mod shifting;
#[cfg(test)]
mod showing;
#[cfg(test)]
mod undoing;
#[cfg(test)]
mod working;
