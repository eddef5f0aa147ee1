// What is to stand at a place.
use formula::CellRef;

#[derive(Clone, Copy)]
pub struct Write<'a> {
    pub place: CellRef,
    // The tokens of a formula; None is a blank.
    pub formula: Option<&'a [u64]>,
}
