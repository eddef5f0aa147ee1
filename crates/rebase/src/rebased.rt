// What became of a write that was carried over a shift.
#[derive(Clone, Copy)]
pub enum Rebased {
    Written,
    // Its line was deleted.
    Dropped,
}
