// The references and ranges of a formula as a shift moves them.
ghost use Rattle.shift.specs.Shifts.{ref_after, range_after};

use crate::shift::Shift;
use formula::{CellRef, Moves, Range};

impl Moves for Shift {
    ghost moved = { ref_after };

    ghost resized = { range_after };

    fn reference(&self, cell: CellRef) -> Option<CellRef> {
        self.reference_after(cell)
    }

    fn range(&self, range: Range) -> Option<Range> {
        self.range_after(range)
    }
}
