// A shift of a grid that it fits: how large the grid is afterwards, and where its entries came from.
ghost use Rattle.std.specs.Prelude.{◌≡◌, ◌<◌, ◌≤◌, max, Some, None};
ghost use Rattle.formula.specs.Tokens.{the_ref};
ghost use Rattle.evaluate.specs.Limits.{max_cells};
ghost use Rattle.shift.specs.Shifts.{rows_after, cols_after, place_from};
ghost use Rattle.shift.specs.Entries.{size_after, cells_of, Shiftable, Shiftable-prop, origin, first_entry, left_behind, origin_behind};

use crate::along::Along;
use crate::shift::{Axis, Change, Shift};
use formula::CellRef;
use recalc::Size;

#[derive(Clone, Copy)]
pub struct Reshape {
    pub shift: Shift,
    // Of the grid before the shift.
    pub size: Size,
    // The line is there, and what is left is within the bounds.
    pub ghost shiftable: { Shiftable shift size } by { Shiftable-prop shift size },
}

impl Reshape {
    // How large the grid is afterwards.
    pub fn size_after(self) -> Size
        ensures { result ≡ size_after self.shift self.size }
    {
        let lines = self.size.along(self.shift.axis);
        let left = match self.shift.change {
            Change::Insert => lines + 1,
            Change::Delete => lines - 1,
        };
        self.size.with(self.shift.axis, left)
    }

    // How many entries there are afterwards.
    pub(crate) fn entries_after(self) -> usize
        ensures { (result ≡ cells_of (size_after self.shift self.size)) × (result ≤ max_cells) }
    {
        self.size_after().cells()
    }

    // How many there are before or afterwards, whichever is more.
    pub(crate) fn most_entries(self) -> usize
        ensures { (result ≡ max (cells_of self.size) (cells_of (size_after self.shift self.size))) × (result ≤ max_cells) }
    {
        self.size.cells().max(self.entries_after())
    }

    // The first entry of the line: those before it stay where they are.
    pub(crate) fn first_entry(self) -> usize
        ensures { result ≡ first_entry self.shift self.size }
    {
        match self.shift.axis {
            Axis::Row => (self.shift.line * self.size.cols) as usize,
            Axis::Column => self.shift.line as usize,
        }
    }

    // How many entries there are afterwards from the first of the line on.
    pub(crate) fn entries_behind(self) -> usize
        ensures { result ≡ left_behind self.shift self.size }
    {
        self.entries_after() - self.first_entry()
    }

    // Where the cell at a place of the grid was; None in a new line.
    fn place_before(self, place: CellRef) -> Option<CellRef>
        requires { (place.row < rows_after self.shift self.size.rows) × (place.col < cols_after self.shift self.size.cols) }
        ensures { result ≡ place_from None self.shift (λ i j. Some (the_ref i j)) place.row place.col }
    {
        let axis = self.shift.axis;
        let line = self.shift.line_before(place.along(axis))?;
        Some(place.with(axis, line))
    }

    // The number that the entry had which comes to stand at number k; None in a new line.
    fn origin(self, k: usize) -> Option<usize>
        requires { k < cells_of (size_after self.shift self.size) }
        ensures { result ≡ origin self.shift self.size k }
    {
        let from = self.place_before(self.size_after().place(k))?;
        Some(self.size.number(from))
    }

    // As `origin`, with the entries counted from the first of the line on.
    pub(crate) fn origin_behind(self, i: usize) -> Option<usize>
        requires { i < left_behind self.shift self.size }
        ensures { result ≡ origin_behind self.shift self.size i }
    {
        let first = self.first_entry();
        let from = self.origin(first + i)?;
        Some(from - first)
    }
}
