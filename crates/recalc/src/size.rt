// How large a sheet is, and its cells by their numbers in reading order.
ghost use Rattle.std.specs.Prelude.{◌≡◌, ◌+◌, ◌*◌, ◌<◌, ◌≤◌, ◌&&◌, nat_lt};
ghost use Rattle.formula.specs.Tokens.{the_ref};
ghost use Rattle.evaluate.specs.Limits.{max_cells};
ghost use Rattle.recalc.specs.Entries.{by_number};

use formula::CellRef;

#[derive(Clone, Copy)]
pub struct Size {
    pub rows: u64,
    pub cols: u64,
}

impl Size {
    // How many cells there are.
    pub fn cells(self) -> usize
        requires { self.rows * self.cols ≤ max_cells }
        ensures { result ≡ self.rows * self.cols }
    {
        (self.rows * self.cols) as usize
    }

    pub fn contains(self, place: CellRef) -> bool
        ensures { result ≡ (nat_lt place.row self.rows && nat_lt place.col self.cols) }
    {
        place.row < self.rows && place.col < self.cols
    }

    // The number of the cell at a place.
    pub fn number(self, place: CellRef) -> usize
        requires { place.row * self.cols + place.col < max_cells }
        ensures { result ≡ place.row * self.cols + place.col }
    {
        (place.row * self.cols + place.col) as usize
    }

    // The place of cell k.
    pub fn place(self, k: usize) -> CellRef
        requires { 0 < self.cols }
        ensures { result ≡ by_number self.cols the_ref k }
    {
        CellRef {
            row: k as u64 / self.cols,
            col: k as u64 % self.cols,
        }
    }
}
