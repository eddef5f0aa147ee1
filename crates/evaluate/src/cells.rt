// What the cells of a sheet show so far.
ghost use Rattle.std.specs.Prelude.{◌≡◌, ℕ, ◌≤◌, Some};
ghost use Rattle.evaluate.specs.declared.value.Value.TheVariants.{Empty};
ghost use Rattle.evaluate.specs.Limits.{max_rows, max_columns};
ghost use Rattle.evaluate.specs.Sheets.{Sheet};

use crate::value::Value;
use formula::CellRef;

// Outside the sheet every cell is empty; of a cell that is None it is not known yet what it shows.
pub trait Cells {
    ghost sheet: { Self → Sheet };

    fn rows(&self) -> u64
        ensures is { result ≡ (sheet self.now).height }
        ensures few { result ≤ max_rows }
        ensures below { (i j : ℕ) → result ≤ i → (sheet self.now).shown i j ≡ Some Empty };

    fn cols(&self) -> u64
        ensures is { result ≡ (sheet self.now).width }
        ensures few { result ≤ max_columns }
        ensures beside { (i j : ℕ) → result ≤ j → (sheet self.now).shown i j ≡ Some Empty };

    fn at(&self, place: CellRef) -> Option<Value>
        ensures { result ≡ (sheet self.now).shown place.row place.col };
}
