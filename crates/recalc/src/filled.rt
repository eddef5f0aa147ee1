// What is known so far of the cells of a sheet, as evaluation wants it.
ghost use Rattle.std.specs.Prelude.{◌*◌, ◌≤◌, length};
ghost use Rattle.evaluate.specs.Limits.{max_rows, max_columns};

use crate::formulas::Progress;
use crate::size::Size;

#[derive(Clone, Copy)]
pub struct Filled<'a> {
    pub size: Size,
    pub table: &'a [Progress],
    ghost few: { (size.rows ≤ max_rows) × (size.cols ≤ max_columns) × (size.rows * size.cols ≤ length table.now) },
}
