// A sheet in lent memory that is not refused, as a language: what the engine asks of a cell.
ghost use Rattle.std.specs.Prelude.{◌≡◌, ◌<◌, ◌≤◌, true, length, is_ok, IfOk};
ghost use Rattle.std.specs.Option.{option_and_then};
ghost use Rattle.std.specs.Result.{result_map_both};
ghost use Rattle.formula.specs.Expressions.{formula_of};
ghost use Rattle.formula.specs.Cells.{content, meant};
ghost use Rattle.formula.specs.Tokens.{the_ref};
ghost use Rattle.evaluate.specs.Limits.{max_cells};
ghost use Rattle.recalc.specs.Layout.{rows_in, cols_in, size_in, checked, cell_numbers, Sized};
ghost use Rattle.recalc.specs.Entries.{by_number};
ghost use Rattle.recalc.specs.Sheets.{inside, sheet_in};
ghost use Rattle.recalc.specs.Numbered.{count, number_of, nth_cell, laid_known, tried, tried_cell, sheet_language};
ghost use Rattle.recalc.specs.SheetLaws;

use crate::filled::Filled;
use crate::formulas::{Formulas, Progress};
use crate::refusal::Refusal;
use crate::sheet::{HEADER_LEN, cell_at, check_sheet, number_at};
use crate::size::Size;
use evaluate::{Stop, Value, evaluate_expression};
use formula::{CELL_LEN, Cell, CellRef, Expression};

#[derive(Clone, Copy)]
pub struct LentSheet<'a> {
    nums: &'a [u64],
    size: Size,
    ghost rows: { size.rows ≡ rows_in nums.now },
    ghost cols: { size.cols ≡ cols_in nums.now },
    ghost accepted: { is_ok (checked nums.now) ≡ true },
}

impl<'a> LentSheet<'a> {
    pub fn check(nums: &'a [u64]) -> Result<LentSheet<'a>, Refusal>
        ensures is { result_map_both (λ s. s.size) (λ e. e) result ≡ checked nums.now }
        ensures memory { IfOk result (λ s. s.nums.now ≡ nums.now) }
    {
        let size = check_sheet(nums)?;
        Ok(LentSheet { nums, size })
    }

    // Of a memory that is known not to be refused.
    pub fn of(nums: &'a [u64]) -> LentSheet<'a>
        requires { is_ok (checked nums.now) ≡ true }
        ensures { result.nums.now ≡ nums.now }
    {
        let size = Size {
            rows: number_at(nums, 0),
            cols: number_at(nums, 1),
        };
        LentSheet { nums, size }
    }

    pub fn size(&self) -> Size
        ensures is { result ≡ size_in self.now.nums.now }
        ensures same { result ≡ self.now.size }
        ensures sized { Sized self.now.nums.now result }
    {
        self.size
    }

    // How many cells it has.
    pub fn count(&self) -> usize
        ensures is { result ≡ count (sheet_in self.now.nums.now) }
        ensures few { result ≤ max_cells }
    {
        self.size.cells()
    }

    // Cell k, in reading order.
    pub fn cell(&self, k: usize) -> Cell<'a>
        ensures { meant result ≡ content (cell_numbers k self.now.nums.now) }
    {
        cell_at(self.nums, k)
    }

    // Where cell k is.
    pub fn place(&self, k: usize) -> CellRef
        ensures { result ≡ by_number (cols_in self.now.nums.now) the_ref k }
    {
        self.size.place(k)
    }

    // Which cell is at a place.
    pub fn number(&self, place: CellRef) -> usize
        requires { inside (sheet_in self.now.nums.now) place.row place.col ≡ true }
        ensures { result ≡ number_of (sheet_in self.now.nums.now) place }
    {
        self.size.number(place)
    }

    // The formula of cell k, which is well formed as each cell is; None if the cell is blank.
    fn formula(&self, k: usize) -> Option<Expression<'a>>
        requires { k < count (sheet_in self.now.nums.now) }
        ensures { option_and_then formula_of result ≡ nth_cell (sheet_in self.now.nums.now) k }
    {
        let from = HEADER_LEN + CELL_LEN * k;
        Expression::in_cell(&self.nums[from..from + CELL_LEN])
    }

    // Cell k worked out from what is known, or the place that is wanted.
    fn try_cell(&self, k: usize, table: &[Progress]) -> Result<Value, CellRef>
        requires within { k < count (sheet_in self.now.nums.now) }
        requires table { length table.now ≡ count (sheet_in self.now.nums.now) }
        ensures { result ≡ tried_cell (laid_known self.now.size.rows self.now.size.cols table.now) (nth_cell (sheet_in self.now.nums.now) k) }
    {
        let Some(expression) = self.formula(k) else {
            return Ok(Value::Empty);
        };
        let filled = Filled {
            size: self.size,
            table,
        };
        shown_as(evaluate_expression(expression, &filled))
    }
}

// What a formula's end says that its cell shows, or the place that is wanted. No From: both sides are Results.
fn shown_as(end: Result<u64, Stop>) -> Result<Value, CellRef>
    ensures { result ≡ tried end }
{
    match end {
        Ok(n) => Ok(Value::Number(n)),
        Err(Stop::Error(error)) => Ok(Value::Error(error)),
        Err(Stop::Needs(place)) => Err(place),
    }
}

impl<'a> Formulas for LentSheet<'a> {
    ghost language = { λ s. sheet_language (sheet_in s.nums.now) };

    ghost lawful = { λ s. SheetLaws.lawful (sheet_in s.nums.now) };

    fn attempt(&self, k: usize, table: &[Progress]) -> Result<Value, usize> {
        match self.try_cell(k, table) {
            Ok(value) => Ok(value),
            // No map_err: that the place lies in the sheet is known here, and not inside a closure.
            Err(place) => Err(self.number(place)),
        }
    }
}
