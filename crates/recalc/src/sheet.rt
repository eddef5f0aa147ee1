// A sheet in lent memory: its rows, its columns, and 61 numbers a cell in reading order.
ghost use Rattle.std.specs.Prelude.{◌≡◌, IfOk, slice_index};
ghost use Rattle.formula.specs.Cells.{content, meant};
ghost use Rattle.recalc.specs.Layout.{cell_numbers, is_malformed, first_malformed, within, checked, fitting, Sized};

use crate::refusal::Refusal;
use crate::size::Size;
use evaluate::{MAX_COLUMNS, MAX_ROWS};
use formula::{CELL_LEN, Cell};

// How many rows and how many columns there are.
pub const HEADER_LEN: usize = 2;

// The cell with this index, in reading order; malformed where the memory ends before.
pub fn cell_at(nums: &[u64], index: usize) -> Cell<'_>
    ensures { meant result ≡ content (cell_numbers index nums.now) }
{
    let cells = nums.len().saturating_sub(HEADER_LEN) / CELL_LEN;
    if index >= cells {
        return Cell::Malformed;
    }
    let from = HEADER_LEN + CELL_LEN * index;
    Cell::read(&nums[from..from + CELL_LEN])
}

fn is_malformed_at(nums: &[u64], index: usize) -> bool
    ensures { result ≡ is_malformed (content (cell_numbers index nums.now)) }
{
    matches!(cell_at(nums, index), Cell::Malformed)
}

// The first of so many cells that is malformed.
fn first_malformed_cell(nums: &[u64], count: usize) -> Option<usize>
    ensures { result ≡ first_malformed 0 count nums.now }
{
    // Tried (0..count).find(..): that the cells before the one found are well formed stayed open.
    for index in 0..count {
        if is_malformed_at(nums, index) {
            return Some(index);
        }
    }
    None
}

// Where the memory ends before, as if 0 stood there.
pub fn number_at(nums: &[u64], index: usize) -> u64
    ensures { result ≡ slice_index nums.now index }
{
    nums.get(index).copied().unwrap_or(0)
}

fn is_within(n: u64, most: u64) -> bool
    ensures { result ≡ within most n }
{
    (1..=most).contains(&n)
}

// The size of a sheet, or the first refusal that applies to it.
pub fn check_sheet(nums: &[u64]) -> Result<Size, Refusal>
    ensures is { result ≡ checked nums.now }
    ensures sized { IfOk result (Sized nums.now) }
{
    let rows = number_at(nums, 0);
    let cols = number_at(nums, 1);
    if !is_within(rows, MAX_ROWS) {
        return Err(Refusal::Rows);
    }
    if !is_within(cols, MAX_COLUMNS) {
        return Err(Refusal::Columns);
    }
    let size = Size { rows, cols };
    let count = size.cells();
    if nums.len() < HEADER_LEN + CELL_LEN * count {
        return Err(Refusal::Short(nums.len()));
    }
    if let Some(index) = first_malformed_cell(nums, count) {
        return Err(Refusal::Malformed(index));
    }
    Ok(size)
}

// The same of a sheet that may come to have as many rows and columns as `most` says, in a memory that has to have room for that.
pub fn check_fitting(nums: &[u64], most: Size) -> Result<Size, Refusal>
    ensures { result ≡ fitting most nums.now }
{
    if !is_within(most.rows, MAX_ROWS) || !is_within(number_at(nums, 0), most.rows) {
        return Err(Refusal::Rows);
    }
    if !is_within(most.cols, MAX_COLUMNS) || !is_within(number_at(nums, 1), most.cols) {
        return Err(Refusal::Columns);
    }
    if nums.len() < HEADER_LEN + CELL_LEN * most.cells() {
        return Err(Refusal::Short(nums.len()));
    }
    check_sheet(nums)
}
