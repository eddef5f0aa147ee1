// The values of a sheet, in a row: two numbers a cell, in reading order.
ghost use Rattle.std.specs.Prelude.{◌≡◌, ◌+◌, ◌*◌, Some};
ghost use Rattle.evaluate.specs.Rows.{value_at};
ghost use Rattle.recalc.specs.Layout.{size_in};
ghost use Rattle.show.specs.Entries.{cell_entry, entry_text};
ghost use Rattle.show.specs.Values.{values_text};

use crate::entry::Entry;
use crate::grid::{Grid, Lines};
use evaluate::Value;
use recalc::{LentSheet, Size};
use std::fmt;
use std::fmt::Display;

#[derive(Clone, Copy)]
pub struct Values<'a> {
    pub numbers: &'a [u64],
    pub size: Size,
}

impl<'a> Values<'a> {
    // The row of a sheet.
    pub fn of(numbers: &'a [u64], sheet: &LentSheet<'_>) -> Values<'a>
        ensures numbers { result.numbers.now ≡ numbers.now }
        ensures size { result.size ≡ size_in sheet.now.nums.now }
    {
        Values {
            numbers,
            size: sheet.size(),
        }
    }

    // No row of values reaches as far as an index that does not fit.
    fn value(&self, row: u64, col: u64) -> Option<Value>
        ensures { result ≡ value_at self.now.numbers.now (row * self.now.size.cols + col) }
    {
        let index = row.checked_mul(self.size.cols)?.checked_add(col)?;
        Value::read(self.numbers, index as usize)
    }
}

impl Grid for Values<'_> {
    type Entry = Entry;

    ghost text = { λ v row col. entry_text (cell_entry v.numbers.now v.size.cols row col) };

    fn entry(&self, row: u64, col: u64) -> Entry
        ensures { result ≡ cell_entry self.now.numbers.now self.now.size.cols row col }
    {
        self.value(row, col).map_or(Entry::Unknown, Entry::Shown)
    }
}

// A line a row, a space between two entries; `?` where two numbers stand for no value.
impl Display for Values<'_> {
    ghost output = { λ v. Some (values_text v.numbers.now v.size) };

    fn fmt<W: fmt::Write>(&self, f: &mut fmt::Formatter<W>) -> fmt::Result {
        let lines = Lines {
            grid: self,
            rows: self.size.rows,
            cols: self.size.cols,
            between: " ",
        };
        lines.fmt(f)
    }
}
