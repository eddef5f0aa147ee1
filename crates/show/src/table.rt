// The values of a sheet as a table, with row and column numbers.
ghost use Rattle.std.specs.Prelude.{◌≡◌, ℕ, ◌≤◌, Some, IfOk, slice_index};
ghost use Rattle.show.specs.Entries.{entry_text};
ghost use Rattle.show.specs.Table.{Small, table_entry, column_width, padded, table_text};

use crate::entry::Entry;
use crate::grid::{Grid, Lines};
use crate::padded::{Padded, width_of};
use crate::values::Values;
use arrayvec::ArrayVec;
use evaluate::MAX_COLUMNS;
use std::fmt;
use std::fmt::Display;

// The columns of the largest sheet, and that of the row numbers.
const MAX_TABLE_COLUMNS: usize = MAX_COLUMNS as usize + 1;

#[derive(Clone, Copy)]
pub struct Table<'a> {
    pub values: Values<'a>,
    ghost small: { Small values.size },
}

impl<'a> Table<'a> {
    pub fn new(values: Values<'a>) -> Table<'a>
        requires { Small values.size }
        ensures { result.values ≡ values.entry }
    {
        Table { values }
    }
}

impl Table<'_> {
    // The first line has the column numbers, and the first column the row numbers.
    fn entry(&self, line: u64, col: u64) -> Entry
        ensures { result ≡ table_entry self.now.values.numbers.now self.now.values.size.cols line col }
    {
        match (line, col) {
            (0, 0) => Entry::Corner,
            (0, _) => Entry::Label(col - 1),
            (_, 0) => Entry::Label(line - 1),
            (_, _) => self.values.entry(line - 1, col - 1),
        }
    }

    fn column_width(&self, col: u64) -> Result<usize, fmt::Error>
        ensures { IfOk result (λ w. w ≡ column_width self.now.values.numbers.now self.now.values.size col) }
    {
        // Tried try_fold: that what it gives is the widest of the lines stayed open.
        let mut width: usize = 0;
        for line in 0..self.values.size.rows + 1 {
            width = width.max(width_of(self.entry(line, col))?);
        }
        Ok(width)
    }

    // A Display has no allocator, so the list is one that never allocates.
    fn column_widths(&self) -> Result<ArrayVec<usize, MAX_TABLE_COLUMNS>, fmt::Error>
        ensures { IfOk result (λ ws. (col : ℕ) → col ≤ self.now.values.size.cols → slice_index ws.items col ≡ column_width self.now.values.numbers.now self.now.values.size col) }
    {
        let mut widths = ArrayVec::new();
        for col in 0..self.values.size.cols + 1 {
            widths.push(self.column_width(col)?);
        }
        Ok(widths)
    }
}

// A table whose columns are so wide.
#[derive(Drop)]
struct Aligned<'a> {
    table: Table<'a>,
    widths: ArrayVec<usize, MAX_TABLE_COLUMNS>,
}

impl Grid for Aligned<'_> {
    type Entry = Padded;

    ghost text = { λ a line col. padded (slice_index a.widths.items col) (entry_text (table_entry a.table.values.numbers.now a.table.values.size.cols line col)) };

    fn entry(&self, row: u64, col: u64) -> Padded {
        Padded {
            // Beside the table nothing is wide.
            width: self.widths.get(col as usize).copied().unwrap_or(0),
            entry: self.table.entry(row, col),
        }
    }
}

impl Display for Table<'_> {
    ghost output = { λ t. Some (table_text t.values.numbers.now t.values.size) };

    fn fmt<W: fmt::Write>(&self, f: &mut fmt::Formatter<W>) -> fmt::Result {
        let aligned = Aligned {
            table: *self,
            widths: self.column_widths()?,
        };
        let lines = Lines {
            grid: &aligned,
            rows: self.values.size.rows + 1,
            cols: self.values.size.cols + 1,
            between: "  ",
        };
        lines.fmt(f)
    }
}
