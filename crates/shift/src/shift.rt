// A row or a column that is inserted or deleted: where lines, references and ranges are afterwards.
ghost use Rattle.std.specs.Prelude.{◌≡◌, ◌<◌, Some, None};
ghost use Rattle.shift.specs.Lines.{line_from};
ghost use Rattle.shift.specs.Shifts.{by_axis, line_after, span_after, ref_after, range_after};
ghost use Rattle.shift.specs.Sheets.{shift_allowed};

use crate::along::Along;
use formula::{CellRef, Range};
use recalc::{Refusal, Size};

#[derive(Clone, Copy)]
pub enum Axis {
    Row,
    Column,
}

#[derive(Clone, Copy)]
pub enum Change {
    // A line is inserted before the line named.
    Insert,
    // The line named is deleted.
    Delete,
}

#[derive(Clone, Copy)]
pub struct Shift {
    pub axis: Axis,
    pub change: Change,
    pub line: u64,
}

// So many lines, from the first one on.
#[derive(Clone, Copy)]
pub struct Span {
    pub first: u64,
    pub count: u64,
}

impl Axis {
    // The first for rows, the second for columns.
    pub fn pick(self, of_rows: u64, of_cols: u64) -> u64
        ensures { result ≡ by_axis self of_rows of_cols }
    {
        match self {
            Axis::Row => of_rows,
            Axis::Column => of_cols,
        }
    }
}

impl Shift {
    // Where line n is afterwards; None if it was deleted. The number 2^64 - 1 stays.
    pub fn line_after(self, n: u64) -> Option<u64>
        ensures { result ≡ line_after self n }
    {
        match self.change {
            Change::Delete if n == self.line => None,
            _ if n < self.line => Some(n),
            Change::Insert => Some(n.saturating_add(1)),
            Change::Delete => Some(n - 1),
        }
    }

    // Where line n was; None if it is new.
    pub(crate) fn line_before(self, n: u64) -> Option<u64>
        requires { n < u64.MAX }
        ensures { result ≡ line_from None self.change self.line Some n }
    {
        match self.change {
            _ if n < self.line => Some(n),
            Change::Insert if n == self.line => None,
            Change::Insert => Some(n - 1),
            Change::Delete => Some(n + 1),
        }
    }

    // Where the lines of a span are afterwards, and how many; None if their only line was deleted.
    pub fn span_after(self, span: Span) -> Option<Span>
        ensures { result ≡ span_after self span }
    {
        let Span { first, count } = span;
        let p = self.line;
        match self.change {
            Change::Insert => {
                let start = if first < p {
                    first
                } else {
                    first.saturating_add(1)
                };
                let grows = first < p && p - first < count;
                let lines = if grows {
                    count.saturating_add(1)
                } else {
                    count
                };
                Some(Span {
                    first: start,
                    count: lines,
                })
            }
            Change::Delete if first == p && count == 1 => None,
            Change::Delete => {
                let shrinks = first <= p && p - first < count;
                Some(Span {
                    first: if p < first { first - 1 } else { first },
                    count: if shrinks { count - 1 } else { count },
                })
            }
        }
    }

    // Where a cell is afterwards; None if its line was deleted.
    pub fn reference_after(self, cell: CellRef) -> Option<CellRef>
        ensures { result ≡ ref_after self cell }
    {
        let line = self.line_after(cell.along(self.axis))?;
        Some(cell.with(self.axis, line))
    }

    // Where a range is afterwards; None if it had the deleted line and no other.
    pub fn range_after(self, range: Range) -> Option<Range>
        ensures { result ≡ range_after self range }
    {
        let span = self.span_after(range.along(self.axis))?;
        Some(range.with(self.axis, span))
    }

    // The first refusal that applies, where there may be as many rows and columns as `most` says.
    pub fn check(self, size: Size, most: Size) -> Result<(), Refusal>
        ensures { result ≡ shift_allowed self size most }
    {
        let lines = size.along(self.axis);
        let most = most.along(self.axis);
        match self.change {
            Change::Insert if self.line > lines => Err(Refusal::NoLine),
            Change::Insert if lines >= most => Err(Refusal::Full),
            Change::Delete if self.line >= lines => Err(Refusal::NoLine),
            Change::Delete if lines <= 1 => Err(Refusal::OnlyLine),
            _ => Ok(()),
        }
    }
}
