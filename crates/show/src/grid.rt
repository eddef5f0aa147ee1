// Entries in rows and columns, as text: a line a row.
ghost use Rattle.std.specs.Prelude.{◌≡◌, ℕ, List, Some, codes};
ghost use Rattle.show.specs.Grids.{gap, between, row_text, grid_text};

use std::fmt;
use std::fmt::Display;

pub trait Grid {
    type Entry: Display + Copy;

    // The text of an entry, by its row and column.
    ghost text: { Self → ℕ → ℕ → List ℕ };

    fn entry(&self, row: u64, col: u64) -> Self::Entry
        ensures { Self.Entry.output result ≡ Some (text self.now row col) };
}

// What stands before an entry: nothing in the first column.
fn gap(between: &str, col: u64) -> &str
    ensures { result.now ≡ gap between.now col }
{
    if col == 0 { "" } else { between }
}

// Fields of its own: tried a `&Lines` in place of three, and the loop of `Lines` got no generated proof. Rows and columns apart, here and
// below, and no CellRef or Size: they are what the loops count.
#[derive(Clone, Copy)]
struct Row<'a, G> {
    grid: &'a G,
    row: u64,
    cols: u64,
    between: &'a str,
}

impl<G: Grid> Display for Row<'_, G> {
    ghost output = { λ r. Some (row_text (between r.between.now (G.text r.grid.now)) r.cols r.row) };

    fn fmt<W: fmt::Write>(&self, f: &mut fmt::Formatter<W>) -> fmt::Result {
        for col in 0..self.cols {
            let before = gap(self.between, col);
            let entry = self.grid.entry(self.row, col);
            write!(f, "{before}{entry}")?;
        }
        f.write_str("\n")
    }
}

// A grid's lines, with something between each two entries of a line.
#[derive(Clone, Copy)]
pub struct Lines<'a, G> {
    pub grid: &'a G,
    pub rows: u64,
    pub cols: u64,
    pub between: &'a str,
}

impl<G: Grid> Display for Lines<'_, G> {
    ghost output = { λ l. Some (grid_text (between l.between.now (G.text l.grid.now)) l.rows l.cols) };

    fn fmt<W: fmt::Write>(&self, f: &mut fmt::Formatter<W>) -> fmt::Result {
        for row in 0..self.rows {
            let line = Row {
                grid: self.grid,
                row,
                cols: self.cols,
                between: self.between,
            };
            line.fmt(f)?;
        }
        Ok(())
    }
}
