// The formulas of a sheet as text, a line a cell.
ghost use Rattle.std.specs.Prelude.{Some};
ghost use Rattle.formula.specs.Cells.{meant};
ghost use Rattle.show.specs.Listing.{line_of, listing};

use formula::{Cell, CellRef};
use notation::Notation;
use recalc::LentSheet;
use std::fmt;
use std::fmt::Display;

#[derive(Clone, Copy)]
struct Line<'a> {
    place: CellRef,
    cell: Cell<'a>,
}

// No line at all, unless the cell holds a formula.
impl Display for Line<'_> {
    ghost output = { λ l. Some (line_of l.place.row l.place.col (meant l.cell)) };

    fn fmt<W: fmt::Write>(&self, f: &mut fmt::Formatter<W>) -> fmt::Result {
        match self.cell {
            Cell::Formula(tokens) => {
                let place = self.place;
                let formula = Notation { tokens };
                writeln!(f, "{place} {formula}")
            }
            Cell::Blank | Cell::Malformed => Ok(()),
        }
    }
}

#[derive(Clone, Copy)]
pub struct Listing<'a> {
    pub sheet: LentSheet<'a>,
}

// The lines of all cells, in reading order.
impl Display for Listing<'_> {
    ghost output = { λ l. Some (listing l.sheet.nums.now) };

    fn fmt<W: fmt::Write>(&self, f: &mut fmt::Formatter<W>) -> fmt::Result {
        // By number: the place and the cell both go by it, and a sheet has no iterator.
        for k in 0..self.sheet.count() {
            let place = self.sheet.place(k);
            let cell = self.sheet.cell(k);
            Line { place, cell }.fmt(f)?;
        }
        Ok(())
    }
}
