// The text of a cell reference: its row and its column.
ghost use Rattle.std.specs.Prelude.{Some};
ghost use Rattle.formula.specs.Texts.{place_text};

use crate::token::CellRef;
use std::fmt;

impl fmt::Display for CellRef {
    ghost output = { λ p. Some (place_text p.row p.col) };

    fn fmt<W: fmt::Write>(&self, f: &mut fmt::Formatter<W>) -> fmt::Result {
        let row = self.row;
        let col = self.col;
        write!(f, "{row},{col}")
    }
}
