// A table that is being filled is what the cells show so far.
ghost use Rattle.recalc.specs.Filling.{in_table};

use crate::filled::Filled;
use evaluate::{Cells, Value};
use formula::CellRef;

impl<'a> Cells for Filled<'a> {
    ghost sheet = { λ s. record { height = s.size.rows; width = s.size.cols; shown = in_table s } };

    fn rows(&self) -> u64 {
        self.size.rows
    }

    fn cols(&self) -> u64 {
        self.size.cols
    }

    fn at(&self, place: CellRef) -> Option<Value> {
        if !self.size.contains(place) {
            return Some(Value::Empty);
        }
        self.table[self.size.number(place)].value()
    }
}
