// A small sheet of values to work from.
ghost use Rattle.std.specs.Prelude.{◌+◌, ◌*◌, ◌&&◌, if◌then◌else◌, Some, None, nat_lt, slice_index_or};
ghost use Rattle.evaluate.specs.declared.value.Value.TheVariants.{Empty};

use evaluate::{CellError, Cells, Value};
use formula::CellRef;

// Three rows of three; of a cell that is None nothing is known.
#[derive(Drop)]
pub struct Grid {
    pub values: [Option<Value>; 9],
}

impl Cells for Grid {
    ghost sheet = { λ g. record { height = 3; width = 3; shown = λ r c. (if nat_lt r 3 && nat_lt c 3 then slice_index_or g.values (3 * r + c) None else Some Empty) } };

    fn rows(&self) -> u64 {
        3
    }

    fn cols(&self) -> u64 {
        3
    }

    fn at(&self, place: CellRef) -> Option<Value> {
        if place.row >= 3 || place.col >= 3 {
            return Some(Value::Empty);
        }
        self.values[(3 * place.row + place.col) as usize]
    }
}

// 5 . 18446744073709551615 / 7 by-nothing ring / 0 unknown lost
pub(crate) fn sample() -> Grid {
    Grid {
        values: [
            Some(Value::Number(5)),
            Some(Value::Empty),
            Some(Value::Number(u64::MAX)),
            Some(Value::Number(7)),
            Some(Value::Error(CellError::DivideByZero)),
            Some(Value::Error(CellError::Cycle)),
            Some(Value::Number(0)),
            None,
            Some(Value::Error(CellError::Lost)),
        ],
    }
}
