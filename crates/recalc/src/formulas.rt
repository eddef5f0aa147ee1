// Cells that look at one another, as an engine sees them: any language of formulas.
ghost use Rattle.std.specs.Prelude.{◌≡◌, ℕ, ◌<◌, length};
ghost use Rattle.evaluate.specs.declared.value.Value.{Value};
ghost use Rattle.recalc.specs.Language.{Language, Lawful};
ghost use Rattle.recalc.specs.Table.{Right, Answers, NeedsWithin};
ghost use Rattle.recalc.specs.Numbered.{known_of};
ghost use Rattle.recalc.specs.Showing.{value_known};

use evaluate::Value;

#[derive(Clone, Copy)]
pub enum Progress {
    Waiting,
    // On the stack, at this place.
    Open(usize),
    Known(Value),
}

impl Progress {
    pub fn value(self) -> Option<Value>
        ensures { result ≡ known_of self }
    {
        match self {
            Progress::Known(value) => Some(value),
            _ => None,
        }
    }

    // What the cell shows after a recalculation, when every cell is known.
    pub fn known_value(self) -> Value
        ensures { result ≡ value_known self }
    {
        self.value().unwrap_or(Value::Empty)
    }
}

// Formulas in cells: the language says what each comes to and where it looks, an attempt works one out.
pub trait Formulas {
    ghost language: { Self → Language };

    // The value of cell k, from what is known; or the first cell looked at that is not known.
    fn attempt(&self, k: usize, table: &[Progress]) -> Result<Value, usize>
        requires within { k < (language self.now).count }
        requires size { length table.now ≡ (language self.now).count }
        ensures within { NeedsWithin (language self.now).count result }
        ensures answers { (f : ℕ → Value) → Right f table.now → Answers ((language self.now).work f k) ((language self.now).looks f k) table.now result };

    ghost lawful: { (s : Self) → Lawful (language s) };
}
