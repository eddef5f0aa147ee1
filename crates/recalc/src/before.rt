// What is known of the cells from before a change.
ghost use Rattle.std.specs.Prelude.{◌≡◌, ℕ, Bool, true, ◌==◌};
ghost use Rattle.evaluate.specs.declared.value.Value.{Value};
ghost use Rattle.evaluate.specs.declared.value.Value.TheVariants.{Empty};
ghost use Rattle.recalc.specs.Before.{shows, listed, row_shows};

use evaluate::Value;

// What each cell showed, and which were written since.
pub trait Before {
    ghost shows: { Self → ℕ → Value };

    ghost written: { Self → ℕ → Bool };

    fn value(&self, k: usize) -> Value
        ensures { result ≡ shows self.now k };

    fn is_written(&self, k: usize) -> bool
        ensures { result ≡ written self.now k };
}

// Nothing was shown, and every cell is new.
#[derive(Clone, Copy)]
pub struct Unshown;

impl Before for Unshown {
    ghost shows = { λ b k. Empty };

    ghost written = { λ b k. true };

    fn value(&self, _: usize) -> Value {
        Value::Empty
    }

    fn is_written(&self, _: usize) -> bool {
        true
    }
}

// A list of values and one of marks; behind their ends nothing was shown and nothing is written. Two lists and none of pairs, since who has
// them has them so.
#[derive(Clone, Copy)]
pub struct Lists<'a> {
    pub values: &'a [Value],
    pub written: &'a [bool],
}

impl<'a> Before for Lists<'a> {
    ghost shows = { λ b. shows b.values.now };

    ghost written = { λ b. listed b.written.now };

    fn value(&self, k: usize) -> Value {
        self.values.get(k).copied().unwrap_or(Value::Empty)
    }

    fn is_written(&self, k: usize) -> bool {
        self.written.get(k).copied().unwrap_or(false)
    }
}

// What a lent row of values, two numbers a cell, says of cell k; Empty behind its end.
pub fn row_value(values: &[u64], k: usize) -> Value
    ensures { result ≡ row_shows values.now k }
{
    Value::read(values, k).unwrap_or(Value::Empty)
}

// A lent row of values, and the one cell that was overwritten since.
#[derive(Clone, Copy)]
pub struct Overwritten<'a> {
    pub values: &'a [u64],
    pub cell: usize,
}

impl<'a> Before for Overwritten<'a> {
    ghost shows = { λ b. row_shows b.values.now };

    ghost written = { λ b k. k == b.cell };

    fn value(&self, k: usize) -> Value {
        row_value(self.values, k)
    }

    fn is_written(&self, k: usize) -> bool {
        k == self.cell
    }
}
