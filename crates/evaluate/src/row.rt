// Values one after another in a lent row, two numbers each.
ghost use Rattle.std.specs.Prelude.{◌≡◌, ◌+◌, ◌*◌, ◌≤◌, length};
ghost use Rattle.evaluate.specs.Rows.{value_at, with_value};

use crate::value::Value;

impl Value {
    // Value k; None where the row ends before, or where two numbers stand for nothing that a cell shows.
    pub fn read(values: &[u64], k: usize) -> Option<Value>
        ensures { result ≡ value_at values.now k }
    {
        if k >= values.len() / 2 {
            return None;
        }
        Value::try_from([values[2 * k], values[2 * k + 1]]).ok()
    }

    // Overwrites value k.
    pub fn write(self, values: &mut [u64], k: usize)
        requires { 2 * k + 2 ≤ length values.old }
        ensures { values.new ≡ with_value values.old k self }
    {
        let numbers = <[u64; 2]>::from(self);
        values[2 * k..2 * k + 2].copy_from_slice(&numbers);
    }
}
