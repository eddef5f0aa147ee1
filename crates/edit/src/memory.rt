// A cell of a lent sheet, overwritten.
ghost use Rattle.std.specs.Prelude.{◌≡◌, ◌+◌, ◌≤◌, length, Some, Option};
ghost use Rattle.formula.specs.Layout.{cell_len};
ghost use Rattle.formula.specs.Formula.{Formula};
ghost use Rattle.recalc.specs.Layout.{sheet_len};
ghost use Rattle.edit.specs.Writes.{asked};
ghost use Rattle.edit.specs.Memory.{cell_stored, with_cell};

use formula::{CELL_LEN, Cell};
use recalc::HEADER_LEN;

fn store(cell: &mut [u64], formula: Option<&[u64]>)
    requires { length cell.old ≡ cell_len }
    ensures { (x : Option Formula) → asked formula.entry ≡ Some x → cell.new ≡ cell_stored x }
{
    match formula {
        None => cell.fill(0),
        Some(tokens) => {
            let _ = Cell::write(cell, tokens);
        },
    }
}

// Cell k becomes what is asked for, and all else stays as it was.
pub fn put_cell(nums: &mut [u64], k: usize, formula: Option<&[u64]>)
    requires { sheet_len k + cell_len ≤ length nums.old }
    ensures { (x : Option Formula) → asked formula.entry ≡ Some x → nums.new ≡ with_cell k (cell_stored x) nums.old }
{
    let from = HEADER_LEN + CELL_LEN * k;
    store(&mut nums[from..from + CELL_LEN], formula);
}
