// The formulas of a sheet's cells, shifted where they stand.
ghost use Rattle.std.specs.Prelude.{◌≡◌, ◌*◌, ◌/◌, length, drop};
ghost use Rattle.formula.specs.Layout.{cell_len};
ghost use Rattle.recalc.specs.Entries.{entry};
ghost use Rattle.shift.specs.Memory.{shifted_cell, shifted_cells};

use crate::shift::Shift;
use formula::{CELL_LEN, MAX_TOKENS, TOKEN_LEN, rewrite};

fn shift_cell(cell: &mut [u64], shift: Shift)
    requires { length cell.old ≡ cell_len }
    ensures { cell.new ≡ shifted_cell shift cell.old }
{
    let count = cell[0].min(MAX_TOKENS as u64) as usize;
    rewrite(&mut cell[1..1 + TOKEN_LEN * count], &shift);
}

// Each cell of a row of cells.
pub(crate) fn shift_cells(cells: &mut [u64], shift: Shift)
    ensures { cells.new ≡ shifted_cells shift (λ k. entry cell_len k cells.old) (length cells.old / cell_len) (drop (cell_len * (length cells.old / cell_len)) cells.old) }
{
    // By number: after `chunks_exact_mut` a proof knows the length of a slice and none of its numbers.
    for k in 0..cells.len() / CELL_LEN {
        let from = CELL_LEN * k;
        shift_cell(&mut cells[from..from + CELL_LEN], shift);
    }
}
