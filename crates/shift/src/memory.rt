// A sheet in lent memory, shifted where it lies.
ghost use Rattle.std.specs.Prelude.{◌≡◌, ◌*◌, ◌≤◌, max, true, length, is_ok, Ok};
ghost use Rattle.formula.specs.Layout.{cell_len};
ghost use Rattle.recalc.specs.Layout.{sheet_len, size_in, checked};
ghost use Rattle.recalc.specs.Sheets.{sheet_in, Same};
ghost use Rattle.shift.specs.Entries.{size_after, cells_of};
ghost use Rattle.shift.specs.Sheets.{shifted};
ghost use Rattle.shift.specs.Memory.{cells_after, shifted_memory};

use crate::cells::shift_cells;
use crate::entries::shift_entries;
use crate::reshape::Reshape;
use formula::CELL_LEN;
use recalc::HEADER_LEN;

// The cells are moved to their places, and then the formulas are shifted.
fn shift_grid(cells: &mut [u64], reshape: Reshape)
    requires room { cell_len * max (cells_of reshape.size) (cells_of (size_after reshape.shift reshape.size)) ≤ length cells.old }
    ensures { cells.new ≡ cells_after reshape.shift reshape.size cells.old }
{
    shift_entries::<CELL_LEN>(cells, reshape);
    shift_cells(
        &mut cells[..CELL_LEN * reshape.entries_after()],
        reshape.shift,
    );
}

// The sheet of this size in a memory that has room for it afterwards. A sheet that was not refused is not refused afterwards.
pub fn shift_memory(nums: &mut [u64], reshape: Reshape)
    requires size { reshape.size ≡ size_in nums.old }
    requires room { sheet_len (max (cells_of reshape.size) (cells_of (size_after reshape.shift reshape.size))) ≤ length nums.old }
    ensures numbers { nums.new ≡ shifted_memory reshape.shift nums.old }
    ensures sheet { Same (sheet_in nums.new) (shifted reshape.shift (sheet_in nums.old)) }
    ensures formed { is_ok (checked nums.old) ≡ true → checked nums.new ≡ Ok (size_after reshape.shift reshape.size) }
{
    shift_grid(&mut nums[HEADER_LEN..], reshape);
    let after = reshape.size_after();
    nums[0] = after.rows;
    nums[1] = after.cols;
}
