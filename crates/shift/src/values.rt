// The row of what a sheet shows, after an insertion.
ghost use Rattle.std.specs.Prelude.{◌≡◌, ◌*◌, ◌≤◌, length};
ghost use Rattle.recalc.specs.Sheets.{Sheet};
ghost use Rattle.recalc.specs.Showing.{ShownIn};
ghost use Rattle.shift.specs.declared.shift.Change.TheVariants.{Insert};
ghost use Rattle.shift.specs.Entries.{size_after, cells_of, shifted_entries};
ghost use Rattle.shift.specs.Sheets.{shifted};
ghost use Rattle.shift.specs.Values.{value_len};

use crate::entries::shift_entries;
use crate::reshape::Reshape;

// How many numbers a value has.
const VALUE_LEN: usize = 2;

// Each value moves to its cell's new place, and the new line is empty. That is what the shifted sheet shows: nothing is worked out.
pub fn insert_values(values: &mut [u64], reshape: Reshape)
    requires change { reshape.shift.change ≡ Insert }
    requires room { value_len * cells_of (size_after reshape.shift reshape.size) ≤ length values.old }
    ensures numbers { values.new ≡ shifted_entries value_len reshape.shift reshape.size values.old }
    ensures shown { (s : Sheet) → s.rows ≡ reshape.size.rows → s.cols ≡ reshape.size.cols → ShownIn s values.old → ShownIn (shifted reshape.shift s) values.new }
{
    shift_entries::<VALUE_LEN>(values, reshape);
}
