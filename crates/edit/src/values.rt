// The row of what the cells show: overwritten where a cell shows something else after a write.
ghost use Rattle.std.specs.Prelude.{◌≡◌, ◌+◌, ◌*◌, ◌≤◌, [], ◌++◌, length, drop};
ghost use Rattle.evaluate.specs.Limits.{max_cells};
ghost use Rattle.recalc.specs.Before.{row_shows};
ghost use Rattle.recalc.specs.Layout.{cols_in};
ghost use Rattle.recalc.specs.Showing.{values_from, table_shows};
ghost use Rattle.edit.specs.Places.{places_from};
ghost use Rattle.edit.specs.Changes.{differs};
ghost use Rattle.edit.specs.Values.{table_differs};

use crate::place_list::PlaceList;
use evaluate::Value;
use recalc::{LentSheet, Progress, row_value};

// A function of its own, so that the proof of the loop can name the test.
fn is_changed(value: Value, before: Value) -> bool
    ensures { result ≡ differs value before }
{
    value != before
}

// Overwrites the values of the cells that show something else than the row says, and lists their places. One list alone is lent, and no
// `Changes`: that is all that is asked of the rest.
pub fn write_changes(
    sheet: &LentSheet<'_>,
    table: &[Progress],
    values: &mut [u64],
    list: &mut PlaceList,
)
    requires few { length table.now ≤ max_cells }
    requires room { 2 * length table.now ≤ length values.old }
    requires shown { values.old ≡ values_from (row_shows values.old) 0 (length table.now) ++ drop (2 * length table.now) values.old }
    requires empty { list.old.places.items ≡ [] }
    ensures values { values.new ≡ values_from (table_shows table.now) 0 (length table.now) ++ drop (2 * length table.now) values.old }
    ensures changed { list.new.places.items ≡ places_from (cols_in sheet.now.nums.now) (table_differs table.now (row_shows values.old)) 0 (length table.now) }
{
    // The row by number, as in `write_values` of recalc.
    for (k, progress) in table.iter().enumerate() {
        let before = row_value(values, k);
        let value = progress.known_value();
        if is_changed(value, before) {
            value.write(values, k);
            list.add(sheet.place(k));
        }
    }
}
