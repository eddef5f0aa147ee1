// Which formulas were worked out again.
ghost use Rattle.std.specs.Prelude.{◌≡◌, ◌≤◌, ◌&&◌, [], length, is_some};
ghost use Rattle.formula.specs.Cells.{content};
ghost use Rattle.evaluate.specs.Limits.{max_cells};
ghost use Rattle.recalc.specs.Layout.{cols_in, cell_numbers};
ghost use Rattle.recalc.specs.Marks.{is_marked};
ghost use Rattle.recalc.specs.Sheets.{formula_in};
ghost use Rattle.edit.specs.Places.{places_from};
ghost use Rattle.edit.specs.Values.{formula_marked};

use crate::place_list::PlaceList;
use formula::Cell;
use recalc::{LentSheet, Mark};

fn is_recalculated(sheet: &LentSheet<'_>, mark: Mark, k: usize) -> bool
    ensures { result ≡ (is_marked mark && is_some (formula_in (content (cell_numbers k sheet.now.nums.now)))) }
{
    mark.is_marked() && matches!(sheet.cell(k), Cell::Formula(_))
}

// Lists the places that hold a formula and are marked. The marks are lent and no room: that they are few is all that is asked of the rest.
pub fn list_recalculated(sheet: &LentSheet<'_>, marks: &[Mark], list: &mut PlaceList)
    requires few { length marks.now ≤ max_cells }
    requires empty { list.old.places.items ≡ [] }
    ensures { list.new.places.items ≡ places_from (cols_in sheet.now.nums.now) (formula_marked sheet.now.nums.now marks.now) 0 (length marks.now) }
{
    for (k, mark) in marks.iter().enumerate() {
        if is_recalculated(sheet, *mark, k) {
            list.add(sheet.place(k));
        }
    }
}
