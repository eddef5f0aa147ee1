// What a write tells: the places that show something else, and those whose formulas were worked out again.
ghost use Rattle.std.specs.Prelude.{◌≡◌, ◌*◌, ◌≤◌, [], ◌++◌, length, take, drop, IfOk};
ghost use Rattle.recalc.specs.Before.{row_shows};
ghost use Rattle.recalc.specs.Layout.{cols_in};
ghost use Rattle.recalc.specs.Sheets.{sheet_in};
ghost use Rattle.recalc.specs.Numbered.{count};
ghost use Rattle.recalc.specs.Showing.{values_from, table_shows};
ghost use Rattle.edit.specs.Places.{places_from};
ghost use Rattle.edit.specs.Values.{table_differs, formula_marked};

use crate::formulas::list_recalculated;
use crate::place_list::PlaceList;
use crate::values::write_changes;
use formula::CellRef;
use recalc::{LentSheet, Room};
use std::alloc::{AllocError, Global};

#[derive(Drop)]
pub struct Changes {
    pub(crate) changed: PlaceList,
    pub(crate) recalculated: PlaceList,
}

impl Changes {
    pub fn new(heap: Global) -> Result<Changes, AllocError>
        ensures { IfOk result (λ v. (v.changed.places.items ≡ []) × (v.recalculated.places.items ≡ [])) }
    {
        let changed = PlaceList::new(heap)?;
        let recalculated = PlaceList::new(heap)?;
        Ok(Changes {
            changed,
            recalculated,
        })
    }

    // In reading order, as the next list.
    pub fn changed(&self) -> &[CellRef]
        ensures { result.now ≡ self.now.changed.places.items }
    {
        self.changed.as_slice()
    }

    pub fn recalculated(&self) -> &[CellRef]
        ensures { result.now ≡ self.now.recalculated.places.items }
    {
        self.recalculated.as_slice()
    }

    fn clear(&mut self)
        ensures changed { self.new.changed.places.items ≡ [] }
        ensures recalculated { self.new.recalculated.places.items ≡ [] }
    {
        self.changed.clear();
        self.recalculated.clear();
    }

    // After a recalculation of the sheet: brings the row of values up to date, and lists what changed and what was worked out again.
    pub(crate) fn tell(&mut self, sheet: &LentSheet<'_>, room: &Room, values: &mut [u64])
        requires room { 2 * count (sheet_in sheet.now.nums.now) ≤ length values.old }
        requires shown { values.old ≡ values_from (row_shows values.old) 0 (count (sheet_in sheet.now.nums.now)) ++ drop (2 * count (sheet_in sheet.now.nums.now)) values.old }
        requires table { length (take (count (sheet_in sheet.now.nums.now)) room.now.table) ≡ count (sheet_in sheet.now.nums.now) }
        requires marks { length (take (count (sheet_in sheet.now.nums.now)) room.now.marks) ≡ count (sheet_in sheet.now.nums.now) }
        ensures values { values.new ≡ values_from (table_shows (take (count (sheet_in sheet.now.nums.now)) room.now.table)) 0 (count (sheet_in sheet.now.nums.now)) ++ drop (2 * count (sheet_in sheet.now.nums.now)) values.old }
        ensures changed { self.new.changed.places.items ≡ places_from (cols_in sheet.now.nums.now) (table_differs (take (count (sheet_in sheet.now.nums.now)) room.now.table) (row_shows values.old)) 0 (count (sheet_in sheet.now.nums.now)) }
        ensures recalculated { self.new.recalculated.places.items ≡ places_from (cols_in sheet.now.nums.now) (formula_marked sheet.now.nums.now (take (count (sheet_in sheet.now.nums.now)) room.now.marks)) 0 (count (sheet_in sheet.now.nums.now)) }
    {
        self.clear();
        write_changes(sheet, room.table(sheet), values, &mut self.changed);
        list_recalculated(sheet, room.marks(sheet), &mut self.recalculated);
    }
}
