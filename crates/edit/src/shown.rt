// Writes into a sheet of which the row of values is known to be what it shows.
ghost use Rattle.std.specs.Prelude.{◌≡◌, true, is_ok, IfOk};
ghost use Rattle.recalc.specs.Layout.{checked};
ghost use Rattle.recalc.specs.Sheets.{sheet_in};
ghost use Rattle.recalc.specs.Showing.{answered, kept, shown_in, ShownIn};
ghost use Rattle.edit.specs.Memory.{Writes};
ghost use Rattle.edit.specs.States.{state};

use crate::changes::Changes;
use crate::shown_sheet::ShownSheet;
use crate::write::Write;
use crate::writing::write_cell;
use recalc::{Refusal, Room, show_sheet};

impl<'a> ShownSheet<'a> {
    // Shows the sheet in the row; what the row holds after a refusal is told by `show_sheet`.
    pub fn show(nums: &'a mut [u64], values: &'a mut [u64]) -> Result<ShownSheet<'a>, Refusal>
        ensures same { IfOk result (λ s. (s.nums.ghost_name ≡ nums.entry.ghost_name) × (s.values.ghost_name ≡ values.entry.ghost_name)) }
        ensures answer { answered result ≡ answered (shown_in nums.old values.old) }
        ensures memory { IfOk result (λ s. s.nums.now ≡ nums.old) }
        ensures row { IfOk result (λ s. s.values.now ≡ kept values.old (shown_in nums.old values.old)) }
    {
        show_sheet(nums, values)?;
        Ok(ShownSheet { nums, values })
    }

    // For callers that know it already.
    pub fn of(nums: &'a mut [u64], values: &'a mut [u64]) -> ShownSheet<'a>
        requires sheet { is_ok (checked nums.old) ≡ true }
        requires shown { ShownIn (sheet_in nums.old) values.old }
        ensures same { (result.nums.ghost_name ≡ nums.entry.ghost_name) × (result.values.ghost_name ≡ values.entry.ghost_name) }
        ensures memory { result.nums.now ≡ nums.old }
        ensures row { result.values.now ≡ values.old }
    {
        ShownSheet { nums, values }
    }

    // The row: two numbers a cell, in reading order.
    pub fn values(&self) -> &[u64]
        ensures { result.now ≡ self.now.values.now }
    {
        self.values
    }

    // As `write_cell`, which stays beside it for those who hold the two rows: what a `ShownSheet` that is gone has left in them no proof knows.
    pub fn write(
        &mut self,
        write: Write<'_>,
        room: &mut Room,
        changes: &mut Changes,
    ) -> Result<(), Refusal>
        ensures same { (self.new.nums.ghost_name ≡ self.old.nums.ghost_name) × (self.new.values.ghost_name ≡ self.old.values.ghost_name) }
        ensures written { Writes write.entry (state self.old.nums.now self.old.values.now changes.old) result (state self.new.nums.now self.new.values.now changes.new) }
    {
        write_cell(self.nums, self.values, write, room, changes)
    }
}
