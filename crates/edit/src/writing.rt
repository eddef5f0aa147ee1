// A write into a lent sheet, with the row of what it shows.
ghost use Rattle.std.specs.Prelude.{◌≡◌, true, is_ok};
ghost use Rattle.recalc.specs.Layout.{checked};
ghost use Rattle.recalc.specs.Sheets.{inside, sheet_in};
ghost use Rattle.recalc.specs.Numbered.{number_of};
ghost use Rattle.recalc.specs.Showing.{ShownIn};
ghost use Rattle.edit.specs.Writes.{allowed};
ghost use Rattle.edit.specs.Memory.{Ready, WroteAsked, Writes, ShowsAndWrites};
ghost use Rattle.edit.specs.States.{state};

use crate::changes::Changes;
use crate::check::check_write;
use crate::memory::put_cell;
use crate::write::Write;
use recalc::{LentSheet, Overwritten, Refusal, Room, show_sheet};

// A write that is not refused. The sheet and its row are lent apart: while it goes on, the row is not what the sheet shows. Room and lists too:
// the caller reads the lists, and nobody the room.
fn write_inside(
    nums: &mut [u64],
    values: &mut [u64],
    write: Write<'_>,
    room: &mut Room,
    changes: &mut Changes,
)
    requires sheet { is_ok (checked nums.old) ≡ true }
    requires shown { ShownIn (sheet_in nums.old) values.old }
    requires allowed { is_ok (allowed write (sheet_in nums.old)) ≡ true }
    ensures wrote { WroteAsked write.entry (state nums.old values.old changes.old) (state nums.new values.new changes.new) }
    ensures ready { Ready (state nums.new values.new changes.new) }
{
    let cell = LentSheet::of(nums).number(write.place);
    put_cell(nums, cell, write.formula);
    let after = LentSheet::of(nums);
    room.recalculate(&after, &Overwritten { values, cell });
    changes.tell(&after, room, values);
}

// Writes into a sheet that is not refused, of which `values` has what it shows. The cell is worked out, and so are the formulas that
// looked at something that shows something else now; only what shows something else is written into `values`. Both are listed in
// `changes`. A refusal changes nothing. For callers that know this of what they lend; a `ShownSheet` carries it along.
pub fn write_cell(
    nums: &mut [u64],
    values: &mut [u64],
    write: Write<'_>,
    room: &mut Room,
    changes: &mut Changes,
) -> Result<(), Refusal>
    requires sheet { is_ok (checked nums.old) ≡ true }
    requires shown { ShownIn (sheet_in nums.old) values.old }
    ensures { Writes write.entry (state nums.old values.old changes.old) result (state nums.new values.new changes.new) }
{
    check_write(&LentSheet::of(nums), write)?;
    write_inside(nums, values, write, room, changes);
    Ok(())
}

// Shows the sheet in `values` first: for callers that do not know what it holds.
pub fn write_shown(
    nums: &mut [u64],
    values: &mut [u64],
    write: Write<'_>,
    room: &mut Room,
    changes: &mut Changes,
) -> Result<(), Refusal>
    ensures { ShowsAndWrites write.entry (state nums.old values.old changes.old) result (state nums.new values.new changes.new) }
{
    show_sheet(nums, values)?;
    write_cell(nums, values, write, room, changes)
}
