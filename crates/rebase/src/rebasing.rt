// One write carried over a shift, and done.
ghost use Rattle.std.specs.Prelude.{◌≡◌, length, Some};
ghost use Rattle.formula.specs.Moving.{moved_row};
ghost use Rattle.recalc.specs.Sheets.{sheet_in};
ghost use Rattle.shift.specs.Shifts.{ref_after, range_after};
ghost use Rattle.edit.specs.Writes.{asked};
ghost use Rattle.edit.specs.States.{state};
ghost use Rattle.rebase.specs.Rebased.{moved_write, Does, Rebases};

use crate::rebased::Rebased;
use edit::{Changes, Room, ShownSheet, Write};
use formula::{CellRef, FORMULA_LEN, rewrite};
use recalc::Refusal;
use shift::Shift;

// The tokens as a shift leaves them, in a row of their length.
fn carry_tokens(tokens: &[u64], shift: Shift, carried: &mut [u64])
    requires { length carried.old ≡ length tokens.now }
    ensures { carried.new ≡ moved_row (ref_after shift) (range_after shift) tokens.now }
{
    carried.copy_from_slice(tokens);
    rewrite(carried, &shift);
}

// Writes at a place what a shift makes of a formula. More tokens than a formula can have are none, and have no room in the buffer.
fn write_carried(
    sheet: &mut ShownSheet<'_>,
    place: CellRef,
    tokens: &[u64],
    shift: Shift,
    room: &mut Room,
    changes: &mut Changes,
) -> Result<(), Refusal>
    ensures same { (sheet.new.nums.ghost_name ≡ sheet.old.nums.ghost_name) × (sheet.new.values.ghost_name ≡ sheet.old.values.ghost_name) }
    ensures does { Does (moved_write shift (sheet_in sheet.old.nums.now) place (asked (Some tokens.entry))) (state sheet.old.nums.now sheet.old.values.now changes.old) result (state sheet.new.nums.now sheet.new.values.now changes.new) }
{
    if tokens.len() > FORMULA_LEN {
        return Err(Refusal::Malformed(0));
    }
    let mut buffer = [0; FORMULA_LEN];
    let carried = &mut buffer[..tokens.len()];
    carry_tokens(tokens, shift, carried);
    let formula = Some(&*carried);
    sheet.write(Write { place, formula }, room, changes)
}

// Does a write that has its new place already, and its formula as it was.
fn write_moved(
    sheet: &mut ShownSheet<'_>,
    write: Write<'_>,
    shift: Shift,
    room: &mut Room,
    changes: &mut Changes,
) -> Result<(), Refusal>
    ensures same { (sheet.new.nums.ghost_name ≡ sheet.old.nums.ghost_name) × (sheet.new.values.ghost_name ≡ sheet.old.values.ghost_name) }
    ensures does { Does (moved_write shift (sheet_in sheet.old.nums.now) write.entry.place (asked write.entry.formula)) (state sheet.old.nums.now sheet.old.values.now changes.old) result (state sheet.new.nums.now sheet.new.values.now changes.new) }
{
    match write.formula {
        None => sheet.write(write, room, changes),
        Some(tokens) => write_carried(sheet, write.place, tokens, shift, room, changes),
    }
}

// A write that was made on the sheet before a shift, done on the sheet after it: where its cell is now, its formula shifted as if it had
// stood there. If its line was deleted it is dropped, whatever it asked for.
pub fn rebase_write(
    sheet: &mut ShownSheet<'_>,
    shift: Shift,
    write: Write<'_>,
    room: &mut Room,
    changes: &mut Changes,
) -> Result<Rebased, Refusal>
    ensures same { (sheet.new.nums.ghost_name ≡ sheet.old.nums.ghost_name) × (sheet.new.values.ghost_name ≡ sheet.old.values.ghost_name) }
    ensures rebases { Rebases shift write.entry (state sheet.old.nums.now sheet.old.values.now changes.old) result (state sheet.new.nums.now sheet.new.values.now changes.new) }
{
    let Some(place) = shift.reference_after(write.place) else {
        return Ok(Rebased::Dropped);
    };
    write_moved(sheet, Write { place, ..write }, shift, room, changes)?;
    Ok(Rebased::Written)
}
