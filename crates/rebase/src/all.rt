// A row of writes carried over a shift.
ghost use Rattle.std.specs.Prelude.{◌≡◌, ◌+◌, ◌<◌, Ok, length, vec_capacity, OnErr};
ghost use Rattle.edit.specs.States.{state};
ghost use Rattle.rebase.specs.Rebased.{RebasesAll};
ghost use Rattle.rebase.specs.Promise.{BroughtTogether};

use crate::rebased::Rebased;
use crate::rebasing::rebase_write;
use edit::{Changes, Room, ShownSheet, Write};
use recalc::Refusal;
use shift::Shift;
use std::alloc::AllocError;

// Writes that were made on the sheet before a shift, done on the sheet after it, one after the other; a refused one does not stop the
// others. What became of each is added to `answers`; `changes` has the lists of the last that was done. Want of memory is found before the
// first write.
pub fn rebase_all(
    sheet: &mut ShownSheet<'_>,
    shift: Shift,
    writes: &[Write<'_>],
    room: &mut Room,
    changes: &mut Changes,
    answers: &mut Vec<Result<Rebased, Refusal>>,
) -> Result<(), AllocError>
    ensures same { (sheet.new.nums.ghost_name ≡ sheet.old.nums.ghost_name) × (sheet.new.values.ghost_name ≡ sheet.old.values.ghost_name) }
    ensures all { RebasesAll shift writes.now (state sheet.old.nums.now sheet.old.values.now changes.old) answers.old.items result (state sheet.new.nums.now sheet.new.values.now changes.new) answers.new.items }
    ensures wants { OnErr result (vec_capacity answers.old < length answers.old.items + length writes.now) }
    ensures together { result ≡ Ok tt → BroughtTogether shift writes.now sheet.old.nums.now sheet.new.nums.now }
{
    answers.reserve(writes.len())?;
    for write in writes {
        let answer = rebase_write(sheet, shift, *write, room, changes);
        answers.push_reserved(answer);
    }
    Ok(())
}
