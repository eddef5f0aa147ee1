// Whether a write is refused.
ghost use Rattle.std.specs.Prelude.{◌≡◌};
ghost use Rattle.recalc.specs.Sheets.{sheet_in};
ghost use Rattle.edit.specs.Writes.{allowed, answered};

use crate::write::Write;
use formula::is_formula;
use recalc::{LentSheet, Refusal};

// The first refusal that applies to a write into the sheet.
pub fn check_write(sheet: &LentSheet<'_>, write: Write<'_>) -> Result<(), Refusal>
    ensures { result ≡ answered (allowed write.entry (sheet_in sheet.now.nums.now)) }
{
    if write.formula.is_some_and(|tokens| !is_formula(tokens)) {
        return Err(Refusal::Malformed(0));
    }
    if !sheet.size().contains(write.place) {
        return Err(Refusal::Outside);
    }
    Ok(())
}
