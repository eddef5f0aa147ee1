// A sheet in lent memory, shifted or refused.
ghost use Rattle.std.specs.Prelude.{◌≡◌, Ok, Err};
ghost use Rattle.std.specs.Result.{MatchResult};
ghost use Rattle.shift.specs.Memory.{shift_checked, Shifts};

use crate::memory::shift_memory;
use crate::reshape::Reshape;
use crate::shift::Shift;
use recalc::{Refusal, Size, check_fitting};

// A shift that the sheet fits, or the first refusal that applies.
fn check_shift(nums: &[u64], shift: Shift, most: Size) -> Result<Reshape, Refusal>
    ensures { MatchResult result (λ r. (r.shift ≡ shift) × (shift_checked shift most nums.now ≡ Ok r.size)) (λ e. shift_checked shift most nums.now ≡ Err e) }
{
    let size = check_fitting(nums, most)?;
    shift.check(size, most)?;
    Ok(Reshape { shift, size })
}

// Shifts the sheet where it lies, if it may come to have as many rows and columns as `most` says; a refusal changes nothing.
pub fn shift_sheet(nums: &mut [u64], shift: Shift, most: Size) -> Result<(), Refusal>
    ensures { Shifts shift most nums.old result nums.new }
{
    let reshape = check_shift(nums, shift, most)?;
    shift_memory(nums, reshape);
    Ok(())
}
