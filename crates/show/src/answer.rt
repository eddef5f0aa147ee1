// A sheet that a text gives, as it is to be seen, or why there is none.
ghost use Rattle.std.specs.Prelude.{◌≡◌, Ok, string_bytes, MatchResult};
ghost use Rattle.show.specs.Failures.{sheet_seen, text_seen, Fails};

use crate::failure::Failure;
use crate::seeing::seen;
use crate::view::View;
use notation::parse_numbers;
use recalc::LentSheet;
use std::alloc::Global;

// The view of a sheet.
pub fn see_sheet(heap: Global, view: View, nums: &[u64]) -> Result<String, Failure>
    ensures { MatchResult result (λ s. sheet_seen view nums.now ≡ Ok (string_bytes s)) (Fails (sheet_seen view nums.now)) }
{
    let sheet = LentSheet::check(nums)?;
    Ok(seen(heap, view, sheet)?)
}

// The same of a sheet that is given as decimal numbers.
pub fn see_text(heap: Global, view: View, text: &str) -> Result<String, Failure>
    ensures { MatchResult result (λ s. text_seen view text.now ≡ Ok (string_bytes s)) (Fails (text_seen view text.now)) }
{
    let numbers = parse_numbers(heap, text)?;
    see_sheet(heap, view, numbers.as_slice())
}
