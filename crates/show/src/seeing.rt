// A sheet as it is to be seen.
ghost use Rattle.std.specs.Prelude.{◌≡◌, string_bytes, IfOk};
ghost use Rattle.recalc.specs.Layout.{size_in};
ghost use Rattle.recalc.specs.Sheets.{sheet_in};
ghost use Rattle.recalc.specs.Showing.{sheet_values};
ghost use Rattle.show.specs.Views.{view_text};

use crate::listing::Listing;
use crate::table::Table;
use crate::values::Values;
use crate::view::View;
use recalc::LentSheet;
use std::alloc::{AllocError, Global};

// What the cells show, two numbers a cell in reading order.
fn values_of(heap: Global, sheet: &LentSheet<'_>) -> Result<Vec<u64>, AllocError>
    ensures { IfOk result (λ row. row.items ≡ sheet_values (sheet_in sheet.now.nums.now)) }
{
    let mut row = vec![in heap; 0; 2 * sheet.count()]?;
    sheet.show(&mut row);
    Ok(row)
}

// The text of a view; only the values are worked out that are seen.
pub fn seen(heap: Global, view: View, sheet: LentSheet<'_>) -> Result<String, AllocError>
    ensures { IfOk result (λ s. string_bytes s ≡ view_text view sheet.entry.nums.now (size_in sheet.entry.nums.now)) }
{
    match view {
        View::Values => {
            let row = values_of(heap, &sheet)?;
            Values::of(row.as_slice(), &sheet).to_string(heap)
        }
        View::Formulas => Listing { sheet }.to_string(heap),
        View::Table => {
            let row = values_of(heap, &sheet)?;
            Table::new(Values::of(row.as_slice(), &sheet)).to_string(heap)
        }
    }
}
