// Shows a whole sheet.
ghost use Rattle.std.specs.Prelude.{◌*◌, ◌≡◌, ◌≤◌, ◌++◌, length, drop};
ghost use Rattle.recalc.specs.Sheets.{sheet_in};
ghost use Rattle.recalc.specs.Numbered.{count};
ghost use Rattle.recalc.specs.Showing.{table_numbers, sheet_values, Shows};

use crate::before::Unshown;
use crate::formulas::Progress;
use crate::lent::LentSheet;
use crate::refusal::Refusal;
use crate::room::Room;

// The two numbers of each value, one cell after the other.
fn write_values(table: &[Progress], out: &mut [u64])
    requires { 2 * length table.now ≤ length out.old }
    ensures { out.new ≡ table_numbers table.now ++ drop (2 * length table.now) out.old }
{
    // Tried out.chunks_exact_mut(2) with zip: what the row then holds is not known after the loop.
    for (k, progress) in table.iter().enumerate() {
        progress.known_value().write(out, k);
    }
}

impl LentSheet<'_> {
    // Writes what each cell shows into the front of a row, two numbers a cell in reading order.
    pub fn show(&self, out: &mut [u64])
        requires { 2 * count (sheet_in self.now.nums.now) ≤ length out.old }
        ensures { out.new ≡ sheet_values (sheet_in self.now.nums.now) ++ drop (2 * count (sheet_in self.now.nums.now)) out.old }
    {
        let mut room = Room::new();
        room.recalculate(self, &Unshown);
        write_values(room.table(self), out);
    }
}

// The same of a memory that has yet to be checked; a refusal leaves the row as it was.
pub fn show_sheet(nums: &[u64], out: &mut [u64]) -> Result<(), Refusal>
    ensures { Shows nums.now out.old result out.new }
{
    let sheet = LentSheet::check(nums)?;
    if out.len() < 2 * sheet.count() {
        return Err(Refusal::NoRoom(out.len()));
    }
    sheet.show(out);
    Ok(())
}
