// The two ways that are compared: the first cell is written so many times, 0 and 1 in turn.
use edit::{Changes, Room, ShownSheet, Write};
use formula::{Cell, CellRef};
use recalc::{HEADER_LEN, Refusal, show_sheet};

// What is seen after each turn, summed up.
fn sum_of_turns<F: FnMut(&[u64]) -> u64>(turns: u64, mut turn: F) -> u64
    requires { F.IsAlwaysCallable turn }
{
    let mut seen = 0u64;
    for n in 0..turns {
        seen = seen.wrapping_add(turn(&[0, n % 2, 0, 0, 0]));
    }
    seen
}

// Each write recalculates what has to be.
pub fn write_each_time(
    nums: &mut [u64],
    values: &mut [u64],
    last: usize,
    turns: u64,
    room: &mut Room,
    changes: &mut Changes,
) -> Result<u64, Refusal> {
    let mut sheet = ShownSheet::show(nums, values)?;
    Ok(sum_of_turns(turns, |tokens| {
        let write = Write {
            place: CellRef { row: 0, col: 0 },
            formula: Some(tokens),
        };
        let _ = sheet.write(write, room, changes);
        sheet.values().get(last).copied().unwrap_or(0)
    }))
}

// After each write the whole sheet is shown anew.
pub fn show_each_time(nums: &mut [u64], values: &mut [u64], last: usize, turns: u64) -> u64 {
    sum_of_turns(turns, |tokens| {
        if nums.len() < HEADER_LEN {
            return 0;
        }
        let _ = Cell::write(&mut nums[HEADER_LEN..], tokens);
        let _ = show_sheet(nums, values);
        values.get(last).copied().unwrap_or(0)
    })
}
