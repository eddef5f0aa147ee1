// Writes carried over rows and columns that come in or go.
use crate::places::listed;
use edit::{Changes, Room, ShownSheet, Write};
use formula::CellRef;
use rebase::{Rebased, rebase_all, rebase_write};
use recalc::{LentSheet, Refusal, Size, show_sheet};
use samples::{add_cell, new_sheet};
use shift::{Axis, Change, Shift, shift_sheet};
use std::alloc::{AllocError, Global};
use std::process::Abort;
use std::test::*;

const MOST: Size = Size { rows: 4, cols: 3 };

const FIVE: [u64; 5] = [0, 5, 0, 0, 0];

// The cell at (1,1).
const MIDDLE: [u64; 5] = [1, 1, 1, 0, 0];

// The total of the whole sheet but its last row.
const TOTAL: [u64; 5] = [3, 0, 2, 0, 2];

fn shift(axis: Axis, change: Change) -> Shift {
    Shift {
        axis,
        change,
        line: 1,
    }
}

fn write_at(row: u64, col: u64, formula: Option<&[u64]>) -> Write<'_> {
    Write {
        place: CellRef { row, col },
        formula,
    }
}

// A sheet of 3 x 2 with what is lent to its writes: 1 2 / 3 4 / 10 11.
#[derive(Drop)]
struct Desk {
    nums: Vec<u64>,
    values: Vec<u64>,
    room: Room,
    changes: Changes,
}

impl Desk {
    fn of(heap: Global) -> Result<Desk, AllocError> {
        let mut nums = new_sheet(heap, 3, 2)?;
        for n in [1, 2, 3, 4, 10, 11] {
            add_cell(&mut nums, &[0, n, 0, 0, 0])?;
        }
        for _ in 6..12 {
            add_cell(&mut nums, &[])?;
        }
        Ok(Desk {
            nums,
            values: vec![in heap; 0u64; 24]?,
            room: Room::new(),
            changes: Changes::new(heap)?,
        })
    }

    // The writes, and then the shift.
    fn writes_first(&mut self, shift: Shift, writes: &[Write<'_>]) -> Result<(), Refusal> {
        let mut sheet = ShownSheet::show(self.nums.as_mut_slice(), self.values.as_mut_slice())?;
        for write in writes {
            let _ = sheet.write(*write, &mut self.room, &mut self.changes);
        }
        shift_sheet(self.nums.as_mut_slice(), shift, MOST)?;
        show_sheet(self.nums.as_slice(), self.values.as_mut_slice())
    }

    // The shift, and then the writes carried over it.
    fn shift_first(
        &mut self,
        shift: Shift,
        writes: &[Write<'_>],
        answers: &mut Vec<Result<Rebased, Refusal>>,
    ) -> Result<Result<(), AllocError>, Refusal> {
        shift_sheet(self.nums.as_mut_slice(), shift, MOST)?;
        let mut sheet = ShownSheet::show(self.nums.as_mut_slice(), self.values.as_mut_slice())?;
        Ok(rebase_all(
            &mut sheet,
            shift,
            writes,
            &mut self.room,
            &mut self.changes,
            answers,
        ))
    }
}

// In both orders the same numbers lie in the memory, and the same is shown; what became of each write: w, d or a refusal's number.
fn comes_together(
    rt: &(impl Abort + AllocGlobal),
    shift: Shift,
    writes: &[Write<'_>],
    became: &str,
) -> Result<(), Fail> {
    let heap = rt.alloc();
    let mut one = Desk::of(heap)?;
    assert!(rt; one.writes_first(shift, writes).is_ok());
    let mut other = Desk::of(heap)?;
    let mut answers = Vec::new(heap);
    let Ok(done) = other.shift_first(shift, writes, &mut answers) else {
        return Err(Fail::new("refused"));
    };
    done?;
    let mut told = String::new(heap);
    for answer in &answers {
        match answer {
            Ok(Rebased::Written) => told.push_str("w")?,
            Ok(Rebased::Dropped) => told.push_str("d")?,
            Err(refusal) => told.push_str(if refusal.number() == 4 { "4" } else { "6" })?,
        }
    }
    assert_eq!(rt; told.as_str(), became);
    assert!(rt; one.nums.as_slice() == other.nums.as_slice());
    let Ok(sheet) = LentSheet::check(one.nums.as_slice()) else {
        return Err(Fail::new("refused"));
    };
    let shown = 2 * sheet.count();
    assert!(rt; one.values.get(..shown) == other.values.get(..shown));
    Ok(())
}

#[test]
fn over_an_insertion(rt: HostRuntime) -> Result<(), Fail> {
    for axis in [Axis::Row, Axis::Column] {
        let shift = shift(axis, Change::Insert);
        let writes = [
            write_at(1, 1, Some(&FIVE)),
            write_at(2, 0, Some(&TOTAL)),
            write_at(0, 0, Some(&MIDDLE)),
            write_at(2, 1, None),
        ];
        comes_together(&rt, shift, &writes, "wwww")?;
    }
    Ok(())
}

#[test]
fn over_a_deletion(rt: HostRuntime) -> Result<(), Fail> {
    for axis in [Axis::Row, Axis::Column] {
        let shift = shift(axis, Change::Delete);
        let writes = [
            write_at(1, 1, Some(&FIVE)),
            write_at(0, 0, Some(&MIDDLE)),
            write_at(2, 0, Some(&TOTAL)),
        ];
        comes_together(&rt, shift, &writes, "dww")?;
    }
    Ok(())
}

#[test]
fn refused_ones_stop_no_others(rt: HostRuntime) -> Result<(), Fail> {
    let malformed = [14, 0, 0, 0, 0];
    let too_long = [0; 65];
    let writes = [
        write_at(0, 0, Some(&malformed)),
        write_at(0, 0, Some(&too_long)),
        write_at(3, 0, Some(&FIVE)),
        write_at(u64::MAX, 0, None),
        write_at(0, 1, Some(&FIVE)),
    ];
    comes_together(&rt, shift(Axis::Row, Change::Insert), &writes, "4466w")?;
    // Dropped before its formula is read.
    let dropped = [write_at(1, 9, Some(&malformed))];
    comes_together(&rt, shift(Axis::Row, Change::Delete), &dropped, "d")
}

#[test]
fn each_write_has_its_lists(rt: HostRuntime) -> Result<(), Fail> {
    let heap = rt.alloc();
    let mut desk = Desk::of(heap)?;
    let insert = shift(Axis::Row, Change::Insert);
    assert!(rt; shift_sheet(desk.nums.as_mut_slice(), insert, MOST).is_ok());
    let Ok(mut sheet) = ShownSheet::show(desk.nums.as_mut_slice(), desk.values.as_mut_slice())
    else {
        return Err(Fail::new("refused"));
    };
    let write = write_at(2, 0, Some(&TOTAL));
    let answer = rebase_write(&mut sheet, insert, write, &mut desk.room, &mut desk.changes);
    assert!(rt; matches!(answer, Ok(Rebased::Written)));
    // It is worked out where the write went, and shows the 10 that stood there.
    assert_eq!(rt; listed(heap, desk.changes.changed())?.as_str(), "");
    assert_eq!(rt; listed(heap, desk.changes.recalculated())?.as_str(), " 3,0");
    // The total has its last row still: 1 + 2 + 3 + 4.
    let Some(values) = sheet.values().get(12..14) else {
        return Err(Fail::new("too short"));
    };
    assert_eq!(rt; values, [1, 10].as_slice());
    Ok(())
}
