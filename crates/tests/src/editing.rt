// Writes: what is told, and what is worked out again.
use crate::places::listed;
use edit::{Changes, Room, ShownSheet, Write, write_shown};
use formula::CellRef;
use samples::{add_cell, new_sheet};
use std::alloc::{AllocError, Global};
use std::process::Abort;
use std::test::*;

// A sheet with what is lent to its writes.
#[derive(Drop)]
struct Desk {
    heap: Global,
    sheet: Vec<u64>,
    values: [u64; 12],
    room: Room,
    changes: Changes,
}

// Into a cell of row 0.
fn write_of(col: u64, formula: Option<&[u64]>) -> Write<'_> {
    Write {
        place: CellRef { row: 0, col },
        formula,
    }
}

impl Desk {
    // One row of cells.
    fn of(heap: Global, cells: &[&[u64]]) -> Result<Desk, AllocError> {
        let mut sheet = new_sheet(heap, 1, cells.len() as u64)?;
        for tokens in cells {
            add_cell(&mut sheet, tokens)?;
        }
        let changes = Changes::new(heap)?;
        Ok(Desk {
            heap,
            sheet,
            values: [7; 12],
            room: Room::new(),
            changes,
        })
    }

    fn refuses(
        &mut self,
        rt: &impl Abort,
        col: u64,
        tokens: &[u64],
        number: u64,
    ) -> Result<(), Fail> {
        let write = write_of(col, Some(tokens));
        let Err(refusal) = write_shown(
            self.sheet.as_mut_slice(),
            &mut self.values,
            write,
            &mut self.room,
            &mut self.changes,
        ) else {
            return Err(Fail::new("not refused"));
        };
        assert_eq!(rt; refusal.number(), number);
        Ok(())
    }

    fn writes(
        &mut self,
        rt: &impl Abort,
        col: u64,
        tokens: &[u64],
        told: &str,
        worked: &str,
    ) -> Result<(), Fail> {
        // Without tokens, a blank.
        let formula = Some(tokens).filter(|tokens| !tokens.is_empty());
        let write = write_of(col, formula);
        assert!(rt;
            write_shown(
                self.sheet.as_mut_slice(),
                &mut self.values,
                write,
                &mut self.room,
                &mut self.changes,
            )
            .is_ok()
        );
        let changed = listed(self.heap, self.changes.changed())?;
        assert_eq!(rt; changed.as_str(), told, "told");
        let recalculated = listed(self.heap, self.changes.recalculated())?;
        assert_eq!(rt; recalculated.as_str(), worked, "worked");
        Ok(())
    }

    fn shows(&self, rt: &impl Abort, expected: &[u64]) -> Result<(), Fail> {
        let Some(values) = self.values.get(..expected.len()) else {
            return Err(Fail::new("more than there is"));
        };
        assert_eq!(rt; values, expected);
        Ok(())
    }
}

const FIVE: [u64; 5] = [0, 5, 0, 0, 0];

// The cell of row 0 in this column, and 1 more.
fn next_to(col: u64) -> [u64; 15] {
    [9, 0, 0, 0, 0, 1, 0, col, 0, 0, 0, 1, 0, 0, 0]
}

// If (0,0) is less than 100 then 1 or else 2.
const SMALL: [u64; 25] = [
    13, 0, 0, 0, 0, 1, 0, 0, 0, 0, 0, 100, 0, 0, 0, 0, 1, 0, 0, 0, 0, 2, 0, 0, 0,
];

#[test]
fn only_what_has_to_be(rt: HostRuntime) -> Result<(), Fail> {
    let mut desk = Desk::of(rt.alloc(), &[&FIVE, &SMALL, &next_to(1), &[]])?;
    // (0,1) shows what it did.
    desk.writes(&rt, 0, &[0, 6, 0, 0, 0], " 0,0", " 0,0 0,1")?;
    // Nothing changes.
    desk.writes(&rt, 0, &[0, 6, 0, 0, 0], "", " 0,0")?;
    desk.writes(&rt, 0, &[0, 200, 0, 0, 0], " 0,0 0,1 0,2", " 0,0 0,1 0,2")?;
    desk.shows(&rt, &[1, 200, 1, 2, 1, 3, 0, 0, 7])?;
    // A place outside the sheet.
    desk.writes(&rt, 3, &[1, 0, 9, 0, 0], " 0,3", " 0,3")?;
    // A blank is not worked out.
    desk.writes(&rt, 0, &[], " 0,0 0,1 0,2", " 0,1 0,2")?;
    desk.shows(&rt, &[0, 0, 1, 1, 1, 2, 1, 0, 7])
}

#[test]
fn a_cycle_appears_grows_and_dissolves(rt: HostRuntime) -> Result<(), Fail> {
    let mut desk = Desk::of(rt.alloc(), &[&FIVE, &next_to(0), &FIVE])?;
    // A cycle of two.
    desk.writes(&rt, 0, &[1, 0, 1, 0, 0], " 0,0 0,1", " 0,0 0,1")?;
    // A cell beside it.
    desk.writes(&rt, 2, &next_to(1), " 0,2", " 0,2")?;
    // A cycle of three.
    desk.writes(&rt, 0, &[1, 0, 2, 0, 0], "", " 0,0")?;
    desk.shows(&rt, &[2, 4, 2, 4, 2, 4, 7])?;
    // None any more.
    desk.writes(&rt, 0, &FIVE, " 0,0 0,1 0,2", " 0,0 0,1 0,2")?;
    desk.shows(&rt, &[1, 5, 1, 6, 1, 7, 7])
}

#[test]
fn writes_refused(rt: HostRuntime) -> Result<(), Fail> {
    let mut desk = Desk::of(rt.alloc(), &[&FIVE, &next_to(0)])?;
    // No token.
    desk.refuses(&rt, 0, &[], 4)?;
    desk.refuses(&rt, 0, &[14, 0, 0, 0, 0], 4)?;
    desk.refuses(&rt, 2, &FIVE, 6)?;
    // 4 comes before 6.
    desk.refuses(&rt, 2, &[14, 0, 0, 0, 0], 4)?;
    desk.refuses(&rt, u64::MAX, &FIVE, 6)?;
    desk.shows(&rt, &[1, 5, 1, 6, 7])
}

// What a sheet shows is known from write to write.
#[test]
fn a_shown_sheet_is_written(rt: HostRuntime) -> Result<(), Fail> {
    let mut desk = Desk::of(rt.alloc(), &[&FIVE, &next_to(0)])?;
    let Ok(mut sheet) = ShownSheet::show(desk.sheet.as_mut_slice(), &mut desk.values) else {
        return Err(Fail::new("refused"));
    };
    let seven = write_of(0, Some(&[0, 7, 0, 0, 0]));
    assert!(rt;
        sheet
            .write(seven, &mut desk.room, &mut desk.changes)
            .is_ok()
    );
    let outside = write_of(2, None);
    assert!(rt;
        sheet
            .write(outside, &mut desk.room, &mut desk.changes)
            .is_err()
    );
    let Some(values) = sheet.values().get(..5) else {
        return Err(Fail::new("more than there is"));
    };
    assert_eq!(rt; values, [1, 7, 1, 8, 7].as_slice());
    Ok(())
}
