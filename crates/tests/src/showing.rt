// Whole sheets: cycles of every length, and the largest sheets in the worst order.
use notation::parse_numbers;
use recalc::show_sheet;
use samples::{add_cell, new_sheet};
use std::alloc::AllocError;
use std::process::Abort;
use std::test::*;

const CELLS: usize = 480;

const CYCLE: [u64; 2] = [2, 4];

// A cell that is another one, and 1 more.
fn add_successor(sheet: &mut Vec<u64>, k: usize) -> Result<(), AllocError> {
    let row = (k / 12) as u64;
    let col = (k % 12) as u64;
    add_cell(sheet, &[9, 0, 0, 0, 0, 1, row, col, 0, 0, 0, 1, 0, 0, 0])
}

fn shows(rt: &impl Abort, sheet: &[u64], expected: &[u64]) -> Result<(), Fail> {
    let mut out = [7; 2 * CELLS];
    assert!(rt; show_sheet(sheet, &mut out).is_ok());
    let Some((shown, behind)) = out.split_at_checked(expected.len()) else {
        return Err(Fail::new("more than there is"));
    };
    assert_eq!(rt; shown, expected);
    assert!(rt; behind.iter().all(|n| *n == 7));
    Ok(())
}

#[test]
fn cycles_of_one_and_two(rt: HostRuntime) -> Result<(), Fail> {
    let heap = rt.alloc();
    let mut one = new_sheet(heap, 1, 1)?;
    add_cell(&mut one, &[1, 0, 0, 0, 0])?;
    shows(&rt, one.as_slice(), &CYCLE)?;
    let mut two = new_sheet(heap, 1, 4)?;
    add_cell(&mut two, &[1, 0, 1, 0, 0])?;
    add_cell(&mut two, &[1, 0, 0, 0, 0])?;
    add_cell(&mut two, &[3, 0, 1, 0, 2])?;
    add_cell(&mut two, &[0, 5, 0, 0, 0])?;
    shows(&rt, two.as_slice(), &[2, 4, 2, 4, 2, 4, 1, 5])
}

// If 1 is less than 2, then 5 or else the cell itself; and the other way round.
#[test]
fn a_branch_not_taken_is_no_cycle(rt: HostRuntime) -> Result<(), Fail> {
    let heap = rt.alloc();
    let mut sheet = new_sheet(heap, 1, 2)?;
    let not_taken = parse_numbers(heap, "13 0 0 0 0 0 1 0 0 0 0 2 0 0 0 0 5 0 0 0 1 0 0 0 0")?;
    add_cell(&mut sheet, not_taken.as_slice())?;
    let taken = parse_numbers(heap, "13 0 0 0 0 0 2 0 0 0 0 1 0 0 0 0 5 0 0 0 1 0 1 0 0")?;
    add_cell(&mut sheet, taken.as_slice())?;
    shows(&rt, sheet.as_slice(), &[1, 5, 2, 4])
}

#[test]
fn a_cycle_of_all_cells(rt: HostRuntime) -> Result<(), Fail> {
    let heap = rt.alloc();
    let mut sheet = new_sheet(heap, 40, 12)?;
    let mut expected = Vec::new(heap);
    for k in 0..CELLS {
        add_successor(&mut sheet, (k + 1) % CELLS)?;
        expected.extend_from_slice(&CYCLE)?;
    }
    shows(&rt, sheet.as_slice(), expected.as_slice())
}

// Each cell but the last is its successor and 1 more, so the first one asked for is the last one known.
#[test]
fn a_chain_of_all_cells(rt: HostRuntime) -> Result<(), Fail> {
    let heap = rt.alloc();
    let mut sheet = new_sheet(heap, 40, 12)?;
    let mut expected = Vec::new(heap);
    for k in 0..CELLS {
        add_successor(&mut sheet, k + 1)?;
        expected.extend_from_slice(&[1, (CELLS - k) as u64])?;
    }
    shows(&rt, sheet.as_slice(), expected.as_slice())
}

// Each cell is 1 and the total of its column below, so each row shows twice the row below it.
#[test]
fn a_sheet_full_of_totals(rt: HostRuntime) -> Result<(), Fail> {
    let heap = rt.alloc();
    let mut sheet = new_sheet(heap, 40, 12)?;
    let mut expected = Vec::new(heap);
    for k in 0..CELLS {
        let below = (k / 12 + 1) as u64;
        let col = (k % 12) as u64;
        add_cell(
            &mut sheet,
            &[9, 0, 0, 0, 0, 0, 1, 0, 0, 0, 3, below, 40, col, 1],
        )?;
        expected.extend_from_slice(&[1, 1 << (39 - k / 12)])?;
    }
    shows(&rt, sheet.as_slice(), expected.as_slice())
}
