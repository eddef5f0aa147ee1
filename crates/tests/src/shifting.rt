// Rows and columns inserted and deleted, at the edges and in the middle.
use formula::{Cell, CellRef};
use recalc::{Size, cell_at, show_sheet};
use samples::{add_cell, new_sheet};
use shift::{Axis, Change, Reshape, Shift, insert_values, shift_sheet};
use std::alloc::{AllocError, Global};
use std::process::Abort;
use std::test::*;

const LARGEST: Size = Size { rows: 40, cols: 12 };

// How many numbers the largest sheet takes, and one more.
const MEMORY: usize = 29_283;

// What stands behind a sheet.
const BEHIND: u64 = 7;

fn insert(axis: Axis, line: u64) -> Shift {
    Shift {
        axis,
        change: Change::Insert,
        line,
    }
}

fn delete(axis: Axis, line: u64) -> Shift {
    Shift {
        axis,
        change: Change::Delete,
        line,
    }
}

// A reference, or a total, along one axis; across it lies outside the sheet.
fn reference(axis: Axis, line: u64) -> [u64; 5] {
    match axis {
        Axis::Row => [1, line, 99, 0, 0],
        Axis::Column => [1, 99, line, 0, 0],
    }
}

fn total(axis: Axis, first: u64, count: u64) -> [u64; 5] {
    match axis {
        Axis::Row => [3, first, count, 99, 1],
        Axis::Column => [3, 99, 1, first, count],
    }
}

// A sheet of 4 x 4 cells with a formula at (1,1), in a memory for 5 x 5.
fn sheet_with(heap: Global, tokens: &[u64]) -> Result<Vec<u64>, AllocError> {
    let mut sheet = new_sheet(heap, 4, 4)?;
    for k in 0..16 {
        add_cell(&mut sheet, if k == 5 { tokens } else { &[] })?;
    }
    for _ in 16..25 {
        add_cell(&mut sheet, &[])?;
    }
    Ok(sheet)
}

fn holds(rt: &impl Abort, sheet: &[u64], k: usize, tokens: &[u64]) -> Result<(), Fail> {
    match cell_at(sheet, k) {
        Cell::Formula(found) => {
            assert_eq!(rt; found, tokens);
            Ok(())
        },
        Cell::Blank => {
            assert!(rt; tokens.is_empty());
            Ok(())
        },
        Cell::Malformed => Err(Fail::new("malformed")),
    }
}

fn becomes(
    rt: &(impl Abort + AllocGlobal),
    shift: Shift,
    before: &[u64],
    after: &[u64],
) -> Result<(), Fail> {
    let mut sheet = sheet_with(rt.alloc(), before)?;
    assert!(rt; shift_sheet(sheet.as_mut_slice(), shift, Size { rows: 5, cols: 5 }).is_ok());
    let Some(place) = shift.reference_after(CellRef { row: 1, col: 1 }) else {
        return Err(Fail::new("the cell was deleted"));
    };
    let cols = sheet.get(1).copied().unwrap_or(0);
    let k = place.row.saturating_mul(cols).saturating_add(place.col);
    holds(rt, sheet.as_slice(), k as usize, after)
}

fn inserting(rt: &(impl Abort + AllocGlobal), axis: Axis) -> Result<(), Fail> {
    let at = insert(axis, 2);
    becomes(rt, at, &reference(axis, 1), &reference(axis, 1))?;
    becomes(rt, at, &reference(axis, 2), &reference(axis, 3))?;
    becomes(rt, at, &reference(axis, 77), &reference(axis, 78))?;
    becomes(
        rt,
        at,
        &reference(axis, u64::MAX),
        &reference(axis, u64::MAX),
    )?;
    // Behind its last.
    becomes(rt, at, &total(axis, 0, 2), &total(axis, 0, 2))?;
    // Before its last.
    becomes(rt, at, &total(axis, 0, 3), &total(axis, 0, 4))?;
    // Behind its first.
    becomes(rt, at, &total(axis, 1, 2), &total(axis, 1, 3))?;
    // Before its first.
    becomes(rt, at, &total(axis, 2, 1), &total(axis, 3, 1))?;
    becomes(rt, at, &total(axis, 2, 0), &total(axis, 3, 0))?;
    becomes(rt, at, &total(axis, 0, u64::MAX), &total(axis, 0, u64::MAX))
}

fn deleting(rt: &(impl Abort + AllocGlobal), axis: Axis) -> Result<(), Fail> {
    let at = delete(axis, 2);
    becomes(rt, at, &reference(axis, 1), &reference(axis, 1))?;
    // Outside the sheet too.
    becomes(rt, at, &reference(axis, 2), &[2, 0, 0, 0, 0])?;
    becomes(rt, at, &reference(axis, 3), &reference(axis, 2))?;
    // Lost stays lost.
    becomes(rt, at, &[2, 0, 0, 0, 0], &[2, 0, 0, 0, 0])?;
    becomes(rt, at, &total(axis, 2, 1), &[6, 0, 0, 0, 0])?;
    // Its last.
    becomes(rt, at, &total(axis, 1, 2), &total(axis, 1, 1))?;
    // Its first.
    becomes(rt, at, &total(axis, 2, 2), &total(axis, 2, 1))?;
    becomes(rt, at, &total(axis, 0, 2), &total(axis, 0, 2))?;
    becomes(rt, at, &total(axis, 3, 1), &total(axis, 2, 1))?;
    // No line of it.
    becomes(rt, at, &total(axis, 2, 0), &total(axis, 2, 0))
}

#[test]
fn references_and_ranges(rt: HostRuntime) -> Result<(), Fail> {
    inserting(&rt, Axis::Row)?;
    inserting(&rt, Axis::Column)?;
    deleting(&rt, Axis::Row)?;
    deleting(&rt, Axis::Column)
}

// The number in the cell of a row and a column, so that each can be told from the others.
fn mark(row: u64, col: u64) -> u64 {
    row.saturating_mul(100).saturating_add(col)
}

// A sheet full of different numbers, in a memory for the largest.
fn marked(heap: Global, size: Size) -> Result<Vec<u64>, AllocError> {
    let mut sheet = new_sheet(heap, size.rows, size.cols)?;
    for row in 0..size.rows {
        for col in 0..size.cols {
            add_cell(&mut sheet, &[0, mark(row, col), 0, 0, 0])?;
        }
    }
    sheet.resize(MEMORY, BEHIND)?;
    Ok(sheet)
}

// The line that came to be line n.
fn came(shift: Shift, n: u64) -> Option<u64> {
    match shift.change {
        Change::Insert if n == shift.line => None,
        Change::Insert if n > shift.line => Some(n - 1),
        Change::Delete if n >= shift.line => Some(n.saturating_add(1)),
        _ => Some(n),
    }
}

fn marks_at(
    rt: &impl Abort,
    sheet: &[u64],
    cols: u64,
    shift: Shift,
    row: u64,
    col: u64,
) -> Result<(), Fail> {
    let k = row.saturating_mul(cols).saturating_add(col) as usize;
    let from = match shift.axis {
        Axis::Row => (came(shift, row), Some(col)),
        Axis::Column => (Some(row), came(shift, col)),
    };
    match from {
        (Some(i), Some(j)) => holds(rt, sheet, k, &[0, mark(i, j), 0, 0, 0]),
        _ => holds(rt, sheet, k, &[]),
    }
}

// From one number on up to another all are the same.
fn all_are(sheet: &[u64], from: usize, to: usize, number: u64) -> bool {
    sheet
        .get(from..to)
        .is_some_and(|part| part.iter().all(|n| *n == number))
}

fn length_of(rows: u64, cols: u64) -> usize {
    rows.saturating_mul(cols)
        .saturating_mul(61)
        .saturating_add(2) as usize
}

// Each cell is where it should be, what came free is 0, and what lies behind is as it was.
fn arrives(
    rt: &(impl Abort + AllocGlobal),
    size: Size,
    shift: Shift,
    after: Size,
) -> Result<(), Fail> {
    let mut memory = marked(rt.alloc(), size)?;
    assert!(rt; shift_sheet(memory.as_mut_slice(), shift, LARGEST).is_ok());
    let sheet = memory.as_slice();
    assert!(rt; sheet.len() == MEMORY && sheet[0] == after.rows && sheet[1] == after.cols);
    for row in 0..after.rows {
        for col in 0..after.cols {
            marks_at(rt, sheet, after.cols, shift, row, col)?;
        }
    }
    let left = length_of(after.rows, after.cols);
    let end = left.max(length_of(size.rows, size.cols));
    assert!(rt; all_are(sheet, left, end, 0));
    assert!(rt; all_are(sheet, end, MEMORY, BEHIND));
    Ok(())
}

fn at_edges(
    rt: &(impl Abort + AllocGlobal),
    size: Size,
    shift: Shift,
    last: u64,
    after: Size,
) -> Result<(), Fail> {
    // Line 0.
    arrives(rt, size, Shift { line: 0, ..shift }, after)?;
    // Line 3.
    arrives(rt, size, Shift { line: 3, ..shift }, after)?;
    // The last line.
    arrives(
        rt,
        size,
        Shift {
            line: last,
            ..shift
        },
        after,
    )
}

#[test]
fn lines_inserted(rt: HostRuntime) -> Result<(), Fail> {
    let size = Size { rows: 39, cols: 11 };
    at_edges(
        &rt,
        size,
        insert(Axis::Row, 0),
        39,
        Size { rows: 40, cols: 11 },
    )?;
    at_edges(
        &rt,
        size,
        insert(Axis::Column, 0),
        11,
        Size { rows: 39, cols: 12 },
    )
}

#[test]
fn lines_deleted_from_the_largest_sheet(rt: HostRuntime) -> Result<(), Fail> {
    at_edges(
        &rt,
        LARGEST,
        delete(Axis::Row, 0),
        39,
        Size { rows: 39, cols: 12 },
    )?;
    at_edges(
        &rt,
        LARGEST,
        delete(Axis::Column, 0),
        11,
        Size { rows: 40, cols: 11 },
    )
}

// The number of the refusal, and nothing has changed.
fn refuses(
    rt: &(impl Abort + AllocGlobal),
    size: Size,
    shift: Shift,
    most: Size,
    number: u64,
) -> Result<(), Fail> {
    let mut sheet = marked(rt.alloc(), size)?;
    let before = marked(rt.alloc(), size)?;
    let Err(refusal) = shift_sheet(sheet.as_mut_slice(), shift, most) else {
        return Err(Fail::new("not refused"));
    };
    assert_eq!(rt; refusal.number(), number);
    assert_eq!(rt; sheet.as_slice(), before.as_slice());
    Ok(())
}

#[test]
fn refusals(rt: HostRuntime) -> Result<(), Fail> {
    let small = Size { rows: 2, cols: 1 };
    // As many rows as there may be.
    refuses(&rt, LARGEST, insert(Axis::Row, 0), LARGEST, 8)?;
    refuses(&rt, LARGEST, insert(Axis::Column, 0), LARGEST, 8)?;
    // 7 comes before 8.
    refuses(&rt, LARGEST, insert(Axis::Row, 41), LARGEST, 7)?;
    refuses(&rt, small, delete(Axis::Row, 2), LARGEST, 7)?;
    refuses(&rt, small, insert(Axis::Column, u64::MAX), LARGEST, 7)?;
    // The only column.
    refuses(&rt, small, delete(Axis::Column, 0), LARGEST, 9)?;
    // 7 comes before 9.
    refuses(&rt, small, delete(Axis::Column, 1), LARGEST, 7)?;
    // The opening's bound.
    refuses(&rt, small, insert(Axis::Row, 0), small, 8)?;
    // More rows than there may be.
    refuses(
        &rt,
        small,
        insert(Axis::Row, 0),
        Size { rows: 1, cols: 1 },
        1,
    )?;
    refuses(
        &rt,
        small,
        insert(Axis::Row, 0),
        Size { rows: 41, cols: 12 },
        1,
    )
}

// Two lines of prices and their total.
fn stair(heap: Global) -> Result<Vec<u64>, AllocError> {
    let mut sheet = new_sheet(heap, 3, 2)?;
    add_cell(&mut sheet, &[0, 14, 0, 0, 0])?;
    add_cell(&mut sheet, &[0, 35, 0, 0, 0])?;
    add_cell(&mut sheet, &[0, 2, 0, 0, 0])?;
    add_cell(&mut sheet, &[0, 60, 0, 0, 0])?;
    add_cell(&mut sheet, &[3, 0, 2, 0, 2])?;
    add_cell(&mut sheet, &[1, 1, 1, 0, 0])?;
    add_cell(&mut sheet, &[])?;
    add_cell(&mut sheet, &[])?;
    Ok(sheet)
}

// The values that move with their cells are what the sheet shows anew.
#[test]
fn values_move_with_their_cells(rt: HostRuntime) -> Result<(), Fail> {
    let mut sheet = stair(rt.alloc())?;
    let mut moved = [BEHIND; 20];
    assert!(rt; show_sheet(sheet.as_slice(), &mut moved).is_ok());
    // Written out, since its change has to be known.
    let at = Shift {
        axis: Axis::Row,
        change: Change::Insert,
        line: 1,
    };
    insert_values(
        &mut moved,
        Reshape {
            shift: at,
            size: Size { rows: 3, cols: 2 },
        },
    );
    assert!(rt; shift_sheet(sheet.as_mut_slice(), at, Size { rows: 4, cols: 2 }).is_ok());
    let mut shown = [BEHIND; 20];
    assert!(rt; show_sheet(sheet.as_slice(), &mut shown).is_ok());
    assert_eq!(rt; moved, shown);
    assert_eq!(rt; &moved[12..16], [1, 111, 1, 60].as_slice());
    Ok(())
}
