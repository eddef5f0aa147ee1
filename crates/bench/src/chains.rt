// The workloads: each cell is the one before it and 1 more, and a chain begins anew every so many cells.
use samples::{add_cell, new_sheet};
use std::alloc::{AllocError, Global};

const ROWS: u64 = 40;

const COLS: u64 = 12;

// The number 1.
const FIRST: [u64; 5] = [0, 1, 0, 0, 0];

// The cell with this number, and 1 more.
fn successor(k: u64) -> [u64; 15] {
    [9, 0, 0, 0, 0, 1, k / COLS, k % COLS, 0, 0, 0, 1, 0, 0, 0]
}

pub fn chains(heap: Global, length: u64) -> Result<Vec<u64>, AllocError> {
    let mut sheet = new_sheet(heap, ROWS, COLS)?;
    for k in 0..ROWS * COLS {
        if k.checked_rem(length).unwrap_or(0) == 0 {
            add_cell(&mut sheet, &FIRST)?;
        } else {
            add_cell(&mut sheet, &successor(k.saturating_sub(1)))?;
        }
    }
    Ok(sheet)
}
