// A quote of twelve lines with their total, and the prices that are typed anew.
use edit::Write;
use formula::CellRef;
use samples::{add_cell, new_sheet};
use std::alloc::{AllocError, Global};

pub const COLS: u64 = 3;

const LINES: u64 = 12;

// The lines and the total.
pub const ROWS: u64 = LINES + 1;

// Each line is two pieces at a price, and their product; the last row has the total. Behind the sheet there is room for a row more.
pub fn quote(heap: Global) -> Result<Vec<u64>, AllocError> {
    let mut sheet = new_sheet(heap, ROWS, COLS)?;
    for row in 0..LINES {
        add_cell(&mut sheet, &[0, 2, 0, 0, 0])?;
        add_cell(&mut sheet, &[0, 100, 0, 0, 0])?;
        add_cell(
            &mut sheet,
            &[11, 0, 0, 0, 0, 1, row, 0, 0, 0, 1, row, 1, 0, 0],
        )?;
    }
    add_cell(&mut sheet, &[])?;
    add_cell(&mut sheet, &[])?;
    add_cell(&mut sheet, &[3, 0, LINES, 2, 1])?;
    for _ in 0..COLS {
        add_cell(&mut sheet, &[])?;
    }
    Ok(sheet)
}

// The prices of lines 1 to 11: 110, 120 and so on.
pub fn prices() -> [[u64; 5]; 11] {
    let mut prices = [[0; 5]; 11];
    for (k, price) in prices.iter_mut().enumerate() {
        price[1] = 110 + 10 * k as u64;
    }
    prices
}

// They are typed into the column of prices, from line 1 on.
pub fn typed<'a>(heap: Global, prices: &'a [[u64; 5]]) -> Result<Vec<Write<'a>>, AllocError> {
    let mut writes = Vec::new(heap);
    for (k, price) in prices.iter().enumerate() {
        let row = (k as u64).saturating_add(1);
        writes.push(Write {
            place: CellRef { row, col: 1 },
            formula: Some(price),
        })?;
    }
    Ok(writes)
}
