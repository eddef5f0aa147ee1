// Sheets built cell by cell, for the examples and for the benchmark.
#![tactic(auto)]

ghost use Rattle.std.specs.Prelude.{◌≡◌, [], ◌∷◌, ◌++◌, IfOk, OnOk};
ghost use Rattle.samples.specs.Built.{cell_of};

use formula::{FORMULA_LEN, TOKEN_LEN};
use std::alloc::{AllocError, Global};

// A sheet that has no cell yet.
pub fn new_sheet(heap: Global, rows: u64, cols: u64) -> Result<Vec<u64>, AllocError>
    ensures { IfOk result (λ sheet. sheet.items ≡ rows ∷ cols ∷ []) }
{
    Ok(vec![in heap; rows, cols]?)
}

// The next cell, in reading order; without tokens it is blank. The tokens may be malformed.
pub fn add_cell(sheet: &mut Vec<u64>, tokens: &[u64]) -> Result<(), AllocError>
    ensures { OnOk result (sheet.new.items ≡ sheet.old.items ++ cell_of tokens.now) }
{
    let used = FORMULA_LEN.min(tokens.len());
    let blank = [0; FORMULA_LEN];
    sheet.push((tokens.len() / TOKEN_LEN) as u64)?;
    sheet.extend_from_slice(&tokens[..used])?;
    sheet.extend_from_slice(&blank[used..])?;
    Ok(())
}
