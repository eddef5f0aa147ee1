// Eleven prices are typed on one tablet while a row comes in above the newel posts on another. Prints what the quote comes to when both
// are brought together, in either order, whether both orders leave the same, and what undoing and redoing bring back.
#![tactic(auto)]

mod quote;
mod tablet;

use crate::quote::{prices, typed};
use crate::tablet::Tablet;
use anyhow::anyhow;
use edit::Write;
use evaluate::Value;
use rebase::Rebased;
use recalc::Refusal;
use std::alloc::AllocError;

// The prices, and then the row.
fn prices_first(tablet: &mut Tablet, writes: &[Write<'_>]) -> Result<(), Refusal> {
    for write in writes {
        tablet.write(*write)?;
    }
    tablet.insert_row()
}

// The row, and then the prices of the other tablet.
fn row_first(
    tablet: &mut Tablet,
    writes: &[Write<'_>],
    answers: &mut Vec<Result<Rebased, Refusal>>,
) -> Result<Result<(), AllocError>, Refusal> {
    tablet.insert_row()?;
    tablet.take_over(writes, answers)
}

fn quoted(tablet: &mut Tablet) -> anyhow::Result<u64> {
    match tablet.total() {
        Ok(Value::Number(total)) => Ok(total),
        _ => Err(anyhow!("the total is no number")),
    }
}

fn main(rt: HostRuntime) -> anyhow::Result<()> {
    let heap = rt.alloc();
    let prices = prices();
    let writes = typed(heap, &prices)?;
    let mut one = Tablet::new(heap)?;
    let Ok(()) = prices_first(&mut one, writes.as_slice()) else {
        return Err(anyhow!("a price or the row is refused"));
    };
    println!(rt; "prices first: the quote is {}", quoted(&mut one)?)?;
    let mut other = Tablet::new(heap)?;
    let mut answers = Vec::new(heap);
    let Ok(done) = row_first(&mut other, writes.as_slice(), &mut answers) else {
        return Err(anyhow!("the row or the prices are refused"));
    };
    done?;
    let written = answers
        .iter()
        .filter(|answer| matches!(answer, Ok(Rebased::Written)))
        .count();
    println!(rt;
        "row first: {written} written, the quote is {}",
        quoted(&mut other)?
    )?;
    let same = one.sheet() == other.sheet();
    println!(rt; "{}", if same { "the same" } else { "not the same" })?;
    let undone = other.undo();
    println!(rt; "undone: {undone}, the quote is {}", quoted(&mut other)?)?;
    let redone = other.redo();
    println!(rt; "redone: {redone}, the quote is {}", quoted(&mut other)?)?;
    Ok(())
}
