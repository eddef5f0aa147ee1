// Compares, on a sheet of 40 x 12 formulas, a write that recalculates only what has to be with showing the whole sheet anew.
// Run by hand: bench TURNS. It prints a line for each workload: its name, the nanoseconds of a write and of showing anew, and
// what the last cell of the chain showed, summed up, by either way.
#![tactic(auto)]

mod chains;
mod turns;

use crate::chains::chains;
use crate::turns::{show_each_time, write_each_time};
use anyhow::anyhow;
use edit::{Changes, Room};
use std::env;
use std::time::Instant;

fn turns_asked(rt: &HostRuntime) -> anyhow::Result<Option<u64>> {
    let word = env::args(rt)?.nth(1);
    Ok(word.and_then(|word| word.as_str().parse().ok()))
}

fn compare(rt: &HostRuntime, name: &str, length: u64, turns: u64) -> anyhow::Result<()> {
    let heap = rt.alloc();
    let mut sheet = chains(heap, length)?;
    let mut values = vec![in heap; 0u64; 960]?;
    let mut changes = Changes::new(heap)?;
    let mut room = Room::new();
    let last = length.saturating_mul(2).saturating_sub(1) as usize;
    let start = Instant::now(rt)?;
    let Ok(written) = write_each_time(
        sheet.as_mut_slice(),
        values.as_mut_slice(),
        last,
        turns,
        &mut room,
        &mut changes,
    ) else {
        return Err(anyhow!("the sheet is refused"));
    };
    let writing = start.elapsed(rt)?.as_nanos();
    let start = Instant::now(rt)?;
    let shown = show_each_time(sheet.as_mut_slice(), values.as_mut_slice(), last, turns);
    let showing = start.elapsed(rt)?.as_nanos();
    let write = writing.checked_div(turns as u128).unwrap_or(0);
    let anew = showing.checked_div(turns as u128).unwrap_or(0);
    println!(rt; "{name} {write} {anew} {written} {shown}")?;
    Ok(())
}

fn main(rt: HostRuntime) -> anyhow::Result<()> {
    let Some(turns) = turns_asked(&rt)? else {
        println!(rt; "usage: bench TURNS")?;
        return Ok(());
    };
    // Sorted by name, as `join` wants them.
    compare(&rt, "all", 480, turns)?;
    compare(&rt, "few", 12, turns)?;
    compare(&rt, "half", 240, turns)
}
