// What formulas come to, and where they look.
use crate::grid::sample;
use crate::places::listed;
use evaluate::{Stop, evaluate, looks};
use notation::parse_numbers;
use std::alloc::{AllocError, Global};
use std::process::Abort;
use std::test::*;

// By hand: the end of an attempt has no text of its own.
fn told(heap: Global, outcome: Result<u64, Stop>) -> Result<String, AllocError> {
    match outcome {
        Ok(n) => format!(in heap; "{n}"),
        Err(Stop::Error(error)) => format!(in heap; "{error}"),
        Err(Stop::Needs(place)) => format!(in heap; "needs {place}"),
    }
}

fn comes_to(rt: &(impl Abort + AllocGlobal), row: &str, expected: &str) -> Result<(), Fail> {
    let heap = rt.alloc();
    let tokens = parse_numbers(heap, row)?;
    let Some(outcome) = evaluate(tokens.as_slice(), &sample()) else {
        assert_eq!(rt; "malformed", expected);
        return Ok(());
    };
    let shown = told(heap, outcome)?;
    assert_eq!(rt; shown.as_str(), expected, "{}", row);
    Ok(())
}

#[test]
fn cells_and_numbers(rt: HostRuntime) -> Result<(), Fail> {
    comes_to(&rt, "", "malformed")?;
    comes_to(&rt, "0 9 0 0 0", "9")?;
    comes_to(&rt, "1 0 0 0 0", "5")?;
    // An empty cell counts as 0.
    comes_to(&rt, "1 0 1 0 0", "0")?;
    // Outside the sheet.
    comes_to(&rt, "1 3 0 0 0", "0")?;
    comes_to(&rt, "1 1 1 0 0", "by-nothing")?;
    comes_to(&rt, "1 1 2 0 0", "ring")?;
    comes_to(&rt, "1 2 1 0 0", "needs 2,1")?;
    comes_to(&rt, "2 0 0 0 0", "lost")
}

#[test]
fn ranges(rt: HostRuntime) -> Result<(), Fail> {
    comes_to(&rt, "3 0 2 0 1", "12")?;
    // No rows.
    comes_to(&rt, "3 0 0 0 3", "0")?;
    // No columns.
    comes_to(&rt, "3 0 3 0 0", "0")?;
    // Outside the sheet.
    comes_to(&rt, "3 7 2 7 2", "0")?;
    // Beyond the sheet.
    comes_to(&rt, "3 1 9 0 1", "7")?;
    let most = "3 0 18446744073709551615 0 1";
    // As many rows as a number can say.
    comes_to(&rt, most, "12")?;
    comes_to(&rt, "3 1 18446744073709551615 0 1", "7")?;
    // Empty cells are not counted.
    comes_to(&rt, "4 0 1 0 3", "2")?;
    comes_to(&rt, "5 0 2 0 1", "7")?;
    // No number at all.
    comes_to(&rt, "5 0 1 1 1", "0")?;
    comes_to(&rt, "3 0 1 0 3", "too-big")?;
    // A later error comes first.
    comes_to(&rt, "3 0 2 0 3", "by-nothing")?;
    comes_to(&rt, "4 2 1 0 3", "needs 2,1")?;
    comes_to(&rt, "6 0 0 0 0", "lost")
}

#[test]
fn operations(rt: HostRuntime) -> Result<(), Fail> {
    comes_to(&rt, "10 0 0 0 0  1 1 0 0 0  1 0 0 0 0", "2")?;
    comes_to(&rt, "10 0 0 0 0  1 0 0 0 0  1 1 0 0 0", "too-big")?;
    comes_to(&rt, "9 0 0 0 0  1 0 2 0 0  0 1 0 0 0", "too-big")?;
    comes_to(
        &rt,
        "11 0 0 0 0  1 0 2 0 0  0 1 0 0 0",
        "18446744073709551615",
    )?;
    comes_to(&rt, "12 0 0 0 0  0 7 0 0 0  0 2 0 0 0", "3")?;
    comes_to(&rt, "12 0 0 0 0  0 7 0 0 0  1 0 1 0 0", "by-nothing")?;
    // The first error.
    comes_to(&rt, "9 0 0 0 0  2 0 0 0 0  1 2 1 0 0", "lost")?;
    let taken = "13 0 0 0 0  0 1 0 0 0  0 2 0 0 0  0 3 0 0 0  1 1 2 0 0";
    // An error in the other branch.
    comes_to(&rt, taken, "3")?;
    let other = "13 0 0 0 0  0 2 0 0 0  0 2 0 0 0  1 2 1 0 0  0 4 0 0 0";
    // A cell not known in the other branch.
    comes_to(&rt, other, "4")
}

fn looks_at(rt: &(impl Abort + AllocGlobal), row: &str, expected: &str) -> Result<(), Fail> {
    let heap = rt.alloc();
    let tokens = parse_numbers(heap, row)?;
    let mut places = Vec::new(heap);
    if looks(tokens.as_slice(), &sample(), &mut places).is_err() {
        assert_eq!(rt; "refused", expected);
        return Ok(());
    }
    let text = listed(heap, places.as_slice())?;
    assert_eq!(rt; text.as_str(), expected, "{}", row);
    Ok(())
}

#[test]
fn places_looked_at(rt: HostRuntime) -> Result<(), Fail> {
    looks_at(&rt, "14 0 0 0 0", "refused")?;
    looks_at(&rt, "0 1 0 0 0", "")?;
    // Up to the first error.
    looks_at(&rt, "3 0 3 0 3", " 0,0 0,1 0,2 1,0 1,1")?;
    // Only places of the sheet.
    looks_at(&rt, "3 0 9 0 1", " 0,0 1,0 2,0")?;
    looks_at(&rt, "9 0 0 0 0  1 3 0 0 0  1 0 0 0 0", " 0,0")?;
    let choice = "13 0 0 0 0  1 0 0 0 0  1 1 0 0 0  1 2 0 0 0  1 1 2 0 0";
    looks_at(&rt, choice, " 0,0 1,0 2,0")
}
