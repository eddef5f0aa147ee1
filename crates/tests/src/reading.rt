// Rows of numbers, and the formulas that they spell.
use formula::Cell;
use notation::{Notation, parse_numbers};
use std::alloc::Global;
use std::process::Abort;
use std::test::*;

fn reads(rt: &(impl Abort + AllocGlobal), row: &str, text: &str) -> Result<(), Fail> {
    let heap = rt.alloc();
    let row = parse_numbers(heap, row)?;
    let notation = Notation {
        tokens: row.as_slice(),
    };
    let shown = format!(in heap; "{notation}")?;
    assert_eq!(rt; shown.as_str(), text);
    // Alike under every width.
    let wide = format!(in heap; "{notation:>9}")?;
    assert_eq!(rt; wide.as_str(), text);
    Ok(())
}

#[test]
fn every_kind_is_read(rt: HostRuntime) -> Result<(), Fail> {
    reads(&rt, "0 18446744073709551615 9 9 9", "18446744073709551615")?;
    reads(&rt, "1 2 3 9 9", "(2,3)")?;
    reads(&rt, "2 9 9 9 9", "lost")?;
    reads(&rt, "3 0 2 2 1", "total(rows 0+2, columns 2+1)")?;
    reads(&rt, "4 5 6 7 8", "count(rows 5+6, columns 7+8)")?;
    reads(&rt, "5 0 0 0 0", "most(rows 0+0, columns 0+0)")?;
    reads(&rt, "6 9 9 9 9", "total(lost)")?;
    reads(&rt, "7 0 0 0 0", "count(lost)")?;
    reads(&rt, "8 0 0 0 0", "most(lost)")?;
    reads(&rt, "9 0 0 0 0  0 1 0 0 0  0 2 0 0 0", "1 + 2")?;
    reads(&rt, "10 0 0 0 0  2 0 0 0 0  8 0 0 0 0", "lost - most(lost)")
}

#[test]
fn operations_are_nested(rt: HostRuntime) -> Result<(), Fail> {
    let product = "11 0 0 0 0  9 0 0 0 0  1 0 3 0 0  0 1 0 0 0  0 2 0 0 0";
    reads(&rt, product, "((0,3) + 1) * 2")?;
    let capped = "13 0 0 0 0  1 2 2 0 0  0 500 0 0 0  0 500 0 0 0  1 2 2 0 0";
    reads(&rt, capped, "if (2,2) < 500 then 500 else (2,2)")?;
    let choice =
        "13 0 0 0 0  9 0 0 0 0  0 1 0 0 0  0 2 0 0 0  0 3 0 0 0  12 0 0 0 0  0 8 0 0 0  0 4 0 0 0  0 6 0 0 0";
    reads(&rt, choice, "if (1 + 2) < 3 then (8 / 4) else 6")
}

#[test]
fn malformed_rows_are_seen(rt: HostRuntime) -> Result<(), Fail> {
    // No token.
    reads(&rt, "", "malformed")?;
    // Unknown kind.
    reads(&rt, "14 0 0 0 0", "malformed")?;
    // Too few tokens.
    reads(&rt, "9 0 0 0 0  0 1 0 0 0", "malformed")?;
    // Too many tokens.
    reads(&rt, "0 1 0 0 0  0 2 0 0 0", "malformed")?;
    // Cut off in a token.
    reads(&rt, "0 1 0 0", "malformed")?;
    // Cut off in an operand.
    reads(&rt, "9 0 0 0 0  0 1 0 0 0  0 2 0", "malformed")
}

// So many additions in a row, and the numbers that they need.
fn sum_of(heap: Global, additions: usize) -> Result<Vec<u64>, Fail> {
    let mut row = Vec::new(heap);
    for _ in 0..additions {
        row.extend_from_slice(&[9, 0, 0, 0, 0])?;
    }
    for _ in 0..additions {
        row.extend_from_slice(&[0, 1, 0, 0, 0])?;
    }
    row.extend_from_slice(&[0, 1, 0, 0, 0])?;
    Ok(row)
}

#[test]
fn at_most_twelve_tokens(rt: HostRuntime) -> Result<(), Fail> {
    let eleven = sum_of(rt.alloc(), 5)?;
    assert!(rt; formula::is_formula(eleven.as_slice()));
    let thirteen = sum_of(rt.alloc(), 6)?;
    assert!(rt; !formula::is_formula(thirteen.as_slice()));
    Ok(())
}

fn write_and_read(rt: &impl Abort, numbers: &mut [u64]) -> Result<(), Fail> {
    assert!(rt; numbers.len() == 62);
    assert!(rt; Cell::write(numbers, &[1, 2, 3, 9, 9]).is_ok());
    assert!(rt; numbers[5] == 0 && numbers[60] == 0 && numbers[61] == 7);
    assert!(rt; Cell::write(numbers, &[14, 0, 0, 0, 0]).is_err());
    assert!(rt; Cell::write(&mut numbers[0..60], &[0, 1, 0, 0, 0]).is_err());
    let Cell::Formula(tokens) = Cell::read(numbers) else {
        return Err(Fail::new("not read"));
    };
    assert_eq!(rt; tokens, [1, 2, 3, 0, 0].as_slice());
    Ok(())
}

#[test]
fn cells_are_written_and_read(rt: HostRuntime) -> Result<(), Fail> {
    write_and_read(&rt, &mut [7; 62])
}

fn refuses(rt: &(impl Abort + AllocGlobal), text: &str, message: &str) -> Result<(), Fail> {
    let heap = rt.alloc();
    let Err(error) = parse_numbers(heap, text) else {
        return Err(Fail::new("read"));
    };
    let shown = format!(in heap; "{error}")?;
    assert_eq!(rt; shown.as_str(), message);
    Ok(())
}

#[test]
fn numbers_are_read(rt: HostRuntime) -> Result<(), Fail> {
    let heap = rt.alloc();
    let numbers = parse_numbers(heap, " 7\t18446744073709551615\r\n00 ")?;
    assert_eq!(rt; numbers.as_slice(), [7, u64::MAX, 0].as_slice());
    let message = "word 2 is no number from 0 to 18446744073709551615";
    refuses(&rt, "7 +1", message)?;
    refuses(&rt, "7 18446744073709551616 x", message)
}
