// The engine in lists whose length is known only when the program runs.
use evaluate::Value;
use recalc::{Lent, LentSheet, Lists, Mark, Progress, Unshown, recalculate};
use samples::{add_cell, new_sheet};
use std::test::*;

// 5, the cell before and 1 more, 7; the first is written, and they showed 4, 5, 7.
#[test]
fn lists_of_any_length(rt: HostRuntime) -> Result<(), Fail> {
    let heap = rt.alloc();
    let mut nums = new_sheet(heap, 1, 3)?;
    add_cell(&mut nums, &[0, 5, 0, 0, 0])?;
    add_cell(&mut nums, &[9, 0, 0, 0, 0, 1, 0, 0, 0, 0, 0, 1, 0, 0, 0])?;
    add_cell(&mut nums, &[0, 7, 0, 0, 0])?;
    let Ok(sheet) = LentSheet::check(nums.as_slice()) else {
        return Err(Fail::new("refused"));
    };
    let before = Lists {
        values: &[Value::Number(4), Value::Number(5), Value::Number(7)],
        written: &[true],
    };
    let n = sheet.count();
    let mut table = vec![in heap; Progress::Waiting; n]?;
    let mut kept = vec![in heap; Progress::Waiting; n]?;
    let mut marks = vec![in heap; Mark::Clean; n]?;
    let mut stack = vec![in heap; 0usize; n]?;
    recalculate(
        &sheet,
        &before,
        table.as_mut_slice(),
        kept.as_mut_slice(),
        marks.as_mut_slice(),
        stack.as_mut_slice(),
    );
    let shown = [5, 6, 7].map(|n| Some(Value::Number(n)));
    assert!(rt; table.iter().map(|progress| progress.value()).eq(shown));
    assert!(rt;
        matches!(
            marks.as_slice(),
            [Mark::Recalculated, Mark::Recalculated, Mark::Clean]
        )
    );
    Ok(())
}

// A memory that is refused is a language without cells.
#[test]
fn no_cells_in_a_refused_memory(rt: HostRuntime) -> Result<(), Fail> {
    let nums = [0, 1];
    assert!(rt; LentSheet::check(&nums).is_err());
    recalculate(
        &Lent { nums: &nums },
        &Unshown,
        &mut [],
        &mut [],
        &mut [],
        &mut [],
    );
    Ok(())
}
