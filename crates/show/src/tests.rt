// Texts that give no sheet, and values as text.
ghost use Rattle.show.specs.Table.{Small};

use crate::answer::see_text;
use crate::table::Table;
use crate::values::Values;
use crate::view::View;
use recalc::Size;
use std::process::Abort;
use std::test::Fail;

fn refuses(rt: &(impl Abort + AllocGlobal), text: &str, line: &str) -> Result<(), Fail> {
    let heap = rt.alloc();
    let Err(failure) = see_text(heap, View::Values, text) else {
        return Err(Fail::new("shown"));
    };
    let told = format!(in heap; "{failure}")?;
    assert_eq!(rt; told.as_str(), line, "{}", text);
    Ok(())
}

#[test]
fn bad_sheets_are_refused(rt: HostRuntime) -> Result<(), Fail> {
    refuses(&rt, "", "refused 1 at 0")?;
    refuses(&rt, "0 13", "refused 1 at 0")?;
    refuses(&rt, "41 12", "refused 1 at 0")?;
    refuses(&rt, "40", "refused 1 at 1")?;
    refuses(&rt, "40 13", "refused 1 at 1")?;
    refuses(&rt, "1 1 0 0 0", "refused 3 at 5")?;
    refuses(
        &rt,
        "1 one",
        "word 2 is no number from 0 to 18446744073709551615",
    )
}

// A sheet of two cells, of which the second has a token of a kind that there is not.
#[test]
fn a_malformed_cell_is_told(rt: HostRuntime) -> Result<(), Fail> {
    let heap = rt.alloc();
    let mut text = String::from_str(heap, "1 2")?;
    text.push_str(" 0".repeat(heap, 61)?.as_str())?;
    text.push_str(" 1 14")?;
    text.push_str(" 0".repeat(heap, 59)?.as_str())?;
    refuses(&rt, text.as_str(), "refused 4 at 1")
}

fn sees(
    rt: &(impl Abort + AllocGlobal),
    view: View,
    text: &str,
    expected: &str,
) -> Result<(), Fail> {
    let Ok(lines) = see_text(rt.alloc(), view, text) else {
        return Err(Fail::new("refused"));
    };
    assert_eq!(rt; lines.as_str(), expected);
    Ok(())
}

// A sheet of one cell that holds 14.
#[test]
fn each_view_of_a_sheet(rt: HostRuntime) -> Result<(), Fail> {
    let heap = rt.alloc();
    let mut text = String::from_str(heap, "1 1 1 0 14")?;
    text.push_str(" 0".repeat(heap, 58)?.as_str())?;
    sees(&rt, View::Values, text.as_str(), "14\n")?;
    sees(&rt, View::Formulas, text.as_str(), "0,0 14\n")?;
    sees(&rt, View::Table, text.as_str(), "    0\n0  14\n")
}

fn shows(
    rt: &(impl Abort + AllocGlobal),
    numbers: &[u64],
    size: Size,
    plain: &str,
    table: &str,
) -> Result<(), Fail>
    requires { Small size }
{
    let heap = rt.alloc();
    let values = Values { numbers, size };
    assert_eq!(rt; values.to_string(heap)?.as_str(), plain);
    assert_eq!(rt; Table::new(values).to_string(heap)?.as_str(), table);
    Ok(())
}

// A number, nothing and each error; and then numbers that stand for no value, and one without its second.
#[test]
fn values_are_shown(rt: HostRuntime) -> Result<(), Fail> {
    shows(
        &rt,
        &[1, 490, 0, 0, 2, 1, 2, 2, 2, 3, 2, 4],
        Size { rows: 2, cols: 3 },
        "490 . by-nothing\ntoo-big lost ring\n",
        concat!(
            "         0     1           2\n",
            "0      490     .  by-nothing\n",
            "1  too-big  lost        ring\n",
        ),
    )?;
    shows(
        &rt,
        &[3, 0, 1],
        Size { rows: 1, cols: 2 },
        "? ?\n",
        "   0  1\n0  ?  ?\n",
    )
}
