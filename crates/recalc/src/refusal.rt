// Why a sheet, or a change to one, is refused.
ghost use Rattle.std.specs.Prelude.{◌≡◌};
ghost use Rattle.recalc.specs.Refusals.{refusal_number, refusal_place};

#[derive(Clone, Copy)]
pub enum Refusal {
    // Not 1 to 40 rows.
    Rows,
    // Not 1 to 12 columns.
    Columns,
    // So many numbers are too few for the sheet.
    Short(usize),
    // The cell with this index, in reading order.
    Malformed(usize),
    // A row of so many numbers is too short for what is shown.
    NoRoom(usize),
    // A write to a place outside the sheet.
    Outside,
    // A row or column is inserted or deleted at a line that is not there.
    NoLine,
    // There are as many rows or columns as there may be.
    Full,
    // The only row or column would be deleted.
    OnlyLine,
}

impl Refusal {
    // Its number in the list of refusals. No From: what is printed of a refusal is two numbers, and which one would not be said.
    pub fn number(self) -> u64
        ensures { result ≡ refusal_number self }
    {
        match self {
            Refusal::Rows | Refusal::Columns => 1,
            Refusal::Short(_) => 3,
            Refusal::Malformed(_) => 4,
            Refusal::NoRoom(_) => 5,
            Refusal::Outside => 6,
            Refusal::NoLine => 7,
            Refusal::Full => 8,
            Refusal::OnlyLine => 9,
        }
    }

    pub fn place(self) -> usize
        ensures { result ≡ refusal_place self }
    {
        match self {
            Refusal::Rows
            | Refusal::Outside
            | Refusal::NoLine
            | Refusal::Full
            | Refusal::OnlyLine => 0,
            Refusal::Columns => 1,
            Refusal::Short(length) => length,
            Refusal::Malformed(index) => index,
            Refusal::NoRoom(length) => length,
        }
    }
}
