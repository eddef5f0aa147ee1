// What stands at one place of a grid.
ghost use Rattle.std.specs.Prelude.{Some};
ghost use Rattle.show.specs.Entries.{entry_text};

use evaluate::Value;
use std::fmt;
use std::fmt::Display;

#[derive(Clone, Copy)]
pub enum Entry {
    // Where the row numbers and the column numbers meet.
    Corner,
    // The number of a row or of a column.
    Label(u64),
    Shown(Value),
    // The numbers there stand for no value, or are not there.
    Unknown,
}

impl fmt::Display for Entry {
    ghost output = { λ e. Some (entry_text e) };

    fn fmt<W: fmt::Write>(&self, f: &mut fmt::Formatter<W>) -> fmt::Result {
        match self {
            Entry::Corner => f.write_str(""),
            Entry::Label(n) => n.fmt(f),
            Entry::Shown(value) => value.fmt(f),
            Entry::Unknown => f.write_str("?"),
        }
    }
}
