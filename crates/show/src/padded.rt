// How wide an entry is, and an entry to the right of so many places.
ghost use Rattle.std.specs.Prelude.{◌≡◌, ◌+◌, length, Some, IfOk};
ghost use Rattle.show.specs.Entries.{entry_text};
ghost use Rattle.show.specs.Table.{padded};

use crate::entry::Entry;
use std::fmt;
use std::fmt::Display;

// Counts the bytes that are written to it, and keeps none.
#[derive(Drop)]
struct Counter {
    count: usize,
}

impl fmt::Write for Counter {
    ghost write_str_gives = { λ c bs d. d.count ≡ c.count + length bs };

    fn write_str(&mut self, s: &str) -> fmt::Result {
        self.count = self.count.checked_add(s.len()).ok_or(fmt::Error)?;
        Ok(())
    }
}

pub fn width_of(entry: Entry) -> Result<usize, fmt::Error>
    ensures { IfOk result (λ n. n ≡ length (entry_text entry)) }
{
    let mut f = fmt::Formatter::new(Counter { count: 0 });
    f.write(entry)?;
    Ok(f.into_inner().count)
}

#[derive(Clone, Copy)]
pub struct Padded {
    pub width: usize,
    pub entry: Entry,
}

// Not {:>width$}: no Display here says what it writes under a width.
impl Display for Padded {
    ghost output = { λ p. Some (padded p.width (entry_text p.entry)) };

    fn fmt<W: fmt::Write>(&self, f: &mut fmt::Formatter<W>) -> fmt::Result {
        for _ in 0..self.width.saturating_sub(width_of(self.entry)?) {
            f.write_str(" ")?;
        }
        self.entry.fmt(f)
    }
}
