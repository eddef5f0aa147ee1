// What a change asks of a cell, and whether it was done.
ghost use Rattle.std.specs.Prelude.{◌≡◌};
ghost use Rattle.recalc.specs.Marks.{is_marked, worked_out, mark_if};

#[derive(Clone, Copy, PartialEq, Eq)]
pub enum Mark {
    // Nothing, as far as is known.
    Clean,
    // To be worked out again.
    Dirty,
    // Worked out again.
    Recalculated,
}

impl Mark {
    pub fn is_marked(self) -> bool
        ensures { result ≡ is_marked self }
    {
        self != Mark::Clean
    }

    // Once the cell is worked out.
    pub fn worked_out(self) -> Mark
        ensures { result ≡ worked_out self }
    {
        match self {
            Mark::Clean => Mark::Clean,
            Mark::Dirty | Mark::Recalculated => Mark::Recalculated,
        }
    }
}

// Of a cell that was written or was not.
impl From<bool> for Mark {
    ghost from_gives = { λ is_written mark. mark ≡ mark_if is_written };

    fn from(is_written: bool) -> Mark {
        if is_written { Mark::Dirty } else { Mark::Clean }
    }
}
