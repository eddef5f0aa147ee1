// What the numbers of a range come to so far.
ghost use Rattle.std.specs.Prelude.{◌≡◌, ◌<◌};
ghost use Rattle.evaluate.specs.Limits.{max_cells};
ghost use Rattle.evaluate.specs.Evaluation.{none_yet, counted, finished};

use crate::stop::Stop;
use crate::value::CellError;
use formula::Aggregate;
use std::marker::Model;

#[derive(Drop)]
pub struct Tally {
    count: u64,
    // Past 2^64 - 1 it goes on: an error further on in the range comes first.
    total: u128,
    largest: u64,
}

// So many numbers of 64 bits come to no more.
impl Model for Tally {
    ghost use Rattle.std.specs.Prelude.{◌-◌, ◌*◌, ◌^◌, ◌≤◌};
    ghost use Rattle.evaluate.specs.Tallies as tallies;

    ghost Value = { tallies.Tally };

    ghost view = { λ t. record { count = t.count; total = t.total; largest = t.largest } };

    ghost invariant = { λ t. t.total ≤ t.count * (2 ^ 64 - 1) };
}

impl Tally {
    pub fn new() -> Tally
        ensures { result ≡ none_yet }
    {
        Tally {
            count: 0,
            total: 0,
            largest: 0,
        }
    }

    // With what one cell holds; an empty one is passed over.
    pub fn add(self, number: Option<u64>) -> Tally
        requires { self.count < max_cells }
        ensures { result ≡ counted self number }
    {
        let Some(n) = number else {
            return self;
        };
        Tally {
            count: self.count + 1,
            total: self.total + n as u128,
            largest: self.largest.max(n),
        }
    }

    pub fn finish(self, aggregate: Aggregate) -> Result<u64, Stop>
        ensures { result ≡ finished aggregate self }
    {
        match aggregate {
            Aggregate::Count => Ok(self.count),
            Aggregate::Max => Ok(self.largest),
            Aggregate::Sum => Ok(u64::try_from(self.total).map_err(|_| CellError::OutOfRange)?),
        }
    }
}
