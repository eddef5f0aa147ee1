// The line that tells a refusal.
ghost use Rattle.std.specs.Prelude.{Some};
ghost use Rattle.recalc.specs.Refusals.{refusal_text};

use crate::refusal::Refusal;
use std::fmt;

impl fmt::Display for Refusal {
    ghost output = { λ r. Some (refusal_text r) };

    fn fmt<W: fmt::Write>(&self, f: &mut fmt::Formatter<W>) -> fmt::Result {
        let number = self.number();
        let place = self.place();
        write!(f, "refused {number} at {place}")
    }
}
