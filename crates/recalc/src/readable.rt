// Whatever memory is lent, as a language: one that is refused has no cells.
ghost use Rattle.recalc.specs.Numbered.{sheet_language, readable};
ghost use Rattle.recalc.specs.SheetLaws;

use crate::formulas::{Formulas, Progress};
use crate::lent::LentSheet;
use evaluate::Value;

// For callers that do not know whether the memory is refused; a `LentSheet` is of one that is not.
#[derive(Clone, Copy)]
pub struct Lent<'a> {
    pub nums: &'a [u64],
}

impl<'a> Formulas for Lent<'a> {
    ghost language = { λ s. sheet_language (readable s.nums.now) };

    ghost lawful = { λ s. SheetLaws.lawful (readable s.nums.now) };

    // That there is a cell says that the memory is not refused.
    fn attempt(&self, k: usize, table: &[Progress]) -> Result<Value, usize> {
        LentSheet::of(self.nums).attempt(k, table)
    }
}
