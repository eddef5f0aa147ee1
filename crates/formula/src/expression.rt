// A formula where it stands in a row of tokens.
ghost use Rattle.std.specs.Prelude.{◌≡◌, true, is_some};
ghost use Rattle.formula.specs.Reading.{reads, formula_at};

// The formula that stands in a row after `nth` others; what stands after it is not looked at. It is looked for when it is taken apart, so that
// an operand that is not wanted is never skipped to.
#[derive(Clone, Copy)]
pub struct Expression<'a> {
    pub(crate) tokens: &'a [u64],
    pub(crate) nth: usize,
    ghost there: { is_some (formula_at nth (reads tokens.now)) ≡ true },
}
