// The readable notation of a formula, written from its tokens.
ghost use Rattle.std.specs.Prelude.{Some};
ghost use Rattle.notation.specs.Notation.{formula_text};

use crate::operand::Operand;
use formula::Expression;
use std::fmt;
use std::fmt::Display;

// The formula that a row of tokens spells, as text.
#[derive(Clone, Copy)]
pub struct Notation<'a> {
    pub tokens: &'a [u64],
}

impl Display for Notation<'_> {
    ghost output = { λ n. Some (formula_text n.tokens.now) };

    fn fmt<W: fmt::Write>(&self, f: &mut fmt::Formatter<W>) -> fmt::Result {
        match Expression::read(self.tokens) {
            Some(expression) => {
                let formula = Operand {
                    expression,
                    inside: false,
                };
                formula.fmt(f)
            }
            None => f.write_str("malformed"),
        }
    }
}
