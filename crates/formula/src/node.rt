// An expression taken apart.
ghost use Rattle.std.specs.Prelude.{◌≡◌, ◌≤◌, true, length, is_some, Some};
ghost use Rattle.std.specs.Option.{option_map};
ghost use Rattle.formula.specs.Reading.{reads, formula_at, spelled};
ghost use Rattle.formula.specs.Expressions.{formula_of, formula_in, OperandsWithin};

use crate::expression::Expression;
use crate::layout::FORMULA_LEN;
use crate::reading::{read_operand, skip};
use crate::token::{Aggregate, CellRef, Operator, Range, Token};

// What a formula is made of.
#[derive(Clone, Copy)]
pub enum Node<'a> {
    Number(u64),
    Cell(Option<CellRef>),
    Fold(Aggregate, Option<Range>),
    Binary(Operator, Expression<'a>, Expression<'a>),
    // If the first is less than the second, the third, else the fourth.
    IfLess(Expression<'a>, Expression<'a>, Expression<'a>, Expression<'a>),
}

// The formula that stands in a row after `nth` others.
fn operand(tokens: &[u64], nth: usize) -> Expression<'_>
    requires { is_some (formula_at nth (reads tokens.now)) ≡ true }
    ensures is { formula_of result ≡ formula_at nth (reads tokens.now) }
    ensures within { length result.tokens.now ≤ length tokens.now }
{
    Expression { tokens, nth }
}

impl<'a> Expression<'a> {
    // The formula of 1 to 12 tokens that a whole row is.
    pub fn read(tokens: &'a [u64]) -> Option<Expression<'a>>
        ensures { option_map formula_of result ≡ option_map Some (spelled tokens.now) }
    {
        if tokens.len() > FORMULA_LEN || !skip(tokens, 1)?.is_empty() {
            return None;
        }
        Some(Expression { tokens, nth: 0 })
    }

    pub fn node(self) -> Node<'a>
        ensures is { formula_of self.entry ≡ formula_in result }
        ensures smaller { OperandsWithin (length self.entry.tokens.now) result }
    {
        let Some((token, rest)) = read_operand(self.tokens, self.nth) else {
            unreachable()
        };
        match token {
            Token::Number(n) => Node::Number(n),
            Token::Cell(cell) => Node::Cell(cell),
            Token::Fold(aggregate, range) => Node::Fold(aggregate, range),
            Token::Binary(operator) => {
                Node::Binary(operator, operand(rest, 0), operand(rest, 1))
            }
            Token::IfLess => Node::IfLess(
                operand(rest, 0),
                operand(rest, 1),
                operand(rest, 2),
                operand(rest, 3),
            ),
        }
    }
}
