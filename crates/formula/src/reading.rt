// Reading the formulas that a row of numbers spells.
ghost use Rattle.std.specs.Prelude.{◌≡◌, true, is_some, IfSome};
ghost use Rattle.std.specs.Option.{option_map};
ghost use Rattle.formula.specs.Tokens.{decoded};
ghost use Rattle.formula.specs.Reading.{after, operand_of, reads, formula_at, Operand, spelled};

use crate::expression::Expression;
use crate::layout::TOKEN_LEN;
use crate::token::Token;

// The first token, and the numbers after it.
pub fn read_token(tokens: &[u64]) -> Option<(Token, &[u64])>
    ensures { option_map (λ p. (p.0, p.1.now)) result ≡ decoded tokens.now }
{
    let [kind, a, b, c, d, rest @ ..] = tokens else {
        return None;
    };
    let token = Token::try_from([*kind, *a, *b, *c, *d]).ok()?;
    Some((token, rest))
}

// What is left after so many formulas; each has at least one token.
pub(crate) fn skip(tokens: &[u64], formulas: usize) -> Option<&[u64]>
    ensures { option_map (λ s. s.now) result ≡ after formulas tokens.now }
{
    if formulas == 0 {
        return Some(tokens);
    }
    if formulas > tokens.len() / TOKEN_LEN {
        return None;
    }
    let (token, rest) = read_token(tokens)?;
    skip(rest, formulas - 1 + token.needs())
}

// The token with which the formula after `nth` others begins, and the numbers after it.
pub fn read_operand(tokens: &[u64], nth: usize) -> Option<(Token, &[u64])>
    ensures is { option_map (λ p. (p.0, p.1.now)) result ≡ operand_of nth tokens.now }
    ensures there { is_some (formula_at nth (reads tokens.now)) ≡ true → is_some result ≡ true }
    ensures operand { IfSome result (λ p. Operand nth tokens.now p.0 p.1.now) }
{
    read_token(skip(tokens, nth)?)
}

// One formula of 1 to 12 tokens, and nothing after it.
pub fn is_formula(tokens: &[u64]) -> bool
    ensures { result ≡ is_some (spelled tokens.now) }
{
    Expression::read(tokens).is_some()
}
