// One cell of a lent sheet: 61 numbers, how many tokens its formula has and room for 12.
ghost use Rattle.std.specs.Prelude.{◌≡◌, ◌≤◌, true, false, ◌++◌, length, drop, is_some, Some};
ghost use Rattle.std.specs.Option.{option_and_then, option_map};
ghost use Rattle.formula.specs.Layout.{cell_len};
ghost use Rattle.formula.specs.Reading.{spelled};
ghost use Rattle.formula.specs.Expressions.{formula_of};
ghost use Rattle.formula.specs.Cells.{content, is_malformed, formula_in, meant, stored, written, answered, kept};

use crate::expression::Expression;
use crate::layout::{CELL_LEN, MAX_TOKENS, TOKEN_LEN};
use crate::moving::{Moves, rewrite};
use crate::reading::is_formula;
use crate::token::{CellRef, Range};

// Three cases, and no Result of an Option: a malformed cell is one of the things that a cell can be.
#[derive(Clone, Copy)]
pub enum Cell<'a> {
    Blank,
    // The tokens of a formula.
    Formula(&'a [u64]),
    Malformed,
}

// Why a formula was not written.
#[derive(Clone, Copy)]
pub enum NotWritten {
    // The row is shorter than a cell.
    Short,
    // The tokens are no formula.
    Malformed,
}

impl<'a> Cell<'a> {
    // The cell at the start of a row.
    pub fn read(numbers: &'a [u64]) -> Cell<'a>
        ensures { meant result ≡ content numbers.now }
    {
        if numbers.len() < CELL_LEN {
            return Cell::Malformed;
        }
        let count = numbers[0];
        if count == 0 {
            return Cell::Blank;
        }
        if count > MAX_TOKENS as u64 {
            return Cell::Malformed;
        }
        let tokens = &numbers[1..1 + TOKEN_LEN * count as usize];
        if is_formula(tokens) {
            Cell::Formula(tokens)
        } else {
            Cell::Malformed
        }
    }

    // Writes the formula of the tokens into the cell at the start of a row; a refusal changes nothing.
    pub fn write(numbers: &mut [u64], tokens: &[u64]) -> Result<(), NotWritten>
        ensures answer { result ≡ answered (written numbers.old tokens.now) }
        ensures numbers { numbers.new ≡ kept numbers.old (written numbers.old tokens.now) }
    {
        if numbers.len() < CELL_LEN {
            return Err(NotWritten::Short);
        }
        if !is_formula(tokens) {
            return Err(NotWritten::Malformed);
        }
        store(numbers, tokens);
        Ok(())
    }
}

impl<'a> Expression<'a> {
    // The formula of a cell that is known to be well formed, so that nothing is checked again; None if the cell is blank.
    pub fn in_cell(numbers: &'a [u64]) -> Option<Expression<'a>>
        requires { is_malformed (content numbers.now) ≡ false }
        ensures { option_and_then formula_of result ≡ formula_in (content numbers.now) }
    {
        let count = numbers[0] as usize;
        if count == 0 {
            return None;
        }
        Some(Expression {
            tokens: &numbers[1..1 + TOKEN_LEN * count],
            nth: 0,
        })
    }
}

// References and ranges that stay where they are: what is rewritten so has its unused numbers 0.
struct Stay;

impl Moves for Stay {
    ghost moved = { λ _ cell. Some cell };

    ghost resized = { λ _ range. Some range };

    fn reference(&self, cell: CellRef) -> Option<CellRef> {
        Some(cell)
    }

    fn range(&self, range: Range) -> Option<Range> {
        Some(range)
    }
}

fn store(numbers: &mut [u64], tokens: &[u64])
    requires room { cell_len ≤ length numbers.old }
    requires formula { is_some (spelled tokens.now) ≡ true }
    ensures { Some numbers.new ≡ option_map (λ f. stored f ++ drop cell_len numbers.old) (spelled tokens.now) }
{
    let end = 1 + tokens.len();
    numbers[0] = (tokens.len() / TOKEN_LEN) as u64;
    numbers[1..end].copy_from_slice(tokens);
    rewrite(&mut numbers[1..end], &Stay);
    numbers[end..CELL_LEN].fill(0);
}
