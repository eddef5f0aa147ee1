// What a formula comes to, and the places that it looks at.
ghost use Rattle.std.specs.Prelude.{◌≡◌, Some, vec_capacity};
ghost use Rattle.std.specs.Option.{option_map};
ghost use Rattle.formula.specs.Reading.{spelled};
ghost use Rattle.formula.specs.Expressions.{formula_of};
ghost use Rattle.evaluate.specs.Evaluation.{attempt};
ghost use Rattle.evaluate.specs.Looking.{Lists};

use crate::cells::Cells;
use crate::reader::Reader;
use crate::stop::Stop;
use crate::trail::{Listed, Untold};
use crate::unlisted::Unlisted;
use formula::{CellRef, Expression};
use std::mem::replace;

// What an expression comes to from what the cells show.
pub fn evaluate_expression<C: Cells>(expression: Expression<'_>, cells: &C) -> Result<u64, Stop>
    ensures { Some result ≡ option_map (attempt (C.sheet cells.now).shown) (formula_of expression.entry) }
{
    let trail = Untold;
    let mut reader = Reader { cells, trail };
    let end = reader.work(expression);
    let Untold = reader.into_trail();
    end
}

// The same of the formula that a row is; None where the row is no formula.
pub fn evaluate<C: Cells>(tokens: &[u64], cells: &C) -> Option<Result<u64, Stop>>
    ensures { result ≡ option_map (attempt (C.sheet cells.now).shown) (spelled tokens.now) }
{
    Some(evaluate_expression(Expression::read(tokens)?, cells))
}

// The same, and the places of the sheet that the formula looks at are added to the list, in order. A refusal leaves the list as it was, and where the list has room it does not come.
// Inlined where it is called more than once, too: the call alone is a third of what a formula of one token takes.
#[inline]
pub fn looks<C: Cells>(
    tokens: &[u64],
    cells: &C,
    places: &mut Vec<CellRef>,
) -> Result<Result<u64, Stop>, Unlisted>
    ensures { Lists (C.sheet cells.now) (spelled tokens.now) (vec_capacity places.old) result places.old.items places.new.items }
{
    let expression = Expression::read(tokens).ok_or(Unlisted::Malformed)?;
    let before = places.len();
    let empty = Vec::new(*places.allocator());
    // The list is taken out while it grows: held by `&mut`, it would have to be said at each call that it is the same one.
    let trail = Listed {
        places: replace(places, empty),
        outcome: Ok(()),
    };
    let mut reader = Reader { cells, trail };
    let end = reader.work(expression);
    let listed = reader.into_trail();
    *places = listed.places;
    if let Err(error) = listed.outcome {
        places.truncate(before);
        return Err(error.into());
    }
    Ok(end)
}
