// Working out a formula, operand by operand.
ghost use Rattle.std.specs.Prelude.{◌≡◌, Some};
ghost use Rattle.formula.specs.Formula as formula;
ghost use Rattle.formula.specs.Expressions.{formula_of};
ghost use Rattle.evaluate.specs.Evaluation.{applied, trace};
ghost use Rattle.evaluate.specs.Reads.{Reads};

use crate::cells::Cells;
use crate::reader::Reader;
use crate::stop::Stop;
use crate::trail::Trail;
use crate::value::CellError;
use formula::{Expression, Node, Operator};

fn apply(operator: Operator, a: u64, b: u64) -> Result<u64, Stop>
    ensures { result ≡ applied operator a b }
{
    let result = match operator {
        Operator::Add => a.checked_add(b),
        Operator::Subtract => a.checked_sub(b),
        Operator::Multiply => a.checked_mul(b),
        Operator::Divide => Some(a.checked_div(b).ok_or(CellError::DivideByZero)?),
    };
    Ok(result.ok_or(CellError::OutOfRange)?)
}

impl<'a, C: Cells, T: Trail> Reader<'a, C, T> {
    pub fn work(&mut self, expression: Expression<'_>) -> Result<u64, Stop>
        ensures { (x : formula.Formula) → formula_of expression.entry ≡ Some x → Reads C.sheet T.log (λ f. trace f x) result self.old self.new }
    {
        match expression.node() {
            Node::Number(n) => Ok(n),
            Node::Cell(place) => self.cell(place),
            Node::Fold(aggregate, range) => self.fold(aggregate, range),
            Node::Binary(operator, left, right) => {
                let a = self.work(left)?;
                let b = self.work(right)?;
                apply(operator, a, b)
            }
            Node::IfLess(left, right, less, other) => {
                let a = self.work(left)?;
                let b = self.work(right)?;
                self.work(if a < b { less } else { other })
            }
        }
    }
}
