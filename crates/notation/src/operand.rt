// The text of a formula, and of what it is made of.
ghost use Rattle.std.specs.Prelude.{◌≡◌, true, cond, [], Some, codes};
ghost use Rattle.std.specs.Option.{option_map};
ghost use Rattle.formula.specs.Expressions.{formula_of};
ghost use Rattle.notation.specs.Notation.{sign, name, cell_text, fold_text, text_in};

use formula::{Aggregate, CellRef, Expression, Node, Operator, Range};
use std::fmt;
use std::fmt::Display;

// No Display: the enum is of `formula`, and no other crate can give it one.
fn sign(operator: Operator) -> &'static str
    ensures { result.now ≡ sign operator }
{
    match operator {
        Operator::Add => " + ",
        Operator::Subtract => " - ",
        Operator::Multiply => " * ",
        Operator::Divide => " / ",
    }
}

// As `sign`.
fn name(aggregate: Aggregate) -> &'static str
    ensures { result.now ≡ name aggregate }
{
    match aggregate {
        Aggregate::Sum => "total",
        Aggregate::Count => "count",
        Aggregate::Max => "most",
    }
}

// A cell, or one that has been deleted.
#[derive(Clone, Copy)]
struct Place(Option<CellRef>);

impl Display for Place {
    ghost output = { λ p. Some (cell_text p.0) };

    fn fmt<W: fmt::Write>(&self, f: &mut fmt::Formatter<W>) -> fmt::Result {
        match self.0 {
            Some(cell) => write!(f, "({cell})"),
            None => f.write_str("lost"),
        }
    }
}

#[derive(Clone, Copy)]
struct Fold {
    aggregate: Aggregate,
    range: Option<Range>,
}

impl Display for Fold {
    ghost output = { λ o. Some (fold_text o.aggregate o.range) };

    fn fmt<W: fmt::Write>(&self, f: &mut fmt::Formatter<W>) -> fmt::Result {
        let name = name(self.aggregate);
        match self.range {
            Some(range) => {
                let Range {
                    row,
                    rows,
                    col,
                    cols,
                } = range;
                write!(f, "{name}(rows {row}+{rows}, columns {col}+{cols})")
            }
            None => write!(f, "{name}(lost)"),
        }
    }
}

// What stands around an operation or a conditional that stands inside another.
fn parentheses(inside: bool) -> (&'static str, &'static str)
    ensures open { result.0.now ≡ cond inside (codes "(") [] }
    ensures close { result.1.now ≡ cond inside (codes ")") [] }
{
    if inside { ("(", ")") } else { ("", "") }
}

#[derive(Clone, Copy)]
pub struct Operand<'a> {
    pub expression: Expression<'a>,
    // It stands inside another formula.
    pub inside: bool,
}

fn inside(expression: Expression<'_>) -> Operand<'_>
    ensures { (result.expression ≡ expression.entry) × (result.inside ≡ true) }
{
    Operand {
        expression,
        inside: true,
    }
}

impl Display for Operand<'_> {
    ghost output = { λ o. option_map (text_in o.inside) (formula_of o.expression) };

    fn fmt<W: fmt::Write>(&self, f: &mut fmt::Formatter<W>) -> fmt::Result {
        let (open, close) = parentheses(self.inside);
        match self.expression.node() {
            // Not n.fmt(f): a formula is written alike under every width.
            Node::Number(n) => write!(f, "{n}"),
            Node::Cell(cell) => Place(cell).fmt(f),
            Node::Fold(aggregate, range) => Fold { aggregate, range }.fmt(f),
            Node::Binary(operator, left, right) => {
                f.write_str(open)?;
                inside(left).fmt(f)?;
                f.write_str(sign(operator))?;
                inside(right).fmt(f)?;
                f.write_str(close)
            }
            Node::IfLess(left, right, less, other) => {
                write!(f, "{open}if ")?;
                inside(left).fmt(f)?;
                f.write_str(" < ")?;
                inside(right).fmt(f)?;
                f.write_str(" then ")?;
                inside(less).fmt(f)?;
                f.write_str(" else ")?;
                inside(other).fmt(f)?;
                f.write_str(close)
            }
        }
    }
}
