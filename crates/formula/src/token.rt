// One token of a formula: its kind, and what it holds.
ghost use Rattle.std.specs.Prelude.{◌≡◌, Some};
ghost use Rattle.std.specs.Option.{ok_or};
ghost use Rattle.formula.specs.Tokens.{token_in, needs, numbers};

use crate::layout::TOKEN_LEN;

#[derive(Clone, Copy)]
pub struct CellRef {
    pub row: u64,
    pub col: u64,
}

// A rectangle of cells: its first row, how many rows, its first column, and how many columns.
#[derive(Clone, Copy)]
pub struct Range {
    pub row: u64,
    pub rows: u64,
    pub col: u64,
    pub cols: u64,
}

#[derive(Clone, Copy)]
pub enum Aggregate {
    Sum,
    Count,
    Max,
}

#[derive(Clone, Copy)]
pub enum Operator {
    Add,
    Subtract,
    Multiply,
    Divide,
}

// A reference or a range whose cells were deleted is None.
#[derive(Clone, Copy)]
pub enum Token {
    Number(u64),
    Cell(Option<CellRef>),
    Fold(Aggregate, Option<Range>),
    Binary(Operator),
    IfLess,
}

// A kind that no token has.
#[derive(Clone, Copy)]
pub struct UnknownKind;

// A kind and four more numbers; those that the kind does not use are ignored.
impl TryFrom<[u64; TOKEN_LEN]> for Token {
    type Error = UnknownKind;

    ghost try_from_gives = { λ ns t. t ≡ ok_or (token_in ns) (record {}) };

    fn try_from(numbers: [u64; TOKEN_LEN]) -> Result<Token, UnknownKind> {
        let [kind, a, b, c, d] = numbers;
        let range = Range {
            row: a,
            rows: b,
            col: c,
            cols: d,
        };
        let token = match kind {
            0 => Token::Number(a),
            1 => Token::Cell(Some(CellRef { row: a, col: b })),
            2 => Token::Cell(None),
            3 => Token::Fold(Aggregate::Sum, Some(range)),
            4 => Token::Fold(Aggregate::Count, Some(range)),
            5 => Token::Fold(Aggregate::Max, Some(range)),
            6 => Token::Fold(Aggregate::Sum, None),
            7 => Token::Fold(Aggregate::Count, None),
            8 => Token::Fold(Aggregate::Max, None),
            9 => Token::Binary(Operator::Add),
            10 => Token::Binary(Operator::Subtract),
            11 => Token::Binary(Operator::Multiply),
            12 => Token::Binary(Operator::Divide),
            13 => Token::IfLess,
            _ => return Err(UnknownKind),
        };
        Ok(token)
    }
}

// The unused numbers are 0.
impl From<Token> for [u64; TOKEN_LEN] {
    ghost from_gives = { λ t ns. (ns ≡ numbers t) × (token_in ns ≡ Some t) };

    fn from(token: Token) -> [u64; TOKEN_LEN] {
        match token {
            Token::Number(n) => [0, n, 0, 0, 0],
            Token::Cell(Some(cell)) => [1, cell.row, cell.col, 0, 0],
            Token::Cell(None) => [2, 0, 0, 0, 0],
            Token::Fold(aggregate, Some(range)) => {
                let kind = match aggregate {
                    Aggregate::Sum => 3,
                    Aggregate::Count => 4,
                    Aggregate::Max => 5,
                };
                [kind, range.row, range.rows, range.col, range.cols]
            }
            Token::Fold(aggregate, None) => {
                let kind = match aggregate {
                    Aggregate::Sum => 6,
                    Aggregate::Count => 7,
                    Aggregate::Max => 8,
                };
                [kind, 0, 0, 0, 0]
            }
            Token::Binary(operator) => {
                let kind = match operator {
                    Operator::Add => 9,
                    Operator::Subtract => 10,
                    Operator::Multiply => 11,
                    Operator::Divide => 12,
                };
                [kind, 0, 0, 0, 0]
            }
            Token::IfLess => [13, 0, 0, 0, 0],
        }
    }
}

impl Token {
    // How many formulas stand after it.
    pub fn needs(self) -> usize
        ensures { result ≡ needs self }
    {
        match self {
            Token::Number(_) | Token::Cell(_) | Token::Fold(_, _) => 0,
            Token::Binary(_) => 2,
            Token::IfLess => 4,
        }
    }
}
