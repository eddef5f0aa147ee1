// What a cell shows.
ghost use Rattle.std.specs.Prelude.{◌≡◌, slice_index};
ghost use Rattle.std.specs.Result.{result_ok};
ghost use Rattle.evaluate.specs.Values.{error_number, error_in, value_in, StandsFor};

#[derive(Clone, Copy, PartialEq, Eq)]
pub enum CellError {
    DivideByZero,
    // Below 0 or above 2^64 - 1.
    OutOfRange,
    // The cells that were named have been deleted.
    Lost,
    // The cell is needed for itself.
    Cycle,
}

#[derive(Clone, Copy, Default, PartialEq, Eq)]
pub enum Value {
    #[default]
    Empty,
    Number(u64),
    Error(CellError),
}

// Numbers that stand for nothing that a cell shows.
#[derive(Clone, Copy)]
pub struct NotAValue;

impl From<CellError> for u64 {
    ghost from_gives = { λ error n. n ≡ error_number error };

    fn from(error: CellError) -> u64 {
        match error {
            CellError::DivideByZero => 1,
            CellError::OutOfRange => 2,
            CellError::Lost => 3,
            CellError::Cycle => 4,
        }
    }
}

impl TryFrom<u64> for CellError {
    type Error = NotAValue;

    ghost try_from_gives = { λ n r. result_ok r ≡ error_in n };

    fn try_from(n: u64) -> Result<CellError, NotAValue> {
        match n {
            1 => Ok(CellError::DivideByZero),
            2 => Ok(CellError::OutOfRange),
            3 => Ok(CellError::Lost),
            4 => Ok(CellError::Cycle),
            _ => Err(NotAValue),
        }
    }
}

// The two numbers of a value in a lent row.
impl From<Value> for [u64; 2] {
    ghost from_gives = { StandsFor };

    fn from(value: Value) -> [u64; 2] {
        match value {
            Value::Empty => [0, 0],
            Value::Number(n) => [1, n],
            Value::Error(error) => [2, error.into()],
        }
    }
}

impl TryFrom<[u64; 2]> for Value {
    type Error = NotAValue;

    ghost try_from_gives = { λ ns r. result_ok r ≡ value_in (slice_index ns 0) (slice_index ns 1) };

    fn try_from(numbers: [u64; 2]) -> Result<Value, NotAValue> {
        match numbers {
            [0, 0] => Ok(Value::Empty),
            [1, n] => Ok(Value::Number(n)),
            [2, n] => Ok(Value::Error(CellError::try_from(n)?)),
            _ => Err(NotAValue),
        }
    }
}
