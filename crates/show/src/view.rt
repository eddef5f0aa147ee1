// What is to be seen of a sheet.
ghost use Rattle.std.specs.Prelude.{Some, codes};
ghost use Rattle.std.specs.Result.{result_ok};
ghost use Rattle.show.specs.Views.{Names};

use std::error::Error;
use std::fmt;
use std::str::FromStr;

#[derive(Clone, Copy)]
pub enum View {
    // What the cells show, a line a row.
    Values,
    // What the cells hold, a line a cell.
    Formulas,
    // What the cells show, with row and column numbers.
    Table,
}

// A word that names no view.
#[derive(Debug, Clone, Copy)]
pub struct NoSuchView;

// By hand: what thiserror's derive prints has no contract.
impl fmt::Display for NoSuchView {
    ghost output = { λ _. Some (codes "no such view") };

    fn fmt<W: fmt::Write>(&self, f: &mut fmt::Formatter<W>) -> fmt::Result {
        f.write_str("no such view")
    }
}

impl Error for NoSuchView {}

impl FromStr for View {
    type Err = NoSuchView;

    ghost from_str_gives = { λ word r. Names word (result_ok r) };

    fn from_str(word: &str) -> Result<View, NoSuchView> {
        match word {
            "values" => Ok(View::Values),
            "formulas" => Ok(View::Formulas),
            "table" => Ok(View::Table),
            _ => Err(NoSuchView),
        }
    }
}
