// Looks at cells, and notes where it looked.
ghost use Rattle.std.specs.Prelude.{◌≡◌, [], ◌∷◌};
ghost use Rattle.formula.specs.Formula as formula;
ghost use Rattle.evaluate.specs.Traces.{seen, look};
ghost use Rattle.evaluate.specs.Evaluation.{trace};
ghost use Rattle.evaluate.specs.Trails.{inside, Kept};
ghost use Rattle.evaluate.specs.Reads.{Reads};

use crate::cells::Cells;
use crate::stop::Stop;
use crate::trail::Trail;
use crate::value::{CellError, Value};
use formula::CellRef;

pub struct Reader<'a, C, T> {
    pub cells: &'a C,
    pub trail: T,
}

// The number of a cell; an empty one has none.
fn number_in(place: CellRef, value: Option<Value>) -> Result<Option<u64>, Stop>
    ensures { result ≡ seen place value (λ n. n) }
{
    match value.ok_or(Stop::Needs(place))? {
        Value::Empty => Ok(None),
        Value::Number(n) => Ok(Some(n)),
        Value::Error(error) => Err(Stop::Error(error)),
    }
}

impl<'a, C: Cells, T: Trail> Reader<'a, C, T> {
    // Places outside the sheet are on no trail.
    fn note(&mut self, place: CellRef)
        ensures same { self.new.cells ≡ self.old.cells }
        ensures noted { let sheet = C.sheet self.old.cells.now in Kept (T.log self.old.trail) (inside sheet.height sheet.width (place ∷ [])) (T.log self.new.trail) }
    {
        if place.row < self.cells.rows() && place.col < self.cells.cols() {
            self.trail.note(place);
        }
    }

    pub fn look(&mut self, place: CellRef) -> Result<Option<u64>, Stop>
        ensures { Reads C.sheet T.log (λ f. look f place (λ n. n)) result self.old self.new }
    {
        self.note(place);
        number_in(place, self.cells.at(place))
    }

    pub fn into_trail(self) -> T
        ensures { result ≡ self.entry.trail }
    {
        let Reader { cells: _, trail } = self;
        trail
    }

    // An empty cell counts as 0.
    pub fn cell(&mut self, place: Option<CellRef>) -> Result<u64, Stop>
        ensures { Reads C.sheet T.log (λ f. trace f (formula.cell place)) result self.old self.new }
    {
        let place = place.ok_or(CellError::Lost)?;
        Ok(self.look(place)?.unwrap_or(0))
    }
}
