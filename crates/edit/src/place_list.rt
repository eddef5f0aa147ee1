// Places in reading order.
ghost use Rattle.std.specs.Prelude.{◌≡◌, ◌<◌, ◌≤◌, [], ◌∷◌, ◌++◌, length, IfOk, vec_capacity};
ghost use Rattle.evaluate.specs.Limits.{max_cells};

use formula::CellRef;
use recalc::MAX_CELLS;
use std::alloc::{AllocError, Global};

// There is room for every cell of the largest sheet, so that no write wants memory.
#[derive(Drop)]
pub struct PlaceList {
    places: Vec<CellRef>,
    ghost room: { max_cells ≤ vec_capacity places },
}

impl PlaceList {
    pub fn new(heap: Global) -> Result<PlaceList, AllocError>
        ensures { IfOk result (λ v. v.places.items ≡ []) }
    {
        let places = Vec::with_capacity(heap, MAX_CELLS)?;
        Ok(PlaceList { places })
    }

    pub fn as_slice(&self) -> &[CellRef]
        ensures { result.now ≡ self.now.places.items }
    {
        self.places.as_slice()
    }

    pub fn clear(&mut self)
        ensures { self.new.places.items ≡ [] }
    {
        self.places.clear();
    }

    pub fn add(&mut self, place: CellRef)
        requires { length self.old.places.items < max_cells }
        ensures { self.new.places.items ≡ self.old.places.items ++ place ∷ [] }
    {
        let _ = self.places.push(place);
    }
}
