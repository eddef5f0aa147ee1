// Where the places that a formula looks at are noted.
ghost use Rattle.std.specs.Prelude.{false, [], ◌∷◌, is_ok, vec_capacity};
ghost use Rattle.evaluate.specs.Trails.{Log, Kept};

use formula::CellRef;
use std::alloc::AllocError;

pub trait Trail {
    ghost log: { Self → Log };

    fn note(&mut self, place: CellRef)
        ensures { Kept (log self.old) (place ∷ []) (log self.new) };
}

// Nobody asks which places were looked at.
#[derive(Drop)]
pub struct Untold;

impl Trail for Untold {
    ghost log = { λ _. record { places = []; room = 0; whole = false } };

    fn note(&mut self, _place: CellRef) {}
}

// Every place is added to a list, until memory is wanting.
#[derive(Drop)]
pub struct Listed {
    pub places: Vec<CellRef>,
    pub outcome: Result<(), AllocError>,
}

impl Trail for Listed {
    ghost log = { λ s. record { places = s.places.items; room = vec_capacity s.places; whole = is_ok s.outcome } };

    fn note(&mut self, place: CellRef) {
        if self.outcome.is_ok() {
            self.outcome = self.places.push(place).map_err(AllocError::from);
        }
    }
}
