// What cells show in any language of formulas; each function stands for theorems.
ghost use Rattle.recalc.specs.Theory.{Settles, Deeper, OnlyAnswer, CycleExactly, UnchangedStays};
ghost use Rattle.recalc.specs.Showing.{OneResult};

use crate::formulas::Formulas;

// What is shown agrees with itself, is the only answer but for cycles, does not change deeper down, and has cycles exactly where a way leads back.
pub fn every_language_is_settled<F: Formulas>(f: &F)
    ensures settles { Settles (F.language f.now) }
    ensures deeper { Deeper (F.language f.now) }
    ensures only { OnlyAnswer (F.language f.now) }
    ensures cycles { CycleExactly (F.language f.now) }
    ensures stays { UnchangedStays (F.language f.now) }
{}

// No second answer, and no second row, fits what `show_sheet` promises.
pub fn one_result()
    ensures { OneResult }
{}
