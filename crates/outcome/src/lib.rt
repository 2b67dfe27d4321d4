// Whether every fault of a plant comes out: the twin product's finding as a yes or a no.
#![tactic(auto)]

ghost use Rattle.std.specs.Prelude.{MatchBool};
ghost use Rattle.plant.specs.Model.{model};
ghost use Rattle.plant.specs.Plant.{ComesOut};

use plant::Plant;
use twin::{Finding, examine};

// Whether every fault of the plant comes out, after some number of events.
pub fn comes_out(plant: Plant) -> bool
    ensures { MatchBool result (ComesOut (model plant.entry)) (ComesOut (model plant.entry) → ⊥) }
{
    matches!(examine(plant), Finding::Out(_))
}
