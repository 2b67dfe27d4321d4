// A plant without its faults, over the numbers of the arrows that are none.
ghost use Rattle.std.specs.Prelude.{◌≡◌, None, Ok};
ghost use Rattle.plant.specs.Checked.{PlantOf, behaviour, refusal_in};
ghost use Rattle.plant.specs.Model.{model};
ghost use Rattle.foretelling.specs.Calm.{harmless, numbers};

use arrayvec::ArrayVec;
use plant::{Numbers, Plant};

// As many numbers as the arrows of a plant can have.
const MOST_ARROW_NUMBERS: usize = 3072;

// A plant, and the same without its faults.
#[derive(Clone, Copy)]
pub struct Calmed<'a> {
    pub plant: Plant<'a>,
    pub calm: Plant<'a>,
    ghost arrows: { calm.arrows.now ≡ numbers (harmless (model plant) (model plant).arrows) },
    ghost events: { calm.events.now ≡ plant.events.now },
    ghost states: { calm.states ≡ plant.states },
}

// The numbers of the arrows that are no faults.
pub fn harmless_arrows(plant: Plant) -> ArrayVec<u16, MOST_ARROW_NUMBERS>
    ensures { result.items ≡ numbers (harmless (model plant.entry) (model plant.entry).arrows) }
{
    let mut arrows = ArrayVec::new();
    for step in plant.steps() {
        if !step.fault {
            arrows.push(step.from);
            arrows.push(step.event);
            arrows.push(step.to);
        }
    }
    arrows
}

impl<'a> Calmed<'a> {
    // Of numbers that make a plant, and those of its arrows that are no faults.
    pub fn new(lent: Numbers<'a>, arrows: &'a [u16]) -> Calmed<'a>
        requires accepted { refusal_in lent ≡ None }
        requires harmless { arrows.now ≡ numbers (harmless (behaviour lent) (behaviour lent).arrows) }
        ensures { PlantOf lent.entry (Ok result.plant) }
    {
        let calm = Numbers { arrows, ..lent };
        Calmed {
            plant: Plant::new(lent),
            calm: Plant::new(calm),
        }
    }
}
