// The steps of a plant one after the other, in the order of its arrows.
ghost use Rattle.std.specs.Prelude.{◌≡◌};
ghost use Rattle.std.specs.Iterator.{YieldsFirst, item_count};
ghost use Rattle.plant.specs.Model.{steps, steps_left};

use super::Plant;
use crate::parts::Step;

#[derive(Drop)]
pub struct Steps<'a> {
    plant: Plant<'a>,
    next: usize,
}

impl<'a> Iterator for Steps<'a> {
    type Item = Step;

    ghost next_gives = { YieldsFirst steps_left };

    ghost remaining = { item_count steps_left };

    fn next(&mut self) -> Option<Step> {
        let step = self.plant.step(self.next)?;
        self.next += 1;
        Some(step)
    }
}

impl<'a> Plant<'a> {
    // Every arrow with what its event shows and is.
    pub fn steps(self) -> Steps<'a>
        ensures { steps_left result ≡ steps self.entry }
    {
        Steps {
            plant: self,
            next: 0,
        }
    }
}
