// A drawing that no rule turns away.
ghost use Rattle.std.specs.Prelude.{◌≡◌, None};
ghost use Rattle.plant.specs.Checked.{behaviour, refusal_in};
ghost use Rattle.plant.specs.Model.{model};
ghost use Rattle.plant.specs.Refusals.{refusal};
ghost use Rattle.sorts.specs.Held.{numbers_in};

use drawing::Drawing;
use plant::{Numbers, Plant};
use sorts::Marked;

// Its numbers, those of events with the sorts of faults and with 1 for what counts as one. It can be had only by opening a text, so that whoever holds one has its plant without a check.
#[derive(Drop)]
pub struct Opened {
    pub drawing: Drawing,
    pub states: u64,
    pub arrows: Vec<u16>,
    pub events: Vec<u16>,
    pub marked: Marked,
    ghost valid: { refusal states arrows.items (numbers_in marked) ≡ None },
}

impl Opened {
    ghost use Rattle.command.specs.Texts.{opened_plant};

    // The numbers of its plant, to be lent.
    pub fn numbers(&self) -> Numbers<'_>
        ensures states { result.states ≡ self.now.states }
        ensures plant { behaviour result ≡ opened_plant self.now }
        ensures valid { refusal_in result ≡ None }
    {
        self.marked.numbers(Numbers {
            states: self.states,
            arrows: self.arrows.as_slice(),
            events: self.events.as_slice(),
        })
    }

    // The plant that is drawn.
    pub fn plant(&self) -> Plant<'_>
        ensures { model result ≡ opened_plant self.now }
    {
        Plant::new(self.numbers())
    }
}
