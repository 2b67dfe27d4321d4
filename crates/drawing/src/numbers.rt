// A drawing as the numbers that a plant is checked by.
ghost use Rattle.std.specs.Prelude.{◌≡◌, ◌^◌, ◌<◌, map, IfOk, string_bytes};
ghost use Rattle.drawing.specs.Drawn.{drawn, kind};
ghost use Rattle.drawing.specs.Numbers.{greatest, states_of, capped, three, two, arrow_numbers, event_numbers};

use crate::finished::Drawing;
use crate::shape::{Arrow, Event};
use std::alloc::{AllocError, Global};

fn capped(n: u64) -> u16
    ensures { result ≡ capped n }
{
    u16::try_from(n).unwrap_or(u16::MAX)
}

impl Arrow {
    fn numbers(self) -> [u16; 3]
        ensures { result ≡ three self }
    {
        [
            capped(self.from),
            capped(self.event as u64),
            capped(self.to),
        ]
    }
}

impl Event {
    fn numbers(self) -> [u16; 2]
        ensures { result ≡ two (kind self) }
    {
        [capped(self.shown()), u16::from(self.fault)]
    }
}

impl Drawing {
    // The names of the events.
    pub fn names(&self) -> &[String]
        ensures { map string_bytes result.now ≡ (drawn self.now).labels }
    {
        self.draft.names.as_slice()
    }

    pub fn events(&self) -> &[Event]
        ensures { map kind result.now ≡ (drawn self.now).kinds }
    {
        self.draft.events.as_slice()
    }

    pub fn arrows(&self) -> &[Arrow]
        ensures { result.now ≡ (drawn self.now).ways }
    {
        self.draft.arrows.as_slice()
    }

    // The greatest state that an arrow names, 0 if there is none.
    fn greatest(&self) -> u64
        ensures is { result ≡ greatest (drawn self.now).ways }
        ensures short { result < 10 ^ 18 }
    {
        self.arrows()
            .iter()
            .map(|a| a.from.max(a.to))
            .max()
            .unwrap_or(0)
    }

    // How many states the plant has.
    pub fn states(&self) -> u64
        ensures { result ≡ states_of (drawn self.now) }
    {
        self.greatest() + 1
    }

    // Three numbers for each arrow: from state, event, to state.
    pub fn arrow_numbers(&self, heap: Global) -> Result<Vec<u16>, AllocError>
        ensures { IfOk result (λ v. v.items ≡ arrow_numbers (drawn self.now)) }
    {
        let arrows = self.arrows();
        arrows
            .iter()
            .copied()
            .flat_map(Arrow::numbers)
            .collect(heap)
    }

    // Two numbers for each event: its sign, and 1 if it is a fault.
    pub fn event_numbers(&self, heap: Global) -> Result<Vec<u16>, AllocError>
        ensures { IfOk result (λ v. v.items ≡ event_numbers (drawn self.now)) }
    {
        let events = self.events();
        events
            .iter()
            .copied()
            .flat_map(Event::numbers)
            .collect(heap)
    }
}
