// Plants as numbers, read an event and an arrow at a time.
ghost use Rattle.std.specs.Prelude.{◌≡◌, length};
ghost use Rattle.std.specs.Iterator.{at_most};
ghost use Rattle.std.specs.Slice.Iter.{iter_rest};

use plant::Numbers;
use std::slice::Iter;

#[derive(Clone, Copy)]
pub struct Event {
    pub sign: Option<u16>,
    pub fault: bool,
}

// An arrow with what its event is.
#[derive(Clone, Copy)]
pub struct Step {
    pub from: u16,
    pub event: u16,
    pub to: u16,
    pub sign: Option<u16>,
    pub fault: bool,
}

// The numbers as the entries take them. Nothing says that they make a plant.
#[derive(Clone, Copy)]
pub struct Plant<'a> {
    pub states: u16,
    pub arrows: &'a [u16],
    pub events: &'a [u16],
}

// As the entries are lent them.
impl<'a> From<Plant<'a>> for Numbers<'a> {
    ghost from_gives = { λ plant numbers. (numbers.states ≡ plant.states) × (numbers.arrows.now ≡ plant.arrows.now) × (numbers.events.now ≡ plant.events.now) };

    fn from(plant: Plant<'a>) -> Numbers<'a> {
        Numbers {
            states: u64::from(plant.states),
            arrows: plant.arrows,
            events: plant.events,
        }
    }
}

impl<'a> Plant<'a> {
    pub fn event(self, event: u16) -> Option<Event> {
        let (events, _) = self.events.as_chunks::<2>();
        let [number, mark] = *events.get(usize::from(event))?;
        Some(Event {
            // A 0 is nothing.
            sign: Some(number).filter(|number| *number != 0),
            fault: mark == 1,
        })
    }

    // The arrow as a step, if its event is there.
    fn step(self, [from, event, to]: [u16; 3]) -> Option<Step> {
        let Event { sign, fault } = self.event(event)?;
        Some(Step {
            from,
            event,
            to,
            sign,
            fault,
        })
    }

    // The arrows whose events there are.
    pub fn steps(self) -> Steps<'a> {
        let (arrows, _) = self.arrows.as_chunks::<3>();
        Steps {
            plant: self,
            left: arrows.iter(),
        }
    }
}

#[derive(Clone, Drop)]
pub struct Steps<'a> {
    plant: Plant<'a>,
    left: Iter<'a, [u16; 3]>,
}

impl<'a> Iterator for Steps<'a> {
    type Item = Step;

    ghost remaining = { λ s. at_most (length (iter_rest s.left)) };

    fn next(&mut self) -> Option<Step> {
        let plant = self.plant;
        self.left.find_map(|arrow| plant.step(*arrow))
    }
}
