// What a plant is asked: how large it is, and its arrows and events one by one.
ghost use Rattle.std.specs.Prelude.{◌≡◌, ℕ, ◌/◌, ◌<◌, ◌≤◌, length, None, MatchOption};
ghost use Rattle.plant.specs.Checked.{PlantOf, refusal_in};
ghost use Rattle.plant.specs.Model.{ArrowAt, EventAt, StepAt, event_count, model, steps};

use super::checks::check;
use super::{Numbers, Plant};
use crate::parts::{Arrow, Event, Refusal, Step};

// The plant of numbers, or the first rule that turns them away.
impl<'a> TryFrom<Numbers<'a>> for Plant<'a> {
    type Error = Refusal;

    ghost try_from_gives = { PlantOf };

    fn try_from(numbers: Numbers<'a>) -> Result<Plant<'a>, Refusal> {
        check(numbers)?;
        Ok(Plant::new(numbers))
    }
}

impl<'a> Plant<'a> {
    // The plant of numbers that were checked.
    pub fn new(numbers: Numbers<'a>) -> Plant<'a>
        requires { refusal_in numbers ≡ None }
        ensures { (result.states ≡ numbers.entry.states) × (result.arrows.now ≡ numbers.entry.arrows.now) × (result.events.now ≡ numbers.entry.events.now) }
    {
        Plant {
            states: numbers.states,
            arrows: numbers.arrows,
            events: numbers.events,
        }
    }

    // How many states it has: 1 to 32.
    pub fn states(self) -> u64
        ensures value { result ≡ self.entry.states }
        ensures some { 1 ≤ result }
        ensures few { result ≤ 32 }
    {
        self.states
    }

    pub fn event_count(self) -> usize
        ensures { result ≡ event_count self.entry }
    {
        self.events.len() / 2
    }

    pub fn arrow_count(self) -> usize
        ensures { result ≡ length (model self.entry).arrows }
    {
        self.arrows.len() / 3
    }

    // Arrow `i`, if there are as many.
    pub fn arrow(self, i: usize) -> Option<Arrow>
        ensures { MatchOption result (length (model self.entry).arrows ≤ i) (ArrowAt self.entry i) }
    {
        if i >= self.arrows.len() / 3 {
            return None;
        }
        Some(Arrow {
            from: self.arrows[3 * i],
            event: self.arrows[3 * i + 1],
            to: self.arrows[3 * i + 2],
        })
    }

    // Event `e`, if there are as many.
    pub fn event(self, e: usize) -> Option<Event>
        ensures { MatchOption result (event_count self.entry ≤ e) (EventAt self.entry e) }
    {
        if e >= self.events.len() / 2 {
            return None;
        }
        Some(Event {
            sign: self.events[2 * e] as u8,
            fault: self.events[2 * e + 1] == 1,
        })
    }

    // Arrow `i` with what its event shows and is, if there are as many arrows.
    pub fn step(self, i: usize) -> Option<Step>
        ensures { MatchOption result (length (steps self.entry) ≤ i) (StepAt self.entry i) }
    {
        let arrow = self.arrow(i)?;
        let event = self.event(arrow.event as usize)?;
        Some(Step {
            from: arrow.from,
            event: arrow.event,
            sign: event.sign,
            fault: event.fault,
            to: arrow.to,
        })
    }
}
