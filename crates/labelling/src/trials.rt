// A labelling of the fewest signs: all are tried up to renaming, that is, with signs numbered in the order in which they are met, but those that have no fewer signs than the best so far.
ghost use Rattle.std.specs.Prelude.{◌≡◌, ◌≤◌, false, length, is_some};
ghost use Rattle.plant.specs.Checked.{refusal_in};

use crate::rows::Row;
use outcome::comes_out;
use plant::{Numbers, Plant};

// A plant in numbers.
// Not a `Plant`: one doesn't lend its arrows out, and the plant with other signs is made over them.
#[derive(Clone, Copy)]
pub struct Trials<'a> {
    pub numbers: Numbers<'a>,
    ghost few: { length numbers.events.now ≤ 128 },
    ghost valid: { is_some (refusal_in numbers) ≡ false },
}

impl<'a> Trials<'a> {
    ghost use Rattle.std.specs.Prelude.{◌+◌, ◌*◌, ◌<◌, take, if◌then◌else◌, MatchBool, MatchOption};
    ghost use Rattle.labelling.specs.Labels.{Does, NoLabelling};
    ghost use Rattle.labelling.specs.Refused.{fault_in};
    ghost use Rattle.labelling.specs.Trials.{Improved, Least, Normal, Own, Sound, events_of, plant_of};

    // Whether every fault comes out with the labelling.
    fn does(self, row: Row) -> bool
        requires { Normal (plant_of self) (events_of self) row }
        ensures { MatchBool result (Does (plant_of self.entry) (take (events_of self.entry) row.labels)) (Does (plant_of self.entry) (take (events_of self.entry) row.labels) → ⊥) }
    {
        let events = row.relabel(self.numbers.events);
        comes_out(Plant::new(Numbers {
            states: self.numbers.states,
            arrows: self.numbers.arrows,
            events: &events,
        }))
    }

    // The number that an event gets by itself, and the highest that it need be tried with: a fault 0, any other the next sign.
    fn own(self, event: usize, signs: u16) -> u16
        requires there { 2 * event + 1 < length self.numbers.events.now }
        requires few { signs ≤ 64 }
        ensures { result ≡ (if fault_in self.entry.numbers.events.now event then 0 else signs + 1) }
    {
        if self.numbers.events[2 * event + 1] == 1 {
            0
        } else {
            signs + 1
        }
    }

    // Each event that is no fault shows a sign of its own.
    fn finest(self) -> Row
        ensures normal { Normal (plant_of self.entry) (events_of self.entry) result }
        ensures own { Own (plant_of self.entry) (events_of self.entry) result }
    {
        let mut row = Row::nothing();
        for event in 0..self.numbers.events.len() / 2 {
            row = row.with(event, self.own(event, row.signs));
        }
        row
    }

    // The best once all is tried that goes on from the first numbers, one for each event before this one.
    fn explore(self, row: Row, event: usize, best: Row) -> Row
        requires there { event ≤ events_of self }
        requires normal { Normal (plant_of self) event row }
        requires sound { Sound (plant_of self) (events_of self) best }
        ensures { Improved (plant_of self.entry) (events_of self.entry) event row best result }
    {
        if row.signs >= best.signs {
            return best;
        }
        if event == self.numbers.events.len() / 2 {
            return if self.does(row) { row } else { best };
        }
        let mut found = best;
        for label in 0..=self.own(event, row.signs) {
            found = self.explore(row.with(event, label), event + 1, found);
        }
        found
    }

    // A labelling of the fewest signs; none if not even the finest does.
    pub fn fewest(self) -> Option<Row>
        ensures { MatchOption result (NoLabelling (plant_of self.entry) (events_of self.entry)) (Least (plant_of self.entry) (events_of self.entry)) }
    {
        let finest = self.finest();
        if !self.does(finest) {
            return None;
        }
        Some(self.explore(Row::nothing(), 0, finest))
    }
}
