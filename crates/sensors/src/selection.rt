// A cheapest set of candidates with which every fault comes out: all sets are tried but those that are no cheaper than the best so far, or lie in one that does not do.
ghost use Rattle.std.specs.Prelude.{◌≡◌, false, length, is_some};
ghost use Rattle.sensors.specs.Candidates.{choice_refusal};

use crate::{signs, subsets};
use arrayvec::ArrayVec;
use outcome::comes_out;
use plant::{Numbers, Plant};

// All twelve candidates, or as many as there are.
const WHOLE: u16 = 4095;

// A set and the sum of its prices. Sets are numbers: up to 4,096 are tried, each by a few bit operations before its plant is judged.
#[derive(Clone, Copy)]
pub struct Best {
    pub set: u16,
    pub sum: u64,
}

// The best set so far, and sets that do not do: where more is seen nothing comes out later, so no set within one of these does either.
#[derive(Drop)]
pub struct Known {
    best: Best,
    failed: ArrayVec<u16, 64>,
}

// A plant in numbers, and the candidates with their prices.
// Not a `Plant`: one doesn't lend its arrows out, and the plant with a set shown is made over them. Rows lie side by side, as they are lent.
#[derive(Clone, Copy)]
pub struct Selection<'a> {
    pub numbers: Numbers<'a>,
    pub candidates: &'a [u16],
    pub prices: &'a [u64],
    ghost fit: { is_some (choice_refusal numbers.states numbers.arrows.now numbers.events.now candidates.now prices.now (length candidates.now)) ≡ false },
}

impl<'a> Selection<'a> {
    ghost use Rattle.std.specs.Prelude.{◌^◌, MatchBool, MatchOption};
    ghost use Rattle.sensors.specs.Choice.{NoSet};
    ghost use Rattle.sensors.specs.Sets.{BestOf, Better, Does, Failing, Never, Sound, chosen_by, cost_by, plant_of};

    // Whether every fault comes out with the set shown.
    fn does(self, set: u16) -> bool
        ensures { MatchBool result (Does (plant_of self.entry) (chosen_by self.entry.candidates.now set)) (Never (plant_of self.entry) (chosen_by self.entry.candidates.now set)) }
    {
        let marks = subsets::marks(set);
        let mut events = signs::padded(self.numbers.events);
        signs::show(&mut events, self.candidates, &marks);
        comes_out(Plant::new(Numbers {
            states: self.numbers.states,
            arrows: self.numbers.arrows,
            events: &events,
        }))
    }

    // The sum of the prices of the set.
    fn price(self, set: u16) -> u64
        ensures { result ≡ cost_by self.entry.prices.now set }
    {
        subsets::total(self.prices, &subsets::marks(set))
    }

    // A set that does not do, with as many candidates more as do not help.
    fn grow(self, set: u16) -> u16
        requires { Never (plant_of self) (chosen_by self.candidates.now set) }
        ensures { Never (plant_of self.entry) (chosen_by self.entry.candidates.now result) }
    {
        let mut all = set;
        for i in 0..self.candidates.len() {
            let more = all | 1u16 << i;
            if more != all && !self.does(more) {
                all = more;
            }
        }
        all
    }

    // Tries the set, but if it is no cheaper than the best so far, or lies in one that does not do. Which of these are kept matters only for how fast a cheapest set is found.
    fn try_set(self, known: &mut Known, set: u16)
        requires sound { Sound (plant_of self) self.candidates.now self.prices.now known.old.best }
        requires failing { Failing (plant_of self) self.candidates.now known.old.failed.items }
        ensures { Better (plant_of self.entry) self.entry.candidates.now self.entry.prices.now known.old set known.new }
    {
        let sum = self.price(set);
        if sum >= known.best.sum || known.failed.iter().any(|wall| set & *wall == set) {
            return;
        }
        if self.does(set) {
            known.best = Best { set, sum };
        } else if !known.failed.is_full() {
            known.failed.push(self.grow(set));
        }
    }

    // A cheapest set that does; none if the whole set does not.
    pub fn cheapest(self) -> Option<Best>
        ensures { MatchOption result (NoSet (plant_of self.entry) self.entry.candidates.now) (BestOf (plant_of self.entry) self.entry.candidates.now self.entry.prices.now (2 ^ length self.entry.candidates.now)) }
    {
        if !self.does(WHOLE) {
            return None;
        }
        let sum = self.price(WHOLE);
        let mut known = Known {
            best: Best { set: WHOLE, sum },
            failed: ArrayVec::new(),
        };
        for set in 0..1u16 << self.candidates.len() {
            self.try_set(&mut known, set);
        }
        Some(known.best)
    }
}
