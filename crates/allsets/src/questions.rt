// What is asked of a plant: which of the candidates to show, at which price.
use crate::pairs::hides;
use bare::{Plant, Set};

// A sign and a mark for each of five events.
pub type Events = [u16; 10];

// There is a candidate for each event at the most. A set of candidates has their places.
const CANDIDATES: u16 = 5;

// As many sets as there are of all candidates.
const SETS: u32 = 32;

#[derive(Clone, Copy)]
pub struct Question<'a> {
    pub states: u16,
    pub arrows: &'a [u16],
    pub events: Events,
    pub candidates: &'a [u16],
    pub prices: &'a [u64],
}

impl<'a> Question<'a> {
    // The plant if its events are these.
    pub fn plant(self, events: &'a Events) -> Plant<'a> {
        Plant {
            states: self.states,
            arrows: self.arrows,
            events,
        }
    }

    pub fn sum(self, set: Set) -> u64 {
        self.prices
            .iter()
            .zip(0..CANDIDATES)
            .filter(|(_, place)| set.has(*place))
            .fold(0u64, |sum, (price, _)| sum.saturating_add(*price))
    }

    // The events if the candidates of the set show the signs from 255 down, which `sensors` takes last.
    fn shown(self, set: Set) -> Events {
        let mut events = self.events;
        for (candidate, place) in self.candidates.iter().zip(0..CANDIDATES) {
            if set.has(place)
                && let Some(sign) = events.get_mut(2 * usize::from(*candidate))
            {
                *sign = 255u16.saturating_sub(place);
            }
        }
        events
    }

    // Whether a fault hides if the candidates of the set are shown.
    pub fn hides(self, set: Set) -> bool {
        let events = self.shown(set);
        hides(self.plant(&events))
    }

    // The smallest sum of a set with which no fault hides.
    pub fn least(self) -> Option<u64> {
        (0..SETS)
            .map(Set::from_bits)
            .filter(|set| !self.hides(*set))
            .map(|set| self.sum(set))
            .min()
    }
}
