// Marking the events that count, and the plant that they make.
ghost use Rattle.std.specs.Prelude.{◌≡◌, ℕ, ◌%◌, take, if◌then◌else◌, nat_eq};
ghost use Rattle.sets.specs.Sets.{bit};
ghost use Rattle.sorts.specs.Held.{Chosen, numbers_in};
ghost use Rattle.sorts.specs.Sorts.{is_fault, marked_by};

use super::{MOST_HELD, Marked};
use crate::checks::check_plant;
use crate::kinds::Faults;
use plant::{Numbers, Refusal};

// The number at a place: a sign stays, a mark becomes 1 if the event counts and 0 if not.
fn number_at(faults: Faults, place: usize, number: u16) -> u16
    ensures { result ≡ (if nat_eq (place % 2) 0 then number else bit (is_fault faults number)) }
{
    if place % 2 == 0 {
        return number;
    }
    u16::from(faults.counts(number))
}

impl Marked {
    // The first numbers of these events, marked.
    pub fn new(events: &[u16], faults: Faults) -> Marked
        ensures { numbers_in result ≡ take 129 (marked_by faults events.now) }
    {
        let held = &events[..events.len().min(MOST_HELD)];
        let mut numbers = [0; MOST_HELD];
        for (place, number) in held.iter().enumerate() {
            numbers[place] = number_at(faults, place, *number);
        }
        Marked {
            numbers,
            count: held.len(),
        }
    }

    // The numbers, to be lent on.
    pub fn events(&self) -> &[u16]
        ensures { result.now ≡ numbers_in self.now }
    {
        &self.numbers[..self.count]
    }

    // The numbers of a plant with these events.
    pub fn numbers<'a>(&'a self, numbers: Numbers<'a>) -> Numbers<'a>
        ensures states { result.states ≡ numbers.entry.states }
        ensures arrows { result.arrows.now ≡ numbers.entry.arrows.now }
        ensures events { result.events.now ≡ numbers_in self.now }
    {
        Numbers {
            states: numbers.states,
            arrows: numbers.arrows,
            events: self.events(),
        }
    }
}

// The events by which a plant is made in which just those that count are faults; an error is the first rule that turns the plant away.
pub fn choose(numbers: Numbers, faults: Faults) -> Result<Marked, Refusal>
    ensures { Chosen faults numbers.entry.states numbers.entry.arrows.now numbers.entry.events.now result }
{
    check_plant(numbers, faults)?;
    Ok(Marked::new(numbers.events, faults))
}
