// Makes small random plants with candidates, tries all sets of these, and compares what `sensors` chooses. A line for each plant where the two differ, and how many plants of each kind were met.
#![tactic(auto)]

mod filling;
mod pairs;
mod questions;

use bare::{Differs, Tally, draw_arrows, draw_events, marked};
use filling::fill_prices;
use pairs::STATES;
use plant::Refusal;
use questions::{Events, Question};
use random::Random;
use sensors::choose;
use std::alloc::{AllocError, Global};

const PLANTS: u32 = 20_000;

// What stands in a row of marks before it is lent.
const BEFORE: u8 = 7;

// How many candidates are shown, if a set does.
fn compare_choice(
    question: Question,
    choice: Result<Option<u64>, Refusal>,
    marks: &[u8],
) -> Result<Option<u32>, Differs> {
    let least = question.least();
    match choice {
        Ok(Some(cost)) => {
            let set = marked(marks).ok_or(Differs)?;
            if least == Some(cost) && question.sum(set) == cost && !question.hides(set) {
                return Ok(Some(set.len()));
            }
            Err(Differs)
        }
        Ok(None) if least.is_none() && marks.iter().all(|mark| *mark == BEFORE) => Ok(None),
        _ => Err(Differs),
    }
}

// The events that show nothing.
fn silent(heap: Global, events: &Events) -> Result<Vec<u16>, AllocError> {
    events
        .iter()
        .step_by(2)
        .zip(0..)
        .filter(|(sign, _)| **sign == 0)
        .map(|(_, event)| event)
        .collect(heap)
}

// The first event is a fault that shows nothing; the others show nothing at times.
fn random_events(random: &mut Random) -> Events {
    let mut events = [0; 10];
    events[1] = 1;
    draw_events(random, 8, &mut events[2..]);
    events
}

fn compare(heap: Global, random: &mut Random) -> Result<Result<Option<u32>, Differs>, AllocError> {
    let events = random_events(random);
    let mut arrows = [0u16; 21];
    draw_arrows(random, STATES, 5, &mut arrows);
    let candidates = silent(heap, &events)?;
    let mut prices = vec![in heap; 0u64; candidates.len()]?;
    fill_prices(random, prices.as_mut_slice());
    let mut marks = vec![in heap; BEFORE; candidates.len()]?;
    let question = Question {
        states: STATES,
        arrows: &arrows,
        events,
        candidates: candidates.as_slice(),
        prices: prices.as_slice(),
    };
    let choice = choose(
        question.plant(&events).into(),
        question.candidates,
        question.prices,
        marks.as_mut_slice(),
    );
    Ok(compare_choice(question, choice, marks.as_slice()))
}

fn main(rt: HostRuntime) -> anyhow::Result<()> {
    let mut random = Random::default();
    // Up to five candidates are shown.
    let mut tally = Tally::<6>::new();
    for number in 0..PLANTS {
        match compare(rt.alloc(), &mut random)? {
            Ok(shown) => tally.add(shown),
            Err(Differs) => println!(rt; "DIFFERS: plant {number}")?,
        }
    }
    println!(rt; "random plants: {PLANTS}")?;
    for (shown, many) in tally.numbers.iter().enumerate() {
        println!(rt; "cheapest with {shown} shown: {many}")?;
    }
    let none = tally.none;
    println!(rt; "all together don't do: {none}")?;
    Ok(())
}
