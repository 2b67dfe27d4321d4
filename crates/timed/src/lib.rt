// The entries as functions whose answers are numbers, for measuring them beside plain Rust (bench/run), which links them by `timed_c`. They promise nothing of their own: bench/run compares each answer with plain Rust's before it measures.
// They take a plant's numbers one by one, as callers in C lend them.
#![tactic(auto)]

use diagnosability::{Verdict, judge};
use observer::{Follower, Word, follow};
use plant::{Numbers, Plant};
use sensors::choose;

// A word as a number: bad, good, either, neither. Written out, since bench/run compares these numbers, in whatever order the words are declared.
fn code(word: Word) -> u64 {
    match word {
        Word::Bad => 0,
        Word::Good => 1,
        Word::Either => 2,
        Word::Neither => 3,
    }
}

// One sign through the entry, which checks the plant: the word's number, or 9 where the sign is refused.
pub fn timed_follow(
    states: u64,
    arrows: &[u16],
    events: &[u16],
    memory: &mut [u8],
    sign: u64,
) -> u64 {
    let numbers = Numbers {
        states,
        arrows,
        events,
    };
    match follow(numbers, memory, sign) {
        Ok(word) => code(word),
        Err(_) => 9,
    }
}

fn signs_followed(plant: Plant, signs: &[u8]) -> u64 {
    let mut follower = Follower::new(plant);
    let mut sum = code(follower.word());
    for sign in signs {
        sum = sum.wrapping_mul(5).wrapping_add(code(follower.sign(*sign)));
    }
    sum
}

// Many signs through a follower, which checks the plant once: the words, folded into a number, or the number of the refusal.
pub fn timed_signs(states: u64, arrows: &[u16], events: &[u16], signs: &[u8]) -> u64 {
    let numbers = Numbers {
        states,
        arrows,
        events,
    };
    match Plant::try_from(numbers) {
        Ok(plant) => signs_followed(plant, signs),
        Err(refusal) => refusal.number(),
    }
}

// A verdict as a number: the number of events, 1,000,000 where a fault hides, 2,000,000 where there is none.
pub fn timed_judge(states: u64, arrows: &[u16], events: &[u16], room: &mut [u16]) -> u64 {
    let numbers = Numbers {
        states,
        arrows,
        events,
    };
    match judge(numbers, room) {
        Ok(Verdict::Out(events)) => events,
        Ok(Verdict::Hidden(_)) => 1_000_000,
        Err(_) => 2_000_000,
    }
}

// A choice as a number: the sum, or one of the largest numbers where there is none.
pub fn timed_choose(
    states: u64,
    arrows: &[u16],
    events: &[u16],
    candidates: &[u16],
    prices: &[u64],
    marks: &mut [u8],
) -> u64 {
    let numbers = Numbers {
        states,
        arrows,
        events,
    };
    match choose(numbers, candidates, prices, marks) {
        Ok(Some(sum)) => sum,
        Ok(None) => u64::MAX,
        Err(refusal) => u64::MAX.saturating_sub(refusal.number()),
    }
}
