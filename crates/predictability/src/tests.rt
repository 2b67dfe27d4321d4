// Small plants whose faults are foretold, or are not, with the rows that show it.
use super::{Missed, foretell};
use plant::{Numbers, Refusal};
use std::process::Abort;

// Event 0 is a fault and shows nothing, 1 shows 1, 2 shows 2.
const EVENTS: [u16; 6] = [0, 1, 1, 0, 2, 0];

// Room for four states, and what stands in it before.
const BLANK: [u16; 128] = [9; 128];

fn four<'a>(arrows: &'a [u16]) -> Numbers<'a> {
    Numbers {
        states: 4,
        arrows,
        events: &EVENTS,
    }
}

// One fault behind `run` events that is not foretold, by another run as long that goes on by `later`.
fn missed(run: u64, later: u64) -> Option<Missed> {
    Some(Missed {
        run,
        fault: 1,
        other: run,
        later,
    })
}

fn says(rt: &impl Abort, arrows: &[u16], ahead: u64, expected: Option<Missed>) {
    let mut room = BLANK;
    let said = foretell(four(arrows), ahead, &mut room);
    assert_eq!(rt; said == Ok(expected), true);
}

// 1 is shown once before the fault, and nothing else can happen then; without the sign nothing is known.
#[test]
fn in_one_event(rt: HostRuntime) {
    let arrows = [0, 1, 1, 1, 0, 2, 0, 2, 0];
    says(&rt, &arrows, 0, missed(1, 0));
    says(&rt, &arrows, 1, None);
    says(&rt, &arrows, u64::MAX, None);
}

// 1 leads to where the fault happens, or to where 2 is shown for ever.
#[test]
fn never(rt: HostRuntime) {
    let arrows = [0, 1, 1, 1, 0, 2, 0, 1, 3, 3, 2, 3];
    let mut room = BLANK;
    let mut expected = BLANK;
    expected[0..6].copy_from_slice(&[1, 0, 1, 2, 2, 2]);
    let said = foretell(four(&arrows), 3, &mut room);
    assert_eq!(rt; said == Ok(missed(1, 3)), true);
    assert_eq!(rt; room == expected, true);
    says(&rt, &arrows, 4, missed(1, 4));
    says(&rt, &arrows, 5, missed(1, 4));
    says(&rt, &arrows, u64::MAX, missed(1, 4));
}

// The fault can happen at once: only what cannot go on is foretold, before any sign.
#[test]
fn at_once(rt: HostRuntime) {
    let arrows = [0, 0, 1, 0, 1, 2, 2, 2, 3];
    says(&rt, &arrows, 2, missed(0, 2));
    says(&rt, &arrows, 3, None);
}

// The other run stops, so it says nothing against an alarm.
#[test]
fn that_stop(rt: HostRuntime) {
    let arrows = [0, 1, 1, 1, 0, 2, 0, 1, 3];
    says(&rt, &arrows, 0, missed(1, 0));
    says(&rt, &arrows, 1, None);
}

// A plant without a fault, what the room needs, and numbers that make no plant.
#[test]
fn turned_away(rt: HostRuntime) {
    says(&rt, &[0, 1, 0], 0, None);
    let mut room = BLANK;
    let said = foretell(four(&[0, 1]), 0, &mut room);
    assert_eq!(rt; said == Err(Refusal::Arrows(0)), true);
    let numbers = Numbers {
        states: 1,
        arrows: &[0, 0, 0],
        events: &EVENTS,
    };
    let mut short = [9; 7];
    let said = foretell(numbers, 0, &mut short);
    assert_eq!(rt; said == Err(Refusal::Room(7)), true);
    assert_eq!(rt; short == [9; 7], true);
}
