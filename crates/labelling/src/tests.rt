// The answers that matter, and each refusal.
use super::{check, label};
use plant::{Numbers, Refusal};

// Event 0 is a fault, which showed something, and the others are none.
const EVENTS: [u16; 8] = [7, 1, 1, 0, 0, 0, 255, 0];

// Before a fault 1 or 2 is followed by 3; behind it there is 1 alone, or 2, or 3.
const ARROWS: [u16; 27] = [
    0, 1, 1, 0, 2, 1, 1, 3, 0, 0, 0, 2, 2, 1, 2, 0, 0, 3, 3, 2, 3, 0, 0, 4, 4, 3, 4,
];

// A plant of five states.
fn plant_of<'a>(arrows: &'a [u16], events: &'a [u16]) -> Numbers<'a> {
    Numbers {
        states: 5,
        arrows,
        events,
    }
}

// The answer, and what is left in a row of numbers that were 9.
fn answered<const N: usize>(
    arrows: &[u16],
    events: &[u16],
) -> (Result<Option<u64>, Refusal>, [u16; N]) {
    let mut signs = [9u16; N];
    let answer = label(plant_of(arrows, events), &mut signs);
    (answer, signs)
}

#[test]
fn signs(rt: HostRuntime) {
    // 1 and 2 can share a sign, 1 and 3 cannot, nor 2 and 3.
    assert!(rt; answered(&ARROWS, &EVENTS) == (Ok(Some(2)), [0, 1, 1, 2]));
    // 1 and 2 in turn, and behind a fault one of them alone: as many signs as events.
    let turns = [0, 1, 1, 1, 2, 0, 0, 0, 2, 2, 1, 2, 0, 0, 3, 3, 2, 3];
    assert!(rt; answered(&turns, &[0, 1, 0, 0, 0, 0]) == (Ok(Some(2)), [0, 1, 2]));
    // There is no fault on an arrow; nothing comes after one.
    assert!(rt; answered(&[0, 1, 0], &EVENTS) == (Ok(Some(0)), [0, 0, 0, 0]));
    assert!(rt; answered(&[0, 1, 0, 0, 0, 1], &EVENTS) == (Ok(Some(0)), [0, 0, 0, 0]));
    // Behind the fault there is what was before it.
    assert!(rt; answered(&[0, 1, 0, 0, 0, 1, 1, 1, 1], &EVENTS) == (Ok(None), [9, 9, 9, 9]));
}

// The refusal, if there is one.
fn refused(arrows: &[u16], events: &[u16], row: u64) -> Option<Refusal> {
    check(plant_of(arrows, events), row).err()
}

#[test]
fn refusals(rt: HostRuntime) {
    assert!(rt; refused(&ARROWS, &EVENTS, 4).is_none());
    assert!(rt; refused(&ARROWS, &[0, 2], 4) == Some(Refusal::Events(1)));
    assert!(rt; refused(&ARROWS, &EVENTS, 8) == Some(Refusal::Labelling(8)));
    assert!(rt; answered(&ARROWS, &EVENTS) == (Err(Refusal::Labelling(3)), [9, 9, 9]));
    // Six events that are no faults among eight, and seven.
    let mut events = [0u16; 16];
    events[1] = 1;
    events[11] = 1;
    assert!(rt; refused(&[], &events, 8).is_none());
    events[11] = 0;
    assert!(rt; refused(&[], &events, 8) == Some(Refusal::Labelling(7)));
    assert!(rt; answered(&[], &events) == (Err(Refusal::Labelling(7)), [9; 8]));
}
