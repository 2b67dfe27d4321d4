// The choices that matter, and each refusal.
use super::{check, choose};
use plant::{Numbers, Refusal};

// Event 0 is a fault that shows nothing, 1 shows 1, 2 and 3 show nothing.
const EVENTS: [u16; 8] = [0, 1, 1, 0, 0, 0, 0, 0];

// Behind a fault there are two ways round: 1 2, and 1 3. Without one there is 1 alone.
const ARROWS: [u16; 21] = [
    0, 1, 0, 0, 0, 1, 1, 1, 2, 2, 2, 1, 0, 0, 3, 3, 1, 4, 4, 3, 3,
];

// A plant of five states with these arrows.
fn worked(events: &[u16]) -> Numbers<'_> {
    Numbers {
        states: 5,
        arrows: &ARROWS,
        events,
    }
}

// The choice over a plant, and what is left in a row of marks that were 7.
fn chosen<const N: usize>(
    candidates: [u16; N],
    prices: [u64; N],
) -> (Result<Option<u64>, Refusal>, [u8; N]) {
    let mut marks = [7u8; N];
    let choice = choose(worked(&EVENTS), &candidates, &prices, &mut marks);
    (choice, marks)
}

#[test]
fn sets(rt: HostRuntime) {
    // Only the whole set does; the fault alone does too, and two others are cheaper or dearer.
    assert!(rt; chosen([2, 3], [3, 4]) == (Ok(Some(7)), [1, 1]));
    assert!(rt; chosen([0, 2, 3], [8, 3, 4]) == (Ok(Some(7)), [0, 1, 1]));
    assert!(rt; chosen([2, 0, 3], [3, 6, 4]) == (Ok(Some(6)), [0, 1, 0]));
    assert!(rt; chosen([3, 2], [0, 4294967295]) == (Ok(Some(4294967295)), [1, 1]));
    assert!(rt; chosen([3, 0, 2], [0, 0, 0]).0 == Ok(Some(0)));
    // One of the two ways round is hidden still.
    assert!(rt; chosen([3], [1]) == (Ok(None), [7]));
    assert!(rt; chosen([], []) == (Ok(None), []));
}

#[test]
fn nothing(rt: HostRuntime) {
    // There is no fault on an arrow.
    let mut marks = [7u8; 2];
    let choice = choose(
        Numbers {
            states: 1,
            arrows: &[0, 1, 0],
            events: &EVENTS,
        },
        &[2, 3],
        &[0, 5],
        &mut marks,
    );
    assert!(rt; choice == Ok(Some(0)));
    assert_eq!(rt; marks, [0, 0]);
}

// The refusal, if there is one.
fn refused(events: &[u16], candidates: &[u16], prices: &[u64], marks: u64) -> Option<Refusal> {
    check(worked(events), candidates, prices, marks).err()
}

#[test]
fn refusals(rt: HostRuntime) {
    assert!(rt; refused(&EVENTS, &[3, 0, 2], &[0, 4294967295, 1], 3).is_none());
    assert!(rt; refused(&[0, 2], &[2; 13], &[], 0) == Some(Refusal::Events(1)));
    assert!(rt; refused(&EVENTS, &[9; 13], &[], 0) == Some(Refusal::Candidates(12)));
    assert!(rt; refused(&EVENTS, &[9], &[], 7) == Some(Refusal::Candidates(0)));
    assert!(rt; refused(&EVENTS, &[9], &[4294967296], 7) == Some(Refusal::Candidates(7)));
    assert!(rt; refused(&EVENTS, &[3, 4], &[0, 0], 2) == Some(Refusal::Candidates(1)));
    assert!(rt; refused(&EVENTS, &[3, 0, 1], &[0, 0, 0], 3) == Some(Refusal::Candidates(2)));
    assert!(rt; refused(&EVENTS, &[3, 2, 3, 9], &[0, 0, 0, 0], 4) == Some(Refusal::Candidates(2)));
    assert!(rt; refused(&EVENTS, &[3, 9], &[4294967296, 0], 2) == Some(Refusal::Candidates(0)));
    assert!(rt; chosen([3, 3], [0, 0]) == (Err(Refusal::Candidates(1)), [7, 7]));
}
