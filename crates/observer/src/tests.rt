// A worked plant through the entry and through a follower, and each rule at its last acceptable value, one past it, and where a later rule is broken too.
use super::{Follower, Word, check, follow};
use plant::{Numbers, Plant, Refusal};
use std::process::Abort;
use std::test::Fail;

// Event 0 is a fault and shows nothing, 1 shows 1 and 2 shows 2. Behind the fault 1 is shown once more, and then only 2.
const ARROWS: [u16; 12] = [0, 0, 1, 1, 1, 2, 2, 2, 2, 0, 1, 0];

const EVENTS: [u16; 6] = [0, 1, 1, 0, 2, 0];

fn worked(states: u64) -> Numbers<'static> {
    Numbers {
        states,
        arrows: &ARROWS,
        events: &EVENTS,
    }
}

fn says(rt: &impl Abort, memory: &mut [u8], sign: u64, word: Word) {
    assert_eq!(rt; follow(worked(3), memory, sign) == Ok(word), true);
}

#[test]
fn worked_plant(rt: HostRuntime) {
    let mut memory = [1u8; 6];
    says(&rt, &mut memory, 0, Word::Either);
    assert_eq!(rt; memory, [1, 0, 0, 0, 1, 0]);
    says(&rt, &mut memory, 1, Word::Either);
    assert_eq!(rt; memory, [1, 0, 0, 0, 1, 1]);
    let mut other = memory;
    says(&rt, &mut other, 1, Word::Either);
    says(&rt, &mut memory, 2, Word::Bad);
    says(&rt, &mut memory, 1, Word::Neither);
    assert_eq!(rt; memory, [0; 6]);
}

#[test]
fn closes_first(rt: HostRuntime) {
    let mut memory = [1, 0, 0, 0, 0, 0];
    says(&rt, &mut memory, 1, Word::Either);
    assert_eq!(rt; memory, [1, 0, 0, 0, 1, 1]);
}

#[test]
fn follower(rt: HostRuntime) -> Result<(), Fail> {
    if let Ok(plant) = Plant::try_from(worked(3)) {
        let mut follower = Follower::new(plant);
        assert_eq!(rt; follower.word() == Word::Either, true);
        assert_eq!(rt; follower.sign(1) == Word::Either, true);
        assert_eq!(rt; follower.sign(2) == Word::Bad, true);
        assert_eq!(rt; follower.sign(1) == Word::Neither, true);
        assert_eq!(rt; follower.sign(0) == Word::Either, true);
        assert_eq!(rt; follower.begin() == Word::Either, true);
        return Ok(());
    }
    Err(Fail::new("the plant is refused"))
}

// What a sign is turned away by over the worked plant.
fn told(states: u64, memory: &[u8], sign: u64) -> Result<(), Refusal> {
    check(worked(states), memory, sign)
}

#[test]
fn refusals(rt: HostRuntime) {
    assert!(rt; told(3, &[1; 6], 255) == Ok(()));
    assert!(rt; told(3, &[1; 5], 0) == Err(Refusal::Memory(5)));
    assert!(rt; told(3, &[2; 7], 256) == Err(Refusal::Memory(7)));
    assert!(rt; told(3, &[0, 1, 1, 1, 2, 3], 256) == Err(Refusal::Memory(4)));
    assert!(rt; told(3, &[0; 6], 256) == Err(Refusal::Memory(0)));
    assert!(rt; told(0, &[2; 5], 256) == Err(Refusal::States(0)));
    assert!(rt; told(2, &[2; 5], 256) == Err(Refusal::Arrows(5)));
}

#[test]
fn refused_unchanged(rt: HostRuntime) {
    let mut memory = [0, 0, 0, 0, 0, 2];
    let refused = follow(worked(3), &mut memory, 0);
    assert_eq!(rt; refused == Err(Refusal::Memory(5)), true);
    assert_eq!(rt; memory, [0, 0, 0, 0, 0, 2]);
}
