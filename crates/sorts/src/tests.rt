// Two sorts that are told apart, two that are not, and each rule where an earlier or a later one is broken too.
use super::{Faults, check, choose, follow, judge, judge_for, occurs};
use diagnosability::{Lengths, Verdict};
use observer::{Follower, Word};
use plant::{Numbers, Plant, Refusal};
use std::process::Abort;
use std::test::Fail;

// Events 0 and 1 are faults of sorts 1 and 2 that show nothing, 2 shows 1 and 3 shows 2. Behind the first fault 1 is shown for ever, behind the second 2; before them nothing happens.
const APART: [u16; 12] = [0, 0, 1, 0, 1, 2, 1, 2, 1, 2, 3, 2];

const APART_EVENTS: [u16; 8] = [0, 1, 0, 2, 1, 0, 2, 0];

fn apart() -> Numbers<'static> {
    Numbers {
        states: 3,
        arrows: &APART,
        events: &APART_EVENTS,
    }
}

// One state with two loops, by faults of sorts 1 and 2 that both show 1.
const ALIKE: [u16; 6] = [0, 0, 0, 0, 1, 0];

const ALIKE_EVENTS: [u16; 4] = [1, 1, 1, 2];

fn knows(rt: &impl Abort, sort: u64, memory: &mut [u8], sign: u64, word: Word) {
    assert_eq!(rt; follow(apart(), sort, memory, sign) == Ok(word), true);
}

#[test]
fn known_apart(rt: HostRuntime) {
    let mut memory = [0; 6];
    knows(&rt, 1, &mut memory, 0, Word::Either);
    knows(&rt, 1, &mut memory, 1, Word::Bad);
    let mut other = [0; 6];
    knows(&rt, 2, &mut other, 0, Word::Either);
    knows(&rt, 2, &mut other, 1, Word::Good);
}

#[test]
fn judged_apart(rt: HostRuntime) {
    let mut room = [0; 72];
    let first = judge(apart(), 1, &mut room);
    assert_eq!(rt; first == Ok(Verdict::Out(1)), true);
    let second = judge(apart(), 2, &mut room);
    assert_eq!(rt; second == Ok(Verdict::Out(1)), true);
}

// Each of the four rows has one event.
const ONES: Lengths = Lengths {
    bad: 1,
    good: 1,
    bad_round: 1,
    good_round: 1,
};

fn alike(rt: &impl Abort, faults: Faults, verdict: Verdict, rows: [u16; 2]) {
    let numbers = Numbers {
        states: 1,
        arrows: &ALIKE,
        events: &ALIKE_EVENTS,
    };
    let mut room = [7; 8];
    let judged = judge_for(numbers, faults, &mut room);
    assert_eq!(rt; judged == Ok(verdict), true);
    assert_eq!(rt; [room[0], room[1]], rows);
}

#[test]
fn judged_alike(rt: HostRuntime) {
    alike(&rt, Faults::Any, Verdict::Out(0), [7, 7]);
    alike(&rt, Faults::Sort(1), Verdict::Hidden(ONES), [0, 1]);
    alike(&rt, Faults::Sort(2), Verdict::Hidden(ONES), [1, 0]);
    alike(&rt, Faults::Sort(3), Verdict::Out(0), [7, 7]);
}

#[test]
fn occurring(rt: HostRuntime) {
    assert_eq!(rt; occurs(&ALIKE_EVENTS, 2), true);
    assert_eq!(rt; occurs(&ALIKE_EVENTS, 3), false);
}

#[test]
fn chosen(rt: HostRuntime) -> Result<(), Fail> {
    let numbers = apart();
    if let Ok(marked) = choose(numbers, Faults::Sort(2)) {
        let mut follower = Follower::new(Plant::new(marked.numbers(numbers)));
        assert_eq!(rt; follower.word() == Word::Either, true);
        assert_eq!(rt; follower.sign(2) == Word::Bad, true);
        assert_eq!(rt; follower.sign(1) == Word::Neither, true);
        return Ok(());
    }
    Err(Fail::new("the plant is refused"))
}

// What a check says of a sort in a room of this size.
fn told(states: u64, arrows: &[u16], events: &[u16], sort: u64, room: u64) -> Result<(), Refusal> {
    let numbers = Numbers {
        states,
        arrows,
        events,
    };
    check(numbers, Faults::Sort(sort), room)
}

fn turned(rt: &impl Abort, said: Result<(), Refusal>, refusal: Refusal) {
    assert_eq!(rt; said == Err(refusal), true);
}

#[test]
fn refusals(rt: HostRuntime) {
    assert_eq!(rt; told(1, &[], &[255, 8], 8, 8) == Ok(()), true);
    turned(&rt, told(0, &[], &[9; 131], 9, 8), Refusal::States(0));
    turned(&rt, told(1, &[], &[9; 131], 9, 8), Refusal::Events(128));
    turned(&rt, told(1, &[], &[9; 127], 9, 8), Refusal::Events(126));
    turned(&rt, told(1, &[], &[0, 9, 256, 0], 9, 8), Refusal::Events(2));
    turned(&rt, told(1, &[0, 1, 0], &[0, 9], 9, 8), Refusal::Arrows(1));
}

#[test]
fn sorts_refused(rt: HostRuntime) {
    turned(&rt, told(1, &[], &[0, 9], 9, 7), Refusal::Room(7));
    turned(
        &rt,
        told(1, &[], &[0, 8, 0, 9, 0, 65535], 0, 8),
        Refusal::Sorts(3),
    );
    turned(&rt, told(1, &[], &[0, 8], 0, 8), Refusal::Sorts(0));
    turned(&rt, told(1, &[], &[0, 8], 9, 8), Refusal::Sorts(9));
    let numbers = Numbers {
        states: 1,
        arrows: &[],
        events: &[0, 9],
    };
    let mut memory = [0, 1];
    let word = follow(numbers, 9, &mut memory, 0);
    assert_eq!(rt; word == Err(Refusal::Sorts(1)), true);
    assert_eq!(rt; memory, [0, 1]);
}
