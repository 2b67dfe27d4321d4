// Each rule at its last acceptable value, one past it, and where a later rule is broken too.
use super::{Numbers, Refusal, check};

fn told(states: u64, arrows: &[u16], events: &[u16]) -> Result<(), Refusal> {
    check(Numbers {
        states,
        arrows,
        events,
    })
}

#[test]
fn states(rt: HostRuntime) {
    assert!(rt; told(1, &[], &[]) == Ok(()));
    assert!(rt; told(32, &[31, 0, 31], &[0, 0]) == Ok(()));
    assert!(rt; told(0, &[], &[]) == Err(Refusal::States(0)));
    assert!(rt; told(33, &[], &[]) == Err(Refusal::States(33)));
    assert!(rt; told(u64::MAX, &[0], &[0]) == Err(Refusal::States(u64::MAX)));
}

#[test]
fn events(rt: HostRuntime) {
    assert!(rt; told(1, &[], &[0; 128]) == Ok(()));
    assert!(rt; told(1, &[], &[0; 130]) == Err(Refusal::Events(128)));
    assert!(rt; told(1, &[], &[256; 131]) == Err(Refusal::Events(128)));
    assert!(rt; told(1, &[], &[0; 127]) == Err(Refusal::Events(126)));
    assert!(rt; told(1, &[], &[256, 0, 0]) == Err(Refusal::Events(2)));
    assert!(rt; told(1, &[9], &[255, 1, 255, 0]) == Err(Refusal::Arrows(0)));
}

#[test]
fn signs_and_marks(rt: HostRuntime) {
    assert!(rt; told(1, &[], &[255, 1]) == Ok(()));
    assert!(rt; told(1, &[], &[255, 1, 256, 0]) == Err(Refusal::Events(2)));
    assert!(rt; told(1, &[], &[255, 2, 256, 0]) == Err(Refusal::Events(1)));
    assert!(rt; told(1, &[7], &[0, 0, 0, 65535]) == Err(Refusal::Events(3)));
}

#[test]
fn arrows(rt: HostRuntime) {
    assert!(rt; told(1, &[0; 3072], &[0, 0]) == Ok(()));
    assert!(rt; told(1, &[0; 3075], &[0, 0]) == Err(Refusal::Arrows(3072)));
    assert!(rt; told(1, &[9; 3074], &[0, 0]) == Err(Refusal::Arrows(3072)));
    assert!(rt; told(1, &[9; 3076], &[0, 0]) == Err(Refusal::Arrows(3075)));
    assert!(rt; told(1, &[9, 9, 9, 9], &[0, 0]) == Err(Refusal::Arrows(3)));
}

#[test]
fn ends(rt: HostRuntime) {
    assert!(rt; told(2, &[1, 1, 1], &[0, 0, 0, 0]) == Ok(()));
    assert!(rt; told(2, &[0, 0, 0, 2, 0, 0], &[0, 0]) == Err(Refusal::Arrows(3)));
    assert!(rt; told(2, &[0, 1, 2], &[0, 0]) == Err(Refusal::Arrows(1)));
    assert!(rt; told(2, &[0, 0, 2, 0, 1, 0], &[0, 0]) == Err(Refusal::Arrows(2)));
    assert!(rt; told(2, &[0, 0, 0], &[]) == Err(Refusal::Arrows(1)));
}
