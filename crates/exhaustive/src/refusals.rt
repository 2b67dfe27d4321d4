// Which rule turns a call away, and what the entries refuse.
use crate::failure::Failure;
use crate::rooms::least_room;
use anyhow::ensure;
use bare::{Plant, fill, is_unchanged};
use diagnosability::judge;
use observer::follow;
use plant::Refusal;
use std::alloc::Global;

// What a rule is about. It stands for the number that the entries give it, by which answers are compared and counted.
#[derive(Clone, Copy, PartialEq, Eq)]
pub enum Rule {
    States = 1,
    Events = 2,
    Arrows = 3,
    // That `judge` is lent.
    Room = 4,
    // The memory and the sign, of `follow`.
    Memory = 5,
}

// A sign and a mark by turns.
fn events_wrong(events: &[u16]) -> bool {
    let too_large = events.iter().enumerate().any(|(place, number)| {
        let most = if place % 2 == 0 { 255 } else { 1 };
        *number > most
    });
    too_large || events.len() % 2 != 0 || events.len() > 2 * 64
}

// A state, an event and a state by turns.
fn arrows_wrong(plant: Plant) -> bool {
    let states = usize::from(plant.states);
    let events = plant.events.len() / 2;
    let too_large = plant.arrows.iter().enumerate().any(|(place, number)| {
        let bound = if place % 3 == 1 { events } else { states };
        usize::from(*number) >= bound
    });
    too_large || plant.arrows.len() % 3 != 0 || plant.arrows.len() > 3 * 1_024
}

// The first rule that the plant's numbers break.
fn plant_refusal(plant: Plant) -> Option<Rule> {
    if plant.states == 0 || plant.states > 32 {
        Some(Rule::States)
    } else if events_wrong(plant.events) {
        Some(Rule::Events)
    } else if arrows_wrong(plant) {
        Some(Rule::Arrows)
    } else {
        None
    }
}

// By which rule `judge` must turn the call away: those of the plant come before that of the room.
pub fn judge_refusal(plant: Plant, room_length: usize) -> Option<Rule> {
    let wrong = room_length < least_room(plant.states);
    plant_refusal(plant).or(wrong.then_some(Rule::Room))
}

// By which rule `follow` must refuse the call: those of the plant come before that of the memory and the sign.
pub fn follow_refusal(plant: Plant, memory: &[u8], sign: u64) -> Option<Rule> {
    let wrong = memory.len() != 2 * usize::from(plant.states)
        || memory.iter().any(|mark| *mark > 1)
        || sign > 255;
    plant_refusal(plant).or(wrong.then_some(Rule::Memory))
}

// Whether `judge` turns the call away by that rule, if by any, and leaves the room as it was if it does.
pub fn compare_judge(plant: Plant, room: &mut [u16], expected: Option<Rule>) -> anyhow::Result<()> {
    let expected = expected.map(|rule| rule as u64);
    fill(room);
    let came = judge(plant.into(), room).err().map(Refusal::number);
    ensure!(
        came == expected,
        "judge turns away by {came:?}, but expected refusal {expected:?}"
    );
    ensure!(
        came.is_none() || is_unchanged(room, 0),
        "judge changes the room at refusal {came:?}"
    );
    Ok(())
}

// As `compare_follow`, where `follow` is lent the copy of the memory.
fn compare_copy(
    plant: Plant,
    memory: &[u8],
    copy: &mut [u8],
    sign: u64,
    expected: Option<Rule>,
) -> anyhow::Result<()> {
    let expected = expected.map(|rule| rule as u64);
    let came = follow(plant.into(), copy, sign).err().map(Refusal::number);
    ensure!(
        came == expected,
        "follow refuses by {came:?}, but expected refusal {expected:?}"
    );
    ensure!(
        came.is_none() || *copy == *memory,
        "follow changes the memory at refusal {came:?}"
    );
    Ok(())
}

// Whether `follow` refuses the call by that rule, if by any, and leaves the memory as it was if it does.
pub fn compare_follow(
    heap: Global,
    plant: Plant,
    memory: &[u8],
    sign: u64,
    expected: Option<Rule>,
) -> Result<(), Failure> {
    let mut copy = memory.to_vec(heap)?;
    compare_copy(plant, memory, copy.as_mut_slice(), sign, expected)?;
    Ok(())
}
