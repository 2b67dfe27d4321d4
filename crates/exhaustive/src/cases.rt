// Plants whose answers are known.
use crate::failure::Failure;
use crate::refusals::{Rule, compare_follow, compare_judge};
use crate::rooms::{first_part, least_room};
use anyhow::ensure;
use bare::{Plant, fill, is_unchanged};
use diagnosability::{Lengths, Verdict, judge};
use std::alloc::{AllocError, Global};
use std::fmt;

#[derive(Clone, Copy)]
struct Case {
    name: &'static str,
    states: u16,
    arrows: &'static [u16],
    verdict: Verdict,
    // The rows of a hidden pair, one behind the other.
    rows: &'static [u16],
}

// Event 0 is a fault and shows nothing, 1 shows 1, 2 shows 2.
const EVENTS: &[u16] = &[0, 1, 1, 0, 2, 0];

const CASES: &[Case] = &[
    // Behind the fault 1 is shown once more, and then only 2.
    Case {
        name: "told",
        states: 3,
        arrows: &[0, 0, 1, 1, 1, 2, 2, 2, 2, 0, 1, 0],
        verdict: Verdict::Out(2),
        rows: &[],
    },
    // Behind the fault only 1 is shown, as before it.
    Case {
        name: "untold",
        states: 2,
        arrows: &[0, 0, 1, 1, 1, 1, 0, 1, 0],
        verdict: Verdict::Hidden(Lengths {
            bad: 1,
            good: 0,
            bad_round: 1,
            good_round: 1,
        }),
        rows: &[0, 1, 1],
    },
    // As the first, with 1 shown twice more.
    Case {
        name: "later",
        states: 4,
        arrows: &[0, 0, 1, 1, 1, 2, 2, 1, 3, 3, 2, 3, 0, 1, 0],
        verdict: Verdict::Out(3),
        rows: &[],
    },
    // No fault can happen.
    Case {
        name: "sound",
        states: 2,
        arrows: &[0, 1, 0, 0, 2, 1],
        verdict: Verdict::Out(0),
        rows: &[],
    },
    // Nothing comes after the fault.
    Case {
        name: "still",
        states: 2,
        arrows: &[0, 0, 1, 0, 1, 0],
        verdict: Verdict::Out(1),
        rows: &[],
    },
    // One event comes after the fault.
    Case {
        name: "brief",
        states: 3,
        arrows: &[0, 0, 1, 1, 1, 2, 0, 1, 0],
        verdict: Verdict::Out(2),
        rows: &[],
    },
];

// Whether the verdict is the one expected, and the room has just the rows more.
fn compare_case(
    plant: Plant,
    expected: Verdict,
    rows: &[u16],
    room: &mut [u16],
) -> anyhow::Result<()> {
    fill(room);
    let verdict = judge(plant.into(), room);
    let states = plant.states;
    ensure!(
        verdict == Ok(expected),
        "another verdict than that of the table with states {states}"
    );
    ensure!(
        room.starts_with(rows) && is_unchanged(room, rows.len()),
        "another room than that of the table with states {states}"
    );
    Ok(())
}

fn compare_table(rt: &HostRuntime, room: &mut [u16]) -> Result<(), Failure> {
    for case in CASES {
        let plant = Plant {
            states: case.states,
            arrows: case.arrows,
            events: EVENTS,
        };
        let name = case.name;
        println!(rt; "{name}")?;
        compare_case(
            plant,
            case.verdict,
            case.rows,
            first_part(room, least_room(case.states)),
        )?;
    }
    Ok(())
}

const SLIP: u16 = 0;

const JERK: u16 = 1;

const STEP: u16 = 2;

// Slips and jerks are faults, slips show nothing, and jerks show what plain steps do.
const ODOMETER_EVENTS: &[u16] = &[0, 1, 1, 1, 1, 0];

// The arrows of a plant that hides its faults as long as one of so many states can: no number of events less than that of its pairs of states less one will do.
fn odometer(heap: Global, states: u16) -> Result<Vec<u16>, AllocError> {
    let mut arrows = Vec::new(heap);
    for next in 1..states {
        let state = next - 1;
        arrows.extend_from_slice(&[state, SLIP, next, state, STEP, next])?;
    }
    arrows.extend_from_slice(&[states.saturating_sub(1), JERK, 0])?;
    Ok(arrows)
}

fn compare_odometer(rt: &HostRuntime, states: u16, room: &mut [u16]) -> Result<(), Failure> {
    println!(rt; "odometer of {states} states")?;
    let arrows = odometer(rt.alloc(), states)?;
    let plant = Plant {
        states,
        arrows: arrows.as_slice(),
        events: ODOMETER_EVENTS,
    };
    let pairs = u64::from(states) * u64::from(states);
    compare_case(
        plant,
        Verdict::Out(pairs.saturating_sub(1)),
        &[],
        first_part(room, least_room(states)),
    )?;
    Ok(())
}

// How large a plant is, and the rule that turns it away, if one does.
#[derive(Clone, Copy)]
struct Size {
    states: u16,
    events: usize,
    arrows: usize,
    refusal: Option<Rule>,
}

impl Size {
    fn new(states: u16, events: usize, arrows: usize, refusal: Option<Rule>) -> Size {
        Size {
            states,
            events,
            arrows,
            refusal,
        }
    }
}

// At the limits, just past them, and past two at once.
fn sizes() -> [Size; 9] {
    [
        Size::new(1, 0, 0, None),
        Size::new(1, 0, 1, Some(Rule::Arrows)),
        Size::new(32, 64, 1_024, None),
        Size::new(32, 64, 1_025, Some(Rule::Arrows)),
        Size::new(32, 65, 1_024, Some(Rule::Events)),
        Size::new(32, 65, 1_025, Some(Rule::Events)),
        Size::new(33, 64, 1_024, Some(Rule::States)),
        Size::new(33, 65, 1_025, Some(Rule::States)),
        Size::new(0, 65, 1_025, Some(Rule::States)),
    ]
}

impl fmt::Display for Size {
    fn fmt<W: fmt::Write>(&self, f: &mut fmt::Formatter<W>) -> fmt::Result {
        let Size {
            states,
            events,
            arrows,
            refusal,
        } = *self;
        let refusal = refusal.map_or(0, |rule| rule as u64);
        write!(
            f,
            "{states} states, {events} events, {arrows} arrows: refusal {refusal}"
        )
    }
}

// Both entries on a plant of that size: every arrow is event 0 from state 0 to itself.
fn compare_size(heap: Global, size: Size, zeros: &[u16], room: &mut [u16]) -> Result<(), Failure> {
    let plant = Plant {
        states: size.states,
        arrows: zeros.get(..size.arrows.saturating_mul(3)).unwrap_or(zeros),
        events: zeros.get(..size.events.saturating_mul(2)).unwrap_or(zeros),
    };
    let memory = vec![in heap; 0; 2 * usize::from(size.states)]?;
    compare_judge(
        plant,
        first_part(room, least_room(size.states)),
        size.refusal,
    )?;
    compare_follow(heap, plant, memory.as_slice(), 0, size.refusal)
}

fn compare_sizes(rt: &HostRuntime, room: &mut [u16]) -> Result<(), Failure> {
    let zeros = [0u16; 3_075];
    for size in sizes() {
        println!(rt; "{size}")?;
        compare_size(rt.alloc(), size, &zeros, room)?;
    }
    Ok(())
}

// Prints each case before it is compared, so that the last one printed is the one that fails.
pub fn compare_cases(rt: &HostRuntime, room: &mut [u16]) -> Result<(), Failure> {
    compare_table(rt, room)?;
    for states in [2, 3, 4, 32] {
        compare_odometer(rt, states, room)?;
    }
    compare_sizes(rt, room)
}
