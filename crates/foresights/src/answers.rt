// What `foretell` answers, compared with the runs.
use crate::runs::misses;
use bare::{Plant, Set, fill, is_unchanged, rows};
use predictability::{Missed, foretell};
use std::fmt;

// How often each answer came for a number of events.
#[derive(Clone, Copy)]
pub struct Tally {
    pub ahead: u64,
    foretold: u32,
    missed: u32,
}

impl Tally {
    pub fn new(ahead: u64) -> Tally {
        Tally {
            ahead,
            foretold: 0,
            missed: 0,
        }
    }
}

impl fmt::Display for Tally {
    fn fmt<W: fmt::Write>(&self, f: &mut fmt::Formatter<W>) -> fmt::Result {
        let Tally {
            ahead,
            foretold,
            missed,
        } = *self;
        write!(f, "in {ahead}: foretold {foretold}, not foretold {missed}")
    }
}

// Enough for the most states that are drawn, and some to spare.
const ROOM: usize = 8 * 4 * 4 + 5;

// Whether the events of two rows, one after the other, are a run from state 0.
fn is_run(plant: Plant, earlier: &[u16], later: &[u16]) -> bool {
    let between = plant.walk(Set::one(0), earlier);
    !plant.walk(between, later).is_empty()
}

// Whether the room holds four rows of these lengths that show that a fault is not foretold.
fn holds_rows(plant: Plant, ahead: u64, room: &[u16], lengths: [u64; 4]) -> bool {
    let Some(rows) = rows(room, lengths) else {
        return false;
    };
    let [run, fault, other, later] = rows;
    let runs = is_run(plant, run, fault) && is_run(plant, other, later);
    let faults = plant.has_fault(fault)
        && !plant.has_fault(run)
        && !plant.has_fault(other)
        && !plant.has_fault(later);
    let sizes = fault.len() == 1 && later.len() as u64 == ahead.min(u64::from(plant.states));
    runs && faults && sizes && plant.show_the_same(run, other)
}

// Whether the answer on a plant is what the runs show.
pub fn compare(plant: Plant, tally: &mut Tally) -> bool {
    let ahead = tally.ahead;
    let mut room = [0; ROOM];
    fill(&mut room);
    // With four states, what lasts for six events lasts for any number.
    let missed = misses(plant, ahead.min(6) as u16);
    match foretell(plant.into(), ahead, &mut room) {
        Ok(None) => {
            tally.foretold = tally.foretold.saturating_add(1);
            !missed && is_unchanged(&room, 0)
        }
        Ok(
            Some(
                Missed {
                    run,
                    fault,
                    other,
                    later,
                },
            ),
        ) => {
            tally.missed = tally.missed.saturating_add(1);
            missed && holds_rows(plant, ahead, &room, [run, fault, other, later])
        }
        Err(_) => false,
    }
}
