// The rows that show that a fault is not foretold, laid into a lent room.
ghost use Rattle.std.specs.Prelude.{◌≡◌, ◌+◌, ◌*◌, ◌<◌, ◌≤◌, min, length};
ghost use Rattle.plant.specs.Model.{model};
ghost use Rattle.foretelling.specs.Foretelling.{Lasts};
ghost use Rattle.predictability.specs.Foresight.{MissedIn};
ghost use Rattle.predictability.specs.Rows.{LaidOn, LaidRows, TwoRuns};
ghost use Rattle.predictability.specs.Search.{Caught};

use crate::calm::Calmed;
use crate::going::{go_on, strike};
use crate::missed::Missed;
use plant::{Mark, Plant};
use witness::{Pair, Rows, trace};

// That so many events can follow says by which, so it is no fact for a ghost field: each of these functions asks for it.

// The other run, and behind it events without a fault that can follow in the state where it ends.
fn lay_on(plant: Plant, other: &[u16], state: u16, events: usize, room: &mut [u16])
    requires there { state < plant.states }
    requires lasts { Lasts (model plant) events state }
    requires fits { length other.now + events ≤ length room.old }
    ensures { LaidOn (model plant.entry) state events other.now room.old room.new }
{
    let end = other.len();
    room[0..end].copy_from_slice(other);
    go_on(plant, state, &mut room[end..end + events]);
}

// The run and the fault, and behind them the other run and what that goes on by.
fn lay_rows(
    plant: Plant,
    run: &[u16],
    fault: u16,
    other: &[u16],
    state: u16,
    events: usize,
    room: &mut [u16],
)
    requires there { state < plant.states }
    requires lasts { Lasts (model plant) events state }
    requires fits { length run.now + (1 + (length other.now + events)) ≤ length room.old }
    ensures { LaidRows (model plant.entry) state events run.now fault other.now room.old room.new }
{
    let end = run.len();
    room[0..end].copy_from_slice(run);
    room[end] = fault;
    lay_on(plant, other, state, events, &mut room[end + 1..]);
}

impl<'a> Calmed<'a> {
    // Two runs without a fault to the pair that show the same. They are traced in the plant without its faults.
    fn runs(self, events: u64, pair: Pair, room: &mut [u16]) -> Rows
        requires caught { Caught (model self.plant) self.plant.states events pair }
        requires room { 4 * (self.calm.states * self.calm.states) ≤ length room.old }
        ensures { TwoRuns (model self.entry.plant) self.entry.plant.states pair room.new result }
    {
        if pair.left == 0 {
            return Rows { left: 0, right: 0 };
        }
        let start = Pair { left: 0, right: 0 };
        trace(self.calm, start, pair, Mark::Any, room).unwrap()
    }

    // The four rows for a pair.
    pub fn lay(self, ahead: u64, events: u64, pair: Pair, room: &mut [u16]) -> Missed
        requires events { events ≡ min ahead self.plant.states }
        requires caught { Caught (model self.plant) self.plant.states events pair }
        requires room { 8 * (self.plant.states * self.plant.states) ≤ length room.old }
        ensures { MissedIn (model self.entry.plant) self.entry.plant.states ahead result room.old room.new }
    {
        // Four times the square of 32 states, the most that two runs take: nothing is allocated here.
        let mut traced = [0; 4096];
        let rows = self.runs(events, pair, &mut traced);
        let fault = strike(self.plant, pair.left);
        let end = rows.left;
        lay_rows(
            self.plant,
            &traced[0..end],
            fault,
            &traced[end..end + rows.right],
            pair.right,
            events as usize,
            room,
        );
        Missed {
            run: rows.left as u64,
            fault: 1,
            other: rows.right as u64,
            later: events,
        }
    }
}
