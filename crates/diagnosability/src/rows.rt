// The runs that hide a fault, as rows of events in a lent room.
ghost use Rattle.std.specs.Prelude.{ℕ, ◌*◌, ◌<◌, ◌≤◌, length};
ghost use Rattle.plant.specs.Model.{model};
ghost use Rattle.witness.specs.Traced.{MarkedWalk, Shown};
ghost use Rattle.plant.specs.declared.parts.Mark.TheVariants.{Fault, Any};
ghost use Rattle.diagnosability.specs.Verdict.{HiddenIn};

use crate::verdict::Lengths;
use plant::{Mark, Plant};
use witness::{Pair, Rows, trace};

// The rows of a walk that there is.
fn found(plant: Plant, from: Pair, to: Pair, mark: Mark, room: &mut [u16]) -> Rows
    requires from { (from.left < plant.states) × (from.right < plant.states) }
    requires to { (to.left < plant.states) × (to.right < plant.states) }
    requires room { 4 * (plant.states * plant.states) ≤ length room.old }
    requires walk { MarkedWalk (model plant) mark from to }
    ensures { Shown (model plant.entry) plant.entry.states mark from to room.old room.new result }
{
    trace(plant, from, to, mark, room).unwrap()
}

// A run with a fault and one without that come to the knot and show the same, and ways round it that do.
pub fn lay(plant: Plant, knot: Pair, room: &mut [u16]) -> Lengths
    requires knot { (knot.left < plant.states) × (knot.right < plant.states) }
    requires room { 8 * (plant.states * plant.states) ≤ length room.old }
    requires run { MarkedWalk (model plant) Fault (record { left = 0; right = 0 }) knot }
    requires round { MarkedWalk (model plant) Any knot knot }
    ensures { HiddenIn (model plant.entry) result room.old room.new }
{
    let start = Pair { left: 0, right: 0 };
    let runs = found(plant, start, knot, Mark::Fault, room);
    let rounds = found(
        plant,
        knot,
        knot,
        Mark::Any,
        &mut room[runs.left + runs.right..],
    );
    Lengths {
        bad: runs.left as u64,
        good: runs.right as u64,
        bad_round: rounds.left as u64,
        good_round: rounds.right as u64,
    }
}
