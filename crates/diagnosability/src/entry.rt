// The entry: a plant judged over numbers that are lent. It asks nothing of its caller.
ghost use Rattle.std.specs.Prelude.{◌*◌, ◌≤◌, length};
ghost use Rattle.plant.specs.Checked.{behaviour};
ghost use Rattle.plant.specs.Model.{model};
ghost use Rattle.diagnosability.specs.Verdict.{Judges, VerdictSays, judge_refusal};

use crate::checks::check;
use crate::rows;
use crate::verdict::Verdict;
use plant::{Numbers, Plant, Refusal};
use twin::{Finding, examine};
use witness::Pair;

// What is judged of a plant, the room being large enough.
fn decide(plant: Plant, room: &mut [u16]) -> Verdict
    requires { 8 * (plant.states * plant.states) ≤ length room.old }
    ensures { VerdictSays (model plant.entry) room.old result room.new }
{
    match examine(plant) {
        Finding::Out(events) => Verdict::Out(events),
        Finding::Knot(left, right) => Verdict::Hidden(rows::lay(plant, Pair { left, right }, room)),
    }
}

// Whether every fault of a plant comes out, after how many events, or which runs hide one. The runs and their ways round are left in the room, one behind the other.
// An error is the first rule that turns the numbers away, and then the room stays as it was.
pub fn judge(numbers: Numbers, room: &mut [u16]) -> Result<Verdict, Refusal>
    ensures { Judges (judge_refusal numbers.entry.states numbers.entry.arrows.now numbers.entry.events.now (length room.old)) (behaviour numbers.entry) room.old result room.new }
{
    check(numbers, room.len() as u64)?;
    Ok(decide(Plant::new(numbers), room))
}
