// The entry: whether each fault of a plant is foretold, over numbers that are lent. It asks nothing of its caller.
ghost use Rattle.std.specs.Prelude.{◌*◌, ◌≤◌, length};
ghost use Rattle.diagnosability.specs.Verdict.{judge_refusal};
ghost use Rattle.plant.specs.Checked.{behaviour};
ghost use Rattle.plant.specs.Model.{model};
ghost use Rattle.predictability.specs.Foresight.{ForesightSays, MissedSays};

use crate::calm::{Calmed, harmless_arrows};
use crate::missed::Missed;
use diagnosability::check;
use plant::{Numbers, Plant, Refusal};

// What is said of a plant, the room being large enough. As many events are looked at as are asked for, or as there are states: what goes on for as many goes on for ever.
fn decide(calmed: Calmed, ahead: u64, room: &mut [u16]) -> Option<Missed>
    requires { 8 * (calmed.plant.states * calmed.plant.states) ≤ length room.old }
    ensures { MissedSays (model calmed.entry.plant) calmed.entry.plant.states ahead room.old result room.new }
{
    let events = ahead.min(calmed.plant.states());
    let pair = calmed.search(events)?;
    Some(calmed.lay(ahead, events, pair, room))
}

// Whether each fault of a plant is foretold in so many events: before it happens signs are shown after which no run without a fault goes on by as many.
// If one is not, four rows are left in the room, one behind the other: a run, the fault that follows it, another run that shows the same, and the events that it goes on by.
// An error is the first rule that turns the numbers away, and then the room stays as it was.
pub fn foretell(numbers: Numbers, ahead: u64, room: &mut [u16]) -> Result<Option<Missed>, Refusal>
    ensures { ForesightSays (judge_refusal numbers.entry.states numbers.entry.arrows.now numbers.entry.events.now (length room.old)) (behaviour numbers.entry) numbers.entry.states ahead room.old result room.new }
{
    check(numbers, room.len() as u64)?;
    let arrows = harmless_arrows(Plant::new(numbers));
    let calmed = Calmed::new(numbers, arrows.as_slice());
    Ok(decide(calmed, ahead, room))
}
