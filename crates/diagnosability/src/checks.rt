// Whether a plant can be judged in a room: the plant's own rules, then the room's.
ghost use Rattle.std.specs.Prelude.{◌≡◌, ◌≤◌};
ghost use Rattle.plant.specs.Checked.{checked};
ghost use Rattle.diagnosability.specs.Verdict.{judge_refusal, room_refusal};

use plant::{Numbers, Plant, Refusal};

// Less than eight places for each pair of states.
fn check_room(states: u64, room: u64) -> Result<(), Refusal>
    requires { states ≤ 32 }
    ensures { result ≡ checked (room_refusal states room) }
{
    if room < 8 * (states * states) {
        return Err(Refusal::Room(room));
    }
    Ok(())
}

// Whether these numbers make a plant and the room is large enough: an error is the first rule that turns them away.
pub fn check(numbers: Numbers, room: u64) -> Result<(), Refusal>
    ensures { result ≡ checked (judge_refusal numbers.entry.states numbers.entry.arrows.now numbers.entry.events.now room) }
{
    let plant = Plant::try_from(numbers)?;
    check_room(plant.states(), room)
}
