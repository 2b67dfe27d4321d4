// The entry: a labelling of the fewest signs over numbers that are lent. It asks nothing of its caller.
ghost use Rattle.std.specs.Prelude.{◌≡◌, ◌/◌, length};
ghost use Rattle.plant.specs.Checked.{Answered, behaviour};
ghost use Rattle.labelling.specs.Answer.{LabellingSays};
ghost use Rattle.labelling.specs.Refused.{labelling_refusal};

use crate::checks::check;
use crate::trials::Trials;
use plant::{Numbers, Refusal};

// How many signs a labelling has with which every fault comes out, and no such labelling has fewer; none if not even signs of their own for all events do. What each event shows is left in the row, 0 being nothing.
// An error is the first rule that turns the numbers away. Then, and where no labelling does, the row stays as it was.
pub fn label(numbers: Numbers, signs: &mut [u16]) -> Result<Option<u64>, Refusal>
    ensures { Answered (labelling_refusal numbers.entry.states numbers.entry.arrows.now numbers.entry.events.now (length signs.old)) (λ k. LabellingSays (behaviour numbers.entry) (length numbers.entry.events.now / 2) signs.old k signs.new) (signs.new ≡ signs.old) result }
{
    check(numbers, signs.len() as u64)?;
    let trials = Trials { numbers };
    let Some(best) = trials.fewest() else {
        return Ok(None);
    };
    best.write(signs);
    Ok(Some(best.signs as u64))
}
