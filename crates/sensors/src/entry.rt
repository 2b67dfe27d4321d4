// The entry: a cheapest set of candidates over numbers that are lent. It asks nothing of its caller.
ghost use Rattle.std.specs.Prelude.{◌≡◌, length};
ghost use Rattle.plant.specs.Checked.{Answered, behaviour};
ghost use Rattle.sensors.specs.Candidates.{choice_refusal};
ghost use Rattle.sensors.specs.Choice.{ChoiceSays};

use crate::checks::check;
use crate::selection::Selection;
use crate::subsets;
use plant::{Numbers, Refusal};

// The sum of the prices of a cheapest set of candidates with which every fault comes out; none if all candidates together don't do. The marks of the set are left in the row, 1 for each candidate that is chosen and 0 for the others.
// An error is the first rule that turns the numbers away. Then, and where no set does, the row stays as it was.
pub fn choose(
    numbers: Numbers,
    candidates: &[u16],
    prices: &[u64],
    marks: &mut [u8],
) -> Result<Option<u64>, Refusal>
    ensures { Answered (choice_refusal numbers.entry.states numbers.entry.arrows.now numbers.entry.events.now candidates.now prices.now (length marks.old)) (λ c. ChoiceSays (behaviour numbers.entry) candidates.now prices.now marks.old c marks.new) (marks.new ≡ marks.old) result }
{
    check(numbers, candidates, prices, marks.len() as u64)?;
    let selection = Selection {
        numbers,
        candidates,
        prices,
    };
    let Some(best) = selection.cheapest() else {
        return Ok(None);
    };
    subsets::write(best.set, marks);
    Ok(Some(best.sum))
}
