// Whether a plant can be judged or followed where faults have sorts: the rules of the plant in which just the faults that count are marked, then those for sorts.
ghost use Rattle.std.specs.Prelude.{◌≡◌};
ghost use Rattle.plant.specs.Checked.{checked};
ghost use Rattle.sorts.specs.Refusals.{asked_refusal, memory_too, plant_refusal, room_too, sorts_refusal};

use crate::held::Marked;
use crate::kinds::Faults;
use plant::{Numbers, Refusal, first_over};

const MOST_SORTS: u64 = 8;

// A sort asked for that is 0 or above 8.
fn check_asked(faults: Faults) -> Result<(), Refusal>
    ensures { result ≡ checked (asked_refusal faults) }
{
    match faults {
        Faults::Any => Ok(()),
        Faults::Sort(sort) => {
            if sort < 1 || sort > MOST_SORTS {
                return Err(Refusal::Sorts(sort));
            }
            Ok(())
        }
    }
}

// A mark above 8, or such a sort. Of signs the plant's own rules speak, so here each may be any number of 16 bits.
fn check_sorts(events: &[u16], faults: Faults) -> Result<(), Refusal>
    ensures { result ≡ checked (sorts_refusal faults events.now) }
{
    match first_over(events, [65536, MOST_SORTS + 1]) {
        Some(place) => Err(Refusal::Sorts(place)),
        None => check_asked(faults),
    }
}

// The three checks differ only in the base check that they ask: one function over a closure would promise what the closure does, which is no plainer.

// Whether these numbers make a plant whose faults have sorts: an error is the first rule that turns them away.
pub fn check_plant(numbers: Numbers, faults: Faults) -> Result<(), Refusal>
    ensures { result ≡ checked (plant_refusal faults numbers.entry.states numbers.entry.arrows.now numbers.entry.events.now) }
{
    let marked = Marked::new(numbers.events, faults);
    plant::check(marked.numbers(numbers))?;
    check_sorts(numbers.events, faults)
}

// Whether the plant can be judged for these faults in a room of this size: an error is the first rule that turns it away.
pub fn check(numbers: Numbers, faults: Faults, room: u64) -> Result<(), Refusal>
    ensures { result ≡ checked (room_too faults numbers.entry.states numbers.entry.arrows.now numbers.entry.events.now room) }
{
    let marked = Marked::new(numbers.events, faults);
    diagnosability::check(marked.numbers(numbers), room)?;
    check_sorts(numbers.events, faults)
}

// Whether a sign can be followed for these faults: an error is the first rule that turns it away.
pub fn check_memory(
    numbers: Numbers,
    faults: Faults,
    memory: &[u8],
    sign: u64,
) -> Result<(), Refusal>
    ensures { result ≡ checked (memory_too faults numbers.entry.states numbers.entry.arrows.now numbers.entry.events.now memory.now sign) }
{
    let marked = Marked::new(numbers.events, faults);
    observer::check(marked.numbers(numbers), memory, sign)?;
    check_sorts(numbers.events, faults)
}
