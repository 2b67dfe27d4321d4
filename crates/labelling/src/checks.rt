// Whether a plant can be labelled in a row: the plant's own rules, then the row's. All is lent to be read only, so it stays as it was.
ghost use Rattle.std.specs.Prelude.{◌≡◌, ◌/◌, length};
ghost use Rattle.plant.specs.Checked.{checked};
ghost use Rattle.labelling.specs.Refused.{fault_in, labelling_refusal, row_refusal, sound_after};

use plant::{Numbers, Refusal};

// With six events that are no faults there are 877 labellings up to renaming.
const MOST_SOUND: usize = 6;

// The first event that is no fault and comes after six others that are none.
fn first_over(events: &[u16]) -> Option<u64>
    ensures { result ≡ sound_after (fault_in events.now) 6 0 (length events.now / 2) }
{
    (0..events.len() as u64 / 2)
        .filter(|e| events[2 * *e as usize + 1] != 1)
        .nth(MOST_SOUND)
}

// A row that has not one number for each event, or more than six events that are no faults.
#[tactic(auto, using(std::proofs::lemmas::Bool::Decides::nat_tests), unfolding(crate::specs::Refused::row_refusal))]
fn check_row(events: &[u16], row: u64) -> Result<(), Refusal>
    ensures { result ≡ checked (row_refusal events.now row) }
{
    if row != events.len() as u64 / 2 {
        return Err(Refusal::Labelling(row));
    }
    if let Some(place) = first_over(events) {
        return Err(Refusal::Labelling(place));
    }
    Ok(())
}

// Whether these numbers make a plant that can be labelled in a row of that length: an error is the first rule that turns them away.
pub fn check(numbers: Numbers, row: u64) -> Result<(), Refusal>
    ensures { result ≡ checked (labelling_refusal numbers.entry.states numbers.entry.arrows.now numbers.entry.events.now row) }
{
    plant::check(numbers)?;
    check_row(numbers.events, row)
}
