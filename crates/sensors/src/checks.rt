// Whether candidates can be chosen from: the plant's own rules, then theirs. All is lent to be read only, so it stays as it was.
ghost use Rattle.std.specs.Prelude.{◌≡◌, ◌<◌, ◌≤◌, length};
ghost use Rattle.plant.specs.Checked.{checked};
ghost use Rattle.sensors.specs.Candidates.{candidates_refusal, choice_refusal, first_where, named, unfit};

use crate::subsets::MOST_CANDIDATES;
use plant::{Numbers, Refusal};

// 2^32: the sum of twelve smaller prices fits into 64 bits.
const PRICE_LIMIT: u64 = 4294967296;

// Candidates among events, each with its price.
#[derive(Clone, Copy)]
struct Offer<'a> {
    events: &'a [u16],
    candidates: &'a [u16],
    prices: &'a [u64],
}

impl<'a> Offer<'a> {
    // At index i: the candidate is no event, shows something or was named before, or its price is too large.
    #[tactic(auto, using(std::proofs::lemmas::Bool::Decides::nat_tests), unfolding(crate::specs::Candidates::unfit))]
    fn is_unfit(self, i: usize) -> bool
        requires candidate { i < length self.candidates.now }
        requires price { i < length self.prices.now }
        ensures { result ≡ unfit self.entry.events.now self.entry.candidates.now self.entry.prices.now i }
    {
        let event = self.candidates[i] as usize;
        event >= self.events.len() / 2
            || self.events[2 * event] != 0
            || self.candidates[..i].contains(&self.candidates[i])
            || self.prices[i] >= PRICE_LIMIT
    }

    // The first index of that kind.
    fn first_unfit(self) -> Option<u64>
        requires { length self.prices.now ≡ length self.candidates.now }
        ensures { result ≡ first_where (unfit self.entry.events.now self.entry.candidates.now self.entry.prices.now) 0 (length self.entry.candidates.now) }
    {
        (0..self.candidates.len() as u64).find(|i| self.is_unfit(*i as usize))
    }

    // More than twelve candidates, a row of prices or of marks of another length, or a candidate or a price that cannot be.
    #[tactic(auto, using(std::proofs::lemmas::Bool::Decides::nat_tests), unfolding(crate::specs::Candidates::candidates_refusal))]
    fn check(self, marks: u64) -> Result<(), Refusal>
        ensures { result ≡ checked (candidates_refusal self.entry.events.now self.entry.candidates.now self.entry.prices.now marks) }
    {
        if self.candidates.len() > MOST_CANDIDATES {
            return Err(Refusal::Candidates(MOST_CANDIDATES as u64));
        }
        if self.prices.len() != self.candidates.len() {
            return Err(Refusal::Candidates(self.prices.len() as u64));
        }
        if marks != self.candidates.len() as u64 {
            return Err(Refusal::Candidates(marks));
        }
        if let Some(place) = self.first_unfit() {
            return Err(Refusal::Candidates(place));
        }
        Ok(())
    }
}

// Whether these numbers make a plant and the candidates fit it, the row of marks having that length: an error is the first rule that turns them away.
pub fn check(
    numbers: Numbers,
    candidates: &[u16],
    prices: &[u64],
    marks: u64,
) -> Result<(), Refusal>
    ensures { result ≡ checked (choice_refusal numbers.entry.states numbers.entry.arrows.now numbers.entry.events.now candidates.now prices.now marks) }
{
    plant::check(numbers)?;
    let offer = Offer {
        events: numbers.events,
        candidates,
        prices,
    };
    offer.check(marks)
}
