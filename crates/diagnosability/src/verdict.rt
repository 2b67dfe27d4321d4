// What is judged of a plant.
ghost use Rattle.std.specs.Prelude.{◌≡◌, ◌+◌, take, drop};
ghost use Rattle.diagnosability.specs.Verdict.{part};

// No slices: the rows stand in the room that is lent. How many events each of the four rows has that hide a fault, in the order in which they stand in a room: a run with the fault, a run without, and the ways round from their ends.
#[derive(Clone, Copy, PartialEq, Eq)]
pub struct Lengths {
    pub bad: u64,
    pub good: u64,
    pub bad_round: u64,
    pub good_round: u64,
}

// The rows, each with its latest event first.
#[derive(Clone, Copy)]
pub struct HiddenRows<'a> {
    pub bad: &'a [u16],
    pub good: &'a [u16],
    pub bad_round: &'a [u16],
    pub good_round: &'a [u16],
}

#[derive(Clone, Copy, PartialEq, Eq)]
pub enum Verdict {
    // Every fault comes out, after so many events and no fewer.
    Out(u64),
    // A fault hides, by rows of these lengths.
    Hidden(Lengths),
}

// The first so many numbers, or as many as there are, and what stands behind them.
fn cut(numbers: &[u16], many: u64) -> (&[u16], &[u16])
    ensures { (result.0.now ≡ take many numbers.now) × (result.1.now ≡ drop many numbers.now) }
{
    numbers.split_at(many.min(numbers.len() as u64) as usize)
}

impl Lengths {
    // The rows at the front of a room.
    pub fn rows(self, room: &[u16]) -> HiddenRows<'_>
        ensures bad { result.bad.now ≡ part 0 self.bad room.now }
        ensures good { result.good.now ≡ part self.bad self.good room.now }
        ensures bad_round { result.bad_round.now ≡ part (self.bad + self.good) self.bad_round room.now }
        ensures good_round { result.good_round.now ≡ part (self.bad + (self.good + self.bad_round)) self.good_round room.now }
    {
        let (bad, rest) = cut(room, self.bad);
        let (good, rest) = cut(rest, self.good);
        let (bad_round, rest) = cut(rest, self.bad_round);
        let (good_round, _) = cut(rest, self.good_round);
        HiddenRows {
            bad,
            good,
            bad_round,
            good_round,
        }
    }
}
