// Sets of candidates as numbers: digit i to the base 2 is the mark of candidate i.
ghost use Rattle.std.specs.Prelude.{◌≡◌, ℕ, ◌*◌, ◌<◌, ◌≤◌, length, slice_index};
ghost use Rattle.sensors.specs.Candidates.{cost};
ghost use Rattle.sensors.specs.Sets.{digits};

pub const MOST_CANDIDATES: usize = 12;

// Writes the marks of the set.
pub fn write(set: u16, marks: &mut [u8])
    ensures { marks.new ≡ digits (length marks.old) set }
{
    let mut rest = set;
    for mark in marks.iter_mut() {
        *mark = (rest % 2) as u8;
        rest /= 2;
    }
}

// The marks of the set, for as many candidates as there can be.
pub fn marks(set: u16) -> [u8; MOST_CANDIDATES]
    ensures { result ≡ digits 12 set }
{
    let mut marks = [0u8; MOST_CANDIDATES];
    write(set, &mut marks);
    marks
}

// The sum of the prices that are marked.
pub fn total(prices: &[u64], marks: &[u8]) -> u64
    requires few { length prices.now ≤ 12 }
    requires marked { length prices.now ≤ length marks.now }
    requires cheap { (i : ℕ) → i < length prices.now → slice_index prices.now i < 4294967296 }
    ensures { result ≡ cost prices.now marks.now }
{
    prices
        .iter()
        .zip(marks)
        .filter(|(_, mark)| **mark == 1)
        .map(|(price, _)| *price)
        .sum()
}
