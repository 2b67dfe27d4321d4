// Events of which the marks say only whether they count as faults, by value: what a plant at a sort is made of.
ghost use Rattle.std.specs.Prelude.{◌≤◌};

mod marking;

pub use marking::choose;

// Two numbers for each of 64 events, and one more.
const MOST_HELD: usize = 129;

// Of more than 64 events just enough is held that they are still too many.
// An array and how many of its numbers are held: an `ArrayVec` is never copied, and this is a value.
#[derive(Clone, Copy)]
pub struct Marked {
    numbers: [u16; MOST_HELD],
    count: usize,
    ghost few: { count ≤ 129 },
}
