// How it is shown that a fault is not foretold.

// How many events each of the four rows has, in the order in which they stand in a room: the run before the fault, the fault itself, the other run, and what that goes on by.
#[derive(Clone, Copy, PartialEq, Eq)]
pub struct Missed {
    pub run: u64,
    pub fault: u64,
    pub other: u64,
    pub later: u64,
}
