// Judging a plant: every fault comes out after a number of events, or two runs hide one.
#![tactic(auto)]

mod checks;
mod entry;
mod rows;
mod theorems;
mod verdict;

pub use checks::check;
pub use entry::judge;
pub use theorems::verdict_one;
pub use verdict::{HiddenRows, Lengths, Verdict};
