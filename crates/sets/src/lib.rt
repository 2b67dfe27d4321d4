// Sets of states and of pairs of states, as bits of words and by value.
#![tactic(auto)]

mod members;
mod pair_set;
mod state_set;
mod theorems;

pub use members::Members;
pub use pair_set::PairSet;
pub use state_set::StateSet;
pub use theorems::{equality_tells, same_rows_tell};
