// The observer: which states may have been reached, with a fault or without one, by the runs that show the signs so far.
#![tactic(auto)]

mod entry;
mod follower;
mod marks;
mod memory;
#[cfg(test)]
mod tests;
mod theorems;
mod words;

pub use entry::{check, follow};
pub use follower::Follower;
pub use memory::Memory;
pub use theorems::left_taken;
pub use words::Word;
