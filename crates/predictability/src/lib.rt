// Foretelling the faults of a plant: whether signs shown before each fault leave no run that goes on without one.
#![tactic(auto)]

mod calm;
mod entry;
mod going;
mod missed;
mod rows;
mod search;
mod states;
#[cfg(test)]
mod tests;

pub use entry::foretell;
pub use missed::Missed;
