// Fewest signs: numbers for the events of a plant, faults 0, of as few different signs as there can be so that every fault comes out.
#![tactic(auto)]

mod checks;
mod entry;
mod rows;
#[cfg(test)]
mod tests;
mod theorems;
mod trials;

pub use checks::check;
pub use entry::label;
pub use theorems::{normal_forms, refused_or_fit, signs_counted};
