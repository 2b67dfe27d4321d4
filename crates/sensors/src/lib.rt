// What to show: of events that show nothing, a cheapest set to be made visible so that every fault comes out.
#![tactic(auto)]

mod checks;
mod entry;
mod selection;
mod signs;
mod subsets;
#[cfg(test)]
mod tests;
mod theorems;

pub use checks::check;
pub use entry::choose;
pub use signs::unused;
pub use theorems::{choice_one, refused_or_fit};
