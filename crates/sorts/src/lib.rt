// Sorts of faults: a plant judged and followed as if the faults of one sort were its only ones, and what that has to do with faults altogether.
#![tactic(auto)]

mod checks;
mod entries;
mod held;
mod kinds;
mod marks;
#[cfg(test)]
mod tests;
mod theorems;

pub use checks::check;
pub use entries::{follow, judge, judge_for};
pub use held::{Marked, choose};
pub use kinds::Faults;
pub use marks::occurs;
pub use theorems::{alone, converse_fails, greatest, only_sort, rules_same, worked_arrows};
