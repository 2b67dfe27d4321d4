// Plants: what they are, which numbers make one, and what holds of every one.
#![tactic(auto)]

mod lent;
mod parts;
#[cfg(test)]
mod tests;
mod theorems;

pub use lent::{Numbers, Plant, Steps, check, first_over};
pub use parts::{Arrow, Event, Mark, Refusal, Step};
pub use theorems::{
    bad_stays, hidden_fits, in_pairs, known_one, least_out, more_seen, not_both, out_or_hidden,
    refused_or_valid, worked_plants,
};
