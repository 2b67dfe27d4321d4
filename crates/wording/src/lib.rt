// How answers are worded: rows of events, verdicts, and why a text has no answer.
#![tactic(auto)]

mod rows;
mod sentences;
mod troubles;

pub use rows::{Row, name_of};
pub use sentences::Sentence;
pub use troubles::Trouble;
