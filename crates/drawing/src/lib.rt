// A plant as a text draws it, and the numbers that it is checked by.
#![tactic(auto)]

mod draft;
mod finished;
mod numbers;
mod reads;
mod shape;

pub use finished::Drawing;
pub use reads::{ReadError, read};
pub use shape::{Arrow, Event};
