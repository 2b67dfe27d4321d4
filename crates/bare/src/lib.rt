// What the programs that try the entries have in common, written without them: plants as bare numbers, rows of events and of signs, the room that is lent.
#![tactic(auto)]

mod drawn;
mod plants;
mod rooms;
mod sets;
mod signs;
mod tallies;
mod walks;

pub use drawn::{draw_arrows, draw_events};
pub use plants::{Event, Plant, Step, Steps};
pub use rooms::{fill, is_unchanged, rows};
pub use sets::{Set, marked};
pub use signs::{Parts, Signs};
pub use tallies::{Differs, Tally};
