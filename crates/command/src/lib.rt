// What the program does, as functions on values.
#![tactic(auto)]

mod checking;
mod following;
mod judging;
mod listening;
mod opening;
mod picturing;
mod signs;
mod valid;

pub use checking::check;
pub use following::follow;
pub use judging::{ROOM, judge, judge_for};
pub use listening::Listener;
pub use opening::open;
pub use picturing::draw;
pub use signs::read_sign;
pub use valid::Opened;
