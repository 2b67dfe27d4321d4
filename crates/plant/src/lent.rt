// A plant over numbers that are lent. It can be had only through a check, so whoever holds one reads it without a proof.
ghost use Rattle.std.specs.Prelude.{◌≡◌, ◌≤◌, false, is_some};
ghost use Rattle.plant.specs.Refusals.{refusal};

mod checks;
mod reading;
mod steps;

pub use checks::{check, first_over};
pub use steps::Steps;

// The numbers that are lent for a plant: how many states it has, three numbers for each arrow, two for each event. Nothing says that they make one.
#[derive(Clone, Copy)]
pub struct Numbers<'a> {
    pub states: u64,
    pub arrows: &'a [u16],
    pub events: &'a [u16],
}

#[derive(Clone, Copy)]
pub struct Plant<'a> {
    states: u64,
    arrows: &'a [u16],
    events: &'a [u16],
    ghost some: { 1 ≤ states },
    ghost few: { states ≤ 32 },
    ghost valid: { is_some (refusal states arrows.now events.now) ≡ false },
}
