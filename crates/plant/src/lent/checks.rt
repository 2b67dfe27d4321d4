// Whether numbers make a plant, by the first rule that turns them away. Numbers are lent to be read only, so they stay as they were.
ghost use Rattle.std.specs.Prelude.{◌≡◌, ℕ, ◌+◌, ◌*◌, ◌/◌, ◌%◌, ◌<◌, ◌≤◌, List, [], ◌∷◌, length};
ghost use Rattle.plant.specs.Checked.{checked, refusal_in};
ghost use Rattle.plant.specs.Refusals.{first_over, states_refusal, events_refusal, arrows_refusal};

use super::Numbers;
use crate::parts::Refusal;

const MOST_STATES: u64 = 32;

// 64 events, two numbers each.
const MOST_EVENT_NUMBERS: usize = 128;

// 1,024 arrows, three numbers each.
const MOST_ARROW_NUMBERS: usize = 3072;

// The index of the first number that is not below the limit of its place; the limits recur.
pub fn first_over<const N: usize>(numbers: &[u16], limits: [u64; N]) -> Option<u64>
    requires { 0 < N }
    ensures { result ≡ first_over limits.entry 0 numbers.now }
{
    // The limit's place goes round by itself: a remainder for each number made the check a third slower.
    let mut place = 0;
    for (i, number) in numbers.iter().enumerate() {
        if u64::from(*number) >= limits[place] {
            return Some(i as u64);
        }
        place += 1;
        if place == N {
            place = 0;
        }
    }
    None
}

// No state, or more than 32.
fn check_states(states: u64) -> Result<(), Refusal>
    ensures { result ≡ checked (states_refusal states) }
{
    if states < 1 || states > MOST_STATES {
        return Err(Refusal::States(states));
    }
    Ok(())
}

// More than 64 events, half an event, a sign above 255 or a mark above 1.
fn check_events(events: &[u16]) -> Result<(), Refusal>
    ensures { result ≡ checked (events_refusal events.now) }
{
    if events.len() > MOST_EVENT_NUMBERS {
        return Err(Refusal::Events(MOST_EVENT_NUMBERS as u64));
    }
    if events.len() % 2 != 0 {
        return Err(Refusal::Events(events.len() as u64 - 1));
    }
    match first_over(events, [256, 2]) {
        Some(place) => Err(Refusal::Events(place)),
        None => Ok(()),
    }
}

// Part of an arrow, more than 1,024 arrows, or a state or an event that is not there.
fn check_arrows(numbers: Numbers) -> Result<(), Refusal>
    ensures { result ≡ checked (arrows_refusal numbers.entry.states numbers.entry.arrows.now numbers.entry.events.now) }
{
    let Numbers {
        states,
        arrows,
        events,
    } = numbers;
    let rest = arrows.len() % 3;
    if rest != 0 {
        return Err(Refusal::Arrows((arrows.len() - rest) as u64));
    }
    if arrows.len() > MOST_ARROW_NUMBERS {
        return Err(Refusal::Arrows(MOST_ARROW_NUMBERS as u64));
    }
    match first_over(arrows, [states, events.len() as u64 / 2, states]) {
        Some(place) => Err(Refusal::Arrows(place)),
        None => Ok(()),
    }
}

// Whether these numbers make a plant: an error is the first rule that turns them away.
pub fn check(numbers: Numbers) -> Result<(), Refusal>
    ensures { result ≡ checked (refusal_in numbers.entry) }
{
    check_states(numbers.states)?;
    check_events(numbers.events)?;
    check_arrows(numbers)
}
