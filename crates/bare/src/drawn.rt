// Plants made at random.
use random::Random;

// A state, an event and a state by turns.
pub fn draw_arrows(random: &mut Random, states: u16, events: u16, arrows: &mut [u16]) {
    for (place, number) in arrows.iter_mut().enumerate() {
        *number = random.below(if place % 3 == 1 { events } else { states });
    }
}

// A sign up to 2 and a mark by turns, where one event in so many is a fault.
pub fn draw_events(random: &mut Random, one_in: u16, events: &mut [u16]) {
    for (place, number) in events.iter_mut().enumerate() {
        *number = if place % 2 == 0 {
            random.below(3)
        } else {
            u16::from(random.below(one_in) == one_in.saturating_sub(1))
        };
    }
}
