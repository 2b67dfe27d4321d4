// Plants made at random.
use crate::plants::Plant;
use bare::draw_events;
use random::Random;

// States 0 and 1 are before a fault, 2 and 3 behind one: event 0, the fault, leads from the former to the latter, and every other event stays on its side.
fn draw_arrow(random: &mut Random) -> [u16; 3] {
    let event = random.below(5);
    let (before, behind) = if event == 0 {
        (0, 2)
    } else if random.one_in(2) {
        (0, 0)
    } else {
        (2, 2)
    };
    [before | random.below(2), event, behind | random.below(2)]
}

// The first arrow is the fault's, so that there is one.
fn draw_arrows(random: &mut Random) -> [[u16; 3]; 9] {
    let mut arrows = [[0, 0, 2]; 9];
    for arrow in arrows.iter_mut().skip(1) {
        *arrow = draw_arrow(random);
    }
    arrows
}

// The first event is a fault, and the others at times; what they show is of no account.
pub fn plant(random: &mut Random) -> Plant {
    let mut events = [0; 10];
    events[0] = random.below(3);
    events[1] = 1;
    draw_events(random, 8, &mut events[2..]);
    let arrows = draw_arrows(random);
    Plant { arrows, events }
}
