// Plants drawn at random.
use arrayvec::ArrayVec;
use bare::{Plant, draw_arrows, draw_events};
use random::Random;

// A random plant of one to four states, four events and up to eight arrows.
#[derive(Drop)]
pub struct Drawn {
    states: u16,
    arrows: ArrayVec<u16, 24>,
    events: [u16; 8],
}

impl Drawn {
    pub fn random(random: &mut Random) -> Drawn {
        let states = random.between(1, 4);
        let mut arrows = ArrayVec::from([0; 3 * 8]);
        let mut events = [0; 8];
        draw_arrows(random, states, 4, arrows.as_mut_slice());
        draw_events(random, 2, &mut events);
        arrows.truncate(usize::from(random.between(1, 8)) * 3);
        Drawn {
            states,
            arrows,
            events,
        }
    }

    pub fn plant(&self) -> Plant<'_> {
        Plant {
            states: self.states,
            arrows: self.arrows.as_slice(),
            events: &self.events,
        }
    }
}
