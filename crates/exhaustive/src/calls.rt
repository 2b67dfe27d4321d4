// Random calls of the entries, sound at first and then damaged.
use crate::rooms::least_room;
use bare::Plant;
use random::Random;
use std::alloc::{AllocError, Global};

const MOST_STATES: u16 = 4;

const MOST_SIGN: u16 = 3;

const MOST_EVENTS: u16 = 4;

const MOST_ARROWS: u16 = 8;

// All that the entries are lent, the room by its length.
#[derive(Drop)]
pub struct Call {
    states: u16,
    arrows: Vec<u16>,
    events: Vec<u16>,
    pub memory: Vec<u8>,
    pub sign: u64,
    pub room_length: usize,
}

// Some events: a sign, at times none, and whether it is a fault.
fn random_events(heap: Global, random: &mut Random) -> Result<Vec<u16>, AllocError> {
    let mut events = Vec::new(heap);
    // With few signs more runs look alike.
    let signs = random.between(1, MOST_SIGN);
    for _ in 0..random.between(2, MOST_EVENTS) {
        let sign = if random.one_in(2) {
            0
        } else {
            random.between(1, signs)
        };
        events.extend_from_slice(&[sign, u16::from(random.one_in(2))])?;
    }
    Ok(events)
}

// What the arrows of a plant are drawn from.
#[derive(Clone, Copy)]
struct Choices<'a> {
    states: u16,
    events: &'a [u16],
    // An arrow that shows nothing leads to a higher state or else is left out, so that no way round is silent and fewer long runs show little.
    climbs: bool,
}

impl Choices<'_> {
    // More arrows lead from low states, which are reached sooner.
    fn random_arrow(self, random: &mut Random) -> Option<[u16; 3]> {
        let event = random.place(self.events.len() / 2);
        let low = random.between(1, self.states);
        let from = random.below(low);
        let to = random.below(self.states);
        let is_silent = self.events.get(event.saturating_mul(2)) == Some(&0);
        if self.climbs && is_silent && from >= to {
            return None;
        }
        Some([from, u16::try_from(event).ok()?, to])
    }
}

fn random_arrows(
    heap: Global,
    random: &mut Random,
    states: u16,
    events: &[u16],
) -> Result<Vec<u16>, AllocError> {
    let mut arrows = Vec::new(heap);
    let choices = Choices {
        states,
        events,
        climbs: !random.one_in(4),
    };
    for _ in 0..random.between(3, MOST_ARROWS) {
        if let Some(arrow) = choices.random_arrow(random) {
            arrows.extend_from_slice(&arrow)?;
        }
    }
    Ok(arrows)
}

fn random_memory(heap: Global, random: &mut Random, states: u16) -> Result<Vec<u8>, AllocError> {
    let mut memory = Vec::new(heap);
    for _ in 0..2 * u32::from(states) {
        memory.push(u8::from(random.one_in(2)))?;
    }
    Ok(memory)
}

// No closures: one is picked at random, by value, and each would borrow the call.
#[derive(Clone, Copy)]
enum Damage {
    Arrow,
    Event,
    Mark,
    CutArrows,
    CutEvents,
    CutMemory,
    CutRoom,
    NoStates,
    ManyStates,
    Sign,
}

const DAMAGES: [Damage; 10] = [
    Damage::Arrow,
    Damage::Event,
    Damage::Mark,
    Damage::CutArrows,
    Damage::CutEvents,
    Damage::CutMemory,
    Damage::CutRoom,
    Damage::NoStates,
    Damage::ManyStates,
    Damage::Sign,
];

// Too large for some places, and not for others.
const LARGE: [u16; 7] = [2, 4, 33, 255, 256, 1_000, 65_535];

fn spoil_number(random: &mut Random, numbers: &mut [u16]) {
    let number = random.pick_mut(numbers);
    let large = random.pick(&LARGE);
    if let Some(number) = number {
        *number = large;
    }
}

fn spoil_mark(random: &mut Random, memory: &mut [u8]) {
    if let Some(mark) = random.pick_mut(memory) {
        *mark = 2;
    }
}

impl Call {
    pub fn random(heap: Global, random: &mut Random) -> Result<Call, AllocError> {
        let states = random.between(1, MOST_STATES);
        let events = random_events(heap, random)?;
        let arrows = random_arrows(heap, random, states, events.as_slice())?;
        Ok(Call {
            states,
            arrows,
            events,
            memory: random_memory(heap, random, states)?,
            sign: u64::from(random.below(5)),
            room_length: least_room(states),
        })
    }

    pub fn plant(&self) -> Plant<'_> {
        Plant {
            states: self.states,
            arrows: self.arrows.as_slice(),
            events: self.events.as_slice(),
        }
    }

    // Damages one thing. Where nothing is left to damage it stays as it is.
    pub fn spoil(&mut self, random: &mut Random) {
        if let Some(damage) = DAMAGES.get(random.place(DAMAGES.len())) {
            self.suffer(*damage, random);
        }
    }

    fn suffer(&mut self, damage: Damage, random: &mut Random) {
        match damage {
            Damage::Arrow => spoil_number(random, self.arrows.as_mut_slice()),
            Damage::Event => spoil_number(random, self.events.as_mut_slice()),
            Damage::Mark => spoil_mark(random, self.memory.as_mut_slice()),
            Damage::CutArrows => {
                let _ = self.arrows.pop();
            }
            Damage::CutEvents => {
                let _ = self.events.pop();
            }
            Damage::CutMemory => {
                let _ = self.memory.pop();
            }
            Damage::CutRoom => self.room_length = self.room_length.saturating_sub(1),
            Damage::NoStates => self.states = 0,
            Damage::ManyStates => self.states = 33,
            Damage::Sign => self.sign = 256,
        }
    }
}
