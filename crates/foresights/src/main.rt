// Makes small random plants, tries all their runs without a fault up to a length by the definition, and compares what `foretell` answers. It ends at the first answer that the runs contradict.
#![tactic(auto)]

mod answers;
mod plants;
mod runs;

use answers::{Tally, compare};
use bare::Plant;
use plants::Drawn;
use random::Random;
use std::{fmt, io};

const PLANTS: u32 = 3_000;

// How many events are asked for: each number up to six, and one far beyond the states.
const AHEAD: [u64; 8] = [0, 1, 2, 3, 4, 5, 6, u64::MAX];

// On which plant an answer is wrong, and for which number of events.
#[derive(Clone, Copy)]
struct Mismatch {
    plant: u32,
    ahead: u64,
}

impl fmt::Display for Mismatch {
    fn fmt<W: fmt::Write>(&self, f: &mut fmt::Formatter<W>) -> fmt::Result {
        let Mismatch { plant, ahead } = *self;
        write!(f, "MISMATCH at plant {plant}, in {ahead}")
    }
}

// For which number of events the answer on a plant is wrong, if for one.
fn compare_plant(plant: Plant, tallies: &mut [Tally]) -> Option<u64> {
    tallies
        .iter_mut()
        .find_map(|tally| (!compare(plant, tally)).then_some(tally.ahead))
}

fn compare_plants(tallies: &mut [Tally]) -> Option<Mismatch> {
    let mut random = Random::default();
    for plant in 0..PLANTS {
        let drawn = Drawn::random(&mut random);
        if let Some(ahead) = compare_plant(drawn.plant(), tallies) {
            return Some(Mismatch { plant, ahead });
        }
    }
    None
}

fn main(rt: HostRuntime) -> io::Result<()> {
    let mut tallies = AHEAD.map(Tally::new);
    if let Some(mismatch) = compare_plants(&mut tallies) {
        return println!(rt; "{mismatch}");
    }
    println!(rt; "random plants: {PLANTS}")?;
    for tally in &tallies {
        println!(rt; "{tally}")?;
    }
    Ok(())
}
