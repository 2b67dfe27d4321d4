// Makes small random plants, tries all labellings of each with numbers of its own, and compares what `labelling` answers. A line for each plant where the two differ, and how many plants of each kind were met.
#![tactic(auto)]

mod filling;
mod plants;

use bare::{Differs, Tally};
use filling::plant;
use plants::signs;
use random::Random;

const PLANTS: u32 = 600;

// What stands in a row before it is lent.
const BEFORE: u16 = 999;

// How many signs are wanted, if a labelling does.
fn compare(random: &mut Random) -> Result<Option<u32>, Differs> {
    let plant = plant(random);
    let mut row = [BEFORE; 5];
    let answer = plant.label(&mut row);
    let least = plant.least();
    let is_right = match least {
        Some(many) => signs(row) == many && plant.fits(row) && plant.does(row),
        None => row == [BEFORE; 5],
    };
    if answer == Ok(least.map(u64::from)) && is_right {
        Ok(least)
    } else {
        Err(Differs)
    }
}

fn main(rt: HostRuntime) -> anyhow::Result<()> {
    let mut random = Random::default();
    // Of five events one at least is a fault.
    let mut tally = Tally::<5>::new();
    for number in 0..PLANTS {
        match compare(&mut random) {
            Ok(signs) => tally.add(signs),
            Err(Differs) => println!(rt; "DIFFERS: plant {number}")?,
        }
    }
    println!(rt; "random plants: {PLANTS}")?;
    for (signs, many) in tally.numbers.iter().enumerate() {
        println!(rt; "fewest signs {signs}: {many}")?;
    }
    let none = tally.none;
    println!(rt; "no labelling does: {none}")?;
    Ok(())
}
