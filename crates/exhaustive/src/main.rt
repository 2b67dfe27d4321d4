// Makes small random plants, tries all their runs up to a length by the definition, and compares what the entries answer: `follow` of the observer and `judge` of diagnosability. It ends at the first answer that the runs contradict.
#![tactic(auto)]

mod calls;
mod cases;
mod counts;
mod failure;
mod lassos;
mod refusals;
mod rooms;
mod runs;
mod verdicts;
mod words;

use anyhow::anyhow;
use bare::Plant;
use calls::Call;
use cases::compare_cases;
use counts::Tally;
use failure::Failure;
use random::Random;
use refusals::{compare_follow, compare_judge, follow_refusal, judge_refusal};
use rooms::first_part;
use runs::Runs;
use std::alloc::Global;
use std::process::ExitCode;
use verdicts::compare_verdict;
use words::compare_words;

const PLANTS: u32 = 20_000;

// Enough for 33 states, which are turned away only after the room is lent, and some to spare.
const ROOM: usize = 8 * 33 * 33 + 8;

// Compares what the entries answer on a sound plant.
fn compare_answers(
    heap: Global,
    plant: Plant,
    room: &mut [u16],
    tally: &mut Tally,
) -> Result<(), Failure> {
    let runs = Runs::of(heap, plant)?;
    let mut memory = vec![in heap; 0; 2 * usize::from(plant.states)]?;
    compare_words(&runs, memory.as_mut_slice(), tally)?;
    compare_verdict(&runs, room, tally)?;
    Ok(())
}

// Compares what the entries refuse.
fn compare_refusals(
    heap: Global,
    call: &Call,
    room: &mut [u16],
    tally: &mut Tally,
) -> Result<(), Failure> {
    let memory = call.memory.as_slice();
    let turned = judge_refusal(call.plant(), room.len());
    let refused = follow_refusal(call.plant(), memory, call.sign);
    compare_judge(call.plant(), room, turned)?;
    compare_follow(heap, call.plant(), memory, call.sign, refused)?;
    tally.add_refusals(turned, refused);
    Ok(())
}

// Hands on what a comparison gave, and prints the plant if it failed.
fn explain(rt: &HostRuntime, plant: Plant, compared: Result<(), Failure>) -> Result<(), Failure> {
    if compared.is_err() {
        let states = plant.states;
        let arrows = plant.arrows;
        let events = plant.events;
        println!(rt; "states {states}, arrows {arrows:?}, events {events:?}")?;
    }
    compared
}

// Compares the answers on a random plant, and the refusals once one thing or two are damaged. The room is at times larger than it must be.
fn compare_plant(
    rt: &HostRuntime,
    random: &mut Random,
    room: &mut [u16],
    tally: &mut Tally,
) -> Result<(), Failure> {
    let heap = rt.alloc();
    let mut call = Call::random(heap, random)?;
    let spare = random.place(3);
    let compared = compare_answers(
        heap,
        call.plant(),
        first_part(room, call.room_length.saturating_add(spare)),
        tally,
    );
    explain(rt, call.plant(), compared)?;
    call.spoil(random);
    if random.one_in(3) {
        call.spoil(random);
    }
    let compared = compare_refusals(heap, &call, first_part(room, call.room_length), tally);
    explain(rt, call.plant(), compared)
}

fn compare_plants(rt: &HostRuntime, room: &mut [u16]) -> Result<(), Failure> {
    let mut random = Random::default();
    let mut tally = Tally::new();
    for _ in 0..PLANTS {
        compare_plant(rt, &mut random, room, &mut tally)?;
    }
    println!(rt; "random plants: {PLANTS}")?;
    print!(rt; "{tally}")?;
    if !tally.is_mostly_settled() {
        return Err(anyhow!("not even half of the words are settled").into());
    }
    Ok(())
}

fn run(rt: &HostRuntime) -> Result<(), Failure> {
    let mut room = vec![in rt.alloc(); 0u16; ROOM]?;
    compare_cases(rt, room.as_mut_slice())?;
    compare_plants(rt, room.as_mut_slice())
}

fn main(rt: HostRuntime) -> ExitCode {
    match run(&rt) {
        Ok(()) => ExitCode::SUCCESS,
        Err(failure) => {
            let _ = failure.print(&rt);
            ExitCode::FAILURE
        }
    }
}
