// Reads the arguments and the signs, and prints what the libraries answer.
#![tactic(auto)]

mod following;
mod judging;
mod worked;

use following::{follow_input, follow_words};
use judging::judge_all;
use plant::Plant;
use std::env::Args;
use std::process::ExitCode;
use std::{env, fmt};

const USAGE: &str = "usage:
  diagnose judge NAME...          whether every fault comes out, and after how many events, or which runs hide one
  diagnose follow NAME [SIGN...]  the word after each sign; with none given, signs from standard input, each word at once
  diagnose check NAME             how many states, events and arrows, or the refusal
  diagnose help
NAME is a built-in worked plant: told, untold, later, sound, still, brief, broken";

// Says on standard error why something has no answer.
fn refuse<D: fmt::Display + Drop>(rt: &HostRuntime, why: D) -> anyhow::Result<bool> {
    eprintln!(rt; "{why}")?;
    Ok(false)
}

// How large a plant is.
fn print_size(rt: &HostRuntime, plant: Plant) -> anyhow::Result<bool> {
    let states = plant.states();
    let events = plant.event_count();
    let arrows = plant.arrow_count();
    println!(rt; "{states} states, {events} events, {arrows} arrows")?;
    Ok(true)
}

fn follow(rt: &HostRuntime, plant: Plant, signs: Args) -> anyhow::Result<bool> {
    if signs.len() == 0 {
        follow_input(rt, plant)
    } else {
        follow_words(rt, plant, signs)
    }
}

// The built-in plant of the name that comes next, as what is asked for takes it.
fn with_plant<F>(rt: &HostRuntime, mut args: Args, act: F) -> anyhow::Result<bool>
where
    F: FnOnce(Plant, Args) -> anyhow::Result<bool>,
    requires { F.IsAlwaysCallable act }
{
    let Some(name) = args.next() else {
        return refuse(rt, USAGE);
    };
    let Some(numbers) = worked::find(name.as_str()) else {
        return refuse(rt, USAGE);
    };
    match Plant::try_from(numbers) {
        Ok(plant) => act(plant, args),
        Err(refusal) => refuse(rt, refusal),
    }
}

// Does what is asked for; false where something was turned away, which has been said.
fn run(rt: &HostRuntime) -> anyhow::Result<bool> {
    let mut args = env::args(rt)?;
    let _program = args.next();
    let verb = args.next();
    match verb.as_deref() {
        Some("help") => {
            println!(rt; "{USAGE}")?;
            Ok(true)
        }
        Some("check") => with_plant(rt, args, |plant, _| print_size(rt, plant)),
        Some("follow") => with_plant(rt, args, |plant, signs| follow(rt, plant, signs)),
        Some("judge") => {
            if args.len() == 0 {
                return refuse(rt, USAGE);
            }
            judge_all(rt, args)
        }
        _ => refuse(rt, USAGE),
    }
}

fn main(rt: HostRuntime) -> ExitCode {
    match run(&rt) {
        Ok(true) => ExitCode::SUCCESS,
        Ok(false) => ExitCode::FAILURE,
        Err(e) => {
            let _ = eprintln!(rt; "diagnose: {e}");
            ExitCode::FAILURE
        }
    }
}
