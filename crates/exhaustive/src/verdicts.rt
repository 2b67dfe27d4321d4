// What `judge` answers, compared with the runs.
use crate::counts::Tally;
use crate::lassos::{Lasso, is_hidden_pair};
use crate::runs::Runs;
use anyhow::{bail, ensure};
use bare::{Plant, fill, is_unchanged, rows};
use diagnosability::{Lengths, Verdict, judge};

// No run has so many events since its first part with a fault and shows what one without fault shows. Where one has one event fewer, no smaller number is right either.
fn compare_out(runs: &Runs, number: u64, room: &[u16], tally: &mut Tally) -> anyhow::Result<()> {
    let least = runs.least_out();
    ensure!(
        number >= least,
        "judge says out in {number}, but expected a number of at least {least}"
    );
    ensure!(
        is_unchanged(room, 0),
        "judge changes the room and says out in {number}"
    );
    tally.add_out(number, number == least);
    Ok(())
}

// Whether the room holds the rows of a hidden pair of these lengths.
fn holds_hidden_pair(plant: Plant, room: &[u16], lengths: [u64; 4]) -> bool {
    let Some(rows) = rows(room, lengths) else {
        return false;
    };
    let [bad_run, good_run, bad_round, good_round] = rows;
    let bad = Lasso {
        run: bad_run,
        round: bad_round,
    };
    let good = Lasso {
        run: good_run,
        round: good_round,
    };
    is_hidden_pair(plant, bad, good)
}

// Judges the plant in a room, and compares the verdict.
pub fn compare_verdict(runs: &Runs, room: &mut [u16], tally: &mut Tally) -> anyhow::Result<()> {
    fill(room);
    match judge(runs.plant.into(), room) {
        Ok(Verdict::Out(number)) => compare_out(runs, number, room, tally),
        Ok(
            Verdict::Hidden(
                Lengths {
                    bad,
                    good,
                    bad_round,
                    good_round,
                },
            ),
        ) => {
            ensure!(
                holds_hidden_pair(runs.plant, room, [bad, good, bad_round, good_round]),
                "judge says hidden with rows of {bad}, {good}, {bad_round}, {good_round}, but expected a pair that hides"
            );
            tally.add_hidden();
            Ok(())
        }
        Err(refusal) => {
            let number = refusal.number();
            bail!("judge turns away by {number}, but expected a verdict")
        }
    }
}
