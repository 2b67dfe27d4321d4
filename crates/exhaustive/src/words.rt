// What `follow` says and marks, compared with the runs.
use crate::counts::Tally;
use crate::runs::{Ends, Runs};
use anyhow::{bail, ensure};
use bare::{Parts, Plant, Set, Signs, marked};
use observer::{Word, follow};
use plant::Refusal;

// The signs that are tried are those that events show, and this one, which none does.
const UNSHOWN: u16 = 4;

// Rows of up to so many signs are followed.
const LENGTH: u16 = 3;

// Follows the row from the beginning, given as its parts, the longest first. The memory may hold anything before.
fn follow_row(plant: Plant, mut parts: Parts, memory: &mut [u8]) -> Result<Word, Refusal> {
    let Some(sign) = parts.next().and_then(Signs::last) else {
        return follow(plant.into(), memory, 0);
    };
    follow_row(plant, parts, memory)?;
    follow(plant.into(), memory, u64::from(sign))
}

// The states that are marked, if every mark is 0 or 1.
fn marked_ends(memory: &[u8]) -> Option<Ends> {
    let (good, bad) = memory.split_at(memory.len() / 2);
    Some(Ends {
        good: marked(good)?,
        bad: marked(bad)?,
    })
}

// What is known where the states of these ends can have been reached.
fn word_of(Ends { good, bad }: Ends) -> Word {
    match (good.is_empty(), bad.is_empty()) {
        (true, true) => Word::Neither,
        (true, false) => Word::Bad,
        (false, true) => Word::Good,
        (false, false) => Word::Either,
    }
}

// If every run was tried, the states that are marked must be those that were found. If not, all that were found must be marked.
fn agrees(marked: Set, found: Set, settled: bool) -> bool {
    marked == found || (found.lies_within(marked) && !settled)
}

fn compare_row(
    runs: &Runs,
    row: Signs,
    memory: &mut [u8],
    tally: &mut Tally,
) -> anyhow::Result<()> {
    let Ok(said) = follow_row(runs.plant, row.parts(), memory) else {
        bail!("follow refuses after the signs {row}, but expected a word");
    };
    let Some(marks) = marked_ends(memory) else {
        bail!("follow leaves a mark that is neither 0 nor 1 after the signs {row}");
    };
    let word = word_of(marks);
    ensure!(
        said == word,
        "follow says {said} after the signs {row}, but expected what it marks, {word}"
    );
    let settled = runs.settle(row);
    let ends = runs.ends(row);
    ensure!(
        agrees(marks.good, ends.good, settled) && agrees(marks.bad, ends.bad, settled),
        "wrong marks where follow says {said} after the signs {row}, settled {settled}"
    );
    tally.add_word(word, settled);
    Ok(())
}

fn is_tried(plant: Plant, sign: u16) -> bool {
    sign == UNSHOWN || plant.events.iter().step_by(2).any(|shown| *shown == sign)
}

// Follows the row and all that go on from it by up to so many tried signs.
fn compare_rows(
    runs: &Runs,
    row: Signs,
    more: u16,
    memory: &mut [u8],
    tally: &mut Tally,
) -> anyhow::Result<()> {
    compare_row(runs, row, memory, tally)?;
    if more == 0 {
        return Ok(());
    }
    for sign in 1..=UNSHOWN {
        if is_tried(runs.plant, sign) {
            compare_rows(runs, row.then(Some(sign)), more - 1, memory, tally)?;
        }
    }
    Ok(())
}

// Follows all rows of up to three tried signs, and compares each word and all marks.
pub fn compare_words(runs: &Runs, memory: &mut [u8], tally: &mut Tally) -> anyhow::Result<()> {
    compare_rows(runs, Signs::NONE, LENGTH, memory, tally)
}
