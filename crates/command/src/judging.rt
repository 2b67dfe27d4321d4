// From a text to the sentence of a verdict.
ghost use Rattle.std.specs.Prelude.{◌≡◌, IfOk};
ghost use Rattle.sorts.specs.declared.kinds.Faults.TheVariants.{Any};
ghost use Rattle.command.specs.Texts.{Answers, drawn_refusal, Holds, SentenceFor, opened_plant};

use crate::opening::open;
use crate::valid::Opened;
use diagnosability::Verdict;
use sorts::Faults;
use std::alloc::{AllocError, Global};
use wording::{Sentence, Trouble};

// Room for the rows of every plant: eight places for each pair of 32 states.
pub const ROOM: usize = 8192;

// A verdict and the room where its rows stand.
#[derive(Drop)]
pub(crate) struct Judgement {
    pub(crate) verdict: Verdict,
    pub(crate) room: Vec<u16>,
}

impl Judgement {
    // As a sentence, by the names of all events.
    pub(crate) fn sentence<'a>(&'a self, names: &'a [String]) -> Sentence<'a>
        ensures names { result.names.now ≡ names.now }
        ensures verdict { result.verdict ≡ self.now.verdict }
        ensures room { result.room.now ≡ self.now.room.items }
    {
        Sentence {
            names,
            verdict: self.verdict,
            room: self.room.as_slice(),
        }
    }
}

impl Opened {
    // What is judged of its plant. The room is large enough for every plant, so there is a verdict.
    pub(crate) fn judge(&self, heap: Global) -> Result<Judgement, AllocError>
        ensures { IfOk result (λ j. Holds (opened_plant self.now) j.verdict j.room.items) }
    {
        let mut room = vec![in heap; 0u16; ROOM]?;
        let verdict = diagnosability::judge(self.numbers(), room.as_mut_slice()).unwrap();
        Ok(Judgement { verdict, room })
    }
}

// What is judged of the plant that a text draws.
pub fn judge(heap: Global, text: &[u8]) -> Result<String, Trouble>
    ensures { Answers (drawn_refusal Any) (SentenceFor Any) text.now result }
{
    judge_for(heap, text, Faults::Any)
}

// The same by what counts as a fault.
pub fn judge_for(heap: Global, text: &[u8], faults: Faults) -> Result<String, Trouble>
    ensures { Answers (drawn_refusal faults) (SentenceFor faults) text.now result }
{
    let opened = open(heap, text, faults)?;
    let judgement = opened.judge(heap)?;
    let sentence = judgement.sentence(opened.drawing.names());
    Ok(format!(in heap; "{sentence}")?)
}
