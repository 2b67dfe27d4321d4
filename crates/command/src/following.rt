// From a text and words to a line for each word.
ghost use Rattle.std.specs.Prelude.{◌≡◌, ℕ, [], map, IfOk, string_bytes};
ghost use Rattle.plant.specs.Model.{model};
ghost use Rattle.command.specs.Lines.{LinesFor};
ghost use Rattle.sorts.specs.declared.kinds.Faults.TheVariants.{Any};
ghost use Rattle.command.specs.Texts.{Answers, drawn_refusal, plant_of};

use crate::listening::Listener;
use crate::opening::open;
use plant::Plant;
use sorts::Faults;
use std::alloc::Global;
use std::fmt;
use wording::Trouble;

fn lines(heap: Global, plant: Plant, words: &[String]) -> Result<String, fmt::Error>
    ensures { IfOk result (λ s. LinesFor (model plant.entry) 0 [] (map string_bytes words.now) (string_bytes s)) }
{
    let mut listener = Listener::new(plant);
    let mut out = String::new(heap);
    for word in words {
        match listener.hear(word.as_str().as_bytes()) {
            Ok(known) => write!(out, "{known}\n")?,
            Err(refusal) => write!(out, "{refusal}\n")?,
        }
    }
    Ok(out)
}

// A line for each word: what is known after the signs so far, or why the word is no sign.
pub fn follow(heap: Global, text: &[u8], words: &[String]) -> Result<String, Trouble>
    ensures { Answers (drawn_refusal Any) (λ d s. LinesFor (plant_of Any d) 0 [] (map string_bytes words.now) (string_bytes s)) text.now result }
{
    let opened = open(heap, text, Faults::Any)?;
    Ok(lines(heap, opened.plant(), words)?)
}
