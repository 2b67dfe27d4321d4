// From a text to how large its plant is.
ghost use Rattle.sorts.specs.declared.kinds.Faults.TheVariants.{Any};
ghost use Rattle.command.specs.Sizes.{SizeOf};
ghost use Rattle.command.specs.Texts.{Answers, drawn_refusal};

use crate::opening::open;
use sorts::Faults;
use std::alloc::Global;
use wording::Trouble;

// How many states, events and arrows the plant has that a text draws.
pub fn check(heap: Global, text: &[u8]) -> Result<String, Trouble>
    ensures { Answers (drawn_refusal Any) SizeOf text.now result }
{
    let opened = open(heap, text, Faults::Any)?;
    let states = opened.states;
    let events = opened.drawing.events().len();
    let arrows = opened.drawing.arrows().len();
    Ok(format!(in heap; "{states} states, {events} events, {arrows} arrows")?)
}
