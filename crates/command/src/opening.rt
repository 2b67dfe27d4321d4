// A text that draws a plant which no rule turns away.
ghost use Rattle.command.specs.Texts.{Answers, drawn_refusal, OpenedAs};

use crate::valid::Opened;
use drawing::read;
use plant::Numbers;
use sorts::{Faults, choose};
use std::alloc::Global;
use wording::Trouble;

// Reads a text, and tries the plant's own rules on what it draws, by what counts as a fault.
pub fn open(heap: Global, text: &[u8], faults: Faults) -> Result<Opened, Trouble>
    ensures { Answers (drawn_refusal faults) (OpenedAs faults) text.now result }
{
    let drawing = read(heap, text)?;
    let states = drawing.states();
    let arrows = drawing.arrow_numbers(heap)?;
    let events = drawing.event_numbers(heap)?;
    let numbers = Numbers {
        states,
        arrows: arrows.as_slice(),
        events: events.as_slice(),
    };
    let marked = choose(numbers, faults)?;
    Ok(Opened {
        drawing,
        states,
        arrows,
        events,
        marked,
    })
}
