// What the lines so far draw, and what a line adds to it.
ghost use Rattle.std.specs.Prelude.{◌≡◌, map, Some, IfOk, OnOk, vec_len, string_bytes};

use crate::reads::ReadError;
use crate::shape::{Arrow, Event};
use grammar::{Statement, read_line};
use std::alloc::{AllocError, Global};

// So many events have a number each, and all past them share the next. A plant has at most 64, so that more are refused anyhow, and the memory for names stays fixed.
const KEPT: usize = 65;

// The events by number, each with its name, and the arrows, as far as a text has been read.
#[derive(Drop)]
pub struct Draft {
    pub names: Vec<String>,
    pub events: Vec<Event>,
    pub arrows: Vec<Arrow>,
    // Two lists and not one of pairs: callers are lent the names and the events as a slice each.
    ghost level: { vec_len names ≡ vec_len events },
}

impl Draft {
    ghost use Rattle.grammar.specs.Line.{arrow, fault, shows};
    ghost use Rattle.drawing.specs.Added.{Outcome};
    ghost use Rattle.drawing.specs.Drafted.{drafted, blank_sheet, place, put, Mentioned};
    ghost use Rattle.drawing.specs.Reads.{added};

    pub(crate) fn new(heap: Global) -> Draft
        ensures { drafted result ≡ blank_sheet }
    {
        Draft {
            names: Vec::new(heap),
            events: Vec::new(heap),
            arrows: Vec::new(heap),
        }
    }

    // The place of that name, or how many names there are if it is not among them.
    fn place_of(&self, name: &str) -> usize
        ensures { result ≡ place (map string_bytes self.now.names.items) name.now }
    {
        self.names
            .iter()
            .position(|known| known.as_str() == name)
            .unwrap_or(self.names.len())
    }

    // The number of the event of that name, which is known from now on.
    fn mention(&mut self, name: &str) -> Result<usize, AllocError>
        ensures { IfOk result (λ i. Mentioned self.old name.now self.new i) }
    {
        let place = self.place_of(name);
        if place < self.names.len() || place > KEPT {
            return Ok(place.min(KEPT));
        }
        let name = String::from_str(*self.names.allocator(), name)?;
        self.events.reserve(1)?;
        self.names.push(name)?;
        self.events.push(Event::default())?;
        Ok(place)
    }

    fn draw(&mut self, from: u64, event: &str, to: u64) -> Result<(), AllocError>
        ensures { OnOk result (put (drafted self.old) (arrow «from» event.now to) ≡ Some (drafted self.new)) }
    {
        let event = self.mention(event)?;
        self.arrows.push(Arrow { from, event, to })?;
        Ok(())
    }

    fn mark(&mut self, event: &str) -> Result<(), AllocError>
        ensures { OnOk result (put (drafted self.old) (fault event.now) ≡ Some (drafted self.new)) }
    {
        let i = self.mention(event)?;
        self.events[i].fault = true;
        Ok(())
    }

    fn show(&mut self, event: &str, sign: u64, line: u64) -> Result<(), ReadError>
        ensures { Outcome (put (drafted self.old) (shows event.now sign)) line (drafted self.new) result }
    {
        let i = self.mention(event)?;
        // events that share a number may differ
        if i < KEPT && self.events[i].sign.is_some_and(|other| other != sign) {
            return Err(ReadError::Line(line));
        }
        self.events[i].sign = Some(sign);
        Ok(())
    }

    // Adds what a line says, the line of that number.
    pub(crate) fn add(&mut self, line: &[u8], number: u64) -> Result<(), ReadError>
        ensures { Outcome (added (drafted self.old) line.now) number (drafted self.new) result }
    {
        match read_line(line).ok_or(ReadError::Line(number))? {
            Statement::Nothing => {}
            Statement::Arrow { from, event, to } => self.draw(from, event, to)?,
            Statement::Fault { event } => self.mark(event)?,
            Statement::Shows { event, sign } => self.show(event, sign, number)?,
        }
        Ok(())
    }
}
