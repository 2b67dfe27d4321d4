// The lines of a picture.
ghost use Rattle.std.specs.Prelude.{◌≡◌, map, Some, string_bytes, slice_index_or};
ghost use Rattle.drawing.specs.Drawn.{kind};
ghost use Rattle.picture.specs.Pictures.{edge_line, label, no_kind, picture, style};

use crate::edges::Edge;
use drawing::Event;
use std::fmt;
use wording::name_of;

#[derive(Clone, Copy)]
struct Label<'a> {
    name: &'a str,
    sign: u64,
}

impl fmt::Display for Label<'_> {
    ghost output = { λ x. Some (label x.name.now x.sign) };

    fn fmt<W: fmt::Write>(&self, f: &mut fmt::Formatter<W>) -> fmt::Result {
        let name = self.name;
        let sign = self.sign;
        if sign == 0 {
            write!(f, "{name}")
        } else {
            write!(f, "{name} / {sign}")
        }
    }
}

fn style_of(silent: bool, fault: bool) -> &'static str
    ensures { result.now ≡ style silent fault }
{
    match (silent, fault) {
        (false, false) => "solid",
        (true, false) => "dotted",
        (false, true) => "bold",
        (true, true) => "dashed",
    }
}

// The event of that number, one that shows nothing if there are not as many.
fn event_of(events: &[Event], event: usize) -> Event
    ensures { kind result ≡ slice_index_or (map kind events.now) event no_kind }
{
    events.get(event).copied().unwrap_or_default()
}

// The line of an edge, by the names of all events and the events.
#[derive(Clone, Copy)]
struct Line<'a> {
    names: &'a [String],
    events: &'a [Event],
    edge: Edge,
}

impl fmt::Display for Line<'_> {
    ghost output = { λ x. Some (edge_line (map string_bytes x.names.now) (map kind x.events.now) x.edge) };

    fn fmt<W: fmt::Write>(&self, f: &mut fmt::Formatter<W>) -> fmt::Result {
        let arrow = self.edge.arrow;
        let from = arrow.from;
        let to = arrow.to;
        let event = event_of(self.events, arrow.event);
        let sign = event.shown();
        let label = Label {
            name: name_of(self.names, arrow.event),
            sign,
        };
        let style = style_of(sign == 0, event.fault);
        let tint = self.edge.tint;
        write!(
            f,
            "  {from} -> {to} [label=\"{label}\", style={style}, color=\"{tint}\"];\n"
        )
    }
}

// A plant as a text for Graphviz, with a title.
#[derive(Clone, Copy)]
pub struct Picture<'a> {
    pub names: &'a [String],
    pub events: &'a [Event],
    pub edges: &'a [Edge],
    pub title: &'a str,
}

impl fmt::Display for Picture<'_> {
    ghost output = { λ x. Some (picture (map string_bytes x.names.now) (map kind x.events.now) x.edges.now x.title.now) };

    fn fmt<W: fmt::Write>(&self, f: &mut fmt::Formatter<W>) -> fmt::Result {
        let title = self.title;
        write!(
            f,
            "digraph plant {{\n  rankdir=LR;\n  label=\"{title}\";\n  node [shape=circle];\n  start [shape=point];\n  start -> 0;\n"
        )?;
        for edge in self.edges {
            let line = Line {
                names: self.names,
                events: self.events,
                edge: *edge,
            };
            write!(f, "{line}")?;
        }
        write!(f, "}}\n")
    }
}
