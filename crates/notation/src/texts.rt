// The lines of a drawing: the events by number, and then the arrows.
ghost use Rattle.std.specs.Prelude.{◌≡◌, ◌++◌, map, length, IfOk, Ok, string_bytes, OnOk};
ghost use Rattle.std.specs.List.{flat_map};
ghost use Rattle.drawing.specs.Drawn.{drawn, kind};
ghost use Rattle.drawing.specs.Fine.{GoBy};
ghost use Rattle.drawing.specs.Reads.{reading};
ghost use Rattle.notation.specs.Written.{all_events, arrow_line, written};

use drawing::{Arrow, Drawing, Event};
use std::alloc::Global;
use std::fmt;

// The first line of an event names it, so that events come in their order.
fn write_events(out: &mut String, names: &[String], events: &[Event]) -> fmt::Result
    ensures { OnOk result (string_bytes out.new ≡ string_bytes out.old ++ all_events (map string_bytes names.now) (map kind events.now)) }
{
    for (name, event) in names.iter().zip(events) {
        let name = name.as_str();
        let sign = event.shown();
        write!(out, "{name} shows {sign}\n")?;
        if event.fault {
            write!(out, "{name} fault\n")?;
        }
    }
    Ok(())
}

fn write_arrows(out: &mut String, names: &[String], arrows: &[Arrow]) -> fmt::Result
    requires { GoBy (length names.now) arrows.now }
    ensures { OnOk result (string_bytes out.new ≡ string_bytes out.old ++ flat_map (arrow_line (map string_bytes names.now)) arrows.now) }
{
    for a in arrows {
        let from = a.from;
        let name = names[a.event].as_str();
        let to = a.to;
        write!(out, "{from} {name} {to}\n")?;
    }
    Ok(())
}

// A text that reads as the drawing. An error is want of memory.
pub fn write(heap: Global, d: &Drawing) -> Result<String, fmt::Error>
    ensures text { IfOk result (λ s. string_bytes s ≡ written (drawn d.now)) }
    ensures back { IfOk result (λ s. reading (string_bytes s) ≡ Ok (drawn d.now)) }
{
    let mut out = String::new(heap);
    write_events(&mut out, d.names(), d.events())?;
    write_arrows(&mut out, d.names(), d.arrows())?;
    Ok(out)
}
