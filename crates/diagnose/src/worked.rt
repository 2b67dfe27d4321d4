// The built-in worked plants. Event 0 is a fault and shows nothing, 1 shows 1, 2 shows 2.
use plant::Numbers;
use std::alloc::{AllocError, Global};

const EVENTS: &[u16] = &[0, 1, 1, 0, 2, 0];

// The names of their events.
pub fn names(heap: Global) -> Result<Vec<String>, AllocError> {
    let mut names = Vec::new(heap);
    for name in ["break", "one", "two"] {
        names.push(String::from_str(heap, name)?)?;
    }
    Ok(names)
}

fn with_events(states: u64, arrows: &'static [u16]) -> Numbers<'static> {
    Numbers {
        states,
        arrows,
        events: EVENTS,
    }
}

// The plant of that name.
pub fn find(name: &str) -> Option<Numbers<'static>> {
    Some(match name {
        // Behind the fault 1 is shown once more, and then only 2.
        "told" => with_events(3, &[0, 0, 1, 1, 1, 2, 2, 2, 2, 0, 1, 0]),
        // Behind the fault only 1 is shown, as before it.
        "untold" => with_events(2, &[0, 0, 1, 1, 1, 1, 0, 1, 0]),
        // As `told`, with 1 shown twice more.
        "later" => with_events(4, &[0, 0, 1, 1, 1, 2, 2, 1, 3, 3, 2, 3, 0, 1, 0]),
        // No fault can happen.
        "sound" => with_events(2, &[0, 1, 0, 0, 2, 1]),
        // Nothing comes after the fault.
        "still" => with_events(2, &[0, 0, 1, 0, 1, 0]),
        // One event comes after the fault.
        "brief" => with_events(3, &[0, 0, 1, 1, 1, 2, 0, 1, 0]),
        // The last arrow leads to a state that is not there.
        "broken" => with_events(2, &[0, 0, 1, 0, 1, 2]),
        _ => return None,
    })
}
