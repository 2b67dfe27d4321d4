// Signs of their own for events that are to be shown.
ghost use Rattle.std.specs.Prelude.{◌≡◌, ℕ, ◌*◌, ◌/◌, ◌<◌, ◌≤◌, length, MatchBool, MatchOption, slice_index};
ghost use Rattle.sensors.specs.Candidates.{chosen};
ghost use Rattle.sensors.specs.Signs.{Given, InUse, Padded, Signed, Unused};

const SIGN_LIMIT: u16 = 256;

// 64 events, two numbers each.
pub const EVENT_NUMBERS: usize = 128;

// The numbers of events, with zeros behind them.
pub fn padded(numbers: &[u16]) -> [u16; EVENT_NUMBERS]
    requires { length numbers.now ≤ 128 }
    ensures { Padded numbers.now result 128 }
{
    let size = numbers.len();
    let mut room = [0; EVENT_NUMBERS];
    room[..size].copy_from_slice(numbers);
    room
}

// Whether some event shows the sign.
fn is_shown(events: &[u16], sign: u16) -> bool
    ensures { MatchBool result (InUse events.now sign) (InUse events.now sign → ⊥) }
{
    (0..events.len() / 2).any(|e| events[2 * e] == sign)
}

// The least sign that no event shows; none if all are in use.
pub fn unused(events: &[u16]) -> Option<u16>
    ensures { MatchOption result ((o : ℕ) → 1 ≤ o → o < 256 → InUse events.now o) (Unused events.now) }
{
    (1..SIGN_LIMIT).find(|sign| !is_shown(events, *sign))
}

// Gives an event a sign that no event shows: 64 events leave some.
fn give(events: &mut [u16], event: u16)
    requires size { length events.old ≡ 128 }
    requires there { event < 64 }
    ensures { Given events.old event events.new }
{
    let sign = unused(events).unwrap();
    events[2 * event as usize] = sign;
}

// Gives each chosen candidate a sign of its own.
pub fn show(events: &mut [u16], candidates: &[u16], marks: &[u8])
    requires size { length events.old ≡ 128 }
    requires there { (i : ℕ) → i < length candidates.now → slice_index candidates.now i < 64 }
    requires marked { length candidates.now ≤ length marks.now }
    ensures { Signed events.old (chosen candidates.now marks.now) events.new }
{
    for (candidate, mark) in candidates.iter().zip(marks) {
        if *mark == 1 {
            give(events, *candidate);
        }
    }
}
