// A number for each event, with how many signs there are among them.
ghost use Rattle.labelling.specs.Trials.{Written};
ghost use Rattle.std.specs.Prelude.{◌≡◌, ◌/◌, ◌%◌, ◌<◌, ◌≤◌, ◌==◌, max, length, take, replicate, if◌then◌else◌, slice_index, slice_set};

use std::array::from_fn;

// What an event shows, 0 being nothing; behind the last event there are zeros.
// An array and no `ArrayVec`: it is copied into each call of the search, which an `ArrayVec` is not.
#[derive(Clone, Copy)]
pub struct Row {
    pub labels: [u16; 64],
    pub signs: u16,
}

impl Row {
    // Every event shows nothing, which is no sign.
    pub fn nothing() -> Row
        ensures labels { result.labels ≡ replicate 64 0 }
        ensures signs { result.signs ≡ 0 }
    {
        Row {
            labels: [0; 64],
            signs: 0,
        }
    }

    // With the event's number: nothing, a sign in use, or the next one.
    pub fn with(self, event: usize, label: u16) -> Row
        requires { event < 64 }
        ensures labels { result.labels ≡ slice_set self.labels event label }
        ensures signs { result.signs ≡ max self.signs label }
    {
        let mut labels = self.labels;
        labels[event] = label;
        Row {
            labels,
            signs: self.signs.max(label),
        }
    }

    // Leaves the first numbers.
    pub fn write(self, row: &mut [u16])
        requires { length row.old ≤ 64 }
        ensures { row.new ≡ take (length row.old) self.labels }
    {
        row.copy_from_slice(&self.labels[..row.len()]);
    }

    // Number `k` of the events with these numbers in place of theirs: signs have even places, and behind the last event there are zeros.
    fn number(self, events: &[u16], k: usize) -> u16
        requires { k < 128 }
        ensures { result ≡ (if k % 2 == 0 then slice_index self.labels (k / 2) else slice_index events.now k) }
    {
        if k % 2 == 0 {
            self.labels[k / 2]
        } else {
            events.get(k).copied().unwrap_or(0)
        }
    }

    // The events with these numbers in place of theirs.
    pub fn relabel(self, events: &[u16]) -> [u16; 128]
        requires { length events.now ≤ 128 }
        ensures { Written events.now self.labels result }
    {
        from_fn(|k| self.number(events, k))
    }
}
