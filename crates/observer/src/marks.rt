// A memory in a lent list of bytes: a mark for each state without a fault, and behind these one for each state with a fault.
ghost use Rattle.std.specs.Prelude.{◌≡◌, ℕ, ◌*◌, ◌<◌, ◌≤◌, length, ◌==◌, slice_index};
ghost use Rattle.sets.specs.Sets.{bit, member};
ghost use Rattle.observer.specs.Entry.{MarkedIn, Written};
ghost use Rattle.observer.specs.Marks.{Exactly};

use crate::memory::Memory;
use sets::StateSet;

// The states that have a mark.
fn read_set(marks: &[u8]) -> StateSet
    requires { length marks.now ≤ 32 }
    ensures { (s : ℕ) → member result.bits s ≡ (slice_index marks.now s == 1) }
{
    let mut set = StateSet::empty();
    for (s, mark) in marks.iter().enumerate() {
        if *mark == 1 {
            set = set.with(s as u16);
        }
    }
    set
}

// A mark for each member, and none for the other states.
fn write_set(set: StateSet, marks: &mut [u8])
    requires { length marks.old ≤ 32 }
    ensures { (s : ℕ) → s < length marks.new → slice_index marks.new s ≡ bit (member set.bits s) }
{
    for (s, mark) in marks.iter_mut().enumerate() {
        *mark = u8::from(set.contains(s as u16));
    }
}

pub fn read(marks: &[u8], states: usize) -> Memory
    requires few { states ≤ 32 }
    requires sized { length marks.now ≡ 2 * states }
    ensures { Exactly result (MarkedIn states marks.now) }
{
    Memory {
        good: read_set(&marks[0..states]),
        bad: read_set(&marks[states..]),
    }
}

pub fn write(memory: Memory, marks: &mut [u8], states: usize)
    requires few { states ≤ 32 }
    requires sized { length marks.old ≡ 2 * states }
    ensures { Written states memory marks.new }
{
    write_set(memory.good, &mut marks[0..states]);
    write_set(memory.bad, &mut marks[states..]);
}
