// The entries: a plant judged, or one sign followed, for one sort of faults, over numbers that are lent. They ask nothing of their caller.
ghost use Rattle.std.specs.Prelude.{◌≡◌, length};
ghost use Rattle.plant.specs.Checked.{Answered};
ghost use Rattle.diagnosability.specs.Verdict.{Judges};
ghost use Rattle.observer.specs.Entry.{FollowedRight, WordSays};
ghost use Rattle.sorts.specs.declared.kinds.Faults.TheVariants.{Sort};
ghost use Rattle.sorts.specs.Refusals.{memory_too, room_too};
ghost use Rattle.sorts.specs.Sorts.{plant_of};

use crate::checks::{check, check_memory};
use crate::held::Marked;
use crate::kinds::Faults;
use diagnosability::Verdict;
use observer::Word;
use plant::{Numbers, Refusal};

// Whether every fault of a sort comes out as one of that sort, after how many events, or which runs hide one; the other run may have faults of other sorts. The room is used as for faults altogether.
pub fn judge(numbers: Numbers, sort: u64, room: &mut [u16]) -> Result<Verdict, Refusal>
    ensures { Judges (room_too (Sort sort) numbers.entry.states numbers.entry.arrows.now numbers.entry.events.now (length room.old)) (plant_of (Sort sort) numbers.entry.arrows.now numbers.entry.events.now) room.old result room.new }
{
    judge_for(numbers, Faults::Sort(sort), room)
}

// The same for one sort or for all faults, by what counts as a fault.
pub fn judge_for(numbers: Numbers, faults: Faults, room: &mut [u16]) -> Result<Verdict, Refusal>
    ensures { Judges (room_too faults numbers.entry.states numbers.entry.arrows.now numbers.entry.events.now (length room.old)) (plant_of faults numbers.entry.arrows.now numbers.entry.events.now) room.old result room.new }
{
    check(numbers, faults, room.len() as u64)?;
    let marked = Marked::new(numbers.events, faults);
    diagnosability::judge(marked.numbers(numbers), room)
}

// What is known of a sort after one sign more, with a memory of its own.
pub fn follow(numbers: Numbers, sort: u64, memory: &mut [u8], sign: u64) -> Result<Word, Refusal>
    ensures says { Answered (memory_too (Sort sort) numbers.entry.states numbers.entry.arrows.now numbers.entry.events.now memory.old sign) (λ w. WordSays numbers.entry.states (plant_of (Sort sort) numbers.entry.arrows.now numbers.entry.events.now) memory.old sign w memory.new) (memory.new ≡ memory.old) result }
    ensures known { FollowedRight }
{
    let faults = Faults::Sort(sort);
    check_memory(numbers, faults, memory, sign)?;
    let marked = Marked::new(numbers.events, faults);
    observer::follow(marked.numbers(numbers), memory, sign)
}
