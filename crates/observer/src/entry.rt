// The entry: one sign followed over numbers that are lent. It asks nothing of its caller.
ghost use Rattle.std.specs.Prelude.{◌≡◌, ℕ, ◌*◌, ◌<◌, length, nat_lt, position};
ghost use Rattle.plant.specs.Checked.{Answered, behaviour, checked};
ghost use Rattle.plant.specs.Model.{model};
ghost use Rattle.observer.specs.Entry.{FollowedRight, LeadsTo, WordSays};
ghost use Rattle.observer.specs.Marks.{Exactly};
ghost use Rattle.observer.specs.Refusals.{follow_refusal, marks_refusal, sign_refusal};

use crate::marks;
use crate::memory::Memory;
use crate::words::Word;
use plant::{Numbers, Plant, Refusal};

// The place of the first mark above 1.
fn first_above_one(marks: &[u8]) -> Option<usize>
    ensures { result ≡ position (λ x. nat_lt 1 x) marks.now }
{
    marks.iter().position(|mark| *mark > 1)
}

// Not two marks for each state, or a mark above 1.
fn check_marks(states: u64, marks: &[u8]) -> Result<(), Refusal>
    ensures { result ≡ checked (marks_refusal states marks.now) }
{
    let length = marks.len() as u64;
    if length % 2 != 0 || length / 2 != states {
        return Err(Refusal::Memory(length));
    }
    match first_above_one(marks) {
        Some(place) => Err(Refusal::Memory(place as u64)),
        None => Ok(()),
    }
}

// A sign above 255. A caller that has a row of signs names the place in its row.
fn check_sign(sign: u64) -> Result<(), Refusal>
    ensures { result ≡ checked (sign_refusal sign) }
{
    if sign > 255 {
        return Err(Refusal::Memory(0));
    }
    Ok(())
}

// Whether a sign can be followed over these numbers: an error is the first rule that turns them away.
pub fn check(numbers: Numbers, memory: &[u8], sign: u64) -> Result<(), Refusal>
    ensures { result ≡ checked (follow_refusal numbers.entry.states numbers.entry.arrows.now numbers.entry.events.now memory.now sign) }
{
    plant::check(numbers)?;
    check_marks(numbers.states, memory)?;
    check_sign(sign)
}

// The marks to which the sign leads from those that are lent. They may be any, so they are closed before the sign too.
fn next(plant: Plant, marks: &[u8], sign: u8) -> Memory
    requires { length marks.now ≡ 2 * plant.states }
    ensures { Exactly result (LeadsTo plant.entry.states (model plant.entry) marks.now sign) }
{
    if sign == 0 {
        return Memory::begin(plant);
    }
    marks::read(marks, plant.states() as usize)
        .closure(plant)
        .after(plant, sign)
}

// The sign followed, the memory being of the plant's size.
fn go_on(plant: Plant, memory: &mut [u8], sign: u8) -> Word
    requires { length memory.old ≡ 2 * plant.states }
    ensures { WordSays plant.entry.states (model plant.entry) memory.old sign result memory.new }
{
    let marks = next(plant, memory, sign);
    marks::write(marks, memory, plant.states() as usize);
    marks.word()
}

// What is known after one sign more: the memory is what may be, two marks for each state, and is left as what may be then. Sign 0 begins anew.
// An error is the first rule that turns the numbers away, and then the memory stays as it was.
pub fn follow(numbers: Numbers, memory: &mut [u8], sign: u64) -> Result<Word, Refusal>
    ensures says { Answered (follow_refusal numbers.entry.states numbers.entry.arrows.now numbers.entry.events.now memory.old sign) (λ w. WordSays numbers.entry.states (behaviour numbers.entry) memory.old sign w memory.new) (memory.new ≡ memory.old) result }
    ensures known { FollowedRight }
{
    check(numbers, memory, sign)?;
    Ok(go_on(Plant::new(numbers), memory, sign as u8))
}
