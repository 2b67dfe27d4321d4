// Following a plant sign by sign, with the memory kept.
ghost use Rattle.std.specs.Prelude.{◌≡◌, ℕ, ◌≤◌, List, [], ◌∷◌};
ghost use Rattle.plant.specs.Model.{model};
ghost use Rattle.observer.specs.Marks.{Right};
ghost use Rattle.observer.specs.Words.{FollowedTo, Heard, Said};

use crate::memory::Memory;
use crate::words::Word;
use plant::Plant;

// A plant and what may be after the signs so far. It is made right after no signs, so there are always signs after which it is right.
#[derive(Drop)]
pub struct Follower<'a> {
    plant: Plant<'a>,
    memory: Memory,
}

impl<'a> Follower<'a> {
    // Before any sign.
    pub fn new(plant: Plant<'a>) -> Follower<'a>
        ensures plant { result.plant ≡ plant.entry }
        ensures right { Right (model plant.entry) [] result.memory }
    {
        Follower {
            plant,
            memory: Memory::begin(plant),
        }
    }

    // Begins anew.
    pub fn begin(&mut self) -> Word
        ensures plant { self.new.plant ≡ self.old.plant }
        ensures begun { FollowedTo (model self.old.plant) [] self.new.memory result }
    {
        self.memory = Memory::begin(self.plant);
        self.word()
    }

    // Goes on by a sign; 0 is none, and begins anew.
    pub fn sign(&mut self, sign: u8) -> Word
        ensures plant { self.new.plant ≡ self.old.plant }
        ensures heard { Heard (model self.old.plant) sign self.old.memory self.new.memory result }
    {
        if sign == 0 {
            return self.begin();
        }
        self.memory = self.memory.after(self.plant, sign);
        self.word()
    }

    // What is known after the signs so far.
    pub fn word(&self) -> Word
        ensures { (os : List ℕ) → Right (model self.now.plant) os self.now.memory → Said (model self.now.plant) os result }
    {
        self.memory.word()
    }
}
