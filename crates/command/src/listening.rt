// Following a plant by words, as they come.
ghost use Rattle.std.specs.Prelude.{◌≡◌, ℕ, ◌+◌, ◌<◌, []};
ghost use Rattle.plant.specs.Model.{model};
ghost use Rattle.observer.specs.Marks.{Right};
ghost use Rattle.command.specs.Lines.{Hears, counted};
ghost use Rattle.command.specs.Signs.{sign_of};

use crate::signs::read_sign;
use observer::{Follower, Word};
use plant::{Plant, Refusal};

// A plant that is followed, and how many words have come.
#[derive(Drop)]
pub struct Listener<'a> {
    follower: Follower<'a>,
    place: u64,
}

impl<'a> Listener<'a> {
    // Before any word.
    pub fn new(plant: Plant<'a>) -> Listener<'a>
        ensures plant { model result.follower.plant ≡ model plant.entry }
        ensures right { Right (model plant.entry) [] result.follower.memory }
        ensures first { result.place ≡ 0 }
    {
        Listener {
            follower: Follower::new(plant),
            place: 0,
        }
    }

    // What is known after one word more, by the sign that it says. An error is why it says none and which word it is, counted from 0; then nothing else has changed.
    pub fn hear(&mut self, word: &[u8]) -> Result<Word, Refusal>
        ensures plant { self.new.follower.plant ≡ self.old.follower.plant }
        ensures hears { Hears (model self.old.follower.plant) (sign_of self.old.place word.now) self.old.follower.memory self.new.follower.memory result }
        ensures next { self.new.place ≡ counted self.old.place }
    {
        let place = self.place;
        self.place = place.saturating_add(1);
        let sign = read_sign(word, place)?;
        Ok(self.follower.sign(sign))
    }
}
