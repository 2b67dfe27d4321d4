// Random numbers that are the same at every run, for the programs that try what they make: Marsaglia's xorshift.
#![tactic(auto)]

ghost use Rattle.std.specs.Prelude.{◌<◌, ◌≡◌, ◌≢◌, [], Contains};

#[derive(Drop)]
pub struct Random {
    state: u64,
}

// What the programs begin with, so that they make the same at every run.
impl Default for Random {
    fn default() -> Random {
        Random::new(0x9e37_79b9_7f4a_7c15)
    }
}

impl Random {
    // The seed must not be 0, which a xorshift never leaves.
    pub fn new(seed: u64) -> Random {
        Random { state: seed }
    }

    fn next(&mut self) -> u64 {
        let mut x = self.state;
        x ^= x << 13;
        x ^= x >> 7;
        x ^= x << 17;
        self.state = x;
        x
    }

    // A number below the bound, or 0 if there is none.
    // No Option, which would be no plainer: all bounds here are above 0 but a list's length, and of no items there is none at place 0.
    pub fn below(&mut self, bound: u16) -> u16
        ensures { 0 < bound → result < bound }
    {
        // The lowest bits of a xorshift are its weakest.
        let high = self.next() >> 20;
        let number = high.checked_rem(u64::from(bound)).unwrap_or(0);
        u16::try_from(number).unwrap_or(0)
    }

    // A number from the least to the most.
    pub fn between(&mut self, least: u16, most: u16) -> u16 {
        let count = most.saturating_sub(least).saturating_add(1);
        least.saturating_add(self.below(count))
    }

    pub fn one_in(&mut self, n: u16) -> bool {
        self.below(n) == 0
    }

    // One of the items, or their type's default if there are none.
    pub fn pick<T: Copy + Default>(&mut self, items: &[T]) -> T
        ensures among { items.now ≢ [] → Contains items.now result }
        ensures empty { items.now ≡ [] → T.is_default result }
    {
        let place = self.place(items.len());
        items.get(place).copied().unwrap_or_default()
    }

    // One of the items to be written, if there is one.
    pub fn pick_mut<'a, T>(&mut self, items: &'a mut [T]) -> Option<&'a mut T> {
        let place = self.place(items.len());
        items.get_mut(place)
    }

    // A place in a list of that length.
    pub fn place(&mut self, length: usize) -> usize
        ensures { 0 < length → result < length }
    {
        usize::from(self.below(u16::try_from(length).unwrap_or(u16::MAX)))
    }
}
