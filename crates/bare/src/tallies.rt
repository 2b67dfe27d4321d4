// What answers were met.

// An answer is not what all tries show.
#[derive(Clone, Copy)]
pub struct Differs;

// How many plants of each kind were met: by the number that was answered, below N, or with none.
#[derive(Clone, Copy)]
pub struct Tally<const N: usize> {
    pub numbers: [u32; N],
    pub none: u32,
}

impl<const N: usize> Tally<N> {
    pub fn new() -> Tally<N> {
        Tally {
            numbers: [0; N],
            none: 0,
        }
    }

    pub fn add(&mut self, number: Option<u32>) {
        match number {
            Some(number) => {
                if let Some(count) = self.numbers.get_mut(number as usize) {
                    *count = count.saturating_add(1);
                }
            }
            None => self.none = self.none.saturating_add(1),
        }
    }
}
