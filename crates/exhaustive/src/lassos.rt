// Hidden pairs: rows of events, walked along the arrows.
use bare::{Plant, Set};

// A run from state 0 and a way round from where it has come, each with its latest event first.
#[derive(Clone, Copy)]
pub struct Lasso<'a> {
    pub run: &'a [u16],
    pub round: &'a [u16],
}

impl Lasso<'_> {
    // Whether the run leads to a state to which the way round comes back, once and again.
    fn goes_round(self, plant: Plant) -> bool {
        let ends = plant.walk(Set::one(0), self.run);
        (0..plant.states).any(|state| {
            let once = plant.walk(Set::one(state), self.round);
            let twice = plant.walk(once, self.round);
            ends.has(state) && once.has(state) && twice.has(state)
        })
    }
}

// Whether the first is a run with a fault and the second one without, that show the same for ever.
pub fn is_hidden_pair(plant: Plant, bad: Lasso, good: Lasso) -> bool {
    let told_by_faults = plant.has_fault(bad.run)
        && !plant.has_fault(good.run)
        && !plant.has_fault(good.round);
    let alike = plant.show_the_same(bad.run, good.run)
        && plant.show_the_same(bad.round, good.round);
    told_by_faults
        && alike
        && !bad.round.is_empty()
        && bad.goes_round(plant)
        && good.goes_round(plant)
}
