// Which arrows a run goes along. A row has only events: where several arrows fit, those are taken that lead to the run's end.
ghost use Rattle.std.specs.Prelude.{◌≡◌, map};
ghost use Rattle.picture.specs.Pictures.{arrow_of};

use crate::edges::{Edge, Tint};
use drawing::Arrow;
use sets::StateSet;
use std::alloc::{AllocError, Global};

// A run from state 0 and a way round from its end, as events with the latest first.
#[derive(Clone, Copy)]
pub struct Lasso<'a> {
    pub run: &'a [u16],
    pub round: &'a [u16],
}

fn has(states: StateSet, state: u64) -> bool {
    state < 32 && states.contains(state as u16)
}

fn add(states: StateSet, state: u64) -> StateSet {
    if state < 32 {
        states.with(state as u16)
    } else {
        states
    }
}

fn only(state: u64) -> StateSet {
    add(StateSet::empty(), state)
}

// Where the event leads from these states, if arrows go as the closure says.
fn led<F: Fn(Arrow) -> (u64, u64)>(
    edges: &[Edge],
    states: StateSet,
    event: u16,
    goes: F,
) -> StateSet
    requires { F.IsAlwaysCallable goes }
{
    let mut next = StateSet::empty();
    for edge in edges {
        let (from, to) = goes(edge.arrow);
        if edge.arrow.event == event as usize && has(states, from) {
            next = add(next, to);
        }
    }
    next
}

// Where the event leads from these states.
fn after(edges: &[Edge], states: StateSet, event: u16) -> StateSet {
    led(edges, states, event, |arrow| (arrow.from, arrow.to))
}

// From where the event leads to one of these states.
fn before(edges: &[Edge], states: StateSet, event: u16) -> StateSet {
    led(edges, states, event, |arrow| (arrow.to, arrow.from))
}

// Where a row leads from a state.
fn ends(edges: &[Edge], from: u64, row: &[u16]) -> StateSet {
    row.iter()
        .rev()
        .fold(only(from), |states, event| after(edges, states, *event))
}

// A state that the run leads to and the way round leads back to.
fn knot(edges: &[Edge], lasso: Lasso) -> Option<u64> {
    ends(edges, 0, lasso.run)
        .into_iter()
        .map(u64::from)
        .find(|state| has(ends(edges, *state, lasso.round), *state))
}

// For each number of events, the latest of a row, the states from which they lead to that state.
fn ways_to(
    heap: Global,
    edges: &[Edge],
    row: &[u16],
    to: u64,
) -> Result<Vec<StateSet>, AllocError> {
    let mut states = only(to);
    let mut ways = Vec::new(heap);
    for event in row {
        ways.push(states)?;
        states = before(edges, states, *event);
    }
    Ok(ways)
}

// Tints the first arrow of that event from a state to one of those, and tells where it leads.
fn mark_step(edges: &mut [Edge], from: u64, event: u16, to: StateSet, run: Tint) -> u64
    ensures { map arrow_of edges.new ≡ map arrow_of edges.old }
{
    let fits = |edge: &Edge| {
        let arrow = edge.arrow;
        arrow.from == from && arrow.event == event as usize && has(to, arrow.to)
    };
    let Some(i) = edges.iter().position(fits) else {
        return from;
    };
    edges[i].tint = edges[i].tint.with(run);
    edges[i].arrow.to
}

// Tints the arrows of a run between two states.
fn mark_run(
    heap: Global,
    edges: &mut [Edge],
    from: u64,
    row: &[u16],
    to: u64,
    run: Tint,
) -> Result<(), AllocError>
    ensures { map arrow_of edges.new ≡ map arrow_of edges.old }
{
    let ways = ways_to(heap, edges, row, to)?;
    let mut at = from;
    for (event, way) in row.iter().zip(&ways).rev() {
        at = mark_step(edges, at, *event, *way, run);
    }
    Ok(())
}

// Tints each arrow that the run or its way round goes along.
pub(crate) fn mark(
    heap: Global,
    edges: &mut [Edge],
    lasso: Lasso,
    run: Tint,
) -> Result<(), AllocError>
    ensures { map arrow_of edges.new ≡ map arrow_of edges.old }
{
    if let Some(end) = knot(edges, lasso) {
        mark_run(heap, edges, 0, lasso.run, end, run)?;
        mark_run(heap, edges, end, lasso.round, end, run)?;
    }
    Ok(())
}
