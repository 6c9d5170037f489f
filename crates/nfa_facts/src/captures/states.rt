//! The states of an NFA with fewer captures.
ghost use Rattle.std.specs.Prelude.{◌≡◌, IfOk, map};
ghost use Rattle.nfa_facts.specs.Kept.{kept_node};
ghost use Rattle.thompson_nfa.specs.Automaton.{node_of};

use std::alloc::{AllocError, Global};
use thompson_nfa::State;

/// Copies the states. A `Capture` of a slot from `count` on becomes a `Union` of one alternative.
pub(crate) fn kept_states(
    alloc: Global,
    states: &[State],
    count: usize,
) -> Result<Vec<State>, AllocError>
    ensures { IfOk result (λ kept. map node_of kept.items ≡ map (λ s. kept_node count (node_of s)) states.now) }
{
    let mut kept = Vec::with_capacity(alloc, states.len())?;
    for state in states {
        kept.push(kept_state(alloc, state, count)?)?;
    }
    Ok(kept)
}

/// Copies the state. A `Capture` of a slot from `count` on becomes a `Union` of one alternative, which leads to the
/// same state.
fn kept_state(alloc: Global, state: &State, count: usize) -> Result<State, AllocError>
    ensures { IfOk result (λ kept. node_of kept ≡ kept_node count (node_of state.now)) }
{
    match state {
        State::Capture { next, slot } if *slot >= count => Ok(State::Union {
            alternates: vec![in alloc; *next]?,
        }),
        _ => state.clone(),
    }
}
