//! The targets of a state, for any haystack.
ghost use Rattle.std.specs.Prelude.{◌≡◌, IfOk, filter_map};
ghost use Rattle.thompson_nfa.specs.Automaton.{node_of};
ghost use Rattle.nfa_paths.specs.StatePaths.{targets};

use regex_search_core::StateID;
use std::alloc::{AllocError, Global};
use thompson_nfa::State;

/// Returns each state that the state may lead to. The only error is that an allocation failed.
#[tactic(auto, unfolding(nfa_paths::specs::StatePaths::targets))]
pub fn targets(alloc: Global, state: &State) -> Result<Vec<StateID>, AllocError>
    ensures { IfOk result (λ found. found.items ≡ targets (node_of state.now)) }
{
    match state {
        State::ByteRange { trans } => Ok(vec![in alloc; trans.next]?),
        State::Sparse(transitions) => transitions.iter().map(|t| t.next).collect(alloc),
        State::Dense(targets) => present(alloc, targets),
        State::Look { next, .. } | State::Capture { next, .. } => Ok(vec![in alloc; *next]?),
        State::Union { alternates } => alternates.clone(),
        State::BinaryUnion { alt1, alt2 } => Ok(vec![in alloc; *alt1, *alt2]?),
        State::Fail | State::Match { .. } => Ok(Vec::new(alloc)),
    }
}

/// The targets that are `Some`.
fn present(alloc: Global, targets: &[Option<StateID>]) -> Result<Vec<StateID>, AllocError>
    ensures { IfOk result (λ found. found.items ≡ filter_map (λ target. target) targets.now) }
{
    targets.iter().filter_map(|target| *target).collect(alloc)
}
