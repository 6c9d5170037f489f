//! Functions that add states after others.
ghost use Rattle.std.specs.Prelude.{◌≡◌, ◌<◌, ◌++◌, ◌∷◌, [], All, IfErr, IfOk, OnOk, map, vec_len};
ghost use Rattle.thompson_nfa.specs.Automaton.{node_of};
ghost use Rattle.nfa_compiler.specs.Blocks.{Adds, KeepsInRange};
ghost use Rattle.nfa_compiler.specs.Compiled.{Chooses};
ghost use Rattle.nfa_compiler.specs.Rejected.{IsOfNoPattern};

use crate::error::CompileError;
use regex_search_core::StateID;
use std::alloc::Global;
use thompson_nfa::{State, Transition};

/// Adds the state, and returns its number.
pub(crate) fn push(states: &mut Vec<State>, state: State) -> Result<StateID, CompileError>
    ensures number { IfOk result (λ number. number ≡ vec_len states.old) }
    ensures nodes { OnOk result (map node_of states.new.items ≡ map node_of states.old.items ++ node_of state ∷ []) }
    ensures fails { IfErr result IsOfNoPattern }
{
    let id = StateID::new(states.len()).ok_or(CompileError::TooManyStates)?;
    states.push(state)?;
    Ok(id)
}

/// Adds a state that leads to each of these starts, with earlier ones preferred. For one start it adds no state.
pub(crate) fn choice(
    alloc: Global,
    states: &mut Vec<State>,
    starts: &[StateID],
) -> Result<StateID, CompileError>
    requires { All (λ s. s < vec_len states.old) starts.now }
    ensures chooses { IfOk result (λ state. Chooses (map node_of states.new.items) state starts.now) }
    ensures within { IfOk result (λ state. state < vec_len states.new) }
    ensures added { OnOk result (Adds (map node_of states.old.items) (map node_of states.new.items)) }
    ensures range { OnOk result (KeepsInRange (map node_of states.old.items) (map node_of states.new.items)) }
    ensures fails { IfErr result IsOfNoPattern }
{
    if let [one] = starts {
        return Ok(*one);
    }
    let alternates = Vec::from_slice(alloc, starts)?;
    push(states, State::Union { alternates })
}

/// Adds a loop that skips bytes before `start`, and prefers not to skip.
pub(crate) fn prefix(states: &mut Vec<State>, start: StateID) -> Result<StateID, CompileError>
    requires { start < vec_len states.old }
    ensures number { IfOk result (λ number. number ≡ vec_len states.old) }
    ensures within { IfOk result (λ number. number < vec_len states.new) }
    ensures added { OnOk result (Adds (map node_of states.old.items) (map node_of states.new.items)) }
    ensures range { OnOk result (KeepsInRange (map node_of states.old.items) (map node_of states.new.items)) }
    ensures fails { IfErr result IsOfNoPattern }
{
    let prefix = StateID::new(states.len()).ok_or(CompileError::TooManyStates)?;
    let skip = StateID::new(states.len().saturating_add(1)).ok_or(CompileError::TooManyStates)?;
    push(
        states,
        State::BinaryUnion {
            alt1: start,
            alt2: skip,
        },
    )?;
    push(
        states,
        State::ByteRange {
            trans: Transition {
                start: 0x00,
                end: 0xFF,
                next: prefix,
            },
        },
    )?;
    Ok(prefix)
}
