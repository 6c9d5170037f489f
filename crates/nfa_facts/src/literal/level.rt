//! The bytes that are read at one distance from where matches start, and the states from which they are read.
ghost use Rattle.std.specs.Prelude.{◌≡◌, ℕ, ◌<◌, IfOk, OnOk, length, true};
ghost use Rattle.thompson_nfa.specs.Automaton.{node_of};
ghost use Rattle.thompson_nfa.specs.Automaton.Node.{ByteRange, Dense, Sparse};
ghost use Rattle.nfa_paths.specs.Graphs.{In};
ghost use Rattle.nfa_paths.specs.Paths.{holds_byte, node_at, reads_byte};
ghost use Rattle.nfa_facts.specs.Reached.{AddsTo};
ghost use Rattle.nfa_facts.specs.Levels.{Grows, Has, HasBytes, IsFilled};

use crate::literal::reached::ReachedStates;
use crate::literal::walk::is_match;
use regex_search_core::StateID;
use std::alloc::AllocError;
use thompson_nfa::{NFA, State, Transition};

/// The most states that are followed at one distance.
const MAX_STATES: usize = 64;

/// Follows the states up to those that read a byte: adds the bytes to the level, and the states that they lead to, to
/// `next`. Returns false if a match is reached, or more than 64 states.
pub fn fill(
    nfa: &NFA,
    here: &mut ReachedStates,
    next: &mut ReachedStates,
    level: &mut [bool; 256],
) -> Result<bool, AllocError>
    requires here { here.old.room ≡ length nfa.now.states }
    requires next { next.old.room ≡ length nfa.now.states }
    ensures room { next.new.room ≡ length nfa.now.states }
    ensures adds { OnOk result (AddsTo here.old.states here.new.states) }
    ensures filled { IfOk result (λ all. all ≡ true → (s : ℕ) → In s here.new.states
        → IsFilled here.new.states next.new.states level.new (node_at nfa.now s)) }
{
    for done in 0..MAX_STATES {
        if done == here.len() {
            return Ok(true);
        }
        let state = here.state(done);
        let is_plain = follow(nfa, state, here, next, level)?;
        if !is_plain {
            return Ok(false);
        }
    }
    Ok(false)
}

/// Follows the state. Returns false if it is a match.
fn follow(
    nfa: &NFA,
    id: StateID,
    here: &mut ReachedStates,
    next: &mut ReachedStates,
    level: &mut [bool; 256],
) -> Result<bool, AllocError>
    requires here { here.old.room ≡ length nfa.now.states }
    requires next { next.old.room ≡ length nfa.now.states }
    requires below { id < length nfa.now.states }
    ensures here_room { here.new.room ≡ here.old.room }
    ensures next_room { next.new.room ≡ next.old.room }
    ensures here_adds { OnOk result (AddsTo here.old.states here.new.states) }
    ensures next_adds { OnOk result (AddsTo next.old.states next.new.states) }
    ensures grows { OnOk result (Grows level.old level.new) }
    ensures filled { IfOk result (λ plain. plain ≡ true
        → IsFilled here.new.states next.new.states level.new (node_at nfa.now id)) }
{
    let state = nfa.state(id);
    if is_match(state) {
        return Ok(false);
    }
    if reads_byte(state) {
        admit_bytes(level, state);
        next.follow(state, None)?;
        return Ok(true);
    }
    here.follow(state, None)?;
    Ok(true)
}

/// Whether the state reads a byte.
fn reads_byte(state: &State) -> bool
    ensures { result ≡ reads_byte (node_of state.now) }
{
    match state {
        State::ByteRange { .. } | State::Sparse(_) | State::Dense(_) => true,
        _ => false,
    }
}

/// Adds the bytes that the state reads.
fn admit_bytes(level: &mut [bool; 256], state: &State)
    ensures grows { Grows level.old level.new }
    ensures has { HasBytes level.new (node_of state.now) }
{
    match state {
        State::ByteRange { trans } => admit(level, trans),
        State::Sparse(transitions) => admit_all(level, transitions),
        State::Dense(targets) => admit_targets(level, targets),
        _ => (),
    }
}

/// Adds the bytes of the transition.
fn admit(level: &mut [bool; 256], trans: &Transition)
    ensures grows { Grows level.old level.new }
    ensures has { (b : ℕ) → holds_byte trans.now b ≡ true → Has level.new b }
{
    for byte in trans.start as usize..trans.end as usize + 1 {
        level[byte] = true;
    }
}

/// Adds the bytes of the transitions.
fn admit_all(level: &mut [bool; 256], transitions: &[Transition])
    ensures grows { Grows level.old level.new }
    ensures has { HasBytes level.new (Sparse transitions.now) }
{
    for trans in transitions {
        admit(level, trans);
    }
}

/// Adds the bytes that have a target.
fn admit_targets(level: &mut [bool; 256], targets: &[Option<StateID>])
    ensures grows { Grows level.old level.new }
    ensures has { HasBytes level.new (Dense targets.now) }
{
    for byte in 0..256 {
        if let Some(Some(_)) = targets.get(byte) {
            level[byte] = true;
        }
    }
}
