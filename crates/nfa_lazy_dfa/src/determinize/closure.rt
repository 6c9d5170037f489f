//! The closure of a list of states, and the step over a byte.
ghost use Rattle.std.specs.Prelude.{◌≡◌, ◌<◌, ◌≤◌, ◌++◌, All, IfOk, OnOk, length, option_map, reverse, take};
ghost use Rattle.regex_search_core.specs.PatternSets.{number_of};
ghost use Rattle.thompson_nfa.specs.Automaton.{node_of};
ghost use Rattle.nfa_paths.specs.Paths.{pattern_of, rests};
ghost use Rattle.nfa_lazy_dfa.specs.Closures.{before_first_match, closure, epsilon_states, first_pattern};
ghost use Rattle.nfa_lazy_dfa.specs.Closures.{holding_at, kept, last_pattern, pattern_by_kind, step};

use nfa_scan_core::marks::{none_seen, see};
use nfa_scan_core::transitions::target;
use regex_search_core::{MatchKind, PatternID, StateID};
use std::alloc::{AllocError, Global};
use thompson_nfa::{NFA, State, look_matches};

/// Returns the closure of the states at a position of the haystack: what they lead to without a byte, each state once,
/// in order of priority.
///
/// The caller must ensure that each state is one of the NFA's. The error is that an allocation failed.
#[tactic(auto, using(crate::proofs::ClosureLemmas::closure_ends))]
pub fn closure(
    alloc: Global,
    nfa: &NFA,
    haystack: &[u8],
    at: usize,
    states: &[StateID],
) -> Result<Vec<StateID>, AllocError>
    requires at { at ≤ length haystack.now }
    requires states { All (λ s. s < length nfa.now.states) states.now }
    ensures closure { IfOk result (λ made. made.items ≡ closure nfa.now (holding_at haystack.now at) states.now) }
    ensures below { IfOk result (λ made. All (λ s. s < length nfa.now.states) made.items) }
{
    let mut seen = none_seen(alloc, nfa)?;
    let mut waiting = Vec::new(alloc);
    push_reversed(&mut waiting, states)?;
    let mut kept = Vec::new(alloc);
    while let Some(sid) = waiting.pop() {
        if see(&mut seen, sid) {
            let state = nfa.state(sid);
            if rests(state) {
                kept.push(sid)?;
            } else {
                push_epsilon_states(haystack, at, state, &mut waiting)?;
            }
        }
    }
    Ok(kept)
}

/// Whether the state is a byte state, a `Fail` or a `Match`.
fn rests(state: &State) -> bool
    ensures { result ≡ rests (node_of state.now) }
{
    match state {
        State::Look { .. } | State::Capture { .. } => false,
        State::Union { .. } | State::BinaryUnion { .. } => false,
        _ => true,
    }
}

/// Puts the states on top of those that wait, the first one on top.
fn push_reversed(waiting: &mut Vec<StateID>, states: &[StateID]) -> Result<(), AllocError>
    ensures { OnOk result (waiting.new.items ≡ waiting.old.items ++ reverse states.now) }
{
    let mut left = states.len();
    while left > 0 {
        left -= 1;
        waiting.push(states[left])?;
    }
    Ok(())
}

/// Puts the states that the state leads to without a byte on top of those that wait, the first one on top.
fn push_epsilon_states(
    haystack: &[u8],
    at: usize,
    state: &State,
    waiting: &mut Vec<StateID>,
) -> Result<(), AllocError>
    requires { at ≤ length haystack.now }
    ensures { OnOk result (waiting.new.items
        ≡ waiting.old.items ++ reverse (epsilon_states (holding_at haystack.now at) (node_of state.now))) }
{
    match state {
        State::Look { look, next } => {
            if look_matches(*look, haystack, at) {
                waiting.push(*next)?;
            }
            Ok(())
        }
        State::Union { alternates } => push_reversed(waiting, alternates),
        State::BinaryUnion { alt1, alt2 } => {
            waiting.push(*alt2)?;
            waiting.push(*alt1)?;
            Ok(())
        }
        State::Capture { next, .. } => {
            waiting.push(*next)?;
            Ok(())
        }
        _ => Ok(()),
    }
}

/// Returns the states that the byte leads to, in order. A state is in the list twice if two states lead to it. Without
/// a byte there are none.
///
/// The caller must ensure that each state is one of the NFA's. The error is that an allocation failed.
pub fn step(
    alloc: Global,
    nfa: &NFA,
    byte: Option<u8>,
    states: &[StateID],
) -> Result<Vec<StateID>, AllocError>
    requires { All (λ s. s < length nfa.now.states) states.now }
    ensures step { IfOk result (λ made. made.items ≡ step nfa.now byte states.now) }
    ensures below { IfOk result (λ made. All (λ s. s < length nfa.now.states) made.items) }
{
    let mut next = Vec::new(alloc);
    for sid in states {
        if let Some(target) = target(nfa.state(*sid), byte) {
            next.push(target)?;
        }
    }
    Ok(next)
}

/// Returns the pattern that matches at a position with this closure: of the first `Match`, or for `All` of the last.
///
/// The caller must ensure that each state is one of the NFA's.
pub fn pattern_by_kind(nfa: &NFA, kind: MatchKind, states: &[StateID]) -> Option<PatternID>
    requires { All (λ s. s < length nfa.now.states) states.now }
    ensures { option_map number_of result ≡ pattern_by_kind nfa.now kind states.now }
{
    if kind.continue_past_first_match() {
        last_pattern(nfa, states)
    } else {
        first_pattern(nfa, states)
    }
}

/// The pattern of the state, if it is a `Match`.
fn pattern_of(state: &State) -> Option<PatternID>
    ensures { option_map number_of result ≡ pattern_of (node_of state.now) }
{
    match state {
        State::Match { pattern_id } => Some(*pattern_id),
        _ => None,
    }
}

/// The pattern of the first `Match`.
#[tactic(auto, using(crate::proofs::StepLemmas::first_steps))]
fn first_pattern(nfa: &NFA, states: &[StateID]) -> Option<PatternID>
    requires { All (λ s. s < length nfa.now.states) states.now }
    ensures { option_map number_of result ≡ first_pattern nfa.now states.now }
{
    for sid in states {
        let pattern = pattern_of(nfa.state(*sid));
        if pattern.is_some() {
            return pattern;
        }
    }
    None
}

/// The pattern of the last `Match`.
fn last_pattern(nfa: &NFA, states: &[StateID]) -> Option<PatternID>
    requires { All (λ s. s < length nfa.now.states) states.now }
    ensures { option_map number_of result ≡ last_pattern nfa.now states.now }
{
    let mut last = None;
    for sid in states {
        last = pattern_of(nfa.state(*sid)).or(last);
    }
    last
}

/// Returns the states that a search goes on with: those before the first `Match`, or for `All` all of them.
///
/// The caller must ensure that each state is one of the NFA's.
pub fn kept<'s>(nfa: &NFA, kind: MatchKind, states: &'s [StateID]) -> &'s [StateID]
    requires { All (λ s. s < length nfa.now.states) states.now }
    ensures kept { result.now ≡ kept nfa.now kind states.now }
    ensures below { All (λ s. s < length nfa.now.states) result.now }
{
    if kind.continue_past_first_match() {
        states
    } else {
        &states[..count_before_match(nfa, states)]
    }
}

/// How many states are before the first `Match`.
#[tactic(auto, using(crate::proofs::StepLemmas::before_steps))]
fn count_before_match(nfa: &NFA, states: &[StateID]) -> usize
    requires { All (λ s. s < length nfa.now.states) states.now }
    ensures within { result ≤ length states.now }
    ensures before { take result states.now ≡ before_first_match nfa.now states.now }
{
    for index in 0..states.len() {
        if pattern_of(nfa.state(states[index])).is_some() {
            return index;
        }
    }
    states.len()
}
