//! Whether the numbers in an NFA are in range.
ghost use Rattle.std.specs.Prelude.{◌≡◌, ◌<◌, ◌↔◌, map, All, IsTrue, IsNone, IfSome, Some};
ghost use Rattle.thompson_nfa.specs.Automaton.{LeadsBelow, SlotBelow, PatternBelow, Fail, node_of};
ghost use Rattle.thompson_nfa.specs.Flaws.{IsFirstFailing, NamesFirst, NamesFirstReferrer, slot_of, pattern_of};

use crate::flaw::Referrer;
use crate::state::{State, Transition};
use regex_search_core::StateID;

/// Whether each of these states is below `len`.
fn all_below(ids: &[StateID], len: usize) -> bool
    ensures { IsTrue result ↔ All (λ s. s < len) ids.now }
{
    ids.iter().all(|id| id.as_usize() < len)
}

/// Whether each of these transitions leads to a state below `len`.
fn transitions_below(transitions: &[Transition], len: usize) -> bool
    ensures { IsTrue result ↔ All (λ t. t.next < len) transitions.now }
{
    transitions.iter().all(|t| t.next.as_usize() < len)
}

/// Whether each of these targets that is `Some` is below `len`.
fn targets_below(targets: &[Option<StateID>], len: usize) -> bool
    ensures { IsTrue result ↔ All (λ o. IfSome o (λ s. s < len)) targets.now }
{
    for target in targets {
        if let Some(id) = target
            && id.as_usize() >= len
        {
            return false;
        }
    }
    true
}

/// Whether each state that this one leads to is below `len`.
fn leads_below(state: &State, len: usize) -> bool
    ensures { IsTrue result ↔ LeadsBelow len (node_of state.now) }
{
    match state {
        State::ByteRange { trans } => trans.next.as_usize() < len,
        State::Sparse(transitions) => transitions_below(transitions, len),
        State::Dense(targets) => targets_below(targets, len),
        State::Look { next, .. } => next.as_usize() < len,
        State::Union { alternates } => all_below(alternates, len),
        State::BinaryUnion { alt1, alt2 } => alt1.as_usize() < len && alt2.as_usize() < len,
        State::Capture { next, .. } => next.as_usize() < len,
        State::Fail | State::Match { .. } => true,
    }
}

/// The slot that the state writes. `None` if it writes none, or one that is below `len`.
fn slot_outside(state: &State, len: usize) -> Option<usize>
    ensures none { IsNone result ↔ SlotBelow len (node_of state.now) }
    ensures slot { IfSome result (λ slot. slot_of (node_of state.now) ≡ Some slot) }
{
    match state {
        State::Capture { slot, .. } if *slot >= len => Some(*slot),
        _ => None,
    }
}

/// The pattern that the state matches. `None` if it matches none, or one that is below `len`.
fn pattern_outside(state: &State, len: usize) -> Option<usize>
    ensures none { IsNone result ↔ PatternBelow len (node_of state.now) }
    ensures pattern { IfSome result (λ pattern. pattern_of (node_of state.now) ≡ Some pattern) }
{
    match state {
        State::Match { pattern_id } if pattern_id.as_usize() >= len => Some(pattern_id.as_usize()),
        _ => None,
    }
}

/// The index of the first of these states that is not below `len`.
fn first_outside(ids: &[StateID], len: usize) -> Option<usize>
    ensures { IsFirstFailing (λ s. s < len) 0 ids.now result }
{
    for (index, id) in ids.iter().enumerate() {
        if id.as_usize() >= len {
            return Some(index);
        }
    }
    None
}

/// The index of the first of these states that leads to one not below `len`.
fn first_leading_outside(states: &[State], len: usize) -> Option<usize>
    ensures { IsFirstFailing (LeadsBelow len) Fail (map node_of states.now) result }
{
    for (index, state) in states.iter().enumerate() {
        if !leads_below(state, len) {
            return Some(index);
        }
    }
    None
}

/// The index of the first of these states that writes a slot not below `len`, and that slot.
pub(crate) fn first_slot_outside(states: &[State], len: usize) -> Option<(usize, usize)>
    ensures { NamesFirst (SlotBelow len) slot_of (map node_of states.now) result }
{
    for (index, state) in states.iter().enumerate() {
        if let Some(slot) = slot_outside(state, len) {
            return Some((index, slot));
        }
    }
    None
}

/// The index of the first of these states that matches a pattern not below `len`, and that pattern.
pub(crate) fn first_pattern_outside(states: &[State], len: usize) -> Option<(usize, usize)>
    ensures { NamesFirst (PatternBelow len) pattern_of (map node_of states.now) result }
{
    for (index, state) in states.iter().enumerate() {
        if let Some(pattern) = pattern_outside(state, len) {
            return Some((index, pattern));
        }
    }
    None
}

/// The first holder of a number that names no state: the two starts, then those of the patterns, then the states.
pub(crate) fn first_unnumbered(
    states: &[State],
    anchored: StateID,
    unanchored: StateID,
    patterns: &[StateID],
) -> Option<Referrer>
    ensures { NamesFirstReferrer (map node_of states.now) anchored unanchored patterns.now result }
{
    if anchored.as_usize() >= states.len() {
        return Some(Referrer::Anchored);
    }
    if unanchored.as_usize() >= states.len() {
        return Some(Referrer::Unanchored);
    }
    if let Some(pattern) = first_outside(patterns, states.len()) {
        return Some(Referrer::Pattern(pattern));
    }
    match first_leading_outside(states, states.len()) {
        Some(state) => Some(Referrer::State(state)),
        None => None,
    }
}
