//! A test of all ways through an NFA to a match: whether each of them writes a slot.
ghost use Rattle.std.specs.Prelude.{◌≡◌, ℕ, All, IfOk, IfSome, IsTrue, Some, false, filter_map, is_some, length};
ghost use Rattle.std.specs.Prelude.{slice_get, slice_index_or};
ghost use Rattle.thompson_nfa.specs.Automaton.{node_of};
ghost use Rattle.nfa_paths.specs.Paths.{node_at, pattern_of, slot_of};
ghost use Rattle.nfa_paths.specs.StatePaths.{IsStart, targets};
ghost use Rattle.nfa_meta.specs.AlwaysSet.{AlwaysWrites, IsMarked, LeadsToMarked, SetsGroups};

use regex_search_core::{PatternID, StateID};
use std::alloc::{AllocError, Global};
use thompson_nfa::{NFA, State};

/// Returns the number of groups that each match sets, if there is one pattern and each match sets all of its groups, as
/// far as the states show it. The only error is that allocation failed.
pub(super) fn groups_always_set(alloc: Global, nfa: &NFA) -> Result<Option<usize>, AllocError>
    ensures { IfOk result (λ found. IfSome found (SetsGroups nfa.now)) }
{
    if nfa.pattern_len() != 1 {
        return Ok(None);
    }
    let slots = nfa.group_info().slot_len();
    for slot in 0..slots {
        if !is_always_written(alloc, nfa, slot)? {
            return Ok(None);
        }
    }
    Ok(Some(slots / 2))
}

/// Returns whether each way from a start of a search to a `Match` writes the slot, as far as the states show it: each
/// byte is assumed to be in some haystack, and each assertion to hold. The only error is that allocation failed.
///
/// It marks the states that ways lead to on which nothing wrote the slot, and then tests that these are all, and that
/// no `Match` is among them.
fn is_always_written(alloc: Global, nfa: &NFA, slot: usize) -> Result<bool, AllocError>
    requires { length nfa.now.patterns ≡ 1 }
    ensures { IfOk result (λ always. IsTrue always → AlwaysWrites nfa.now slot) }
{
    let marks = unwritten_states(alloc, nfa, slot)?;
    shows_that_written(alloc, nfa, slot, &marks)
}

/// Whether the marks show that each way writes the slot.
fn shows_that_written(
    alloc: Global,
    nfa: &NFA,
    slot: usize,
    marks: &[bool],
) -> Result<bool, AllocError>
    requires { length nfa.now.patterns ≡ 1 }
    ensures { IfOk result (λ shows. IsTrue shows → AlwaysWrites nfa.now slot) }
{
    if starts_are_marked(nfa, marks) {
        targets_are_marked(alloc, nfa, slot, marks)
    } else {
        Ok(false)
    }
}

/// Whether a state is marked.
fn is_marked(marks: &[bool], state: StateID) -> bool
    ensures { result ≡ slice_index_or marks.now state false }
{
    match marks.get(state.as_usize()) {
        Some(mark) => *mark,
        None => false,
    }
}

/// Whether each state that a search starts with is marked.
fn starts_are_marked(nfa: &NFA, marks: &[bool]) -> bool
    requires { length nfa.now.patterns ≡ 1 }
    ensures { IsTrue result → (s : ℕ) → IsStart nfa.now s → IsMarked marks.now s }
{
    match first_start(nfa) {
        Some(start) => is_marked(marks, start) && is_marked(marks, nfa.start_anchored()),
        None => false,
    }
}

/// Returns the state that a search for the first pattern only starts with.
fn first_start(nfa: &NFA) -> Option<StateID>
    ensures { result ≡ slice_get nfa.now.patterns 0 }
{
    let Some(first) = PatternID::new(0) else {
        unreachable!()
    };
    nfa.start_pattern(first)
}

/// Whether each marked state writes the slot, or is no `Match` and leads only to marked states.
fn targets_are_marked(
    alloc: Global,
    nfa: &NFA,
    slot: usize,
    marks: &[bool],
) -> Result<bool, AllocError>
    ensures { IfOk result (λ all. IsTrue all
        → (s : ℕ) → IsMarked marks.now s → LeadsToMarked slot marks.now (node_at nfa.now s)) }
{
    for number in 0..marks.len() {
        if marks[number] && !state_leads_to_marked(alloc, nfa, number, slot, marks)? {
            return Ok(false);
        }
    }
    Ok(true)
}

/// Whether there is a state of this number that writes the slot, or is no `Match` and leads only to marked states.
fn state_leads_to_marked(
    alloc: Global,
    nfa: &NFA,
    number: usize,
    slot: usize,
    marks: &[bool],
) -> Result<bool, AllocError>
    ensures { IfOk result (λ leads.
        IsTrue leads → LeadsToMarked slot marks.now (node_at nfa.now number)) }
{
    match nfa.states().get(number) {
        Some(state) => leads_to_marked(alloc, state, slot, marks),
        None => Ok(false),
    }
}

/// Whether the state writes the slot, or is no `Match` and leads only to marked states.
fn leads_to_marked(
    alloc: Global,
    state: &State,
    slot: usize,
    marks: &[bool],
) -> Result<bool, AllocError>
    ensures { IfOk result (λ leads. IsTrue leads → LeadsToMarked slot marks.now (node_of state.now)) }
{
    if writes(state, slot) {
        return Ok(true);
    }
    if is_match(state) {
        return Ok(false);
    }
    Ok(are_marked(marks, &targets(alloc, state)?))
}

/// Whether the state writes the slot.
fn writes(state: &State, slot: usize) -> bool
    ensures { IsTrue result → slot_of (node_of state.now) ≡ Some slot }
{
    match state {
        State::Capture { slot: own, .. } => *own == slot,
        _ => false,
    }
}

/// Whether the state is a `Match`.
fn is_match(state: &State) -> bool
    ensures { result ≡ is_some (pattern_of (node_of state.now)) }
{
    match state {
        State::Match { .. } => true,
        _ => false,
    }
}

/// Whether each of these states is marked.
fn are_marked(marks: &[bool], states: &[StateID]) -> bool
    ensures { IsTrue result → All (IsMarked marks.now) states.now }
{
    for state in states {
        if !is_marked(marks, *state) {
            return false;
        }
    }
    true
}

/// Returns the states that a state may lead to, in any haystack. The only error is that allocation failed.
#[tactic(auto, unfolding(nfa_paths::specs::StatePaths::targets))]
fn targets(alloc: Global, state: &State) -> Result<Vec<StateID>, AllocError>
    ensures { IfOk result (λ found. found.items ≡ targets (node_of state.now)) }
{
    match state {
        State::ByteRange { trans } => Ok(vec![in alloc; trans.next]?),
        State::Sparse(transitions) => transitions.iter().map(|it| it.next).collect(alloc),
        State::Dense(places) => present(alloc, places),
        State::Look { next, .. } | State::Capture { next, .. } => Ok(vec![in alloc; *next]?),
        State::Union { alternates } => alternates.clone(),
        State::BinaryUnion { alt1, alt2 } => Ok(vec![in alloc; *alt1, *alt2]?),
        State::Fail | State::Match { .. } => Ok(Vec::new(alloc)),
    }
}

/// Returns the states that are there.
fn present(alloc: Global, places: &[Option<StateID>]) -> Result<Vec<StateID>, AllocError>
    ensures { IfOk result (λ found. found.items ≡ filter_map (λ place. place) places.now) }
{
    places.iter().filter_map(|it| *it).collect(alloc)
}

/// Marks the states that ways lead to on which nothing wrote the slot. The only error is that allocation failed.
fn unwritten_states(alloc: Global, nfa: &NFA, slot: usize) -> Result<Vec<bool>, AllocError> {
    let states = nfa.states();
    let mut marks = vec![in alloc; false; states.len()]?;
    let mut left = Vec::new(alloc);
    add(&mut left, &mut marks, &nfa.start_anchored())?;
    if let Some(start) = first_start(nfa) {
        add(&mut left, &mut marks, &start)?;
    }
    // Each state is added at most once, so this many turns take all.
    for _ in 0..states.len() {
        let Some(id) = left.pop() else {
            break;
        };
        let found = after(alloc, nfa, id, slot)?;
        for next in &found {
            add(&mut left, &mut marks, next)?;
        }
    }
    Ok(marks)
}

/// Returns the states that a state may lead to, or none if it writes the slot.
fn after(alloc: Global, nfa: &NFA, id: StateID, slot: usize) -> Result<Vec<StateID>, AllocError> {
    match nfa.states().get(id.as_usize()) {
        Some(state) if !writes(state, slot) => targets(alloc, state),
        _ => Ok(Vec::new(alloc)),
    }
}

/// Marks the state and adds it to those that are left, unless it is marked.
fn add(left: &mut Vec<StateID>, marks: &mut [bool], state: &StateID) -> Result<(), AllocError> {
    if let Some(mark) = marks.get_mut(state.as_usize()) {
        if !*mark {
            *mark = true;
            left.push(*state)?;
        }
    }
    Ok(())
}
