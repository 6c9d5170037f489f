//! A test of all ways through an NFA, pattern by pattern.
ghost use Rattle.std.specs.Prelude.{◌≡◌, ℕ, ◌+◌, ◌*◌, ◌<◌, ◌≤◌, ◌↔◌, IfOk, IfSome, IsTrue, length, slice_get};
ghost use Rattle.thompson_nfa.specs.Automaton.{IsAutomaton};
ghost use Rattle.nfa_paths.specs.Graphs.{In};
ghost use Rattle.nfa_facts.specs.PathStates.{fresh_path_state, IsFresh};
ghost use Rattle.nfa_paths.specs.StatePaths.{IsStart, PatternRecordsMatchSpans, RecordsMatchSpans};

use crate::match_spans::path_state::PathState;
use crate::match_spans::reached::ReachedSet;
use crate::match_spans::targets::targets;
use regex_search_core::{PatternID, StateID};
use std::alloc::{AllocError, Global};
use thompson_nfa::NFA;

/// Returns whether the slots of the NFA give the bounds of each match: every way from a start state of a search to a
/// `Match` writes its start and its end into the two slots of its pattern. The slot of the start is written before the
/// first byte and not after it. The slot of the end is written after the last byte.
///
/// Each byte is assumed to be in some haystack, and each assertion to hold, so the result depends on the states only.
/// If it is true, no search misses a match (`laws`).
///
/// For each pattern the test visits at most eight places per state, and the edges of each place. The only error is that
/// an allocation failed.
pub fn records_match_spans(alloc: Global, nfa: &NFA) -> Result<bool, AllocError>
    ensures records { IfOk result (λ records. IsTrue records ↔ RecordsMatchSpans nfa.now) }
    ensures valid { IsAutomaton nfa.now }
{
    for pattern in 0..nfa.pattern_len() {
        if !pattern_records_match_spans(alloc, nfa, pattern)? {
            return Ok(false);
        }
    }
    Ok(true)
}

/// Whether each way to a `Match` of the pattern writes its bounds.
fn pattern_records_match_spans(alloc: Global, nfa: &NFA, pattern: usize) -> Result<bool, AllocError>
    ensures { IfOk result (λ records. IsTrue records ↔ PatternRecordsMatchSpans nfa.now pattern) }
{
    let mut reached = starts(alloc, nfa)?;
    let mut done = 0;
    while done < reached.len() {
        let place = reached.place(done);
        let state = nfa.state(place.state);
        if place.is_unrecorded(state, pattern) {
            return Ok(false);
        }
        reached.add_all(&place.after(state, pattern), &targets(alloc, state)?)?;
        done += 1;
    }
    Ok(true)
}

/// The places that searches start with.
fn starts(alloc: Global, nfa: &NFA) -> Result<ReachedSet, AllocError>
    ensures room { IfOk result (λ made. made.room ≡ 8 * length nfa.now.states) }
    ensures all { IfOk result (λ made. (s : ℕ) → IsStart nfa.now s → In (fresh_path_state s) made.places) }
    ensures only { IfOk result (λ made. (v : PathState) → In v made.places → IsFresh nfa.now v) }
    ensures below { IfOk result (λ made. (v : PathState) → In v made.places → v.state < length nfa.now.states) }
{
    let mut reached = ReachedSet::new(alloc, nfa.states().len())?;
    reached.add(&PathState::fresh(nfa.start_anchored()))?;
    for index in 0..nfa.pattern_len() {
        if let Some(start) = pattern_start(nfa, index) {
            reached.add(&PathState::fresh(start))?;
        }
    }
    Ok(reached)
}

/// The start state of a search for the pattern of this number only. `None` if there is none, or if no search can name
/// the pattern.
fn pattern_start(nfa: &NFA, index: usize) -> Option<StateID>
    ensures value { index ≤ 2147483646 → result ≡ slice_get nfa.now.patterns index }
    ensures start { IfSome result (IsStart nfa.now) }
    ensures below { IfSome result (λ s. s < length nfa.now.states) }
{
    nfa.start_pattern(PatternID::new(index)?)
}
