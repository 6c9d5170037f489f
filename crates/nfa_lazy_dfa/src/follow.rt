//! One step of the DFA, from a row over a byte to the next one.
ghost use Rattle.std.specs.Prelude.{◌≡◌, ℕ, ◌<◌, ◌≤◌, [], Option, None, Some, All, IfOk, length, map, option_map};
ghost use Rattle.regex_search_core.specs.PatternSets.{number_of};
ghost use Rattle.regex_search_core.specs.declared.search.MatchKind.TheVariants.{LeftmostFirst};
ghost use Rattle.thompson_nfa.specs.Automaton.{node_of};
ghost use Rattle.nfa_paths.specs.Graphs.{In};
ghost use Rattle.nfa_paths.specs.Paths.{pattern_of};
ghost use Rattle.nfa_lazy_dfa.specs.Assertions.{IsRead, SameLooks, sees};
ghost use Rattle.nfa_lazy_dfa.specs.Capacities.{largest_row_memory};
ghost use Rattle.nfa_lazy_dfa.specs.Rows as rows;
ghost use Rattle.nfa_lazy_dfa.specs.Stances.{Covers, IsNext, goes_on, here, hit_here, hits_here, patterns_for};
ghost use Rattle.nfa_lazy_dfa.specs.Stances.{patterns_in, stance_of};

use crate::determinize::closure::{closure, kept, pattern_by_kind, step};
use crate::determinize::laws;
use crate::dfa::DFA;
use nfa_scan_core::marks::{none_seen, see};
use regex_search_core::{MatchKind, PatternID, StateID};
use std::alloc::{AllocError, Global};
use thompson_nfa::{NFA, State};

/// A haystack that is empty.
const NOTHING: [u8; 0] = [];

/// What a row stands for.
#[derive(Debug, Drop)]
pub struct Stand {
    /// The NFA states that the bytes so far led to, each once, with the start if a match may start here.
    pub states: Vec<StateID>,
    /// A byte like the last one, if there is one and an assertion may read it.
    pub before: Option<u8>,
    /// A match may start at the next position, unless one is found here.
    pub more: bool,
    /// The pattern that matched just before the last byte.
    pub hit: Option<PatternID>,
    /// For `All` the patterns of all matches there.
    pub hits: Vec<PatternID>,
}

/// The closure of the stand's states before this byte, or at the end of the haystack.
fn closure_of(
    alloc: Global,
    dfa: &DFA,
    stand: &Stand,
    after: Option<u8>,
) -> Result<Vec<StateID>, AllocError>
    requires { All (λ s. s < length dfa.now.nfa.states) stand.now.states.items }
    ensures closure { IfOk result (λ made. made.items ≡ here dfa.now.nfa (stance_of stand.now) after) }
    ensures below { IfOk result (λ made. All (λ s. s < length dfa.now.nfa.states) made.items) }
    ensures short { IfOk result (λ made. length made.items ≤ length dfa.now.nfa.states) }
{
    laws::closures_are_finite();
    match (stand.before, after) {
        (None, None) => closure(alloc, &dfa.nfa, &NOTHING, 0, &stand.states),
        (None, Some(after)) => closure(alloc, &dfa.nfa, &[after], 0, &stand.states),
        (Some(before), None) => closure(alloc, &dfa.nfa, &[before], 1, &stand.states),
        (Some(before), Some(after)) => {
            closure(alloc, &dfa.nfa, &[before, after], 1, &stand.states)
        }
    }
}

/// The pattern that matches at the stand, at the end of the haystack.
pub fn last_hit(alloc: Global, dfa: &DFA, stand: &Stand) -> Result<Option<PatternID>, AllocError>
    requires { All (λ s. s < length dfa.now.nfa.states) stand.now.states.items }
    ensures { IfOk result (λ hit.
        option_map number_of hit ≡ hit_here dfa.now.nfa dfa.now.kind (stance_of stand.now) None) }
{
    let states = closure_of(alloc, dfa, stand, None)?;
    Ok(pattern_by_kind(&dfa.nfa, dfa.kind, &states))
}

/// For `All` the patterns of all matches at the stand, at the end of the haystack.
pub fn last_hits(alloc: Global, dfa: &DFA, stand: &Stand) -> Result<Vec<PatternID>, AllocError>
    requires { All (λ s. s < length dfa.now.nfa.states) stand.now.states.items }
    ensures { IfOk result (λ hits.
        map number_of hits.items ≡ hits_here dfa.now.nfa dfa.now.kind (stance_of stand.now) None) }
{
    let states = closure_of(alloc, dfa, stand, None)?;
    patterns_for(alloc, dfa, &states)
}

/// The stand after the byte.
pub fn follow(alloc: Global, dfa: &DFA, stand: &Stand, byte: u8) -> Result<Stand, AllocError>
    requires below { All (λ s. s < length dfa.now.nfa.states) stand.now.states.items }
    requires read { IsRead dfa.now.nfa (Some byte) }
    ensures next { IfOk result (λ made.
        IsNext dfa.now.nfa dfa.now.kind (stance_of stand.now) byte (stance_of made)) }
    ensures below { IfOk result (λ made. All (λ s. s < length dfa.now.nfa.states) made.states.items) }
    ensures short { IfOk result (λ made. length made.states.items ≤ length dfa.now.nfa.states) }
    ensures small { IfOk result (λ made.
        rows.row_memory_of (stance_of made) ≤ largest_row_memory dfa.now.nfa dfa.now.kind) }
{
    let states = closure_of(alloc, dfa, stand, Some(byte))?;
    let hit = pattern_by_kind(&dfa.nfa, dfa.kind, &states);
    let hits = patterns_for(alloc, dfa, &states)?;
    let more = stand.more && may_start_after(dfa.kind, hit);
    let left = kept(&dfa.nfa, dfa.kind, &states);
    let mut next = step(alloc, &dfa.nfa, Some(byte), left)?;
    if more {
        next.push(dfa.nfa.start_anchored())?;
    }
    let states = each_once(alloc, &dfa.nfa, &next)?;
    let before = before(dfa, Some(byte));
    Ok(Stand {
        states,
        before,
        more,
        hit,
        hits,
    })
}

/// For `All` the patterns of all matches among the states.
fn patterns_for(alloc: Global, dfa: &DFA, states: &[StateID]) -> Result<Vec<PatternID>, AllocError>
    requires { All (λ s. s < length dfa.now.nfa.states) states.now }
    ensures patterns { IfOk result (λ made.
        map number_of made.items ≡ patterns_for dfa.now.nfa dfa.now.kind states.now) }
    ensures short { IfOk result (λ made. length made.items ≤ length states.now) }
    ensures none { IfOk result (λ made. dfa.now.kind ≡ LeftmostFirst → made.items ≡ []) }
{
    match dfa.kind {
        MatchKind::All => patterns_in(alloc, &dfa.nfa, states),
        MatchKind::LeftmostFirst => Ok(Vec::new(alloc)),
    }
}

/// The patterns of the `Match` states.
fn patterns_in(alloc: Global, nfa: &NFA, states: &[StateID]) -> Result<Vec<PatternID>, AllocError>
    requires { All (λ s. s < length nfa.now.states) states.now }
    ensures patterns { IfOk result (λ made. map number_of made.items ≡ patterns_in nfa.now states.now) }
    ensures short { IfOk result (λ made. length made.items ≤ length states.now) }
{
    let mut patterns = Vec::new(alloc);
    for sid in states {
        if let Some(pattern) = pattern_of(nfa.state(*sid)) {
            patterns.push(pattern)?;
        }
    }
    Ok(patterns)
}

/// The pattern of the state, if it is a `Match`.
fn pattern_of(state: &State) -> Option<PatternID>
    ensures { option_map number_of result ≡ pattern_of (node_of state.now) }
{
    match state {
        State::Match { pattern_id } => Some(*pattern_id),
        _ => None,
    }
}

/// What an assertion of the NFA may read of the byte before a position.
pub fn before(dfa: &DFA, byte: Option<u8>) -> Option<u8>
    requires { IsRead dfa.now.nfa byte }
    ensures { (after : Option ℕ) → IsRead dfa.now.nfa after
        → SameLooks dfa.now.nfa (sees result after) (sees byte after) }
{
    if dfa.looks {
        Some(dfa.likes[byte? as usize])
    } else {
        None
    }
}

/// Whether a match may start after this one.
fn may_start_after(kind: MatchKind, hit: Option<PatternID>) -> bool
    ensures { result ≡ goes_on kind (option_map number_of hit) }
{
    match kind {
        MatchKind::All => true,
        MatchKind::LeftmostFirst => hit.is_none(),
    }
}

/// The states without those that the list has further left.
fn each_once(alloc: Global, nfa: &NFA, states: &[StateID]) -> Result<Vec<StateID>, AllocError>
    requires { All (λ s. s < length nfa.now.states) states.now }
    ensures covers { IfOk result (λ made. Covers nfa.now made.items states.now) }
    ensures held { IfOk result (λ made. (q : ℕ) → In q states.now → In q made.items) }
    ensures below { IfOk result (λ made. All (λ s. s < length nfa.now.states) made.items) }
    ensures short { IfOk result (λ made. length made.items ≤ length nfa.now.states) }
{
    let mut seen = none_seen(alloc, nfa)?;
    let mut once = Vec::new(alloc);
    for sid in states {
        if see(&mut seen, *sid) {
            once.push(*sid)?;
        }
    }
    Ok(once)
}
