//! Half matches by steps, position after position: the loop of a DFA, with lists of states instead of a DFA's states.
ghost use Rattle.std.specs.Prelude.{◌≡◌, ◌<◌, ◌≤◌, ◌++◌, ◌↔◌, All, IfOk, IsTrue, List, Option, length, true};
ghost use Rattle.std.specs.Prelude.{option_and_then, option_map};
ghost use Rattle.regex_search_core.specs.Found.{half_found_of, half_at};
ghost use Rattle.regex_search_core.specs.PatternSets.{number_of};
ghost use Rattle.regex_search_core.specs.Search.{search_of};
ghost use Rattle.nfa_paths.specs.Graphs.{Pair};
ghost use Rattle.nfa_paths.specs.Paths.{IsHalfAnswer, IsScanAnswer, path_half, starts};
ghost use Rattle.nfa_lazy_dfa.specs.Closures.{closure, holding_at};
ghost use Rattle.nfa_lazy_dfa.specs.Configurations.{IsSettled, found_after, scan_half, start_here};
ghost use Rattle.nfa_lazy_dfa.specs.Configurations.{starts_after, IsRestartedHalf, IsWholeHalf};

use crate::determinize::closure::{closure, kept, pattern_by_kind, step};
use crate::determinize::laws;
use nfa_scan_core::starts::{is_utf8_empty, start_limit, start_state};
use nfa_scan_core::transitions::byte_at;
use regex_search_core::{HalfMatch, Input, MatchKind, PatternID, StateID};
use std::alloc::{AllocError, Global};
use thompson_nfa::NFA;

/// Returns the half match that a search of this input finds, as `PikeVM::find_half` does: its pattern, and the byte
/// offset in the haystack at which it ends.
///
/// If the NFA can match the empty string and is in UTF-8 mode, a match that splits a codepoint does not count. `None`
/// if nothing matches. The error is that an allocation failed.
pub fn find_half(
    alloc: Global,
    nfa: &NFA,
    kind: MatchKind,
    input: Input<'_>,
) -> Result<Option<HalfMatch>, AllocError>
    ensures { let x = search_of input.entry in IfOk result (λ half.
        IsHalfAnswer nfa.now kind x.earliest x (option_map half_found_of half)) }
{
    laws::steps_find_the_half();
    if !is_utf8_empty(nfa) {
        return scan_half(alloc, nfa, kind, &input);
    }
    if !input.get_anchored().is_anchored() {
        return find_whole_half(alloc, nfa, kind, input);
    }
    let half = scan_half(alloc, nfa, kind, &input)?;
    if !is_whole_half(&input, half) {
        return Ok(None);
    }
    Ok(half)
}

/// The half match of the first scan whose match does not split a codepoint, as the start of the span moves on.
fn find_whole_half(
    alloc: Global,
    nfa: &NFA,
    kind: MatchKind,
    mut input: Input<'_>,
) -> Result<Option<HalfMatch>, AllocError>
    ensures { let x = search_of input.entry in IfOk result (λ half.
        IsRestartedHalf nfa.now kind x.earliest x (option_map half_found_of half)) }
{
    let mut half = scan_half(alloc, nfa, kind, &input)?;
    while !is_whole_half(&input, half) {
        input.set_start(input.start() + 1);
        half = scan_half(alloc, nfa, kind, &input)?;
    }
    Ok(half)
}

/// Whether there is no match, or it ends on a boundary.
fn is_whole_half(input: &Input<'_>, half: Option<HalfMatch>) -> bool
    ensures { IsTrue result ↔ IsWholeHalf (search_of input.now) (option_map half_found_of half) }
{
    match half {
        Some(half) => input.is_char_boundary(half.offset()),
        None => true,
    }
}

/// Returns the half match that one scan of this input finds: its pattern, and the byte offset in the haystack at which
/// it ends. A match that splits a codepoint counts; [`find_half`] skips such matches.
///
/// `None` if nothing matches. The error is that an allocation failed.
pub fn scan_half(
    alloc: Global,
    nfa: &NFA,
    kind: MatchKind,
    input: &Input<'_>,
) -> Result<Option<HalfMatch>, AllocError>
    ensures steps { let x = search_of input.now in IfOk result (λ half.
        option_map half_found_of half ≡ scan_half nfa.now x kind x.earliest) }
    ensures answer { let x = search_of input.now in IfOk result (λ half. (path : Option (List Pair))
        → IsScanAnswer nfa.now x kind x.earliest path
        → option_map half_found_of half ≡ option_and_then (path_half nfa.now) path) }
{
    laws::steps_find_the_answer();
    let mut states = Vec::new(alloc);
    let mut starts = count_starts(nfa, input);
    let mut found = None;
    for at in input.start()..input.end() + 1 {
        if is_settled(input, &states, starts, found) {
            return Ok(found);
        }
        let here = closure_here(alloc, nfa, input, at, states, starts)?;
        let pattern = pattern_by_kind(nfa, kind, &here);
        found = found_after(input.get_earliest(), found, half_at(pattern, at));
        starts = starts_after(kind, pattern, starts);
        states = step(alloc, nfa, byte_at(input, at), kept(nfa, kind, &here))?;
    }
    Ok(found)
}

/// At how many positions of the span a match may start.
fn count_starts(nfa: &NFA, input: &Input<'_>) -> usize
    ensures { result ≡ length (starts nfa.now (search_of input.now)) }
{
    if input.is_done() || start_state(nfa, input).is_none() {
        return 0;
    }
    start_limit(nfa, input) - input.start()
}

/// Whether no later position changes what was found.
fn is_settled(
    input: &Input<'_>,
    states: &[StateID],
    starts: usize,
    found: Option<HalfMatch>,
) -> bool
    ensures { result ≡ true → IsSettled (search_of input.now).earliest record {
      states = states.now;
      starts = starts;
      found = option_map half_found_of found;
    } }
{
    (states.is_empty() && starts == 0) || (input.get_earliest() && found.is_some())
}

/// The closure at a position: of the states, and of the start as the last one if a match may start there.
fn closure_here(
    alloc: Global,
    nfa: &NFA,
    input: &Input<'_>,
    at: usize,
    mut states: Vec<StateID>,
    starts: usize,
) -> Result<Vec<StateID>, AllocError>
    requires at { at ≤ (search_of input.now).end }
    requires states { All (λ s. s < length nfa.now.states) states.items }
    ensures closure { let x = search_of input.now in IfOk result (λ made.
        made.items ≡ closure nfa.now (holding_at x.haystack at) (states.items ++ start_here nfa.now x starts)) }
    ensures below { IfOk result (λ made. All (λ s. s < length nfa.now.states) made.items) }
{
    if starts > 0 {
        if let Some(start) = start_state(nfa, input) {
            states.push(start)?;
        }
    }
    closure(alloc, nfa, input.haystack(), at, &states)
}

/// A match of the pattern that ends at the position, if there is a pattern.
fn half_at(pattern: Option<PatternID>, at: usize) -> Option<HalfMatch>
    ensures { option_map half_found_of result ≡ option_map (half_at at) (option_map number_of pattern) }
{
    Some(HalfMatch::new(pattern?, at))
}

/// The match at a position if there is one, or else the one so far; for `earliest` the other way round.
fn found_after(
    earliest: bool,
    found: Option<HalfMatch>,
    hit: Option<HalfMatch>,
) -> Option<HalfMatch>
    ensures { option_map half_found_of result
        ≡ found_after earliest (option_map half_found_of found) (option_map half_found_of hit) }
{
    if earliest {
        found.or(hit)
    } else {
        hit.or(found)
    }
}

/// At how many later positions a match may start.
fn starts_after(kind: MatchKind, pattern: Option<PatternID>, starts: usize) -> usize
    ensures { result ≡ starts_after kind (option_map number_of pattern) starts }
{
    if pattern.is_some() && !kind.continue_past_first_match() {
        0
    } else {
        starts.saturating_sub(1)
    }
}
