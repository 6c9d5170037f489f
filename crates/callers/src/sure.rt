//! Lists of finders that are functions and never err.

ghost use Rattle.std.specs.Prelude.{IfOk, Ok, map};
ghost use Rattle.regex_search_core.specs.Found.{found_of, half_found_of};
ghost use Rattle.regex_search_core.specs.Search.{search_of, whole};
ghost use Rattle.nfa_engines.specs.WithCaptures.{filled_answer, row_span};
ghost use Rattle.nfa_engines.specs.Lists.{AreAllStoredCaptures, AreAllStoredMatches};
ghost use Rattle.nfa_engines.specs.Items.{answer_by};
ghost use Rattle.nfa_engines.specs.IterStates.{IsInfalliblyInside, fresh, half_span_of, span_of};

use nfa_engines::error::SearchError;
use nfa_engines::iter::Searcher;
use nfa_engines::{Captures, HalfMatch, Input, Match, PatternID, Span};
use std::alloc::{AllocError, Global};

// An empty match of the first pattern at the start of the span.
fn empty_at_start(input: &Input<'_>) -> Result<Option<Match>, SearchError>
    ensures { IsInfalliblyInside span_of (search_of input.now) (answer_by found_of result) }
{
    let start = input.start();
    if input.is_done() {
        return Ok(None);
    }
    match PatternID::new(0) {
        Some(pattern) => Ok(Some(Match::new(pattern, Span { start, end: start }))),
        None => Ok(None),
    }
}

// Its end.
fn half_at_start(input: &Input<'_>) -> Result<Option<HalfMatch>, SearchError>
    ensures { IsInfalliblyInside half_span_of (search_of input.now) (answer_by half_found_of result) }
{
    let start = input.start();
    if input.is_done() {
        return Ok(None);
    }
    match PatternID::new(0) {
        Some(pattern) => Ok(Some(HalfMatch::new(pattern, start))),
        None => Ok(None),
    }
}

// The match that the slots tell, where it lies in the span, or none.
fn kept_match(input: &Input<'_>, captures: &mut Captures) -> Result<(), SearchError>
    ensures { IsInfalliblyInside row_span (search_of input.now) (filled_answer captures.new result) }
{
    captures.set_pattern(PatternID::new(0));
    let inside = match captures.get_match() {
        Some(found) => found.start() >= input.start() && found.end() <= input.end(),
        None => false,
    };
    if !inside {
        captures.set_pattern(None);
    }
    Ok(())
}

/// All matches, by `collect`.
pub fn surely_collected(alloc: Global, haystack: &[u8]) -> Result<Vec<Match>, AllocError>
    ensures { IfOk result (λ v. AreAllStoredMatches span_of (IsInfalliblyInside span_of) found_of
        (fresh (whole haystack.now))
        (map (λ m. Ok m) v.items)) }
{
    let input = Input::new(haystack);
    let searcher = Searcher::new(input);
    let items = searcher.into_matches_iter(empty_at_start).infallible();
    items.collect(alloc)
}

/// The same of half matches.
pub fn halves_surely_collected(alloc: Global, haystack: &[u8]) -> Result<Vec<HalfMatch>, AllocError>
    ensures { IfOk result (λ v. AreAllStoredMatches half_span_of (IsInfalliblyInside half_span_of) half_found_of
        (fresh (whole haystack.now)) (map (λ m. Ok m) v.items)) }
{
    let input = Input::new(haystack);
    let searcher = Searcher::new(input);
    let items = searcher.into_half_matches_iter(half_at_start).infallible();
    items.collect(alloc)
}

/// The captures that a finder leaves.
pub fn captures_surely_collected(
    alloc: Global,
    haystack: &[u8],
    captures: Captures,
) -> Result<Vec<Result<Captures, SearchError>>, AllocError>
    ensures { IfOk result (λ v. AreAllStoredCaptures (IsInfalliblyInside row_span)
        (fresh (whole haystack.now)) v.items) }
{
    let searcher = Searcher::new(Input::new(haystack));
    let items = searcher
        .into_captures_iter(captures, kept_match)
        .infallible();
    items.collect(alloc)
}
