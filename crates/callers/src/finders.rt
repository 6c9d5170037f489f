//! Lists by the iterators over stored finders: of a finder whose answers are known, and of any finder.

ghost use Rattle.std.specs.Prelude.{◌≡◌, [], ◌∷◌, Some, IfOk, map};
ghost use Rattle.regex_search_core.specs.Found.{found_of, half_found_of};
ghost use Rattle.regex_search_core.specs.Search.{search_of, whole};
ghost use Rattle.nfa_engines.specs.WithCaptures.{FillsAlong, UpToRefusal, filled_answer, row_of, row_span};
ghost use Rattle.nfa_engines.specs.Lists.{AreAllStoredCaptures, AreAllStoredMatches};
ghost use Rattle.nfa_engines.specs.Finders.{AnswersAlong};
ghost use Rattle.nfa_engines.specs.Items.{item_by, greedy, answer_by};
ghost use Rattle.nfa_engines.specs.Stored.{iter_state_of};
ghost use Rattle.nfa_engines.specs.StoredRuns.{MayAnswer, MayAnswerRow};
ghost use Rattle.nfa_engines.specs.IterStates.{AnswerIsInside, fresh, half_span_of, span_of};
ghost use Rattle.callers.specs.EmptyFinder.{EmptyTells, empty_answer, zero_row};

use nfa_engines::error::SearchError;
use nfa_engines::iter::Searcher;
use nfa_engines::{Captures, HalfMatch, Input, Match, PatternID, Span};
use std::alloc::{AllocError, Global};

/// An empty match of the first pattern at the start of the span.
#[tactic(auto, using(crate::proofs::EmptyFinderLemmas::empty_found, crate::proofs::EmptyFinderLemmas::empty_none))]
pub fn empty_at_start(input: &Input<'_>) -> Result<Option<Match>, SearchError>
    ensures { answer_by found_of result ≡ empty_answer (search_of input.now) }
{
    let start = input.start();
    if start > input.end() {
        return Ok(None);
    }
    match PatternID::new(0) {
        Some(pattern) => Ok(Some(Match::new(pattern, Span { start, end: start }))),
        None => unreachable!(),
    }
}

/// All items, by `collect`, of that finder.
pub fn collected(
    alloc: Global,
    haystack: &[u8],
) -> Result<Vec<Result<Match, SearchError>>, AllocError>
    ensures { IfOk result (λ v. AreAllStoredMatches span_of EmptyTells found_of (fresh (whole haystack.now)) v.items) }
{
    let input = Input::new(haystack);
    let searcher = Searcher::new(input);
    let items = searcher.into_matches_iter(empty_at_start);
    items.collect(alloc)
}

/// The greedy list of that finder, by a loop.
pub fn looped(alloc: Global, haystack: &[u8]) -> Result<Vec<Result<Match, SearchError>>, AllocError>
    ensures { IfOk result
        (λ v. map (item_by found_of) v.items ≡ greedy span_of empty_answer (fresh (whole haystack.now))) }
{
    let mut found = Vec::new(alloc);
    let input = Input::new(haystack);
    let searcher = Searcher::new(input);
    let items = searcher.into_matches_iter(empty_at_start);
    for item in items {
        found.push(item)?;
    }
    Ok(found)
}

/// All items of any finder.
pub fn collected_by<F>(
    alloc: Global,
    searcher: Searcher<'_>,
    finder: F,
) -> Result<Vec<Result<Match, SearchError>>, AllocError>
where
    F: FnMut(&Input<'_>) -> Result<Option<Match>, SearchError>,
    requires { AnswersAlong found_of F.FnMut (AnswerIsInside span_of) finder (iter_state_of searcher).at }
    ensures { IfOk result (λ v. AreAllStoredMatches span_of
        (MayAnswer found_of span_of F.FnMut finder (iter_state_of searcher.entry).at) found_of
        (iter_state_of searcher.entry)
        v.items) }
{
    searcher.into_matches_iter(finder).collect(alloc)
}

/// The same of half matches.
pub fn halves_collected_by<F>(
    alloc: Global,
    searcher: Searcher<'_>,
    finder: F,
) -> Result<Vec<Result<HalfMatch, SearchError>>, AllocError>
where
    F: FnMut(&Input<'_>) -> Result<Option<HalfMatch>, SearchError>,
    requires { AnswersAlong half_found_of F.FnMut (AnswerIsInside half_span_of) finder (iter_state_of searcher).at }
    ensures { IfOk result (λ v. AreAllStoredMatches half_span_of
        (MayAnswer half_found_of half_span_of F.FnMut finder (iter_state_of searcher.entry).at) half_found_of
        (iter_state_of searcher.entry) v.items) }
{
    searcher.into_half_matches_iter(finder).collect(alloc)
}

/// The captures that any finder leaves, collected.
pub fn captures_collected_by<F>(
    alloc: Global,
    searcher: Searcher<'_>,
    captures: Captures,
    finder: F,
) -> Result<Vec<Result<Captures, SearchError>>, AllocError>
where
    F: FnMut(&Input<'_>, &mut Captures) -> Result<(), SearchError>,
    requires { FillsAlong F.FnMut (AnswerIsInside row_span) (record { finder = finder; captures = captures })
        (iter_state_of searcher).at }
    ensures { IfOk result (λ v. AreAllStoredCaptures
        (MayAnswerRow F.FnMut (record { finder = finder; captures = captures }) (iter_state_of searcher.entry).at)
        (iter_state_of searcher.entry) v.items) }
{
    searcher.into_captures_iter(captures, finder).collect(alloc)
}

// Captures of the empty match of the first pattern at the start of the haystack, from slots that
// say so.
fn captured_at_zero(input: &Input<'_>, captures: &mut Captures) -> Result<(), SearchError>
    requires { captures.old.slots ≡ Some 0 ∷ Some 0 ∷ [] }
    ensures row { filled_answer captures.new result ≡ zero_row (search_of input.now) }
    ensures slots { captures.new.slots ≡ Some 0 ∷ Some 0 ∷ [] }
{
    if input.start() == 0 {
        captures.set_pattern(PatternID::new(0));
    } else {
        captures.set_pattern(None);
    }
    Ok(())
}

/// All items of an iterator over captures: the greedy list of that finder, up to a refusal.
pub fn collected_captures(
    alloc: Global,
    haystack: &[u8],
    captures: Captures,
) -> Result<Vec<Result<Captures, SearchError>>, AllocError>
    requires { captures.slots ≡ Some 0 ∷ Some 0 ∷ [] }
    ensures { IfOk result (λ v. UpToRefusal (greedy row_span zero_row (fresh (whole haystack.now)))
        (map (item_by row_of) v.items)) }
{
    let input = Input::new(haystack);
    let searcher = Searcher::new(input);
    let items = searcher.into_captures_iter(captures, captured_at_zero);
    items.collect(alloc)
}
