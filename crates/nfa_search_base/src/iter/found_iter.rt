//! Iterators over the matches or half matches of a stored finder.
use crate::error::SearchError;
use crate::iter::by_ref::ByRef;
use crate::iter::searcher::Searcher;
use crate::iter::spanned::Spanned;
use crate::iter::steps::Steps;
use regex_search_core::{HalfMatch, Input, Match};
use std::fmt;
use std::marker::Model;

/// An iterator over the matches of a finder, from left to right, by the steps of [`Searcher::try_advance`].
///
/// It owns the finder. Its items are `Ok` matches, at most as many as the span has bytes plus one, and at most one
/// error, that of the finder. It is fused: it ends permanently after the first `None` and after the error.
pub type TryMatchesIter<'h, F> = TryFoundIter<'h, Match, F>;

/// An iterator over the half matches of a finder, from left to right, by the steps of
/// [`Searcher::try_advance_half`]. Otherwise the same as [`TryMatchesIter`].
pub type TryHalfMatchesIter<'h, F> = TryFoundIter<'h, HalfMatch, F>;

/// An iterator over the matches of a finder that never fails, from left to right.
///
/// There are at most as many as the span has bytes, plus one. It ends permanently after the first `None`.
pub type MatchesIter<'h, F> = FoundIter<'h, Match, F>;

/// An iterator over the half matches of a finder that never fails. Otherwise the same as [`MatchesIter`].
pub type HalfMatchesIter<'h, F> = FoundIter<'h, HalfMatch, F>;

/// An iterator over what a finder finds: [`TryMatchesIter`] or [`TryHalfMatchesIter`].
#[derive(Drop)]
pub struct TryFoundIter<'h, M, F> {
    steps: Steps<'h, ByRef<F, M>>,
    finder: F,
}

impl<'h, M, F> Model for TryFoundIter<'h, M, F> {
    ghost use Rattle.nfa_search_base.specs.declared.iter.steps.Steps.{Steps};

    ghost Value = { Steps F };

    ghost view = { λ i. record { searcher = i.steps.searcher; backend = i.finder; done = i.steps.done } };
}

impl<'h> Searcher<'h> {
    ghost use Rattle.std.specs.Prelude.{◌≡◌, false};
    ghost use Rattle.std.proofs.lemmas.Iterator.{YieldsList};
    ghost use Rattle.regex_search_core.specs.Found.{Found, HalfFound, found_of, half_found_of};
    ghost use Rattle.regex_search_core.specs.Search.{Search};
    ghost use Rattle.nfa_search_base.specs.IterStates.{Answer, AnswerIsInside, span_of, half_span_of};
    ghost use Rattle.nfa_search_base.specs.Finders.{Finds, AnswersAlong, Computes, IsCallableOn};
    ghost use Rattle.nfa_search_base.specs.Items.{item_by, greedy, GivesItem};
    ghost use Rattle.nfa_search_base.specs.Stored.{iter_state_of, steps_iter_state, can_step, takes_steps};
    ghost use Rattle.nfa_search_base.specs.Runs.{ItemsGiven};
    ghost use Rattle.nfa_search_base.specs.StoredRuns.{AllFound, FirstFound, RunsApart, spans_in};
    ghost use Rattle.nfa_search_base.specs.StoredRuns.{stored_match_steps};

    /// Returns an iterator over the matches that the finder gives from here on.
    ///
    /// Requires that the finder, after any earlier calls, may be called on each input with this haystack, anchoring,
    /// `earliest` flag and span end, and returns a match in that input's span.
    ///
    /// ```
    /// // backtracker of "foo(?<n>[0-9]+)"
    /// let searcher = Searcher::new(Input::new(b"foo1 foo12 foo123"));
    /// let finder = |input: &Input<'_>| backtracker.try_find(cache, *input);
    /// let mut ranges = Vec::new(alloc);
    /// for found in searcher.into_matches_iter(finder) {
    ///     ranges.push(found?.range())?;
    /// }
    /// assert_eq!(rt; ranges.as_slice(), [0..4, 5..10, 11..17].as_slice());
    /// ```
    pub fn into_matches_iter<F>(self, finder: F) -> TryMatchesIter<'h, F>
    where
        F: FnMut(&Input<'_>) -> Result<Option<Match>, SearchError>,
        requires { AnswersAlong found_of F.FnMut (AnswerIsInside span_of) finder (iter_state_of self).at }
        ensures can { can_step (IsCallableOn F.FnMut) (Finds found_of F.FnMut) span_of result }
        ensures iter_state { steps_iter_state result ≡ iter_state_of self.entry }
        ensures finder { result.backend ≡ finder }
        ensures going { result.done ≡ false }
        // The items of each run of calls are the first items, and all of them if the run reaches `None`.
        ensures given { ItemsGiven (stored_match_steps found_of span_of F.FnMut)
            (FirstFound found_of span_of F.FnMut finder (iter_state_of self.entry))
            (AllFound found_of span_of F.FnMut finder (iter_state_of self.entry)) result }
        // They are in the span, in order and without overlap.
        ensures disjoint { RunsApart (stored_match_steps found_of span_of F.FnMut) (spans_in found_of span_of)
            (iter_state_of self.entry) result }
        // If the finder computes h, the items are the greedy list of h.
        ensures list { (h : Search → Answer Found) → Computes found_of F.FnMut h finder (iter_state_of self.entry).at
            → YieldsList (takes_steps span_of (Finds found_of F.FnMut) (λ _. GivesItem found_of)) (item_by found_of)
            result (greedy span_of h (iter_state_of self.entry)) }
    {
        TryFoundIter::new(self, finder)
    }

    /// Returns an iterator over the half matches that the finder gives from here on.
    ///
    /// Requires that the finder, after any earlier calls, may be called on each input with this haystack, anchoring,
    /// `earliest` flag and span end, and returns an offset in that input's span.
    ///
    /// ```
    /// // backtracker of "foo(?<n>[0-9]+)"
    /// let searcher = Searcher::new(Input::new(b"foo1 foo12 foo123"));
    /// let finder = |input: &Input<'_>| backtracker.try_find_half(cache, *input);
    /// let mut ends = Vec::new(alloc);
    /// for half in searcher.into_half_matches_iter(finder) {
    ///     ends.push(half?.offset())?;
    /// }
    /// assert_eq!(rt; ends.as_slice(), [4, 10, 17].as_slice());
    /// ```
    pub fn into_half_matches_iter<F>(self, finder: F) -> TryHalfMatchesIter<'h, F>
    where
        F: FnMut(&Input<'_>) -> Result<Option<HalfMatch>, SearchError>,
        requires { AnswersAlong half_found_of F.FnMut (AnswerIsInside half_span_of) finder (iter_state_of self).at }
        ensures can { can_step (IsCallableOn F.FnMut) (Finds half_found_of F.FnMut) half_span_of result }
        ensures iter_state { steps_iter_state result ≡ iter_state_of self.entry }
        ensures finder { result.backend ≡ finder }
        ensures going { result.done ≡ false }
        // The items of each run of calls are the first items, and all of them if the run reaches `None`.
        ensures given { ItemsGiven (stored_match_steps half_found_of half_span_of F.FnMut)
            (FirstFound half_found_of half_span_of F.FnMut finder (iter_state_of self.entry))
            (AllFound half_found_of half_span_of F.FnMut finder (iter_state_of self.entry)) result }
        // They are in the span, in order and without overlap.
        ensures disjoint { RunsApart (stored_match_steps half_found_of half_span_of F.FnMut)
            (spans_in half_found_of half_span_of) (iter_state_of self.entry) result }
        // If the finder computes h, the items are the greedy list of h.
        ensures list { (h : Search → Answer HalfFound)
            → Computes half_found_of F.FnMut h finder (iter_state_of self.entry).at
            → YieldsList (takes_steps half_span_of (Finds half_found_of F.FnMut) (λ _. GivesItem half_found_of))
            (item_by half_found_of) result (greedy half_span_of h (iter_state_of self.entry)) }
    {
        TryFoundIter::new(self, finder)
    }
}

impl<'h, M, F> TryFoundIter<'h, M, F> {
    ghost use Rattle.std.specs.Prelude.{◌≡◌, false, map};
    ghost use Rattle.std.proofs.lemmas.Iterator.{YieldsList};
    ghost use Rattle.regex_search_core.specs.Search.{Search, search_of};
    ghost use Rattle.nfa_search_base.specs.IterStates.{Answer, IsInfalliblyInside};
    ghost use Rattle.nfa_search_base.specs.Finders.{Finds, AnswersAlong, Computes, IsCallableOn};
    ghost use Rattle.nfa_search_base.specs.Items.{matches_in, greedy_unless, GivesItem};
    ghost use Rattle.nfa_search_base.specs.Stored.{steps_iter_state, steps_from, can_step_infallibly};
    ghost use Rattle.nfa_search_base.specs.Stored.{takes_infallible_steps};
    ghost use Rattle.nfa_search_base.specs.Runs.{ItemsGiven};
    ghost use Rattle.nfa_search_base.specs.StoredRuns.{AllSure, FirstSure, RunsApart, infallible_match_steps};

    fn new(searcher: Searcher<'h>, finder: F) -> TryFoundIter<'h, M, F>
        ensures { result ≡ steps_from searcher.entry finder }
    {
        TryFoundIter {
            steps: Steps {
                searcher,
                backend: ByRef::new(),
                done: false,
            },
            finder,
        }
    }

    /// Returns the input of the next search.
    pub fn input(&self) -> &Input<'h>
        ensures { search_of result.now ≡ (steps_iter_state self.now).at }
    {
        self.steps.searcher.input()
    }

    /// Returns an iterator over the same matches, without `Result`. Requires that the finder never fails, after any
    /// calls.
    pub fn infallible(self) -> FoundIter<'h, M, F>
    where
        M: Spanned,
        F: FnMut(&Input<'_>) -> Result<Option<M>, SearchError>,
        requires { AnswersAlong M.value F.FnMut (IsInfalliblyInside M.span) self.backend (steps_iter_state self).at }
        ensures can { can_step_infallibly (IsCallableOn F.FnMut) (Finds M.value F.FnMut) M.span result }
        ensures same { result ≡ self.entry }
        // The items of each run of calls are the first matches, and all of them if the run reaches `None`.
        ensures given { self.entry.done ≡ false → ItemsGiven (infallible_match_steps M.value M.span F.FnMut)
            (FirstSure M.value M.span F.FnMut self.entry.backend (steps_iter_state self.entry))
            (AllSure M.value M.span F.FnMut self.entry.backend (steps_iter_state self.entry)) result }
        // They are in the span, in order and without overlap.
        ensures disjoint { self.entry.done ≡ false
            → RunsApart (infallible_match_steps M.value M.span F.FnMut) (map (λ m. M.span (M.value m)))
            (steps_iter_state self.entry) result }
        // If the finder computes h, the matches are those of the greedy list of h.
        ensures list { (h : Search → Answer M.Value)
            → Computes M.value F.FnMut h self.entry.backend (steps_iter_state self.entry).at
            → YieldsList (takes_infallible_steps M.span (Finds M.value F.FnMut) (λ _. GivesItem M.value)) M.value
            result (matches_in (greedy_unless M.span self.entry.done h (steps_iter_state self.entry))) }
    {
        FoundIter { tries: self }
    }
}

impl<'h, M: Spanned, F> Iterator for TryFoundIter<'h, M, F>
where
    F: FnMut(&Input<'_>) -> Result<Option<M>, SearchError>,
{
    ghost use Rattle.nfa_search_base.specs.Finders.{IsCallableOn, Finds};
    ghost use Rattle.nfa_search_base.specs.Items.{GivesItem};
    ghost use Rattle.nfa_search_base.specs.Stored.{can_step, takes_steps, steps_left};

    type Item = Result<M, SearchError>;

    ghost can_next = { can_step (IsCallableOn F.FnMut) (Finds M.value F.FnMut) M.span };

    ghost next_gives = { takes_steps M.span (Finds M.value F.FnMut) (λ _. GivesItem M.value) };

    ghost remaining = { steps_left };

    fn next(&mut self) -> Option<Result<M, SearchError>> {
        self.steps.next_with(&mut self.finder)
    }
}

/// Formats the iterator without the finder.
impl<'h, M: Spanned, F> fmt::Debug for TryFoundIter<'h, M, F> {
    fn fmt<W: fmt::Write>(&self, f: &mut fmt::Formatter<W>) -> fmt::Result {
        f.debug_struct(M::TRY_ITER)
            .field("searcher", &self.steps.searcher)
            .field("done", &self.steps.done)
            .finish_non_exhaustive()
    }
}

/// An iterator over what a finder finds if it never fails: [`MatchesIter`] or [`HalfMatchesIter`].
#[derive(Drop)]
pub struct FoundIter<'h, M, F> {
    tries: TryFoundIter<'h, M, F>,
}

impl<'h, M, F> Model for FoundIter<'h, M, F> {
    ghost use Rattle.nfa_search_base.specs.declared.iter.steps.Steps.{Steps};

    ghost Value = { Steps F };

    ghost view = { λ i. i.tries };
}

impl<'h, M, F> FoundIter<'h, M, F> {
    ghost use Rattle.std.specs.Prelude.{◌≡◌};
    ghost use Rattle.regex_search_core.specs.Search.{search_of};
    ghost use Rattle.nfa_search_base.specs.Stored.{steps_iter_state};

    /// Returns the input of the next search.
    pub fn input(&self) -> &Input<'h>
        ensures { search_of result.now ≡ (steps_iter_state self.now).at }
    {
        self.tries.input()
    }
}

impl<'h, M: Spanned, F> Iterator for FoundIter<'h, M, F>
where
    F: FnMut(&Input<'_>) -> Result<Option<M>, SearchError>,
{
    ghost use Rattle.nfa_search_base.specs.Finders.{IsCallableOn, Finds};
    ghost use Rattle.nfa_search_base.specs.Items.{GivesItem};
    ghost use Rattle.nfa_search_base.specs.Stored.{can_step_infallibly, takes_infallible_steps, infallible_left};

    type Item = M;

    ghost can_next = { can_step_infallibly (IsCallableOn F.FnMut) (Finds M.value F.FnMut) M.span };

    ghost next_gives = { takes_infallible_steps M.span (Finds M.value F.FnMut) (λ _. GivesItem M.value) };

    ghost remaining = { infallible_left };

    fn next(&mut self) -> Option<M> {
        match self.tries.next() {
            Some(Ok(found)) => Some(found),
            None => None,
            Some(Err(_)) => unreachable!(),
        }
    }
}

/// Formats the iterator without the finder.
impl<'h, M: Spanned, F> fmt::Debug for FoundIter<'h, M, F> {
    fn fmt<W: fmt::Write>(&self, f: &mut fmt::Formatter<W>) -> fmt::Result {
        f.debug_struct(M::ITER).field("tries", &self.tries).finish()
    }
}
