//! Iterators over the captures of a stored finder.
use crate::error::SearchError;
use crate::iter::by_ref::FillByRef;
use crate::iter::searcher::Searcher;
use crate::iter::steps::Steps;
use regex_search_core::{Captures, Input};
use std::fmt;
use std::marker::Model;

/// An iterator over the captures of the matches of a finder, from left to right, by the steps of
/// [`Searcher::try_advance`].
///
/// It owns the finder and the captures that the finder writes. Its items are `Ok` copies of these captures, at most as
/// many as the span has bytes plus one, and at most one error: that of the finder, or [`SearchError::Memory`] if the
/// allocation of a copy failed. It is fused: it ends permanently after the first `None` and after the error.
#[derive(Drop)]
pub struct TryCapturesIter<'h, F> {
    steps: Steps<'h, FillByRef<F>>,
    finder: F,
}

impl<'h, F> Model for TryCapturesIter<'h, F> {
    ghost use Rattle.nfa_search_base.specs.WithCaptures.{WithCaptures};
    ghost use Rattle.nfa_search_base.specs.declared.iter.steps.Steps.{Steps};

    ghost Value = { Steps (WithCaptures F) };

    ghost view = { λ i. record {
      searcher = i.steps.searcher;
      backend = record { finder = i.finder; captures = i.steps.backend };
      done = i.steps.done;
    } };
}

impl<'h> Searcher<'h> {
    ghost use Rattle.std.specs.Prelude.{◌≡◌, false};
    ghost use Rattle.regex_search_core.specs.Search.{Search};
    ghost use Rattle.nfa_search_base.specs.WithCaptures.{Row, row_of, row_span, CanFill, Fills, FillsAlong, FillsBy};
    ghost use Rattle.nfa_search_base.specs.WithCaptures.{GivesCaptures, YieldsUpToRefusal};
    ghost use Rattle.nfa_search_base.specs.Items.{item_by, greedy};
    ghost use Rattle.nfa_search_base.specs.Stored.{iter_state_of, steps_iter_state, can_step, takes_steps};
    ghost use Rattle.nfa_search_base.specs.Runs.{ItemsGiven};
    ghost use Rattle.nfa_search_base.specs.StoredRuns.{AllFilled, FirstFilled, RunsApart, spans_in};
    ghost use Rattle.nfa_search_base.specs.StoredRuns.{stored_captures_steps};
    ghost use Rattle.nfa_search_base.specs.IterStates.{Answer, AnswerIsInside};

    /// Returns an iterator over the captures that the finder gives from here on.
    ///
    /// Requires that the finder, after any earlier calls and with the captures that they left, may be called on each
    /// input with this haystack, anchoring, `earliest` flag and span end, and leaves captures whose match is in that
    /// input's span.
    ///
    /// ```
    /// // backtracker of "foo(?<n>[0-9]+)"
    /// let searcher = Searcher::new(Input::new(b"foo1 foo12 foo123"));
    /// let finder = |input: &Input<'_>, row: &mut Captures| backtracker.try_search(cache, input, row);
    /// let mut last = None;
    /// for captures in searcher.into_captures_iter(captures, finder) {
    ///     last = captures?.get_group_by_name("n");
    /// }
    /// assert_eq!(rt; last, Some(Span { start: 14, end: 17 }));
    /// ```
    pub fn into_captures_iter<F>(self, captures: Captures, finder: F) -> TryCapturesIter<'h, F>
    where
        F: FnMut(&Input<'_>, &mut Captures) -> Result<(), SearchError>,
        requires { FillsAlong F.FnMut (AnswerIsInside row_span) (record { finder = finder; captures = captures })
            (iter_state_of self).at }
        ensures can { can_step (CanFill F.FnMut) (Fills F.FnMut) row_span result }
        ensures iter_state { steps_iter_state result ≡ iter_state_of self.entry }
        ensures finder { result.backend ≡ record { finder = finder; captures = captures } }
        ensures going { result.done ≡ false }
        // The items of each run of calls are the first captures, and all of them if the run reaches `None`.
        ensures given { ItemsGiven (stored_captures_steps F.FnMut)
            (FirstFilled F.FnMut (record { finder = finder; captures = captures }) (iter_state_of self.entry))
            (AllFilled F.FnMut (record { finder = finder; captures = captures }) (iter_state_of self.entry)) result }
        // Their matches are in the span, in order and without overlap.
        ensures disjoint { RunsApart (stored_captures_steps F.FnMut) (spans_in row_of row_span)
            (iter_state_of self.entry) result }
        // If the finder computes h, the items hold the rows of the greedy list of h, up to a failed allocation.
        ensures list { (h : Search → Answer Row) → FillsBy F.FnMut h (record { finder = finder; captures = captures })
            (iter_state_of self.entry).at → YieldsUpToRefusal (takes_steps row_span (Fills F.FnMut) GivesCaptures)
            (item_by row_of) result (greedy row_span h (iter_state_of self.entry)) }
    {
        TryCapturesIter {
            steps: Steps {
                searcher: self,
                backend: FillByRef::new(captures),
                done: false,
            },
            finder,
        }
    }
}

impl<'h, F> TryCapturesIter<'h, F> {
    ghost use Rattle.std.specs.Prelude.{◌≡◌, false};
    ghost use Rattle.regex_search_core.specs.Search.{Search, search_of};
    ghost use Rattle.nfa_search_base.specs.WithCaptures.{Row, row_of, row_span, CanFill, Fills, FillsAlong, FillsBy};
    ghost use Rattle.nfa_search_base.specs.WithCaptures.{YieldsUpToRefusal};
    ghost use Rattle.nfa_search_base.specs.StoredRuns.{takes_infallible_captures};
    ghost use Rattle.nfa_search_base.specs.Items.{item_by, greedy_unless};
    ghost use Rattle.nfa_search_base.specs.Stored.{steps_iter_state, can_step_infallibly};
    ghost use Rattle.nfa_search_base.specs.Runs.{ItemsGiven};
    ghost use Rattle.nfa_search_base.specs.StoredRuns.{AllFilled, FirstFilled, RunsApart, spans_in};
    ghost use Rattle.nfa_search_base.specs.IterStates.{Answer, IsInfalliblyInside};

    /// Returns the input of the next search.
    pub fn input(&self) -> &Input<'h>
        ensures { search_of result.now ≡ (steps_iter_state self.now).at }
    {
        self.steps.searcher.input()
    }

    /// Returns an iterator over the same captures. Its only error is [`SearchError::Memory`]. Requires that the finder
    /// never fails, after any calls.
    pub fn infallible(self) -> CapturesIter<'h, F>
    where
        F: FnMut(&Input<'_>, &mut Captures) -> Result<(), SearchError>,
        requires { FillsAlong F.FnMut (IsInfalliblyInside row_span) self.backend (steps_iter_state self).at }
        ensures can { can_step_infallibly (CanFill F.FnMut) (Fills F.FnMut) row_span result }
        ensures same { result ≡ self.entry }
        // The items of each run of calls are the first captures, and all of them if the run reaches `None`.
        ensures given { self.entry.done ≡ false → ItemsGiven (takes_infallible_captures F.FnMut)
            (FirstFilled F.FnMut self.entry.backend (steps_iter_state self.entry))
            (AllFilled F.FnMut self.entry.backend (steps_iter_state self.entry)) result }
        // Their matches are in the span, in order and without overlap.
        ensures disjoint { self.entry.done ≡ false
            → RunsApart (takes_infallible_captures F.FnMut) (spans_in row_of row_span) (steps_iter_state self.entry)
            result }
        // If the finder computes h, the items hold the rows of the greedy list of h, up to a failed allocation.
        ensures list { (h : Search → Answer Row) → FillsBy F.FnMut h self.entry.backend (steps_iter_state self.entry).at
            → YieldsUpToRefusal (takes_infallible_captures F.FnMut) (item_by row_of) result
            (greedy_unless row_span self.entry.done h (steps_iter_state self.entry)) }
    {
        CapturesIter { tries: self }
    }
}

impl<'h, F> Iterator for TryCapturesIter<'h, F>
where
    F: FnMut(&Input<'_>, &mut Captures) -> Result<(), SearchError>,
{
    ghost use Rattle.nfa_search_base.specs.WithCaptures.{row_span, CanFill, Fills, GivesCaptures};
    ghost use Rattle.nfa_search_base.specs.Stored.{can_step, takes_steps, steps_left};

    type Item = Result<Captures, SearchError>;

    ghost can_next = { can_step (CanFill F.FnMut) (Fills F.FnMut) row_span };

    ghost next_gives = { takes_steps row_span (Fills F.FnMut) GivesCaptures };

    ghost remaining = { steps_left };

    fn next(&mut self) -> Option<Result<Captures, SearchError>> {
        self.steps.next_with(&mut self.finder)
    }
}

/// Formats the iterator without the finder.
impl<'h, F> fmt::Debug for TryCapturesIter<'h, F> {
    fn fmt<W: fmt::Write>(&self, f: &mut fmt::Formatter<W>) -> fmt::Result {
        f.debug_struct("TryCapturesIter")
            .field("searcher", &self.steps.searcher)
            .field("captures", &self.steps.backend.captures)
            .field("done", &self.steps.done)
            .finish_non_exhaustive()
    }
}

/// An iterator over the captures of the matches of a finder that never fails, from left to right.
///
/// There are at most as many as the span has bytes, plus one. It ends permanently after the first `None` and after a
/// failed allocation.
#[derive(Drop)]
pub struct CapturesIter<'h, F> {
    tries: TryCapturesIter<'h, F>,
}

impl<'h, F> Model for CapturesIter<'h, F> {
    ghost use Rattle.nfa_search_base.specs.WithCaptures.{WithCaptures};
    ghost use Rattle.nfa_search_base.specs.declared.iter.steps.Steps.{Steps};

    ghost Value = { Steps (WithCaptures F) };

    ghost view = { λ i. i.tries };
}

impl<'h, F> CapturesIter<'h, F> {
    ghost use Rattle.std.specs.Prelude.{◌≡◌};
    ghost use Rattle.regex_search_core.specs.Search.{search_of};
    ghost use Rattle.nfa_search_base.specs.Stored.{steps_iter_state};

    /// Returns the input of the next search.
    pub fn input(&self) -> &Input<'h>
        ensures { search_of result.now ≡ (steps_iter_state self.now).at }
    {
        self.tries.input()
    }
}

impl<'h, F> Iterator for CapturesIter<'h, F>
where
    F: FnMut(&Input<'_>, &mut Captures) -> Result<(), SearchError>,
{
    ghost use Rattle.nfa_search_base.specs.WithCaptures.{row_span, CanFill, Fills};
    ghost use Rattle.nfa_search_base.specs.StoredRuns.{takes_infallible_captures};
    ghost use Rattle.nfa_search_base.specs.Stored.{can_step_infallibly, steps_left};

    type Item = Result<Captures, SearchError>;

    ghost can_next = { can_step_infallibly (CanFill F.FnMut) (Fills F.FnMut) row_span };

    ghost next_gives = { takes_infallible_captures F.FnMut };

    ghost remaining = { steps_left };

    fn next(&mut self) -> Option<Result<Captures, SearchError>> {
        self.tries.next()
    }
}

/// Formats the iterator without the finder.
impl<'h, F> fmt::Debug for CapturesIter<'h, F> {
    fn fmt<W: fmt::Write>(&self, f: &mut fmt::Formatter<W>) -> fmt::Result {
        f.debug_struct("CapturesIter")
            .field("tries", &self.tries)
            .finish()
    }
}
