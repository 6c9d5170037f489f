//! Iteration over the captures of the matches of an input.
ghost use Rattle.nfa_search_base.specs.Lists.{HasGroups};

use crate::cache::Cache;
use crate::engine::BoundedBacktracker;
use nfa_search_base::error::SearchError;
use nfa_search_base::iter::captures_items::{captures_item, captures_span};
use nfa_search_base::iter::{FindWith, Searcher, Steps};
use regex_search_core::{Captures, Input, Span};
use std::alloc::Global;
use std::marker::Model;

/// An iterator over the captures of all matches of an input that do not overlap, from left to right.
/// [`BoundedBacktracker::try_captures_iter`] returns it.
///
/// Its items are `Ok` captures, each its own copy, at most n + 1 for a span of n bytes, and at most one error. The
/// error is a refusal of the search, or [`SearchError::Memory`] if a copy could not be allocated. The iterator is
/// fused: after the last match or the error it returns only `None`.
#[derive(Debug, Drop)]
pub struct TryCapturesMatches<'r, 'c, 'h> {
    cache: &'c mut Cache,
    steps: Steps<'h, CapturesFinder<'r>>,
    ghost holds: { HasGroups steps.backend.finder.nfa steps.backend.captures },
}

// The backtracker that answers the searches of one iteration, and the captures that it fills.
#[derive(Debug, Drop)]
struct CapturesFinder<'r> {
    engine: &'r BoundedBacktracker,
    captures: Captures,
}

impl<'r> Model for CapturesFinder<'r> {
    ghost use Rattle.nfa_search_base.specs.WithCaptures.{WithCaptures};
    ghost use Rattle.nfa_backtrack.specs.Backtrack.{Backtracker};

    ghost Value = { WithCaptures Backtracker };

    ghost view = { λ a. record { finder = a.engine.now; captures = a.captures } };
}

impl BoundedBacktracker {
    ghost use Rattle.std.specs.Prelude.{◌≡◌, false, All, IfOk, IsOkUnless, None, map};
    ghost use Rattle.regex_search_core.specs.Search.{search_of};
    ghost use Rattle.regex_search_core.specs.declared.search.MatchKind.TheVariants.{LeftmostFirst};
    ghost use Rattle.nfa_search_base.specs.Runs.{CapturesGiven, CapturesInside, CapturesWithin, match_in};
    ghost use Rattle.nfa_search_base.specs.WithCaptures.{filled_answer, row_of};
    ghost use Rattle.nfa_search_base.specs.Lists.{AreRows, AreDisjoint, AreMatches};
    ghost use Rattle.nfa_backtrack.specs.Iterators.{CapturesBySearches, backtrack_captures};
    ghost use Rattle.nfa_backtrack.specs.Iterators.{backtrack_captures_next};
    ghost use Rattle.nfa_backtrack.specs.Runs.{RunsRefused};
    ghost use Rattle.nfa_backtrack.specs.Backtrack.{IsTooLong};
    ghost use Rattle.nfa_backtrack.specs.Finding.{AnswersByLength, BacktrackerCapturesOn, BacktrackerCapturesToEnd};
    ghost use Rattle.nfa_backtrack.specs.Finding.{IsTryCapturesAnswer, SearchesOnce};

    /// Returns an iterator over the captures of all matches that do not overlap, from left to right, each with all
    /// groups of the NFA. This call does not change the cache. The only error is [`SearchError::Memory`]: the captures
    /// to search with could not be allocated.
    ///
    /// Each search starts at the end of the last match. An empty match there is replaced by the result of a search from
    /// one byte further on. An answer that gives no match ends the list, for instance if the NFA does not set the two
    /// slots of its pattern. Each item is a copy. If it cannot be allocated, or if a search is refused, the item is the
    /// error, and it is the last one. If the span is too long, the only item is that refusal.
    ///
    /// ```
    /// // backtracker of "foo(?<n>[0-9]+)"
    /// let mut last = None;
    /// for captures in backtracker.try_captures_iter(alloc, cache, Input::new(b"foo1 foo12 foo123"))? {
    ///     last = captures?.get_group_by_name("n");
    /// }
    /// assert_eq!(rt; last, Some(Span { start: 14, end: 17 }));
    /// ```
    pub fn try_captures_iter<'r, 'c, 'h>(
        &'r self,
        alloc: Global,
        cache: &'c mut Cache,
        input: Input<'h>,
    ) -> Result<TryCapturesMatches<'r, 'c, 'h>, SearchError>
        ensures memory { IsOkUnless result SearchError.Memory }
        ensures same_reference { IfOk result (λ made.
            (backtrack_captures made).cache.ghost_name ≡ cache.entry.ghost_name) }
        ensures same_cache { IfOk result (λ made. (backtrack_captures made).cache.now ≡ cache.entry.now) }
        // Each run of calls gives the first captures of the input, and all of them if it goes on to `None`. If no copy
        // fails, their rows and their matches are those of the input.
        ensures given { IfOk result (CapturesGiven backtrack_captures_next self.now.nfa LeftmostFirst false
            (IsTryCapturesAnswer self.now) (search_of input.entry)) }
        ensures inside { IfOk result (CapturesWithin backtrack_captures_next (search_of input.entry)) }
        ensures refused { IfOk result (RunsRefused backtrack_captures_next self.now (search_of input.entry)) }
        // The cache changes only by the searches of the steps.
        ensures searches { IfOk result (CapturesBySearches self.now (search_of input.entry)) }
    {
        let captures = self.create_captures(alloc)?;
        Ok(self.try_captures_iter_with(cache, input, captures))
    }

    /// Returns the same iterator, but searches with the given captures, which must have all groups of this NFA
    /// ([`BoundedBacktracker::create_captures`]). Does not allocate, and cannot fail.
    ///
    /// ```
    /// // backtracker of "foo(?<n>[0-9]+)"
    /// let input = Input::new(b"foo1 foo12 foo123");
    /// let captures = backtracker.create_captures(alloc)?;
    /// let mut last = None;
    /// for captures in backtracker.try_captures_iter_with(cache, input, captures) {
    ///     last = captures?.get_group_by_name("n");
    /// }
    /// assert_eq!(rt; last, Some(Span { start: 14, end: 17 }));
    /// ```
    #[inline]
    pub fn try_captures_iter_with<'r, 'c, 'h>(
        &'r self,
        cache: &'c mut Cache,
        input: Input<'h>,
        captures: Captures,
    ) -> TryCapturesMatches<'r, 'c, 'h>
        requires { HasGroups self.now.nfa captures }
        ensures same_reference { (backtrack_captures result).cache.ghost_name ≡ cache.entry.ghost_name }
        ensures same_cache { (backtrack_captures result).cache.now ≡ cache.entry.now }
        // Each run of calls gives the first captures of the input, and all of them if it goes on to `None`. If no copy
        // fails, their rows and their matches are those of the input.
        ensures given { CapturesGiven backtrack_captures_next self.now.nfa LeftmostFirst false (IsTryCapturesAnswer
            self.now) (search_of input.entry) result }
        ensures inside { CapturesWithin backtrack_captures_next (search_of input.entry) result }
        ensures refused { RunsRefused backtrack_captures_next self.now (search_of input.entry) result }
        // The cache changes only by the searches of the steps.
        ensures searches { CapturesBySearches self.now (search_of input.entry) result }
    {
        TryCapturesMatches {
            cache,
            steps: Steps {
                searcher: Searcher::new(input),
                backend: CapturesFinder {
                    engine: self,
                    captures,
                },
                done: false,
            },
        }
    }

    /// Returns the captures of all matches of the input that do not overlap, from left to right, each with all groups
    /// of the NFA.
    ///
    /// # Errors
    ///
    /// `HaystackTooLong` exactly if the span is too long, which is tested first; otherwise `Memory`.
    ///
    /// ```
    /// // backtracker of "foo(?<n>[0-9]+)"
    /// let all = backtracker.try_captures_all(alloc, cache, Input::new(b"foo1 foo12 foo123"))?;
    /// assert_eq!(rt; all.len(), 3);
    /// let digits = all[2].get_group_by_name("n");
    /// assert_eq!(rt; digits, Some(Span { start: 14, end: 17 }));
    /// ```
    pub fn try_captures_all(
        &self,
        alloc: Global,
        cache: &mut Cache,
        input: Input<'_>,
    ) -> Result<Vec<Captures>, SearchError>
        ensures rows { IfOk result (λ all. AreRows self.now.nfa LeftmostFirst false (search_of input.entry)
            (map row_of all.items)) }
        ensures matches { IfOk result (λ all. AreMatches self.now.nfa LeftmostFirst false (search_of input.entry)
            (map match_in all.items)) }
        ensures groups { IfOk result (λ all. All (HasGroups self.now.nfa) all.items) }
        ensures inside { IfOk result (λ all. All (CapturesInside (search_of input.entry)) all.items) }
        ensures disjoint { IfOk result (λ all. AreDisjoint (search_of input.entry) None (map match_in all.items)) }
        ensures by_length { AnswersByLength self.now (search_of input.entry) result }
        // The cache changes only by the searches of an iteration. If all captures are returned, these searches go to
        // its end.
        ensures searches { BacktrackerCapturesOn self.now (search_of input.entry) cache.old cache.new }
        ensures to_end { IfOk result (λ all.
            BacktrackerCapturesToEnd self.now (search_of input.entry) (map row_of all.items) cache.old cache.new) }
        // If the span is too long, no search is made, and the cache is unchanged.
        ensures early { IsTooLong self.now (search_of input.entry) → cache.new ≡ cache.old }
    {
        if self.is_too_long(&input) {
            return Err(SearchError::HaystackTooLong {
                len: input.get_span().len(),
            });
        }
        let finder = CapturesFinder {
            engine: self,
            captures: self.create_captures(alloc)?,
        };
        Steps::new(input, finder).all_with(alloc, cache)
    }

    // Returns the captures of one search, and states its work.
    #[inline]
    fn fill_at(
        &self,
        cache: &mut Cache,
        input: &Input<'_>,
        captures: &mut Captures,
    ) -> Result<(), SearchError>
        requires { HasGroups self.now.nfa captures.old }
        ensures tells { IsTryCapturesAnswer self.now (search_of input.now) (filled_answer captures.new result) }
        ensures holds { HasGroups self.now.nfa captures.new }
        ensures once { SearchesOnce self.now (search_of input.now) (filled_answer captures.new result) cache.old
            cache.new }
    {
        self.try_search(cache, input, captures)
    }
}

impl<'r> FindWith for CapturesFinder<'r> {
    ghost use Rattle.nfa_search_base.specs.WithCaptures.{Row, filled_answer, row_span, GivesCaptures};
    ghost use Rattle.nfa_backtrack.specs.Iterators.{AsksBacktrackerRow, fits_always};
    ghost use Rattle.nfa_search_base.specs.EngineSearches.{MayFill};

    type Cache = Cache;

    type Reply = Result<(), SearchError>;

    ghost Value = { Row };

    ghost shows = { λ c reply. filled_answer c.captures reply };

    ghost span = { row_span };

    ghost accepts = { λ s _. MayFill (λ e. e.nfa) fits_always s };

    type Item = Captures;

    ghost gives = { GivesCaptures };

    ghost asks = { AsksBacktrackerRow };

    #[inline]
    fn answer(&mut self, cache: &mut Cache, input: &Input<'_>) -> Result<(), SearchError> {
        self.engine.fill_at(cache, input, &mut self.captures)
    }

    #[inline]
    fn reply_span(&self, reply: Result<(), SearchError>) -> Option<Span> {
        captures_span(&self.captures, reply)
    }

    #[inline]
    fn item(&self, reply: Result<(), SearchError>) -> Option<Result<Captures, SearchError>> {
        captures_item(&self.captures, reply)
    }
}

impl<'r, 'c, 'h> Iterator for TryCapturesMatches<'r, 'c, 'h> {
    ghost use Rattle.nfa_search_base.specs.Stored.{steps_left};
    ghost use Rattle.nfa_backtrack.specs.Iterators.{backtrack_captures, backtrack_captures_next};

    type Item = Result<Captures, SearchError>;

    ghost next_gives = { backtrack_captures_next };

    ghost remaining = { λ s. steps_left (backtrack_captures s).steps };

    fn next(&mut self) -> Option<Result<Captures, SearchError>> {
        self.steps.next_with(self.cache)
    }
}
