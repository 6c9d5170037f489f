//! Iteration over the matches of an input.
ghost use Rattle.std.specs.Prelude.{◌≡◌, Ok, Some, option_map};
ghost use Rattle.std.specs.Option.{ForSome};
ghost use Rattle.regex_search_core.specs.Found.{found_of};
ghost use Rattle.regex_search_core.specs.Search.{search_of};
ghost use Rattle.nfa_search_base.specs.EngineSearches.{IsKnownFrom, found_in};
ghost use Rattle.nfa_search_base.specs.Items.{answer_by};
ghost use Rattle.nfa_search_base.specs.Stored.{steps_iter_state};
ghost use Rattle.nfa_backtrack.specs.Finding.{IsSureAt};

use crate::cache::Cache;
use crate::engine::BoundedBacktracker;
use nfa_search_base::error::SearchError;
use nfa_search_base::iter::match_items::ending_at;
use nfa_search_base::iter::{FindWith, Searcher, Steps};
use regex_search_core::{Input, Match, Span};
use std::alloc::Global;

/// An iterator over all matches of an input that do not overlap, from left to right.
/// [`BoundedBacktracker::try_find_iter`] returns it.
///
/// Its items are `Ok` matches, at most n + 1 for a span of n bytes, and at most one error. It is fused: after the last
/// match or the error it returns only `None`.
#[derive(Debug, Drop)]
pub struct TryFindMatches<'r, 'c, 'h> {
    cache: &'c mut Cache,
    steps: Steps<'h, Finder<'r>>,
    ghost knows: { IsKnownFrom IsSureAt steps.backend.engine.now (steps_iter_state steps).at steps.backend.known },
}

// The backtracker that answers the searches of one iteration. It has no model: with one, a caller of the iterator would
// not learn what the cache is at its end.
#[derive(Debug, Drop)]
struct Finder<'r> {
    engine: &'r BoundedBacktracker,
    // The match that the last search found, if it ends where the last scan of that search started. It also answers a
    // search from there.
    known: Option<Match>,
}

impl BoundedBacktracker {
    ghost use Rattle.std.specs.Prelude.{false, All, IfOk, None, map};
    ghost use Rattle.regex_search_core.specs.Found.{found_of};
    ghost use Rattle.regex_search_core.specs.declared.search.MatchKind.TheVariants.{LeftmostFirst};
    ghost use Rattle.nfa_search_base.specs.Lists.{AreMatches, AreDisjoint, IsInside};
    ghost use Rattle.nfa_backtrack.specs.Backtrack.{IsTooLong, refused_early};
    ghost use Rattle.nfa_backtrack.specs.Finding.{AnswersByLength, BacktrackerFindsOn, BacktrackerFindsToEnd};
    ghost use Rattle.nfa_search_base.specs.Runs.{ItemsGiven, OksGiven};
    ghost use Rattle.nfa_backtrack.specs.Iterators.{backtrack_matches};
    ghost use Rattle.nfa_backtrack.specs.Iterators.{backtrack_matches_next, FindsBySearches};
    ghost use Rattle.nfa_backtrack.specs.Runs.{AreAllItems, AreFirstItems, OksAreAll, OksAreFirst, RunsDisjoint};
    ghost use Rattle.nfa_backtrack.specs.Runs.{RunsInside, GivenByLength};

    /// Returns an iterator over all matches that do not overlap, from left to right. Does not allocate.
    ///
    /// Each search starts at the end of the last match. An empty match there is replaced by the result of a search from
    /// one byte further on. If the span is too long, the only item is that refusal. An error is given once, and is the
    /// last item.
    ///
    /// ```
    /// // backtracker of "foo(?<n>[0-9]+)"
    /// let mut ranges = Vec::new(alloc);
    /// for found in backtracker.try_find_iter(cache, Input::new(b"foo1 foo12 foo123")) {
    ///     ranges.push(found?.range())?;
    /// }
    /// assert_eq!(rt; ranges.as_slice(), [0..4, 5..10, 11..17].as_slice());
    /// ```
    pub fn try_find_iter<'r, 'c, 'h>(
        &'r self,
        cache: &'c mut Cache,
        input: Input<'h>,
    ) -> TryFindMatches<'r, 'c, 'h>
        ensures same_reference { (backtrack_matches result).cache.ghost_name ≡ cache.entry.ghost_name }
        ensures same_cache { (backtrack_matches result).cache.now ≡ cache.entry.now }
        // Each run of calls gives the first items, and all of them if it goes on to `None`.
        ensures given { ItemsGiven backtrack_matches_next (AreFirstItems self.now (search_of input.entry))
            (AreAllItems self.now (search_of input.entry)) result }
        // If they are all `Ok`, they are matches of the input.
        ensures matches { OksGiven backtrack_matches_next (OksAreFirst self.now (search_of input.entry))
            (OksAreAll self.now (search_of input.entry)) result }
        ensures inside { RunsInside (search_of input.entry) result }
        ensures disjoint { RunsDisjoint (search_of input.entry) result }
        // A span that is too long gives one refusal and no match; after any other, the only error is want of memory.
        ensures by_length { GivenByLength self.now (search_of input.entry) result }
        // The cache changes only by the searches of the steps.
        ensures searches { FindsBySearches self.now (search_of input.entry) result }
    {
        TryFindMatches {
            cache,
            steps: Steps {
                searcher: Searcher::new(input),
                backend: Finder {
                    engine: self,
                    known: None,
                },
                done: false,
            },
        }
    }

    /// Returns all matches that do not overlap, from left to right.
    ///
    /// # Errors
    ///
    /// `HaystackTooLong` exactly if the span is too long; otherwise `Memory`, if allocation failed.
    ///
    /// ```
    /// // backtracker of "foo(?<n>[0-9]+)"
    /// let all = backtracker.try_find_all(alloc, cache, Input::new(b"foo1 foo12 foo123"))?;
    /// assert_eq!(rt; all.len(), 3);
    /// assert_eq!(rt; all[2].range(), 11..17);
    /// ```
    pub fn try_find_all(
        &self,
        alloc: Global,
        cache: &mut Cache,
        input: Input<'_>,
    ) -> Result<Vec<Match>, SearchError>
        ensures all { IfOk result (λ found.
            AreMatches self.now.nfa LeftmostFirst false (search_of input.entry) (map found_of found.items)) }
        ensures disjoint { IfOk result (λ found. AreDisjoint (search_of input.entry) None (map found_of found.items)) }
        ensures inside { IfOk result (λ found. All (λ m. IsInside (search_of input.entry) (found_of m)) found.items) }
        ensures by_length { AnswersByLength self.now (search_of input.entry) result }
        // The cache changes only by the searches of an iteration. If all matches are returned, these searches go to its
        // end.
        ensures searches { BacktrackerFindsOn self.now (search_of input.entry) cache.old cache.new }
        ensures to_end { IfOk result (λ found.
            BacktrackerFindsToEnd self.now (search_of input.entry) (map found_of found.items) cache.old cache.new) }
        // If the span is too long, one refusal is counted, and nothing else changes in the cache.
        ensures early { IsTooLong self.now (search_of input.entry) → cache.new ≡ refused_early cache.old }
    {
        let mut found = Vec::new(alloc);
        for item in self.try_find_iter(cache, input) {
            found.push(item?)?;
        }
        Ok(found)
    }
}

impl<'r> FindWith for Finder<'r> {
    ghost use Rattle.regex_search_core.specs.Found.{Found, found_of};
    ghost use Rattle.nfa_search_base.specs.Items.{GivesItem, answer_by};
    ghost use Rattle.nfa_search_base.specs.IterStates.{span_of};
    ghost use Rattle.nfa_backtrack.specs.Iterators.{AsksBacktracker, MayFindByBacktracker};

    type Cache = Cache;

    type Reply = Result<Option<Match>, SearchError>;

    ghost Value = { Found };

    ghost shows = { λ _ reply. answer_by found_of reply };

    ghost span = { span_of };

    ghost accepts = { MayFindByBacktracker };

    type Item = Match;

    ghost gives = { λ _. GivesItem found_of };

    ghost asks = { AsksBacktracker };

    #[inline]
    fn answer(
        &mut self,
        cache: &mut Cache,
        input: &Input<'_>,
    ) -> Result<Option<Match>, SearchError> {
        let known = ending_at(input.start(), self.known);
        if known.is_some() {
            return Ok(known);
        }
        let mut start = input.start();
        let reply = self.engine.find_with_start(cache, input, &mut start);
        self.known = ending_at(start, found_in(reply));
        reply
    }

    #[inline]
    fn reply_span(&self, reply: Result<Option<Match>, SearchError>) -> Option<Span> {
        match reply {
            Ok(Some(found)) => Some(found.span()),
            Ok(None) => None,
            Err(_) => None,
        }
    }

    #[inline]
    fn item(
        &self,
        reply: Result<Option<Match>, SearchError>,
    ) -> Option<Result<Match, SearchError>> {
        reply.transpose()
    }
}

// Returns the match of a reply.
#[inline]
fn found_in(reply: Result<Option<Match>, SearchError>) -> Option<Match>
    ensures found { ForSome result (λ m. reply ≡ Ok (Some m)) }
    ensures exactly { option_map found_of result ≡ found_in (answer_by found_of reply) }
{
    match reply {
        Ok(matched) => matched,
        Err(_) => None,
    }
}

impl<'r, 'c, 'h> Iterator for TryFindMatches<'r, 'c, 'h> {
    ghost use Rattle.nfa_search_base.specs.Stored.{steps_left};
    ghost use Rattle.nfa_backtrack.specs.Iterators.{backtrack_matches, backtrack_matches_next};

    type Item = Result<Match, SearchError>;

    ghost next_gives = { backtrack_matches_next };

    ghost remaining = { λ s. steps_left (backtrack_matches s).steps };

    fn next(&mut self) -> Option<Result<Match, SearchError>> {
        self.steps.next_with(self.cache)
    }
}
