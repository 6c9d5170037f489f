//! Iteration over the matches of an input.
ghost use Rattle.std.specs.Prelude.{◌≡◌};
ghost use Rattle.regex_search_core.specs.Search.{search_of};
ghost use Rattle.nfa_search_base.specs.EngineSearches.{IsKnownFrom};
ghost use Rattle.nfa_search_base.specs.Stored.{GivesStepsWith, steps_iter_state};
ghost use Rattle.nfa_pikevm.specs.Engines.{Fits};
ghost use Rattle.nfa_pikevm.specs.Finding.{IsSureOf};

use crate::cache::Cache;
use crate::engine::PikeVM;
use nfa_search_base::error::SearchError;
use nfa_search_base::iter::match_items::{ending_at, found_item, found_span};
use nfa_search_base::iter::{FindWith, Searcher, Steps};
use regex_search_core::{Input, Match, Span};
use std::alloc::Global;

/// An iterator over all matches of an input that do not overlap, from left to right. [`PikeVM::find_iter`] returns it.
///
/// It gives at most n + 1 matches for a span of n bytes. It is fused: after the last match it returns only `None`.
#[derive(Debug, Drop)]
pub struct FindMatches<'r, 'c, 'h> {
    cache: &'c mut Cache,
    steps: Steps<'h, Finder<'r>>,
    ghost fits: { Fits cache.now steps.backend.engine.now.nfa },
    ghost knows: { IsKnownFrom IsSureOf steps.backend.engine.now (steps_iter_state steps).at steps.backend.known },
}

// The PikeVM that answers the searches of one iteration. It has no model: with one, a caller of the iterator would not
// learn what the cache is at its end.
#[derive(Debug, Drop)]
struct Finder<'r> {
    engine: &'r PikeVM,
    // The match that the last search found, if it ends where the last scan of that search started. It also answers a
    // search from there.
    known: Option<Match>,
}

impl PikeVM {
    ghost use Rattle.std.specs.Prelude.{All, IfOk, IsOk, IsOkUnless, None, [], map};
    ghost use Rattle.regex_search_core.specs.Found.{found_of};
    ghost use Rattle.nfa_search_base.specs.Lists.{AreMatches, AreDisjoint, IsInside};
    ghost use Rattle.nfa_pikevm.specs.Engines.{SameCapacities, kind_of};
    ghost use Rattle.nfa_pikevm.specs.Iterators.{FindsBySearches, pike_matches};
    ghost use Rattle.nfa_pikevm.specs.Iterators.{pike_matches_next};
    ghost use Rattle.nfa_pikevm.specs.Finding.{PikeFindsOn, PikeFindsToEnd};
    ghost use Rattle.nfa_search_base.specs.Runs.{MatchesGiven};

    /// Returns an iterator over all matches that do not overlap, from left to right. Does not allocate. Requires a
    /// cache that fits.
    ///
    /// Each search starts at the end of the last match. An empty match there is replaced by the result of a search from
    /// one byte further on. The sizes of the cache do not change, so it fits what it fitted.
    ///
    /// ```
    /// // vm of "foo(?<n>[0-9]+)"
    /// let mut ranges = Vec::new(alloc);
    /// for found in vm.find_iter(cache, Input::new(b"foo1 foo12 foo123")) {
    ///     ranges.push(found.range())?;
    /// }
    /// assert_eq!(rt; ranges.as_slice(), [0..4, 5..10, 11..17].as_slice());
    /// ```
    pub fn find_iter<'r, 'c, 'h>(
        &'r self,
        cache: &'c mut Cache,
        input: Input<'h>,
    ) -> FindMatches<'r, 'c, 'h>
        requires { Fits cache.old self.now.nfa }
        ensures same_reference { (pike_matches result).cache.ghost_name ≡ cache.entry.ghost_name }
        ensures same_cache { (pike_matches result).cache.now ≡ cache.entry.now }
        // Each run of calls gives the first matches of the input, and all of them if it goes on to `None`.
        ensures given { MatchesGiven self.now.nfa (kind_of self.now) (search_of input.entry) pike_matches_next result }
        // The cache changes only by the searches of the steps.
        ensures searches { FindsBySearches self.now (search_of input.entry) result }
        ensures keeps { GivesStepsWith pike_matches_next pike_matches SameCapacities result }
    {
        FindMatches {
            cache,
            steps: Steps {
                searcher: Searcher::new(input),
                backend: Finder {
                    engine: self,
                    known: None,
                },
                done: false,
            },
        }
    }

    /// Returns all matches that do not overlap, from left to right. Requires a cache that fits. Allocates only if there
    /// is a match. The only error is [`SearchError::Memory`].
    ///
    /// ```
    /// // vm of "foo(?<n>[0-9]+)"
    /// let all = vm.find_all(alloc, cache, Input::new(b"foo1 foo12 foo123"))?;
    /// assert_eq!(rt; all.len(), 3);
    /// assert_eq!(rt; all[2].range(), 11..17);
    /// ```
    pub fn find_all(
        &self,
        alloc: Global,
        cache: &mut Cache,
        input: Input<'_>,
    ) -> Result<Vec<Match>, SearchError>
        requires { Fits cache.old self.now.nfa }
        ensures memory { IsOkUnless result SearchError.Memory }
        ensures granted { AreMatches self.now.nfa (kind_of self.now) (search_of input.entry).earliest
            (search_of input.entry) [] → IsOk result }
        ensures all { IfOk result (λ found.
            AreMatches self.now.nfa (kind_of self.now) (search_of input.entry).earliest (search_of input.entry)
            (map found_of found.items)) }
        ensures disjoint { IfOk result (λ found. AreDisjoint (search_of input.entry) None (map found_of found.items)) }
        ensures inside { IfOk result (λ found. All (λ m. IsInside (search_of input.entry) (found_of m)) found.items) }
        ensures capacities { SameCapacities cache.old cache.new }
        // The cache changes only by the searches of an iteration. If all matches are returned, these searches go to its
        // end.
        ensures searches { PikeFindsOn self.now (search_of input.entry) cache.old cache.new }
        ensures to_end { IfOk result (λ found.
            PikeFindsToEnd self.now (search_of input.entry) (map found_of found.items) cache.old cache.new) }
    {
        let mut found = Vec::new(alloc);
        for item in self.find_iter(cache, input) {
            found.push(item)?;
        }
        Ok(found)
    }
}

impl<'r> FindWith for Finder<'r> {
    ghost use Rattle.std.specs.Prelude.{Ok};
    ghost use Rattle.regex_search_core.specs.Found.{Found, found_of};
    ghost use Rattle.nfa_search_base.specs.Items.{GivesItem, answer_by};
    ghost use Rattle.nfa_search_base.specs.IterStates.{span_of};
    ghost use Rattle.nfa_pikevm.specs.Iterators.{AsksPike, MayFindByPike};

    type Cache = Cache;

    type Reply = Option<Match>;

    ghost Value = { Found };

    ghost shows = { λ _ reply. answer_by found_of (Ok reply) };

    ghost span = { span_of };

    ghost accepts = { MayFindByPike };

    type Item = Match;

    ghost gives = { λ _. GivesItem found_of };

    ghost asks = { AsksPike };

    #[inline]
    fn answer(&mut self, cache: &mut Cache, input: &Input<'_>) -> Option<Match> {
        let known = ending_at(input.start(), self.known);
        if known.is_some() {
            return known;
        }
        let mut moved = *input;
        let found = self.engine.find_with_start(cache, &mut moved);
        self.known = ending_at(moved.start(), found);
        found
    }

    #[inline]
    fn reply_span(&self, reply: Option<Match>) -> Option<Span> {
        found_span(reply)
    }

    #[inline]
    fn item(&self, reply: Option<Match>) -> Option<Result<Match, SearchError>> {
        found_item(reply)
    }
}

impl<'r, 'c, 'h> Iterator for FindMatches<'r, 'c, 'h> {
    ghost use Rattle.nfa_search_base.specs.Stored.{infallible_left};
    ghost use Rattle.nfa_pikevm.specs.Iterators.{pike_matches, pike_matches_next};

    type Item = Match;

    ghost next_gives = { pike_matches_next };

    ghost remaining = { λ s. infallible_left (pike_matches s).steps };

    fn next(&mut self) -> Option<Match> {
        match self.steps.next_with(self.cache) {
            Some(Ok(found)) => Some(found),
            None => None,
            Some(Err(_)) => unreachable!(),
        }
    }
}
