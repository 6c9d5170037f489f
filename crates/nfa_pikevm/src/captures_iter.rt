//! Iteration over the captures of the matches of an input.
ghost use Rattle.nfa_search_base.specs.Lists.{HasGroups};
ghost use Rattle.nfa_pikevm.specs.Engines.{Fits};

use crate::cache::Cache;
use crate::engine::PikeVM;
use nfa_search_base::error::SearchError;
use nfa_search_base::iter::captures_items::{captures_item, captures_span};
use nfa_search_base::iter::{FindWith, Searcher, Steps};
use regex_search_core::{Captures, Input, Span};
use std::alloc::Global;
use std::marker::Model;

/// An iterator over the captures of all matches of an input that do not overlap, from left to right.
/// [`PikeVM::captures_iter`] returns it.
///
/// Its items are `Ok` captures, each its own copy, at most n + 1 for a span of n bytes, and at most one error. The only
/// error is [`SearchError::Memory`]: a copy could not be allocated. The iterator is fused: after the last match or the
/// error it returns only `None`.
#[derive(Debug, Drop)]
pub struct CapturesMatches<'r, 'c, 'h> {
    cache: &'c mut Cache,
    steps: Steps<'h, CapturesFinder<'r>>,
    ghost fits: { Fits cache.now steps.backend.finder.nfa },
    ghost holds: { HasGroups steps.backend.finder.nfa steps.backend.captures },
}

// The PikeVM that answers the searches of one iteration, and the captures that it fills.
#[derive(Debug, Drop)]
struct CapturesFinder<'r> {
    engine: &'r PikeVM,
    captures: Captures,
}

impl<'r> Model for CapturesFinder<'r> {
    ghost use Rattle.nfa_search_base.specs.WithCaptures.{WithCaptures};
    ghost use Rattle.nfa_pikevm.specs.Engines.{Pike};

    ghost Value = { WithCaptures Pike };

    ghost view = { λ a. record { finder = a.engine.now; captures = a.captures } };
}

impl PikeVM {
    ghost use Rattle.std.specs.Prelude.{◌≡◌, All, IfOk, IsOkUnless, None, map};
    ghost use Rattle.regex_search_core.specs.Search.{search_of};
    ghost use Rattle.nfa_search_base.specs.Runs.{CapturesGiven, CapturesInside, CapturesMemory, CapturesWithin};
    ghost use Rattle.nfa_search_base.specs.Runs.{match_in};
    ghost use Rattle.nfa_search_base.specs.WithCaptures.{row_of};
    ghost use Rattle.nfa_search_base.specs.Lists.{AreRows, AnswersRow, AreDisjoint, AreMatches};
    ghost use Rattle.nfa_pikevm.specs.Iterators.{CapturesBySearches, pike_captures};
    ghost use Rattle.nfa_pikevm.specs.Iterators.{pike_captures_next};
    ghost use Rattle.nfa_search_base.specs.Stored.{GivesStepsWith};
    ghost use Rattle.nfa_pikevm.specs.Engines.{SameCapacities, kind_of};
    ghost use Rattle.nfa_pikevm.specs.Finding.{PikeCapturesOn, PikeCapturesToEnd};

    /// Returns an iterator over the captures of all matches that do not overlap, from left to right, each with all
    /// groups of the NFA.
    ///
    /// Requires a cache that fits. This call does not change the cache. The only error is [`SearchError::Memory`]: the
    /// captures to search with could not be allocated.
    ///
    /// Each search starts at the end of the last match. An empty match there is replaced by the result of a search from
    /// one byte further on. An answer that gives no match ends the list, for instance if the NFA does not set the two
    /// slots of its pattern. Each item is a copy; if it cannot be allocated, the item is the error, once. The sizes of
    /// the cache do not change, so it fits what it fitted.
    ///
    /// ```
    /// // vm of "foo(?<n>[0-9]+)"
    /// let mut last = None;
    /// for captures in vm.captures_iter(alloc, cache, Input::new(b"foo1 foo12 foo123"))? {
    ///     last = captures?.get_group_by_name("n");
    /// }
    /// assert_eq!(rt; last, Some(Span { start: 14, end: 17 }));
    /// ```
    pub fn captures_iter<'r, 'c, 'h>(
        &'r self,
        alloc: Global,
        cache: &'c mut Cache,
        input: Input<'h>,
    ) -> Result<CapturesMatches<'r, 'c, 'h>, SearchError>
        requires { Fits cache.old self.now.nfa }
        ensures memory { IsOkUnless result SearchError.Memory }
        ensures same_reference { IfOk result (λ made. (pike_captures made).cache.ghost_name ≡ cache.entry.ghost_name) }
        ensures same_cache { IfOk result (λ made. (pike_captures made).cache.now ≡ cache.entry.now) }
        // Each run of calls gives the first captures of the input, and all of them if it goes on to `None`. If no copy
        // fails, their rows and their matches are those of the input.
        ensures given { IfOk result (CapturesGiven pike_captures_next self.now.nfa (kind_of self.now)
            (search_of input.entry).earliest (AnswersRow self.now.nfa (kind_of self.now)
            (search_of input.entry).earliest) (search_of input.entry)) }
        ensures inside { IfOk result (CapturesWithin pike_captures_next (search_of input.entry)) }
        ensures errors { IfOk result (CapturesMemory pike_captures_next) }
        // The cache changes only by the searches of the steps.
        ensures searches { IfOk result (CapturesBySearches self.now (search_of input.entry)) }
        ensures keeps { IfOk result (GivesStepsWith pike_captures_next pike_captures SameCapacities) }
    {
        let captures = self.create_captures(alloc)?;
        Ok(self.captures_iter_with(cache, input, captures))
    }

    /// Returns the same iterator, but searches with the given captures, which must have all groups of this NFA
    /// ([`PikeVM::create_captures`]). Does not allocate, and cannot fail.
    ///
    /// ```
    /// // vm of "foo(?<n>[0-9]+)"
    /// let captures = vm.create_captures(alloc)?;
    /// let mut last = None;
    /// for captures in vm.captures_iter_with(cache, Input::new(b"foo1 foo12 foo123"), captures) {
    ///     last = captures?.get_group_by_name("n");
    /// }
    /// assert_eq!(rt; last, Some(Span { start: 14, end: 17 }));
    /// ```
    #[inline]
    pub fn captures_iter_with<'r, 'c, 'h>(
        &'r self,
        cache: &'c mut Cache,
        input: Input<'h>,
        captures: Captures,
    ) -> CapturesMatches<'r, 'c, 'h>
        requires fits { Fits cache.old self.now.nfa }
        requires holds { HasGroups self.now.nfa captures }
        ensures same_reference { (pike_captures result).cache.ghost_name ≡ cache.entry.ghost_name }
        ensures same_cache { (pike_captures result).cache.now ≡ cache.entry.now }
        // Each run of calls gives the first captures of the input, and all of them if it goes on to `None`. If no copy
        // fails, their rows and their matches are those of the input.
        ensures given { CapturesGiven pike_captures_next self.now.nfa (kind_of self.now)
            (search_of input.entry).earliest (AnswersRow self.now.nfa (kind_of self.now)
            (search_of input.entry).earliest) (search_of input.entry) result }
        ensures inside { CapturesWithin pike_captures_next (search_of input.entry) result }
        ensures errors { CapturesMemory pike_captures_next result }
        // The cache changes only by the searches of the steps.
        ensures searches { CapturesBySearches self.now (search_of input.entry) result }
        ensures keeps { GivesStepsWith pike_captures_next pike_captures SameCapacities result }
    {
        CapturesMatches {
            cache,
            steps: Steps {
                searcher: Searcher::new(input),
                backend: CapturesFinder {
                    engine: self,
                    captures,
                },
                done: false,
            },
        }
    }

    /// Returns the captures of all matches of the input that do not overlap, from left to right, each with all groups
    /// of the NFA. The only error is [`SearchError::Memory`].
    ///
    /// ```
    /// // vm of "foo(?<n>[0-9]+)"
    /// let all = vm.captures_all(alloc, cache, Input::new(b"foo1 foo12 foo123"))?;
    /// assert_eq!(rt; all.len(), 3);
    /// let digits = all[2].get_group_by_name("n");
    /// assert_eq!(rt; digits, Some(Span { start: 14, end: 17 }));
    /// ```
    pub fn captures_all(
        &self,
        alloc: Global,
        cache: &mut Cache,
        input: Input<'_>,
    ) -> Result<Vec<Captures>, SearchError>
        requires { Fits cache.old self.now.nfa }
        ensures memory { IsOkUnless result SearchError.Memory }
        ensures rows { IfOk result (λ all. AreRows self.now.nfa (kind_of self.now) (search_of input.entry).earliest
            (search_of input.entry) (map row_of all.items)) }
        ensures matches { IfOk result (λ all. AreMatches self.now.nfa (kind_of self.now)
            (search_of input.entry).earliest (search_of input.entry) (map match_in all.items)) }
        ensures groups { IfOk result (λ all. All (HasGroups self.now.nfa) all.items) }
        ensures inside { IfOk result (λ all. All (CapturesInside (search_of input.entry)) all.items) }
        ensures disjoint { IfOk result (λ all. AreDisjoint (search_of input.entry) None (map match_in all.items)) }
        ensures capacities { SameCapacities cache.old cache.new }
        // The cache changes only by the searches of an iteration. If all captures are returned, these searches go to
        // its end.
        ensures searches { PikeCapturesOn self.now (search_of input.entry) cache.old cache.new }
        ensures to_end { IfOk result (λ all.
            PikeCapturesToEnd self.now (search_of input.entry) (map row_of all.items) cache.old cache.new) }
    {
        let finder = CapturesFinder {
            engine: self,
            captures: self.create_captures(alloc)?,
        };
        Steps::new(input, finder).all_with(alloc, cache)
    }
}

impl<'r> FindWith for CapturesFinder<'r> {
    ghost use Rattle.nfa_search_base.specs.WithCaptures.{Row, filled_answer, row_span, GivesCaptures};
    ghost use Rattle.nfa_pikevm.specs.Iterators.{AsksPikeRow, fits_pike};
    ghost use Rattle.nfa_search_base.specs.EngineSearches.{MayFill};

    type Cache = Cache;

    type Reply = Result<(), SearchError>;

    ghost Value = { Row };

    ghost shows = { λ c reply. filled_answer c.captures reply };

    ghost span = { row_span };

    ghost accepts = { λ s _. MayFill (λ vm. vm.nfa) fits_pike s };

    type Item = Captures;

    ghost gives = { GivesCaptures };

    ghost asks = { AsksPikeRow };

    #[inline]
    fn answer(&mut self, cache: &mut Cache, input: &Input<'_>) -> Result<(), SearchError> {
        self.engine.search(cache, input, &mut self.captures);
        Ok(())
    }

    #[inline]
    fn reply_span(&self, reply: Result<(), SearchError>) -> Option<Span> {
        captures_span(&self.captures, reply)
    }

    #[inline]
    fn item(&self, reply: Result<(), SearchError>) -> Option<Result<Captures, SearchError>> {
        captures_item(&self.captures, reply)
    }
}

impl<'r, 'c, 'h> CapturesMatches<'r, 'c, 'h> {
    ghost use Rattle.std.specs.Prelude.{◌≡◌};
    ghost use Rattle.std.specs.Borrow.{sem};
    ghost use Rattle.nfa_search_base.specs.Stored.{held_item};
    ghost use Rattle.nfa_search_base.specs.WithCaptures.{lent_item};
    ghost use Rattle.nfa_pikevm.specs.Iterators.{PikeLendsNext, pike_captures, pike_captures_next};

    /// Returns the captures of the next match, which are lent until the next call: the item that `next` would give, but
    /// no copy, so this call cannot fail. Mix both calls at will.
    ///
    /// ```
    /// // vm of "foo(?<n>[0-9]+)"
    /// let mut items = vm.captures_iter(alloc, cache, Input::new(b"foo1 foo12 foo123"))?;
    /// let mut last = None;
    /// while let Some(captures) = items.next_lent() {
    ///     last = captures.get_group_by_name("n");
    /// }
    /// assert_eq!(rt; last, Some(Span { start: 14, end: 17 }));
    /// ```
    #[inline]
    pub fn next_lent<'a>(&'a mut self) -> Option<&'a Captures>
        ensures* lends { sem 𝓛 (PikeLendsNext self.entry result) }
    {
        self.advance();
        self.held()
    }

    // Takes the step of the next call, and keeps its captures.
    #[inline]
    fn advance(&mut self)
        ensures { pike_captures_next self.old (held_item (pike_captures self.new)) self.new }
    {
        self.steps.advance_with(self.cache);
    }

    // The captures of the last match, unless the iterator has ended.
    #[inline]
    fn held(&self) -> Option<&Captures>
        ensures { lent_item result ≡ held_item (pike_captures self.now) }
    {
        if self.steps.done {
            None
        } else {
            Some(&self.steps.backend.captures)
        }
    }
}

impl<'r, 'c, 'h> Iterator for CapturesMatches<'r, 'c, 'h> {
    ghost use Rattle.nfa_search_base.specs.Stored.{steps_left};
    ghost use Rattle.nfa_pikevm.specs.Iterators.{pike_captures, pike_captures_next};

    type Item = Result<Captures, SearchError>;

    ghost next_gives = { pike_captures_next };

    ghost remaining = { λ s. steps_left (pike_captures s).steps };

    fn next(&mut self) -> Option<Result<Captures, SearchError>> {
        self.steps.next_with(self.cache)
    }
}
