//! Iteration over the matches of an input.
ghost use Rattle.nfa_search_base.specs.EngineSearches.{IsKnownFrom};
ghost use Rattle.nfa_search_base.specs.Stored.{steps_iter_state};
ghost use Rattle.nfa_pikevm.specs.Finding.{IsSureOf};
ghost use Rattle.nfa_meta.specs.RegexState.{pike_of};

use crate::regex::Regex;
use nfa_engines::error::SearchError;
use nfa_engines::iter::match_items::{ending_at, found_item, found_span};
use nfa_engines::iter::{FindWith, Searcher, Steps};
use regex_search_core::{Input, Match, Span};
use std::alloc::Global;

/// An iterator over all matches of an input that do not overlap, from left to right. [`Regex::find_iter`] returns it.
///
/// It gives at most n + 1 matches for a span of n bytes. It is fused: after the last match it returns only `None`.
#[derive(Drop)]
pub struct FindMatches<'r, 'h> {
    regex: &'r mut Regex,
    steps: Steps<'h, ByWindow>,
    ghost knows: { IsKnownFrom IsSureOf (pike_of regex.now) (steps_iter_state steps).at steps.backend.known },
}

// The searches of one iteration: each borrows the engine.
#[derive(Debug, Drop)]
struct ByWindow {
    // The match that the last search found, if it ends where that search started. It also answers a search from there.
    known: Option<Match>,
}

impl Regex {
    ghost use Rattle.std.specs.Prelude.{◌≡◌, ◌+◌, ◌*◌, All, IfOk, IsOkUnless, length};
    ghost use Rattle.regex_search_core.specs.Found.{found_of};
    ghost use Rattle.regex_search_core.specs.Search.{search_of};
    ghost use Rattle.nfa_paths.specs.Paths.{span_len};
    ghost use Rattle.nfa_search_base.specs.Lists.{IsInside};
    ghost use Rattle.nfa_search_base.specs.Runs.{MatchesGiven};
    ghost use Rattle.nfa_engines.specs.IterationLaws.{list_scan_limit};
    ghost use Rattle.nfa_choice.specs.Answered.{ListsMatches};
    ghost use Rattle.nfa_choice.specs.ChoiceState.{kind_in};
    ghost use Rattle.nfa_meta.specs.RegexState.{KeepsRegex};
    ghost use Rattle.nfa_meta.specs.Matches.{FindsGiveKept, FindsWorkWithin, finds_next, finds_regex};
    ghost use Rattle.nfa_meta.specs.Work.{WorksWithin};

    /// Returns an iterator over all matches that do not overlap, from left to right. Does not allocate.
    ///
    /// Each search starts at the end of the last match, and runs as [`Regex::find`]. An empty match there is replaced
    /// by the result of a search from one byte further on.
    ///
    /// ```
    /// // regex of "foo[0-9]+"
    /// let mut ranges = Vec::new(alloc);
    /// for found in regex.find_iter(Input::new(b"foo1 foo12 foo123")) {
    ///     ranges.push(found.range())?;
    /// }
    /// assert_eq!(rt; ranges.as_slice(), [0..4, 5..10, 11..17].as_slice());
    /// ```
    pub fn find_iter<'r, 'h>(&'r mut self, input: Input<'h>) -> FindMatches<'r, 'h>
        ensures same_reference { (finds_regex result).ghost_name ≡ self.entry.ghost_name }
        ensures same_regex { (finds_regex result).now ≡ self.entry.now }
        // Each run of calls gives the first matches of the input, and all of them if it goes on to `None`.
        ensures given { MatchesGiven self.entry.now.choice.nfa (kind_in self.entry.now.choice)
            (search_of input.entry) finds_next result }
        // The engines work within the bounds of an iteration, and of a list at its end.
        ensures work { FindsWorkWithin (search_of input.entry) result }
        ensures keeps { FindsGiveKept result }
    {
        FindMatches {
            regex: self,
            steps: Steps {
                searcher: Searcher::new(input),
                backend: ByWindow { known: None },
                done: false,
            },
        }
    }

    /// Returns all matches that do not overlap, from left to right, as [`Regex::find_iter`] gives them.
    ///
    /// Allocates for the list only if there is a match. The only error is [`SearchError::Memory`]: the list could not
    /// be allocated. No search fails.
    ///
    /// ```
    /// // regex of "foo(?<n>[0-9]+)"
    /// let all = regex.find_all(alloc, Input::new(b"foo1 foo12 foo123"))?;
    /// assert_eq!(rt; all.len(), 3);
    /// assert_eq!(rt; all[2].range(), 11..17);
    /// ```
    pub fn find_all(&mut self, alloc: Global, input: Input<'_>) -> Result<Vec<Match>, SearchError>
        ensures memory { IsOkUnless result SearchError.Memory }
        ensures lists { ListsMatches self.old.choice (search_of input.entry) result }
        ensures inside { IfOk result (λ found. All (λ m. IsInside (search_of input.entry) (found_of m)) found.items) }
        ensures keeps { KeepsRegex self.old self.new }
        // The engines work within the bounds of an iteration. If all matches are returned, they work within those of
        // their list.
        ensures work { let x = search_of input.entry in
            WorksWithin (2 * span_len x + 3) (2 * length self.old.choice.nfa.groups) x self.old self.new }
        ensures list_work { let x = search_of input.entry in IfOk result (λ found. WorksWithin
            (list_scan_limit self.old.choice.nfa x (length found.items)) (2 * length self.old.choice.nfa.groups) x
            self.old self.new) }
    {
        let mut found = Vec::new(alloc);
        for item in self.find_iter(input) {
            found.push(item)?;
        }
        Ok(found)
    }
}

impl FindWith for ByWindow {
    ghost use Rattle.regex_search_core.specs.Found.{Found, found_of};
    ghost use Rattle.nfa_search_base.specs.Items.{GivesItem, answer_by};
    ghost use Rattle.nfa_search_base.specs.IterStates.{span_of};
    ghost use Rattle.nfa_meta.specs.Matches.{AsksByWindow, MayFindByWindow};
    ghost use Rattle.std.specs.Prelude.{Ok};

    type Cache = Regex;

    type Reply = Option<Match>;

    ghost Value = { Found };

    ghost shows = { λ _ reply. answer_by found_of (Ok reply) };

    ghost span = { span_of };

    ghost accepts = { MayFindByWindow };

    type Item = Match;

    ghost gives = { λ _. GivesItem found_of };

    ghost asks = { AsksByWindow };

    // A call of its own, which has the search over known cells in it, so that the steps of an iteration are part of its
    // loop.
    #[inline(never)]
    fn answer(&mut self, regex: &mut Regex, input: &Input<'_>) -> Option<Match> {
        let known = ending_at(input.start(), self.known);
        if known.is_some() {
            return known;
        }
        let found = regex.find_by_ref(input);
        // What was known stays true, so nothing is written for a match that is not empty.
        let here = ending_at(input.start(), found);
        if here.is_some() {
            self.known = here;
        }
        found
    }

    #[inline]
    fn reply_span(&self, reply: Option<Match>) -> Option<Span> {
        found_span(reply)
    }

    #[inline]
    fn item(&self, reply: Option<Match>) -> Option<Result<Match, SearchError>> {
        found_item(reply)
    }
}

impl<'r, 'h> Iterator for FindMatches<'r, 'h> {
    ghost use Rattle.nfa_search_base.specs.Stored.{infallible_left};
    ghost use Rattle.nfa_meta.specs.Matches.{finds_next, finds_steps};

    type Item = Match;

    ghost next_gives = { finds_next };

    ghost remaining = { λ s. infallible_left (finds_steps s).steps };

    #[inline]
    fn next(&mut self) -> Option<Match> {
        match self.steps.next_with(self.regex) {
            Some(Ok(found)) => Some(found),
            None => None,
            Some(Err(_)) => unreachable!(),
        }
    }
}
