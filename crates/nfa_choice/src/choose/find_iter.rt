//! Iteration over the matches of an input.
use crate::choose::Choice;
use nfa_engines::error::SearchError;
use nfa_engines::iter::match_items::{found_item, found_span};
use nfa_engines::iter::{FindWith, Searcher, Steps};
use regex_search_core::{Input, Match, Span};
use std::alloc::Global;

/// An iterator over all matches of an input that do not overlap, from left to right. [`Choice::find_iter`] returns it.
///
/// It gives at most n + 1 matches for a span of n bytes. It is fused: after the last match it returns only `None`.
#[derive(Debug, Drop)]
pub struct ChoiceMatches<'c, 'h> {
    choice: &'c mut Choice,
    steps: Steps<'h, ByRule>,
}

// The searches of one iteration: each borrows the choice, which picks the engine.
#[derive(Debug, Drop)]
struct ByRule;

impl Choice {
    ghost use Rattle.std.specs.Prelude.{◌≡◌, All, IfOk, IsOkUnless, map};
    ghost use Rattle.regex_search_core.specs.Found.{found_of};
    ghost use Rattle.regex_search_core.specs.Search.{search_of};
    ghost use Rattle.nfa_search_base.specs.Lists.{IsInside};
    ghost use Rattle.nfa_search_base.specs.Runs.{MatchesGiven};
    ghost use Rattle.nfa_search_base.specs.Stored.{GivesStepsWith};
    ghost use Rattle.nfa_choice.specs.Answered.{ListsMatches};
    ghost use Rattle.nfa_choice.specs.ChoiceState.{kind_in, KeepsEngines};
    ghost use Rattle.nfa_choice.specs.Iterations.{ChoiceFindsBySearches, FindsOn, FindsToEnd, choice_matches};
    ghost use Rattle.nfa_choice.specs.Iterations.{by_rule, choice_matches_next};

    /// Returns an iterator over all matches that do not overlap, from left to right. Does not allocate.
    ///
    /// Each search starts at the end of the last match. An empty match there is replaced by the result of a search from
    /// one byte further on. The engine is picked for each search.
    ///
    /// ```
    /// // choice of "foo(?<n>[0-9]+)"
    /// let mut ranges = Vec::new(alloc);
    /// for found in choice.find_iter(Input::new(b"foo1 foo12 foo123")) {
    ///     ranges.push(found.range())?;
    /// }
    /// assert_eq!(rt; ranges.as_slice(), [0..4, 5..10, 11..17].as_slice());
    /// ```
    pub fn find_iter<'c, 'h>(&'c mut self, input: Input<'h>) -> ChoiceMatches<'c, 'h>
        ensures same_reference { (choice_matches result).cache.ghost_name ≡ self.entry.ghost_name }
        ensures same_choice { (choice_matches result).cache.now ≡ self.entry.now }
        // Each run of calls gives the first matches of the input, and all of them if it goes on to `None`.
        ensures given { MatchesGiven self.entry.now.nfa (kind_in self.entry.now)
            (search_of input.entry) choice_matches_next result }
        // The choice changes only by the searches of the steps.
        ensures searches { ChoiceFindsBySearches (search_of input.entry) result }
        ensures keeps { GivesStepsWith choice_matches_next choice_matches KeepsEngines result }
    {
        ChoiceMatches {
            choice: self,
            steps: Steps {
                searcher: Searcher::new(input),
                backend: ByRule,
                done: false,
            },
        }
    }

    /// Returns all matches that do not overlap, from left to right, as [`Choice::find_iter`] gives them.
    ///
    /// Allocates for the list only if there is a match. The only error is [`SearchError::Memory`]: the list could not
    /// be allocated. No search fails.
    ///
    /// ```
    /// // choice of "foo(?<n>[0-9]+)"
    /// let all = choice.find_all(alloc, Input::new(b"foo1 foo12 foo123"))?;
    /// assert_eq!(rt; all.len(), 3);
    /// assert_eq!(rt; all[2].range(), 11..17);
    /// ```
    pub fn find_all(&mut self, alloc: Global, input: Input<'_>) -> Result<Vec<Match>, SearchError>
        ensures memory { IsOkUnless result SearchError.Memory }
        ensures lists { ListsMatches self.old (search_of input.entry) result }
        ensures inside { IfOk result (λ found. All (λ m. IsInside (search_of input.entry) (found_of m)) found.items) }
        ensures keeps { KeepsEngines self.old self.new }
        // The choice changes only by the searches of an iteration. If all matches are returned, these searches go to
        // its end.
        ensures searches { FindsOn by_rule (search_of input.entry) self.old self.new }
        ensures to_end { IfOk result (λ found.
            FindsToEnd by_rule (search_of input.entry) (map found_of found.items) self.old self.new) }
    {
        let mut found = Vec::new(alloc);
        for item in self.find_iter(input) {
            found.push(item)?;
        }
        Ok(found)
    }
}

impl FindWith for ByRule {
    ghost use Rattle.regex_search_core.specs.Found.{Found, found_of};
    ghost use Rattle.nfa_search_base.specs.Finders.{may_ask};
    ghost use Rattle.nfa_search_base.specs.Items.{GivesItem, answer_by};
    ghost use Rattle.nfa_search_base.specs.IterStates.{span_of};
    ghost use Rattle.nfa_choice.specs.Iterations.{AsksByRule};
    ghost use Rattle.std.specs.Prelude.{Ok};

    type Cache = Choice;

    type Reply = Option<Match>;

    ghost Value = { Found };

    ghost shows = { λ _ reply. answer_by found_of (Ok reply) };

    ghost span = { span_of };

    ghost accepts = { may_ask };

    type Item = Match;

    ghost gives = { λ _. GivesItem found_of };

    ghost asks = { AsksByRule };

    #[inline]
    fn answer(&mut self, choice: &mut Choice, input: &Input<'_>) -> Option<Match> {
        choice.find(*input)
    }

    #[inline]
    fn reply_span(&self, reply: Option<Match>) -> Option<Span> {
        found_span(reply)
    }

    #[inline]
    fn item(&self, reply: Option<Match>) -> Option<Result<Match, SearchError>> {
        found_item(reply)
    }
}

impl<'c, 'h> Iterator for ChoiceMatches<'c, 'h> {
    ghost use Rattle.nfa_search_base.specs.Stored.{infallible_left};
    ghost use Rattle.nfa_choice.specs.Iterations.{choice_matches, choice_matches_next};

    type Item = Match;

    ghost next_gives = { choice_matches_next };

    ghost remaining = { λ s. infallible_left (choice_matches s).steps };

    fn next(&mut self) -> Option<Match> {
        match self.steps.next_with(self.choice) {
            Some(Ok(found)) => Some(found),
            None => None,
            Some(Err(_)) => unreachable!(),
        }
    }
}
