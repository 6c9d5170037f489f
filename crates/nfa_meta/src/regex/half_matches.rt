//! Iteration over the half matches of an input.

use crate::regex::Regex;
use nfa_choice::half_items::{half_item, half_span};
use nfa_engines::error::SearchError;
use nfa_engines::iter::{FindWith, Searcher, Steps};
use regex_search_core::{HalfMatch, Input, Span};

/// An iterator over all half matches of an input, from left to right. [`Regex::half_matches`] returns it.
///
/// It gives at most n + 1 half matches for a span of n bytes. It is fused: after the last one it returns only `None`.
#[derive(Drop)]
pub struct HalfMatches<'r, 'h> {
    regex: &'r mut Regex,
    steps: Steps<'h, ByEnds>,
}

// The searches of one iteration: each borrows the engine.
#[derive(Debug, Drop)]
struct ByEnds;

impl Regex {
    ghost use Rattle.std.specs.Prelude.{◌≡◌};
    ghost use Rattle.regex_search_core.specs.Search.{search_of};
    ghost use Rattle.nfa_choice.specs.HalfRuns.{HalvesGiven};
    ghost use Rattle.nfa_choice.specs.ChoiceState.{kind_in};
    ghost use Rattle.nfa_meta.specs.Halves.{HalvesGiveKept, HalvesWorkWithin, halves_regex, halves_next};

    /// Returns an iterator over all half matches, from left to right: the patterns of the matches that the searches of
    /// an iteration find, and the offsets of their ends. Does not allocate.
    ///
    /// Each search starts at the end of the last match. A half match at that same offset is replaced by the result of a
    /// search from one byte further on, also if its match is not empty, since a half match has no start.
    ///
    /// ```
    /// // regex of "foo(?<n>[0-9]+)"
    /// let mut ends = Vec::new(alloc);
    /// for half in regex.half_matches(Input::new(b"foo1 foo12 foo123")) {
    ///     ends.push(half.offset())?;
    /// }
    /// assert_eq!(rt; ends.as_slice(), [4, 10, 17].as_slice());
    /// ```
    pub fn half_matches<'r, 'h>(&'r mut self, input: Input<'h>) -> HalfMatches<'r, 'h>
        ensures same_reference { (halves_regex result).ghost_name ≡ self.entry.ghost_name }
        ensures same_regex { (halves_regex result).now ≡ self.entry.now }
        // Each run of calls gives the first half matches of the input, and all of them if it goes on to `None`.
        ensures given { HalvesGiven self.entry.now.choice.nfa (kind_in self.entry.now.choice)
            (search_of input.entry) halves_next result }
        // The engines work within the bounds of an iteration, and of a list at its end.
        ensures work { HalvesWorkWithin (search_of input.entry) result }
        ensures keeps { HalvesGiveKept result }
    {
        HalfMatches {
            regex: self,
            steps: Steps {
                searcher: Searcher::new(input),
                backend: ByEnds,
                done: false,
            },
        }
    }
}

impl FindWith for ByEnds {
    ghost use Rattle.regex_search_core.specs.Found.{HalfFound, half_found_of};
    ghost use Rattle.nfa_search_base.specs.Finders.{may_ask};
    ghost use Rattle.nfa_search_base.specs.Items.{GivesItem, answer_by};
    ghost use Rattle.nfa_search_base.specs.IterStates.{half_span_of};
    ghost use Rattle.nfa_meta.specs.RegexState.{pike_of};
    ghost use Rattle.nfa_choice.specs.HalfIterations.{AsksHalf};
    ghost use Rattle.nfa_meta.specs.Halves.{FindsHalfAfterDfa};
    ghost use Rattle.std.specs.Prelude.{Ok};

    type Cache = Regex;

    type Reply = Option<HalfMatch>;

    ghost Value = { HalfFound };

    ghost shows = { λ _ reply. answer_by half_found_of (Ok reply) };

    ghost span = { half_span_of };

    ghost accepts = { may_ask };

    type Item = HalfMatch;

    ghost gives = { λ _. GivesItem half_found_of };

    ghost asks = { AsksHalf pike_of FindsHalfAfterDfa };

    #[inline]
    fn answer(&mut self, regex: &mut Regex, input: &Input<'_>) -> Option<HalfMatch> {
        regex.half_of(*input)
    }

    #[inline]
    fn reply_span(&self, reply: Option<HalfMatch>) -> Option<Span> {
        half_span(reply)
    }

    #[inline]
    fn item(&self, reply: Option<HalfMatch>) -> Option<Result<HalfMatch, SearchError>> {
        half_item(reply)
    }
}

impl<'r, 'h> Iterator for HalfMatches<'r, 'h> {
    ghost use Rattle.nfa_search_base.specs.Stored.{infallible_left};
    ghost use Rattle.nfa_meta.specs.Halves.{half_steps, halves_next};

    type Item = HalfMatch;

    ghost next_gives = { halves_next };

    ghost remaining = { λ s. infallible_left (half_steps s).steps };

    fn next(&mut self) -> Option<HalfMatch> {
        match self.steps.next_with(self.regex) {
            Some(Ok(half)) => Some(half),
            None => None,
            Some(Err(_)) => unreachable!(),
        }
    }
}
