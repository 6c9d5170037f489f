//! A match at a start before which nothing matches, over cells that the lazy DFA knows. Nothing is changed for it.
ghost use Rattle.std.specs.Prelude.{◌≡◌, ◌+◌, ◌<◌, ◌≤◌, IfSome, Some, false, length};
ghost use Rattle.regex_search_core.specs.Found.{found_of};
ghost use Rattle.regex_search_core.specs.Search.{search_of};
ghost use Rattle.nfa_paths.specs.Paths.{IsFindAnswer};
ghost use Rattle.nfa_engines.specs.StartLaws.{IsFirstStart, StartsAnywhere};
ghost use Rattle.nfa_choice.specs.ChoiceState.{kind_in};

use crate::regex::Regex;
use nfa_engines::laws::first_start_answers;
use nfa_facts::match_spans::laws::{anchored_matches_start_the_span, half_matches_are_ends};
use regex_search_core::{Anchored, Input, Match, Span};

impl Regex {
    /// Returns the match of a search, if known cells lead to one at the likely start. `None` says nothing.
    #[inline(always)]
    pub(super) fn quick(&self, input: &Input<'_>) -> Option<Match>
        ensures answer { let x = search_of input.now in IfSome result (λ m.
            IsFindAnswer self.now.choice.nfa (kind_in self.now.choice) x.earliest x (Some (found_of m))) }
        ensures pattern { IfSome result (λ m. (found_of m).pattern < length self.now.choice.nfa.patterns) }
    {
        let at = self.likely_start(input)?;
        self.quick_at(input, at)
    }

    /// Returns a start before which nothing matches, and at which the search matches if it goes as the last one: the
    /// one that the literals name, or else the first one.
    #[inline(always)]
    fn likely_start(&self, input: &Input<'_>) -> Option<usize>
        ensures anywhere { IfSome result (λ _. StartsAnywhere self.now.choice.nfa (search_of input.now)) }
        ensures last { IfSome result (λ _. (search_of input.now).earliest ≡ false) }
        ensures first { IfSome result (IsFirstStart self.now.choice.nfa (search_of input.now)) }
        ensures within { IfSome result (λ at. at ≤ (search_of input.now).end + 1) }
    {
        if self.matched_at_literal && self.is_windowed(input) {
            return self.literals.first_start(self.choice.get_nfa(), input);
        }
        if !self.matched_at_first || !self.starts_anywhere(input) {
            return None;
        }
        self.first_begin(input)
    }

    /// Returns the match of a search, if known cells lead to one at this start, before which nothing matches.
    #[inline(always)]
    pub(super) fn quick_at(&self, input: &Input<'_>, at: usize) -> Option<Match>
        requires anywhere { StartsAnywhere self.now.choice.nfa (search_of input.now) }
        requires last { (search_of input.now).earliest ≡ false }
        requires first { IsFirstStart self.now.choice.nfa (search_of input.now) at }
        requires within { at ≤ (search_of input.now).end + 1 }
        ensures answer { let x = search_of input.now in IfSome result (λ m.
            IsFindAnswer self.now.choice.nfa (kind_in self.now.choice) x.earliest x (Some (found_of m))) }
        ensures pattern { IfSome result (λ m. (found_of m).pattern < length self.now.choice.nfa.patterns) }
    {
        let _ = &self.dfa;
        first_start_answers();
        self.quick_anchored(&input.range(at..input.end()).anchored(Anchored::Yes))
    }

    /// Returns the match of a search that is anchored, if known cells lead to it.
    #[inline(always)]
    fn quick_anchored(&self, input: &Input<'_>) -> Option<Match>
        ensures answer { let x = search_of input.now in IfSome result (λ m.
            IsFindAnswer self.now.choice.nfa (kind_in self.now.choice) x.earliest x (Some (found_of m))) }
        ensures pattern { IfSome result (λ m. (found_of m).pattern < length self.now.choice.nfa.patterns) }
    {
        if !self.records_spans || !input.get_anchored().is_anchored() {
            return None;
        }
        anchored_matches_start_the_span();
        half_matches_are_ends();
        let half = self.dfa.known_half(&self.cache, input)?;
        let span = Span {
            start: input.start(),
            end: half.offset(),
        };
        Some(Match::new(half.pattern(), span))
    }
}
