//! The part of an input that holds the answer of its search.
ghost use Rattle.std.specs.Prelude.{◌≡◌, ◌*◌, ◌+◌, ◌≤◌, ◌⊎◌, ◌<◌, IfErr, IfNone, IfOk, IfSome, None, Some, false};
ghost use Rattle.std.specs.Prelude.{length, option_map, true};
ghost use Rattle.regex_search_core.specs.Found.{found_of, half_found_of};
ghost use Rattle.regex_search_core.specs.Search.{search_of};
ghost use Rattle.nfa_paths.specs.Paths.{IsFindAnswer, IsHalfAnswer, is_utf8_empty};
ghost use Rattle.nfa_search_base.specs.Lists.{IsInside};
ghost use Rattle.nfa_backtrack.specs.Backtrack.{HoldsNoMore};
ghost use Rattle.nfa_engines.specs.Laws.{MatchesNothing};
ghost use Rattle.nfa_engines.specs.StartLaws.{IsFirstStart, IsUnbound, StartsAnywhere};
ghost use Rattle.nfa_choice.specs.ChoiceState.{kind_in};
ghost use Rattle.nfa_meta.specs.RegexState.{KeepsRegex};
ghost use Rattle.nfa_meta.specs.Windowed.{HasNoWindows, IsWindowed};
ghost use Rattle.nfa_meta.specs.WindowRuns.{AnswersAs, EndsAtMatch, HasNoMatch, IsWindowOf, NeedsPart, NeedsWhole};
ghost use Rattle.nfa_meta.specs.WindowRuns.{RunsByWindow};

use crate::laws;
use crate::regex::Regex;
use nfa_engines::laws::{bytes_may_be_skipped, found_is_an_accepting_path};
use nfa_facts::literal::laws::nothing_has_no_answer;
use nfa_facts::match_spans::laws::{
    anchored_matches_start_the_span, half_matches_are_ends, no_match_is_missed,
};
use nfa_lazy_dfa::StopError;
use nfa_lazy_dfa::determinize::laws::steps_find_the_half;
use regex_search_core::{HalfMatch, Input, Match, Span};

/// The number of starts in a window that the lazy DFA tries before the choice searches the window.
const TRIES: usize = 4;

/// How many matches in a row that are not at the first start leave it the likely one.
const PATIENCE: u8 = 2;

/// No window of the lazy DFA has the answer of a search.
#[derive(Clone, Copy, Debug)]
pub(super) struct NoWindow;

impl Regex {
    /// Whether a window of the lazy DFA has the match of the search.
    pub(super) fn is_windowed(&self, input: &Input<'_>) -> bool
        ensures some { result ≡ true → IsWindowed self.now.choice.nfa (search_of input.now) }
        ensures none { result ≡ false → HasNoWindows self.now.choice.nfa (search_of input.now) }
    {
        !input.get_earliest() && self.is_unbound(input)
    }

    /// Whether a match of the search may start and end anywhere in its span.
    pub(super) fn is_unbound(&self, input: &Input<'_>) -> bool
        ensures unbound { result ≡ true → IsUnbound self.now.choice.nfa (search_of input.now) }
        ensures bound { result ≡ false → IsUnbound self.now.choice.nfa (search_of input.now) → ⊥ }
    {
        let nfa = self.choice.get_nfa();
        !input.get_anchored().is_anchored()
            && !nfa.is_always_start_anchored()
            && !(nfa.has_empty() && nfa.is_utf8())
    }

    /// Returns the window of the lazy DFA that has the answer of the search. Returns `None` in it if nothing matches.
    pub(super) fn window<'h>(&mut self, input: Input<'h>) -> Result<Option<Input<'h>>, NoWindow>
        ensures nothing { IfOk result (λ window.
            IfNone window (HasNoMatch self.old.choice.nfa (kind_in self.old.choice) (search_of input.entry))) }
        ensures part { IfOk result (λ window.
            IfSome window (λ part. IsWindowOf self.old.choice.nfa (search_of input.entry) (search_of part))) }
        ensures answers { IfOk result (λ window. IfSome window (λ part.
            AnswersAs self.old.choice.nfa (kind_in self.old.choice) (search_of input.entry) (search_of part))) }
        ensures ends { IfOk result (λ window. IfSome window (λ part.
            EndsAtMatch self.old.choice.nfa (kind_in self.old.choice) (search_of input.entry) (search_of part))) }
        ensures why { IfErr result (λ _. NeedsWhole (search_of input.entry) self.old self.new) }
        ensures same { self.new.choice ≡ self.old.choice }
        ensures keeps { KeepsRegex self.old self.new }
    {
        if !self.is_windowed(&input) {
            return Err(NoWindow);
        }
        match self.from_prefix(input) {
            Some(rest) => self.window_in(rest),
            None => Ok(None),
        }
    }

    /// Returns the window of the lazy DFA that has the answer of a search that has windows. Returns `None` in it if
    /// nothing matches.
    fn window_in<'h>(&mut self, input: Input<'h>) -> Result<Option<Input<'h>>, NoWindow>
        requires windowed { IsWindowed self.old.choice.nfa (search_of input) }
        ensures nothing { IfOk result (λ window.
            IfNone window (HasNoMatch self.old.choice.nfa (kind_in self.old.choice) (search_of input.entry))) }
        ensures part { IfOk result (λ window.
            IfSome window (λ part. IsWindowOf self.old.choice.nfa (search_of input.entry) (search_of part))) }
        ensures answers { IfOk result (λ window. IfSome window (λ part.
            AnswersAs self.old.choice.nfa (kind_in self.old.choice) (search_of input.entry) (search_of part))) }
        ensures ends { IfOk result (λ window. IfSome window (λ part.
            EndsAtMatch self.old.choice.nfa (kind_in self.old.choice) (search_of input.entry) (search_of part))) }
        ensures stopped { IfErr result (λ _. self.old.stops < self.new.stops) }
        ensures same { self.new.choice ≡ self.old.choice }
        ensures keeps { KeepsRegex self.old self.new }
    {
        laws::windows_answer();
        match self.dfa.try_find_window(&mut self.cache, input) {
            Ok(None) => Ok(None),
            Ok(Some(window)) => Ok(Some(input.range(window.start()..window.end()))),
            Err(_) => Err(NoWindow),
        }
    }

    /// Returns the input that the choice has to search for the answer: a window of the lazy DFA, or the input itself if
    /// there is none. Returns `None` if nothing matches.
    pub(super) fn part_to_search<'h>(&mut self, input: Input<'h>) -> Option<Input<'h>>
        ensures nothing { IfNone result
            (HasNoMatch self.old.choice.nfa (kind_in self.old.choice) (search_of input.entry)) }
        ensures part { let x = search_of input.entry in IfSome result (λ part.
            (search_of part ≡ x) ⊎ IsWindowOf self.old.choice.nfa x (search_of part)) }
        ensures answers { IfSome result (λ part.
            AnswersAs self.old.choice.nfa (kind_in self.old.choice) (search_of input.entry) (search_of part)) }
        ensures why { IfSome result (λ part.
            NeedsPart (search_of input.entry) (search_of part) self.old self.new) }
        ensures same { self.new.choice ≡ self.old.choice }
        ensures keeps { KeepsRegex self.old self.new }
    {
        match self.window(input) {
            Ok(part) => part,
            Err(NoWindow) => Some(input),
        }
    }

    /// Returns the match of the search, if it is anchored and the lazy DFA answers it. Rows that earlier searches made
    /// are asked first if that is wanted.
    // Inline, so that only the callers that want it ask such rows, and a search that is not anchored costs no call.
    #[inline(always)]
    pub(super) fn find_anchored<'h>(
        &mut self,
        input: Input<'h>,
        known: bool,
    ) -> Option<Option<Match>>
        ensures answer { let x = search_of input.entry in IfSome result (λ found.
            IsFindAnswer self.old.choice.nfa (kind_in self.old.choice) x.earliest x (option_map found_of found)) }
        ensures pattern { IfSome result (λ found.
            IfSome found (λ m. (found_of m).pattern < length self.old.choice.nfa.patterns)) }
        ensures none { let x = search_of input.entry in IfSome result (λ found.
            IfNone found (IsHalfAnswer self.old.choice.nfa (kind_in self.old.choice) x.earliest x None)) }
        ensures nothing { is_utf8_empty self.old.choice.nfa ≡ false → IfSome result (λ found.
            IfNone found (MatchesNothing self.old.choice.nfa (search_of input.entry))) }
        ensures same { self.new.choice ≡ self.old.choice }
        ensures keeps { KeepsRegex self.old self.new }
    {
        if !self.records_spans || !input.get_anchored().is_anchored() {
            return None;
        }
        anchored_matches_start_the_span();
        half_matches_are_ends();
        no_match_is_missed();
        match self.half_by_dfa(input, known) {
            Ok(None) => Some(None),
            Ok(Some(half)) => {
                let span = Span {
                    start: input.start(),
                    end: half.offset(),
                };
                Some(Some(Match::new(half.pattern(), span)))
            }
            Err(_) => None,
        }
    }

    /// Returns the half match of the search by the lazy DFA, which asks known rows first if that is wanted.
    #[inline(always)]
    fn half_by_dfa<'h>(
        &mut self,
        input: Input<'h>,
        known: bool,
    ) -> Result<Option<HalfMatch>, StopError>
        ensures answer { let x = search_of input.entry in IfOk result (λ half. IsHalfAnswer self.old.choice.nfa
            (kind_in self.old.choice) x.earliest x (option_map half_found_of half)) }
        ensures same { self.new.choice ≡ self.old.choice }
        ensures keeps { KeepsRegex self.old self.new }
    {
        if known {
            if let Some(half) = self.dfa.known_answer(&self.cache, &input) {
                return Ok(half);
            }
        }
        self.dfa.try_find_half(&mut self.cache, input)
    }

    /// Returns the match that [`Regex::find`] returns. It copies no input for a match at the first start.
    #[inline(always)]
    pub(super) fn find_by_ref(&mut self, input: &Input<'_>) -> Option<Match>
        ensures answer { let x = search_of input.now in
            IsFindAnswer self.old.choice.nfa (kind_in self.old.choice) x.earliest x (option_map found_of result) }
        ensures pattern { IfSome result (λ m. (found_of m).pattern < length self.old.choice.nfa.patterns) }
        ensures inside { IfSome result (λ m. IsInside (search_of input.now) (found_of m)) }
        ensures runs { RunsByWindow (search_of input.now) self.old self.new }
        ensures holds { HoldsNoMore (2 * length self.old.choice.nfa.groups) self.old.choice.back self.new.choice.back }
        ensures keeps { KeepsRegex self.old self.new }
    {
        if let Some(found) = self.quick(input) {
            self.misses = 0;
            return Some(found);
        }
        // A name of its own, so that a match at the first start is in no memory that the call may write.
        let found = self.find_past_first(input);
        found
    }

    /// Returns the match of the search, which may be at another start than the first one, and notes whether it is
    /// there.
    // A call of its own, so that a match at the first start costs no large frame.
    #[inline(never)]
    fn find_past_first(&mut self, input: &Input<'_>) -> Option<Match>
        ensures answer { let x = search_of input.now in
            IsFindAnswer self.old.choice.nfa (kind_in self.old.choice) x.earliest x (option_map found_of result) }
        ensures pattern { IfSome result (λ m. (found_of m).pattern < length self.old.choice.nfa.patterns) }
        ensures inside { IfSome result (λ m. IsInside (search_of input.now) (found_of m)) }
        ensures runs { RunsByWindow (search_of input.now) self.old self.new }
        ensures holds { HoldsNoMore (2 * length self.old.choice.nfa.groups) self.old.choice.back self.new.choice.back }
        ensures keeps { KeepsRegex self.old self.new }
    {
        if let Some(found) = self.find_anchored(*input, true) {
            return found;
        }
        let found = self.find_by_window(*input);
        let missed = !self.is_at_first(input, found);
        self.misses = if missed {
            self.misses.saturating_add(1)
        } else {
            PATIENCE - 1
        };
        self.matched_at_first = self.misses <= PATIENCE;
        found
    }

    /// Returns the match of the search, which is not anchored or has no answer by the lazy DFA: of a window, or else of
    /// the whole span.
    pub(super) fn find_by_window<'h>(&mut self, input: Input<'h>) -> Option<Match>
        ensures answer { let x = search_of input.entry in
            IsFindAnswer self.old.choice.nfa (kind_in self.old.choice) x.earliest x (option_map found_of result) }
        ensures pattern { IfSome result (λ m. (found_of m).pattern < length self.old.choice.nfa.patterns) }
        ensures inside { IfSome result (λ m. IsInside (search_of input.entry) (found_of m)) }
        ensures runs { RunsByWindow (search_of input.entry) self.old self.new }
        ensures holds { HoldsNoMore (2 * length self.old.choice.nfa.groups) self.old.choice.back self.new.choice.back }
        ensures keeps { KeepsRegex self.old self.new }
    {
        if let Some(found) = self.find_by_dfa(input) {
            return found;
        }
        match self.window(input) {
            Ok(None) => None,
            Ok(Some(window)) => self.choice.find(window),
            Err(NoWindow) => self.choice.find(input),
        }
    }

    /// Returns the match of a search that may start anywhere, if the lazy DFA finds it at one of the first starts.
    /// Returns `Some(None)` if nothing matches.
    pub(super) fn find_by_dfa<'h>(&mut self, input: Input<'h>) -> Option<Option<Match>>
        ensures answer { let x = search_of input.entry in IfSome result (λ found.
            IsFindAnswer self.old.choice.nfa (kind_in self.old.choice) x.earliest x (option_map found_of found)) }
        ensures nothing { IfSome result (λ found.
            IfNone found (HasNoMatch self.old.choice.nfa (kind_in self.old.choice) (search_of input.entry))) }
        ensures pattern { IfSome result (λ found.
            IfSome found (λ m. (found_of m).pattern < length self.old.choice.nfa.patterns)) }
        ensures same { self.new.choice ≡ self.old.choice }
        ensures keeps { KeepsRegex self.old self.new }
    {
        if self.is_windowed(&input) {
            self.find_from_first_end(input)
        } else {
            self.find_from_window(input)
        }
    }

    /// Returns the match of a search that has windows, if the lazy DFA finds it at one of the first starts: it scans to
    /// the first end of a match, and not on to the end of this one. Returns `Some(None)` if nothing matches.
    fn find_from_first_end<'h>(&mut self, input: Input<'h>) -> Option<Option<Match>>
        requires windowed { IsWindowed self.old.choice.nfa (search_of input) }
        ensures answer { let x = search_of input.entry in IfSome result (λ found.
            IsFindAnswer self.old.choice.nfa (kind_in self.old.choice) x.earliest x (option_map found_of found)) }
        ensures nothing { IfSome result (λ found.
            IfNone found (HasNoMatch self.old.choice.nfa (kind_in self.old.choice) (search_of input.entry))) }
        ensures pattern { IfSome result (λ found.
            IfSome found (λ m. (found_of m).pattern < length self.old.choice.nfa.patterns)) }
        ensures same { self.new.choice ≡ self.old.choice }
        ensures keeps { KeepsRegex self.old self.new }
    {
        if !self.records_spans {
            return None;
        }
        self.matched_at_literal = false;
        let Some(rest) = self.from_prefix(input) else {
            return Some(None);
        };
        match self.first_end(rest) {
            Ok(None) => Some(None),
            Ok(Some(at)) => {
                let found = self.find_near_start(rest, at)?;
                self.matched_at_literal = is_at_literal(&input, &rest, found);
                Some(Some(found))
            }
            Err(NoWindow) => None,
        }
    }

    /// Scans a search that has windows to the first end of a match. Returns a position near its start before which
    /// nothing matches. Returns `None` in it if nothing matches.
    fn first_end<'h>(&mut self, input: Input<'h>) -> Result<Option<usize>, NoWindow>
        requires windowed { IsWindowed self.old.choice.nfa (search_of input) }
        ensures nothing { IfOk result (λ at.
            IfNone at (HasNoMatch self.old.choice.nfa (kind_in self.old.choice) (search_of input.entry))) }
        ensures first { IfOk result (λ at. IfSome at (IsFirstStart self.old.choice.nfa (search_of input.entry))) }
        ensures within { IfOk result (λ at. IfSome at (λ at. at ≤ (search_of input.entry).end + 1)) }
        ensures same { self.new.choice ≡ self.old.choice }
        ensures keeps { KeepsRegex self.old self.new }
    {
        laws::windows_are_first_starts();
        found_is_an_accepting_path();
        nothing_has_no_answer();
        match self
            .dfa
            .try_find_window(&mut self.cache, input.earliest(true))
        {
            Ok(None) => Ok(None),
            Ok(Some(window)) => Ok(Some(window.start())),
            Err(_) => Err(NoWindow),
        }
    }

    /// Returns the match of a search that may start anywhere, in UTF-8 mode of an NFA that can match the empty string,
    /// if the lazy DFA finds it at one of the first starts of its window. Returns `Some(None)` if nothing matches.
    fn find_from_window<'h>(&mut self, input: Input<'h>) -> Option<Option<Match>>
        ensures answer { let x = search_of input.entry in IfSome result (λ found.
            IsFindAnswer self.old.choice.nfa (kind_in self.old.choice) x.earliest x (option_map found_of found)) }
        ensures nothing { IfSome result (λ found.
            IfNone found (HasNoMatch self.old.choice.nfa (kind_in self.old.choice) (search_of input.entry))) }
        ensures pattern { IfSome result (λ found.
            IfSome found (λ m. (found_of m).pattern < length self.old.choice.nfa.patterns)) }
        ensures same { self.new.choice ≡ self.old.choice }
        ensures keeps { KeepsRegex self.old self.new }
    {
        if !self.records_spans || !self.starts_anywhere(&input) || self.is_windowed(&input) {
            return None;
        }
        laws::searches_go_on();
        steps_find_the_half();
        match self.dfa.try_scan_window(&mut self.cache, input) {
            Ok(None) => Some(None),
            Ok(Some(window)) => Some(Some(self.find_from(input, window.start())?)),
            _ => None,
        }
    }

    /// Returns the match of a search, if the lazy DFA finds it at one of the first starts from one on before which
    /// nothing matches.
    fn find_from<'h>(&mut self, input: Input<'h>, from: usize) -> Option<Match>
        requires anywhere { StartsAnywhere self.old.choice.nfa (search_of input) }
        requires last { (search_of input).earliest ≡ false }
        requires first { IsFirstStart self.old.choice.nfa (search_of input) from }
        requires within { from ≤ (search_of input).end + 1 }
        ensures answer { let x = search_of input.entry in IfSome result (λ m.
            IsFindAnswer self.old.choice.nfa (kind_in self.old.choice) x.earliest x (Some (found_of m))) }
        ensures pattern { IfSome result (λ m. (found_of m).pattern < length self.old.choice.nfa.patterns) }
        ensures same { self.new.choice ≡ self.old.choice }
        ensures keeps { KeepsRegex self.old self.new }
    {
        let _ = &self.dfa;
        laws::searches_go_on();
        bytes_may_be_skipped();
        let mut rest = input;
        let mut at = from;
        for _ in 0..TRIES {
            if let Some(found) = self.find_at_start(rest, at, false)? {
                return Some(found);
            }
            if at >= rest.end() {
                return None;
            }
            at += 1;
            rest.set_start(at);
        }
        None
    }

    /// Returns the match of a search that has windows, if the lazy DFA finds it at one of the first starts whose byte a
    /// match may begin with, from one on before which nothing matches.
    fn find_near_start<'h>(&mut self, input: Input<'h>, from: usize) -> Option<Match>
        requires windowed { IsWindowed self.old.choice.nfa (search_of input) }
        requires first { IsFirstStart self.old.choice.nfa (search_of input) from }
        requires within { from ≤ (search_of input).end + 1 }
        ensures answer { let x = search_of input.entry in IfSome result (λ m.
            IsFindAnswer self.old.choice.nfa (kind_in self.old.choice) x.earliest x (Some (found_of m))) }
        ensures pattern { IfSome result (λ m. (found_of m).pattern < length self.old.choice.nfa.patterns) }
        ensures same { self.new.choice ≡ self.old.choice }
        ensures keeps { KeepsRegex self.old self.new }
    {
        let mut at = from;
        for _ in 0..TRIES {
            at = self.next_start(&input, at, input.end());
            if let Some(found) = self.find_at_start(input, at, true)? {
                return Some(found);
            }
            if at >= input.end() {
                return None;
            }
            at += 1;
        }
        None
    }
}

/// Whether the literals name the start of the match: they leave this rest of the input, and not all of it.
fn is_at_literal(input: &Input<'_>, rest: &Input<'_>, found: Match) -> bool {
    rest.start() > input.start() && found.start() == rest.start()
}
