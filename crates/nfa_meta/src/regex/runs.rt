//! Searches whose contracts say what ran. Those of the public calls say only what that may cost.
ghost use Rattle.std.specs.Prelude.{◌≡◌, ◌<◌, ◌≤◌, IfSome, false, length, not, option_map};
ghost use Rattle.regex_search_core.specs.Found.{half_found_of};
ghost use Rattle.regex_search_core.specs.PatternSets.{number_of};
ghost use Rattle.regex_search_core.specs.Search.{search_of};
ghost use Rattle.nfa_paths.specs.Paths.{IsAnswer, IsBoolAnswer, IsHalfAnswer, is_utf8_empty};
ghost use Rattle.nfa_backtrack.specs.Backtrack.{HoldsNoMore};
ghost use Rattle.nfa_choice.specs.Answered.{WritesSlots};
ghost use Rattle.nfa_choice.specs.ChoiceState.{finds_in, kind_in};
ghost use Rattle.nfa_meta.specs.RegexState.{KeepsRegex};
ghost use Rattle.nfa_meta.specs.WindowRuns.{RunsAfterDfa, RunsByWindow};

use crate::regex::Regex;
use crate::regex::match_slots::write_match;
use regex_search_core::{HalfMatch, Input, NonMaxUsize, PatternID};

impl Regex {
    /// Returns the half match that [`Regex::find_half`] returns.
    #[inline]
    pub(super) fn half_of<'h>(&mut self, input: Input<'h>) -> Option<HalfMatch>
        ensures answer { IsHalfAnswer self.old.choice.nfa (kind_in self.old.choice) (search_of input.entry).earliest
            (search_of input.entry) (option_map half_found_of result) }
        ensures pattern { IfSome result (λ m. (half_found_of m).pattern < length self.old.choice.nfa.patterns) }
        ensures inside { IfSome result (λ m. ((search_of input.entry).start ≤ (half_found_of m).offset)
            × ((half_found_of m).offset ≤ (search_of input.entry).end)) }
        ensures runs { RunsAfterDfa (search_of input.entry) (search_of input.entry).earliest self.old self.new }
        ensures holds { HoldsNoMore 0 self.old.choice.back self.new.choice.back }
        ensures keeps { KeepsRegex self.old self.new }
    {
        let rest = self.half_from_prefix(input)?;
        if let Ok(half) = self.dfa.try_find_half(&mut self.cache, rest) {
            // An NFA that can be read is valid, so its patterns are those of its Match states.
            self.choice.get_nfa().states();
            return half;
        }
        self.choice.find_half(input)
    }

    /// Returns whether a search finds a match, as [`Regex::is_match`] does.
    #[inline]
    pub(super) fn is_found<'h>(&mut self, input: Input<'h>) -> bool
        ensures answer { IsBoolAnswer self.old.choice.nfa (kind_in self.old.choice) false (search_of input.entry)
            result }
        ensures finds { result ≡ finds_in self.old.choice (search_of input.entry) }
        ensures runs { RunsAfterDfa (search_of input.entry) (not (is_utf8_empty self.old.choice.nfa)) self.old
            self.new }
        ensures holds { HoldsNoMore 0 self.old.choice.back self.new.choice.back }
        ensures keeps { KeepsRegex self.old self.new }
    {
        let Some(rest) = self.half_from_prefix(input) else {
            return false;
        };
        match self.dfa.try_is_match(&mut self.cache, rest) {
            Ok(found) => found,
            Err(_) => self.choice.is_match(input),
        }
    }

    /// Writes the slots that [`Regex::search_slots`] writes.
    #[inline]
    pub(super) fn write_slots(
        &mut self,
        input: &Input<'_>,
        slots: &mut [Option<NonMaxUsize>],
    ) -> Option<PatternID>
        ensures answer { IsAnswer self.old.choice.nfa (kind_in self.old.choice) (search_of input.now).earliest
            (search_of input.now) (option_map number_of result) slots.new }
        ensures runs { RunsByWindow (search_of input.now) self.old self.new }
        ensures writes { WritesSlots self.old.choice.nfa (search_of input.now) result slots.old slots.new }
        ensures holds { HoldsNoMore 0 self.old.choice.back self.new.choice.back }
        ensures keeps { KeepsRegex self.old self.new }
    {
        if slots.len() != 2 {
            return self.search_groups(input, slots);
        }
        match self.match_or_part(*input, slots.len()) {
            Ok(found) => {
                write_match(found, slots);
                Some(found.pattern())
            }
            Err(Some(part)) => self.choice.search_slots(&part, slots),
            Err(None) => {
                slots.fill(None);
                None
            }
        }
    }
}
