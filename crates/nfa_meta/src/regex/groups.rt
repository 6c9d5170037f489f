//! Searches for the slots of groups: by sure steps, as far as they lead, or by the choice.
ghost use Rattle.std.specs.Prelude.{◌≡◌, ◌⊎◌, IfErr, IfNone, IfOk, IfSome, Some, option_map};
ghost use Rattle.regex_search_core.specs.Found.{found_of};
ghost use Rattle.nfa_search_base.specs.Lists.{IsInside};
ghost use Rattle.regex_search_core.specs.PatternSets.{number_of};
ghost use Rattle.regex_search_core.specs.Search.{search_of};
ghost use Rattle.nfa_paths.specs.Paths.{IsAnswer, IsFindAnswer};
ghost use Rattle.nfa_backtrack.specs.Backtrack.{HoldsNoMore};
ghost use Rattle.nfa_choice.specs.Answered.{WritesSlots};
ghost use Rattle.nfa_choice.specs.ChoiceState.{SearchedByRule, kind_in};
ghost use Rattle.nfa_meta.specs.RegexState.{KeepsRegex};
ghost use Rattle.nfa_meta.specs.WindowRuns.{AnswersAs, HasNoMatch, IsWindowOf, NeedsPart, RunsByWindow};

use crate::regex::Regex;
use nfa_onepass::laws::only_slots_answer;
use regex_search_core::{Input, Match, NonMaxUsize, PatternID};

impl Regex {
    /// Searches for any number of slots, as [`Regex::search_slots`] does. It is never inlined, so that a search for the
    /// two slots of a match computes nothing for it.
    #[inline(never)]
    pub(super) fn search_groups(
        &mut self,
        input: &Input<'_>,
        slots: &mut [Option<NonMaxUsize>],
    ) -> Option<PatternID>
        ensures answer { IsAnswer self.old.choice.nfa (kind_in self.old.choice) (search_of input.now).earliest
            (search_of input.now) (option_map number_of result) slots.new }
        ensures runs { RunsByWindow (search_of input.now) self.old self.new }
        ensures writes { WritesSlots self.old.choice.nfa (search_of input.now) result slots.old slots.new }
        ensures holds { HoldsNoMore 0 self.old.choice.back self.new.choice.back }
        ensures keeps { KeepsRegex self.old self.new }
    {
        if !self.one_pass.is_on() {
            return self.search_window(input, slots);
        }
        if let Some(found) = self.write_whole(input, slots) {
            return found;
        }
        match self.found_or_part(*input) {
            Ok(found) => match self.write_groups(input, found, slots) {
                Some(pattern) => Some(pattern),
                None => self.search_window(input, slots),
            },
            Err(part) => self.search_part(input, part, slots),
        }
    }

    /// Writes the slots of the answer of an anchored search whose match ends with the haystack, if each step of it is
    /// sure and no match ends before. Returns `Some(None)` if sure steps lead to where nothing matches. The lazy DFA
    /// need not search then.
    #[inline(always)]
    fn write_whole(
        &mut self,
        input: &Input<'_>,
        slots: &mut [Option<NonMaxUsize>],
    ) -> Option<Option<PatternID>>
        ensures answer { let x = search_of input.now in IfSome result (λ found.
            IsAnswer self.old.choice.nfa (kind_in self.old.choice) x.earliest x (option_map number_of found)
            slots.new) }
        ensures writes { IfSome result (λ found.
            WritesSlots self.old.choice.nfa (search_of input.now) found slots.old slots.new) }
        ensures same { self.new.choice ≡ self.old.choice }
        ensures keeps { KeepsRegex self.old self.new }
    {
        if input.get_earliest() || !input.get_anchored().is_anchored() {
            return None;
        }
        self.one_pass
            .search_whole(self.choice.get_nfa(), input, slots)
    }

    /// Searches by the choice, in the window of the lazy DFA if there is one.
    fn search_window(
        &mut self,
        input: &Input<'_>,
        slots: &mut [Option<NonMaxUsize>],
    ) -> Option<PatternID>
        ensures answer { IsAnswer self.old.choice.nfa (kind_in self.old.choice) (search_of input.now).earliest
            (search_of input.now) (option_map number_of result) slots.new }
        ensures runs { RunsByWindow (search_of input.now) self.old self.new }
        ensures writes { WritesSlots self.old.choice.nfa (search_of input.now) result slots.old slots.new }
        ensures holds { HoldsNoMore 0 self.old.choice.back self.new.choice.back }
        ensures keeps { KeepsRegex self.old self.new }
    {
        let part = self.part_to_search(*input);
        self.search_part(input, part, slots)
    }

    /// Searches by the choice the part of the input that has the answer. Without one nothing matches.
    // Inline, since a search that finds nothing ends here.
    #[inline(always)]
    fn search_part<'h>(
        &mut self,
        input: &Input<'h>,
        part: Option<Input<'h>>,
        slots: &mut [Option<NonMaxUsize>],
    ) -> Option<PatternID>
        requires nothing { IfNone part
            (HasNoMatch self.old.choice.nfa (kind_in self.old.choice) (search_of input.now)) }
        requires part { IfSome part (λ y. (search_of y ≡ search_of input.now)
            ⊎ IsWindowOf self.old.choice.nfa (search_of input.now) (search_of y)) }
        requires answers { IfSome part (λ y.
            AnswersAs self.old.choice.nfa (kind_in self.old.choice) (search_of input.now) (search_of y)) }
        ensures answer { IsAnswer self.old.choice.nfa (kind_in self.old.choice) (search_of input.now).earliest
            (search_of input.now) (option_map number_of result) slots.new }
        ensures none { IfNone part.entry (self.new.choice ≡ self.old.choice) }
        ensures runs { IfSome part.entry (λ y. SearchedByRule (search_of y) self.old.choice self.new.choice) }
        ensures writes { WritesSlots self.old.choice.nfa (search_of input.now) result slots.old slots.new }
        ensures holds { HoldsNoMore 0 self.old.choice.back self.new.choice.back }
        ensures keeps { KeepsRegex self.old self.new }
    {
        match part {
            Some(part) => self.choice.search_slots(&part, slots),
            None => {
                slots.fill(None);
                None
            }
        }
    }

    /// Writes the slots of the match that a search found, if each step over its span is sure.
    fn write_groups(
        &mut self,
        input: &Input<'_>,
        found: Match,
        slots: &mut [Option<NonMaxUsize>],
    ) -> Option<PatternID>
        requires found { IsFindAnswer self.old.choice.nfa (kind_in self.old.choice) (search_of input.now).earliest
            (search_of input.now) (Some (found_of found)) }
        requires inside { IsInside (search_of input.now) (found_of found) }
        ensures answer { let x = search_of input.now in IfSome result (λ p.
            IsAnswer self.old.choice.nfa (kind_in self.old.choice) x.earliest x (Some (number_of p)) slots.new) }
        ensures writes { IfSome result (λ _.
            WritesSlots self.old.choice.nfa (search_of input.now) result slots.old slots.new) }
        ensures same { self.new.choice ≡ self.old.choice }
        ensures keeps { KeepsRegex self.old self.new }
    {
        only_slots_answer();
        if !self.records_spans || input.get_earliest() {
            return None;
        }
        let span = input.span(found.span());
        self.one_pass
            .search_span(self.choice.get_nfa(), &span, slots)
    }

    /// Returns the match of a search, if the lazy DFA finds it. Otherwise returns the input that the choice has to
    /// search, or `None` in it if nothing matches.
    fn found_or_part<'h>(&mut self, input: Input<'h>) -> Result<Match, Option<Input<'h>>>
        ensures answer { let x = search_of input.entry in IfOk result (λ m.
            IsFindAnswer self.old.choice.nfa (kind_in self.old.choice) x.earliest x (Some (found_of m))) }
        ensures inside { IfOk result (λ m. IsInside (search_of input.entry) (found_of m)) }
        ensures nothing { IfErr result (λ part.
            IfNone part (HasNoMatch self.old.choice.nfa (kind_in self.old.choice) (search_of input.entry))) }
        ensures part { let x = search_of input.entry in IfErr result (λ rest. IfSome rest (λ part.
            (search_of part ≡ x) ⊎ IsWindowOf self.old.choice.nfa x (search_of part))) }
        ensures answers { IfErr result (λ rest. IfSome rest (λ part.
            AnswersAs self.old.choice.nfa (kind_in self.old.choice) (search_of input.entry) (search_of part))) }
        ensures why { let x = search_of input.entry in IfErr result (λ rest. IfSome rest (λ part.
            NeedsPart x (search_of part) self.old self.new)) }
        ensures same { self.new.choice ≡ self.old.choice }
        ensures keeps { KeepsRegex self.old self.new }
    {
        if let Some(found) = self.quick(&input) {
            return Ok(found);
        }
        self.match_in_window(input)
    }
}
