//! Searches for slots, if the NFA has only the two of the match.
ghost use Rattle.std.specs.Prelude.{◌≡◌, ◌⊎◌, ◌<◌, IfErr, IfNone, IfOk, IfSome, Some, length, option_map, true};
ghost use Rattle.regex_search_core.specs.Found.{found_of};
ghost use Rattle.regex_search_core.specs.Groups.{slot_count};
ghost use Rattle.regex_search_core.specs.Search.{search_of};
ghost use Rattle.regex_search_core.specs.Slots.{match_of};
ghost use Rattle.nfa_paths.specs.Paths.{IsAnswer, IsFindAnswer, is_utf8_empty};
ghost use Rattle.nfa_search_base.specs.Lists.{IsInside};
ghost use Rattle.nfa_choice.specs.ChoiceState.{kind_in};
ghost use Rattle.nfa_meta.specs.RegexState.{KeepsRegex};
ghost use Rattle.nfa_meta.specs.MatchSlots.{match_slots};
ghost use Rattle.nfa_meta.specs.WindowRuns.{AnswersAs, HasNoMatch, IsWindowOf, NeedsPart};

use crate::regex::Regex;
use nfa_facts::literal::laws::nothing_has_no_answer;
use regex_search_core::{Captures, Input, Match, NonMaxUsize};

impl Regex {
    /// Returns the match of a search for this number of slots, if the match has no others and known cells lead to it.
    /// `None` says nothing.
    #[inline(always)]
    pub(super) fn quick_match(&self, input: &Input<'_>, count: usize) -> Option<Match>
        ensures answer { let x = search_of input.now in IfSome result (λ m.
            IsAnswer self.now.choice.nfa (kind_in self.now.choice) x.earliest x (Some (found_of m).pattern)
            (match_slots (found_of m))) }
        ensures same { IfSome result (λ m.
            match_of (Some (found_of m).pattern) (match_slots (found_of m)) ≡ Some (found_of m)) }
        ensures count { IfSome result (λ m. count ≡ 2) }
        ensures pattern { IfSome result (λ m. (found_of m).pattern < length self.now.choice.nfa.patterns) }
        ensures inside { IfSome result (λ m. IsInside (search_of input.now) (found_of m)) }
    {
        if !self.has_two_slots(count) {
            return None;
        }
        self.quick(input)
    }

    /// Whether a search for this number of slots asks for two, and the match has no others.
    #[inline(always)]
    fn has_two_slots(&self, count: usize) -> bool
        ensures { result ≡ true → (count ≡ 2) × (slot_count self.now.choice.nfa.groups ≡ 2) }
    {
        count == 2 && self.group_info().slot_len() == 2
    }

    /// Returns the match of a search for this number of slots, if the match has no others and the lazy DFA finds it.
    /// Otherwise returns the input that the choice has to search, or `None` in it if nothing matches.
    pub(super) fn match_or_part<'h>(
        &mut self,
        input: Input<'h>,
        count: usize,
    ) -> Result<Match, Option<Input<'h>>>
        ensures answer { let x = search_of input.entry in IfOk result (λ m.
            IsAnswer self.old.choice.nfa (kind_in self.old.choice) x.earliest x (Some (found_of m).pattern)
            (match_slots (found_of m))) }
        ensures count { IfOk result (λ m. count ≡ 2) }
        ensures pattern { IfOk result (λ m. (found_of m).pattern < length self.old.choice.nfa.patterns) }
        ensures inside { IfOk result (λ m. IsInside (search_of input.entry) (found_of m)) }
        ensures nothing { IfErr result (λ part.
            IfNone part (HasNoMatch self.old.choice.nfa (kind_in self.old.choice) (search_of input.entry))) }
        ensures part { let x = search_of input.entry in IfErr result (λ rest. IfSome rest (λ part.
            (search_of part ≡ x) ⊎ IsWindowOf self.old.choice.nfa x (search_of part))) }
        ensures answers { IfErr result (λ rest. IfSome rest (λ part.
            AnswersAs self.old.choice.nfa (kind_in self.old.choice) (search_of input.entry) (search_of part))) }
        ensures why { let x = search_of input.entry in IfErr result (λ rest. IfSome rest (λ part.
            NeedsPart x (search_of part) self.old self.new)) }
        ensures same { self.new.choice ≡ self.old.choice }
        ensures keeps { KeepsRegex self.old self.new }
    {
        if let Some(found) = self.quick_match(&input, count) {
            return Ok(found);
        }
        self.match_past_quick(input, count)
    }

    /// The same, if known cells did not lead to the match.
    pub(super) fn match_past_quick<'h>(
        &mut self,
        input: Input<'h>,
        count: usize,
    ) -> Result<Match, Option<Input<'h>>>
        ensures answer { let x = search_of input.entry in IfOk result (λ m.
            IsAnswer self.old.choice.nfa (kind_in self.old.choice) x.earliest x (Some (found_of m).pattern)
            (match_slots (found_of m))) }
        ensures count { IfOk result (λ m. count ≡ 2) }
        ensures pattern { IfOk result (λ m. (found_of m).pattern < length self.old.choice.nfa.patterns) }
        ensures inside { IfOk result (λ m. IsInside (search_of input.entry) (found_of m)) }
        ensures nothing { IfErr result (λ part.
            IfNone part (HasNoMatch self.old.choice.nfa (kind_in self.old.choice) (search_of input.entry))) }
        ensures part { let x = search_of input.entry in IfErr result (λ rest. IfSome rest (λ part.
            (search_of part ≡ x) ⊎ IsWindowOf self.old.choice.nfa x (search_of part))) }
        ensures answers { IfErr result (λ rest. IfSome rest (λ part.
            AnswersAs self.old.choice.nfa (kind_in self.old.choice) (search_of input.entry) (search_of part))) }
        ensures why { let x = search_of input.entry in IfErr result (λ rest. IfSome rest (λ part.
            NeedsPart x (search_of part) self.old self.new)) }
        ensures same { self.new.choice ≡ self.old.choice }
        ensures keeps { KeepsRegex self.old self.new }
    {
        if !self.has_two_slots(count) {
            return Err(self.part_to_search(input));
        }
        self.match_in_window(input)
    }

    /// Returns the match of the search, if the lazy DFA finds it at the start of an anchored search, or in a window.
    /// Otherwise returns the input that the choice has to search, or `None` in it if nothing matches.
    pub(super) fn match_in_window<'h>(
        &mut self,
        input: Input<'h>,
    ) -> Result<Match, Option<Input<'h>>>
        ensures answer { let x = search_of input.entry in IfOk result (λ m.
            IsFindAnswer self.old.choice.nfa (kind_in self.old.choice) x.earliest x (Some (found_of m))) }
        ensures pattern { IfOk result (λ m. (found_of m).pattern < length self.old.choice.nfa.patterns) }
        ensures nothing { IfErr result (λ part.
            IfNone part (HasNoMatch self.old.choice.nfa (kind_in self.old.choice) (search_of input.entry))) }
        ensures part { let x = search_of input.entry in IfErr result (λ rest. IfSome rest (λ part.
            (search_of part ≡ x) ⊎ IsWindowOf self.old.choice.nfa x (search_of part))) }
        ensures answers { IfErr result (λ rest. IfSome rest (λ part.
            AnswersAs self.old.choice.nfa (kind_in self.old.choice) (search_of input.entry) (search_of part))) }
        ensures why { let x = search_of input.entry in IfErr result (λ rest. IfSome rest (λ part.
            NeedsPart x (search_of part) self.old self.new)) }
        ensures same { self.new.choice ≡ self.old.choice }
        ensures keeps { KeepsRegex self.old self.new }
    {
        if let Some(found) = self.found_anchored(input) {
            return found.ok_or(None);
        }
        if let Some(found) = self.find_by_dfa(input) {
            self.matched_at_first = self.is_at_first(&input, found);
            return found.ok_or(None);
        }
        Err(self.part_to_search(input))
    }

    /// Returns the match of a search that is anchored, if the lazy DFA finds it. Returns `Some(None)` if nothing
    /// matches.
    #[inline(always)]
    fn found_anchored<'h>(&mut self, input: Input<'h>) -> Option<Option<Match>>
        ensures answer { let x = search_of input.entry in IfSome result (λ found.
            IsFindAnswer self.old.choice.nfa (kind_in self.old.choice) x.earliest x (option_map found_of found)) }
        ensures pattern { IfSome result (λ found.
            IfSome found (λ m. (found_of m).pattern < length self.old.choice.nfa.patterns)) }
        ensures nothing { IfSome result (λ found.
            IfNone found (HasNoMatch self.old.choice.nfa (kind_in self.old.choice) (search_of input.entry))) }
        ensures same { self.new.choice ≡ self.old.choice }
        ensures keeps { KeepsRegex self.old self.new }
    {
        if !input.get_anchored().is_anchored() {
            return None;
        }
        nothing_has_no_answer();
        if self.skips_split_matches() {
            return None;
        }
        self.find_anchored(input, true)
    }

    /// Whether a search skips empty matches that split a codepoint.
    fn skips_split_matches(&self) -> bool
        ensures { result ≡ is_utf8_empty self.now.choice.nfa }
    {
        let nfa = self.choice.get_nfa();
        nfa.has_empty() && nfa.is_utf8()
    }
}

/// Writes the start and the end of the match to the two slots.
pub(super) fn write_match(found: Match, slots: &mut [Option<NonMaxUsize>])
    requires two { length slots.old ≡ 2 }
    requires fits { (found_of found).end < usize.MAX }
    ensures { slots.new ≡ match_slots (found_of found) }
{
    slots[0] = NonMaxUsize::new(found.start());
    slots[1] = NonMaxUsize::new(found.end());
}

/// Writes the match to captures of two slots.
pub(super) fn fill_captures(found: Match, captures: &mut Captures)
    requires two { length captures.old.slots ≡ 2 }
    requires fits { (found_of found).end < usize.MAX }
    ensures { captures.new ≡ record captures.old {
      pattern = Some (found_of found).pattern;
      slots = match_slots (found_of found);
    } }
{
    captures.set_pattern(Some(found.pattern()));
    write_match(found, captures.slots_mut());
}
