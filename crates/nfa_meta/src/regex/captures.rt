//! Captures for the NFA, and the searches that fill them.
ghost use Rattle.std.specs.Prelude.{◌≡◌, ◌≤◌, None, Ok, false, replicate, IfOk, IsOkUnless};
ghost use Rattle.std.specs.Option.{ForSome};
ghost use Rattle.regex_search_core.specs.Groups.{slot_count};
ghost use Rattle.regex_search_core.specs.Search.{search_of};
ghost use Rattle.nfa_paths.specs.Paths.{IsAnswer, max_scans};
ghost use Rattle.nfa_paths.specs.Starts.{IsUnbound, MatchesNothing};
ghost use Rattle.nfa_search_base.specs.IterStates.{answer_span};
ghost use Rattle.nfa_search_base.specs.WithCaptures.{filled_answer, row_span};
ghost use Rattle.nfa_backtrack.specs.Backtrack.{HoldsNoMore};
ghost use Rattle.nfa_choice.specs.Answered.{FillsCaptures};
ghost use Rattle.nfa_choice.specs.ChoiceState.{kind_in};
ghost use Rattle.nfa_meta.specs.RegexState.{KeepsRegex};
ghost use Rattle.nfa_meta.specs.WindowRuns.{RunsByWindow};
ghost use Rattle.nfa_meta.specs.Work.{WorksWithin};

use crate::regex::Regex;
use crate::regex::match_slots::fill_captures;
use nfa_engines::error::SearchError;
use nfa_engines::iter::captures_items::captures_span;
use regex_search_core::{Captures, Input, Span};
use std::alloc::Global;

impl Regex {
    /// Makes captures with two slots for each group of the NFA. No pattern and no slot is set. The only error is
    /// `Memory`.
    ///
    /// ```
    /// // regex of "foo(?<n>[0-9]+)"
    /// let captures = regex.create_captures(alloc)?;
    /// assert_eq!(rt; captures.slots(), [None; 4].as_slice());
    /// ```
    pub fn create_captures(&self, alloc: Global) -> Result<Captures, SearchError>
        ensures made { IfOk result (λ made. made ≡ record {
          groups = self.now.choice.nfa.groups;
          pattern = None;
          slots = replicate (slot_count self.now.choice.nfa.groups) None;
        }) }
        ensures memory { IsOkUnless result SearchError.Memory }
    {
        self.choice.create_captures(alloc)
    }

    /// Searches, and writes the result to the captures: the pattern that matched, and the slots that
    /// [`Regex::search_slots`] returns for that number of slots. Their groups do not change. If nothing matches, no
    /// pattern and no slot is set. The captures may be of another NFA.
    ///
    /// The engines run as for [`Regex::find`], so the groups cost what the window does.
    ///
    /// ```
    /// // regex of "foo(?<n>[0-9]+)"
    /// let mut captures = regex.create_captures(alloc)?;
    /// regex.search_captures(&Input::new(b"foo12345"), &mut captures);
    /// let digits = captures.get_group_by_name("n");
    /// assert_eq!(rt; digits, Some(Span { start: 3, end: 8 }));
    /// ```
    pub fn search_captures(&mut self, input: &Input<'_>, captures: &mut Captures)
        ensures answer { IsAnswer self.old.choice.nfa (kind_in self.old.choice) (search_of input.now).earliest
            (search_of input.now) captures.new.pattern captures.new.slots }
        ensures fills { FillsCaptures self.old.choice.nfa (search_of input.now) captures.old captures.new }
        ensures work { let x = search_of input.now in
            WorksWithin (max_scans self.old.choice.nfa x) 0 x self.old self.new }
        // If nothing matches, and the lazy DFA does not stop, no engine of the choice searches.
        ensures rests { let x = search_of input.now in
            IsUnbound self.old.choice.nfa x → x.earliest ≡ false → MatchesNothing self.old.choice.nfa x
            → self.new.stops ≡ self.old.stops → self.new.choice ≡ self.old.choice }
        ensures keeps { KeepsRegex self.old self.new }
    {
        let _ = self.captured_span(input, captures);
    }

    /// Searches as [`Regex::search_captures`] does, and returns the span of the match. For a match of two slots at the
    /// likely start it copies no input.
    #[inline]
    pub(super) fn captured_span(
        &mut self,
        input: &Input<'_>,
        captures: &mut Captures,
    ) -> Option<Span>
        ensures span { result ≡ answer_span row_span (filled_answer captures.new (Ok tt)) }
        ensures ordered { ForSome result (λ p. p.start ≤ p.end) }
        ensures answer { IsAnswer self.old.choice.nfa (kind_in self.old.choice) (search_of input.now).earliest
            (search_of input.now) captures.new.pattern captures.new.slots }
        ensures runs { RunsByWindow (search_of input.now) self.old self.new }
        ensures fills { FillsCaptures self.old.choice.nfa (search_of input.now) captures.old captures.new }
        ensures holds { HoldsNoMore 0 self.old.choice.back self.new.choice.back }
        ensures keeps { KeepsRegex self.old self.new }
    {
        let slot_count = captures.slots().len();
        if slot_count != 2 {
            self.fill_groups(input, captures);
            return captures_span(captures, Ok(()));
        }
        if let Some(found) = self.quick_match(input, slot_count) {
            fill_captures(found, captures);
            return Some(found.span());
        }
        self.fill_past_quick(input, captures);
        captures_span(captures, Ok(()))
    }

    /// Searches as [`Regex::search_captures`] does, for captures of any number of slots.
    fn fill_groups(&mut self, input: &Input<'_>, captures: &mut Captures)
        ensures answer { IsAnswer self.old.choice.nfa (kind_in self.old.choice) (search_of input.now).earliest
            (search_of input.now) captures.new.pattern captures.new.slots }
        ensures runs { RunsByWindow (search_of input.now) self.old self.new }
        ensures fills { FillsCaptures self.old.choice.nfa (search_of input.now) captures.old captures.new }
        ensures holds { HoldsNoMore 0 self.old.choice.back self.new.choice.back }
        ensures keeps { KeepsRegex self.old self.new }
    {
        let pattern = self.search_groups(input, captures.slots_mut());
        captures.set_pattern(pattern);
    }

    /// Searches as [`Regex::search_captures`] does for captures of two slots, if known cells did not lead to the match.
    // A call of its own, so that a match at the likely start costs no large frame.
    #[inline(never)]
    fn fill_past_quick(&mut self, input: &Input<'_>, captures: &mut Captures)
        ensures answer { IsAnswer self.old.choice.nfa (kind_in self.old.choice) (search_of input.now).earliest
            (search_of input.now) captures.new.pattern captures.new.slots }
        ensures runs { RunsByWindow (search_of input.now) self.old self.new }
        ensures fills { FillsCaptures self.old.choice.nfa (search_of input.now) captures.old captures.new }
        ensures holds { HoldsNoMore 0 self.old.choice.back self.new.choice.back }
        ensures keeps { KeepsRegex self.old self.new }
    {
        match self.match_past_quick(*input, captures.slots().len()) {
            Ok(found) => fill_captures(found, captures),
            Err(Some(part)) => self.choice.search(&part, captures),
            Err(None) => captures.clear(),
        }
    }

    /// Searches as [`Regex::search_captures`] does, but takes the input by value.
    ///
    /// ```
    /// // regex of "foo(?<n>[0-9]+)"
    /// let mut captures = regex.create_captures(alloc)?;
    /// regex.captures(Input::new(b"foo12345"), &mut captures);
    /// assert_eq!(rt; captures.get_group(1), Some(Span { start: 3, end: 8 }));
    /// ```
    pub fn captures<'h>(&mut self, input: Input<'h>, captures: &mut Captures)
        ensures answer { let x = search_of input.entry in
            IsAnswer self.old.choice.nfa (kind_in self.old.choice) x.earliest x captures.new.pattern
            captures.new.slots }
        ensures fills { FillsCaptures self.old.choice.nfa (search_of input.entry) captures.old captures.new }
        ensures work { let x = search_of input.entry in
            WorksWithin (max_scans self.old.choice.nfa x) 0 x self.old self.new }
        // If nothing matches, and the lazy DFA does not stop, no engine of the choice searches.
        ensures rests { let x = search_of input.entry in
            IsUnbound self.old.choice.nfa x → x.earliest ≡ false → MatchesNothing self.old.choice.nfa x
            → self.new.stops ≡ self.old.stops → self.new.choice ≡ self.old.choice }
        ensures keeps { KeepsRegex self.old self.new }
    {
        self.search_captures(&input, captures);
    }
}
