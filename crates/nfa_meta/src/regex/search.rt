//! The match of a search, of an input by reference.
ghost use Rattle.std.specs.Prelude.{◌≡◌, ◌*◌, ◌<◌, IfSome, false, length, option_map};
ghost use Rattle.regex_search_core.specs.Found.{found_of};
ghost use Rattle.regex_search_core.specs.Search.{search_of};
ghost use Rattle.nfa_paths.specs.Paths.{IsFindAnswer, max_scans};
ghost use Rattle.nfa_paths.specs.Starts.{IsUnbound, MatchesNothing};
ghost use Rattle.nfa_search_base.specs.Lists.{IsInside};
ghost use Rattle.nfa_choice.specs.ChoiceState.{kind_in};
ghost use Rattle.nfa_meta.specs.RegexState.{KeepsRegex};
ghost use Rattle.nfa_meta.specs.Work.{WorksWithin};

use crate::regex::Regex;
use regex_search_core::{Input, Match};

impl Regex {
    /// Returns the match that a search of the input finds, as [`Regex::find`] does, but takes the input by reference.
    ///
    /// ```
    /// // regex of "foo[0-9]+"
    /// let found = regex.search(&Input::new(b"foo12345"));
    /// assert_eq!(rt; found.expect(rt, "a match").range(), 0..8);
    /// ```
    pub fn search(&mut self, input: &Input<'_>) -> Option<Match>
        ensures answer { IsFindAnswer self.old.choice.nfa (kind_in self.old.choice) (search_of input.now).earliest
            (search_of input.now)
            (option_map found_of result) }
        ensures pattern { IfSome result (λ m. (found_of m).pattern < length self.old.choice.nfa.patterns) }
        ensures inside { IfSome result (λ m. IsInside (search_of input.now) (found_of m)) }
        ensures work { let x = search_of input.now in
            WorksWithin (max_scans self.old.choice.nfa x) (2 * length self.old.choice.nfa.groups) x self.old self.new }
        // If nothing matches, and the lazy DFA does not stop, no engine of the choice searches.
        ensures rests { let x = search_of input.now in
            IsUnbound self.old.choice.nfa x → x.earliest ≡ false → MatchesNothing self.old.choice.nfa x
            → self.new.stops ≡ self.old.stops → self.new.choice ≡ self.old.choice }
        ensures keeps { KeepsRegex self.old self.new }
    {
        self.find_by_ref(input)
    }
}
