//! Searches of a haystack from an offset on, and where the match that ends first ends.
ghost use Rattle.std.specs.Prelude.{◌≡◌, ◌*◌, ◌<◌, ◌≤◌, IfSome, None, false, length, option_map};
ghost use Rattle.regex_search_core.specs.Found.{found_of};
ghost use Rattle.nfa_paths.specs.Paths.{IsBoolAnswer, IsFindAnswer, max_scans};
ghost use Rattle.nfa_paths.specs.Starts.{IsUnbound, MatchesNothing};
ghost use Rattle.nfa_search_base.specs.Lists.{IsInside};
ghost use Rattle.nfa_choice.specs.ChoiceState.{finds_in, kind_in};
ghost use Rattle.nfa_meta.specs.Offsets.{IsEndAnswer, earliest_from, from_offset};
ghost use Rattle.nfa_meta.specs.RegexState.{KeepsRegex};
ghost use Rattle.nfa_meta.specs.Work.{WorksWithin};

use crate::regex::Regex;
use regex_search_core::{Input, Match};

impl Regex {
    /// Returns whether a match starts at or after this byte offset of the haystack, as [`Regex::is_match`] of an input
    /// with that start does. Assertions see the bytes before it. Past the end of the haystack nothing matches.
    ///
    /// ```
    /// // regex of r"\bfoo"
    /// assert!(rt; regex.is_match_at(b"a foo", 2));
    /// assert!(rt; !regex.is_match_at(b"afoo", 1));
    /// assert!(rt; !regex.is_match_at(b"foo", 9));
    /// ```
    pub fn is_match_at(&mut self, haystack: &[u8], start: usize) -> bool
        ensures answer { start ≤ length haystack.now → IsBoolAnswer self.old.choice.nfa (kind_in self.old.choice) false
            (from_offset haystack.now start) result }
        ensures finds { start ≤ length haystack.now
            → result ≡ finds_in self.old.choice (from_offset haystack.now start) }
        ensures past { length haystack.now < start → (result ≡ false) × (self.new ≡ self.old) }
        ensures work { let x = from_offset haystack.now start in
            start ≤ length haystack.now → WorksWithin (max_scans self.old.choice.nfa x) 0 x self.old self.new }
        // If the lazy DFA does not stop, no engine of the choice searches.
        ensures rests { self.new.stops ≡ self.old.stops → self.new.choice ≡ self.old.choice }
        ensures keeps { KeepsRegex self.old self.new }
    {
        if start > haystack.len() {
            return false;
        }
        self.is_match(Input::new(haystack).range(start..haystack.len()))
    }

    /// Returns the first match that starts at or after this byte offset of the haystack, as [`Regex::find`] of an input
    /// with that start does. Assertions see the bytes before it. Past the end of the haystack nothing matches.
    ///
    /// ```
    /// // regex of r"\bfoo"
    /// let found = regex.find_at(b"foo foo", 1);
    /// assert_eq!(rt; found.expect(rt, "a match").range(), 4..7);
    /// assert!(rt; regex.find_at(b"foo", 9).is_none());
    /// ```
    pub fn find_at(&mut self, haystack: &[u8], start: usize) -> Option<Match>
        ensures answer { start ≤ length haystack.now → IsFindAnswer self.old.choice.nfa (kind_in self.old.choice) false
            (from_offset haystack.now start) (option_map found_of result) }
        ensures past { length haystack.now < start → (result ≡ None) × (self.new ≡ self.old) }
        ensures pattern { IfSome result (λ m. (found_of m).pattern < length self.old.choice.nfa.patterns) }
        ensures inside { IfSome result (λ m. IsInside (from_offset haystack.now start) (found_of m)) }
        ensures work { let x = from_offset haystack.now start in
            start ≤ length haystack.now → WorksWithin (max_scans self.old.choice.nfa x)
            (2 * length self.old.choice.nfa.groups) x self.old self.new }
        // If nothing matches, and the lazy DFA does not stop, no engine of the choice searches.
        ensures rests { let x = from_offset haystack.now start in start ≤ length haystack.now
            → IsUnbound self.old.choice.nfa x → MatchesNothing self.old.choice.nfa x
            → self.new.stops ≡ self.old.stops → self.new.choice ≡ self.old.choice }
        ensures keeps { KeepsRegex self.old self.new }
    {
        if start > haystack.len() {
            return None;
        }
        self.find(Input::new(haystack).range(start..haystack.len()))
    }

    /// Returns the least byte offset at which a match of the haystack ends: that of the half match that
    /// [`Regex::find_half`] finds with `earliest`. Returns `None` if nothing matches.
    ///
    /// ```
    /// // regex of "a+"
    /// assert_eq!(rt; regex.shortest_match(b"baaa"), Some(2));
    /// assert_eq!(rt; regex.shortest_match(b"bbb"), None);
    /// ```
    pub fn shortest_match(&mut self, haystack: &[u8]) -> Option<usize>
        ensures answer { IsEndAnswer self.old.choice.nfa (kind_in self.old.choice) (earliest_from haystack.now 0)
            result }
        ensures inside { IfSome result (λ end. end ≤ length haystack.now) }
        ensures work { let x = earliest_from haystack.now 0 in
            WorksWithin (max_scans self.old.choice.nfa x) 0 x self.old self.new }
        // If the lazy DFA does not stop, no engine of the choice searches.
        ensures rests { self.new.stops ≡ self.old.stops → self.new.choice ≡ self.old.choice }
        ensures keeps { KeepsRegex self.old self.new }
    {
        self.shortest_match_at(haystack, 0)
    }

    /// Returns the least byte offset at which a match ends that starts at or after this one, as
    /// [`Regex::shortest_match`] does. Assertions see the bytes before it. Past the end of the haystack nothing
    /// matches.
    ///
    /// ```
    /// // regex of r"\ba+"
    /// assert_eq!(rt; regex.shortest_match_at(b"aa aa", 1), Some(4));
    /// assert_eq!(rt; regex.shortest_match_at(b"aa", 9), None);
    /// ```
    pub fn shortest_match_at(&mut self, haystack: &[u8], start: usize) -> Option<usize>
        ensures answer { start ≤ length haystack.now → IsEndAnswer self.old.choice.nfa (kind_in self.old.choice)
            (earliest_from haystack.now start) result }
        ensures past { length haystack.now < start → (result ≡ None) × (self.new ≡ self.old) }
        ensures inside { IfSome result (λ end. (start ≤ end) × (end ≤ length haystack.now)) }
        ensures work { let x = earliest_from haystack.now start in
            start ≤ length haystack.now → WorksWithin (max_scans self.old.choice.nfa x) 0 x self.old self.new }
        // If the lazy DFA does not stop, no engine of the choice searches.
        ensures rests { self.new.stops ≡ self.old.stops → self.new.choice ≡ self.old.choice }
        ensures keeps { KeepsRegex self.old self.new }
    {
        if start > haystack.len() {
            return None;
        }
        let input = Input::new(haystack).range(start..haystack.len());
        let half = self.find_half(input.earliest(true))?;
        Some(half.offset())
    }
}
