//! How many groups there are, and how many matches.
ghost use Rattle.std.specs.Prelude.{◌≡◌, ◌+◌, ◌*◌, ◌≤◌, length, sum_by};
ghost use Rattle.regex_search_core.specs.Groups.{group_count};
ghost use Rattle.regex_search_core.specs.Search.{search_of};
ghost use Rattle.nfa_paths.specs.Paths.{span_len};
ghost use Rattle.nfa_meta.specs.Counted.{CountsMatches};
ghost use Rattle.nfa_meta.specs.RegexState.{KeepsRegex};
ghost use Rattle.nfa_meta.specs.Work.{WorksWithin};

use crate::regex::Regex;
use regex_search_core::Input;

impl Regex {
    /// Returns the number of groups: of each pattern its explicit groups and group 0, which is the whole match.
    ///
    /// ```
    /// // regex of "(?<year>[0-9]+)-([0-9]+)"
    /// assert_eq!(rt; regex.captures_len(), 3);
    /// ```
    pub fn captures_len(&self) -> usize
        ensures value { result ≡ length self.now.choice.nfa.groups + sum_by length self.now.choice.nfa.groups }
        ensures one { length self.now.choice.nfa.groups ≡ 1 → result ≡ group_count self.now.choice.nfa.groups 0 }
    {
        self.group_info().slot_len() / 2
    }

    /// Returns the number of matches that [`Regex::find_iter`] gives: at most n + 1 for a span of n bytes.
    ///
    /// ```
    /// // regex of "foo[0-9]+"
    /// assert_eq!(rt; regex.count(Input::new(b"foo1 foo12 foo123")), 3);
    /// ```
    pub fn count(&mut self, input: Input<'_>) -> usize
        ensures matches { CountsMatches (search_of input.entry) self.old self.new result }
        ensures most { result ≤ span_len (search_of input.entry) + 1 }
        ensures keeps { KeepsRegex self.old self.new }
        ensures work { let x = search_of input.entry in
            WorksWithin (2 * span_len x + 3) (2 * length self.old.choice.nfa.groups) x self.old self.new }
    {
        let mut count = 0usize;
        for _found in self.find_iter(input) {
            count += 1;
        }
        count
    }
}
