//! Sets of patterns of leftmost first matches.
ghost use Rattle.regex_search_core.specs.Search.{search_of};
ghost use Rattle.nfa_paths.specs.Overlaps.{IsOverlapResult};
ghost use Rattle.nfa_choice.specs.ChoiceState.{AddsByPike, kind_in};
ghost use Rattle.nfa_meta.specs.RegexState.{KeepsRegex};

use crate::regex::Regex;
use regex_search_core::{Input, PatternSet};

impl Regex {
    /// Adds patterns of leftmost first matches to the set. The set keeps its patterns, and gains only patterns below
    /// its capacity.
    ///
    /// A set that holds a pattern gains nothing. An empty set gains the pattern of the first match, and of each match
    /// that is the first of those that end before some limit. With `earliest`, only that of the match that ends first.
    /// Matches of patterns at or above the capacity do not count.
    ///
    /// The search is always one of the PikeVM of the [`Choice`](nfa_choice::Choice). For every pattern that matches,
    /// use a `Choice` or an `nfa_choice::hybrid::Hybrid` with the match kind `All`.
    ///
    /// ```
    /// // regex of ["foo", "bar"]
    /// let mut patterns = PatternSet::new(alloc, regex.get_nfa().pattern_len())?;
    /// regex.which_overlapping_matches(&Input::new(b"a bar"), &mut patterns);
    /// let mut numbers = Vec::new(alloc);
    /// for pattern in patterns.iter() {
    ///     numbers.push(pattern.as_usize())?;
    /// }
    /// assert_eq!(rt; numbers.as_slice(), [1].as_slice());
    /// ```
    pub fn which_overlapping_matches(&mut self, input: &Input<'_>, patterns: &mut PatternSet)
        ensures result { IsOverlapResult self.old.choice.nfa (search_of input.now) (kind_in self.old.choice)
            (search_of input.now).earliest patterns.old patterns.new }
        ensures runs { AddsByPike (search_of input.now) patterns.old self.old.choice self.new.choice }
        ensures keeps { KeepsRegex self.old self.new }
    {
        self.choice.which_overlapping_matches(input, patterns);
    }
}
