//! The patterns of all matches, including matches that overlap.
ghost use Rattle.std.specs.Prelude.{◌≡◌, ◌+◌, ◌*◌, ◌≤◌, Some};
ghost use Rattle.regex_search_core.specs.Search.{search_of};
ghost use Rattle.regex_search_core.specs.declared.search.MatchKind.TheVariants as kinds;
ghost use Rattle.nfa_paths.specs.Overlaps.{IsOverlapResult};
ghost use Rattle.nfa_choice.specs.HybridState.{KeepsHybrid, PikeRanForSet, SetRunsInTurn, kind_in};

use crate::hybrid::{Engine, Hybrid};
use regex_search_core::{Input, MatchKind, PatternSet};

impl Hybrid {
    /// Adds the patterns of all matches to the set, including matches that overlap. The set keeps its patterns, and
    /// gains only patterns below its capacity.
    ///
    /// With the match kind `All` the lazy DFA searches first, and the PikeVM if it stops. With `LeftmostFirst` the
    /// search is one of the PikeVM: see
    /// [`PikeVM::which_overlapping_matches`](nfa_engines::pikevm::PikeVM::which_overlapping_matches).
    ///
    /// ```
    /// // hybrid of [r"\w+", r"\d+", r"\pL+", "foo", "bar", "barfoo", "foobar"], with MatchKind::All
    /// let mut patterns = PatternSet::new(alloc, hybrid.pattern_len())?;
    /// hybrid.which_overlapping_matches(&Input::new(b"foobar"), &mut patterns);
    /// let mut numbers = Vec::new(alloc);
    /// for pattern in patterns.iter() {
    ///     numbers.push(pattern.as_usize())?;
    /// }
    /// assert_eq!(rt; numbers.as_slice(), [0, 2, 3, 4, 6].as_slice());
    /// ```
    pub fn which_overlapping_matches(&mut self, input: &Input<'_>, patterns: &mut PatternSet)
        ensures result { IsOverlapResult self.old.nfa (search_of input.now) (kind_in self.old)
            (search_of input.now).earliest patterns.old patterns.new }
        ensures runs { SetRunsInTurn (search_of input.now) patterns.old self.old self.new }
        ensures keeps { KeepsHybrid self.old self.new }
    {
        match self.get_config().get_match_kind() {
            MatchKind::All => self.add_by_either(input, patterns),
            MatchKind::LeftmostFirst => self.add_by_pikevm(input, patterns),
        }
    }

    /// The search of the lazy DFA, or if it stops that of the PikeVM. What the lazy DFA had added is of matches too.
    fn add_by_either(&mut self, input: &Input<'_>, patterns: &mut PatternSet)
        requires { kind_in self.old ≡ kinds.All }
        ensures result { IsOverlapResult self.old.nfa (search_of input.now) (kind_in self.old)
            (search_of input.now).earliest patterns.old patterns.new }
        ensures runs { SetRunsInTurn (search_of input.now) patterns.old self.old self.new }
        ensures keeps { KeepsHybrid self.old self.new }
    {
        if let Ok(()) = self
            .dfa
            .try_which_overlapping_matches(&mut self.dfa_cache, input, patterns)
        {
            self.ran = Some(Engine::LazyDFA);
            return;
        }
        self.ran = Some(Engine::PikeVM);
        self.pike
            .which_overlapping_matches(&mut self.pike_cache, input, patterns);
    }

    /// The search of the PikeVM.
    fn add_by_pikevm(&mut self, input: &Input<'_>, patterns: &mut PatternSet)
        ensures result { IsOverlapResult self.old.nfa (search_of input.now) (kind_in self.old)
            (search_of input.now).earliest patterns.old patterns.new }
        ensures runs { PikeRanForSet (search_of input.now) patterns.old self.old self.new }
        ensures keeps { KeepsHybrid self.old self.new }
    {
        self.ran = Some(Engine::PikeVM);
        self.pike
            .which_overlapping_matches(&mut self.pike_cache, input, patterns);
    }
}
