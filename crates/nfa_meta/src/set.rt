//! Which of many patterns match.
ghost use Rattle.std.specs.Prelude.{◌≡◌, ◌↔◌, [], IfErr, IfOk, IsOkUnless, IsTrue, OnOk, false, length, map, not};
ghost use Rattle.regex_search_core.specs.Search.{search_of};
ghost use Rattle.regex_search_core.specs.declared.search.MatchKind.TheVariants.{All};
ghost use Rattle.nfa_paths.specs.Overlaps.{IsOverlapResult};
ghost use Rattle.nfa_paths.specs.Paths.{IsBoolAnswer, is_utf8_empty};
ghost use Rattle.nfa_choice.specs.HybridState.{RunsInTurn, SetRunsInTurn, bytes_of};
ghost use Rattle.nfa_meta.specs.Built.{IsBuiltFrom, IsWhyNotBuilt, default_builder, default_settings};
ghost use Rattle.nfa_meta.specs.RegexSets.{IsNewSet, KeepsSet, no_pattern};

mod matches;
mod texts;

use crate::builder::{Builder, Config, Texts};
use crate::error::BuildError;
pub use matches::SetMatches;
use nfa_choice::hybrid::Hybrid;
use nfa_engines::error::SearchError;
use regex_search_core::{Input, MatchKind, PatternSet};
use std::alloc::Global;
use std::marker::Model;
use thompson_nfa::NFA;

/// A set of patterns that says which of them match, in one pass over the text. Its searches never fail; only a list of
/// answers may not be allocated.
///
/// A lazy DFA searches first, and a PikeVM if it stops, both with the match kind `All`. For where a match is, use a
/// [`Regex`](crate::Regex). Contracts see the state of both engines.
///
/// ```
/// let mut set = RegexSet::new(alloc, &[r"[a-z]+", r"[0-9]+", "foo"])?;
/// let found = set.matches(alloc, &Input::new(b"a foo"))?;
/// assert!(rt; found.matched(0) && !found.matched(1) && found.matched(2));
/// ```
#[derive(Drop)]
pub struct RegexSet {
    hybrid: Hybrid,
    texts: Texts,
}

impl Model for RegexSet {
    ghost use Rattle.std.specs.Prelude.{◌≡◌};
    ghost use Rattle.regex_search_core.specs.declared.search.MatchKind.TheVariants.{All};
    ghost use Rattle.nfa_choice.specs.HybridState.{kind_in};
    ghost use Rattle.nfa_meta.specs.RegexSets.{SetState};

    ghost Value = { SetState };

    ghost view = { λ s. record { engine = s.hybrid; texts = s.texts } };

    ghost invariant = { λ s. kind_in s.hybrid ≡ All };
}

impl Builder {
    /// Makes a set of these patterns, numbered from 0 on, with empty caches.
    ///
    /// Fails as [`Builder::build_many`] does.
    ///
    /// ```
    /// let config = Regex::config().anchored(true);
    /// let builder = Regex::builder().configure(config);
    /// let mut set = builder.build_set(alloc, &["foo", "[0-9]+"])?;
    /// assert!(rt; !set.is_match(Input::new(b"a foo")));
    /// ```
    pub fn build_set(&self, alloc: Global, patterns: &[&str]) -> Result<RegexSet, BuildError>
        ensures built { IfOk result (λ made.
            IsBuiltFrom self.now (map (λ text. text.now) patterns.now) made.engine.nfa) }
        ensures texts { IfOk result (λ made. made.texts ≡ map (λ text. text.now) patterns.now) }
        ensures engines { IfOk result (IsNewSet self.now.config) }
        ensures why { IfErr result (IsWhyNotBuilt self.now (map (λ text. text.now) patterns.now)) }
    {
        let nfa = self.compile(alloc, patterns)?;
        let Ok(texts) = Texts::of(alloc, patterns) else {
            return Err(BuildError::Memory);
        };
        match RegexSet::from_parts(alloc, nfa, self.config) {
            Ok(set) => Ok(set.with_texts(texts)),
            Err(_) => Err(BuildError::Memory),
        }
    }
}

impl RegexSet {
    /// Compiles these patterns, numbered from 0 on, with default settings and empty caches. There may be none.
    ///
    /// Fails if a text is not a pattern or a pattern exceeds the size limit (`BuildError::Compile`, with the number of
    /// the pattern), or if allocation fails.
    ///
    /// ```
    /// let mut set = RegexSet::new(alloc, &["foo", "[0-9]+"])?;
    /// assert!(rt; set.is_match(Input::new(b"a 12")));
    /// assert!(rt; RegexSet::new(alloc, &["foo", "("]).is_err());
    /// ```
    pub fn new(alloc: Global, patterns: &[&str]) -> Result<RegexSet, BuildError>
        ensures built { IfOk result (λ made.
            IsBuiltFrom default_builder (map (λ text. text.now) patterns.now) made.engine.nfa) }
        ensures texts { IfOk result (λ made. made.texts ≡ map (λ text. text.now) patterns.now) }
        ensures engines { IfOk result (IsNewSet default_settings) }
        ensures why { IfErr result (IsWhyNotBuilt default_builder (map (λ text. text.now) patterns.now)) }
    {
        Builder::new().build_set(alloc, patterns)
    }

    /// Makes a set of the patterns of the NFA, with default settings and empty caches. The only error is `Memory`.
    ///
    /// ```
    /// // nfa of ["foo", "[0-9]+"]
    /// let mut set = RegexSet::new_from_nfa(alloc, nfa)?;
    /// assert!(rt; set.is_match(Input::new(b"a 12")));
    /// ```
    pub fn new_from_nfa(alloc: Global, nfa: NFA) -> Result<RegexSet, SearchError>
        ensures nfa { IfOk result (λ made. made.engine.nfa ≡ nfa) }
        ensures texts { IfOk result (λ made. made.texts ≡ []) }
        ensures engines { IfOk result (IsNewSet default_settings) }
        ensures memory { IsOkUnless result SearchError.Memory }
    {
        RegexSet::from_parts(alloc, nfa, Config::new())
    }

    /// Makes the engines for the NFA, with these settings and empty caches. The only error is `Memory`.
    fn from_parts(alloc: Global, nfa: NFA, config: Config) -> Result<RegexSet, SearchError>
        ensures nfa { IfOk result (λ made. made.engine.nfa ≡ nfa) }
        ensures texts { IfOk result (λ made. made.texts ≡ []) }
        ensures engines { IfOk result (IsNewSet config) }
        ensures memory { IsOkUnless result SearchError.Memory }
    {
        let hybrid = Hybrid::new(alloc, nfa, config.lazy_dfa(MatchKind::All))?;
        Ok(RegexSet {
            hybrid,
            texts: Texts::none(alloc),
        })
    }

    /// Returns a set for the same NFA with the same settings and texts and empty caches, for instance for another
    /// thread. The only error is `Memory`.
    ///
    /// ```
    /// // set of ["foo", "[0-9]+"]
    /// let mut copy = set.clone(alloc)?;
    /// assert!(rt; copy.is_match(Input::new(b"a 12")));
    /// ```
    pub fn clone(&self, alloc: Global) -> Result<RegexSet, SearchError>
        ensures nfa { IfOk result (λ made. made.engine.nfa ≡ self.now.engine.nfa) }
        ensures config { IfOk result (λ made. made.engine.config ≡ self.now.engine.config) }
        ensures texts { IfOk result (λ made. made.texts ≡ self.now.texts) }
        ensures memory { IsOkUnless result SearchError.Memory }
    {
        let Ok(nfa) = self.get_nfa().clone() else {
            return Err(SearchError::Memory);
        };
        let Ok(texts) = self.texts.clone(alloc) else {
            return Err(SearchError::Memory);
        };
        let hybrid = Hybrid::new(alloc, nfa, self.hybrid.get_config())?;
        Ok(RegexSet { hybrid, texts })
    }

    /// Returns the number of patterns.
    ///
    /// ```
    /// // set of ["foo", "[0-9]+"]
    /// assert_eq!(rt; set.len(), 2);
    /// ```
    pub fn len(&self) -> usize
        ensures { result ≡ length self.now.engine.nfa.patterns }
    {
        self.hybrid.pattern_len()
    }

    /// Returns whether the set has no pattern.
    ///
    /// ```
    /// let set = RegexSet::new(alloc, &[])?;
    /// assert!(rt; set.is_empty());
    /// ```
    pub fn is_empty(&self) -> bool
        ensures { IsTrue result ↔ (length self.now.engine.nfa.patterns ≡ 0) }
    {
        self.len() == 0
    }

    /// Returns the NFA.
    ///
    /// ```
    /// // set of ["foo", "[0-9]+"]
    /// assert_eq!(rt; set.get_nfa().pattern_len(), 2);
    /// ```
    pub fn get_nfa(&self) -> &NFA
        ensures { result.now ≡ self.now.engine.nfa }
    {
        self.hybrid.get_nfa()
    }

    /// Returns the bytes that the rows of the lazy DFA and the entries of the PikeVM's cache take. The sum saturates at
    /// `usize::MAX`.
    ///
    /// ```
    /// // set of ["foo", "[0-9]+"]
    /// let before = set.memory_usage();
    /// set.is_match(Input::new(b"a 12"));
    /// assert!(rt; set.memory_usage() > before);
    /// ```
    pub fn memory_usage(&self) -> usize
        ensures usage { result ≡ bytes_of self.now.engine }
    {
        self.hybrid.memory_usage()
    }

    /// Returns whether one of the patterns matches.
    ///
    /// ```
    /// // set of ["foo", "[0-9]+"]
    /// assert!(rt; set.is_match(Input::new(b"a 12")));
    /// assert!(rt; !set.is_match(Input::new(b"bar")));
    /// ```
    pub fn is_match<'h>(&mut self, input: Input<'h>) -> bool
        ensures answer { IsBoolAnswer self.old.engine.nfa All false (search_of input.entry) result }
        ensures runs { RunsInTurn (search_of input.entry) (not (is_utf8_empty self.old.engine.nfa)) self.old.engine
            self.new.engine }
        ensures keeps { KeepsSet self.old self.new }
    {
        self.hybrid.is_match(input)
    }

    /// Returns which patterns match somewhere in the input. The only error is `Memory`: the answer could not be
    /// allocated.
    ///
    /// A pattern matches whatever the others do, at any start of the input's span unless the search is anchored. With
    /// `earliest`, only patterns with a match at the least end of a match count.
    ///
    /// ```
    /// // set of ["foo", "[0-9]+"]
    /// let found = set.matches(alloc, &Input::new(b"foo 12"))?;
    /// assert!(rt; found.matched_all());
    /// let found = set.matches(alloc, &Input::new(b"a 12"))?;
    /// assert!(rt; !found.matched(0) && found.matched(1));
    /// ```
    pub fn matches(&mut self, alloc: Global, input: &Input<'_>) -> Result<SetMatches, SearchError>
        ensures matches { let x = search_of input.now in
            IfOk result (IsOverlapResult self.old.engine.nfa x All x.earliest (no_pattern self.old.engine.nfa)) }
        ensures memory { IsOkUnless result SearchError.Memory }
        ensures runs { OnOk result
            (SetRunsInTurn (search_of input.now) (no_pattern self.old.engine.nfa) self.old.engine
            self.new.engine) }
        ensures keeps { KeepsSet self.old self.new }
    {
        let Ok(patterns) = PatternSet::new(alloc, self.len()) else {
            return Err(SearchError::Memory);
        };
        let mut patterns = patterns;
        self.which_overlapping_matches(input, &mut patterns);
        Ok(SetMatches::of(patterns))
    }

    /// Adds the patterns that match somewhere in the input to the set, which may be used again. It gains only patterns
    /// below its capacity.
    ///
    /// ```
    /// // set of ["foo", "[0-9]+"]
    /// let mut patterns = PatternSet::new(alloc, set.len())?;
    /// set.which_overlapping_matches(&Input::new(b"a foo"), &mut patterns);
    /// assert_eq!(rt; patterns.len(), 1);
    /// ```
    pub fn which_overlapping_matches(&mut self, input: &Input<'_>, patterns: &mut PatternSet)
        ensures result { IsOverlapResult self.old.engine.nfa (search_of input.now) All
            (search_of input.now).earliest patterns.old patterns.new }
        ensures runs { SetRunsInTurn (search_of input.now) patterns.old self.old.engine self.new.engine }
        ensures keeps { KeepsSet self.old self.new }
    {
        self.hybrid.which_overlapping_matches(input, patterns);
    }
}
