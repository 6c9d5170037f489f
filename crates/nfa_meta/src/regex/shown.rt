//! What a regex shows of itself.
ghost use Rattle.std.specs.Prelude.{◌≡◌, length};
ghost use Rattle.nfa_meta.specs.RegexState.{HasRoom, bytes_of};

use crate::builder::Config;
use crate::regex::Regex;
use nfa_choice::choose::Engine;
use regex_search_core::GroupInfo;
use thompson_nfa::NFA;

impl Regex {
    /// Returns the settings that the regex was built with. If it was built from an NFA, those of NFAs had no effect.
    ///
    /// ```
    /// let config = Regex::config().hybrid_cache_capacity(100_000);
    /// let regex = Regex::builder().configure(config).build(alloc, "fo+")?;
    /// assert_eq!(rt; regex.get_config().hybrid_cache_capacity, 100_000);
    /// ```
    pub fn get_config(&self) -> Config
        ensures config { result ≡ self.now.config }
        ensures capacity { result.backtrack_visited_capacity ≡ self.now.choice.visited_capacity }
    {
        self.config
    }

    /// Returns the bytes that the rows of the lazy DFA, the entries of the caches of the [`Choice`] and sure steps
    /// take. The sum saturates at `usize::MAX`. Rows and steps take no more than the settings allow.
    ///
    /// ```
    /// // regex of "foo[0-9]+"
    /// let before = regex.memory_usage();
    /// regex.find_half(Input::new(b"foo12345"));
    /// assert!(rt; regex.memory_usage() > before);
    /// ```
    pub fn memory_usage(&self) -> usize
        ensures usage { result ≡ bytes_of self.now }
        ensures capacity { HasRoom self.now }
    {
        let rows = self.cache.memory_usage();
        let caches = self.choice.memory_usage().saturating_add(rows);
        caches.saturating_add(self.one_pass.memory_usage())
    }

    /// Returns the NFA.
    ///
    /// ```
    /// // regex of "foo(?<n>[0-9]+)"
    /// assert_eq!(rt; regex.get_nfa().group_info().slot_len(), 4);
    /// ```
    pub fn get_nfa(&self) -> &NFA
        ensures { result.now ≡ self.now.choice.nfa }
    {
        self.choice.get_nfa()
    }

    /// Returns the number of patterns.
    ///
    /// ```
    /// // regex of [r"\pL+", r"\d+"]
    /// assert_eq!(rt; regex.pattern_len(), 2);
    /// ```
    pub fn pattern_len(&self) -> usize
        ensures { result ≡ length self.now.choice.nfa.patterns }
    {
        self.get_nfa().pattern_len()
    }

    /// Returns the groups of all patterns.
    ///
    /// ```
    /// // regex of "foo(?<n>[0-9]+)"
    /// assert_eq!(rt; regex.group_info().slot_len(), 4);
    /// ```
    pub fn group_info(&self) -> &GroupInfo
        ensures { result.now ≡ self.now.choice.nfa.groups }
    {
        self.get_nfa().group_info()
    }

    /// Returns the engine of the [`Choice`] that gave the answer of its last search, including searches of an
    /// iteration. Returns `None` if the [`Choice`] has given no answer so far.
    ///
    /// ```
    /// // regex of "f(o*)(o*)"
    /// assert!(rt; regex.is_match(Input::new(b"a foo")));
    /// assert_eq!(rt; regex.ran(), None);
    /// regex.search_slots(&Input::new(b"a foo"), &mut [None; 4]);
    /// assert_eq!(rt; regex.ran(), Some(Engine::Backtracker));
    /// ```
    pub fn ran(&self) -> Option<Engine>
        ensures { result ≡ self.now.choice.ran }
    {
        self.choice.ran()
    }
}
