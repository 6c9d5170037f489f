//! The settings of sure steps.
ghost use Rattle.std.specs.Prelude.{◌≡◌};
ghost use Rattle.nfa_meta.specs.RegexState.{step_capacity};

use crate::builder::Config;

impl Config {
    /// Sets whether the groups of a match are taken by sure steps where they can be. With `false`, no step is kept, and
    /// the [`Choice`](nfa_choice::choose::Choice) searches for groups.
    ///
    /// ```
    /// let config = Config::new().onepass(false);
    /// let mut regex = Regex::builder().configure(config).build(alloc, "(a)(b)")?;
    /// regex.search_slots(&Input::new(b"ab"), &mut [None; 6]);
    /// assert_eq!(rt; regex.ran(), Some(Engine::Backtracker));
    /// ```
    pub fn onepass(self, yes: bool) -> Config
        ensures { result ≡ record self { onepass = yes } }
    {
        Config {
            onepass: yes,
            ..self
        }
    }

    /// Sets the most bytes that sure steps may take: 2060 for each state that they lead from, and 8 for each slot that
    /// they write. Where there is no room for a step, the [`Choice`](nfa_choice::choose::Choice) searches.
    ///
    /// ```
    /// let config = Config::new().onepass_size_limit(100_000);
    /// let mut regex = Regex::builder().configure(config).build(alloc, "(a)(b)")?;
    /// regex.search_slots(&Input::new(b"ab"), &mut [None; 6]);
    /// assert!(rt; regex.ran().is_none());
    /// ```
    pub fn onepass_size_limit(self, bytes: usize) -> Config
        ensures { result ≡ record self { onepass_size_limit = bytes } }
    {
        Config {
            onepass_size_limit: bytes,
            ..self
        }
    }

    /// Returns the most bytes that sure steps may take: none if there are to be none.
    pub(crate) fn step_limit(&self) -> usize
        ensures { result ≡ step_capacity self.now }
    {
        if self.onepass {
            self.onepass_size_limit
        } else {
            0
        }
    }
}
