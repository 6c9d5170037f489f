//! The configuration of a lazy DFA, and its builder.
ghost use Rattle.std.specs.Prelude.{◌≡◌, Some, IfOk, IsOk};

use crate::dfa::DFA;
use regex_search_core::MatchKind;
use std::marker::Model;
use thompson_nfa::{BuildError, NFA};

/// The default capacity in bytes.
const DEFAULT_CAPACITY: usize = 2 * 1024 * 1024;

/// The number of times that a search clears its cache by default.
const DEFAULT_CLEARS: usize = 3;

/// The options of a lazy DFA. Contracts see those that were set.
///
/// ```
/// let config = Config::new()
///     .match_kind(MatchKind::All)
///     .cache_capacity(1 << 20)
///     .minimum_cache_clear_count(None);
/// assert_eq!(rt; config.get_match_kind(), MatchKind::All);
/// assert_eq!(rt; config.get_cache_capacity(), 1 << 20);
/// assert_eq!(rt; config.get_minimum_cache_clear_count(), None);
/// ```
#[derive(Clone, Copy, Debug)]
pub struct Config {
    match_kind: Option<MatchKind>,
    cache_capacity: Option<usize>,
    minimum_cache_clear_count: Option<Option<usize>>,
}

impl Model for Config {
    ghost use Rattle.nfa_lazy_dfa.specs.Options.{Options};

    ghost Value = { Options };

    ghost view = { λ c. record {
      match_kind = c.match_kind;
      cache_capacity = c.cache_capacity;
      minimum_cache_clear_count = c.minimum_cache_clear_count;
    } };

    ghost inverse = { λ o. record {
      match_kind = o.match_kind;
      cache_capacity = o.cache_capacity;
      minimum_cache_clear_count = o.minimum_cache_clear_count;
    } };
}

impl Config {
    ghost use Rattle.nfa_lazy_dfa.specs.Configs.{kind_in, newer_or, unset};
    ghost use Rattle.nfa_lazy_dfa.specs.Limits.{capacity_in, clears_in};

    /// Returns a configuration with nothing set.
    pub fn new() -> Config
        ensures { result ≡ unset }
    {
        Config {
            match_kind: None,
            cache_capacity: None,
            minimum_cache_clear_count: None,
        }
    }

    /// Sets which of several matches a search returns.
    pub fn match_kind(mut self, kind: MatchKind) -> Config
        ensures { result ≡ record self { match_kind = Some kind } }
    {
        self.match_kind = Some(kind);
        self
    }

    /// Sets the number of bytes that the rows of a cache may take: 1120 for each row, and 4 for each of its states. A
    /// search that needs more drops all rows and goes on.
    ///
    /// Below 1124 bytes there is no room for a row. Each search that has to scan then gives up at the start of its
    /// span, and allocates nothing.
    pub fn cache_capacity(mut self, bytes: usize) -> Config
        ensures { result ≡ record self { cache_capacity = Some bytes } }
    {
        self.cache_capacity = Some(bytes);
        self
    }

    /// Sets the number of times that a search clears its cache before it may give up. `None` sets no limit: then a
    /// search gives up only if a row does not fit into an empty cache.
    pub fn minimum_cache_clear_count(mut self, count: Option<usize>) -> Config
        ensures { result ≡ record self { minimum_cache_clear_count = Some count } }
    {
        self.minimum_cache_clear_count = Some(count);
        self
    }

    /// Returns the match kind that was set, by default `LeftmostFirst`.
    pub fn get_match_kind(&self) -> MatchKind
        ensures { result ≡ kind_in self.now }
    {
        self.match_kind.unwrap_or(MatchKind::LeftmostFirst)
    }

    /// Returns the number of bytes that the rows of a cache may take: the number that was set, or 2097152.
    pub fn get_cache_capacity(&self) -> usize
        ensures { result ≡ capacity_in self.now }
    {
        self.cache_capacity.unwrap_or(DEFAULT_CAPACITY)
    }

    /// Returns the number of times that a search clears its cache before it may give up: the number that was set, or 3.
    pub fn get_minimum_cache_clear_count(&self) -> Option<usize>
        ensures { result ≡ clears_in self.now }
    {
        self.minimum_cache_clear_count
            .unwrap_or(Some(DEFAULT_CLEARS))
    }

    /// Returns the newer configuration. Options that it leaves unset are taken from this one.
    fn overwritten_by(&self, newer: Config) -> Config
        ensures { result ≡ newer_or newer self.now }
    {
        Config {
            match_kind: newer.match_kind.or(self.match_kind),
            cache_capacity: newer.cache_capacity.or(self.cache_capacity),
            minimum_cache_clear_count: newer
                .minimum_cache_clear_count
                .or(self.minimum_cache_clear_count),
        }
    }
}

impl Default for Config {
    ghost use Rattle.nfa_lazy_dfa.specs.Configs.{unset};

    /// Returns a configuration with nothing set.
    fn default() -> Config
        ensures { result ≡ unset }
    {
        Config::new()
    }
}

/// A builder of lazy DFAs. Contracts see its configuration.
///
/// ```
/// // nfa of "foo[0-9]+"
/// let mut builder = Builder::new();
/// builder.configure(Config::new().match_kind(MatchKind::All));
/// let made = builder.build_from_nfa(nfa)?;
/// assert_eq!(rt; made.get_config().get_match_kind(), MatchKind::All);
/// ```
#[derive(Clone, Copy, Debug)]
pub struct Builder {
    config: Config,
}

impl Model for Builder {
    ghost use Rattle.nfa_lazy_dfa.specs.Options.{Options};

    ghost Value = { Options };

    ghost view = { λ b. b.config };

    ghost inverse = { λ config. record { config = config } };
}

impl Builder {
    ghost use Rattle.nfa_lazy_dfa.specs.Configs.{config_of, kind_in, kind_of, newer_or, nfa_of, unset};
    ghost use Rattle.nfa_lazy_dfa.specs.Limits.{capacity_in, max_clears_in};
    ghost use Rattle.nfa_lazy_dfa.specs.Rows.{capacity_of, max_clears_of};

    /// Returns a builder with nothing set.
    pub fn new() -> Builder
        ensures { result ≡ unset }
    {
        Builder {
            config: Config::new(),
        }
    }

    /// Sets the options that the configuration sets. All others stay as they were.
    pub fn configure(&mut self, config: Config) -> &mut Builder
        ensures value { result.now ≡ newer_or config self.old }
        ensures same_reference { result.ghost_name ≡ self.entry.ghost_name }
    {
        self.config = self.config.overwritten_by(config);
        self
    }

    /// Makes a lazy DFA of the NFA. This is always `Ok`: no NFA is refused, and the DFA's rows are made by searches.
    pub fn build_from_nfa(&self, nfa: NFA) -> Result<DFA, BuildError>
        ensures ok { IsOk result }
        ensures nfa { IfOk result (λ made. nfa_of made ≡ nfa) }
        ensures config { IfOk result (λ made. config_of made ≡ self.now) }
        ensures kind { IfOk result (λ made. kind_of made ≡ kind_in self.now) }
        ensures capacity { IfOk result (λ made. capacity_of made ≡ capacity_in self.now) }
        ensures clears { IfOk result (λ made. max_clears_of made ≡ max_clears_in self.now) }
    {
        Ok(DFA::from_parts(self.config, nfa))
    }
}
