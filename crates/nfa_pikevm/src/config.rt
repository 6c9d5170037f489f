//! The configuration of a PikeVM.
ghost use Rattle.std.specs.Prelude.{◌≡◌, None, Some, Ok, unwrap_or};
ghost use Rattle.std.specs.Option.{option_or};
ghost use Rattle.regex_search_core.specs.declared.search.MatchKind.TheVariants.{LeftmostFirst};

use crate::engine::PikeVM;
use regex_search_core::MatchKind;
use std::marker::Model;
use thompson_nfa::{BuildError, NFA};

/// The options of a PikeVM. Contracts see the match kind, if one was set.
#[derive(Clone, Copy, Debug)]
pub struct Config {
    match_kind: Option<MatchKind>,
}

impl Model for Config {
    ghost use Rattle.std.specs.Prelude.{Option};
    ghost use Rattle.regex_search_core.specs.declared.search.MatchKind.{MatchKind};

    ghost Value = { Option MatchKind };

    ghost view = { λ c. c.match_kind };

    ghost inverse = { λ kind. record { match_kind = kind } };
}

impl Config {
    /// Returns a configuration with nothing set.
    pub fn new() -> Config
        ensures { result ≡ None }
    {
        Config { match_kind: None }
    }

    /// Sets which of several matches a search returns.
    pub fn match_kind(mut self, kind: MatchKind) -> Config
        ensures { result ≡ Some kind }
    {
        self.match_kind = Some(kind);
        self
    }

    /// Returns the match kind that was set, by default `LeftmostFirst`.
    pub fn get_match_kind(&self) -> MatchKind
        ensures { result ≡ unwrap_or self.now LeftmostFirst }
    {
        self.match_kind.unwrap_or(MatchKind::LeftmostFirst)
    }

    /// Returns the newer configuration. Options that it leaves unset are taken from this one.
    fn overwritten_by(&self, newer: Config) -> Config
        ensures { result ≡ option_or newer self.now }
    {
        Config {
            match_kind: newer.match_kind.or(self.match_kind),
        }
    }
}

impl Default for Config {
    /// Returns a configuration with nothing set.
    fn default() -> Config
        ensures { result ≡ None }
    {
        Config::new()
    }
}

/// A builder of PikeVMs. Contracts see its configuration.
#[derive(Clone, Copy, Debug)]
pub struct Builder {
    config: Config,
}

impl Model for Builder {
    ghost use Rattle.std.specs.Prelude.{Option};
    ghost use Rattle.regex_search_core.specs.declared.search.MatchKind.{MatchKind};

    ghost Value = { Option MatchKind };

    ghost view = { λ b. b.config };

    ghost inverse = { λ config. record { config = config } };
}

impl Builder {
    /// Returns a builder with nothing set.
    pub fn new() -> Builder
        ensures { result ≡ None }
    {
        Builder {
            config: Config::new(),
        }
    }

    /// Sets the options that the configuration sets. All others stay as they were.
    pub fn configure(&mut self, config: Config) -> &mut Builder
        ensures value { result.now ≡ option_or config self.old }
        ensures same_reference { result.ghost_name ≡ self.entry.ghost_name }
    {
        self.config = self.config.overwritten_by(config);
        self
    }

    /// Makes a PikeVM of the NFA. This is always `Ok`: the data of Unicode word boundaries is always there.
    pub fn build_from_nfa(&self, nfa: NFA) -> Result<PikeVM, BuildError>
        ensures { result ≡ Ok (record { nfa = nfa; match_kind = self.now }) }
    {
        Ok(PikeVM::from_parts(self.config, nfa))
    }
}
