//! The configuration of a backtracker, and its builder.
ghost use Rattle.std.specs.Prelude.{◌≡◌, None, Some, Ok, unwrap_or};
ghost use Rattle.std.specs.Option.{option_or};
ghost use Rattle.nfa_backtrack.specs.Backtrack.{default_capacity};

use crate::engine::BoundedBacktracker;
use std::marker::Model;
use thompson_nfa::{BuildError, NFA};

/// The default capacity in bytes.
const DEFAULT_CAPACITY: usize = 256 * 1024;

/// The options of a backtracker. Contracts see the capacity, if one was set.
#[derive(Clone, Copy, Debug)]
pub struct Config {
    visited_capacity: Option<usize>,
}

impl Model for Config {
    ghost use Rattle.std.specs.Prelude.{ℕ, Option};

    ghost Value = { Option ℕ };

    ghost view = { λ c. c.visited_capacity };

    ghost inverse = { λ capacity. record { visited_capacity = capacity } };
}

impl Config {
    /// Returns a configuration with nothing set.
    pub fn new() -> Config
        ensures { result ≡ None }
    {
        Config {
            visited_capacity: None,
        }
    }

    /// Sets the number of bytes that the marks of a search may take, rounded up to whole blocks of eight bytes.
    pub fn visited_capacity(mut self, capacity: usize) -> Config
        ensures { result ≡ Some capacity }
    {
        self.visited_capacity = Some(capacity);
        self
    }

    /// Returns the number of bytes that the marks of a search may take: the number that was set, or 262144.
    pub fn get_visited_capacity(&self) -> usize
        ensures { result ≡ unwrap_or self.now default_capacity }
    {
        self.visited_capacity.unwrap_or(DEFAULT_CAPACITY)
    }

    /// Returns the newer configuration. Options that it leaves unset are taken from this one.
    fn overwritten_by(&self, newer: Config) -> Config
        ensures { result ≡ option_or newer self.now }
    {
        Config {
            visited_capacity: newer.visited_capacity.or(self.visited_capacity),
        }
    }
}

impl Default for Config {
    /// Returns a configuration with nothing set.
    fn default() -> Config
        ensures { result ≡ None }
    {
        Config::new()
    }
}

/// A builder of backtrackers. Contracts see its configuration.
#[derive(Clone, Copy, Debug)]
pub struct Builder {
    config: Config,
}

impl Model for Builder {
    ghost use Rattle.std.specs.Prelude.{ℕ, Option};

    ghost Value = { Option ℕ };

    ghost view = { λ b. b.config };

    ghost inverse = { λ config. record { config = config } };
}

impl Builder {
    /// Returns a builder with nothing set.
    pub fn new() -> Builder
        ensures { result ≡ None }
    {
        Builder {
            config: Config::new(),
        }
    }

    /// Sets the options that the configuration sets. All others stay as they were.
    pub fn configure(&mut self, config: Config) -> &mut Builder
        ensures value { result.now ≡ option_or config self.old }
        ensures same_reference { result.ghost_name ≡ self.entry.ghost_name }
    {
        self.config = self.config.overwritten_by(config);
        self
    }

    /// Makes a backtracker of the NFA. This is always `Ok`: the data of Unicode word boundaries is always there.
    pub fn build_from_nfa(&self, nfa: NFA) -> Result<BoundedBacktracker, BuildError>
        ensures { result ≡ Ok (record { nfa = nfa; visited_capacity = self.now }) }
    {
        Ok(BoundedBacktracker::from_parts(self.config, nfa))
    }
}
