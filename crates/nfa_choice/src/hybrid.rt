//! The engine that searches with a lazy DFA, and with a PikeVM if the DFA stops. No search fails. Only calls that make
//! a hybrid or replace its NFA do, with [`SearchError::Memory`].
//!
//! A lazy DFA searches a byte in a few instructions, but it stops without an answer in three cases: its cache was full
//! too often, it came to a byte of 128 or more and the NFA has an assertion of a Unicode word, or an allocation failed.
//! The PikeVM then searches the same input from its start.
//!
//! ```
//! let mut hybrid = Hybrid::new(alloc, nfa, dfa::Config::new())?;
//! if let Some(half) = hybrid.find_half(Input::new(text)) {
//!     println!(rt; "a match ends at {}", half.offset())?;
//! }
//! ```
ghost use Rattle.std.specs.Prelude.{◌≡◌, ◌<◌, ◌≤◌, IfOk, IfSome, IsOkUnless, None, OnErr, OnOk, Some, length, not};
ghost use Rattle.std.specs.Prelude.{false, option_map};
ghost use Rattle.regex_search_core.specs.Found.{half_found_of};
ghost use Rattle.regex_search_core.specs.Search.{search_of};
ghost use Rattle.nfa_lazy_dfa.specs.Configs.{config_of, kind_in as kind_set, kind_of as dfa_kind_of, nfa_of};
ghost use Rattle.nfa_lazy_dfa.specs.Limits.{capacity_in, max_clears_in};
ghost use Rattle.nfa_lazy_dfa.specs.Rows.{capacity_of, max_clears_of};
ghost use Rattle.nfa_paths.specs.Paths.{IsBoolAnswer, IsHalfAnswer, is_utf8_empty};
ghost use Rattle.nfa_pikevm.specs.Engines.{cache_for};
ghost use Rattle.nfa_pikevm.specs.Engines.{IsFitFor};
ghost use Rattle.nfa_choice.specs.HybridState.{KeepsHybrid, RunsInTurn, bytes_of, finds_in, kind_in};

mod half_matches;
mod overlap;

pub use half_matches::HalfMatches;
use nfa_engines::error::SearchError;
use nfa_engines::pikevm::{self, PikeVM};
use nfa_lazy_dfa::{Cache, Config, DFA};
use regex_search_core::{HalfMatch, Input, MatchKind};
use std::alloc::Global;
use std::marker::Model;
use thompson_nfa::NFA;

/// One of the two engines.
#[derive(Clone, Copy, Debug, PartialEq, Eq)]
pub enum Engine {
    /// The engine that makes rows of states while it searches.
    LazyDFA,
    /// The engine that follows all states side by side.
    PikeVM,
}

/// A search engine for one NFA that finds the ends of matches, and never fails.
///
/// The lazy DFA searches first. If it stops without an answer, the PikeVM searches the same input. Both have the match
/// kind of the configuration. Contracts see the NFA, the configuration, the bytes that the rows of the lazy DFA take,
/// what the PikeVM's cache shows, and which engine gave the last answer.
pub struct Hybrid {
    dfa: DFA,
    pike: PikeVM,
    dfa_cache: Cache,
    pike_cache: pikevm::Cache,
    ran: Option<Engine>,
}

// Written out, so that a drop is one call in a proof, and not one for each field.
impl Drop for Hybrid {
    fn drop(self) {
        let Hybrid {
            dfa: _,
            pike: _,
            dfa_cache: _,
            pike_cache: _,
            ran: _,
        } = self;
    }
}

impl Model for Hybrid {
    ghost use Rattle.std.specs.Prelude.{◌≡◌, ◌≤◌};
    ghost use Rattle.nfa_lazy_dfa.specs.Configs.{config_of, kind_of as dfa_kind_of, kind_in as kind_set, nfa_of};
    ghost use Rattle.nfa_lazy_dfa.specs.Limits.{capacity_in, max_clears_in};
    ghost use Rattle.nfa_lazy_dfa.specs.Rows.{IsFor, capacity_of, max_clears_of, memory_of};
    ghost use Rattle.nfa_pikevm.specs.Engines.{Fits, kind_of};
    ghost use Rattle.nfa_choice.specs.HybridState.{HybridState};

    ghost Value = { HybridState };

    ghost view = { λ h. record {
      nfa = h.pike.nfa;
      config = config_of h.dfa;
      rows = memory_of h.dfa_cache;
      pike = h.pike_cache;
      ran = h.ran;
    } };

    ghost invariant = { λ h. (nfa_of h.dfa ≡ h.pike.nfa) × (dfa_kind_of h.dfa ≡ kind_set (config_of h.dfa))
        × (capacity_of h.dfa ≡ capacity_in (config_of h.dfa)) × (max_clears_of h.dfa ≡ max_clears_in (config_of h.dfa))
        × (memory_of h.dfa_cache ≤ capacity_in (config_of h.dfa))
        × (kind_of h.pike ≡ kind_set (config_of h.dfa)) × IsFor h.dfa_cache h.dfa × Fits h.pike_cache h.pike.nfa };
}

/// Makes a lazy DFA of the NFA.
fn lazy_dfa(config: Config, nfa: NFA) -> DFA
    ensures nfa { nfa_of result ≡ nfa }
    ensures config { config_of result ≡ config }
    ensures kind { dfa_kind_of result ≡ kind_set config }
    ensures capacity { capacity_of result ≡ capacity_in config }
    ensures clears { max_clears_of result ≡ max_clears_in config }
{
    let mut builder = DFA::builder();
    builder.configure(config);
    match builder.build_from_nfa(nfa) {
        Ok(engine) => engine,
        Err(_) => unreachable!(),
    }
}

/// Makes a PikeVM of the NFA with this match kind.
fn pikevm(kind: MatchKind, nfa: NFA) -> PikeVM
    ensures { result ≡ record { nfa = nfa; match_kind = Some kind } }
{
    let mut builder = PikeVM::builder();
    builder.configure(pikevm::Config::new().match_kind(kind));
    match builder.build_from_nfa(nfa) {
        Ok(engine) => engine,
        Err(_) => unreachable!(),
    }
}

impl Hybrid {
    /// Makes both engines for the NFA, with the match kind of the configuration, and a cache for each. The only error
    /// is `Memory`.
    ///
    /// ```
    /// let nfa = Compiler::new().build(alloc, "foo[0-9]+")?;
    /// let mut hybrid = Hybrid::new(alloc, nfa, dfa::Config::new())?;
    /// let half = hybrid.find_half(Input::new(b"foo12345"));
    /// assert_eq!(rt; half.expect(rt, "a match").offset(), 8);
    /// ```
    pub fn new(alloc: Global, nfa: NFA, config: Config) -> Result<Hybrid, SearchError>
        ensures made { IfOk result (λ made. made ≡ record {
          nfa = nfa;
          config = config;
          rows = 0;
          pike = cache_for nfa;
          ran = None;
        }) }
        ensures memory { IsOkUnless result SearchError.Memory }
    {
        let Ok(copy) = nfa.clone() else {
            return Err(SearchError::Memory);
        };
        let dfa = lazy_dfa(config, copy);
        let pike = pikevm(config.get_match_kind(), nfa);
        let Ok(dfa_cache) = dfa.create_cache(alloc) else {
            return Err(SearchError::Memory);
        };
        let pike_cache = pike.create_cache(alloc)?;
        Ok(Hybrid {
            dfa,
            pike,
            dfa_cache,
            pike_cache,
            ran: None,
        })
    }

    /// Returns the engine that gave the answer of the last search, including searches of an iteration. Returns `None`
    /// before the first search.
    ///
    /// ```
    /// // hybrid of r"\bfoo\b"
    /// assert!(rt; hybrid.is_match(Input::new(b"a foo")));
    /// assert_eq!(rt; hybrid.ran(), Some(Engine::LazyDFA));
    /// assert!(rt; hybrid.is_match(Input::new("☃ foo".as_bytes())));
    /// assert_eq!(rt; hybrid.ran(), Some(Engine::PikeVM));
    /// ```
    pub fn ran(&self) -> Option<Engine>
        ensures { result ≡ self.now.ran }
    {
        let Hybrid { ran, .. } = self;
        *ran
    }

    /// Returns the NFA.
    ///
    /// ```
    /// // hybrid of "foo(?<n>[0-9]+)"
    /// assert_eq!(rt; hybrid.get_nfa().group_info().slot_len(), 4);
    /// ```
    pub fn get_nfa(&self) -> &NFA
        ensures { result.now ≡ self.now.nfa }
    {
        self.pike.get_nfa()
    }

    /// Returns the number of patterns.
    ///
    /// ```
    /// // hybrid of ["foo", "bar"]
    /// assert_eq!(rt; hybrid.pattern_len(), 2);
    /// ```
    pub fn pattern_len(&self) -> usize
        ensures { result ≡ length self.now.nfa.patterns }
    {
        self.pike.pattern_len()
    }

    /// Returns the configuration.
    ///
    /// ```
    /// // hybrid of ["foo", "bar"]
    /// assert_eq!(rt;
    ///     hybrid.get_config().get_match_kind(),
    ///     MatchKind::LeftmostFirst
    /// );
    /// ```
    pub fn get_config(&self) -> Config
        ensures { result ≡ self.now.config }
    {
        self.dfa.get_config()
    }

    /// Returns the bytes that the rows of the lazy DFA and the entries of the PikeVM's cache take. The sum saturates at
    /// `usize::MAX`. The rows take at most the capacity of the configuration.
    ///
    /// ```
    /// // hybrid of "foo(?<n>[0-9]+)"
    /// let before = hybrid.memory_usage();
    /// hybrid.find_half(Input::new(b"foo12345"));
    /// assert!(rt; hybrid.memory_usage() > before);
    /// ```
    pub fn memory_usage(&self) -> usize
        ensures usage { result ≡ bytes_of self.now }
        ensures capacity { self.now.rows ≤ capacity_in self.now.config }
    {
        let rows = self.dfa_cache.memory_usage();
        rows.saturating_add(self.pike_cache.memory_usage())
    }

    /// Returns the pattern of the match that a search of the input finds, and the offset of its end. The NFA need not
    /// record where its matches start and end.
    ///
    /// Returns `None` if nothing matches.
    ///
    /// ```
    /// // hybrid of "foo(?<n>[0-9]+)"
    /// let half = hybrid.find_half(Input::new(b"foo12345"));
    /// assert_eq!(rt; half.expect(rt, "a match").offset(), 8);
    /// ```
    pub fn find_half<'h>(&mut self, input: Input<'h>) -> Option<HalfMatch>
        ensures answer { IsHalfAnswer self.old.nfa (kind_in self.old) (search_of input.entry).earliest
            (search_of input.entry) (option_map half_found_of result) }
        ensures pattern { IfSome result (λ m. (half_found_of m).pattern < length self.old.nfa.patterns) }
        ensures inside { IfSome result (λ m. ((search_of input.entry).start ≤ (half_found_of m).offset)
            × ((half_found_of m).offset ≤ (search_of input.entry).end)) }
        ensures runs { RunsInTurn (search_of input.entry) (search_of input.entry).earliest self.old self.new }
        ensures keeps { KeepsHybrid self.old self.new }
    {
        if let Ok(half) = self.dfa.try_find_half(&mut self.dfa_cache, input) {
            // An NFA that can be read is valid, so its patterns are those of its Match states.
            self.pike.get_nfa().states();
            self.ran = Some(Engine::LazyDFA);
            return half;
        }
        self.ran = Some(Engine::PikeVM);
        self.pike.find_half(&mut self.pike_cache, input)
    }

    /// Returns whether a search of the input finds a match. The `earliest` flag of the input does not change the
    /// answer.
    ///
    /// ```
    /// // hybrid of "foo(?<n>[0-9]+)"
    /// assert!(rt; hybrid.is_match(Input::new(b"foo12345")));
    /// assert!(rt; !hybrid.is_match(Input::new(b"foobar")));
    /// ```
    pub fn is_match<'h>(&mut self, input: Input<'h>) -> bool
        ensures answer { IsBoolAnswer self.old.nfa (kind_in self.old) false (search_of input.entry) result }
        ensures finds { result ≡ finds_in self.old (search_of input.entry) }
        ensures runs { RunsInTurn (search_of input.entry) (not (is_utf8_empty self.old.nfa)) self.old self.new }
        ensures keeps { KeepsHybrid self.old self.new }
    {
        if let Ok(found) = self.dfa.try_is_match(&mut self.dfa_cache, input) {
            self.ran = Some(Engine::LazyDFA);
            return found;
        }
        self.ran = Some(Engine::PikeVM);
        self.pike.is_match(&mut self.pike_cache, input)
    }

    /// Replaces the NFA. The configuration stays. The only error is `Memory`. After an error the hybrid is unchanged.
    ///
    /// ```
    /// // nfa of r"\W"
    /// hybrid.replace(nfa)?;
    /// assert!(rt; hybrid.is_match(Input::new("☃".as_bytes())));
    /// ```
    pub fn replace(&mut self, nfa: NFA) -> Result<(), SearchError>
        ensures made { OnOk result (self.new ≡ record self.old { nfa = nfa; rows = 0; pike = self.new.pike }) }
        ensures reset_for { OnOk result (IsFitFor self.old.pike nfa self.new.pike) }
        ensures kept { OnErr result (self.new ≡ self.old) }
        ensures memory { IsOkUnless result SearchError.Memory }
    {
        let Ok(copy) = nfa.clone() else {
            return Err(SearchError::Memory);
        };
        let config = self.dfa.get_config();
        let dfa = lazy_dfa(config, copy);
        let pike = pikevm(config.get_match_kind(), nfa);
        if !self.pike_cache.fits(&pike) {
            self.pike_cache.reset(&pike)?;
        }
        self.dfa_cache.reset(&dfa);
        self.dfa = dfa;
        self.pike = pike;
        Ok(())
    }
}
