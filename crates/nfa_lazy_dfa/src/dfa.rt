//! A lazy DFA of an NFA.
ghost use Rattle.std.specs.Prelude.{◌≡◌, false, length, true, IfOk, IsOk};
ghost use Rattle.regex_search_core.specs.declared.search.MatchKind.TheVariants.{LeftmostFirst};
ghost use Rattle.thompson_nfa.specs.Automaton.{node_of};
ghost use Rattle.nfa_paths.specs.Paths.{is_utf8_empty};
ghost use Rattle.nfa_lazy_dfa.specs.Apart.{IsStartApart};
ghost use Rattle.nfa_lazy_dfa.specs.Assertions.{AreLikes, HasNoLook, HasNoUnicodeWord, HasUnicodeWord, IsQuit};
ghost use Rattle.nfa_lazy_dfa.specs.Assertions.{IsRead, is_look, may_follow, reads_bytes};
ghost use Rattle.nfa_lazy_dfa.specs.Cuts.{AreCuts};

use crate::apart::is_start_apart;
use crate::config::{Builder, Config};
use crate::cuts::cuts_of;
use crate::sparse::is_sparse;
use crate::terminators::likes_of;
use nfa_scan_core::starts::is_utf8_empty;
use regex_search_core::MatchKind;
use thompson_nfa::{BuildError, Look, NFA, State};

/// A lazy DFA of an NFA. Its searches make the rows that they need, and keep them in a cache.
///
/// It finds whether there is a match, and where the match ends. Contracts see the NFA (`nfa_of`) and the configuration
/// (`config_of`), and by it the match kind (`kind_of`), the bytes that the rows of a cache may take (`capacity_of`),
/// and how often a search may clear them (`max_clears_of`).
///
/// ```
/// let nfa = Compiler::new().build(alloc, "foo[0-9]+")?;
/// let dfa = DFA::new(nfa)?;
/// let mut cache = dfa.create_cache(alloc)?;
/// let half = dfa.try_find_half(&mut cache, Input::new(b"foo12345"))?;
/// assert!(rt; half.is_some());
/// ```
#[derive(Debug, Drop)]
pub struct DFA {
    pub(crate) config: Config,
    pub(crate) nfa: NFA,
    pub(crate) kind: MatchKind,
    pub(crate) capacity: usize,
    pub(crate) max_clears: usize,
    /// The NFA has an assertion of a Unicode word.
    pub(crate) quits: bool,
    pub(crate) ghost reads: { quits ≡ false → HasNoUnicodeWord nfa },
    pub(crate) ghost words: { quits ≡ true → HasUnicodeWord nfa },
    /// The NFA has an assertion.
    pub(crate) looks: bool,
    pub(crate) ghost looks_are: { looks ≡ false → HasNoLook nfa },
    /// For each byte one after which the same assertions hold.
    pub(crate) likes: [u8; 256],
    pub(crate) ghost likes_are: { AreLikes nfa likes },
    /// A match counts only if it ends on a boundary.
    pub(crate) on_boundary: bool,
    pub(crate) ghost on_boundary_is: { on_boundary ≡ is_utf8_empty nfa },
    /// No byte leads to the start.
    pub(crate) apart: bool,
    pub(crate) ghost apart_is: { apart ≡ true → IsStartApart nfa },
    /// Which bytes have other transitions in the NFA than the next one.
    pub(crate) cuts: [bool; 256],
    pub(crate) ghost cuts_are: { AreCuts nfa looks cuts },
    /// Cells mark idle rows: few bytes begin a match, and the NFA has no assertion.
    pub(crate) marks: bool,
    pub(crate) ghost marks_are: { marks ≡ true → looks ≡ false },
}

impl DFA {
    ghost use Rattle.nfa_lazy_dfa.specs.Configs.{config_of, default_capacity, default_clears, kind_in, kind_of};
    ghost use Rattle.nfa_lazy_dfa.specs.Configs.{nfa_of, unset};
    ghost use Rattle.nfa_lazy_dfa.specs.Limits.{capacity_in, max_clears_in};
    ghost use Rattle.nfa_lazy_dfa.specs.Rows.{capacity_of, max_clears_of};

    pub(crate) fn from_parts(config: Config, nfa: NFA) -> DFA
        ensures nfa { nfa_of result ≡ nfa }
        ensures config { config_of result ≡ config }
        ensures kind { kind_of result ≡ kind_in config }
        ensures capacity { capacity_of result ≡ capacity_in config }
        ensures clears { max_clears_of result ≡ max_clears_in config }
    {
        let quits = has_unicode_word(&nfa);
        let looks = has_look(&nfa);
        let likes = likes_of(&nfa);
        let on_boundary = is_utf8_empty(&nfa);
        let apart = is_start_apart(&nfa);
        let cuts = cuts_of(&nfa, looks);
        let marks = !looks && is_sparse(&nfa);
        DFA {
            config,
            kind: config.get_match_kind(),
            capacity: config.get_cache_capacity(),
            max_clears: config.get_minimum_cache_clear_count().unwrap_or(usize::MAX),
            quits,
            looks,
            likes,
            on_boundary,
            apart,
            cuts,
            marks,
            nfa,
        }
    }

    /// Makes a lazy DFA of the NFA with the default configuration. This is always `Ok`: no NFA is refused.
    pub fn new(nfa: NFA) -> Result<DFA, BuildError>
        ensures ok { IsOk result }
        ensures nfa { IfOk result (λ made. nfa_of made ≡ nfa) }
        ensures config { IfOk result (λ made. config_of made ≡ unset) }
        ensures kind { IfOk result (λ made. kind_of made ≡ LeftmostFirst) }
        ensures capacity { IfOk result (λ made. capacity_of made ≡ default_capacity) }
        ensures clears { IfOk result (λ made. max_clears_of made ≡ default_clears) }
    {
        Builder::new().build_from_nfa(nfa)
    }

    /// Returns a configuration with nothing set.
    pub fn config() -> Config
        ensures { result ≡ unset }
    {
        Config::new()
    }

    /// Returns a builder with nothing set.
    ///
    /// ```
    /// let nfa = Compiler::new().build(alloc, "foo[0-9]+")?;
    /// let mut builder = DFA::builder();
    /// builder.configure(DFA::config().cache_capacity(100_000));
    /// let dfa = builder.build_from_nfa(nfa)?;
    /// assert_eq!(rt; dfa.get_config().get_cache_capacity(), 100_000);
    /// assert_eq!(rt; dfa.get_nfa().pattern_len(), dfa.pattern_len());
    /// ```
    pub fn builder() -> Builder
        ensures { result ≡ unset }
    {
        Builder::new()
    }

    /// Returns the configuration.
    pub fn get_config(&self) -> Config
        ensures { result ≡ config_of self.now }
    {
        self.config
    }

    /// Returns the NFA.
    pub fn get_nfa(&self) -> &NFA
        ensures { result.now ≡ nfa_of self.now }
    {
        &self.nfa
    }

    /// Returns the number of patterns.
    pub fn pattern_len(&self) -> usize
        ensures { result ≡ length (nfa_of self.now).patterns }
    {
        self.nfa.pattern_len()
    }

    /// Whether a search stops at the byte: the NFA has an assertion of a Unicode word, and the byte is 128 or more.
    pub(crate) fn is_quit(&self, byte: u8) -> bool
        ensures quit { result ≡ true → IsQuit self.now.nfa byte }
        ensures read { result ≡ false → IsRead self.now.nfa (Some byte) }
    {
        self.quits && byte >= 128
    }
}

/// Whether the assertion is not one of a Unicode word.
fn reads_bytes(look: Look) -> bool
    ensures { result ≡ reads_bytes look }
{
    match look {
        Look::WordUnicode | Look::WordUnicodeNegate => false,
        Look::WordStartUnicode | Look::WordEndUnicode => false,
        Look::WordStartHalfUnicode | Look::WordEndHalfUnicode => false,
        _ => true,
    }
}

/// Whether the state is not an assertion of a Unicode word.
fn may_follow(state: &State) -> bool
    ensures { result ≡ may_follow (node_of state.now) }
{
    match state {
        State::Look { look, .. } => reads_bytes(*look),
        _ => true,
    }
}

/// Whether a state of the NFA is an assertion of a Unicode word.
fn has_unicode_word(nfa: &NFA) -> bool
    ensures none { result ≡ false → HasNoUnicodeWord nfa.now }
    ensures some { result ≡ true → HasUnicodeWord nfa.now }
{
    for state in nfa.states() {
        if !may_follow(state) {
            return true;
        }
    }
    false
}

/// Whether the state is an assertion.
fn is_look(state: &State) -> bool
    ensures { result ≡ is_look (node_of state.now) }
{
    match state {
        State::Look { .. } => true,
        _ => false,
    }
}

/// Whether a state of the NFA is an assertion.
fn has_look(nfa: &NFA) -> bool
    ensures { result ≡ false → HasNoLook nfa.now }
{
    for state in nfa.states() {
        if is_look(state) {
            return true;
        }
    }
    false
}
