//! The compiler: from the trees of patterns to one NFA.
ghost use Rattle.std.specs.Prelude.{◌≡◌, ◌==◌, ◌||◌, ◌+◌, ◌*◌, ◌<◌, ◌≤◌, ◌∷◌, [], All, true, false, IfErr, IfOk, OnOk};
ghost use Rattle.std.specs.Prelude.{length, map, vec_len};
ghost use Rattle.regex_hir.specs.Meaning.{meaning};
ghost use Rattle.regex_nfa.specs.Sizes.{table_bytes};
ghost use Rattle.regex_compile.specs.Implements.{Implements};
ghost use Rattle.regex_search_core.specs.Groups.{slot_count};
ghost use Rattle.thompson_nfa.specs.Automaton.{IsAutomaton, node_of};
ghost use Rattle.nfa_paths.specs.Paths.{is_utf8_empty};
ghost use Rattle.nfa_compiler.specs.Blocks.{Adds, AreInRange, KeepsInRange};
ghost use Rattle.nfa_compiler.specs.Compiled.{AlwaysReads, ArePatterns, FindsFromAnyStart, IsBoundAsRead, IsCompiled};
ghost use Rattle.nfa_compiler.specs.Compiled.{IsNfaOf, IsPatternAt, explicit_names, groups_of, res_of};
ghost use Rattle.nfa_compiler.specs.Loops.{all_begin_at_start};
ghost use Rattle.nfa_compiler.specs.Rejected.{FitsIn, IsOfNoPattern, IsOfNoText, IsOfOneText, IsOfPattern};
ghost use Rattle.nfa_compiler.specs.Rejected.{NamesPattern, NamesText, TextsFitIn};

use crate::block::Site;
use crate::config::Config;
use crate::error::CompileError;
use crate::groups::{groups_of, pattern_number, slots_after, slots_for};
use crate::loops::all_begin_at_start;
use crate::reading::read_all;
use crate::states::{choice, prefix};
use regex_compile::Error;
use regex_nfa::Nfa;
use regex_search_core::StateID;
use regex_syntax::Parsed;
use std::alloc::Global;
use std::slice;
use thompson_nfa::{NFA, State};

/// Makes NFAs from the texts of patterns, or from their trees.
///
/// ```
/// let compiler = Compiler::new().configure(Config::new().anchored(true));
/// let nfa = compiler.build_many(alloc, &["[a-z]+", "[0-9]+"])?;
/// assert_eq!(rt; nfa.pattern_len(), 2);
/// ```
#[derive(Clone, Copy, Debug)]
pub struct Compiler {
    pub config: Config,
    /// The syntax of texts. Its field `utf8` is not used: see [`Config::utf8`].
    pub syntax: regex_syntax::Config,
}

impl Compiler {
    ghost use Rattle.regex_syntax.specs.Verdict.{default_config};
    ghost use Rattle.nfa_compiler.specs.Written.{syntax_of};

    /// Makes a compiler with the settings of [`Config::new`] and the default syntax.
    ///
    /// ```
    /// let nfa = Compiler::new().build(alloc, "[a-z]+")?;
    /// assert!(rt; nfa.is_utf8() && !nfa.is_always_start_anchored());
    /// ```
    pub fn new() -> Compiler
        ensures { result ≡ record {
          config = record { anchored = false; utf8 = true; size_limit = 10485760 };
          syntax = default_config;
        } }
    {
        Compiler {
            config: Config::new(),
            syntax: regex_syntax::Config::default(),
        }
    }

    /// Replaces the configuration.
    ///
    /// ```
    /// let compiler = Compiler::new().configure(Config::new().anchored(true));
    /// let nfa = compiler.build(alloc, "[a-z]+")?;
    /// assert!(rt; nfa.is_always_start_anchored());
    /// ```
    pub fn configure(self, config: Config) -> Compiler
        ensures { result ≡ record self { config = config } }
    {
        Compiler { config, ..self }
    }

    /// Replaces the syntax.
    ///
    /// ```
    /// let syntax = Syntax {
    ///     octal: true,
    ///     ..Syntax::default()
    /// };
    /// let compiler = Compiler::new().syntax(syntax);
    /// assert!(rt; compiler.build(alloc, r"\141").is_ok());
    /// assert!(rt; Compiler::new().build(alloc, r"\141").is_err());
    /// ```
    pub fn syntax(self, syntax: regex_syntax::Config) -> Compiler
        ensures { result ≡ record self { syntax = syntax } }
    {
        Compiler { syntax, ..self }
    }

    /// Makes the NFA of one pattern.
    ///
    /// The text is parsed with the syntax of this compiler and with [`Config::utf8`]. Fails if the text is not a
    /// pattern ([`CompileError::Syntax`]), if the pattern exceeds [`Config::size_limit`], or if allocation fails.
    ///
    /// ```
    /// let nfa = Compiler::new().build(alloc, "foo(?<n>[0-9]+)")?;
    /// assert_eq!(rt; nfa.group_info().slot_len(), 4);
    /// assert!(rt; Compiler::new().build(alloc, "foo(").is_err());
    /// ```
    pub fn build(&self, alloc: Global, pattern: &str) -> Result<NFA, CompileError>
        ensures compiled { IfOk result (IsCompiled (syntax_of self.now) (pattern.now ∷ [])) }
        ensures valid { IfOk result IsAutomaton }
        ensures utf8 { IfOk result (λ nfa. nfa.utf8 ≡ self.now.config.utf8) }
        ensures anchored { self.now.config.anchored ≡ true → IfOk result (λ nfa. nfa.anchored ≡ nfa.unanchored) }
        ensures bound { IfOk result (IsBoundAsRead self.now.config.anchored (syntax_of self.now) (pattern.now ∷ [])) }
        ensures free { self.now.config.anchored ≡ false → IfOk result FindsFromAnyStart }
        ensures anywhere { self.now.config.utf8 ≡ false → IfOk result (λ nfa. is_utf8_empty nfa ≡ false) }
        ensures fits { IfOk result (λ _. TextsFitIn self.now.config.size_limit (syntax_of self.now)
            (pattern.now ∷ [])) }
        ensures rejected { IfErr result (IsOfOneText (syntax_of self.now) (pattern.now ∷ [])) }
        ensures named { IfErr result (NamesText (syntax_of self.now) self.now.config.size_limit (pattern.now ∷ [])) }
    {
        self.build_many(alloc, &[pattern])
    }

    /// Makes the NFA of these patterns, numbered from 0 on. If two match from one start, the earlier one is preferred.
    ///
    /// Fails as [`Compiler::build`] does. The error has the number of the pattern that failed, and a syntax error its
    /// text.
    ///
    /// ```
    /// let nfa = Compiler::new().build_many(alloc, &["[a-z]+", "[0-9]+"])?;
    /// assert_eq!(rt; nfa.pattern_len(), 2);
    /// ```
    pub fn build_many(&self, alloc: Global, patterns: &[&str]) -> Result<NFA, CompileError>
        ensures compiled { IfOk result (IsCompiled (syntax_of self.now) (map (λ text. text.now) patterns.now)) }
        ensures valid { IfOk result IsAutomaton }
        ensures utf8 { IfOk result (λ nfa. nfa.utf8 ≡ self.now.config.utf8) }
        ensures anchored { self.now.config.anchored ≡ true → IfOk result (λ nfa. nfa.anchored ≡ nfa.unanchored) }
        ensures bound { IfOk result (IsBoundAsRead self.now.config.anchored (syntax_of self.now)
            (map (λ text. text.now) patterns.now)) }
        ensures free { self.now.config.anchored ≡ false → IfOk result FindsFromAnyStart }
        ensures anywhere { self.now.config.utf8 ≡ false → IfOk result (λ nfa. is_utf8_empty nfa ≡ false) }
        ensures fits { IfOk result (λ _. TextsFitIn self.now.config.size_limit (syntax_of self.now)
            (map (λ text. text.now) patterns.now)) }
        ensures rejected { IfErr result (IsOfOneText (syntax_of self.now) (map (λ text. text.now) patterns.now)) }
        ensures named { IfErr result (NamesText (syntax_of self.now) self.now.config.size_limit
            (map (λ text. text.now) patterns.now)) }
    {
        let syntax = regex_syntax::Config {
            utf8: self.config.utf8,
            ..self.syntax
        };
        let trees = read_all(alloc, patterns, &syntax)?;
        let nfa = self.build_many_from_hir(alloc, &trees)?;
        Ok(nfa)
    }

    /// Makes the NFA of one pattern, which is passed as a tree with the names of its groups, from group 0 on.
    ///
    /// Fails with [`CompileError::Tree`] if a parser could not have returned the tree, and never with
    /// [`CompileError::Syntax`].
    ///
    /// ```
    /// let tree = parse(alloc, "foo(?<n>[0-9]+)", &Syntax::default())?;
    /// let nfa = Compiler::new().build_from_hir(alloc, &tree)?;
    /// assert_eq!(rt; nfa.group_info().slot_len(), 4);
    /// ```
    pub fn build_from_hir(&self, alloc: Global, pattern: &Parsed) -> Result<NFA, CompileError>
        ensures valid { IfOk result IsAutomaton }
        ensures made { IfOk result (IsNfaOf (meaning pattern.now.hir ∷ [])) }
        ensures groups { IfOk result (λ nfa. nfa.groups ≡ groups_of (pattern.now ∷ [])) }
        ensures utf8 { IfOk result (λ nfa. nfa.utf8 ≡ self.now.config.utf8) }
        ensures anchored { self.now.config.anchored ≡ true → IfOk result (λ nfa. nfa.anchored ≡ nfa.unanchored) }
        ensures bound { IfOk result (λ nfa. (nfa.anchored == nfa.unanchored)
            ≡ (self.now.config.anchored || all_begin_at_start (meaning pattern.now.hir ∷ []))) }
        ensures free { self.now.config.anchored ≡ false → IfOk result FindsFromAnyStart }
        ensures anywhere { self.now.config.utf8 ≡ false → IfOk result (λ nfa. is_utf8_empty nfa ≡ false) }
        ensures reads { IfOk result (λ nfa. nfa.has_empty ≡ false → AlwaysReads pattern.now) }
        ensures fits { IfOk result (λ _. All (FitsIn self.now.config.size_limit) (meaning pattern.now.hir ∷ [])) }
        ensures fails { IfErr result IsOfNoText }
        ensures named { IfErr result (NamesPattern self.now.config.size_limit (meaning pattern.now.hir ∷ [])) }
    {
        self.build_many_from_hir(alloc, slice::from_ref(pattern))
    }

    /// Makes the NFA of these patterns, which are passed as trees.
    ///
    /// Fails as [`Compiler::build_from_hir`] does.
    ///
    /// ```
    /// let first = parse(alloc, "[a-z]+", &Syntax::default())?;
    /// let second = parse(alloc, "[0-9]+", &Syntax::default())?;
    /// let nfa = Compiler::new().build_many_from_hir(alloc, &[first, second])?;
    /// assert_eq!(rt; nfa.pattern_len(), 2);
    /// ```
    pub fn build_many_from_hir(
        &self,
        alloc: Global,
        patterns: &[Parsed],
    ) -> Result<NFA, CompileError>
        ensures valid { IfOk result IsAutomaton }
        ensures made { IfOk result (IsNfaOf (res_of patterns.now)) }
        ensures groups { IfOk result (λ nfa. nfa.groups ≡ groups_of patterns.now) }
        ensures utf8 { IfOk result (λ nfa. nfa.utf8 ≡ self.now.config.utf8) }
        ensures anchored { self.now.config.anchored ≡ true → IfOk result (λ nfa. nfa.anchored ≡ nfa.unanchored) }
        ensures bound { IfOk result (λ nfa. (nfa.anchored == nfa.unanchored)
            ≡ (self.now.config.anchored || all_begin_at_start (res_of patterns.now))) }
        ensures free { self.now.config.anchored ≡ false → IfOk result FindsFromAnyStart }
        ensures anywhere { self.now.config.utf8 ≡ false → IfOk result (λ nfa. is_utf8_empty nfa ≡ false) }
        ensures reads { IfOk result (λ nfa. nfa.has_empty ≡ false → All AlwaysReads patterns.now) }
        ensures fits { IfOk result (λ _. All (FitsIn self.now.config.size_limit) (res_of patterns.now)) }
        ensures fails { IfErr result IsOfNoText }
        ensures named { IfErr result (NamesPattern self.now.config.size_limit (res_of patterns.now)) }
    {
        let groups = groups_of(alloc, patterns)?;
        let mut states = Vec::new(alloc);
        let starts = self.add_patterns(alloc, patterns, &mut states)?;
        let anchored = choice(alloc, &mut states, &starts)?;
        let is_bound = self.binds(patterns);
        let unanchored = unanchored(&mut states, anchored, is_bound)?;
        let has_empty = may_one_be_empty(patterns);
        let utf8 = self.config.utf8;
        match NFA::from_states(
            states, anchored, unanchored, starts, groups, has_empty, utf8,
        ) {
            Ok(nfa) => Ok(nfa),
            Err(_) => unreachable!(),
        }
    }

    /// Returns whether searches for these patterns are bound to their start.
    fn binds(&self, patterns: &[Parsed]) -> bool
        ensures { result ≡ (self.now.config.anchored || all_begin_at_start (res_of patterns.now)) }
    {
        let begun = all_begin_at_start(patterns);
        let anchored = self.config.anchored;
        anchored || begun
    }

    /// Adds the states of these patterns, and returns the start of each. Requires that there are no states yet.
    fn add_patterns(
        &self,
        alloc: Global,
        patterns: &[Parsed],
        states: &mut Vec<State>,
    ) -> Result<Vec<StateID>, CompileError>
        requires { vec_len states.old ≡ 0 }
        ensures count { IfOk result (λ starts. length starts.items ≡ length patterns.now) }
        ensures made { IfOk result (λ starts. ArePatterns (map node_of states.new.items) (groups_of patterns.now)
            starts.items (res_of patterns.now) (length patterns.now)) }
        ensures inside { IfOk result (λ starts. All (λ s. s < vec_len states.new) starts.items) }
        ensures range { OnOk result (AreInRange (slot_count (groups_of patterns.now)) (length patterns.now)
            (map node_of states.new.items)) }
        ensures fits { IfOk result (λ _. All (FitsIn self.now.config.size_limit) (res_of patterns.now)) }
        ensures fails { IfErr result IsOfNoText }
        ensures named { IfErr result (NamesPattern self.now.config.size_limit (res_of patterns.now)) }
    {
        let mut starts = Vec::with_capacity(alloc, patterns.len())?;
        let mut slots = slots_for(patterns.len())?;
        for (index, pattern) in patterns.iter().enumerate() {
            starts.push(self.add_pattern(alloc, index, pattern, slots, states)?)?;
            slots = slots_after(slots, pattern)?;
        }
        Ok(starts)
    }

    /// Adds the states of this pattern, and returns its start. Its explicit groups have the slots from `slots` on.
    /// Requires that the numbers in the states so far are in range.
    fn add_pattern(
        &self,
        alloc: Global,
        index: usize,
        pattern: &Parsed,
        slots: usize,
        states: &mut Vec<State>,
    ) -> Result<StateID, CompileError>
        requires slots { 2 * index + 1 < slots }
        requires range { AreInRange slots index (map node_of states.old.items) }
        ensures made { IfOk result (λ start. IsPatternAt (map node_of states.new.items) slots index start
            (meaning pattern.now.hir)) }
        ensures range { OnOk result (AreInRange (slots + 2 * length (explicit_names pattern.now)) (index + 1)
            (map node_of states.new.items)) }
        ensures inside { IfOk result (λ start. start < vec_len states.new) }
        ensures added { OnOk result (Adds (map node_of states.old.items) (map node_of states.new.items)) }
        ensures fits { IfOk result (λ _. FitsIn self.now.config.size_limit (meaning pattern.now.hir)) }
        ensures fails { IfErr result (IsOfPattern self.now.config.size_limit index) }
    {
        let nfa = self.compile(alloc, index, pattern)?;
        let site = Site {
            base: states.len(),
            size: nfa.unanchored as usize,
            pattern: pattern_number(index)?,
            slots,
        };
        let start = site.add(alloc, &nfa, states)?;
        Ok(start)
    }

    /// Compiles the pattern to an NFA of its own.
    fn compile(&self, alloc: Global, index: usize, pattern: &Parsed) -> Result<Nfa, CompileError>
        ensures implements { IfOk result (λ nfa. Implements nfa (meaning pattern.now.hir)) }
        ensures slots { IfOk result (λ nfa. nfa.slot_count ≡ 2 * length pattern.now.names.items) }
        ensures small { IfOk result (λ nfa. table_bytes nfa ≤ self.now.config.size_limit + 24) }
        ensures fails { IfErr result (IsOfPattern self.now.config.size_limit index) }
    {
        let Ok(groups) = u32::try_from(pattern.names.len()) else {
            return Err(CompileError::TooManyGroups);
        };
        let limit = self.config.size_limit;
        match regex_compile::compile(alloc, &pattern.hir, groups, limit) {
            Ok(nfa) => Ok(nfa),
            Err(Error::TooBig) => Err(CompileError::TooBig {
                pattern: index,
                limit,
            }),
            Err(Error::Malformed) => Err(CompileError::Tree { pattern: index }),
            Err(Error::OutOfMemory) => Err(CompileError::Memory),
        }
    }
}

/// Returns the start of unanchored searches: a prefix that skips bytes, or the anchored start if searches are bound to
/// their start.
fn unanchored(
    states: &mut Vec<State>,
    anchored: StateID,
    is_bound: bool,
) -> Result<StateID, CompileError>
    requires { anchored < vec_len states.old }
    ensures added { OnOk result (Adds (map node_of states.old.items) (map node_of states.new.items)) }
    ensures range { OnOk result (KeepsInRange (map node_of states.old.items) (map node_of states.new.items)) }
    ensures within { IfOk result (λ start. start < vec_len states.new) }
    ensures bound { IfOk result (λ start. is_bound ≡ true → start ≡ anchored) }
    ensures free { IfOk result (λ start. is_bound ≡ false → start ≡ vec_len states.old) }
    ensures fails { IfErr result IsOfNoPattern }
{
    if is_bound {
        return Ok(anchored);
    }
    prefix(states, anchored)
}

/// Returns whether one of these patterns may match the empty string.
fn may_one_be_empty(patterns: &[Parsed]) -> bool
    ensures { result ≡ false → All AlwaysReads patterns.now }
{
    for pattern in patterns {
        if pattern.hir.min_len() == 0 {
            return true;
        }
    }
    false
}
