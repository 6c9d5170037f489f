//! The settings of a regex, and its builder.
ghost use Rattle.std.specs.Prelude.{◌≡◌, ◌∷◌, [], IfErr, IfOk, IsOkUnless, None, Some, map};
ghost use Rattle.nfa_lazy_dfa.specs.Configs.{default_clears, kind_in};
ghost use Rattle.nfa_lazy_dfa.specs.Limits.{capacity_in, max_clears_in};
ghost use Rattle.nfa_meta.specs.Built.{HasNotSearched, IsBuiltFrom, IsWhyNotBuilt, compiler_of, default_builder};
ghost use Rattle.nfa_meta.specs.Built.{default_settings, regex_of};
ghost use Rattle.nfa_meta.specs.RegexState.{row_capacity};

mod flags;
mod groups;
mod lines;
mod names;
mod one_pass;
mod texts;

use crate::error::BuildError;
use crate::regex::Regex;
use nfa_compiler::{Compiler, Syntax};
use nfa_engines::backtrack;
use nfa_engines::error::SearchError;
use nfa_facts::WhichCaptures;
use nfa_lazy_dfa::DFA;
use regex_search_core::MatchKind;
use std::alloc::Global;
pub(crate) use texts::Texts;
use thompson_nfa::NFA;

/// The settings of a regex. The first five are those of its NFA, if it is compiled from texts. The others change what
/// searches cost, and never what they return.
#[derive(Clone, Copy, Debug)]
pub struct Config {
    /// Whether each search is bound to its start.
    pub anchored: bool,
    /// Whether patterns match only UTF-8: see [`Config::utf8`].
    pub utf8: bool,
    /// The most bytes that the tables of one pattern may take: see [`Config::nfa_size_limit`].
    pub nfa_size_limit: usize,
    /// The byte that ends a line for `^` and `$` in multi-line mode: see [`Config::line_terminator`].
    pub line_terminator: u8,
    /// The groups that are kept: see [`Config::which_captures`].
    pub which_captures: WhichCaptures,
    /// Whether searches begin with a lazy DFA.
    pub hybrid: bool,
    /// The most bytes that the rows of the lazy DFA may take: see [`Config::hybrid_cache_capacity`].
    pub hybrid_cache_capacity: usize,
    /// The most bytes that the marks of a search of the backtracker may take, or `None` for the default: see
    /// [`Config::backtrack_visited_capacity`].
    pub backtrack_visited_capacity: Option<usize>,
    /// Whether groups are taken by sure steps where they can be.
    pub onepass: bool,
    /// The most bytes that sure steps may take: see [`Config::onepass_size_limit`].
    pub onepass_size_limit: usize,
}

impl Config {
    /// Returns the default settings: unanchored, in UTF-8 mode, with a size limit of ten mebibytes; with a lazy DFA of
    /// at most 16 mebibytes, a backtracker with its default capacity, and sure steps of at most one mebibyte.
    ///
    /// ```
    /// let config = Config::new();
    /// assert!(rt; !config.anchored && config.utf8 && config.hybrid);
    /// assert_eq!(rt; config.nfa_size_limit, 10 << 20);
    /// ```
    pub fn new() -> Config
        ensures { result ≡ default_settings }
    {
        Config {
            anchored: false,
            utf8: true,
            nfa_size_limit: 10 << 20,
            line_terminator: b'\n',
            which_captures: WhichCaptures::All,
            hybrid: true,
            hybrid_cache_capacity: 16 << 20,
            backtrack_visited_capacity: None,
            onepass: true,
            onepass_size_limit: 1 << 20,
        }
    }

    /// Sets whether each search is bound to its start.
    ///
    /// ```
    /// let config = Config::new().anchored(true);
    /// let mut regex = Regex::builder().configure(config).build(alloc, "b+")?;
    /// assert!(rt; regex.is_match(Input::new(b"bb")));
    /// assert!(rt; !regex.is_match(Input::new(b"abb")));
    /// ```
    pub fn anchored(self, yes: bool) -> Config
        ensures { result ≡ record self { anchored = yes } }
    {
        Config {
            anchored: yes,
            ..self
        }
    }

    /// Sets whether patterns match only UTF-8.
    ///
    /// With `true`, a text that could match bytes that are not UTF-8 is not a pattern, and a search skips an empty
    /// match that splits a codepoint. With `false`, patterns may match any bytes, and an empty match may be anywhere.
    ///
    /// ```
    /// let config = Config::new().utf8(false);
    /// let mut regex = Regex::builder().configure(config).build(alloc, r"(?-u:\xFF)+")?;
    /// let found = regex.find(Input::new(b"a\xFF\xFF"));
    /// assert_eq!(rt; found.expect(rt, "a match").range(), 1..3);
    /// ```
    pub fn utf8(self, yes: bool) -> Config
        ensures { result ≡ record self { utf8 = yes } }
    {
        Config { utf8: yes, ..self }
    }

    /// Sets the most bytes that the tables of one pattern may take while it is compiled.
    ///
    /// ```
    /// let builder = Regex::builder().configure(Config::new().nfa_size_limit(10_000));
    /// assert!(rt; builder.build(alloc, "[a-z]+").is_ok());
    /// assert!(rt; builder.build(alloc, r"\w{20}").is_err());
    /// ```
    pub fn nfa_size_limit(self, bytes: usize) -> Config
        ensures { result ≡ record self { nfa_size_limit = bytes } }
    {
        Config {
            nfa_size_limit: bytes,
            ..self
        }
    }

    /// Sets whether searches begin with a lazy DFA. With `false`, the DFA never makes a row, and the other engines
    /// search each input whole.
    ///
    /// ```
    /// let config = Config::new().hybrid(false);
    /// let mut regex = Regex::builder().configure(config).build(alloc, "fo+")?;
    /// assert!(rt; regex.is_match(Input::new(b"a foo")));
    /// assert_eq!(rt; regex.ran(), Some(Engine::Backtracker));
    /// ```
    pub fn hybrid(self, yes: bool) -> Config
        ensures { result ≡ record self { hybrid = yes } }
    {
        Config {
            hybrid: yes,
            ..self
        }
    }

    /// Sets the most bytes that the rows of the lazy DFA may take: 1120 for each row, and 4 for each of its states.
    ///
    /// ```
    /// let config = Config::new().hybrid_cache_capacity(100_000);
    /// let mut regex = Regex::builder().configure(config).build(alloc, "fo+")?;
    /// assert!(rt; regex.is_match(Input::new(b"a foo")));
    /// assert_eq!(rt; regex.get_config().hybrid_cache_capacity, 100_000);
    /// ```
    pub fn hybrid_cache_capacity(self, bytes: usize) -> Config
        ensures { result ≡ record self { hybrid_cache_capacity = bytes } }
    {
        Config {
            hybrid_cache_capacity: bytes,
            ..self
        }
    }

    /// Sets the most bytes that the marks of a search of the backtracker may take, rounded up to whole blocks of eight
    /// bytes. The PikeVM searches inputs that need more.
    ///
    /// ```
    /// let config = Config::new().hybrid(false).backtrack_visited_capacity(0);
    /// let mut regex = Regex::builder().configure(config).build(alloc, "fo+")?;
    /// assert!(rt; regex.is_match(Input::new(b"a foo")));
    /// assert_eq!(rt; regex.ran(), Some(Engine::PikeVM));
    /// ```
    pub fn backtrack_visited_capacity(self, bytes: usize) -> Config
        ensures { result ≡ record self { backtrack_visited_capacity = Some bytes } }
    {
        Config {
            backtrack_visited_capacity: Some(bytes),
            ..self
        }
    }

    /// Returns the configuration of a lazy DFA of this kind. A DFA without capacity stops at the start of each
    /// search, and makes no row.
    pub(crate) fn lazy_dfa(&self, kind: MatchKind) -> nfa_lazy_dfa::Config
        ensures kind { kind_in result ≡ kind }
        ensures capacity { capacity_in result ≡ row_capacity self.now }
        ensures clears { max_clears_in result ≡ default_clears }
    {
        let capacity = if self.hybrid {
            self.hybrid_cache_capacity
        } else {
            0
        };
        DFA::config().match_kind(kind).cache_capacity(capacity)
    }

    /// Returns the configuration of the backtracker.
    pub(crate) fn backtracker(&self) -> backtrack::Config
        ensures { result ≡ self.now.backtrack_visited_capacity }
    {
        match self.backtrack_visited_capacity {
            Some(bytes) => backtrack::Config::new().visited_capacity(bytes),
            None => backtrack::Config::new(),
        }
    }
}

impl Default for Config {
    /// Returns the default settings.
    fn default() -> Config
        ensures { result ≡ default_settings }
    {
        Config::new()
    }
}

/// A builder of regexes. [`Regex::builder`] returns one with the default settings.
///
/// ```
/// let config = Regex::config().anchored(true);
/// let mut regex = Regex::builder().configure(config).build(alloc, "[0-9]+")?;
/// assert!(rt; !regex.is_match(Input::new(b"foo 12")));
/// ```
#[derive(Clone, Copy, Debug)]
pub struct Builder {
    pub config: Config,
    /// The syntax of texts. Its field `utf8` is not used: see [`Config::utf8`].
    pub syntax: Syntax,
}

impl Builder {
    /// Returns a builder with the default settings and the default syntax.
    ///
    /// ```
    /// let mut regex = Builder::new().build(alloc, "[0-9]+")?;
    /// assert!(rt; regex.is_match(Input::new(b"foo 12")));
    /// ```
    pub fn new() -> Builder
        ensures { result ≡ default_builder }
    {
        Builder {
            config: Config::new(),
            syntax: Syntax::default(),
        }
    }

    /// Replaces the settings.
    pub fn configure(self, config: Config) -> Builder
        ensures { result ≡ record self { config = config } }
    {
        Builder { config, ..self }
    }

    /// Replaces the syntax of texts.
    ///
    /// ```
    /// let flags = Flags {
    ///     case_insensitive: true,
    ///     ..Flags::default()
    /// };
    /// let syntax = Syntax {
    ///     flags,
    ///     ..Syntax::default()
    /// };
    /// let mut regex = Regex::builder().syntax(syntax).build(alloc, "foo")?;
    /// assert!(rt; regex.is_match(Input::new(b"FOO")));
    /// ```
    pub fn syntax(self, syntax: Syntax) -> Builder
        ensures { result ≡ record self { syntax = syntax } }
    {
        Builder { syntax, ..self }
    }

    /// Returns the compiler of texts.
    pub(crate) fn compiler(&self) -> Compiler
        ensures { result ≡ compiler_of self.now }
    {
        let config = nfa_compiler::Config::new()
            .anchored(self.config.anchored)
            .utf8(self.config.utf8)
            .size_limit(self.config.nfa_size_limit);
        Compiler::new().configure(config).syntax(self.syntax)
    }

    /// Makes a regex of one pattern, with empty caches.
    ///
    /// Fails if the text is not a pattern, if the pattern exceeds the size limit (`BuildError::Compile`), or if
    /// allocation fails.
    pub fn build(&self, alloc: Global, pattern: &str) -> Result<Regex, BuildError>
        ensures built { IfOk result (λ made. IsBuiltFrom self.now (pattern.now ∷ []) made.choice.nfa) }
        ensures texts { IfOk result (λ made. made.texts ≡ pattern.now ∷ []) }
        ensures engines { IfOk result (HasNotSearched self.now.config) }
        ensures why { IfErr result (IsWhyNotBuilt self.now (pattern.now ∷ [])) }
    {
        self.build_many(alloc, &[pattern])
    }

    /// Makes a regex of these patterns, numbered from 0 on, with empty caches. If two match from one start, the earlier
    /// one is preferred.
    ///
    /// Fails as [`Builder::build`] does. The error has the number of the pattern that failed.
    ///
    /// ```
    /// let mut regex = Regex::builder().build_many(alloc, &["[a-z]+", "[0-9]+"])?;
    /// let found = regex.find(Input::new(b"12"));
    /// assert_eq!(rt; found.expect(rt, "a match").pattern().as_usize(), 1);
    /// ```
    pub fn build_many(&self, alloc: Global, patterns: &[&str]) -> Result<Regex, BuildError>
        ensures built { IfOk result (λ made.
            IsBuiltFrom self.now (map (λ text. text.now) patterns.now) made.choice.nfa) }
        ensures texts { IfOk result (λ made. made.texts ≡ map (λ text. text.now) patterns.now) }
        ensures engines { IfOk result (HasNotSearched self.now.config) }
        ensures why { IfErr result (IsWhyNotBuilt self.now (map (λ text. text.now) patterns.now)) }
    {
        let nfa = self.compile(alloc, patterns)?;
        match self.build_with_texts(alloc, nfa, patterns) {
            Ok(regex) => Ok(regex),
            Err(_) => Err(BuildError::Memory),
        }
    }

    /// Makes a regex of the NFA of these patterns, and copies their texts. The only error is `Memory`.
    fn build_with_texts(
        &self,
        alloc: Global,
        nfa: NFA,
        patterns: &[&str],
    ) -> Result<Regex, SearchError>
        ensures made { IfOk result (λ made. made ≡ record (regex_of nfa self.now.config) {
          texts = map (λ text. text.now) patterns.now;
        }) }
        ensures memory { IsOkUnless result SearchError.Memory }
    {
        let Ok(texts) = Texts::of(alloc, patterns) else {
            return Err(SearchError::Memory);
        };
        let regex = self.build_from_nfa(alloc, nfa)?;
        Ok(regex.with_texts(texts))
    }

    /// Makes a regex of the NFA, with empty caches. Settings of the NFA have no effect. The only error is `Memory`.
    ///
    /// ```
    /// // nfa of "foo[0-9]+"
    /// let mut regex = Regex::builder().build_from_nfa(alloc, nfa)?;
    /// assert!(rt; regex.is_match(Input::new(b"foo12345")));
    /// ```
    pub fn build_from_nfa(&self, alloc: Global, nfa: NFA) -> Result<Regex, SearchError>
        ensures engines { IfOk result (λ made. made ≡ regex_of nfa self.now.config) }
        ensures memory { IsOkUnless result SearchError.Memory }
    {
        Regex::from_parts(alloc, nfa, self.config)
    }
}

impl Regex {
    /// Compiles the pattern, and makes the engines for it, with default settings and empty caches.
    ///
    /// Fails if the text is not a pattern, if the pattern exceeds the size limit (`BuildError::Compile`), or if
    /// allocation fails.
    ///
    /// ```
    /// let mut regex = Regex::new(alloc, "foo[0-9]+")?;
    /// let found = regex.find(Input::new(b"foo12345"));
    /// assert_eq!(rt; found.expect(rt, "a match").range(), 0..8);
    /// ```
    pub fn new(alloc: Global, pattern: &str) -> Result<Regex, BuildError>
        ensures built { IfOk result (λ made. IsBuiltFrom default_builder (pattern.now ∷ []) made.choice.nfa) }
        ensures texts { IfOk result (λ made. made.texts ≡ pattern.now ∷ []) }
        ensures engines { IfOk result (HasNotSearched default_settings) }
        ensures why { IfErr result (IsWhyNotBuilt default_builder (pattern.now ∷ [])) }
    {
        Builder::new().build(alloc, pattern)
    }

    /// Compiles these patterns, numbered from 0 on, and makes the engines for them, with default settings and empty
    /// caches. If two match from one start, the earlier one is preferred.
    ///
    /// Fails as [`Regex::new`] does. The error has the number of the pattern that failed.
    ///
    /// ```
    /// let mut regex = Regex::new_many(alloc, &["[a-z]+", "[0-9]+"])?;
    /// let found = regex.find(Input::new(b"12"));
    /// assert_eq!(rt; found.expect(rt, "a match").pattern().as_usize(), 1);
    /// ```
    pub fn new_many(alloc: Global, patterns: &[&str]) -> Result<Regex, BuildError>
        ensures built { IfOk result (λ made.
            IsBuiltFrom default_builder (map (λ text. text.now) patterns.now) made.choice.nfa) }
        ensures texts { IfOk result (λ made. made.texts ≡ map (λ text. text.now) patterns.now) }
        ensures engines { IfOk result (HasNotSearched default_settings) }
        ensures why { IfErr result (IsWhyNotBuilt default_builder (map (λ text. text.now) patterns.now)) }
    {
        Builder::new().build_many(alloc, patterns)
    }

    /// Returns the default settings.
    ///
    /// ```
    /// let config = Regex::config().hybrid(false);
    /// let mut regex = Regex::builder().configure(config).build(alloc, "fo+")?;
    /// assert!(rt; regex.is_match(Input::new(b"a foo")));
    /// assert!(rt; regex.ran().is_some());
    /// ```
    pub fn config() -> Config
        ensures { result ≡ default_settings }
    {
        Config::new()
    }

    /// Returns a builder with the default settings and the default syntax.
    ///
    /// ```
    /// let bytes = r"(?-u:\xFF)+";
    /// let config = Regex::config().utf8(false);
    /// let built = Regex::builder().configure(config).build(alloc, bytes);
    /// assert!(rt; built.is_ok());
    /// assert!(rt; Regex::new(alloc, bytes).is_err());
    /// ```
    pub fn builder() -> Builder
        ensures { result ≡ default_builder }
    {
        Builder::new()
    }
}
