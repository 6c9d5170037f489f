//! The byte that ends a line for a regex.
ghost use Rattle.std.specs.Prelude.{◌≡◌, IfErr, IfOk, map};
ghost use Rattle.nfa_meta.specs.Built.{HasLines, IsBuiltFrom, IsWhyNotBuilt};

use crate::builder::{Builder, Config};
use crate::error::BuildError;
use std::alloc::Global;
use thompson_nfa::NFA;

impl Config {
    /// Sets the byte that ends a line for `^` and `$` in multi-line mode. It is `\n` by default.
    ///
    /// As in `regex_automata::meta::Config`, nothing else changes: `.` matches all but `\n` as before, and with the
    /// flag `R` only `\r` and `\n` end lines. It has no effect if a regex is made of an NFA:
    /// [`NFA::with_line_terminator`] does the same there.
    ///
    /// ```
    /// let config = Config::new().line_terminator(0);
    /// let mut regex = Regex::builder().configure(config).build(alloc, "(?m)^foo$")?;
    /// let found = regex.find(Input::new(b"bar\x00foo\x00"));
    /// assert_eq!(rt; found.expect(rt, "a match").range(), 4..7);
    /// ```
    pub fn line_terminator(self, byte: u8) -> Config
        ensures { result ≡ record self { line_terminator = byte } }
    {
        Config {
            line_terminator: byte,
            ..self
        }
    }

    /// Puts the line terminator into an NFA whose lines end with `\n`.
    fn end_lines(&self, nfa: NFA) -> NFA
        ensures { HasLines self.now.line_terminator (λ plain. plain ≡ nfa) result }
    {
        if self.line_terminator == b'\n' {
            nfa
        } else {
            nfa.with_line_terminator(self.line_terminator)
        }
    }
}

impl Builder {
    /// Sets the byte that ends a line for `^` and `$` in multi-line mode, as [`Config::line_terminator`] does.
    ///
    /// ```
    /// let builder = Regex::builder().multi_line(true).line_terminator(b';');
    /// let mut regex = builder.build(alloc, "^b$")?;
    /// assert!(rt; regex.is_match(Input::new(b"a;b;c")));
    /// assert!(rt; !regex.is_match(Input::new(b"a\nb\nc")));
    /// ```
    pub fn line_terminator(self, byte: u8) -> Builder
        ensures { result ≡ record self { config = record self.config { line_terminator = byte } } }
    {
        let config = self.config.line_terminator(byte);
        self.configure(config)
    }

    /// Makes the NFA of these patterns, numbered from 0 on, with the line terminator and the captures that are kept.
    pub(crate) fn compile(&self, alloc: Global, patterns: &[&str]) -> Result<NFA, BuildError>
        ensures built { IfOk result (IsBuiltFrom self.now (map (λ text. text.now) patterns.now)) }
        ensures why { IfErr result (IsWhyNotBuilt self.now (map (λ text. text.now) patterns.now)) }
    {
        let nfa = self.compiler().build_many(alloc, patterns)?;
        let nfa = self.config.end_lines(nfa);
        // There are no more patterns than slots, whose number is limited.
        let _ = nfa.group_info().slot_len();
        self.config.keep_captures(alloc, nfa)
    }
}
