//! The error of a text that is not a pattern: the text, the place in it, and the reason.
ghost use Rattle.std.specs.Prelude.{◌≤◌, ◌≢◌, IsCharBoundary, string_bytes};
ghost use Rattle.regex_syntax.specs.Verdict.{Refuses};
ghost use Rattle.regex_syntax.specs.declared.error.ErrorKind.TheVariants.{OutOfMemory};

use crate::excerpt::Excerpt;
use regex_syntax::{Config, ErrorKind, Span};
use std::fmt;

/// A text that is not a pattern, or that nests too deeply.
///
/// `Display` writes one line with the pattern's number, the span and the reason. Below it are the line of the text in
/// which the span starts, and marks under the span:
///
/// ```text
/// pattern 1, at 2..3: unclosed group
///     ab(c
///       ^
/// ```
#[derive(Debug, Drop)]
pub struct SyntaxError {
    pub(crate) pattern: usize,
    pub(crate) text: String,
    pub(crate) syntax: Config,
    pub(crate) kind: ErrorKind,
    /// The kind in words.
    pub(crate) reason: &'static str,
    pub(crate) span: Span,
    pub ghost refused: { ∥ Refuses syntax (string_bytes text) kind ∥₁ },
    pub ghost not_for_memory: { kind ≢ OutOfMemory },
    pub ghost ordered: { span.start ≤ span.end },
    pub ghost starts_inside: { IsCharBoundary (string_bytes text) span.start },
    pub ghost ends_inside: { IsCharBoundary (string_bytes text) span.end },
}

impl SyntaxError {
    ghost use Rattle.std.specs.Prelude.{◌≡◌};

    /// Returns the number of the pattern, from 0 on.
    pub fn pattern(&self) -> usize
        ensures { result ≡ self.now.pattern }
    {
        self.pattern
    }

    /// Returns the text of the pattern.
    pub fn text(&self) -> &str
        ensures { result.now ≡ string_bytes self.now.text }
    {
        &self.text
    }

    /// Returns the syntax that the text was parsed with.
    pub fn syntax(&self) -> Config
        ensures { result ≡ self.now.syntax }
    {
        self.syntax
    }

    /// Returns the reason.
    pub fn kind(&self) -> ErrorKind
        ensures { result ≡ self.now.kind }
    {
        self.kind
    }

    /// Returns the reason in words, as `regex_syntax` says it.
    pub fn reason(&self) -> &'static str
        ensures { result.now ≡ self.now.reason.now }
    {
        self.reason
    }

    /// Returns the span of the error in the text, in bytes.
    pub fn span(&self) -> Span
        ensures { result ≡ self.now.span }
    {
        self.span
    }
}

impl fmt::Display for SyntaxError {
    ghost use Rattle.std.specs.Prelude.{Some};
    ghost use Rattle.nfa_compiler.specs.Rejected.{syntax_error_text};

    ghost output = { λ e. Some (syntax_error_text e) };

    fn fmt<W: fmt::Write>(&self, f: &mut fmt::Formatter<W>) -> fmt::Result {
        let pattern = self.pattern;
        let place = Place(self);
        write!(f, "pattern {pattern}, {place}")
    }
}

impl std::error::Error for SyntaxError {}

/// The text of an error without the number of its pattern.
#[derive(Clone, Copy)]
pub(crate) struct Place<'e>(pub(crate) &'e SyntaxError);

impl fmt::Display for Place<'_> {
    ghost use Rattle.std.specs.Prelude.{Some};
    ghost use Rattle.nfa_compiler.specs.Rejected.{place_text};

    ghost output = { λ place. Some (place_text place.0.now) };

    fn fmt<W: fmt::Write>(&self, f: &mut fmt::Formatter<W>) -> fmt::Result {
        let error = self.0;
        let Span { start, end } = error.span;
        let reason = error.reason;
        let excerpt = Excerpt::new(&error.text, start, end);
        write!(f, "at {start}..{end}: {reason}\n{excerpt}")
    }
}
