//! What is put in place of matches: one trait for texts, templates, and types of a caller's own.
ghost use Rattle.std.specs.Prelude.{◌≡◌, ◌<◌, ◌++◌, IfOk, List, OnOk, ℕ};
ghost use Rattle.regex_search_core.specs.Search.{whole};
ghost use Rattle.regex_search_core.specs.Slots.{Captured};
ghost use Rattle.nfa_search_base.specs.Runs.{CapturesInside};
ghost use Rattle.nfa_meta.specs.RegexState.{KeepsRegex};
ghost use Rattle.nfa_meta.specs.Rewritten.{IsRewrittenBy, IsRewrittenUpToBy};
ghost use Rattle.nfa_meta.specs.Templates.{filled};

use crate::interpolate::Template;
use crate::regex::Regex;
use regex_search_core::Captures;
use std::alloc::{AllocError, Global};

/// What a replacement puts in place of each match: [`NoExpand`], a [`Template`], or a type of your own. For a closure
/// use [`Regex::replace_all_with`]: what it appends may depend on the calls before.
///
/// ```
/// // regex of "[a-z]+"
/// let template = regex.parse_template(alloc, b"<$0>")?;
/// let marked = regex.replace_all_by(alloc, b"1 and 23", &template)?;
/// assert_eq!(rt; marked.as_slice(), b"1 <and> 23".as_slice());
/// let plain = regex.replace_all_by(alloc, b"1 and 23", &NoExpand(b"$0"))?;
/// assert_eq!(rt; plain.as_slice(), b"1 $0 23".as_slice());
/// ```
pub trait Replacer {
    /// What comes in place of a match of this haystack with these captures.
    ghost appends: { Self → List ℕ → Captured → List ℕ };

    /// Appends what comes in place of the match of these captures. The only error is that allocation failed.
    ///
    /// Requires captures whose spans are in the haystack, as searches of the haystack return them.
    fn replace_append(
        &self,
        haystack: &[u8],
        captures: &Captures,
        output: &mut Vec<u8>,
    ) -> Result<(), AllocError>
        requires { CapturesInside (whole haystack.now) captures.now }
        ensures { OnOk result
            (output.new.items ≡ output.old.items ++ appends self.now haystack.now captures.now) };
}

/// Bytes that are put in place of a match as they are: a `$` is a `$`.
///
/// ```
/// // regex of "[0-9]+"
/// let output = regex.replace_all_by(alloc, b"1 and 23", &NoExpand(b"$1"))?;
/// assert_eq!(rt; output.as_slice(), b"$1 and $1".as_slice());
/// ```
#[derive(Clone, Copy, Debug)]
pub struct NoExpand<'t>(pub &'t [u8]);

impl Replacer for NoExpand<'_> {
    ghost appends = { λ text _ _. text.0.now };

    fn replace_append(
        &self,
        _: &[u8],
        _: &Captures,
        output: &mut Vec<u8>,
    ) -> Result<(), AllocError> {
        output.extend_from_slice(self.0)
    }
}

impl Replacer for Template<'_> {
    ghost appends = { λ template haystack captures. filled haystack captures template.parts.items };

    fn replace_append(
        &self,
        haystack: &[u8],
        captures: &Captures,
        output: &mut Vec<u8>,
    ) -> Result<(), AllocError> {
        self.fill(haystack, captures, output)
    }
}

impl Regex {
    /// Returns the haystack with what the replacement appends in place of each match. The only error is that allocation
    /// failed.
    ///
    /// ```
    /// // regex of "(?<y>[0-9]{4})-(?<m>[0-9]{2})"
    /// let template = regex.parse_template(alloc, b"$m/$y")?;
    /// let output = regex.replace_all_by(alloc, b"2026-11, 2027-01", &template)?;
    /// assert_eq!(rt; output.as_slice(), b"11/2026, 01/2027".as_slice());
    /// ```
    pub fn replace_all_by<R: Replacer>(
        &mut self,
        alloc: Global,
        haystack: &[u8],
        replacement: &R,
    ) -> Result<Vec<u8>, AllocError>
        ensures rewritten { IfOk result (λ output. IsRewrittenBy self.old.choice haystack.now
            (R.appends replacement.now haystack.now) output.items) }
        ensures keeps { KeepsRegex self.old self.new }
    {
        self.replace_all_with(alloc, haystack, |captures, output| {
            replacement.replace_append(haystack, captures, output)
        })
    }

    /// Returns the haystack with what the replacement appends in place of its first matches: at most `limit`, and all
    /// if `limit` is 0. It stops searching at the limit. The only error is that allocation failed.
    ///
    /// ```
    /// // regex of "[0-9]+"
    /// let output = regex.replacen_by(alloc, b"1 and 23", 1, &NoExpand(b"one"))?;
    /// assert_eq!(rt; output.as_slice(), b"one and 23".as_slice());
    /// ```
    pub fn replacen_by<R: Replacer>(
        &mut self,
        alloc: Global,
        haystack: &[u8],
        limit: usize,
        replacement: &R,
    ) -> Result<Vec<u8>, AllocError>
        ensures all { limit ≡ 0 → IfOk result (λ output. IsRewrittenBy self.old.choice haystack.now
            (R.appends replacement.now haystack.now) output.items) }
        ensures first { 0 < limit → IfOk result (λ output. IsRewrittenUpToBy self.old.choice haystack.now limit
            (R.appends replacement.now haystack.now) output.items) }
        ensures keeps { KeepsRegex self.old self.new }
    {
        if limit == 0 {
            return self.replace_all_by(alloc, haystack, replacement);
        }
        self.replacen_with(alloc, haystack, limit, |captures, output| {
            replacement.replace_append(haystack, captures, output)
        })
    }
}
