//! A text with what a function appends in place of its matches.
ghost use Rattle.std.specs.Prelude.{◌≡◌, ◌<◌, ◌≤◌, ◌++◌, IfOk, List, drop, length, ℕ};
ghost use Rattle.regex_search_core.specs.Slots.{Captured};
ghost use Rattle.nfa_meta.specs.CapturesSteps.{BeginsCaptures};
ghost use Rattle.nfa_meta.specs.RegexState.{KeepsRegex};
ghost use Rattle.nfa_meta.specs.Rewritten.{AppendsBy, IsRewritten, IsRewrittenBy, IsRewrittenUpTo};
ghost use Rattle.nfa_meta.specs.Rewritten.{IsRewrittenUpToBy, TakesMatchesOf};

use crate::interpolate::copy_to_match;
use crate::regex::Regex;
use crate::regex::captures_iter::{CapturesFinder, captures_in, next_captures};
use nfa_engines::iter::Steps;
use regex_search_core::Captures;
use std::alloc::{AllocError, Global};

impl Regex {
    /// Returns the haystack with what the function appends to the output, for the captures of each match, in place of
    /// the match. The function is called once for each match, from left to right. It borrows the captures, so no match
    /// is copied. The only errors are that allocation failed, and those of the function.
    ///
    /// ```
    /// // regex of "(?<y>[0-9]{4})-(?<m>[0-9]{2})"
    /// let text = b"2026-11, 2027-01";
    /// let output = regex.replace_all_with(alloc, text, |captures, output| {
    ///     match captures.get_group_by_name("m") {
    ///         Some(month) => output.extend_from_slice(&text[month.start..month.end]),
    ///         None => Ok(()),
    ///     }
    /// })?;
    /// assert_eq!(rt; output.as_slice(), b"11, 01".as_slice());
    /// ```
    pub fn replace_all_with<F>(
        &mut self,
        alloc: Global,
        haystack: &[u8],
        replacement: F,
    ) -> Result<Vec<u8>, AllocError>
    where
        F: FnMut(&Captures, &mut Vec<u8>) -> Result<(), AllocError>,
        requires { TakesMatchesOf F.FnMut haystack.now replacement }
        ensures rewritten { IfOk result (λ output.
            IsRewritten F.FnMut self.old.choice haystack.now replacement output.items) }
        // If each call appends what a function `h` of the captures gives. `Rattle.nfa_meta.proofs.Rewriting` has lemmas
        // for a closure that changes nothing that it captured.
        ensures appended { (h : Captured → List ℕ) → AppendsBy F.FnMut haystack.now replacement h
            → IfOk result (λ output. IsRewrittenBy self.old.choice haystack.now h output.items) }
        ensures keeps { KeepsRegex self.old self.new }
    {
        let steps = self.begin_captures(alloc, haystack)?;
        rewrite_all(self, steps, alloc, haystack, replacement)
    }

    /// Returns the haystack with what the function appends, for their captures, in place of its first matches: at most
    /// `limit`, and all if `limit` is 0. It stops searching at the limit. The only errors are that
    /// allocation failed, and those of the function.
    ///
    /// ```
    /// // regex of "[0-9]+"
    /// let output = regex.replacen_with(alloc, b"1 and 23", 1, |_, output| output.extend_from_slice(b"#"))?;
    /// assert_eq!(rt; output.as_slice(), b"# and 23".as_slice());
    /// ```
    pub fn replacen_with<F>(
        &mut self,
        alloc: Global,
        haystack: &[u8],
        limit: usize,
        replacement: F,
    ) -> Result<Vec<u8>, AllocError>
    where
        F: FnMut(&Captures, &mut Vec<u8>) -> Result<(), AllocError>,
        requires { TakesMatchesOf F.FnMut haystack.now replacement }
        ensures all { limit ≡ 0 → IfOk result (λ output.
            IsRewritten F.FnMut self.old.choice haystack.now replacement output.items) }
        ensures first { 0 < limit → IfOk result (λ output.
            IsRewrittenUpTo F.FnMut self.old.choice haystack.now replacement limit output.items) }
        // If each call appends what a function `h` of the captures gives.
        ensures all_appended { limit ≡ 0 → (h : Captured → List ℕ) → AppendsBy F.FnMut haystack.now replacement h
            → IfOk result (λ output. IsRewrittenBy self.old.choice haystack.now h output.items) }
        ensures first_appended { 0 < limit → (h : Captured → List ℕ) → AppendsBy F.FnMut haystack.now replacement h
            → IfOk result (λ output. IsRewrittenUpToBy self.old.choice haystack.now limit h output.items) }
        ensures keeps { KeepsRegex self.old self.new }
    {
        if limit == 0 {
            return self.replace_all_with(alloc, haystack, replacement);
        }
        let steps = self.begin_captures(alloc, haystack)?;
        rewrite_first(self, steps, alloc, haystack, limit, replacement)
    }
}

/// Returns the haystack with what the function appends, for the captures of each step, in place of the match.
fn rewrite_all<'h, F>(
    regex: &mut Regex,
    mut steps: Steps<'h, CapturesFinder>,
    alloc: Global,
    haystack: &'h [u8],
    mut replacement: F,
) -> Result<Vec<u8>, AllocError>
where
    F: FnMut(&Captures, &mut Vec<u8>) -> Result<(), AllocError>,
    requires begins { BeginsCaptures regex.old haystack.now steps }
    requires takes { TakesMatchesOf F.FnMut haystack.now replacement }
    ensures rewritten { IfOk result (λ output.
        IsRewritten F.FnMut regex.old.choice haystack.now replacement output.items) }
    ensures appended { (h : Captured → List ℕ) → AppendsBy F.FnMut haystack.now replacement h
        → IfOk result (λ output. IsRewrittenBy regex.old.choice haystack.now h output.items) }
    ensures keeps { KeepsRegex regex.old regex.new }
{
    let mut output = Vec::new(alloc);
    let mut from = 0;
    while next_captures(&mut steps, regex) {
        let captures = captures_in(&steps);
        let end = copy_to_match(haystack, from, captures, &mut output)?;
        replacement(captures, &mut output)?;
        from = end;
    }
    with_rest(output, haystack, from)
}

/// Returns the haystack with what the function appends, for the captures of each step, in place of the first matches:
/// of as many as the limit, or of all, if there are fewer. It stops at the limit.
fn rewrite_first<'h, F>(
    regex: &mut Regex,
    mut steps: Steps<'h, CapturesFinder>,
    alloc: Global,
    haystack: &'h [u8],
    limit: usize,
    mut replacement: F,
) -> Result<Vec<u8>, AllocError>
where
    F: FnMut(&Captures, &mut Vec<u8>) -> Result<(), AllocError>,
    requires begins { BeginsCaptures regex.old haystack.now steps }
    requires takes { TakesMatchesOf F.FnMut haystack.now replacement }
    ensures rewritten { IfOk result (λ output.
        IsRewrittenUpTo F.FnMut regex.old.choice haystack.now replacement limit output.items) }
    ensures appended { (h : Captured → List ℕ) → AppendsBy F.FnMut haystack.now replacement h
        → IfOk result (λ output. IsRewrittenUpToBy regex.old.choice haystack.now limit h output.items) }
    ensures keeps { KeepsRegex regex.old regex.new }
{
    let mut output = Vec::new(alloc);
    let mut from = 0;
    for _ in 0..limit {
        if !next_captures(&mut steps, regex) {
            return with_rest(output, haystack, from);
        }
        let lent = captures_in(&steps);
        let end = copy_to_match(haystack, from, lent, &mut output)?;
        replacement(lent, &mut output)?;
        from = end;
    }
    with_rest(output, haystack, from)
}

/// Returns the output with the haystack from an offset on after it.
fn with_rest(mut output: Vec<u8>, haystack: &[u8], from: usize) -> Result<Vec<u8>, AllocError>
    requires { from ≤ length haystack.now }
    ensures { IfOk result (λ all. all.items ≡ output.items ++ drop from haystack.now) }
{
    output.extend_from_slice(&haystack[from..])?;
    Ok(output)
}
