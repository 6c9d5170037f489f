//! A text with other bytes in place of its matches.
ghost use Rattle.std.specs.Prelude.{◌≡◌, ◌<◌, IfOk, None, map};
ghost use Rattle.regex_search_core.specs.Found.{found_of};
ghost use Rattle.regex_search_core.specs.Search.{whole};
ghost use Rattle.nfa_search_base.specs.Lists.{AreDisjoint};
ghost use Rattle.nfa_meta.specs.RegexState.{KeepsRegex};
ghost use Rattle.nfa_meta.specs.Replaced.{IsReplaced, IsReplacedUpTo, replaced};

use crate::regex::Regex;
use regex_search_core::{Input, Match};
use std::alloc::{AllocError, Global};

impl Regex {
    /// Returns the haystack with these bytes in place of each match. The bytes are taken as they are: a `$` is a `$`.
    /// The only error is that allocation failed.
    ///
    /// ```
    /// // regex of "[0-9]+"
    /// let output = regex.replace_all(alloc, b"1 and 23", b"$")?;
    /// assert_eq!(rt; output.as_slice(), b"$ and $".as_slice());
    /// ```
    pub fn replace_all(
        &mut self,
        alloc: Global,
        haystack: &[u8],
        bytes: &[u8],
    ) -> Result<Vec<u8>, AllocError>
        ensures replaced { IfOk result (λ output. IsReplaced self.old.choice haystack.now bytes.now output.items) }
        ensures keeps { KeepsRegex self.old self.new }
    {
        let Ok(matches) = self.find_all(alloc, Input::new(haystack)) else {
            return Err(AllocError);
        };
        let output = replace_matches(alloc, haystack, bytes, &matches)?;
        Ok(output)
    }

    /// Returns the haystack with these bytes in place of each of its first matches: at most `limit`, and all if `limit`
    /// is 0. The only error is that allocation failed.
    ///
    /// ```
    /// // regex of "[0-9]+"
    /// let output = regex.replacen(alloc, b"1 and 23", 1, b"one")?;
    /// assert_eq!(rt; output.as_slice(), b"one and 23".as_slice());
    /// ```
    pub fn replacen(
        &mut self,
        alloc: Global,
        haystack: &[u8],
        limit: usize,
        bytes: &[u8],
    ) -> Result<Vec<u8>, AllocError>
        ensures all { limit ≡ 0 → IfOk result (λ output.
            IsReplaced self.old.choice haystack.now bytes.now output.items) }
        ensures first { 0 < limit → IfOk result (λ output.
            IsReplacedUpTo self.old.choice haystack.now limit bytes.now output.items) }
        ensures keeps { KeepsRegex self.old self.new }
    {
        if limit == 0 {
            return self.replace_all(alloc, haystack, bytes);
        }
        let matches = self.first_matches(alloc, Input::new(haystack), limit)?;
        let output = replace_matches(alloc, haystack, bytes, &matches)?;
        Ok(output)
    }
}

/// Returns the haystack with these bytes in place of each of these matches.
#[tactic(auto, using(std::proofs::lemmas::Grind::common_steps))]
fn replace_matches(
    alloc: Global,
    haystack: &[u8],
    bytes: &[u8],
    matches: &[Match],
) -> Result<Vec<u8>, AllocError>
    requires { AreDisjoint (whole haystack.now) None (map found_of matches.now) }
    ensures { IfOk result (λ output. output.items ≡ replaced haystack.now bytes.now 0 (map found_of matches.now)) }
{
    let mut output = Vec::new(alloc);
    let mut from = 0;
    for found in matches {
        output.extend_from_slice(&haystack[from..found.start()])?;
        output.extend_from_slice(bytes)?;
        from = found.end();
    }
    output.extend_from_slice(&haystack[from..])?;
    Ok(output)
}
