//! The spans around the matches of a text.
ghost use Rattle.std.specs.Prelude.{◌≡◌, ◌⊎◌, ◌+◌, ◌<◌, ◌≤◌, [], All, IfOk, None, length, map};
ghost use Rattle.regex_search_core.specs.Found.{found_of};
ghost use Rattle.regex_search_core.specs.Search.{search_of, whole};
ghost use Rattle.nfa_search_base.specs.Lists.{AreDisjoint, AreFirstMatches, AreMatches};
ghost use Rattle.nfa_choice.specs.ChoiceState.{kind_in};
ghost use Rattle.nfa_meta.specs.RegexState.{KeepsRegex};
ghost use Rattle.nfa_meta.specs.Gaps.{IsSpanIn, IsSplit, IsSplitUpTo, gap_spans};

use crate::regex::Regex;
use regex_search_core::{Input, Match, Span};
use std::alloc::{AllocError, Global};

impl Regex {
    /// Returns the spans of the haystack before, between and after its matches, from left to right. There is one span
    /// more than there are matches, and a span may be empty. The only error is that allocation failed.
    ///
    /// ```
    /// // regex of "[;/]+"
    /// let spans = regex.split_all(alloc, b"a;b//c")?;
    /// assert_eq!(rt; spans.len(), 3);
    /// assert_eq!(rt; spans[2].range(), 5..6);
    /// ```
    pub fn split_all(&mut self, alloc: Global, haystack: &[u8]) -> Result<Vec<Span>, AllocError>
        ensures spans { IfOk result (λ spans. IsSplit self.old.choice haystack.now spans.items) }
        ensures inside { IfOk result (λ spans. All (IsSpanIn (length haystack.now)) spans.items) }
        ensures keeps { KeepsRegex self.old self.new }
    {
        let Ok(matches) = self.find_all(alloc, Input::new(haystack)) else {
            return Err(AllocError);
        };
        let spans = spans_around(alloc, haystack, &matches)?;
        Ok(spans)
    }

    /// Returns the first of the spans that [`Regex::split_all`] returns, at most `limit` of them. The last one goes to
    /// the end of the haystack. Returns none if `limit` is 0. Searches for no more matches than it needs.
    ///
    /// ```
    /// // regex of "[;/]+"
    /// let spans = regex.splitn_all(alloc, b"a;b//c", 2)?;
    /// assert_eq!(rt; spans.len(), 2);
    /// assert_eq!(rt; spans[1].range(), 2..6);
    /// ```
    pub fn splitn_all(
        &mut self,
        alloc: Global,
        haystack: &[u8],
        limit: usize,
    ) -> Result<Vec<Span>, AllocError>
        ensures none { limit ≡ 0 → IfOk result (λ spans. spans.items ≡ []) }
        ensures spans { 0 < limit → IfOk result (λ spans. IsSplitUpTo self.old.choice haystack.now limit spans.items) }
        ensures few { IfOk result (λ spans. length spans.items ≤ limit) }
        ensures inside { IfOk result (λ spans. All (IsSpanIn (length haystack.now)) spans.items) }
        ensures keeps { KeepsRegex self.old self.new }
    {
        if limit == 0 {
            return Ok(Vec::new(alloc));
        }
        let matches = self.first_matches(alloc, Input::new(haystack), limit - 1)?;
        let spans = spans_around(alloc, haystack, &matches)?;
        Ok(spans)
    }

    /// Returns the first matches of the input: as many as the count, or all that there are. Searches for no more
    /// matches than these. The only error is that allocation failed.
    ///
    /// ```
    /// // regex of "[0-9]+"
    /// let first = regex.first_matches(alloc, Input::new(b"1 and 23 and 4"), 2)?;
    /// assert_eq!(rt; first.len(), 2);
    /// assert_eq!(rt; first[1].range(), 6..8);
    /// ```
    pub fn first_matches(
        &mut self,
        alloc: Global,
        input: Input<'_>,
        count: usize,
    ) -> Result<Vec<Match>, AllocError>
        ensures first { IfOk result (λ found. AreFirstMatches self.old.choice.nfa (kind_in self.old.choice)
            (search_of input.entry).earliest (search_of input.entry) (map found_of found.items)) }
        ensures as_many { IfOk result (λ found. (length found.items ≡ count)
            ⊎ AreMatches self.old.choice.nfa (kind_in self.old.choice) (search_of input.entry).earliest
            (search_of input.entry) (map found_of found.items)) }
        ensures few { IfOk result (λ found. length found.items ≤ count) }
        ensures apart { IfOk result (λ found. AreDisjoint (search_of input.entry) None (map found_of found.items)) }
        ensures keeps { KeepsRegex self.old self.new }
    {
        let mut first = Vec::new(alloc);
        if count == 0 {
            return Ok(first);
        }
        for found in self.find_iter(input) {
            first.push(found)?;
            if first.len() == count {
                return Ok(first);
            }
        }
        Ok(first)
    }
}

/// Returns the spans before, between and after these matches.
#[tactic(auto, using(std::proofs::lemmas::Grind::common_steps))]
fn spans_around(alloc: Global, haystack: &[u8], matches: &[Match]) -> Result<Vec<Span>, AllocError>
    requires { AreDisjoint (whole haystack.now) None (map found_of matches.now) }
    ensures spans { IfOk result (λ spans. spans.items ≡ gap_spans 0 (length haystack.now) (map found_of matches.now)) }
    ensures inside { IfOk result (λ spans. All (IsSpanIn (length haystack.now)) spans.items) }
    ensures count { IfOk result (λ spans. length spans.items ≡ length matches.now + 1) }
{
    let mut spans = Vec::new(alloc);
    let mut start = 0;
    for found in matches {
        let end = found.start();
        spans.push(Span { start, end })?;
        start = found.end();
    }
    let end = haystack.len();
    spans.push(Span { start, end })?;
    Ok(spans)
}
