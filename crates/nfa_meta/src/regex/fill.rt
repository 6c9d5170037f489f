//! A text with a template, filled by captures, in place of its matches.
ghost use Rattle.std.specs.Prelude.{◌≡◌, ◌<◌, All, IfErr, IfOk, None, length, map, take};
ghost use Rattle.regex_search_core.specs.Search.{search_of};
ghost use Rattle.nfa_search_base.specs.Runs.{CapturesInside, match_in};
ghost use Rattle.nfa_search_base.specs.Lists.{AreDisjoint};
ghost use Rattle.nfa_meta.specs.RegexState.{KeepsRegex};
ghost use Rattle.nfa_meta.specs.Filled.{AreFirstCaught, IsFilled, IsFilledUpTo};
ghost use Rattle.nfa_meta.specs.TemplateTexts.{AreParts, IsMistake};

use crate::interpolate::{Template, TemplateError};
use crate::regex::Regex;
use regex_search_core::{Captures, Input, PatternID};
use std::alloc::{AllocError, Global};

impl Regex {
    /// Reads a template, with the groups of the first pattern.
    ///
    /// Fails as [`Template::parse`] does.
    ///
    /// ```
    /// // regex of r"(\w+) (?<last>\w+)"
    /// let template = regex.parse_template(alloc, b"$last, $1")?;
    /// assert_eq!(rt; template.parts.len(), 3);
    /// assert!(rt; regex.parse_template(alloc, b"$first").is_err());
    /// ```
    pub fn parse_template<'t>(
        &self,
        alloc: Global,
        text: &'t [u8],
    ) -> Result<Template<'t>, TemplateError>
        ensures parts { IfOk result (λ template.
            AreParts self.now.choice.nfa.groups 0 text.now template.parts.items (length text.now)) }
        ensures mistake { IfErr result (IsMistake self.now.choice.nfa.groups 0 text.now) }
    {
        let Some(first) = PatternID::new(0) else {
            unreachable!()
        };
        Template::parse(alloc, text, self.group_info(), first)
    }

    /// Returns the captures of the first matches of the input, each with all groups of the NFA: as many as the count,
    /// or all that there are. The only error is that allocation failed.
    ///
    /// ```
    /// // regex of "foo(?<n>[0-9]+)"
    /// let first = regex.first_captures(alloc, Input::new(b"foo1 foo12 foo123"), 2)?;
    /// assert_eq!(rt; first.len(), 2);
    /// let digits = first[1].get_group_by_name("n");
    /// assert_eq!(rt; digits, Some(Span { start: 8, end: 10 }));
    /// ```
    pub fn first_captures(
        &mut self,
        alloc: Global,
        input: Input<'_>,
        count: usize,
    ) -> Result<Vec<Captures>, AllocError>
        ensures first { IfOk result (λ caught.
            AreFirstCaught self.old.choice (search_of input.entry) count caught.items) }
        ensures inside { IfOk result (λ caught. All (CapturesInside (search_of input.entry)) caught.items) }
        ensures apart { IfOk result (λ caught.
            AreDisjoint (search_of input.entry) None (map match_in caught.items)) }
        ensures keeps { KeepsRegex self.old self.new }
    {
        let Ok(caught) = self.captures_all(alloc, input) else {
            return Err(AllocError);
        };
        Ok(first_of(caught, count))
    }

    /// Returns the haystack with the template, filled by the captures of each match, in place of the match. The only
    /// error is that allocation failed.
    ///
    /// ```
    /// // regex of "(?<y>[0-9]{4})-(?<m>[0-9]{2})"
    /// let template = regex.parse_template(alloc, b"$m/$y")?;
    /// let output = regex.replace_all_template(alloc, b"2026-11, 2027-01", &template)?;
    /// assert_eq!(rt; output.as_slice(), b"11/2026, 01/2027".as_slice());
    /// ```
    pub fn replace_all_template(
        &mut self,
        alloc: Global,
        haystack: &[u8],
        template: &Template<'_>,
    ) -> Result<Vec<u8>, AllocError>
        ensures filled { IfOk result (λ output.
            IsFilled self.old.choice haystack.now template.now.parts.items output.items) }
        ensures keeps { KeepsRegex self.old self.new }
    {
        self.replace_all_with(alloc, haystack, |captures, output| {
            template.fill(haystack, captures, output)
        })
    }

    /// Returns the haystack with the template, filled by their captures, in place of its first matches: at most
    /// `limit`, and all if `limit` is 0. The only error is that allocation failed.
    ///
    /// ```
    /// // regex of "[0-9]+"
    /// let template = regex.parse_template(alloc, b"<$0>")?;
    /// let output = regex.replacen_template(alloc, b"1 and 23", 1, &template)?;
    /// assert_eq!(rt; output.as_slice(), b"<1> and 23".as_slice());
    /// ```
    pub fn replacen_template(
        &mut self,
        alloc: Global,
        haystack: &[u8],
        limit: usize,
        template: &Template<'_>,
    ) -> Result<Vec<u8>, AllocError>
        ensures all { limit ≡ 0 → IfOk result (λ output.
            IsFilled self.old.choice haystack.now template.now.parts.items output.items) }
        ensures first { 0 < limit → IfOk result (λ output.
            IsFilledUpTo self.old.choice haystack.now limit template.now.parts.items output.items) }
        ensures keeps { KeepsRegex self.old self.new }
    {
        if limit == 0 {
            return self.replace_all_template(alloc, haystack, template);
        }
        self.replacen_with(alloc, haystack, limit, |captures, output| {
            template.fill(haystack, captures, output)
        })
    }
}

/// Returns the first of these captures: as many as the count, or all.
fn first_of(mut caught: Vec<Captures>, count: usize) -> Vec<Captures>
    ensures { result.items ≡ take count caught.items }
{
    caught.truncate(count);
    caught
}
