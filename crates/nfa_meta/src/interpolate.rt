//! Replacement strings: templates that the groups of a match fill.
//!
//! ```
//! // regex of r"(\w+) (?<last>\w+)"
//! let template = regex.parse_template(alloc, b"$last, $1")?;
//! let output = regex.replace_all_template(alloc, b"Bilbo Baggins", &template)?;
//! assert_eq!(rt; output.as_slice(), b"Baggins, Bilbo".as_slice());
//! ```
ghost use Rattle.std.specs.Prelude.{◌≡◌, ◌≤◌, ◌++◌, All, IfErr, IfOk, None, OnOk, length, map, slice_range};
ghost use Rattle.regex_search_core.specs.PatternSets.{number_of};
ghost use Rattle.regex_search_core.specs.Search.{whole};
ghost use Rattle.nfa_search_base.specs.Runs.{CapturesInside, match_in};
ghost use Rattle.nfa_search_base.specs.Lists.{AreDisjoint};
ghost use Rattle.nfa_meta.specs.Filled.{filled_from};
ghost use Rattle.nfa_meta.specs.Templates.{filled, part_text};
ghost use Rattle.nfa_meta.specs.TemplateTexts.{AreParts, IsMistake};

mod name;
mod scan;

use regex_search_core::{Captures, GroupInfo, PatternID};
use scan::piece_at;
use std::alloc::{AllocError, AllocFailed, Global};
use thiserror::Error;

/// The reason why a text is not a template.
#[derive(Clone, Copy, Debug, PartialEq, Eq, Error)]
pub enum TemplateError {
    /// Allocation failed.
    #[error("out of memory")]
    Memory,
    /// The pattern has no group of the number or name between these two offsets.
    #[error("bytes {start} to {end} of the template name no group of the pattern; a dollar is written $$")]
    UnknownGroup { start: usize, end: usize },
    /// The brace after the dollar at this offset is not closed.
    #[error("the brace after the dollar at byte {dollar} of the template is not closed")]
    Unclosed { dollar: usize },
}

impl<T: Drop> From<AllocFailed<T>> for TemplateError {
    ghost use Rattle.std.specs.Prelude.{◌≡◌};
    ghost use Rattle.nfa_meta.specs.declared.interpolate.TemplateError.TheVariants as error;

    ghost from_gives = { λ _ made. made ≡ error.Memory };

    fn from(_: AllocFailed<T>) -> TemplateError {
        TemplateError::Memory
    }
}

/// A part of a template.
#[derive(Clone, Copy, Debug, PartialEq, Eq)]
pub enum Part<'t> {
    /// These bytes.
    Text(&'t [u8]),
    /// The text of the group of this number, or nothing if the group took no part in the match.
    Group(usize),
}

/// A replacement string: a text in which `$1`, `$name` and `${name}` are the texts of groups, and `$$` is a dollar.
///
/// A name without braces is the longest run of letters, digits and underscores: `$1a` is the group `1a`, and `${1}a` is
/// the first group and an `a`. `$0` is the match. A dollar before anything else is a dollar. The parts borrow from the
/// text.
#[derive(Debug, Drop)]
pub struct Template<'t> {
    pub parts: Vec<Part<'t>>,
}

impl<'t> Template<'t> {
    /// Reads a template, with the groups of this pattern. [`Regex::parse_template`](crate::Regex::parse_template) is
    /// the same with the groups of a regex.
    ///
    /// A part has the number of its group. So a match of another pattern fills in its own group of that number, or
    /// nothing if it has none.
    ///
    /// Fails if the text names a group that the pattern does not have, if a brace is not closed, or if allocation
    /// fails.
    ///
    /// ```
    /// // regex of r"(\w+) (?<last>\w+)"
    /// let pattern = PatternID::new(0).expect(rt, "the first pattern");
    /// let template = Template::parse(alloc, b"$last, $1", regex.group_info(), pattern)?;
    /// assert_eq!(rt; template.parts.len(), 3);
    /// ```
    pub fn parse(
        alloc: Global,
        text: &'t [u8],
        groups: &GroupInfo,
        pattern: PatternID,
    ) -> Result<Template<'t>, TemplateError>
        ensures parts { IfOk result (λ template.
            AreParts groups.now (number_of pattern) text.now template.parts.items (length text.now)) }
        ensures mistake { IfErr result (IsMistake groups.now (number_of pattern) text.now) }
    {
        let mut parts = Vec::new(alloc);
        let mut at = 0;
        while at < text.len() {
            let piece = piece_at(text, at, groups, pattern)?;
            parts.push(piece.part)?;
            at = piece.end;
        }
        Ok(Template { parts })
    }

    /// Appends the template, filled by these captures of a match of the haystack. The only error is that allocation
    /// failed.
    ///
    /// Requires captures whose spans are in the haystack, as searches of the haystack return them.
    ///
    /// ```
    /// // regex of "(?<y>[0-9]{4})-(?<m>[0-9]{2})"
    /// let template = regex.parse_template(alloc, b"$m/$y")?;
    /// let mut captures = regex.create_captures(alloc)?;
    /// regex.captures(Input::new(b"2026-11"), &mut captures);
    /// let mut output = Vec::new(alloc);
    /// template.fill(b"2026-11", &captures, &mut output)?;
    /// assert_eq!(rt; output.as_slice(), b"11/2026".as_slice());
    /// ```
    pub fn fill(
        &self,
        haystack: &[u8],
        captures: &Captures,
        output: &mut Vec<u8>,
    ) -> Result<(), AllocError>
        requires { CapturesInside (whole haystack.now) captures.now }
        ensures { OnOk result (output.new.items
            ≡ output.old.items ++ filled haystack.now captures.now self.now.parts.items) }
    {
        for part in &self.parts {
            output.extend_from_slice(part_text(part, haystack, captures))?;
        }
        Ok(())
    }

    /// Returns the haystack with the template, filled by these captures, in place of the match of each. The only error
    /// is that allocation failed.
    ///
    /// Requires captures of matches of the haystack that do not overlap, from left to right, as
    /// [`Regex::captures_all`](crate::Regex::captures_all) and
    /// [`Regex::first_captures`](crate::Regex::first_captures) return them.
    ///
    /// ```
    /// // regex of "[0-9]+"
    /// let template = regex.parse_template(alloc, b"<$0>")?;
    /// let caught = regex.captures_all(alloc, Input::new(b"1 and 23"))?;
    /// let output = template.fill_all(alloc, b"1 and 23", caught)?;
    /// assert_eq!(rt; output.as_slice(), b"<1> and <23>".as_slice());
    /// ```
    #[tactic(auto, using(std::proofs::lemmas::List::Elements::recursion_from_All))]
    pub fn fill_all(
        &self,
        alloc: Global,
        haystack: &[u8],
        caught: Vec<Captures>,
    ) -> Result<Vec<u8>, AllocError>
        requires inside { All (CapturesInside (whole haystack.now)) caught.items }
        requires apart { AreDisjoint (whole haystack.now) None (map match_in caught.items) }
        ensures { IfOk result (λ output. output.items ≡ filled_from haystack.now self.now.parts.items 0 caught.items) }
    {
        let mut output = Vec::new(alloc);
        let mut from = 0;
        for captures in caught {
            from = copy_to_match(haystack, from, &captures, &mut output)?;
            self.fill(haystack, &captures, &mut output)?;
        }
        output.extend_from_slice(&haystack[from..])?;
        Ok(output)
    }
}

/// Appends the haystack from an offset to the match of these captures. Returns the end of the match.
pub(crate) fn copy_to_match(
    haystack: &[u8],
    from: usize,
    captures: &Captures,
    output: &mut Vec<u8>,
) -> Result<usize, AllocError>
    requires inside { CapturesInside (whole haystack.now) captures.now }
    requires before { from ≤ (match_in captures.now).start }
    ensures output { OnOk result (output.new.items
        ≡ output.old.items ++ slice_range haystack.now from (match_in captures.now).start) }
    ensures end { IfOk result (λ end. end ≡ (match_in captures.now).end) }
{
    let Some(found) = captures.get_match() else {
        unreachable!()
    };
    output.extend_from_slice(&haystack[from..found.start()])?;
    Ok(found.end())
}

/// Returns the text of the part for a match with these captures.
fn part_text<'p>(part: &Part<'p>, haystack: &'p [u8], captures: &Captures) -> &'p [u8]
    requires { CapturesInside (whole haystack.now) captures.now }
    ensures { result.now ≡ part_text haystack.now captures.now part.now }
{
    match *part {
        Part::Text(text) => text,
        Part::Group(group) => match captures.get_group(group) {
            Some(span) => &haystack[span.start..span.end],
            None => b"",
        },
    }
}
