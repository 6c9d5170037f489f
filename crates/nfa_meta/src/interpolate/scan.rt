//! The parts of a template, read from its text.
ghost use Rattle.std.specs.Prelude.{◌≡◌, ◌↔◌, ◌+◌, ◌<◌, ◌≤◌, true, IfErr, IfOk, length, slice_index};
ghost use Rattle.std.specs.List.{AllWithin};
ghost use Rattle.regex_search_core.specs.PatternSets.{number_of};
ghost use Rattle.nfa_meta.specs.GroupNames.{IsWord};
ghost use Rattle.nfa_meta.specs.TemplateTexts.{BeginsName, Has, HasNo, IsBare, IsBraced, IsMistake, IsPart, dollar};
ghost use Rattle.nfa_meta.specs.TemplateTexts.{open_brace};

use super::name::{group_of, is_word};
use super::{Part, TemplateError};
use regex_search_core::{GroupInfo, PatternID};

/// A part of a template, and the offset after it in the text.
#[derive(Clone, Copy, Debug)]
pub(super) struct Piece<'t> {
    pub part: Part<'t>,
    pub end: usize,
}

/// A group that the text names, and the offset after the name.
#[derive(Clone, Copy, Debug)]
struct Named {
    group: usize,
    end: usize,
}

/// Returns the part that begins at this offset.
pub(super) fn piece_at<'t>(
    text: &'t [u8],
    at: usize,
    groups: &GroupInfo,
    pattern: PatternID,
) -> Result<Piece<'t>, TemplateError>
    requires { at < length text.now }
    ensures part { IfOk result (λ piece. IsPart groups.now (number_of pattern) text.now at piece.end piece.part) }
    ensures moves { IfOk result (λ piece. at < piece.end) }
    ensures within { IfOk result (λ piece. piece.end ≤ length text.now) }
    ensures mistake { IfErr result (IsMistake groups.now (number_of pattern) text.now) }
{
    if text[at] != b'$' {
        let end = find_byte(text, at, b'$');
        let part = Part::Text(&text[at..end]);
        return Ok(Piece { part, end });
    }
    let start = at + 1;
    let part = Part::Text(b"$");
    if start == text.len() {
        return Ok(Piece { part, end: start });
    }
    if text[start] == b'$' {
        let end = start + 1;
        return Ok(Piece { part, end });
    }
    if text[start] == b'{' {
        let named = braced_at(text, at, groups, pattern)?;
        let part = Part::Group(named.group);
        let end = named.end;
        return Ok(Piece { part, end });
    }
    if is_word(text[start]) {
        let named = bare_at(text, at, groups, pattern)?;
        let part = Part::Group(named.group);
        let end = named.end;
        return Ok(Piece { part, end });
    }
    Ok(Piece { part, end: start })
}

/// Returns the group whose name is in braces after the dollar at this offset.
fn braced_at(
    text: &[u8],
    at: usize,
    groups: &GroupInfo,
    pattern: PatternID,
) -> Result<Named, TemplateError>
    requires first { Has text.now at dollar }
    requires opening { Has text.now (at + 1) open_brace }
    ensures group { IfOk result (λ named.
        IsBraced groups.now (number_of pattern) text.now at named.end named.group) }
    ensures moves { IfOk result (λ named. at < named.end) }
    ensures within { IfOk result (λ named. named.end ≤ length text.now) }
    ensures mistake { IfErr result (IsMistake groups.now (number_of pattern) text.now) }
{
    let start = at + 2;
    let close = find_byte(text, start, b'}');
    if close == text.len() {
        return Err(TemplateError::Unclosed { dollar: at });
    }
    match group_of(groups, pattern, &text[start..close]) {
        Some(group) => Ok(Named {
            group,
            end: close + 1,
        }),
        None => Err(TemplateError::UnknownGroup { start, end: close }),
    }
}

/// Returns the group whose name is the longest one after the dollar at this offset.
fn bare_at(
    text: &[u8],
    at: usize,
    groups: &GroupInfo,
    pattern: PatternID,
) -> Result<Named, TemplateError>
    requires first { Has text.now at dollar }
    requires begins { BeginsName text.now (at + 1) }
    ensures group { IfOk result (λ named.
        IsBare groups.now (number_of pattern) text.now at named.end named.group) }
    ensures moves { IfOk result (λ named. at < named.end) }
    ensures within { IfOk result (λ named. named.end ≤ length text.now) }
    ensures mistake { IfErr result (IsMistake groups.now (number_of pattern) text.now) }
{
    let start = at + 1;
    let end = word_end(text, start);
    match group_of(groups, pattern, &text[start..end]) {
        Some(group) => Ok(Named { group, end }),
        None => Err(TemplateError::UnknownGroup { start, end }),
    }
}

/// Returns where the byte is first from an offset on, or the length of the text if it is nowhere.
fn find_byte(text: &[u8], from: usize, byte: u8) -> usize
    requires { from ≤ length text.now }
    ensures from { from ≤ result }
    ensures within { result ≤ length text.now }
    ensures before { HasNo text.now from result byte }
    ensures found { result < length text.now → slice_index text.now result ≡ byte }
{
    for end in from..text.len() {
        if is_same(text[end], byte) {
            return end;
        }
    }
    text.len()
}

/// Returns whether the bytes are the same. It is a function, since a loop that compares them in place takes minutes to
/// prove.
fn is_same(byte: u8, other: u8) -> bool
    ensures { result ≡ true ↔ byte ≡ other }
{
    byte == other
}

/// Returns the end of the run of letters, digits and underscores from an offset on.
fn word_end(text: &[u8], from: usize) -> usize
    requires { from ≤ length text.now }
    ensures from { from ≤ result }
    ensures within { result ≤ length text.now }
    ensures word { AllWithin IsWord text.now from result }
    ensures longest { result < length text.now → ¬ IsWord (slice_index text.now result) }
{
    for end in from..text.len() {
        if !is_word(text[end]) {
            return end;
        }
    }
    text.len()
}
