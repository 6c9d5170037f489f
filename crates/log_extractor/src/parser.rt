//! The fields of a line.
ghost use Rattle.std.specs.Prelude.{◌≡◌, IfOk, IfSome, None, false, length, map, option_map, string_bytes};
ghost use Rattle.regex_search_core.specs.Search.{whole};
ghost use Rattle.regex_search_core.specs.Slots.{group_span};
ghost use Rattle.regex_search_core.specs.declared.search.MatchKind.TheVariants.{LeftmostFirst};
ghost use Rattle.nfa_paths.specs.Paths.{IsAnswer};
ghost use Rattle.nfa_engines.specs.Lists.{IsSpanInside, SpansInside};
ghost use Rattle.nfa_meta.specs.RegexState.{KeepsRegex};
ghost use Rattle.log_extractor.specs.Fields.{cut, fields_now, from_start, group_of};
ghost use Rattle.log_extractor.specs.Several.{field_named};

use crate::names::is_name;
use crate::pattern::{Column, PatternError, columns, compile};
use nfa_compiler::laws;
use nfa_meta::Regex;
use regex_search_core::{Anchored, Captures, Input, Span};
use std::alloc::{AllocError, Global};
use std::marker::Model;

/// Finds the fields of lines. It owns a regex, and the captures that a search fills.
///
/// A contract sees the text of the pattern.
#[derive(Drop)]
pub struct Parser<'p> {
    alloc: Global,
    pattern: &'p str,
    columns: Vec<Column>,
    regex: Regex,
    captures: Captures,
}

impl<'p> Model for Parser<'p> {
    ghost use Rattle.std.specs.Prelude.{◌≡◌, ◌∷◌, [], List, length, map, ℕ};
    ghost use Rattle.regex_search_core.specs.Groups.{groups_at, slot_count};
    ghost use Rattle.nfa_meta.specs.Built.{IsRegexOf};
    ghost use Rattle.log_extractor.specs.Fields.{group_of, named_groups};

    ghost Value = { List ℕ };

    ghost view = { λ p. p.pattern.now };

    ghost invariant = { λ p. IsRegexOf (p.pattern.now ∷ []) p.regex × (p.captures.groups ≡ p.regex.choice.nfa.groups)
        × (length p.captures.slots ≡ slot_count p.regex.choice.nfa.groups)
        × (map group_of p.columns.items ≡ named_groups 1 (groups_at p.regex.choice.nfa.groups 0)) };
}

impl<'p> Parser<'p> {
    ghost use Rattle.std.specs.Prelude.{◌≢◌, [], IfErr, OnOk};
    ghost use Rattle.log_extractor.specs.Fields.{IsPatternMistake, IsLinePattern, LinePattern, columns_of, group_of};
    ghost use Rattle.std.specs.Prelude.{string_bytes};
    ghost use Rattle.log_extractor.specs.Fields.{row};
    ghost use Rattle.log_extractor.specs.Several.{field_named};

    /// Makes a parser of lines of this pattern. Its columns are the named groups, in the order of their numbers.
    ///
    /// Fails if the text is not a pattern, if the pattern is too large or has no named group, or if allocation fails.
    pub fn new(alloc: Global, pattern: &'p str) -> Result<Parser<'p>, PatternError>
        ensures pattern { IfOk result (λ parser. parser ≡ pattern.now) }
        ensures columns { OnOk result ((p : LinePattern) → IsLinePattern pattern.now p → columns_of p ≢ []) }
        ensures mistake { IfErr result (IsPatternMistake pattern.now) }
    {
        laws::groups_are_those_of_texts();
        let regex = compile(alloc, pattern)?;
        let columns = columns(alloc, pattern)?;
        if columns.is_empty() {
            return Err(PatternError::NoColumns);
        }
        let Ok(captures) = regex.create_captures(alloc) else {
            return Err(PatternError::Memory);
        };
        Ok(Parser {
            alloc,
            pattern,
            columns,
            regex,
            captures,
        })
    }

    /// Returns the columns.
    pub fn columns(&self) -> &[Column]
        ensures { (p : LinePattern) → IsLinePattern self.now p → map group_of result.now ≡ columns_of p }
    {
        laws::groups_are_those_of_texts();
        &self.columns
    }

    /// Returns the fields of the line, one for each column: the text that the match last wrote for the group. A field
    /// is `None` if the match wrote nothing for its group. Returns `None` if the pattern does not match the line from
    /// its start. The only error is that allocation failed.
    pub fn parse_line<'l>(
        &mut self,
        line: &'l [u8],
    ) -> Result<Option<Vec<Option<&'l [u8]>>>, AllocError>
        ensures fields { IfOk result (λ found. (p : LinePattern) → IsLinePattern self.old p
            → option_map (λ fields. fields_now fields.items) found ≡ row p line.now) }
        ensures kept { self.new ≡ self.old }
    {
        laws::searches_find_texts();
        laws::groups_are_those_of_texts();
        search_line(&mut self.regex, line, &mut self.captures);
        let fields = cut_fields(self.alloc, line, &self.captures, &self.columns)?;
        Ok(fields)
    }

    /// Returns the field of the line in the first column of this name: it is `None` if the match wrote nothing for the
    /// group, or if no column has the name. Returns `None` if the pattern does not match the line from its start.
    pub fn parse_field<'l>(&mut self, line: &'l [u8], name: &String) -> Option<Option<&'l [u8]>>
        ensures field { (p : LinePattern) → IsLinePattern self.old p
            → option_map (option_map (λ text. text.now)) result
            ≡ option_map (λ fields. field_named (columns_of p) fields (string_bytes name.now)) (row p line.now) }
        ensures kept { self.new ≡ self.old }
    {
        laws::searches_find_texts();
        laws::groups_are_those_of_texts();
        search_line(&mut self.regex, line, &mut self.captures);
        if !self.captures.is_match() {
            return None;
        }
        Some(cut_named(line, &self.captures, &self.columns, name))
    }
}

/// Searches the line from its start.
fn search_line(regex: &mut Regex, line: &[u8], captures: &mut Captures)
    requires { regex.old.choice.match_kind ≡ None }
    ensures answer { IsAnswer regex.old.choice.nfa LeftmostFirst false (from_start line.now) captures.new.pattern
        captures.new.slots }
    ensures spans { SpansInside (whole line.now) captures.new }
    ensures groups { captures.new.groups ≡ captures.old.groups }
    ensures count { length captures.new.slots ≡ length captures.old.slots }
    ensures keeps { KeepsRegex regex.old regex.new }
{
    regex.search_captures(&Input::new(line).anchored(Anchored::Yes), captures);
}

/// Returns what the captures give for the first column of this name, or `None` if no column has it.
fn cut_named<'l>(
    line: &'l [u8],
    captures: &Captures,
    columns: &[Column],
    name: &String,
) -> Option<&'l [u8]>
    requires { SpansInside (whole line.now) captures.now }
    ensures { option_map (λ text. text.now) result ≡ field_named (map group_of columns.now)
        (map (λ column. cut line.now (group_span captures.now column.group)) columns.now) (string_bytes name.now) }
{
    for column in columns {
        if is_name(&column.name, name.as_str()) {
            return cut_field(line, captures, column.group);
        }
    }
    None
}

/// Returns what the captures give for each column, or `None` if they are those of no match.
fn cut_fields<'l>(
    alloc: Global,
    line: &'l [u8],
    captures: &Captures,
    columns: &[Column],
) -> Result<Option<Vec<Option<&'l [u8]>>>, AllocError>
    requires { SpansInside (whole line.now) captures.now }
    ensures { IfOk result (λ found. option_map (λ fields. fields_now fields.items) found
        ≡ option_map (λ _. map (λ column. cut line.now (group_span captures.now column.group)) columns.now)
        captures.now.pattern) }
{
    if !captures.is_match() {
        return Ok(None);
    }
    let mut fields = Vec::with_capacity(alloc, columns.len())?;
    for column in columns {
        fields.push(cut_field(line, captures, column.group))?;
    }
    Ok(Some(fields))
}

/// Returns what the captures give for a group.
fn cut_field<'l>(line: &'l [u8], captures: &Captures, group: usize) -> Option<&'l [u8]>
    requires { SpansInside (whole line.now) captures.now }
    ensures { option_map (λ field. field.now) result ≡ cut line.now (group_span captures.now group) }
{
    text_of(line, captures.get_group(group))
}

/// Returns the bytes of the span, if there is one.
fn text_of<'l>(line: &'l [u8], span: Option<Span>) -> Option<&'l [u8]>
    requires { IfSome span (IsSpanInside (whole line.now)) }
    ensures { option_map (λ field. field.now) result ≡ cut line.now span }
{
    let span = span?;
    Some(&line[span.start..span.end])
}
