//! The line of a token, and of a stretch at which no token starts.
ghost use Rattle.std.specs.Prelude.{◌≡◌, ◌≤◌, ◌++◌, IfOk, OnOk, codes, if◌then◌else◌, length, option_map};
ghost use Rattle.std.specs.Prelude.{slice_get, slice_range, string_bytes};
ghost use Rattle.std.specs.Fmt.{decimal};
ghost use Rattle.std.specs.Io.KnownBytes.{Appends};
ghost use Rattle.std.specs.Str.Lossy.{utf8_lossy};
ghost use Rattle.lexer.specs.Positions.{first_position};
ghost use Rattle.lexer.specs.Printed.{error_line, kind_line, named_line, object_line, pattern_line, position_members};
ghost use Rattle.lexer.specs.Printed.{rule_line, shown_place, shown_position, shown_span, shown_text};
ghost use Rattle.lexer.specs.Printed.{shown_unless_skipped};
ghost use Rattle.lexer.specs.Lexed.{piece_found};
ghost use Rattle.json.specs.Print.{quoted};
ghost use Rattle.regex_search_core.specs.PatternSets.{number_of};

use crate::lexer::Piece;
use crate::names::is_in;
use crate::position::Position;
use crate::report::Report;
use crate::rules::Rule;
use regex_search_core::{PatternID, Span};
use serde_json::Value;
use std::alloc::{AllocError, Global};
use std::io;
use std::io::Write;

/// What is shown of a token besides its name.
#[derive(Clone, Copy)]
pub struct Shown<'t> {
    pub span: Span,
    /// The position of its start, if positions are printed.
    pub position: Option<Position>,
    pub text: &'t [u8],
}

/// The name of a stretch at which no token starts.
const ERROR: &str = "error";

/// Returns the position of the start of a text, if positions are printed.
pub fn first_shown(positions: bool) -> Option<Position>
    ensures { result ≡ (if positions then Some first_position else None) }
{
    if positions {
        Some(Position::first())
    } else {
        None
    }
}

/// Returns what is shown of the piece of the text that has this span, and starts at this position.
pub fn shown_at<'t>(text: &'t [u8], span: Span, position: Option<Position>) -> Shown<'t>
    requires start { span.start ≤ span.end }
    requires within { span.end ≤ length text.now }
    ensures text { result.text.now ≡ slice_range text.now span.start span.end }
    ensures span { result.span ≡ span }
    ensures position { result.position ≡ position }
{
    Shown {
        span,
        position,
        text: &text[span.start..span.end],
    }
}

impl Report<'_, '_, '_> {
    /// Writes the line of the piece, if pieces of its kind are printed.
    pub fn write_piece<W: Write>(
        &self,
        out: &mut W,
        piece: Piece,
        shown: &Shown<'_>,
    ) -> io::Result<()>
        ensures { OnOk result (Appends (W.contents out.old) (W.contents out.new)
            (kind_line self.now.style self.now.rules.now (piece_found piece).pattern shown.now.span shown.now.position
            shown.now.text.now)) }
    {
        match piece {
            Piece::Token(token) => self.write_token(out, token.pattern, shown),
            Piece::Error(_) => self.write_error(out, shown),
        }
    }

    /// Writes the line of a stretch at which no token starts.
    fn write_error<W: Write>(&self, out: &mut W, shown: &Shown<'_>) -> io::Result<()>
        ensures { OnOk result (Appends (W.contents out.old) (W.contents out.new)
            (error_line self.now.style shown.now.span shown.now.position shown.now.text.now)) }
    {
        if self.style.json {
            return write_object(self.alloc, out, ERROR, shown);
        }
        write_named(out, ERROR, shown)
    }

    /// Writes the line of a token of this pattern, if tokens of its rule are printed.
    pub fn write_token<W: Write>(
        &self,
        out: &mut W,
        pattern: PatternID,
        shown: &Shown<'_>,
    ) -> io::Result<()>
        ensures { OnOk result (Appends (W.contents out.old) (W.contents out.new)
            (pattern_line self.now.style self.now.rules.now (number_of pattern) shown.now.span shown.now.position
            shown.now.text.now)) }
    {
        match rule_at(self.rules, pattern.as_usize()) {
            Some(rule) => self.write_unless_skipped(out, rule, shown),
            None => write_named(out, "?", shown),
        }
    }

    /// Writes the line of a token of this rule, if tokens of the rule are printed.
    #[tactic(auto, using(crate::proofs::PrintedLemmas::writes))]
    fn write_unless_skipped<W: Write>(
        &self,
        out: &mut W,
        rule: &Rule<'_>,
        shown: &Shown<'_>,
    ) -> io::Result<()>
        ensures { OnOk result (Appends (W.contents out.old) (W.contents out.new)
            (shown_unless_skipped self.now.style rule.now shown.now.span shown.now.position shown.now.text.now)) }
    {
        if is_in(self.style.skip, rule.name) {
            return Ok(());
        }
        if self.style.json {
            return write_object(self.alloc, out, rule.name, shown);
        }
        write_rule(out, rule, shown)
    }
}

/// Returns the rule of this number.
fn rule_at<'s, 't>(rules: &'s [Rule<'t>], number: usize) -> Option<&'s Rule<'t>>
    ensures { option_map (λ rule. rule.now) result ≡ slice_get rules.now number }
{
    rules.get(number)
}

/// Writes a token as a JSON object. Bytes of its text that are not UTF-8 are replaced by U+FFFD.
#[tactic(auto, using(crate::proofs::PrintedLemmas::writes))]
fn write_object<W: Write>(
    alloc: Global,
    out: &mut W,
    name: &str,
    shown: &Shown<'_>,
) -> io::Result<()>
    ensures { OnOk result (Appends (W.contents out.old) (W.contents out.new)
        (object_line name.now shown.now.span shown.now.position shown.now.text.now)) }
{
    let kind = quoted_lossy(alloc, name.as_bytes())?;
    let text = quoted_lossy(alloc, shown.text)?;
    write_object_head(out, kind.as_str(), shown.span)?;
    write_members(out, shown.position)?;
    write_text_member(out, text.as_str())?;
    Ok(())
}

/// Writes the beginning of an object: this kind, and the span.
fn write_object_head<W: Write>(out: &mut W, kind: &str, span: Span) -> io::Result<()>
    ensures { OnOk result (Appends (W.contents out.old) (W.contents out.new)
        (codes "{\"kind\":" ++ kind.now ++ codes ",\"start\":" ++ decimal span.start ++ codes ",\"end\":"
        ++ decimal span.end)) }
{
    let start = span.start;
    let end = span.end;
    write!(out, "{{\"kind\":{kind},\"start\":{start},\"end\":{end}")
}

/// Writes the last member, whose value is this text, and the end of the object.
fn write_text_member<W: Write>(out: &mut W, text: &str) -> io::Result<()>
    ensures { OnOk result (Appends (W.contents out.old) (W.contents out.new)
        (codes ",\"text\":" ++ text.now ++ codes "}\n")) }
{
    writeln!(out, ",\"text\":{text}}}")
}

/// Writes the members of the position, if it is given.
fn write_members<W: Write>(out: &mut W, position: Option<Position>) -> io::Result<()>
    ensures { OnOk result (Appends (W.contents out.old) (W.contents out.new) (position_members position)) }
{
    match position {
        Some(Position { line, column }) => write!(out, ",\"line\":{line},\"column\":{column}"),
        None => Ok(()),
    }
}

/// Returns the bytes as a text in quotes, with the escapes of JSON. Those that are not UTF-8 are replaced by U+FFFD.
fn quoted_lossy(alloc: Global, bytes: &[u8]) -> Result<String, AllocError>
    ensures { IfOk result (λ made. string_bytes made ≡ quoted (utf8_lossy bytes.now)) }
{
    quoted(alloc, String::from_utf8_lossy(alloc, bytes)?)
}

/// Returns the text in quotes, with the escapes of JSON.
fn quoted(alloc: Global, text: String) -> Result<String, AllocError>
    ensures { IfOk result (λ made. string_bytes made ≡ quoted (string_bytes text)) }
{
    Value::String(text).to_string(alloc)
}

/// Writes the name of the rule, the place, and the text, if it is not hidden.
#[tactic(auto, using(crate::proofs::PrintedLemmas::writes))]
fn write_rule<W: Write>(out: &mut W, rule: &Rule<'_>, shown: &Shown<'_>) -> io::Result<()>
    ensures { OnOk result (Appends (W.contents out.old) (W.contents out.new)
        (rule_line rule.now shown.now.span shown.now.position shown.now.text.now)) }
{
    write_place(out, rule.name, shown.span, shown.position)?;
    if rule.hidden {
        return out.write_all(b"\n");
    }
    write_text(out, shown.text)
}

#[tactic(auto, using(crate::proofs::PrintedLemmas::writes))]
fn write_named<W: Write>(out: &mut W, name: &str, shown: &Shown<'_>) -> io::Result<()>
    ensures { OnOk result (Appends (W.contents out.old) (W.contents out.new)
        (named_line name.now shown.now.span shown.now.position shown.now.text.now)) }
{
    write_place(out, name, shown.span, shown.position)?;
    write_text(out, shown.text)
}

/// Writes the name, the span, and the position if it is given.
#[tactic(auto, using(crate::proofs::PrintedLemmas::writes))]
fn write_place<W: Write>(
    out: &mut W,
    name: &str,
    span: Span,
    position: Option<Position>,
) -> io::Result<()>
    ensures { OnOk result (Appends (W.contents out.old) (W.contents out.new) (shown_place name.now span position)) }
{
    write_span(out, name, span)?;
    write_position(out, position)
}

fn write_span<W: Write>(out: &mut W, name: &str, span: Span) -> io::Result<()>
    ensures { OnOk result (Appends (W.contents out.old) (W.contents out.new) (shown_span name.now span)) }
{
    let start = span.start;
    let end = span.end;
    write!(out, "{name} {start}..{end}")
}

/// Writes a space and the position, if it is given.
fn write_position<W: Write>(out: &mut W, position: Option<Position>) -> io::Result<()>
    ensures { OnOk result (Appends (W.contents out.old) (W.contents out.new) (shown_position position)) }
{
    match position {
        Some(Position { line, column }) => write!(out, " {line}:{column}"),
        None => Ok(()),
    }
}

/// Writes a space, the text, and the end of the line.
#[tactic(auto, using(crate::proofs::PrintedLemmas::writes))]
fn write_text<W: Write>(out: &mut W, text: &[u8]) -> io::Result<()>
    ensures { OnOk result (Appends (W.contents out.old) (W.contents out.new) (shown_text text.now)) }
{
    out.write_all(b" ")?;
    write_line(out, text)
}

#[tactic(auto, using(crate::proofs::PrintedLemmas::writes))]
fn write_line<W: Write>(out: &mut W, line: &[u8]) -> io::Result<()>
    ensures { OnOk result (Appends (W.contents out.old) (W.contents out.new) (line.now ++ codes "\n")) }
{
    out.write_all(line)?;
    out.write_all(b"\n")
}
