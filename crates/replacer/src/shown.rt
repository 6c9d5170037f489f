//! What is printed of a line.
ghost use Rattle.std.specs.Prelude.{◌≡◌, ◌-◌, ◌++◌, IfOk, List, OnOk, Some, length, option_map, ℕ};
ghost use Rattle.regex_hir.specs.Re.{Re};
ghost use Rattle.nfa_engines.specs.Paths.{is_utf8_empty};
ghost use Rattle.nfa_compiler.specs.Patterns.{PatternHit};
ghost use Rattle.nfa_meta.specs.RegexState.{KeepsRegex};
ghost use Rattle.replacer.specs.Fillings.{pieces_in};
ghost use Rattle.replacer.specs.Hits.{AreAllHits, SearchesFor, Sought};
ghost use Rattle.replacer.specs.Printed.{field_lines, left_after, left_by, limited, replaced_by, shown};
ghost use Rattle.replacer.specs.Separated.{fields_by, first_fields_by, texts};

use crate::action::Action;
use crate::fields::{split, splitn};
use crate::filling::{Filling, fill_all};
use crate::line::Line;
use crate::replace::captures_in;
use nfa_meta::Regex;
use std::alloc::{AllocError, Global};

/// What is printed of a line, and how many more matches may be replaced after it, if there is a limit.
#[derive(Drop)]
pub struct Shown {
    pub text: Vec<u8>,
    pub left: Option<usize>,
}

/// Returns what is printed of a line. At most `left` of its matches are replaced. The only error is that allocation
/// failed.
///
/// If the regex searches for patterns, the text is that of the hits of what the patterns mean.
pub fn show(
    alloc: Global,
    regex: &mut Regex,
    action: &Action<'_>,
    left: Option<usize>,
    line: Line<'_>,
) -> Result<Shown, AllocError>
    ensures text { IfOk result (λ made. (sought : Sought) (res : List Re) (hits : List PatternHit)
        → SearchesFor sought res regex.old.choice
        → AreAllHits res (is_utf8_empty regex.old.choice.nfa) line.entry.text.now hits
        → made.text.items ≡ shown regex.old.choice.nfa.groups action.now left line.entry.text.now
        line.entry.end.now hits) }
    ensures left { IfOk result (λ made. (sought : Sought) (res : List Re) (hits : List PatternHit)
        → SearchesFor sought res regex.old.choice
        → AreAllHits res (is_utf8_empty regex.old.choice.nfa) line.entry.text.now hits
        → made.left ≡ left_by action.now left hits) }
    ensures keeps { KeepsRegex regex.old regex.new }
{
    match action {
        Action::Replace(fillings) => {
            let made = show_replaced(alloc, regex, fillings, left, line)?;
            Ok(made)
        }
        Action::Split => {
            let text = show_fields(alloc, regex, line.text)?;
            Ok(Shown { text, left })
        }
        Action::SplitN(limit) => {
            let text = show_first_fields(alloc, regex, line.text, *limit)?;
            Ok(Shown { text, left })
        }
    }
}

/// Returns the line with what the fillings give in place of its first hits.
fn show_replaced(
    alloc: Global,
    regex: &mut Regex,
    fillings: &[Filling<'_>],
    left: Option<usize>,
    line: Line<'_>,
) -> Result<Shown, AllocError>
    ensures text { IfOk result (λ made. (sought : Sought) (res : List Re) (hits : List PatternHit)
        → SearchesFor sought res regex.old.choice
        → AreAllHits res (is_utf8_empty regex.old.choice.nfa) line.entry.text.now hits
        → made.text.items ≡ replaced_by regex.old.choice.nfa.groups (pieces_in fillings.now) line.entry.text.now
        (limited left hits) ++ line.entry.end.now) }
    ensures left { IfOk result (λ made. (sought : Sought) (res : List Re) (hits : List PatternHit)
        → SearchesFor sought res regex.old.choice
        → AreAllHits res (is_utf8_empty regex.old.choice.nfa) line.entry.text.now hits
        → made.left ≡ left_after left (length hits)) }
    ensures keeps { KeepsRegex regex.old regex.new }
{
    if let Some(0) = left {
        return unchanged(alloc, line);
    }
    let caught = captures_in(alloc, regex, line.text, left)?;
    let left = left_after(left, caught.len());
    let mut text = fill_all(alloc, line.text, fillings, caught)?;
    text.extend_from_slice(line.end)?;
    Ok(Shown { text, left })
}

/// Returns the line as it is, after which no match may be replaced.
fn unchanged(alloc: Global, line: Line<'_>) -> Result<Shown, AllocError>
    ensures text { IfOk result (λ made. made.text.items ≡ line.entry.text.now ++ line.entry.end.now) }
    ensures left { IfOk result (λ made. made.left ≡ Some 0) }
{
    let mut bytes = Vec::new(alloc);
    bytes.extend_from_slice(line.text)?;
    bytes.extend_from_slice(line.end)?;
    Ok(Shown {
        text: bytes,
        left: Some(0),
    })
}

/// Returns how many more matches may be replaced if this many were.
fn left_after(limit: Option<usize>, count: usize) -> Option<usize>
    ensures { result ≡ left_after limit count }
{
    match limit {
        Some(limit) => Some(limit.saturating_sub(count)),
        None => None,
    }
}

/// Returns a line for each field of the text.
fn show_fields(alloc: Global, regex: &mut Regex, text: &[u8]) -> Result<Vec<u8>, AllocError>
    ensures meant { IfOk result (λ lines. (sought : Sought) (res : List Re) (hits : List PatternHit)
        → SearchesFor sought res regex.old.choice → AreAllHits res (is_utf8_empty regex.old.choice.nfa) text.now hits
        → lines.items ≡ field_lines (fields_by text.now hits)) }
    ensures keeps { KeepsRegex regex.old regex.new }
{
    let fields = split(alloc, regex, text)?;
    let lines = lines_of(alloc, &fields)?;
    Ok(lines)
}

/// Returns a line for each of at most `limit` fields of the text.
fn show_first_fields(
    alloc: Global,
    regex: &mut Regex,
    text: &[u8],
    limit: usize,
) -> Result<Vec<u8>, AllocError>
    ensures meant { IfOk result (λ lines. (sought : Sought) (res : List Re) (hits : List PatternHit)
        → SearchesFor sought res regex.old.choice → AreAllHits res (is_utf8_empty regex.old.choice.nfa) text.now hits
        → lines.items ≡ field_lines (first_fields_by limit text.now hits)) }
    ensures keeps { KeepsRegex regex.old regex.new }
{
    let fields = splitn(alloc, regex, text, limit)?;
    let lines = lines_of(alloc, &fields)?;
    Ok(lines)
}

/// Returns these fields, a line for each.
fn lines_of(alloc: Global, fields: &[&[u8]]) -> Result<Vec<u8>, AllocError>
    ensures { IfOk result (λ lines. lines.items ≡ field_lines (texts fields.now)) }
{
    let mut lines = Vec::new(alloc);
    for field in fields {
        lines.extend_from_slice(field)?;
        lines.push(b'\n')?;
    }
    Ok(lines)
}
