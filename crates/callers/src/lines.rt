//! The lines of a text, and those that match.
ghost use Rattle.std.specs.Prelude.{◌≡◌, ◌≤◌, All, IfOk, length};
ghost use Rattle.std.specs.List.{filter};
ghost use Rattle.callers.specs.Lines.{AreLines, AreThoseThatMatch, IsLine, IsLineEnd, matches};
ghost use Rattle.nfa_choice.specs.ChoiceState.{KeepsEngines};

use nfa_choice::choose::Choice;
use nfa_engines::Input;
use std::alloc::{AllocError, Global};

/// Where a line lies in the text, without the line feed at its end.
#[derive(Clone, Copy, Debug, PartialEq, Eq)]
pub struct Line {
    pub start: usize,
    pub end: usize,
}

/// Where the line ends that starts here: at the next line feed, or where the text does.
fn line_end(text: &[u8], start: usize) -> usize
    requires { start ≤ length text.now }
    ensures { IsLineEnd text.now start result }
{
    for end in start..text.len() {
        if text[end] == b'\n' {
            return end;
        }
    }
    text.len()
}

/// The lines of the text, in order. Behind a line feed at its end none starts.
pub fn lines_of(alloc: Global, text: &[u8]) -> Result<Vec<Line>, AllocError>
    ensures all { IfOk result (λ lines. AreLines text.now lines.items) }
    ensures each { IfOk result (λ lines. All (IsLine text.now) lines.items) }
{
    let mut lines = Vec::new(alloc);
    let mut start = 0;
    while start < text.len() {
        let end = line_end(text, start);
        lines.push(Line { start, end })?;
        start = end + 1;
    }
    Ok(lines)
}

/// Those of these lines of which a search finds a match, in order.
fn matching(
    alloc: Global,
    choice: &mut Choice,
    text: &[u8],
    lines: &[Line],
) -> Result<Vec<Line>, AllocError>
    requires { All (IsLine text.now) lines.now }
    ensures picked { IfOk result (λ picked. picked.items ≡ filter (matches choice.old text.now) lines.now) }
    ensures keeps { KeepsEngines choice.old choice.new }
{
    let mut picked = Vec::new(alloc);
    for line in lines {
        if choice.is_match(Input::new(&text[line.start..line.end])) {
            picked.push(*line)?;
        }
    }
    Ok(picked)
}

/// The lines of the text of which a search finds a match: exactly these, in order.
pub fn matching_lines(
    alloc: Global,
    choice: &mut Choice,
    text: &[u8],
) -> Result<Vec<Line>, AllocError>
    ensures found { IfOk result (λ found. AreThoseThatMatch choice.old text.now found.items) }
    ensures keeps { KeepsEngines choice.old choice.new }
{
    let lines = lines_of(alloc, text)?;
    matching(alloc, choice, text, &lines)
}
