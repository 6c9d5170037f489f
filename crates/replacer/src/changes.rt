//! The lines of an input that change.
ghost use Rattle.std.specs.Prelude.{◌≡◌, ◌++◌, IfOk, OnOk, decimal};
ghost use Rattle.std.specs.Io.KnownBytes.{Appends};
ghost use Rattle.replacer.specs.Changes.{Becomes, HasChanges, change, changed_count, colour, line_end, mark};
ghost use Rattle.replacer.specs.Changes.{marked};

use crate::job::Job;
use crate::line::Line;
use itoa::Buffer;
use program_text::failure::Failure;
use program_text::stream::{read_line, write_bytes};
use std::alloc::{AllocError, Global};
use std::io::{BufRead, Write};

/// How changes are printed.
#[derive(Clone, Copy)]
pub struct Style<'s> {
    /// What is before the number of each line: the name of the input, if it is printed.
    pub prefix: &'s [u8],
    /// Whether what goes is red, and what comes is green.
    pub coloured: bool,
}

/// What is printed of a line that changes.
#[derive(Clone, Copy)]
pub enum Side {
    /// The line as it is.
    Before,
    /// What it becomes.
    After,
}

/// Prints the lines of an input that change, in order: each as it is, and as it becomes. Returns how many there are.
/// Memory is bounded by the longest line and what is printed of it.
///
/// Each line is taken by itself, so the request should have no limit, and take an input by lines.
///
/// Fails if the input cannot be read, the output cannot be written or allocation failed.
pub fn print_changes<R: BufRead, W: Write>(
    alloc: Global,
    job: &mut Job<'_>,
    style: Style<'_>,
    input: &mut R,
    out: &mut W,
) -> Result<u64, Failure>
    ensures changes { IfOk result (λ count. HasChanges job.old style.entry (R.remaining input.old)
        (W.contents out.old) (W.contents out.new) count) }
    ensures kept { job.new ≡ job.old }
{
    let mut line = Vec::new(alloc);
    let mut count = 0;
    for before in 0..u64::MAX {
        if !read_line(input, before + 1, &mut line)? {
            return Ok(count);
        }
        let made = printed_alone(alloc, job, &line, before + 1)?;
        count += changed_count(&line, &made);
        write_change(alloc, style, before + 1, &line, &made, out)?;
    }
    Err(Failure::TooLong)
}

/// Returns what is printed of this line alone.
fn printed_alone(
    alloc: Global,
    job: &mut Job<'_>,
    line: &[u8],
    number: u64,
) -> Result<Vec<u8>, Failure>
    ensures printed { IfOk result (λ made. Becomes job.old line.now made.items) }
    ensures kept { job.new ≡ job.old }
{
    let mut input = line;
    let mut made = Vec::new(alloc);
    match job.print(alloc, &mut input, &mut made) {
        Ok(()) => Ok(made),
        Err(_) => Err(Failure::Line(number)),
    }
}

/// Returns 1 if the line changes, and else 0.
fn changed_count(line: &[u8], made: &[u8]) -> u64
    ensures { result ≡ changed_count line.now made.now }
{
    if line == made { 0 } else { 1 }
}

/// Writes the line as it is, and as it becomes, if it changes.
fn write_change<W: Write>(
    alloc: Global,
    style: Style<'_>,
    number: u64,
    line: &[u8],
    made: &[u8],
    out: &mut W,
) -> Result<(), Failure>
    ensures { OnOk result (Appends (W.contents out.old) (W.contents out.new)
        (change style.entry number line.now made.now)) }
{
    if line == made {
        return write_bytes(out, b"");
    }
    let Ok(text) = change(alloc, style, number, line, made) else {
        return Err(Failure::Line(number));
    };
    write_bytes(out, &text)
}

/// Returns what is printed of a line that changes.
fn change(
    alloc: Global,
    style: Style<'_>,
    number: u64,
    line: &[u8],
    made: &[u8],
) -> Result<Vec<u8>, AllocError>
    ensures { IfOk result (λ text. text.items ≡ marked style.entry number Side.Before line.now
        ++ marked style.entry number Side.After made.now) }
{
    let mut text = Vec::new(alloc);
    push_marked(&mut text, style, number, Side::Before, line)?;
    push_marked(&mut text, style, number, Side::After, made)?;
    Ok(text)
}

/// Appends the number, a mark, and the line without the line feed at its end, as a line.
fn push_marked(
    text: &mut Vec<u8>,
    style: Style<'_>,
    number: u64,
    side: Side,
    line: &[u8],
) -> Result<(), AllocError>
    ensures { OnOk result (text.new.items ≡ text.old.items ++ marked style.entry number side line.now) }
{
    if style.coloured {
        text.extend_from_slice(colour(side))?;
    }
    push_number(text, style.prefix, number)?;
    text.extend_from_slice(mark(side))?;
    text.extend_from_slice(Line::of(line).text)?;
    text.extend_from_slice(line_end(style.coloured))
}

/// Appends the prefix and the number.
fn push_number(text: &mut Vec<u8>, prefix: &[u8], number: u64) -> Result<(), AllocError>
    ensures { OnOk result (text.new.items ≡ text.old.items ++ prefix.now ++ decimal number) }
{
    text.extend_from_slice(prefix)?;
    let mut buffer = Buffer::new();
    text.extend_from_slice(buffer.format(number).as_bytes())
}

/// Returns the colour of a side, as `diff --color` has it.
fn colour(side: Side) -> &'static [u8]
    ensures { result.now ≡ colour side }
{
    match side {
        Side::Before => b"\x1b[31m",
        Side::After => b"\x1b[32m",
    }
}

/// Returns the mark of a side.
fn mark(side: Side) -> &'static [u8]
    ensures { result.now ≡ mark side }
{
    match side {
        Side::Before => b"-",
        Side::After => b"+",
    }
}

/// Returns what ends a line.
fn line_end(coloured: bool) -> &'static [u8]
    ensures { result.now ≡ line_end coloured }
{
    if coloured { b"\x1b[0m\n" } else { b"\n" }
}
