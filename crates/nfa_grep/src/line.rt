//! What comes before a line where it is printed.
//!
//! What is called for each line or match is inlined, so that the options, which have all colours, are not copied.
ghost use Rattle.std.specs.Prelude.{◌≡◌, ◌++◌, OnOk, decimal};
ghost use Rattle.nfa_grep.specs.Painted.{aligned, label};
ghost use Rattle.nfa_grep.specs.Printed.{count_line, head, label_if, name_end, name_label, name_line, summary};
ghost use Rattle.nfa_grep.specs.Printed.{numbers_of, tab_if, width_of};
ghost use Rattle.nfa_grep.specs.declared.paint.Colour.TheVariants.{Number};

use crate::paint::{Colour, append_aligned, append_label, append_painted};
use grep_options::options::{Options, Report};
use itoa::Buffer;
use std::alloc::AllocError;

/// Where a line is: the name of its input, its number from 1, and the offset of its first byte; and how that is shown.
#[derive(Clone, Copy)]
pub struct Place<'n> {
    pub name: &'n [u8],
    pub number: u64,
    pub offset: u64,
    /// The byte after each label of the line: a colon, or a hyphen if the line is printed because of one near it.
    pub end: u8,
}

/// The width of the largest size that an input may have.
const WIDEST: usize = 19;

/// Returns how wide numbers and offsets of an input of this size are, if they are of one width.
pub fn width_of(numbers: bool, size: Option<u64>) -> usize
    ensures { result ≡ width_of numbers size }
{
    let Some(size) = size else {
        return WIDEST;
    };
    let last = if numbers {
        size as u128 + 1
    } else {
        size as u128
    };
    let mut buffer = Buffer::new();
    buffer.format(last).len()
}

/// Appends the number, with blanks before it up to the width that is wanted, in this colour, and this byte.
#[inline(always)]
fn append_number(
    options: Options<'_>,
    colour: Colour,
    end: u8,
    number: u64,
    out: &mut Vec<u8>,
) -> Result<(), AllocError>
    ensures { OnOk result (out.new.items ≡ out.old.items
        ++ label options.entry.colours colour end (aligned options.entry.width (decimal number))) }
{
    let mut buffer = Buffer::new();
    let digits = buffer.format(number).as_bytes();
    append_aligned(options.colours, colour, options.width, digits, out)?;
    append_painted(options.colours, Colour::Separator, &[end], out)
}

/// Appends the number of the line and the offset, if they are wanted.
#[inline(always)]
fn append_numbers(
    options: Options<'_>,
    place: Place<'_>,
    out: &mut Vec<u8>,
) -> Result<(), AllocError>
    ensures { OnOk result (out.new.items ≡ out.old.items
        ++ numbers_of options.entry place.entry.end place.entry.number place.entry.offset) }
{
    if options.numbers {
        append_number(options, Colour::Number, place.end, place.number, out)?;
    }
    if options.offsets {
        append_number(options, Colour::Offset, place.end, place.offset, out)?;
    }
    Ok(())
}

/// Appends a tab, if it is wanted, something is before it, and there is `some` text after it.
#[inline(always)]
fn append_tab(options: Options<'_>, some: bool, out: &mut Vec<u8>) -> Result<(), AllocError>
    ensures { OnOk result (out.new.items ≡ out.old.items ++ tab_if options.entry some) }
{
    let labelled = options.named || options.which || options.numbers || options.offsets;
    if options.tabbed && some && labelled {
        out.push(b'\t')?;
    }
    Ok(())
}

/// Appends the name and what is after it, if it is wanted.
#[inline(always)]
fn append_name(
    options: Options<'_>,
    end: u8,
    name: &[u8],
    out: &mut Vec<u8>,
) -> Result<(), AllocError>
    ensures { OnOk result (out.new.items ≡ out.old.items ++ name_label options.entry end name.now) }
{
    if !options.named {
        return Ok(());
    }
    let colours = options.colours;
    append_painted(colours, Colour::Name, name, out)?;
    append_name_end(options, end, out)
}

/// Appends what is after a name: a byte 0, or this byte.
#[inline(always)]
fn append_name_end(options: Options<'_>, end: u8, out: &mut Vec<u8>) -> Result<(), AllocError>
    ensures { OnOk result (out.new.items ≡ out.old.items ++ name_end options.entry end) }
{
    if options.zero_names {
        out.push(0)?;
        return Ok(());
    }
    append_painted(options.colours, Colour::Separator, &[end], out)
}

/// Appends the mark and this byte, if it is wanted.
#[inline(always)]
fn append_mark(
    options: Options<'_>,
    end: u8,
    mark: &[u8],
    out: &mut Vec<u8>,
) -> Result<(), AllocError>
    ensures { OnOk result (out.new.items
        ≡ out.old.items ++ label_if options.entry.which options.entry.colours Number end mark.now) }
{
    if options.which {
        append_label(options.colours, Colour::Number, end, mark, out)?;
    }
    Ok(())
}

/// Appends what comes before a line or a match: the name of the input, the mark, the number of the line, the offset and
/// a tab, if they are wanted. There is `some` text after them.
#[inline(always)]
#[tactic(auto, unfolding(crate::specs::Printed::head))]
pub fn append_head(
    options: Options<'_>,
    place: Place<'_>,
    mark: &[u8],
    some: bool,
    out: &mut Vec<u8>,
) -> Result<(), AllocError>
    ensures { OnOk result (out.new.items ≡ out.old.items
        ++ head options.entry place.entry.end place.entry.name.now mark.now place.entry.number place.entry.offset
        some) }
{
    append_name(options, place.end, place.name, out)?;
    append_mark(options, place.end, mark, out)?;
    append_numbers(options, place, out)?;
    append_tab(options, some, out)
}

/// Appends the name, as a line or with a byte 0 after it.
fn append_name_line(options: Options<'_>, name: &[u8], out: &mut Vec<u8>) -> Result<(), AllocError>
    ensures { OnOk result (out.new.items ≡ out.old.items ++ name_line options.entry name.now) }
{
    append_painted(options.colours, Colour::Name, name, out)?;
    let zero = options.zero_names;
    out.push(if zero { 0 } else { b'\n' })?;
    Ok(())
}

/// Appends the number of selected lines, as a line.
fn append_count(
    options: Options<'_>,
    name: &[u8],
    count: u64,
    out: &mut Vec<u8>,
) -> Result<(), AllocError>
    ensures { OnOk result (out.new.items ≡ out.old.items ++ count_line options.entry name.now count) }
{
    let mut buffer = Buffer::new();
    append_name(options, b':', name, out)?;
    out.extend_from_slice(buffer.format(count).as_bytes())?;
    out.extend_from_slice(b"\n")
}

/// Appends what is printed of an input after its lines, `count` of which are selected.
pub fn append_summary(
    report: Report,
    options: Options<'_>,
    name: &[u8],
    count: u64,
    out: &mut Vec<u8>,
) -> Result<(), AllocError>
    ensures { OnOk result (out.new.items ≡ out.old.items ++ summary report options.entry name.now count) }
{
    match report {
        Report::Count => append_count(options, name, count, out),
        Report::With if count > 0 => append_name_line(options, name, out),
        Report::Without if count == 0 => append_name_line(options, name, out),
        _ => Ok(()),
    }
}
