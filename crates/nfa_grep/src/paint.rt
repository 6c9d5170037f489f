//! Texts in colours, as a terminal shows them. What is called for each text is inlined, so that colours are not copied.
ghost use Rattle.std.specs.Prelude.{◌≡◌, ◌≤◌, ◌++◌, [], ◌∷◌, IfOk, None, OnOk, map, replicate};
ghost use Rattle.regex_search_core.specs.Found.{found_of};
ghost use Rattle.regex_search_core.specs.Search.{whole};
ghost use Rattle.nfa_engines.specs.Lists.{AreDisjoint, IsInside};
ghost use Rattle.nfa_grep.specs.Painted.{aligned, clear, code_of, end_of, in_colours, label, last_part, matched_from};
ghost use Rattle.nfa_grep.specs.Painted.{painted, painted_text, printed_to, start_of, ColoursCanBeLeftOut};
ghost use Rattle.nfa_grep.specs.Painted.{PartsAreTheText};

use grep_options::colours::Colours;
use regex_search_core::Match;
use std::alloc::AllocError;

/// A text with matches in colour is the text once the colours are left out.
pub fn colours_are_around()
    ensures parts { PartsAreTheText }
    ensures bytes { ColoursCanBeLeftOut }
{}

/// What has a colour.
#[derive(Clone, Copy)]
pub enum Colour {
    /// A match in a selected line.
    Match,
    /// A match in a line near a selected one.
    NearMatch,
    /// A selected line, but for its matches.
    Line,
    /// A line near a selected one, but for its matches.
    NearLine,
    /// The name of an input.
    Name,
    /// The number of a line or a pattern.
    Number,
    /// The offset of a line or a match.
    Offset,
    /// What is after a label, or between groups of lines.
    Separator,
}

/// Returns the code of this colour.
#[inline(always)]
pub fn code_of<'c>(colours: Colours<'c>, colour: Colour) -> &'c [u8]
    ensures { result.now ≡ code_of colours.entry colour }
{
    match colour {
        Colour::Match => colours.selected_match,
        Colour::NearMatch => colours.near_match,
        Colour::Line => colours.selected_line,
        Colour::NearLine => colours.near_line,
        Colour::Name => colours.name,
        Colour::Number => colours.number,
        Colour::Offset => colours.offset,
        Colour::Separator => colours.separator,
    }
}

/// Appends what begins a text in the colour of this code.
#[inline(always)]
fn append_start(colours: Colours<'_>, code: &[u8], out: &mut Vec<u8>) -> Result<(), AllocError>
    ensures { OnOk result (out.new.items ≡ out.old.items ++ start_of colours.entry code.now) }
{
    if code.is_empty() {
        return Ok(());
    }
    out.extend_from_slice(b"\x1b[")?;
    out.extend_from_slice(code)?;
    out.push(b'm')?;
    append_clear(colours, out)
}

/// Appends what ends a text in the colour of this code.
#[inline(always)]
fn append_end(colours: Colours<'_>, code: &[u8], out: &mut Vec<u8>) -> Result<(), AllocError>
    ensures { OnOk result (out.new.items ≡ out.old.items ++ end_of colours.entry code.now) }
{
    if code.is_empty() {
        return Ok(());
    }
    out.extend_from_slice(b"\x1b[m")?;
    append_clear(colours, out)
}

/// Appends what clears the rest of the line, unless it is kept.
#[inline(always)]
fn append_clear(colours: Colours<'_>, out: &mut Vec<u8>) -> Result<(), AllocError>
    ensures { OnOk result (out.new.items ≡ out.old.items ++ clear colours.entry) }
{
    if !colours.clears {
        return Ok(());
    }
    out.extend_from_slice(b"\x1b[K")
}

/// Appends the text, in this colour if colours are wanted.
#[inline(always)]
pub fn append_painted(
    colours: Option<Colours<'_>>,
    colour: Colour,
    text: &[u8],
    out: &mut Vec<u8>,
) -> Result<(), AllocError>
    ensures { OnOk result (out.new.items ≡ out.old.items ++ painted colours.entry colour text.now) }
{
    append_aligned(colours, colour, 0, text, out)
}

/// Appends the text, with blanks before it if it has fewer bytes than `width`, in this colour if colours are wanted.
#[inline(always)]
pub fn append_aligned(
    colours: Option<Colours<'_>>,
    colour: Colour,
    width: usize,
    text: &[u8],
    out: &mut Vec<u8>,
) -> Result<(), AllocError>
    ensures { OnOk result (out.new.items ≡ out.old.items ++ painted colours.entry colour (aligned width text.now)) }
{
    let blanks = width.saturating_sub(text.len());
    let Some(colours) = colours else {
        append_blanks(blanks, out)?;
        return out.extend_from_slice(text);
    };
    let code = code_of(colours, colour);
    append_start(colours, code, out)?;
    append_blanks(blanks, out)?;
    out.extend_from_slice(text)?;
    append_end(colours, code, out)
}

/// Appends this many blanks.
fn append_blanks(count: usize, out: &mut Vec<u8>) -> Result<(), AllocError>
    ensures { OnOk result (out.new.items ≡ out.old.items ++ replicate count 32) }
{
    for _ in 0..count {
        out.push(b' ')?;
    }
    Ok(())
}

/// Appends a label and this byte after it, in colours if they are wanted.
#[inline(always)]
pub fn append_label(
    colours: Option<Colours<'_>>,
    colour: Colour,
    end: u8,
    text: &[u8],
    out: &mut Vec<u8>,
) -> Result<(), AllocError>
    ensures { OnOk result (out.new.items ≡ out.old.items ++ label colours.entry colour end text.now) }
{
    append_painted(colours, colour, text, out)?;
    append_painted(colours, Colour::Separator, &[end], out)
}

/// The colours of a whole line: of its text, and of its matches.
#[derive(Clone, Copy)]
pub struct LineColours<'c> {
    pub colours: Colours<'c>,
    pub line: Colour,
    pub hit: Colour,
}

/// Appends the text, in the colour of its line, with these matches in theirs.
pub fn append_matched(
    by: LineColours<'_>,
    text: &[u8],
    matches: &[Match],
    out: &mut Vec<u8>,
) -> Result<(), AllocError>
    requires apart { AreDisjoint (whole text.now) None (map found_of matches.now) }
    ensures { OnOk result (out.new.items ≡ out.old.items ++ painted_text by.entry.colours by.entry.line by.entry.hit
        text.now (map found_of matches.now)) }
{
    let mut from = 0;
    for found in matches {
        from = append_match(by, text, from, *found, out)?;
    }
    append_last(by, &text[from..], out)
}

/// Appends the text from an offset to the end of this match, and returns that end. If the match is empty, it appends
/// nothing, and returns the offset.
fn append_match(
    by: LineColours<'_>,
    text: &[u8],
    from: usize,
    found: Match,
    out: &mut Vec<u8>,
) -> Result<usize, AllocError>
    requires before { from ≤ (found_of found).start }
    requires inside { IsInside (whole text.now) (found_of found) }
    ensures to { IfOk result (λ to. to ≡ printed_to from (found_of found)) }
    ensures appended { OnOk result (out.new.items ≡ out.old.items
        ++ matched_from by.entry.colours by.entry.line by.entry.hit text.now from (found_of found)) }
{
    if found.start() == found.end() {
        return Ok(from);
    }
    append_start(by.colours, code_of(by.colours, by.line), out)?;
    out.extend_from_slice(&text[from..found.start()])?;
    append_painted(
        Some(by.colours),
        by.hit,
        &text[found.start()..found.end()],
        out,
    )?;
    Ok(found.end())
}

/// Appends the text after the last match.
fn append_last(by: LineColours<'_>, text: &[u8], out: &mut Vec<u8>) -> Result<(), AllocError>
    ensures { OnOk result (out.new.items
        ≡ out.old.items ++ in_colours (last_part by.entry.colours by.entry.line text.now ∷ [])) }
{
    if text.is_empty() {
        return Ok(());
    }
    append_painted(Some(by.colours), by.line, text, out)
}
