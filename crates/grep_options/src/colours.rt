//! The colours of what is printed, and the text that names them: that of the environment variable `GREP_COLORS`.
ghost use Rattle.std.specs.Prelude.{◌≡◌, IfOk, map, option_map};
ghost use Rattle.grep_options.specs.Colours.{AreCodes, change_of, change_of_letters, is_code, is_code_byte};
ghost use Rattle.grep_options.specs.Colours.{palette_in, palette_of, split_at, usual, with_all, with_code, with_flag};
ghost use Rattle.grep_options.specs.Colours.{with_parts};

use std::alloc::{AllocError, Global};
use std::env::FillError;
use std::rt::Env;

/// The variable of the environment that names colours.
const VARIABLE: &str = "GREP_COLORS";

/// More bytes than the system passes in one variable.
const LONGEST: usize = 1 << 17;

/// The colours of what is printed. A colour is a code of terminals, which has digits and semicolons. What has an empty
/// one is printed as it is.
#[derive(Clone, Copy)]
pub struct Colours<'c> {
    /// Matches in selected lines.
    pub selected_match: &'c [u8],
    /// Matches in other lines.
    pub near_match: &'c [u8],
    /// Selected lines, but for their matches.
    pub selected_line: &'c [u8],
    /// Other lines, but for their matches.
    pub near_line: &'c [u8],
    /// Names of files.
    pub name: &'c [u8],
    /// Numbers of lines, and of patterns.
    pub number: &'c [u8],
    pub offset: &'c [u8],
    /// What is after a label, and between groups of lines.
    pub separator: &'c [u8],
    /// With `-v`, selected lines have the colour of others, and these have theirs.
    pub reversed: bool,
    /// After each change of colour, the rest of the line is cleared.
    pub clears: bool,
}

/// What a capability is for: `sl` in `sl=1`.
#[derive(Clone, Copy)]
pub enum Change {
    Matches,
    SelectedMatch,
    NearMatch,
    SelectedLine,
    NearLine,
    Name,
    Number,
    Offset,
    Separator,
    /// With `-v`, the colours of lines are swapped.
    Reverse,
    /// Nothing is cleared.
    Keep,
    /// It has no meaning.
    Nothing,
}

/// Returns the text that names colours: that of the environment variable, or an empty one if there is none.
pub fn chosen_text(rt: &HostRuntime) -> Result<Vec<u8>, AllocError> {
    // Without the variable no memory is taken.
    if let Err(FillError::NotPresent) = rt.var(VARIABLE, &mut [0u8; 1]) {
        return Ok(Vec::new(rt.alloc()));
    }
    let mut text = vec![in rt.alloc(); 0u8; LONGEST]?;
    let len = match rt.var(VARIABLE, &mut text) {
        Ok(len) => len,
        Err(_) => 0,
    };
    text.truncate(len);
    Ok(text)
}

/// Returns the colours that the text names. Its capabilities are between colons. The first one that is malformed, and
/// those after it, do not count. Each colour is a code, so it ends no escape sequence of a terminal.
pub fn colours_in<'c>(alloc: Global, text: &'c [u8]) -> Result<Colours<'c>, AllocError>
    ensures named { IfOk result (λ colours. palette_of colours ≡ palette_in text.entry.now) }
    ensures codes { IfOk result (λ colours. AreCodes (palette_of colours)) }
{
    let capabilities = parts_of(alloc, b':', text)?;
    with_all(alloc, usual(), &capabilities)
}

/// Returns the colours if none is chosen.
fn usual<'c>() -> Colours<'c>
    ensures { palette_of result ≡ usual }
{
    Colours {
        selected_match: b"01;31",
        near_match: b"01;31",
        selected_line: b"",
        near_line: b"",
        name: b"35",
        number: b"32",
        offset: b"32",
        separator: b"36",
        reversed: false,
        clears: true,
    }
}

/// Returns what is between these bytes of the text.
fn parts_of<'c>(alloc: Global, byte: u8, text: &'c [u8]) -> Result<Vec<&'c [u8]>, AllocError>
    ensures { IfOk result (λ parts. map (λ part. part.now) parts.items ≡ split_at byte text.entry.now) }
{
    text.split(|b| *b == byte).collect(alloc)
}

/// Returns the colours with these capabilities, up to the first one that is malformed.
fn with_all<'c>(
    alloc: Global,
    colours: Colours<'c>,
    capabilities: &[&'c [u8]],
) -> Result<Colours<'c>, AllocError>
    ensures { IfOk result (λ all. palette_of all
        ≡ with_all (palette_of colours.entry) (map (λ part. part.now) capabilities.now)) }
{
    let mut all = colours;
    for capability in capabilities {
        let parts = parts_of(alloc, b'=', capability)?;
        match with_parts(all, &parts) {
            Some(next) => all = next,
            None => return Ok(all),
        }
    }
    Ok(all)
}

/// Returns the colours with a capability of these parts: its name, and its code if it has one. There are none if it is
/// malformed.
fn with_parts<'c>(colours: Colours<'c>, parts: &[&'c [u8]]) -> Option<Colours<'c>>
    ensures { option_map palette_of result
        ≡ with_parts (palette_of colours.entry) (map (λ part. part.now) parts.now) }
{
    match parts {
        [name] => Some(with_flag(colours, change_of(name))),
        [name, code] if !name.is_empty() && is_code(code) => {
            Some(with_code(colours, change_of(name), code))
        }
        _ => None,
    }
}

/// Returns what a capability of this name is for.
fn change_of(name: &[u8]) -> Change
    ensures { result ≡ change_of name.now }
{
    match name {
        [a, b] => change_of_letters(*a, *b),
        _ => Change::Nothing,
    }
}

/// Returns what a capability is for whose name has these letters.
fn change_of_letters(a: u8, b: u8) -> Change
    ensures { result ≡ change_of_letters a b }
{
    match (a, b) {
        (b'm', b't') => Change::Matches,
        (b'm', b's') => Change::SelectedMatch,
        (b'm', b'c') => Change::NearMatch,
        (b's', b'l') => Change::SelectedLine,
        (b'c', b'x') => Change::NearLine,
        (b'f', b'n') => Change::Name,
        (b'l', b'n') => Change::Number,
        (b'b', b'n') => Change::Offset,
        (b's', b'e') => Change::Separator,
        (b'r', b'v') => Change::Reverse,
        (b'n', b'e') => Change::Keep,
        _ => Change::Nothing,
    }
}

/// Returns the colours with a capability that has this code.
fn with_code<'c>(mut colours: Colours<'c>, change: Change, code: &'c [u8]) -> Colours<'c>
    ensures { palette_of result ≡ with_code (palette_of colours.entry) change code.entry.now }
{
    match change {
        Change::Matches => {
            colours.selected_match = code;
            colours.near_match = code;
        }
        Change::SelectedMatch => colours.selected_match = code,
        Change::NearMatch => colours.near_match = code,
        Change::SelectedLine => colours.selected_line = code,
        Change::NearLine => colours.near_line = code,
        Change::Name => colours.name = code,
        Change::Number => colours.number = code,
        Change::Offset => colours.offset = code,
        Change::Separator => colours.separator = code,
        Change::Reverse | Change::Keep | Change::Nothing => return with_flag(colours, change),
    }
    colours
}

/// Returns the colours with a capability that has no code. `mt` gives matches in other lines the colour of those in
/// selected ones.
fn with_flag<'c>(colours: Colours<'c>, change: Change) -> Colours<'c>
    ensures { palette_of result ≡ with_flag (palette_of colours.entry) change }
{
    match change {
        Change::Matches => Colours {
            near_match: colours.selected_match,
            ..colours
        },
        Change::Reverse => Colours {
            reversed: true,
            ..colours
        },
        Change::Keep => Colours {
            clears: false,
            ..colours
        },
        _ => colours,
    }
}

/// Returns whether all bytes are digits and semicolons.
fn is_code(text: &[u8]) -> bool
    ensures { result ≡ is_code text.now }
{
    for byte in text {
        if !is_code_byte(*byte) {
            return false;
        }
    }
    true
}

fn is_code_byte(byte: u8) -> bool
    ensures { result ≡ is_code_byte byte }
{
    byte == b';' || byte.is_ascii_digit()
}
