//! Assertions, and the positions at which they hold.
ghost use Rattle.std.specs.Prelude.{◌≡◌, ◌≤◌, length};
ghost use Rattle.thompson_nfa.specs.Looks.{look_holds, is_byte_before, is_byte_at, is_word_before, is_word_after};
ghost use Rattle.thompson_nfa.specs.Looks.{is_word_byte, with_terminator};
ghost use Rattle.thompson_nfa.specs.Looks.{is_crlf_start, is_crlf_end, is_not_word_boundary};

use crate::characters::{is_whole_after, is_whole_before, is_word_char_after, is_word_char_before};

/// An assertion about a position of a haystack, that is, an offset from 0 to the haystack's length.
///
/// A word byte is one of 0-9, A-Z, `_` and a-z. A word character is Alphabetic, a Mark, a Decimal_Number,
/// Connector_Punctuation, U+200C or U+200D, as in Unicode Technical Standard 18, Annex C.
///
/// Assertions on characters look at the character whose UTF-8 ends at the position and at the one whose UTF-8 begins
/// there. At the start or end of the haystack, and in bytes that are not UTF-8, there is no character, so no word
/// character. A side is broken if there are bytes on it, but no whole character.
#[derive(Clone, Copy, Debug, PartialEq, Eq, Hash)]
pub enum Look {
    /// `\A`: the position is 0.
    Start,
    /// `\z`: the position is the haystack's length.
    End,
    /// `(?m:^)`: the position is 0, or after `\n`.
    StartLF,
    /// `(?m:$)`: the position is the haystack's length, or before `\n`.
    EndLF,
    /// The position is 0, or after this byte, the line terminator. [`NFA::with_line_terminator`] makes it of `StartLF`.
    ///
    /// [`NFA::with_line_terminator`]: crate::NFA::with_line_terminator
    StartLine(u8),
    /// The position is the haystack's length, or before this byte, the line terminator.
    EndLine(u8),
    /// `(?mR:^)`: the position is 0, after `\n`, or after `\r` and not before `\n`.
    StartCRLF,
    /// `(?mR:$)`: the position is the haystack's length, before `\r`, or before `\n` and not after `\r`.
    EndCRLF,
    /// `(?-u:\b)`: exactly one of the bytes before and after the position is a word byte.
    WordAscii,
    /// `(?-u:\B)`: both of the bytes before and after the position are word bytes, or neither is.
    WordAsciiNegate,
    /// `\b`: exactly one of the characters before and after the position is a word character.
    WordUnicode,
    /// `\B`: both of the characters before and after the position are word characters, or neither is, and no side is
    /// broken. Inside a codepoint neither this nor [`Look::WordUnicode`] holds.
    WordUnicodeNegate,
    /// `(?-u:\b{start})`: the byte after the position is a word byte, and the byte before is not.
    WordStartAscii,
    /// `(?-u:\b{end})`: the byte before the position is a word byte, and the byte after is not.
    WordEndAscii,
    /// `\b{start}`: the character after the position is a word character, and the character before is not.
    WordStartUnicode,
    /// `\b{end}`: the character before the position is a word character, and the character after is not.
    WordEndUnicode,
    /// `(?-u:\b{start-half})`: the byte before the position is not a word byte.
    WordStartHalfAscii,
    /// `(?-u:\b{end-half})`: the byte after the position is not a word byte.
    WordEndHalfAscii,
    /// `\b{start-half}`: the character before the position is not a word character, and that side is not broken.
    WordStartHalfUnicode,
    /// `\b{end-half}`: the character after the position is not a word character, and that side is not broken.
    WordEndHalfUnicode,
}

impl Look {
    /// Returns the assertion, with this byte as the line terminator in place of `\n`: `StartLine` for `StartLF`, and
    /// `EndLine` for `EndLF`. All others stay.
    pub(crate) fn with_line_terminator(self, byte: u8) -> Look
        ensures { result ≡ with_terminator byte self }
    {
        match self {
            Look::StartLF => Look::StartLine(byte),
            Look::EndLF => Look::EndLine(byte),
            look => look,
        }
    }
}

/// Returns whether the assertion holds at the offset `at` of the whole haystack. Requires that `at` is at most the
/// haystack's length.
pub fn look_matches(look: Look, haystack: &[u8], at: usize) -> bool
    requires { at ≤ length haystack.now }
    ensures { result ≡ look_holds look haystack.now at }
{
    match look {
        Look::Start => at == 0,
        Look::End => at == haystack.len(),
        Look::StartLF => at == 0 || is_byte_before(haystack, at, b'\n'),
        Look::EndLF => at == haystack.len() || is_byte_at(haystack, at, b'\n'),
        Look::StartLine(byte) => at == 0 || is_byte_before(haystack, at, byte),
        Look::EndLine(byte) => at == haystack.len() || is_byte_at(haystack, at, byte),
        Look::StartCRLF => is_crlf_start(haystack, at),
        Look::EndCRLF => is_crlf_end(haystack, at),
        Look::WordAscii => word_before(haystack, at) != word_after(haystack, at),
        Look::WordAsciiNegate => word_before(haystack, at) == word_after(haystack, at),
        Look::WordUnicode => {
            is_word_char_before(haystack, at) != is_word_char_after(haystack, at)
        }
        Look::WordUnicodeNegate => is_not_word_boundary(haystack, at),
        Look::WordStartAscii => !word_before(haystack, at) && word_after(haystack, at),
        Look::WordEndAscii => word_before(haystack, at) && !word_after(haystack, at),
        Look::WordStartUnicode => {
            !is_word_char_before(haystack, at) && is_word_char_after(haystack, at)
        }
        Look::WordEndUnicode => {
            is_word_char_before(haystack, at) && !is_word_char_after(haystack, at)
        }
        Look::WordStartHalfAscii => !word_before(haystack, at),
        Look::WordEndHalfAscii => !word_after(haystack, at),
        Look::WordStartHalfUnicode => {
            is_whole_before(haystack, at) && !is_word_char_before(haystack, at)
        }
        Look::WordEndHalfUnicode => {
            is_whole_after(haystack, at) && !is_word_char_after(haystack, at)
        }
    }
}

/// Whether this byte is just before the position.
fn is_byte_before(haystack: &[u8], at: usize, byte: u8) -> bool
    requires { at ≤ length haystack.now }
    ensures { result ≡ is_byte_before haystack.now at byte }
{
    at > 0 && haystack[at - 1] == byte
}

/// Whether this byte is at the position.
fn is_byte_at(haystack: &[u8], at: usize, byte: u8) -> bool
    ensures { result ≡ is_byte_at haystack.now at byte }
{
    at < haystack.len() && haystack[at] == byte
}

/// Whether a line starts at the position. `\r`, `\n` and `\r\n` end a line.
fn is_crlf_start(haystack: &[u8], at: usize) -> bool
    requires { at ≤ length haystack.now }
    ensures { result ≡ is_crlf_start haystack.now at }
{
    at == 0
        || is_byte_before(haystack, at, b'\n')
        || (is_byte_before(haystack, at, b'\r') && !is_byte_at(haystack, at, b'\n'))
}

/// Whether a line ends at the position. `\r`, `\n` and `\r\n` end a line.
fn is_crlf_end(haystack: &[u8], at: usize) -> bool
    requires { at ≤ length haystack.now }
    ensures { result ≡ is_crlf_end haystack.now at }
{
    at == haystack.len()
        || is_byte_at(haystack, at, b'\r')
        || (is_byte_at(haystack, at, b'\n') && !is_byte_before(haystack, at, b'\r'))
}

/// Whether both of the characters next to the position are word characters, or neither is, and no side is broken.
fn is_not_word_boundary(haystack: &[u8], at: usize) -> bool
    requires { at ≤ length haystack.now }
    ensures { result ≡ is_not_word_boundary haystack.now at }
{
    is_whole_before(haystack, at)
        && is_whole_after(haystack, at)
        && is_word_char_before(haystack, at) == is_word_char_after(haystack, at)
}

/// Whether a word byte is just before the position.
fn word_before(haystack: &[u8], at: usize) -> bool
    requires { at ≤ length haystack.now }
    ensures { result ≡ is_word_before haystack.now at }
{
    at > 0 && is_word_byte(haystack[at - 1])
}

/// Whether a word byte is at the position.
fn word_after(haystack: &[u8], at: usize) -> bool
    ensures { result ≡ is_word_after haystack.now at }
{
    at < haystack.len() && is_word_byte(haystack[at])
}

/// Whether the byte is 0-9, A-Z, `_` or a-z.
fn is_word_byte(byte: u8) -> bool
    ensures { result ≡ is_word_byte byte }
{
    byte.is_ascii_alphanumeric() || byte == b'_'
}
