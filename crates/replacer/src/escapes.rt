//! The escapes of a template: what a person types for a byte or a character that is hard to type, and for the case of
//! letters.
ghost use Rattle.std.specs.Prelude.{◌≡◌, ◌<◌, ◌≤◌, ◌+◌, ◌^◌, ◌++◌, ℕ, None, Some, IfErr, IfOk, IfSome, OnOk};
ghost use Rattle.std.specs.Prelude.{encode_utf8, flat_map, length};
ghost use Rattle.std.specs.Prelude.{slice_index, slice_range};
ghost use Rattle.std.specs.Char.{IsScalar, digit_value};
ghost use Rattle.replacer.specs.Escapes.{AreDigits, AreSigns, Escapes, Has, HasTwoDigits, IsBadEscape, IsSign};
ghost use Rattle.replacer.specs.Escapes.{hex_number, hex_step, quoted_byte, sign_text};

use crate::case::CaseEscape;
use std::alloc::{AllocError, AllocFailed, Global};
use thiserror::Error;

/// Why an escape of a template stands for nothing.
#[derive(Clone, Copy, Debug, PartialEq, Eq, Error)]
pub enum EscapeError {
    /// Allocation failed.
    #[error("out of memory")]
    Memory,
    /// The `\x` at this offset is not followed by two hexadecimal digits.
    #[error("\\x at byte {at} of the template needs two hexadecimal digits; a backslash is written \\\\")]
    Byte { at: usize },
    /// The `\u{` at this offset is not followed by the number of a character and a brace.
    #[error("\\u{{ at byte {at} of the template needs the number of a character and a brace, as in \\u{{e9}}")]
    Character { at: usize },
}

impl<T: Drop> From<AllocFailed<T>> for EscapeError {
    ghost use Rattle.std.specs.Prelude.{◌≡◌};
    ghost use Rattle.replacer.specs.declared.escapes.EscapeError.TheVariants as error;

    ghost from_gives = { λ _ made. made ≡ error.Memory };

    fn from(_: AllocFailed<T>) -> EscapeError {
        EscapeError::Memory
    }
}

/// What is written in a template: a byte, or an escape.
#[derive(Clone, Copy, Debug)]
pub enum Sign {
    /// A byte that is taken as it is. It may be part of the name of a group.
    AsItIs(u8),
    /// An escape that stands for a byte.
    Byte(u8),
    /// An escape that stands for a character.
    Character(char),
    /// An escape that stands for nothing, but says the case of what is after it; and the offset after it.
    Case(CaseEscape, usize),
}

/// A sign, and the offset after it.
#[derive(Clone, Copy)]
struct Piece {
    sign: Sign,
    end: usize,
}

/// Returns the signs of the text, in order. Fails if an escape stands for nothing, or if allocation failed.
pub fn signs_of(alloc: Global, text: &[u8]) -> Result<Vec<Sign>, EscapeError>
    ensures signs { IfOk result (λ signs. AreSigns text.now signs.items (length text.now)) }
    ensures mistake { IfErr result (IsBadEscape text.now) }
{
    let mut signs = Vec::new(alloc);
    let mut at = 0;
    while at < text.len() {
        let piece = piece_at(text, at)?;
        signs.push(piece.sign)?;
        at = piece.end;
    }
    Ok(signs)
}

/// Appends the template that means a sign: two dollars for an escaped one, and nothing for an escape of the case.
pub fn push_sign(text: &mut Vec<u8>, sign: Sign) -> Result<(), AllocError>
    ensures { OnOk result (text.new.items ≡ text.old.items ++ sign_text sign) }
{
    match sign {
        Sign::AsItIs(byte) => text.extend_from_slice(&[byte]),
        Sign::Byte(byte) => push_quoted(text, byte),
        Sign::Character(c) => push_character(text, c),
        Sign::Case(..) => Ok(()),
    }
}

/// Appends the bytes of a character.
fn push_character(text: &mut Vec<u8>, c: char) -> Result<(), AllocError>
    ensures { OnOk result (text.new.items ≡ text.old.items ++ flat_map quoted_byte (encode_utf8 c)) }
{
    let mut room = [0; 4];
    let bytes = c.encode_utf8(&mut room).as_bytes();
    for byte in bytes {
        push_quoted(text, *byte)?;
    }
    Ok(())
}

/// Appends a byte that begins no name of a group.
fn push_quoted(text: &mut Vec<u8>, byte: u8) -> Result<(), AllocError>
    ensures { OnOk result (text.new.items ≡ text.old.items ++ quoted_byte byte) }
{
    if byte == b'$' {
        return text.extend_from_slice(b"$$");
    }
    text.push(byte)?;
    Ok(())
}

/// Returns the sign that begins at this offset.
fn piece_at(text: &[u8], at: usize) -> Result<Piece, EscapeError>
    requires { at < length text.now }
    ensures sign { IfOk result (λ piece. IsSign text.now at piece.end piece.sign) }
    ensures moves { IfOk result (λ piece. at < piece.end) }
    ensures within { IfOk result (λ piece. piece.end ≤ length text.now) }
    ensures mistake { IfErr result (IsBadEscape text.now) }
{
    let as_it_is = Piece {
        sign: Sign::AsItIs(text[at]),
        end: at + 1,
    };
    if text[at] != b'\\' || at + 1 == text.len() {
        return Ok(as_it_is);
    }
    match text[at + 1] {
        b'n' => Ok(letter(b'\n', at)),
        b't' => Ok(letter(b'\t', at)),
        b'r' => Ok(letter(b'\r', at)),
        b'\\' => Ok(letter(b'\\', at)),
        b'x' => byte_of_digits(text, at),
        b'u' if at + 2 < text.len() && text[at + 2] == b'{' => character(text, at),
        b'u' => Ok(case(CaseEscape::FirstUpper, at)),
        b'l' => Ok(case(CaseEscape::FirstLower, at)),
        b'U' => Ok(case(CaseEscape::Upper, at)),
        b'L' => Ok(case(CaseEscape::Lower, at)),
        b'E' => Ok(case(CaseEscape::End, at)),
        _ => Ok(as_it_is),
    }
}

/// Returns the escape of two bytes at this offset, which stands for this byte.
fn letter(byte: u8, at: usize) -> Piece
    requires { at + 2 < 2 ^ 64 }
    ensures { result ≡ record { sign = Sign.Byte byte; end = at + 2 } }
{
    Piece {
        sign: Sign::Byte(byte),
        end: at + 2,
    }
}

/// Returns the escape of two bytes at this offset, which says a case.
fn case(escape: CaseEscape, at: usize) -> Piece
    requires { at + 2 < 2 ^ 64 }
    ensures { result ≡ record { sign = Sign.Case escape (at + 2); end = at + 2 } }
{
    Piece {
        sign: Sign::Case(escape, at + 2),
        end: at + 2,
    }
}

/// Returns the escape `\x` at this offset.
fn byte_of_digits(text: &[u8], at: usize) -> Result<Piece, EscapeError>
    requires { Escapes text.now at 120 }
    ensures sign { IfOk result (λ piece. IsSign text.now at piece.end piece.sign) }
    ensures moves { IfOk result (λ piece. at < piece.end) }
    ensures within { IfOk result (λ piece. piece.end ≤ length text.now) }
    ensures mistake { IfErr result (IsBadEscape text.now) }
{
    let (Some(high), Some(low)) = (digit_at(text, at + 2), digit_at(text, at + 3)) else {
        return Err(EscapeError::Byte { at });
    };
    Ok(Piece {
        sign: Sign::Byte(16 * high + low),
        end: at + 4,
    })
}

/// Returns the value of the hexadecimal digit at this offset, if one is there.
fn digit_at(text: &[u8], at: usize) -> Option<u8>
    ensures some { IfSome result (λ digit. (at < length text.now) × (digit < 16)
        × (digit ≡ digit_value (slice_index text.now at))) }
    ensures none { result ≡ None → at < length text.now → 16 ≤ digit_value (slice_index text.now at) }
{
    if at < text.len() {
        hex_digit(text[at])
    } else {
        None
    }
}

/// Returns the value of a hexadecimal digit.
fn hex_digit(byte: u8) -> Option<u8>
    ensures some { IfSome result (λ digit. (digit < 16) × (digit ≡ digit_value byte)) }
    ensures none { result ≡ None → 16 ≤ digit_value byte }
{
    match byte {
        b'0'..=b'9' => Some(byte - b'0'),
        b'A'..=b'F' => Some(byte - b'A' + 10),
        b'a'..=b'f' => Some(byte - b'a' + 10),
        _ => None,
    }
}

/// Returns the escape `\u{` at this offset.
fn character(text: &[u8], at: usize) -> Result<Piece, EscapeError>
    requires begins { Escapes text.now at 117 }
    requires opening { Has text.now (at + 2) 123 }
    ensures sign { IfOk result (λ piece. IsSign text.now at piece.end piece.sign) }
    ensures moves { IfOk result (λ piece. at < piece.end) }
    ensures within { IfOk result (λ piece. piece.end ≤ length text.now) }
    ensures mistake { IfErr result (IsBadEscape text.now) }
{
    let start = at + 3;
    let close = digits_end(text, start);
    if close == start || close == text.len() || text[close] != b'}' {
        return Err(EscapeError::Character { at });
    }
    match character_of(&text[start..close]) {
        Some(c) => Ok(Piece {
            sign: Sign::Character(c),
            end: close + 1,
        }),
        None => Err(EscapeError::Character { at }),
    }
}

/// Returns the character whose number these hexadecimal digits write.
fn character_of(digits: &[u8]) -> Option<char>
    ensures some { IfSome result (λ c. (hex_number digits.now ≡ Some c) × IsScalar c) }
    ensures none { result ≡ None → (c : ℕ) → hex_number digits.now ≡ Some c → ¬ IsScalar c }
{
    char::from_u32(hex_number(digits)?)
}

/// Returns the number that these hexadecimal digits write, if it is not far above the numbers of characters.
fn hex_number(digits: &[u8]) -> Option<u32>
    ensures { result ≡ hex_number digits.now }
{
    let mut number = Some(0);
    for at in 0..digits.len() {
        number = hex_step(number, digits[at]);
    }
    number
}

/// Returns the number so far with one more digit.
fn hex_step(number: Option<u32>, digit: u8) -> Option<u32>
    ensures { result ≡ hex_step number digit }
{
    let (Some(number), Some(digit)) = (number, hex_digit(digit)) else {
        return None;
    };
    if number < 0x11_0000 {
        Some(16 * number + u32::from(digit))
    } else {
        None
    }
}

/// Returns the end of the run of hexadecimal digits from an offset on.
fn digits_end(text: &[u8], from: usize) -> usize
    requires { from ≤ length text.now }
    ensures from { from ≤ result }
    ensures within { result ≤ length text.now }
    ensures digits { AreDigits text.now from result }
{
    for end in from..text.len() {
        if hex_digit(text[end]).is_none() {
            return end;
        }
    }
    text.len()
}
