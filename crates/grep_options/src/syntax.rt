//! Patterns that are given as grep's basic or Perl's ones, and mean something else there.
use crate::error::OptionsError;
use std::alloc::Global;

/// The syntax that the patterns are said to have.
#[derive(Clone, Copy, PartialEq, Eq)]
pub enum Syntax {
    /// That of the crate regex, or texts.
    Own,
    /// That of grep without `-E`.
    Basic,
    /// That of Perl.
    Perl,
}

/// What means something else in Perl.
const OTHER_IN_PERL: &[&str] = &["++", "*+", "?+", "}+", "\\v", "(?R"];

/// What means something else in Perl if it is between brackets.
const OTHER_IN_SETS: &[&str] = &["&&", "--", "~~"];

/// Fails if one of these patterns may mean something else in this syntax.
pub fn need_same(alloc: Global, syntax: Syntax, patterns: &[&str]) -> Result<(), OptionsError> {
    for pattern in patterns {
        if !is_same(syntax, pattern) {
            let pattern = String::from_str(alloc, pattern)?;
            return Err(match syntax {
                Syntax::Basic => OptionsError::Basic(pattern),
                _ => OptionsError::Perl(pattern),
            });
        }
    }
    Ok(())
}

/// Returns whether the pattern means the same in this syntax.
fn is_same(syntax: Syntax, pattern: &str) -> bool {
    match syntax {
        Syntax::Own => true,
        Syntax::Basic => is_same_in_basic(pattern),
        Syntax::Perl => {
            !has_one(pattern, OTHER_IN_PERL)
                && !(pattern.contains('[') && has_one(pattern, OTHER_IN_SETS))
        }
    }
}

/// Returns whether one of these texts is in the pattern.
fn has_one(pattern: &str, texts: &[&str]) -> bool {
    texts.iter().any(|text| pattern.contains(*text))
}

/// What the next character of a basic pattern may be.
#[derive(Clone, Copy, PartialEq, Eq)]
enum Place {
    /// The first one of the pattern, or one after `^` there: a star would be itself.
    Start,
    /// Any other one.
    Middle,
    /// One after a backslash.
    Escape,
    /// One after a dollar, of which there is none: it would be itself.
    End,
    /// The first one of a set.
    SetFirst,
    /// Any other one of a set.
    Set,
    /// One of a set after a hyphen: two of them have a meaning of their own.
    SetHyphen,
}

/// Returns whether the pattern has only what means the same in grep's basic syntax: characters, `.`, sets of
/// characters, a star after one of these, `^` first, `$` last, and a backslash before a character that has a meaning
/// in both.
fn is_same_in_basic(pattern: &str) -> bool {
    let mut place = Place::Start;
    for byte in pattern.bytes() {
        let Some(next) = after_byte(place, byte) else {
            return false;
        };
        place = next;
    }
    matches!(place, Place::Start | Place::Middle | Place::End)
}

/// Returns what the next character may be after this one. There is none if this one may mean something else.
fn after_byte(place: Place, byte: u8) -> Option<Place> {
    match place {
        Place::Start if byte == b'*' => None,
        Place::Start if byte == b'^' => Some(Place::Start),
        Place::Start | Place::Middle => after_plain(byte),
        Place::Escape => match byte {
            b'.' | b'*' | b'^' | b'$' | b'[' | b']' | b'\\' => Some(Place::Middle),
            b'w' | b'W' | b's' | b'S' | b'b' | b'B' => Some(Place::Middle),
            _ => None,
        },
        Place::End => None,
        Place::SetFirst | Place::Set | Place::SetHyphen => after_in_set(place, byte),
    }
}

/// Returns what the next character may be after this one, which is outside of sets and not the first one.
fn after_plain(byte: u8) -> Option<Place> {
    match byte {
        b'+' | b'?' | b'{' | b'}' | b'|' | b'(' | b')' | b']' | b'^' => None,
        b'$' => Some(Place::End),
        b'\\' => Some(Place::Escape),
        b'[' => Some(Place::SetFirst),
        _ => Some(Place::Middle),
    }
}

/// Returns what the next character may be after this one of a set.
fn after_in_set(place: Place, byte: u8) -> Option<Place> {
    match byte {
        b'[' | b'\\' | b'&' | b'~' => None,
        b']' if place == Place::SetFirst => None,
        b']' => Some(Place::Middle),
        b'^' if place == Place::SetFirst => Some(Place::SetFirst),
        b'-' if place == Place::SetHyphen => None,
        b'-' => Some(Place::SetHyphen),
        _ => Some(Place::Set),
    }
}
