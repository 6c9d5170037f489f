//! Characters of UTF-8 next to an offset.
ghost use Rattle.std.specs.Prelude.{◌≡◌, ◌≤◌, length, chars};
ghost use Rattle.thompson_nfa.specs.Characters.{char_of, char_of_len_before, char_of_len_after, char_before};
ghost use Rattle.thompson_nfa.specs.Characters.{char_after, long_char_before, long_char_after, is_word_char};
ghost use Rattle.thompson_nfa.specs.Characters.{is_some_word, only};
ghost use Rattle.thompson_nfa.specs.Looks.{is_whole_before, is_whole_after};

use unicode::perl::is_word_code;

/// Whether a word character of Unicode ends just before the position.
pub(crate) fn is_word_char_before(haystack: &[u8], at: usize) -> bool
    requires { at ≤ length haystack.now }
    ensures { result ≡ is_some_word (char_before haystack.now at) }
{
    match char_before(haystack, at) {
        Some(c) => is_word_char(c),
        None => false,
    }
}

/// Whether a word character of Unicode begins at the position.
pub(crate) fn is_word_char_after(haystack: &[u8], at: usize) -> bool
    requires { at ≤ length haystack.now }
    ensures { result ≡ is_some_word (char_after haystack.now at) }
{
    match char_after(haystack, at) {
        Some(c) => is_word_char(c),
        None => false,
    }
}

/// Whether the haystack starts at the position, or a whole character ends there.
pub(crate) fn is_whole_before(haystack: &[u8], at: usize) -> bool
    requires { at ≤ length haystack.now }
    ensures { result ≡ is_whole_before haystack.now at }
{
    at == 0 || char_before(haystack, at).is_some()
}

/// Whether the haystack ends at the position, or a whole character begins there.
pub(crate) fn is_whole_after(haystack: &[u8], at: usize) -> bool
    requires { at ≤ length haystack.now }
    ensures { result ≡ is_whole_after haystack.now at }
{
    at == haystack.len() || char_after(haystack, at).is_some()
}

/// Whether this is a word character, by Unicode Technical Standard 18, Annex C.
#[tactic(auto, using(crate::proofs::CharacterLemmas::is_word_char_as_classed))]
fn is_word_char(c: char) -> bool
    ensures { result ≡ is_word_char c }
{
    is_word_code(c as u32)
}

/// The character whose UTF-8 ends at the position. That of one byte takes no call.
#[inline(always)]
#[tactic(auto, unfolding(crate::specs::Characters::char_before))]
fn char_before(haystack: &[u8], at: usize) -> Option<char>
    requires { at ≤ length haystack.now }
    ensures { result ≡ char_before haystack.now at }
{
    if let Some(one) = char_of_len_before(haystack, at, 1) {
        return Some(one);
    }
    long_char_before(haystack, at)
}

/// The character of two to four bytes whose UTF-8 ends at the position.
#[cold]
#[inline(never)]
fn long_char_before(haystack: &[u8], at: usize) -> Option<char>
    requires { at ≤ length haystack.now }
    ensures { result ≡ long_char_before haystack.now at }
{
    if let Some(two) = char_of_len_before(haystack, at, 2) {
        return Some(two);
    }
    if let Some(three) = char_of_len_before(haystack, at, 3) {
        return Some(three);
    }
    char_of_len_before(haystack, at, 4)
}

/// The character whose UTF-8 begins at the position. That of one byte takes no call.
#[inline(always)]
#[tactic(auto, unfolding(crate::specs::Characters::char_after))]
fn char_after(haystack: &[u8], at: usize) -> Option<char>
    requires { at ≤ length haystack.now }
    ensures { result ≡ char_after haystack.now at }
{
    if let Some(one) = char_of_len_after(haystack, at, 1) {
        return Some(one);
    }
    long_char_after(haystack, at)
}

/// The character of two to four bytes whose UTF-8 begins at the position.
#[cold]
#[inline(never)]
fn long_char_after(haystack: &[u8], at: usize) -> Option<char>
    requires { at ≤ length haystack.now }
    ensures { result ≡ long_char_after haystack.now at }
{
    if let Some(two) = char_of_len_after(haystack, at, 2) {
        return Some(two);
    }
    if let Some(three) = char_of_len_after(haystack, at, 3) {
        return Some(three);
    }
    char_of_len_after(haystack, at, 4)
}

/// The character whose UTF-8 is the `len` bytes just before the position.
#[inline(always)]
fn char_of_len_before(haystack: &[u8], at: usize, len: usize) -> Option<char>
    requires { at ≤ length haystack.now }
    ensures { result ≡ char_of_len_before haystack.now at len }
{
    if len > at {
        return None;
    }
    char_of(&haystack[at - len..at])
}

/// The character whose UTF-8 is the `len` bytes from the position on.
#[inline(always)]
fn char_of_len_after(haystack: &[u8], at: usize, len: usize) -> Option<char>
    requires { at ≤ length haystack.now }
    ensures { result ≡ char_of_len_after haystack.now at len }
{
    if len > haystack.len() - at {
        return None;
    }
    char_of(&haystack[at..at + len])
}

/// The character whose UTF-8 these bytes are.
#[inline(always)]
#[tactic(auto, using(crate::proofs::CharacterLemmas::chars_of))]
fn char_of(bytes: &[u8]) -> Option<char>
    ensures { result ≡ char_of bytes.now }
{
    // Saves a call in the common case.
    if bytes.len() == 1 && bytes[0] < 0x80 {
        return Some(bytes[0] as char);
    }
    char_of_utf8(bytes)
}

/// The same for a character of any length.
#[cold]
#[inline(never)]
#[tactic(auto, using(crate::proofs::CharacterLemmas::chars_of))]
fn char_of_utf8(bytes: &[u8]) -> Option<char>
    ensures { result ≡ char_of bytes.now }
{
    match str::from_utf8(bytes) {
        Ok(text) => only_char(text),
        Err(_) => None,
    }
}

/// The character of a string of one character.
#[tactic(auto, using(crate::proofs::CharacterLemmas::only_chars))]
fn only_char(text: &str) -> Option<char>
    ensures { result ≡ only (chars text.now) }
{
    let mut chars = text.chars();
    let first = chars.next()?;
    match chars.next() {
        None => Some(first),
        Some(_) => None,
    }
}
