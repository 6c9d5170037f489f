//! Globs, as a shell has them: their parts, and the names that they match.
ghost use Rattle.std.specs.Prelude.{◌≡◌, ◌≤◌, ◌<◌, ◌++◌, IfOk, IfSome, OnOk, false, length, map, option_map, position};
ghost use Rattle.std.specs.Str.{chars};
ghost use Rattle.grep_options.specs.Globs.{has_open_set, is_open_set, letters_after, means, negation, part_at};
ghost use Rattle.grep_options.specs.Globs.{part_of, parts_after};
ghost use Rattle.grep_options.specs.Globs.{set_after, set_letters, set_or_bracket};

use std::alloc::{AllocError, Global};

/// A character of a glob.
#[derive(Clone, Copy)]
pub struct Letter {
    pub value: char,
    /// A backslash was before it, so it has no other meaning.
    pub quoted: bool,
}

/// A part of a glob.
#[derive(Clone, Copy)]
pub enum Token<'g> {
    /// This character.
    Is(char),
    /// Any character.
    Any,
    /// Any text.
    Star,
    /// One of the characters of a set, or none of them.
    Set(bool, &'g [Letter]),
}

impl Letter {
    /// Returns whether the character is this one and has its meaning.
    pub fn means(self, value: char) -> bool
        ensures { result ≡ means self value }
    {
        !self.quoted && self.value == value
    }
}

/// Returns the characters of a glob.
pub fn letters_of(alloc: Global, glob: &str) -> Result<Vec<Letter>, AllocError>
    ensures { IfOk result (λ letters. letters.items ≡ letters_after false (chars glob.now)) }
{
    let values = chars_of(alloc, glob)?;
    let mut letters = Vec::new(alloc);
    push_letters(false, &values, &mut letters)?;
    Ok(letters)
}

/// Appends the characters of a glob. `quoted` says that a backslash was before the first of these.
fn push_letters(quoted: bool, values: &[char], letters: &mut Vec<Letter>) -> Result<(), AllocError>
    ensures { OnOk result (letters.new.items ≡ letters.old.items ++ letters_after quoted values.now) }
{
    match values {
        [] if quoted => letters.push(Letter {
            value: '\\',
            quoted,
        })?,
        [] => {}
        [first, others @ ..] if !quoted && *first == '\\' => {
            push_letters(true, others, letters)?;
        }
        [first, others @ ..] => {
            let value = *first;
            letters.push(Letter { value, quoted })?;
            push_letters(false, others, letters)?;
        }
    }
    Ok(())
}

/// Returns the characters of a text.
pub fn chars_of(alloc: Global, text: &str) -> Result<Vec<char>, AllocError>
    ensures { IfOk result (λ values. values.items ≡ chars text.now) }
{
    text.chars().collect(alloc)
}

/// Returns the parts of a glob of these characters.
pub fn tokens_of<'g>(alloc: Global, letters: &'g [Letter]) -> Result<Vec<Token<'g>>, AllocError>
    ensures { IfOk result (λ tokens. map part_of tokens.items ≡ parts_after 0 letters.entry.now) }
{
    let mut tokens = Vec::new(alloc);
    push_tokens(0, letters, &mut tokens)?;
    Ok(tokens)
}

/// Appends the parts of a glob of these characters without the first ones.
fn push_tokens<'g>(
    skipped: usize,
    letters: &'g [Letter],
    tokens: &mut Vec<Token<'g>>,
) -> Result<(), AllocError>
    ensures { OnOk result (map part_of tokens.new.items
        ≡ map part_of tokens.old.items ++ parts_after skipped letters.entry.now) }
{
    match letters {
        [] => Ok(()),
        [_, others @ ..] if skipped > 0 => push_tokens(skipped - 1, others, tokens),
        [first, others @ ..] => {
            let (token, more) = token_at(*first, others);
            tokens.push(token)?;
            push_tokens(more, others, tokens)
        }
    }
}

/// Returns whether one of these characters without the first ones is a bracket that no other one ends.
pub fn has_open_set(skipped: usize, letters: &[Letter]) -> bool
    ensures { result ≡ has_open_set skipped letters.now }
{
    match letters {
        [] => false,
        [_, others @ ..] if skipped > 0 => has_open_set(skipped - 1, others),
        [first, others @ ..] => {
            let (_, more) = token_at(*first, others);
            is_open_set(*first, others) || has_open_set(more, others)
        }
    }
}

/// Returns whether this character is a bracket, and none of the next ones ends its set.
fn is_open_set(letter: Letter, letters: &[Letter]) -> bool
    ensures { result ≡ is_open_set letter letters.now }
{
    letter.means('[') && set_letters(&letters[negation(letters)..]).is_none()
}

/// Returns the part that begins with this character, and how many of the next ones belong to it.
fn token_at<'g>(letter: Letter, letters: &'g [Letter]) -> (Token<'g>, usize)
    ensures part { part_of result.0 ≡ (part_at letter letters.entry.now).0 }
    ensures more { result.1 ≡ (part_at letter letters.entry.now).1 }
{
    if letter.means('*') {
        (Token::Star, 0)
    } else if letter.means('?') {
        (Token::Any, 0)
    } else if letter.means('[') {
        set_or_bracket(letters)
    } else {
        let value = letter.value;
        (Token::Is(value), 0)
    }
}

/// Returns the set that begins after a bracket, or the bracket if it is not a set, and how many of the next characters
/// belong to it.
fn set_or_bracket<'g>(letters: &'g [Letter]) -> (Token<'g>, usize)
    ensures part { part_of result.0 ≡ (set_or_bracket letters.entry.now (set_after letters.entry.now)).0 }
    ensures more { result.1 ≡ (set_or_bracket letters.entry.now (set_after letters.entry.now)).1 }
{
    let negation = negation(letters);
    match set_letters(&letters[negation..]) {
        Some(inside) => (
            Token::Set(negation == 1, inside),
            negation + inside.len() + 1,
        ),
        None => (Token::Is('['), 0),
    }
}

/// Returns how many of these characters, which come after a bracket, negate the set.
fn negation(letters: &[Letter]) -> usize
    ensures number { result ≡ negation letters.now }
    ensures within { result ≤ length letters.now }
{
    match letters.first() {
        Some(first) if first.means('!') || first.means('^') => 1,
        _ => 0,
    }
}

/// Returns the characters of the set, if a bracket ends it. The first one belongs to the set in any case.
fn set_letters<'g>(letters: &'g [Letter]) -> Option<&'g [Letter]>
    ensures set { option_map (λ inside. inside.now) result ≡ set_letters letters.entry.now }
    ensures within { IfSome result (λ inside. length inside.now ≤ length letters.entry.now) }
{
    match letters {
        [] => None,
        [_, others @ ..] => match closing(others) {
            Some(at) => Some(&letters[..at + 1]),
            None => None,
        },
    }
}

/// Returns the place of the bracket that ends a set.
fn closing(letters: &[Letter]) -> Option<usize>
    ensures place { result ≡ position (λ letter. means letter 93) letters.now }
    ensures within { IfSome result (λ at. at < length letters.now) }
{
    letters.iter().position(|letter| letter.means(']'))
}
