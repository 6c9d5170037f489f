//! The names that the parts of a glob match.
ghost use Rattle.std.specs.Prelude.{◌≡◌, ◌==◌, ◌&&◌, false, map, nat_le, true};
ghost use Rattle.grep_options.specs.Globs.{is_any_text, is_match, is_short, part_of, parts_match, set_has, some_rest};
ghost use Rattle.grep_options.specs.Globs.{some_tail, takes};

use crate::glob::{Letter, Token};

/// Whether parts of a glob match a text, and if not, whether they may match a part of it.
#[derive(Clone, Copy)]
pub enum Outcome {
    /// The parts match the whole text.
    Match,
    /// They do not, but may match the rest of the text after its first characters.
    Other,
    /// They match neither the text nor any rest of it: it is too short for them.
    Short,
}

/// Returns whether these parts match the whole text, in time that grows with their number times its length.
pub fn parts_match(tokens: &[Token<'_>], text: &[char]) -> bool
    ensures { result ≡ parts_match (map part_of tokens.now) text.now }
{
    match outcome_of(tokens, text) {
        Outcome::Match => true,
        Outcome::Other | Outcome::Short => false,
    }
}

/// Matches the parts with the whole text. It tries the parts after a star at one character after another, until they
/// match or the text is too short for them. The text is then too short for the parts before the star, too, so they are
/// tried at no other character.
#[cycle(parts)]
fn outcome_of(tokens: &[Token<'_>], text: &[char]) -> Outcome
    ensures matched { is_match result ≡ parts_match (map part_of tokens.now) text.now }
    ensures short { is_short result ≡ true → some_rest (parts_match (map part_of tokens.now)) text.now ≡ false }
{
    match tokens {
        [] => match text {
            [] => Outcome::Match,
            _ => Outcome::Other,
        },
        [first, others @ ..] => {
            if is_star(*first) {
                return outcome_of_rests(others, text);
            }
            match text {
                [] => Outcome::Short,
                [character, rest @ ..] => {
                    if takes(*first, *character) {
                        outcome_of(others, rest)
                    } else {
                        Outcome::Other
                    }
                }
            }
        }
    }
}

/// Returns whether the part is any text.
fn is_star(token: Token<'_>) -> bool
    ensures { result ≡ is_any_text (part_of token.entry) }
{
    match token {
        Token::Star => true,
        Token::Is(_) | Token::Any | Token::Set(_, _) => false,
    }
}

/// Matches the parts with the text, or with the rest of it after some characters.
#[cycle(parts)]
fn outcome_of_rests(tokens: &[Token<'_>], text: &[char]) -> Outcome
    ensures { is_match result ≡ some_rest (parts_match (map part_of tokens.now)) text.now }
{
    match outcome_of(tokens, text) {
        Outcome::Match => Outcome::Match,
        Outcome::Short => Outcome::Short,
        Outcome::Other => match text {
            [] => Outcome::Short,
            [_, rest @ ..] => outcome_of_rests(tokens, rest),
        },
    }
}

/// Returns whether these parts match what comes after a slash in the text.
pub fn some_tail_matches(tokens: &[Token<'_>], text: &[char]) -> bool
    ensures { result ≡ some_tail (parts_match (map part_of tokens.now)) text.now }
{
    match text {
        [] => false,
        [first, rest @ ..] if *first == '/' => match outcome_of(tokens, rest) {
            Outcome::Match => true,
            Outcome::Short => false,
            Outcome::Other => some_tail_matches(tokens, rest),
        },
        [_, rest @ ..] => some_tail_matches(tokens, rest),
    }
}

/// Returns whether the part matches this character.
fn takes(token: Token<'_>, value: char) -> bool
    ensures { result ≡ takes (part_of token.entry) value }
{
    match token {
        Token::Is(own) => value == own,
        Token::Any | Token::Star => true,
        Token::Set(negated, letters) => {
            let has = set_has(letters, value);
            if negated { !has } else { has }
        }
    }
}

/// Returns whether the set has this character.
fn set_has(letters: &[Letter], value: char) -> bool
    ensures { result ≡ set_has letters.now value }
{
    match letters {
        [] => false,
        [only] => is_value(*only, value),
        [first, last] => is_value(*first, value) || is_value(*last, value),
        [first, hyphen, last, others @ ..] if hyphen.means('-') => {
            is_within(*first, *last, value) || set_has(others, value)
        }
        [first, others @ ..] => is_value(*first, value) || set_has(others, value),
    }
}

/// Returns whether the value is this character.
fn is_value(letter: Letter, value: char) -> bool
    ensures { result ≡ (value == letter.value) }
{
    value == letter.value
}

/// Returns whether the value is one of these two characters, or between them.
fn is_within(first: Letter, last: Letter, value: char) -> bool
    ensures { result ≡ (nat_le first.value value && nat_le value last.value) }
{
    first.value <= value && value <= last.value
}
