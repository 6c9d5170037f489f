//! The arguments in a form that `clap` reads as grep would: the pattern that is attached to `-e` is an argument of its
//! own, and `-2` is `-C 2`.
use std::alloc::{AllocError, Global};

/// The long options with a value.
const VALUED: &[&str] = &[
    "--regexp",
    "--file",
    "--max-count",
    "--after-context",
    "--before-context",
    "--context",
    "--include",
    "--exclude",
    "--exclude-dir",
    "--label",
    "--group-separator",
    "--binary-files",
    "--directories",
    "--devices",
];

/// What the next argument may be.
#[derive(Clone, Copy)]
enum Next {
    /// Options, a pattern or a file.
    Any,
    /// The value of the option before it, or the name of the program.
    Value,
    /// A pattern or a file, and so are all others.
    Word,
}

/// Splits the arguments, so that a pattern that is attached to `-e` is an argument of its own: `-ne=x` becomes `-n`,
/// `-e` and `=x`, of which `clap` would drop the `=`. `-2` becomes `-C` and `2`. Values of other options stay as they
/// are.
pub fn split<'w>(alloc: Global, words: &[&'w str]) -> Result<Vec<&'w str>, AllocError> {
    let mut split = Vec::new(alloc);
    let mut next = Next::Value;
    for word in words {
        next = push_word(next, word, &mut split)?;
    }
    Ok(split)
}

/// Appends the argument, split if it has an attached pattern, and returns what the next one may be.
fn push_word<'w>(next: Next, word: &'w str, split: &mut Vec<&'w str>) -> Result<Next, AllocError> {
    if matches!(next, Next::Any) && word.starts_with('-') && !word.starts_with("--") {
        return push_letters(word, split);
    }
    split.push(word)?;
    Ok(after_word(next, word))
}

/// Returns what the next argument may be after one that is appended whole.
fn after_word(next: Next, word: &str) -> Next {
    match next {
        Next::Any => after_whole(word),
        Next::Value => Next::Any,
        Next::Word => Next::Word,
    }
}

/// Returns what the next argument may be after one that is not letters after one hyphen.
fn after_whole(word: &str) -> Next {
    match word {
        "--" => Next::Word,
        // It begins `--binary-files`, and is an option.
        "--binary" => Next::Any,
        _ if begins_valued(word) => Next::Value,
        _ => Next::Any,
    }
}

/// Returns whether the argument is one of the long options with a value, or the beginning of one.
fn begins_valued(word: &str) -> bool {
    word.starts_with("--") && begins_one(word, VALUED)
}

/// Returns whether the word is one of these names, or the beginning of one.
fn begins_one(word: &str, names: &[&str]) -> bool {
    for name in names {
        if name.starts_with(word) {
            return true;
        }
    }
    false
}

/// Appends letters after one hyphen. The pattern, if one is attached there, is an argument of its own.
fn push_letters<'w>(word: &'w str, split: &mut Vec<&'w str>) -> Result<Next, AllocError> {
    if let Some(number) = number_in(word) {
        split.extend_from_slice(&["-C", number])?;
        return Ok(Next::Any);
    }
    match word.split_once('e') {
        // What comes after the letter of another option with a value is that value.
        Some((flags, value)) if !has_other(flags) => push_pattern(flags, value, split),
        _ => {
            split.push(word)?;
            Ok(after_letters(word))
        }
    }
}

/// Appends a hyphen and the letters before that of `-e`, if there are some, then `-e`, and the pattern if one is there.
fn push_pattern<'w>(
    flags: &'w str,
    value: &'w str,
    split: &mut Vec<&'w str>,
) -> Result<Next, AllocError> {
    if flags != "-" {
        split.push(flags)?;
    }
    split.push("-e")?;
    if value.is_empty() {
        return Ok(Next::Value);
    }
    split.push(value)?;
    Ok(Next::Any)
}

/// Returns the number, if the argument is a hyphen and one.
fn number_in(word: &str) -> Option<&str> {
    let digits = word.strip_prefix('-')?;
    if digits.is_empty() || !digits.bytes().all(|byte| byte.is_ascii_digit()) {
        return None;
    }
    Some(digits)
}

/// Returns whether one of the letters is that of an option with a value, other than `-e`.
fn has_other(letters: &str) -> bool {
    letters.bytes().any(|letter| is_other(letter))
}

/// Returns whether an option with a value, other than `-e`, has this letter.
fn is_other(letter: u8) -> bool {
    matches!(letter, b'f' | b'm' | b'A' | b'B' | b'C' | b'd' | b'D')
}

/// Returns what the next argument may be after letters without a pattern: a value, if the last letter is the first one
/// of an option with a value.
fn after_letters(word: &str) -> Next {
    let letters = word.bytes().position(|letter| is_other(letter));
    if letters.is_some_and(|at| at + 1 == word.len()) {
        Next::Value
    } else {
        Next::Any
    }
}
