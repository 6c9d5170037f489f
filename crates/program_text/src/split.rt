//! Values of options as words of their own, for programs that read their command line with `clap`.
//!
//! `clap` leaves out an `=` between a letter and its value, so it reads `-e=x` as the value `x`. Other programs read
//! `=x`, and so does `clap` if the value is a word of its own.
ghost use Rattle.std.specs.Prelude.{◌≡◌, ◌++◌, ◌<◌, IfOk, OnOk, map, slice_index, true};
ghost use Rattle.program_text.specs.Splitting.{flag_words, is_cluster, mode_after, mode_after_value, mode_after_whole};
ghost use Rattle.program_text.specs.Splitting.{split_words, value_words, words_of};

use std::alloc::{AllocError, Global};

/// An option that takes a value.
#[derive(Clone, Copy, Debug)]
pub struct Valued<'w> {
    /// Its letter, below 128.
    pub letter: char,
    /// The hyphen and the letter.
    pub short: &'w str,
    /// Its long name, with both hyphens.
    pub long: &'w str,
}

/// What the next word of a command line may be.
#[derive(Clone, Copy, Debug, PartialEq, Eq)]
pub enum Mode {
    /// Options, or an argument.
    Options,
    /// The value of the option before it, or the name of the program.
    Value,
    /// An argument, and so are all others.
    Rest,
}

/// Splits the words of a command line, the first of which is the name of the program.
///
/// A value that is attached to the letter of the option becomes a word of its own: `-ne=x` becomes `-n`, `-e` and
/// `=x`. Nothing else changes: neither values that are words already, nor the words after `--`. The only error is that
/// allocation failed.
pub fn split_values<'w>(
    alloc: Global,
    option: Valued<'w>,
    words: &[&'w str],
) -> Result<Vec<&'w str>, AllocError>
    requires { option.letter < 128 }
    ensures { IfOk result (λ split. map (λ word. word.now) split.items
        ≡ split_words option.entry.letter option.entry.short.now option.entry.long.now
        (map (λ word. word.now) words.now)) }
{
    let mut split = Vec::new(alloc);
    let mut mode = Mode::Value;
    for word in words {
        mode = push_word(option, mode, word, &mut split)?;
    }
    Ok(split)
}

/// Appends the word, split if it has an attached value, and returns what the next word may be.
fn push_word<'w>(
    option: Valued<'w>,
    mode: Mode,
    word: &'w str,
    split: &mut Vec<&'w str>,
) -> Result<Mode, AllocError>
    requires { option.letter < 128 }
    ensures words { OnOk result (map (λ word. word.now) split.new.items ≡ map (λ word. word.now) split.old.items
        ++ words_of option.entry.letter option.entry.short.now mode word.entry.now) }
    ensures mode { IfOk result
        (λ next. next ≡ mode_after option.entry.letter option.entry.long.now mode word.entry.now) }
{
    match mode {
        Mode::Options if is_cluster(word) => push_cluster(option, word, split),
        Mode::Options => {
            split.push(word)?;
            Ok(mode_after_whole(option.long, word))
        }
        Mode::Value => {
            split.push(word)?;
            Ok(Mode::Options)
        }
        Mode::Rest => {
            split.push(word)?;
            Ok(Mode::Rest)
        }
    }
}

/// Appends letters after one hyphen. The value of the option, if it has one there, is a word of its own.
fn push_cluster<'w>(
    option: Valued<'w>,
    word: &'w str,
    split: &mut Vec<&'w str>,
) -> Result<Mode, AllocError>
    requires letter { option.letter < 128 }
    requires cluster { is_cluster word.now ≡ true }
    ensures words { OnOk result (map (λ word. word.now) split.new.items ≡ map (λ word. word.now) split.old.items
        ++ words_of option.entry.letter option.entry.short.now Mode.Options word.entry.now) }
    ensures mode { IfOk result
        (λ next. next ≡ mode_after option.entry.letter option.entry.long.now Mode.Options word.entry.now) }
{
    let Some((flags, value)) = word.split_once(option.letter) else {
        split.push(word)?;
        return Ok(Mode::Options);
    };
    push_flags(flags, split)?;
    split.push(option.short)?;
    push_value(value, split)
}

/// Appends the letters before the option, if there are any.
fn push_flags<'w>(flags: &'w str, split: &mut Vec<&'w str>) -> Result<(), AllocError>
    ensures { OnOk result (map (λ word. word.now) split.new.items
        ≡ map (λ word. word.now) split.old.items ++ flag_words flags.entry.now) }
{
    if flags == "-" {
        return Ok(());
    }
    split.push(flags)?;
    Ok(())
}

/// Appends the value, if it is attached, and returns what the next word may be.
fn push_value<'w>(value: &'w str, split: &mut Vec<&'w str>) -> Result<Mode, AllocError>
    ensures words { OnOk result (map (λ word. word.now) split.new.items
        ≡ map (λ word. word.now) split.old.items ++ value_words value.entry.now) }
    ensures mode { IfOk result (λ next. next ≡ mode_after_value value.entry.now) }
{
    if value.is_empty() {
        return Ok(Mode::Value);
    }
    split.push(value)?;
    Ok(Mode::Options)
}

/// Returns what comes after a word that is not split.
fn mode_after_whole(long: &str, word: &str) -> Mode
    ensures { result ≡ mode_after_whole long.now word.now }
{
    if word == "--" {
        Mode::Rest
    } else if word == long {
        Mode::Value
    } else {
        Mode::Options
    }
}

/// Whether the word is letters after one hyphen.
fn is_cluster(word: &str) -> bool
    ensures { result ≡ is_cluster word.now }
{
    byte_at(word, 0) == b'-' && byte_at(word, 1) != b'-'
}

/// The byte of the word at this offset, or 0 after its end.
fn byte_at(word: &str, at: usize) -> u8
    ensures { result ≡ slice_index word.now at }
{
    let bytes = word.as_bytes();
    if at < bytes.len() { bytes[at] } else { 0 }
}
