//! Options, and the words among which they stand.
ghost use Rattle.std.specs.Prelude.{◌≡◌, ◌++◌, IfOk, OnOk};
ghost use Rattle.std.specs.Str.{bytes_eq};
ghost use Rattle.program_text.specs.Parting.{as_operand, as_option, is_one_of, is_option, mode_after_option, mode_next};
ghost use Rattle.program_text.specs.Parting.{operands_in, options_in};
ghost use Rattle.program_text.specs.declared.split.Mode.TheVariants.{Options};

use crate::split::Mode;
use crate::words::Word;
use std::alloc::{AllocError, Global};

/// The words of a command line without the name of the program.
#[derive(Debug, Drop)]
pub struct Parted<'w> {
    /// The options, in order, each with its value after it, if it takes one and there is one.
    pub options: Vec<Word<'w>>,
    /// All other words, in order, except for the first `--` that is not a value.
    pub operands: Vec<Word<'w>>,
}

/// Parts options from the other words. An option is a word of two bytes or more that begins with a hyphen, before the
/// first `--`; the word after an option of these names is its value, whatever it is. The only error is that allocation
/// failed.
pub fn part_words<'w>(
    alloc: Global,
    valued: &[&str],
    words: &[Word<'w>],
) -> Result<Parted<'w>, AllocError>
    ensures options { IfOk result (λ parted. parted.options.items ≡ options_in valued.now words.now) }
    ensures operands { IfOk result (λ parted. parted.operands.items ≡ operands_in valued.now words.now) }
{
    let mut parted = Parted {
        options: Vec::new(alloc),
        operands: Vec::new(alloc),
    };
    let mut mode = Mode::Options;
    for word in words {
        mode = push_word(valued, mode, *word, &mut parted)?;
    }
    Ok(parted)
}

/// Appends the word where it belongs, and returns what the next word may be.
fn push_word<'w>(
    valued: &[&str],
    mode: Mode,
    word: Word<'w>,
    parted: &mut Parted<'w>,
) -> Result<Mode, AllocError>
    ensures options { OnOk result (parted.new.options.items ≡ parted.old.options.items ++ as_option mode word.entry) }
    ensures operands { OnOk result (parted.new.operands.items ≡ parted.old.operands.items ++ as_operand mode
        word.entry) }
    ensures mode { IfOk result (λ next. next ≡ mode_next valued.now mode word.entry) }
{
    match mode {
        Mode::Options => push_first(valued, word, parted),
        Mode::Value => {
            parted.options.push(word)?;
            Ok(Mode::Options)
        }
        Mode::Rest => {
            parted.operands.push(word)?;
            Ok(Mode::Rest)
        }
    }
}

/// The same of a word that may be an option.
fn push_first<'w>(
    valued: &[&str],
    word: Word<'w>,
    parted: &mut Parted<'w>,
) -> Result<Mode, AllocError>
    ensures options { OnOk result (parted.new.options.items ≡ parted.old.options.items ++ as_option Options
        word.entry) }
    ensures operands { OnOk result (parted.new.operands.items ≡ parted.old.operands.items ++ as_operand Options
        word.entry) }
    ensures mode { IfOk result (λ next. next ≡ mode_next valued.now Options word.entry) }
{
    if is_same(word.bytes, b"--") {
        return Ok(Mode::Rest);
    }
    if !is_option(word.bytes) {
        parted.operands.push(word)?;
        return Ok(Mode::Options);
    }
    parted.options.push(word)?;
    Ok(mode_after_option(valued, word.bytes))
}

/// Returns what the word after this option may be.
fn mode_after_option(valued: &[&str], bytes: &[u8]) -> Mode
    ensures { result ≡ mode_after_option valued.now bytes.now }
{
    if is_one_of(valued, bytes) {
        return Mode::Value;
    }
    Mode::Options
}

/// Returns whether the word begins with a hyphen, and has more bytes.
fn is_option(bytes: &[u8]) -> bool
    ensures { result ≡ is_option bytes.now }
{
    bytes.len() > 1 && bytes[0] == b'-'
}

/// Returns whether the bytes are one of these names.
#[tactic(auto, using(std::proofs::lemmas::List::Folds::list_any_at))]
fn is_one_of(names: &[&str], bytes: &[u8]) -> bool
    ensures { result ≡ is_one_of names.now bytes.now }
{
    for name in names {
        if is_same(name.as_bytes(), bytes) {
            return true;
        }
    }
    false
}

/// Returns whether these are the same bytes.
fn is_same(bytes: &[u8], other: &[u8]) -> bool
    ensures { result ≡ bytes_eq bytes.now other.now }
{
    bytes == other
}
