//! The arguments of a program, as bytes, since an argument need not be text.
ghost use Rattle.std.specs.Prelude.{◌≡◌, IfErr, IfOk, map};
ghost use Rattle.std.specs.Str.{IsUtf8};

use std::alloc::{AllocError, Global};
use std::env::FillError;
use std::rt::Env;
use std::{fmt, str};

/// An argument.
#[derive(Clone, Copy, Debug)]
pub struct Word<'w> {
    /// Its place among all arguments, from 1.
    pub place: usize,
    pub bytes: &'w [u8],
}

/// An argument that is not UTF-8. The system's files have names of any bytes, but those of std have texts.
#[derive(Clone, Copy, Debug)]
pub struct NotText<'w> {
    pub word: Word<'w>,
}

impl<'w> Word<'w> {
    /// Returns the text of the argument. Fails if it is not UTF-8.
    pub fn text(self) -> Result<&'w str, NotText<'w>>
        ensures text { IfOk result (λ text. text.now ≡ self.entry.bytes.now) }
        ensures other { IfErr result (λ error. error.word ≡ self.entry) }
        ensures invalid { IfErr result (λ _. ¬ IsUtf8 self.entry.bytes.now) }
    {
        match str::from_utf8(self.bytes) {
            Ok(text) => Ok(text),
            Err(_) => Err(NotText { word: self }),
        }
    }
}

impl fmt::Display for NotText<'_> {
    /// Bytes that are not UTF-8 are shown as U+FFFD.
    fn fmt<W: fmt::Write>(&self, f: &mut fmt::Formatter<W>) -> fmt::Result {
        write!(f, "argument {} is not UTF-8: ", self.word.place)?;
        write_lossy(f, self.word.bytes)
    }
}

/// Writes these bytes as text.
fn write_lossy<W: fmt::Write>(f: &mut fmt::Formatter<W>, bytes: &[u8]) -> fmt::Result {
    for chunk in bytes.utf8_chunks() {
        f.write_str(chunk.valid())?;
        f.write_str(shown_invalid(chunk.invalid()))?;
    }
    Ok(())
}

/// Returns what is shown of bytes that are not UTF-8.
fn shown_invalid(bytes: &[u8]) -> &'static str {
    if bytes.is_empty() { "" } else { "\u{FFFD}" }
}

/// Returns the arguments of the program, in order, except for the first, which is its name. The only error is that
/// allocation failed.
pub fn arguments(rt: &HostRuntime) -> Result<Vec<Vec<u8>>, AllocError> {
    let mut arguments = Vec::new(rt.alloc());
    for place in 1..usize::MAX {
        let Some(argument) = argument(rt, place)? else {
            return Ok(arguments);
        };
        arguments.push(argument)?;
    }
    Ok(arguments)
}

/// Returns the argument at this place, if there is one.
fn argument(rt: &HostRuntime, place: usize) -> Result<Option<Vec<u8>>, AllocError> {
    let mut room = 64usize;
    for _ in 0..usize::BITS {
        let mut bytes = vec![in rt.alloc(); 0u8; room]?;
        match rt.arg(place, &mut bytes) {
            Ok(len) => {
                bytes.truncate(len);
                return Ok(Some(bytes));
            }
            Err(FillError::NotPresent) => return Ok(None),
            Err(FillError::TooLong) => room = room.saturating_add(room),
        }
    }
    // No argument is as long as this, nor is there memory for one.
    Err(AllocError)
}

/// Returns these arguments with their places. The only error is that allocation failed.
pub fn words<'w>(alloc: Global, arguments: &'w [Vec<u8>]) -> Result<Vec<Word<'w>>, AllocError> {
    let mut words = Vec::new(alloc);
    for (index, bytes) in arguments.iter().enumerate() {
        words.push(Word {
            place: index + 1,
            bytes,
        })?;
    }
    Ok(words)
}

/// Returns the texts of these arguments, or the first of them that is not UTF-8. The only other error is that
/// allocation failed.
pub fn texts<'w>(
    alloc: Global,
    words: &[Word<'w>],
) -> Result<Result<Vec<&'w str>, NotText<'w>>, AllocError>
    ensures { IfOk result (λ read. IfOk read (λ texts.
        map (λ text. text.now) texts.items ≡ map (λ word. word.bytes.now) words.now)) }
{
    let mut texts = Vec::new(alloc);
    for word in words {
        match word.text() {
            Ok(text) => texts.push(text)?,
            Err(error) => return Ok(Err(error)),
        }
    }
    Ok(Ok(texts))
}
