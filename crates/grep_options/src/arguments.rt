//! The arguments of the program.
use crate::error::OptionsError;
use crate::marked::{is_marked, marked, without_mark};
use std::alloc::{AllocError, Global};
use std::env::FillError;
use std::io::ErrorKind;
use std::rt::Env;
use std::{env, io};

/// More bytes than the system passes in one argument.
const LONGEST: usize = 1 << 17;

/// Returns all arguments, the first of which is the name of the program. One that is not UTF-8 is marked.
pub fn arguments(rt: &HostRuntime) -> Result<Vec<String>, OptionsError> {
    match env::args(rt) {
        Ok(words) => Ok(words.collect(rt.alloc())?),
        Err(error) if error.kind() == ErrorKind::OutOfMemory => Err(OptionsError::Memory),
        Err(error) => marked_arguments(rt, error),
    }
}

/// Returns all arguments, of which some are marked. Fails with this error if they cannot be read.
fn marked_arguments(rt: &HostRuntime, error: io::Error) -> Result<Vec<String>, OptionsError> {
    let mut buffer = vec![in rt.alloc(); 0u8; LONGEST]?;
    let mut words = Vec::new(rt.alloc());
    for number in 0..usize::MAX {
        match rt.arg(number, &mut buffer) {
            Ok(len) => words.push(marked(rt.alloc(), &buffer[..len])?)?,
            Err(FillError::NotPresent) => return Ok(words),
            Err(FillError::TooLong) => return Err(OptionsError::Arguments(error)),
        }
    }
    Ok(words)
}

/// Fails if one of these values is marked. The error names the argument, which the value is or ends.
pub fn need_text(alloc: Global, words: &[&str], values: &[&str]) -> Result<(), OptionsError> {
    for value in values {
        if is_marked(value) {
            return Err(not_text(alloc, words, value)?);
        }
    }
    Ok(())
}

/// Names the argument that is this value or ends with it.
fn not_text(alloc: Global, words: &[&str], value: &str) -> Result<OptionsError, AllocError> {
    let mut number = 0;
    for (at, word) in words.iter().enumerate() {
        if number == 0 && word.ends_with(value) {
            number = at;
        }
    }
    let text = words.get(number).copied().unwrap_or(value);
    Ok(OptionsError::NotText(number, String::from_str(alloc, without_mark(text))?))
}
