//! Why a text is no pattern, in words.
ghost use Rattle.std.specs.Prelude.{IfOk, string_bytes, ◌≡◌, ◌≢◌};
ghost use Rattle.nfa_compiler.specs.Rejected.{only_pattern_text};
ghost use Rattle.nfa_c.specs.Codes.{SaysFailure, TellsWhy};
ghost use Rattle.nfa_c.specs.Options.{builder_in};
ghost use Rattle.nfa_c.specs.Places.{IsPattern};

use crate::codes::{Failure, NO_MEMORY};
use crate::compile::build;
use crate::options::{self, NfaOptions};
use crate::room::write_words;
use nfa_compiler::OnlyPattern;
use nfa_meta::CompileError;
use std::alloc::{AllocError, Global};

/// Returns what is to be said of the error.
fn words(alloc: Global, error: CompileError) -> Result<String, AllocError>
    ensures { IfOk result (λ words. string_bytes words ≡ only_pattern_text error) }
{
    let only = OnlyPattern(error);
    format!(in alloc; "{only}")
}

/// Writes what the failure is or, if memory is refused for the words, that. Returns the length of the message.
fn write_failure(alloc: Global, failure: Failure, message: &mut [u8]) -> usize
    ensures says { SaysFailure failure result message.old message.new }
    ensures some { result ≢ 0 }
{
    let error = match failure {
        Failure::Memory => return write_words(NO_MEMORY, message),
        Failure::Utf8 => return write_words("the pattern is not UTF-8", message),
        Failure::Pattern(error) => error,
    };
    let Ok(words) = words(alloc, error) else {
        return write_words(NO_MEMORY, message);
    };
    if words.is_empty() {
        return write_words(NO_MEMORY, message);
    }
    write_words(words.as_str(), message)
}

/// Compiles the pattern with these settings, and writes why it is none, as far as there is room. Returns the length of
/// the message, or 0 if the pattern can be compiled.
#[unsafe(no_mangle)]
pub extern "C" fn nfa_regex_why(
    alloc: Global,
    pattern: &[u8],
    options: &NfaOptions,
    message: &mut [u8],
) -> usize
    ensures why { result ≢ 0 → TellsWhy (builder_in options.now) pattern.now result message.old message.new }
    ensures none { result ≡ 0 → IsPattern (builder_in options.now) pattern.now }
    ensures stays { result ≡ 0 → message.new ≡ message.old }
{
    match build(alloc, &options::builder(options), pattern) {
        Ok(_) => 0,
        Err(failure) => write_failure(alloc, failure, message),
    }
}
