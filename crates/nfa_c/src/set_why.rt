//! Why texts are no patterns of a set, in words.
ghost use Rattle.std.specs.Prelude.{IfOk, string_bytes, ◌≡◌, ◌≢◌};
ghost use Rattle.nfa_compiler.specs.Rejected.{compile_error_text};
ghost use Rattle.nfa_c.specs.Options.{builder_in};
ghost use Rattle.nfa_c.specs.Places.{ArePatterns};
ghost use Rattle.nfa_c.specs.Sets.{SaysSetFailure, TellsWhyNoSet};
ghost use Rattle.nfa_c.specs.Texts.{AreTexts, texts_in};

use crate::codes::NO_MEMORY;
use crate::options::{self, NfaOptions};
use crate::room::write_words;
use crate::set_compile::{SetFailure, build_set};
use nfa_meta::CompileError;
use std::alloc::{AllocError, Global};

/// What is said if the ends are none of their text.
const NO_ENDS: &str = "the ends of the patterns do not rise, or are past the end of their text";

/// Returns what is to be said of the error.
fn set_words(alloc: Global, error: CompileError) -> Result<String, AllocError>
    ensures { IfOk result (λ words. string_bytes words ≡ compile_error_text error) }
{
    format!(in alloc; "{error}")
}

/// Writes what the failure is or, if memory is refused for the words, that. Returns the length of the message.
fn write_set_failure(alloc: Global, failure: SetFailure, message: &mut [u8]) -> usize
    ensures says { SaysSetFailure failure result message.old message.new }
    ensures some { result ≢ 0 }
{
    let error = match failure {
        SetFailure::Memory => return write_words(NO_MEMORY, message),
        SetFailure::Range => return write_words(NO_ENDS, message),
        SetFailure::Utf8 => return write_words("a pattern is not UTF-8", message),
        SetFailure::Patterns(error) => error,
    };
    let Ok(words) = set_words(alloc, error) else {
        return write_words(NO_MEMORY, message);
    };
    if words.is_empty() {
        return write_words(NO_MEMORY, message);
    }
    write_words(words.as_str(), message)
}

/// Compiles the patterns with these settings, and writes why they are none, as far as there is room. Returns the length
/// of the message, or 0 if they can be compiled.
#[unsafe(no_mangle)]
pub extern "C" fn nfa_regex_set_why(
    alloc: Global,
    text: &[u8],
    ends: &[usize],
    options: &NfaOptions,
    message: &mut [u8],
) -> usize
    ensures why { result ≢ 0 →
        TellsWhyNoSet (builder_in options.now) text.now ends.now result message.old message.new }
    ensures none { result ≡ 0 → ArePatterns (builder_in options.now) (texts_in text.now ends.now) }
    ensures texts { result ≡ 0 → AreTexts text.now ends.now }
    ensures stays { result ≡ 0 → message.new ≡ message.old }
{
    match build_set(alloc, &options::builder(options), text, ends) {
        Ok(_) => 0,
        Err(failure) => write_set_failure(alloc, failure, message),
    }
}
