//! Where a text is not a pattern.
ghost use Rattle.std.specs.Prelude.{[], pos, ◌∷◌, ◌≡◌, ◌≢◌};
ghost use Rattle.nfa_c.specs.Options.{builder_in};
ghost use Rattle.nfa_c.specs.Places.{ArePatterns, IsPattern, IsPlace, SaysNoPlace, SaysNoSetPlace, WritesPlace};
ghost use Rattle.nfa_c.specs.Places.{place_of};
ghost use Rattle.nfa_c.specs.Texts.{AreTexts, texts_in};

use crate::codes::{FOUND, Failure, NONE, PATTERN, code};
use crate::compile::build;
use crate::options::{self, NfaOptions};
use crate::search::NfaMatch;
use crate::set_compile::{SetFailure, build_set, set_code};
use nfa_meta::CompileError;
use std::alloc::Global;

/// Writes the place of the error, if it has one. Returns the code of an error otherwise.
fn write_place(error: &CompileError, place: &mut NfaMatch) -> i32
    ensures { WritesPlace (place_of error.now) result place.old place.new }
{
    match error {
        CompileError::Syntax(error) => {
            let span = error.span();
            *place = NfaMatch {
                pattern: error.pattern(),
                start: span.start,
                end: span.end,
            };
            FOUND
        }
        _ => PATTERN,
    }
}

/// Compiles the pattern with these settings, and writes where it is wrong: the bytes of the text, and the pattern 0.
/// Finds nothing if it can be compiled. Returns the code of the error if that has no place.
#[unsafe(no_mangle)]
pub extern "C" fn nfa_regex_place(
    alloc: Global,
    pattern: &[u8],
    options: &NfaOptions,
    place: &mut NfaMatch,
) -> i32
    ensures place { result ≡ pos 1 → IsPlace (builder_in options.now) (pattern.now ∷ []) place.new }
    ensures none { result ≡ pos 0 → IsPattern (builder_in options.now) pattern.now }
    ensures why { result ≢ pos 1 → result ≢ pos 0 → SaysNoPlace (builder_in options.now) pattern.now result }
    ensures stays { result ≢ pos 1 → place.new ≡ place.old }
{
    match build(alloc, &options::builder(options), pattern) {
        Ok(_) => NONE,
        Err(Failure::Pattern(error)) => write_place(&error, place),
        Err(failure) => code(&failure),
    }
}

/// The same for the patterns of a set. The place has the number of the pattern, and the bytes of its own text.
#[unsafe(no_mangle)]
pub extern "C" fn nfa_regex_set_place(
    alloc: Global,
    text: &[u8],
    ends: &[usize],
    options: &NfaOptions,
    place: &mut NfaMatch,
) -> i32
    ensures place { result ≡ pos 1 → IsPlace (builder_in options.now) (texts_in text.now ends.now) place.new }
    ensures none { result ≡ pos 0 → ArePatterns (builder_in options.now) (texts_in text.now ends.now) }
    ensures texts { result ≡ pos 0 → AreTexts text.now ends.now }
    ensures why { result ≢ pos 1 → result ≢ pos 0 →
        SaysNoSetPlace (builder_in options.now) text.now ends.now result }
    ensures stays { result ≢ pos 1 → place.new ≡ place.old }
{
    match build_set(alloc, &options::builder(options), text, ends) {
        Ok(_) => NONE,
        Err(SetFailure::Patterns(error)) => write_place(&error, place),
        Err(failure) => set_code(&failure),
    }
}
