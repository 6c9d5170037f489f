//! Handles of sets are filled, copied and emptied.
ghost use Rattle.std.specs.Prelude.{IfErr, IfOk, IsSome, IsSomeAnd, None, pos, ◌≡◌, ◌≢◌, ◌⊎◌};
ghost use Rattle.nfa_c.specs.Codes.{empty_code, memory_code};
ghost use Rattle.nfa_c.specs.Options.{builder_in};
ghost use Rattle.nfa_c.specs.Sets.{IsCopySet, IsMadeSet, IsWhyNoSet, SaysWhyNoSet, set_failure_code};
ghost use Rattle.nfa_c.specs.Texts.{AreTexts, texts_in};

use crate::codes::{EMPTY, MEMORY, OK, PATTERN, RANGE, UTF8};
use crate::options::{self, NfaOptions};
use crate::set_handle::{CompiledSet, NfaSet, full_set, take_set};
use crate::texts::texts_of;
use nfa_meta::{BuildError, Builder, CompileError, RegexSet};
use std::alloc::{AllocError, Global};

/// The reason why no set was made of texts.
#[derive(Drop)]
pub enum SetFailure {
    /// Allocation failed.
    Memory,
    /// The ends of the texts do not rise, or are past the end.
    Range,
    /// A text is not UTF-8.
    Utf8,
    /// The texts could not be compiled.
    Patterns(CompileError),
}

/// Returns what an export returns for the failure.
pub(crate) fn set_code(failure: &SetFailure) -> i32
    ensures code { result ≡ set_failure_code failure.now }
    ensures failed { (result ≢ pos 0) × (result ≢ pos 1) }
{
    match failure {
        SetFailure::Memory => MEMORY,
        SetFailure::Range => RANGE,
        SetFailure::Utf8 => UTF8,
        SetFailure::Patterns(_) => PATTERN,
    }
}

/// Boxes the set.
fn boxed_set(alloc: Global, set: RegexSet) -> Result<Box<CompiledSet, Global>, AllocError>
    ensures { IfOk result (λ made. made.value.set ≡ set) }
{
    match Box::new(alloc, CompiledSet { set }) {
        Ok(made) => Ok(made),
        Err(_) => Err(AllocError),
    }
}

/// Makes what a handle of these patterns owns.
pub(crate) fn build_set(
    alloc: Global,
    builder: &Builder,
    text: &[u8],
    ends: &[usize],
) -> Result<Box<CompiledSet, Global>, SetFailure>
    ensures made { IfOk result (λ made. IsMadeSet builder.now (texts_in text.now ends.now) made.value) }
    ensures texts { IfOk result (λ _. AreTexts text.now ends.now) }
    ensures why { IfErr result (IsWhyNoSet builder.now text.now ends.now) }
{
    let patterns = match texts_of(alloc, text, ends) {
        Ok(patterns) => patterns,
        Err(failure) => return Err(failure),
    };
    let set = match builder.build_set(alloc, &patterns) {
        Ok(set) => set,
        Err(BuildError::Memory) => return Err(SetFailure::Memory),
        Err(BuildError::Compile(error)) => return Err(SetFailure::Patterns(error)),
    };
    match boxed_set(alloc, set) {
        Ok(made) => Ok(made),
        Err(_) => Err(SetFailure::Memory),
    }
}

/// Compiles the patterns with these settings, and frees what the handle had. They are in one text, each from the end of
/// the one before it up to its own. If this fails, the handle is empty.
#[unsafe(no_mangle)]
pub extern "C" fn nfa_regex_set_new_with(
    alloc: Global,
    set: &mut NfaSet,
    text: &[u8],
    ends: &[usize],
    options: &NfaOptions,
) -> i32
    ensures made { result ≡ pos 0 → IsSomeAnd set.new.slot.value
        (IsMadeSet (builder_in options.now) (texts_in text.now ends.now)) }
    ensures texts { result ≡ pos 0 → AreTexts text.now ends.now }
    ensures failed { result ≢ pos 0 → set.new.slot.value ≡ None }
    ensures why { result ≢ pos 0 → SaysWhyNoSet (builder_in options.now) text.now ends.now result }
{
    drop(take_set(set, alloc));
    match build_set(alloc, &options::builder(options), text, ends) {
        Ok(made) => {
            *set = full_set(made);
            OK
        }
        Err(failure) => set_code(&failure),
    }
}

/// Empties the handle, and frees what it had.
#[unsafe(no_mangle)]
pub extern "C" fn nfa_regex_set_free(alloc: Global, set: &mut NfaSet)
    ensures empty { set.new.slot.value ≡ None }
{
    drop(take_set(set, alloc));
}

/// Makes a set for the same NFA with the same settings and empty caches.
fn copied_set(alloc: Global, own: &CompiledSet) -> Result<Box<CompiledSet, Global>, AllocError>
    ensures copy { IfOk result (λ made. IsCopySet own.now made.value) }
{
    let Ok(set) = own.set.clone(alloc) else {
        return Err(AllocError);
    };
    boxed_set(alloc, set)
}

/// Fills the second handle with a copy that has caches of its own, and frees what it had. If it fails, that handle is
/// empty.
#[unsafe(no_mangle)]
pub extern "C" fn nfa_regex_set_clone(alloc: Global, from: &mut NfaSet, to: &mut NfaSet) -> i32
    ensures copy { result ≡ pos 0 → IsSomeAnd from.old.slot.value
        (λ own. IsSomeAnd to.new.slot.value (IsCopySet own)) }
    ensures failed { result ≢ pos 0 → to.new.slot.value ≡ None }
    ensures empty { from.old.slot.value ≡ None → result ≡ empty_code }
    ensures full { IsSome from.old.slot.value → (result ≡ pos 0) ⊎ (result ≡ memory_code) }
    ensures keeps { from.new.slot.value ≡ from.old.slot.value }
{
    drop(take_set(to, alloc));
    let Some(own) = take_set(from, alloc) else {
        return EMPTY;
    };
    let copy = copied_set(alloc, &own);
    *from = full_set(own);
    match copy {
        Ok(made) => {
            *to = full_set(made);
            OK
        }
        Err(_) => MEMORY,
    }
}
