//! Handles are filled, copied and emptied.
ghost use Rattle.std.specs.Prelude.{IfErr, IfOk, IsSome, IsSomeAnd, None, [], pos, ◌∷◌, ◌≡◌, ◌≢◌, ◌⊎◌};
ghost use Rattle.nfa_meta.specs.Built.{default_builder};
ghost use Rattle.nfa_c.specs.Answers.{HasRow, IsCopy, IsMade};
ghost use Rattle.nfa_c.specs.Codes.{IsWhy, SaysWhy, empty_code, memory_code};
ghost use Rattle.nfa_c.specs.Options.{builder_in};

use crate::codes::{EMPTY, Failure, MEMORY, OK, code};
use crate::handle::{Compiled, NfaRegex, full, take};
use crate::options::{self, NfaOptions};
use nfa_meta::{BuildError, Builder, Regex};
use std::alloc::{AllocError, Global};

/// Makes the row for the regex, and boxes both.
fn boxed(alloc: Global, regex: Regex) -> Result<Box<Compiled, Global>, AllocError>
    ensures regex { IfOk result (λ made. made.value.regex ≡ regex) }
    ensures row { IfOk result (λ made. HasRow made.value) }
{
    let count = regex.group_info().slot_len();
    let row = Vec::from_elem(alloc, None, count)?;
    match Box::new(alloc, Compiled { regex, row }) {
        Ok(made) => Ok(made),
        Err(_) => Err(AllocError),
    }
}

/// Makes what a handle of this pattern owns.
pub(crate) fn build(
    alloc: Global,
    builder: &Builder,
    pattern: &[u8],
) -> Result<Box<Compiled, Global>, Failure>
    ensures made { IfOk result (λ made. IsMade builder.now (pattern.now ∷ []) made.value) }
    ensures why { IfErr result (IsWhy builder.now pattern.now) }
{
    let Ok(text) = std::str::from_utf8(pattern) else {
        return Err(Failure::Utf8);
    };
    let regex = match builder.build(alloc, text) {
        Ok(regex) => regex,
        Err(BuildError::Memory) => return Err(Failure::Memory),
        Err(BuildError::Compile(error)) => return Err(Failure::Pattern(error)),
    };
    match boxed(alloc, regex) {
        Ok(made) => Ok(made),
        Err(_) => Err(Failure::Memory),
    }
}

/// Compiles the pattern, and fills the handle. If this fails, the handle is empty.
fn fill(alloc: Global, regex: &mut NfaRegex, builder: &Builder, pattern: &[u8]) -> i32
    ensures made { result ≡ pos 0 → IsSomeAnd regex.new.slot.value (IsMade builder.now (pattern.now ∷ [])) }
    ensures failed { result ≢ pos 0 → regex.new.slot.value ≡ None }
    ensures why { result ≢ pos 0 → SaysWhy builder.now pattern.now result }
{
    drop(take(regex, alloc));
    match build(alloc, builder, pattern) {
        Ok(made) => {
            *regex = full(made);
            OK
        }
        Err(failure) => code(&failure),
    }
}

/// Compiles the pattern with the default settings, and frees what the handle had. If this fails, the handle is empty.
#[unsafe(no_mangle)]
pub extern "C" fn nfa_regex_new(alloc: Global, regex: &mut NfaRegex, pattern: &[u8]) -> i32
    ensures made { result ≡ pos 0 → IsSomeAnd regex.new.slot.value (IsMade default_builder (pattern.now ∷ [])) }
    ensures failed { result ≢ pos 0 → regex.new.slot.value ≡ None }
    ensures why { result ≢ pos 0 → SaysWhy default_builder pattern.now result }
{
    fill(alloc, regex, &Builder::new(), pattern)
}

/// Compiles the pattern with these settings, and frees what the handle had. If this fails, the handle is empty.
#[unsafe(no_mangle)]
pub extern "C" fn nfa_regex_new_with(
    alloc: Global,
    regex: &mut NfaRegex,
    pattern: &[u8],
    options: &NfaOptions,
) -> i32
    ensures made { result ≡ pos 0 → IsSomeAnd regex.new.slot.value
        (IsMade (builder_in options.now) (pattern.now ∷ [])) }
    ensures failed { result ≢ pos 0 → regex.new.slot.value ≡ None }
    ensures why { result ≢ pos 0 → SaysWhy (builder_in options.now) pattern.now result }
{
    fill(alloc, regex, &options::builder(options), pattern)
}

/// Empties the handle, and frees what it had.
#[unsafe(no_mangle)]
pub extern "C" fn nfa_regex_free(alloc: Global, regex: &mut NfaRegex)
    ensures empty { regex.new.slot.value ≡ None }
{
    drop(take(regex, alloc));
}

/// Makes a regex for the same NFA with the same settings and empty caches.
fn copied(alloc: Global, own: &Compiled) -> Result<Box<Compiled, Global>, AllocError>
    ensures copy { IfOk result (λ made. IsCopy own.now made.value) }
{
    let Ok(regex) = own.regex.clone(alloc) else {
        return Err(AllocError);
    };
    boxed(alloc, regex)
}

/// Fills the second handle with a copy that has caches of its own, and frees what it had. If it fails, that handle is
/// empty.
#[unsafe(no_mangle)]
pub extern "C" fn nfa_regex_clone(alloc: Global, from: &mut NfaRegex, to: &mut NfaRegex) -> i32
    ensures copy { result ≡ pos 0 → IsSomeAnd from.old.slot.value
        (λ own. IsSomeAnd to.new.slot.value (IsCopy own)) }
    ensures failed { result ≢ pos 0 → to.new.slot.value ≡ None }
    ensures empty { from.old.slot.value ≡ None → result ≡ empty_code }
    ensures full { IsSome from.old.slot.value → (result ≡ pos 0) ⊎ (result ≡ memory_code) }
    ensures keeps { from.new.slot.value ≡ from.old.slot.value }
{
    drop(take(to, alloc));
    let Some(own) = take(from, alloc) else {
        return EMPTY;
    };
    let copy = copied(alloc, &own);
    *from = full(own);
    match copy {
        Ok(made) => {
            *to = full(made);
            OK
        }
        Err(_) => MEMORY,
    }
}
