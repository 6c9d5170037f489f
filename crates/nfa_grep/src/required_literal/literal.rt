//! The bytes that each match of some patterns has.
ghost use Rattle.std.specs.Prelude.{◌≡◌, IfOk};
ghost use Rattle.regex_hir.specs.Meaning.{meaning};
ghost use Rattle.nfa_compiler.specs.Compiled.{res_of};
ghost use Rattle.nfa_grep.specs.Required.{AreRequired, IsRequired, OccursIn};

use crate::required_literal::shared::shared_by_all;
use nfa_compiler::Parsed;
use regex_extract::required;
use std::alloc::{AllocError, Global};

/// The maximum length of the bytes. Up to this length, a search for them prepares no table.
const MAX_LENGTH: usize = 32;

/// Returns bytes that each match of these patterns has, wherever it is in a text.
///
/// They are empty if there are no such bytes, or if none are found. They have at most 32 bytes. The only error is that
/// an allocation failed.
///
/// ```
/// // "(?:foo|bar)=[a-z]+"
/// let bytes = required_literal(alloc, &trees)?;
/// assert!(rt; &bytes[..] == b"=");
/// ```
pub fn required_literal(alloc: Global, patterns: &[Parsed]) -> Result<Vec<u8>, AllocError>
    ensures { IfOk result (λ bytes. AreRequired (res_of patterns.now) bytes.items) }
{
    let first = candidate(alloc, patterns)?;
    let mut bytes = first.as_slice();
    for pattern in patterns {
        bytes = required_part(alloc, bytes, pattern)?;
    }
    Vec::from_slice(alloc, bytes)
}

/// Returns the start of bytes that a match of the first pattern may have.
fn candidate(alloc: Global, patterns: &[Parsed]) -> Result<Vec<u8>, AllocError> {
    let Some(first) = patterns.first() else {
        return Ok(Vec::new(alloc));
    };
    let Some(needles) = required(alloc, &first.hir)? else {
        return Ok(Vec::new(alloc));
    };
    match needles.first() {
        Some(needle) => Vec::from_slice(alloc, &needle[..needle.len().min(MAX_LENGTH)]),
        None => Ok(Vec::new(alloc)),
    }
}

/// Returns a part of these bytes that each match of the pattern has.
fn required_part<'b>(
    alloc: Global,
    bytes: &'b [u8],
    pattern: &Parsed,
) -> Result<&'b [u8], AllocError>
    ensures inside { IfOk result (λ part. OccursIn bytes.now part.now) }
    ensures required { IfOk result (λ part. IsRequired part.now (meaning pattern.now.hir)) }
{
    if bytes.is_empty() {
        return Ok(bytes);
    }
    let found = required(alloc, &pattern.hir)?;
    match found {
        Some(needles) => Ok(shared_by_all(bytes, &needles)),
        None => Ok(&bytes[..0]),
    }
}
