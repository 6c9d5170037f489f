//! Texts of one length, one of which each match begins with, and a search for them.
ghost use Rattle.std.specs.Prelude.{◌≡◌, ◌+◌, ◌++◌, ◌∷◌, [], ◌<◌, ◌≤◌, ℕ, IfOk, IfSome, List, MatchOption, OnOk};
ghost use Rattle.std.specs.Prelude.{length};
ghost use Rattle.regex_literal.specs.ByteSets.{IsInSet};
ghost use Rattle.regex_literal.specs.Find.{AnyOccursAt, NoneBefore, Nowhere, OccursAt};
ghost use Rattle.regex_literal.specs.Levels.{FitsLevels};
ghost use Rattle.nfa_facts.specs.Needles.{BeginsWithOne, texts_now};

use regex_literal::{Bounded, Prefilter, ascii_share};
use std::alloc::{AllocError, Global};

/// The most texts that are sought at once.
const MAX_TEXTS: usize = 64;

/// The most positions of a million bytes of usual text at which one of them may be.
const MAX_PER_MILLION: u64 = 10_000;

/// Returns a search for the texts that have a byte of each of the first levels in turn, of as many levels as leave at
/// most 64 texts. Returns `None` if that leaves only one, or texts that are not rare.
pub fn needles(alloc: Global, levels: &[[bool; 256]]) -> Result<Option<Prefilter>, AllocError>
    ensures { IfOk result (λ found. IfSome found (λ needles. (hay : List ℕ) (k : ℕ) → FitsLevels hay levels.now k
        → AnyOccursAt hay needles k)) }
{
    let texts = texts_of(alloc, levels)?;
    if texts.len() < 2 || !are_rare(&texts, levels) {
        return Ok(None);
    }
    Prefilter::new(alloc, texts)
}

/// Returns a search for this text alone.
pub fn needle(alloc: Global, text: &[u8]) -> Result<Option<Prefilter>, AllocError>
    ensures { IfOk result (λ found. IfSome found (λ needles. (hay : List ℕ) (k : ℕ) → OccursAt hay text.now k
        → AnyOccursAt hay needles k)) }
{
    let mut texts = Vec::new(alloc);
    texts.push(Vec::from_slice(alloc, text)?)?;
    Prefilter::new(alloc, texts)
}

/// Whether the bytes of the levels that the texts have are rare in usual text.
fn are_rare(texts: &[Vec<u8>], levels: &[[bool; 256]]) -> bool {
    let length = match texts.first() {
        Some(text) => text.len().min(levels.len()),
        None => 0,
    };
    let mut per_million: u64 = 1_000_000;
    for index in 0..length {
        per_million = per_million.saturating_mul(ascii_share(&levels[index])) >> 16;
    }
    per_million <= MAX_PER_MILLION
}

/// Returns the first position from `from` on at which one of the needles is in the text, or an earlier one before which
/// none is. Returns `None` if there is none.
pub fn next_needle(needles: &Prefilter, text: &[u8], from: usize) -> Option<usize>
    requires { from ≤ length text.now }
    ensures { MatchOption result (Nowhere (AnyOccursAt text.now needles.now) from (length text.now + 1))
        (NoneBefore (AnyOccursAt text.now needles.now) from (length text.now + 1)) }
{
    match needles.find_bounded(text, from) {
        Bounded::Found(at, _) => Some(at),
        Bounded::Tired(at) => Some(at),
        Bounded::Missing => None,
    }
}

/// Returns the texts that have a byte of each of the first levels in turn, of as many levels as leave at most 64 texts.
fn texts_of(alloc: Global, levels: &[[bool; 256]]) -> Result<Vec<Vec<u8>>, AllocError>
    ensures { IfOk result (λ texts. (hay : List ℕ) (k : ℕ) → FitsLevels hay levels.now k
        → AnyOccursAt hay (texts_now texts.items) k) }
{
    let mut texts = empty_text(alloc)?;
    for level in levels {
        if texts.len().saturating_mul(count_of(level)) > MAX_TEXTS {
            return Ok(texts);
        }
        texts = lengthened(alloc, &texts, level)?;
    }
    Ok(texts)
}

/// Returns the empty text alone.
fn empty_text(alloc: Global) -> Result<Vec<Vec<u8>>, AllocError>
    ensures { IfOk result (λ texts. texts_now texts.items ≡ [] ∷ []) }
{
    let mut texts = Vec::new(alloc);
    texts.push(Vec::new(alloc))?;
    Ok(texts)
}

/// Returns the number of bytes of the level.
fn count_of(level: &[bool; 256]) -> usize {
    let mut count: usize = 0;
    for has in level {
        if *has {
            count = count.saturating_add(1);
        }
    }
    count
}

/// Returns each text with each byte of the level after it.
fn lengthened(
    alloc: Global,
    texts: &[Vec<u8>],
    level: &[bool; 256],
) -> Result<Vec<Vec<u8>>, AllocError>
    ensures { IfOk result (λ longer. (hay : List ℕ) (count k : ℕ)
        → BeginsWithOne hay (texts_now texts.now) count k → k + count < length hay
        → IsInSet level.now hay (k + count) → BeginsWithOne hay (texts_now longer.items) (count + 1) k) }
{
    let mut longer = Vec::new(alloc);
    for text in texts {
        add_longer(alloc, &mut longer, text, level)?;
    }
    Ok(longer)
}

/// Adds the text with each byte of the level after it.
fn add_longer(
    alloc: Global,
    longer: &mut Vec<Vec<u8>>,
    text: &[u8],
    level: &[bool; 256],
) -> Result<(), AllocError>
    ensures keeps { OnOk result ((hay : List ℕ) (count k : ℕ)
        → BeginsWithOne hay (texts_now longer.old.items) count k
        → BeginsWithOne hay (texts_now longer.new.items) count k) }
    ensures adds { OnOk result ((hay : List ℕ) (k : ℕ) → OccursAt hay text.now k
        → k + length text.now < length hay → IsInSet level.now hay (k + length text.now)
        → BeginsWithOne hay (texts_now longer.new.items) (length text.now + 1) k) }
{
    for byte in 0..256usize {
        if level[byte] {
            let with_byte = text_and_byte(alloc, text, byte as u8)?;
            longer.push(with_byte)?;
        }
    }
    Ok(())
}

/// Returns the text with the byte after it.
fn text_and_byte(alloc: Global, text: &[u8], byte: u8) -> Result<Vec<u8>, AllocError>
    ensures { IfOk result (λ longer. longer.items ≡ text.now ++ byte ∷ []) }
{
    let mut longer = Vec::from_slice(alloc, text)?;
    longer.push(byte)?;
    Ok(longer)
}
