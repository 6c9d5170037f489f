//! Texts one after the other in one, each up to its end: C has no slice of slices.
ghost use Rattle.std.specs.Prelude.{IfErr, IfOk, IsTrue, map, ◌≡◌, ◌↔◌};
ghost use Rattle.nfa_c.specs.Sets.{IsWhyNoSet};
ghost use Rattle.nfa_c.specs.Texts.{AreEnds, AreTexts, AreUtf8, texts_in};
ghost use Rattle.nfa_meta.specs.declared.builder.Builder.{Builder};

use crate::set_compile::SetFailure;
use std::alloc::{AllocError, Global};

/// Returns whether the ends rise, and are in the text.
fn are_ends(text: &[u8], ends: &[usize]) -> bool
    ensures { IsTrue result ↔ AreEnds text.now ends.now }
{
    let mut from = 0;
    for end in ends {
        if *end < from || *end > text.len() {
            return false;
        }
        from = *end;
    }
    true
}

/// Returns whether each text up to one of these ends is UTF-8.
fn are_utf8(text: &[u8], ends: &[usize]) -> bool
    requires { AreEnds text.now ends.now }
    ensures { IsTrue result ↔ AreUtf8 (texts_in text.now ends.now) }
{
    let mut from = 0;
    for end in ends {
        if std::str::from_utf8(&text[from..*end]).is_err() {
            return false;
        }
        from = *end;
    }
    true
}

/// Reads the texts up to these ends.
fn read<'t>(alloc: Global, text: &'t [u8], ends: &[usize]) -> Result<Vec<&'t str>, AllocError>
    requires { AreTexts text.now ends.now }
    ensures { IfOk result (λ texts. map (λ text. text.now) texts.items ≡ texts_in text.entry.now ends.now) }
{
    let mut texts = Vec::new(alloc);
    let mut from = 0;
    for end in ends {
        texts.push(std::str::from_utf8(&text[from..*end]).unwrap())?;
        from = *end;
    }
    Ok(texts)
}

/// Returns the texts up to these ends. Each begins where the one before it ends.
pub(crate) fn texts_of<'t>(
    alloc: Global,
    text: &'t [u8],
    ends: &[usize],
) -> Result<Vec<&'t str>, SetFailure>
    ensures texts { IfOk result (λ texts. map (λ text. text.now) texts.items ≡ texts_in text.entry.now ends.now) }
    ensures right { IfOk result (λ _. AreTexts text.entry.now ends.now) }
    ensures why { IfErr result (λ failure. (b : Builder) → IsWhyNoSet b text.entry.now ends.now failure) }
{
    if !are_ends(text, ends) {
        return Err(SetFailure::Range);
    }
    if !are_utf8(text, ends) {
        return Err(SetFailure::Utf8);
    }
    match read(alloc, text, ends) {
        Ok(texts) => Ok(texts),
        Err(_) => Err(SetFailure::Memory),
    }
}
