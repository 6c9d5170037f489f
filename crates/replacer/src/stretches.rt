//! The stretches of a template, in each of which letters get one case.
ghost use Rattle.std.specs.Prelude.{◌≡◌, IfErr, IfOk, map};
ghost use Rattle.replacer.specs.Escapes.{IsBadEscape};
ghost use Rattle.replacer.specs.Stretches.{AreAllStretches, AreStretches, IsBadTemplate, all_stretched, opened};
ghost use Rattle.replacer.specs.Stretches.{stretched, stretches_of};

use crate::case::CaseEscape;
use crate::escapes::{EscapeError, Sign, push_sign, signs_of};
use std::alloc::{AllocError, AllocFailed, Global};

/// An escape of the case, and what is after it in a template, up to the next one.
#[derive(Debug, Drop)]
pub struct Stretch {
    pub escape: CaseEscape,
    /// Where the text begins in the template.
    pub start: usize,
    /// The text without escapes: with what they stand for in their places, and with two dollars for an escaped one.
    pub text: Vec<u8>,
}

impl Stretch {
    /// Returns a stretch with no text yet.
    fn new(alloc: Global, escape: CaseEscape, start: usize) -> Stretch
        ensures { stretched result ≡ opened escape start }
    {
        Stretch {
            escape,
            start,
            text: Vec::new(alloc),
        }
    }
}

/// A template whose escapes cannot be read.
#[derive(Clone, Copy, Debug)]
pub struct BadTemplate {
    /// Its number; 0 if allocation failed.
    pub number: usize,
    pub error: EscapeError,
}

impl<T: Drop> From<AllocFailed<T>> for BadTemplate {
    ghost use Rattle.std.specs.Prelude.{◌≡◌};
    ghost use Rattle.replacer.specs.declared.escapes.EscapeError.TheVariants as error;

    ghost from_gives = { λ _ made. made ≡ record { number = 0; error = error.Memory } };

    fn from(_: AllocFailed<T>) -> BadTemplate {
        BadTemplate {
            number: 0,
            error: EscapeError::Memory,
        }
    }
}

/// Returns the stretches of each of these templates. Fails as [`stretches_of`] does for the first one that fails.
pub fn all_stretches(alloc: Global, templates: &[&[u8]]) -> Result<Vec<Vec<Stretch>>, BadTemplate>
    ensures made { IfOk result (λ made.
        AreAllStretches templates.now (all_stretched made.items)) }
    ensures mistake { IfErr result (IsBadTemplate (map (λ text. text.now) templates.now)) }
{
    let mut all = Vec::new(alloc);
    for (number, template) in templates.iter().enumerate() {
        match stretches_of(alloc, template) {
            Ok(stretches) => all.push(stretches)?,
            Err(error) => return Err(BadTemplate { number, error }),
        }
    }
    Ok(all)
}

/// Returns the stretches of a template, whose escapes are read. The first one is as if `\E` were before it. Fails if an
/// escape stands for nothing, or if allocation failed.
pub fn stretches_of(alloc: Global, text: &[u8]) -> Result<Vec<Stretch>, EscapeError>
    ensures made { IfOk result (λ made. AreStretches text.now (map stretched made.items)) }
    ensures mistake { IfErr result (IsBadEscape text.now) }
{
    let signs = signs_of(alloc, text)?;
    let Ok(made) = parted(alloc, &signs) else {
        return Err(EscapeError::Memory);
    };
    Ok(made)
}

/// Returns the stretches of these signs.
fn parted(alloc: Global, signs: &[Sign]) -> Result<Vec<Stretch>, AllocError>
    ensures { IfOk result (λ made. map stretched made.items ≡ stretches_of signs.now) }
{
    let mut stretches = Vec::new(alloc);
    let mut begun = Stretch::new(alloc, CaseEscape::End, 0);
    for sign in signs {
        if let Sign::Case(escape, start) = *sign {
            stretches.push(begun)?;
            begun = Stretch::new(alloc, escape, start);
        } else {
            push_sign(&mut begun.text, *sign)?;
        }
    }
    stretches.push(begun)?;
    Ok(stretches)
}
