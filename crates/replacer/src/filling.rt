//! What comes in place of the matches of a pattern.
ghost use Rattle.std.specs.Prelude.{◌≡◌, ◌≤◌, ◌++◌, All, IfErr, IfOk, None, OnOk, length, map, slice_range};
ghost use Rattle.std.specs.List.{AllZip};
ghost use Rattle.regex_search_core.specs.PatternSets.{number_of};
ghost use Rattle.regex_search_core.specs.Search.{whole};
ghost use Rattle.nfa_engines.specs.Runs.{CapturesInside, match_in};
ghost use Rattle.nfa_engines.specs.Lists.{AreDisjoint};
ghost use Rattle.nfa_meta.specs.Templates.{filled};
ghost use Rattle.replacer.specs.Cased.{cased, casing_after, uncased};
ghost use Rattle.replacer.specs.Fillings.{IsBadPiece, IsBadStretch, IsPiece, pieces_in, put, put_from, written};
ghost use Rattle.replacer.specs.Stretches.{stretched};

use crate::case::{CaseEscape, Casing, push_cased};
use crate::stretches::Stretch;
use nfa_meta::interpolate::{Template, TemplateError};
use regex_search_core::{Captures, GroupInfo, PatternID};
use std::alloc::{AllocError, AllocFailed, Global};
use std::fmt;

/// A stretch of a template whose groups are read.
#[derive(Drop)]
pub struct Piece<'t> {
    pub escape: CaseEscape,
    pub template: Template<'t>,
}

/// A template whose escapes and groups are read.
#[derive(Drop)]
pub struct Filling<'t> {
    pub pieces: Vec<Piece<'t>>,
}

/// A stretch of a template whose groups cannot be read.
#[derive(Clone, Copy, Debug)]
pub struct BadStretch {
    /// Where its text begins in the template; 0 if allocation failed.
    pub start: usize,
    /// What is wrong, with offsets in the text of the stretch.
    pub error: TemplateError,
}

impl<T: Drop> From<AllocFailed<T>> for BadStretch {
    ghost use Rattle.std.specs.Prelude.{◌≡◌};
    ghost use Rattle.nfa_meta.specs.declared.interpolate.TemplateError.TheVariants as template;

    ghost from_gives = { λ _ made. made ≡ record { start = 0; error = template.Memory } };

    fn from(_: AllocFailed<T>) -> BadStretch {
        BadStretch {
            start: 0,
            error: TemplateError::Memory,
        }
    }
}

impl fmt::Display for BadStretch {
    /// Writes offsets in the template in which each escape but those of the case is what it stands for.
    fn fmt<W: fmt::Write>(&self, f: &mut fmt::Formatter<W>) -> fmt::Result {
        let from = self.start;
        let error = match self.error {
            TemplateError::Memory => TemplateError::Memory,
            TemplateError::UnknownGroup { start, end } => TemplateError::UnknownGroup {
                start: start.saturating_add(from),
                end: end.saturating_add(from),
            },
            TemplateError::Unclosed { dollar } => TemplateError::Unclosed {
                dollar: dollar.saturating_add(from),
            },
        };
        fmt::Display::fmt(&error, f)
    }
}

impl<'t> Filling<'t> {
    /// Reads the groups of these stretches, which are those of this pattern. Fails if a stretch names a group that the
    /// pattern does not have, if a brace is not closed, or if allocation failed.
    pub fn new(
        alloc: Global,
        stretches: &'t [Stretch],
        groups: &GroupInfo,
        pattern: PatternID,
    ) -> Result<Filling<'t>, BadStretch>
        ensures pieces { IfOk result (λ filling.
            AllZip (IsPiece groups.now (number_of pattern)) (map stretched stretches.now) filling.pieces.items) }
        ensures mistake { IfErr result (IsBadStretch groups.now (number_of pattern) (map stretched stretches.now)) }
    {
        let mut pieces = Vec::new(alloc);
        for stretch in stretches {
            pieces.push(piece_of(alloc, stretch, groups, pattern)?)?;
        }
        Ok(Filling { pieces })
    }
}

/// Reads the groups of this stretch.
fn piece_of<'t>(
    alloc: Global,
    stretch: &'t Stretch,
    groups: &GroupInfo,
    pattern: PatternID,
) -> Result<Piece<'t>, BadStretch>
    ensures piece { IfOk result (IsPiece groups.now (number_of pattern) (stretched stretch.now)) }
    ensures mistake { IfErr result (IsBadPiece groups.now (number_of pattern) (stretched stretch.now)) }
{
    match Template::parse(alloc, &stretch.text, groups, pattern) {
        Ok(template) => Ok(Piece {
            escape: stretch.escape,
            template,
        }),
        Err(error) => Err(BadStretch {
            start: stretch.start,
            error,
        }),
    }
}

/// Returns the haystack with what its filling gives in place of the match of each of these captures. The only error is
/// that allocation failed.
///
/// Requires captures of matches of the haystack that do not overlap, from left to right.
#[tactic(auto, using(std::proofs::lemmas::List::Elements::recursion_from_All))]
pub fn fill_all(
    alloc: Global,
    haystack: &[u8],
    fillings: &[Filling<'_>],
    caught: Vec<Captures>,
) -> Result<Vec<u8>, AllocError>
    requires inside { All (CapturesInside (whole haystack.now)) caught.items }
    requires apart { AreDisjoint (whole haystack.now) None (map match_in caught.items) }
    ensures { IfOk result (λ output.
        output.items ≡ put_from haystack.now (pieces_in fillings.now) 0 caught.items) }
{
    let mut output = Vec::new(alloc);
    let mut from = 0;
    for captures in caught {
        from = copy_to_match(haystack, from, &captures, &mut output)?;
        fill(alloc, haystack, fillings, &captures, &mut output)?;
    }
    output.extend_from_slice(&haystack[from..])?;
    Ok(output)
}

/// Appends the haystack from an offset to the match of these captures. Returns the end of the match.
fn copy_to_match(
    haystack: &[u8],
    from: usize,
    captures: &Captures,
    output: &mut Vec<u8>,
) -> Result<usize, AllocError>
    requires inside { CapturesInside (whole haystack.now) captures.now }
    requires before { from ≤ (match_in captures.now).start }
    ensures output { OnOk result (output.new.items
        ≡ output.old.items ++ slice_range haystack.now from (match_in captures.now).start) }
    ensures end { IfOk result (λ end. end ≡ (match_in captures.now).end) }
{
    let Some(found) = captures.get_match() else {
        unreachable!()
    };
    output.extend_from_slice(&haystack[from..found.start()])?;
    Ok(found.end())
}

/// Appends what comes in place of the match of these captures: by the filling that has the number of its pattern.
fn fill(
    alloc: Global,
    haystack: &[u8],
    fillings: &[Filling<'_>],
    captures: &Captures,
    output: &mut Vec<u8>,
) -> Result<(), AllocError>
    requires { CapturesInside (whole haystack.now) captures.now }
    ensures { OnOk result (output.new.items
        ≡ output.old.items ++ put haystack.now (pieces_in fillings.now) captures.now) }
{
    let Some(pattern) = captures.pattern() else {
        return Ok(());
    };
    if pattern.as_usize() >= fillings.len() {
        return Ok(());
    }
    write_pieces(
        alloc,
        haystack,
        &fillings[pattern.as_usize()].pieces,
        captures,
        output,
    )
}

/// Appends the pieces, filled by these captures, each in its case.
fn write_pieces(
    alloc: Global,
    haystack: &[u8],
    pieces: &[Piece<'_>],
    captures: &Captures,
    output: &mut Vec<u8>,
) -> Result<(), AllocError>
    requires { CapturesInside (whole haystack.now) captures.now }
    ensures { OnOk result (output.new.items
        ≡ output.old.items ++ written haystack.now captures.now uncased pieces.now) }
{
    let mut casing = Casing::new();
    for piece in pieces {
        casing = casing.after_escape(piece.escape);
        casing = write_template(alloc, haystack, casing, &piece.template, captures, output)?;
    }
    Ok(())
}

/// Appends the template, filled by these captures, in this case. Returns the casing after it.
#[tactic(auto, using(crate::proofs::CaseLemmas::cased_as_is, crate::proofs::CaseLemmas::casing_as_is))]
fn write_template(
    alloc: Global,
    haystack: &[u8],
    casing: Casing,
    template: &Template<'_>,
    captures: &Captures,
    output: &mut Vec<u8>,
) -> Result<Casing, AllocError>
    requires { CapturesInside (whole haystack.now) captures.now }
    ensures output { OnOk result (output.new.items
        ≡ output.old.items ++ cased casing (filled haystack.now captures.now template.now.parts.items)) }
    ensures after { IfOk result (λ next.
        next ≡ casing_after casing (filled haystack.now captures.now template.now.parts.items)) }
{
    if casing.keeps() {
        template.fill(haystack, captures, output)?;
        return Ok(casing);
    }
    let mut text = Vec::new(alloc);
    template.fill(haystack, captures, &mut text)?;
    push_cased(output, casing, &text)
}
