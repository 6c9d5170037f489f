//! From the texts of patterns to trees.
ghost use Rattle.std.specs.Prelude.{◌≡◌, ◌∷◌, [], IfErr, IfOk, IfSome, map};
ghost use Rattle.std.specs.List.{AllZip};
ghost use Rattle.regex_hir.specs.Meaning.{alt_all, cat_all, meaning};
ghost use Rattle.regex_hir.specs.Re.{Re, look};
ghost use Rattle.regex_syntax.specs.Captures.{SameCaptures};
ghost use Rattle.nfa_compiler.specs.Compiled.{IsMeant};
ghost use Rattle.nfa_grep.specs.Meant.{IsReadFrom, bounded, syntax_of, IsTextRefusal, described};

use crate::fault::Fault;
use grep_options::options::{Bounds, Options};
use nfa_compiler::{CompileError, Compiler, Config, Flags, OnlyPattern, Parsed, Syntax};
use regex_hir::{Hir, Look};
use std::alloc::{AllocError, Global};

/// Reads each text as a pattern. Fails if a text is not a pattern, or if allocation failed.
pub fn read_patterns(
    alloc: Global,
    options: Options<'_>,
    texts: &[&str],
) -> Result<Vec<Parsed>, Fault>
    ensures read { IfOk result (λ trees.
        AllZip (IsReadFrom options.entry) (map (λ text. text.now) texts.now) trees.items) }
    ensures refused { IfErr result (IsTextRefusal options.entry (map (λ text. text.now) texts.now)) }
{
    let mut trees = Vec::with_capacity(alloc, texts.len())?;
    for text in texts {
        let Some(tree) = read_pattern(alloc, options, text) else {
            return Err(refusal(alloc, options, texts));
        };
        trees.push(tree)?;
    }
    Ok(trees)
}

/// Returns the syntax of the patterns.
fn syntax_of(options: Options<'_>) -> Syntax
    ensures { result ≡ syntax_of options.entry }
{
    let flags = Flags {
        case_insensitive: options.ignore_case,
        ..Flags::default()
    };
    Syntax {
        flags,
        utf8: false,
        ..Syntax::default()
    }
}

/// Reads the text as a pattern. There is none if the text is not a pattern, or if allocation failed.
fn read_pattern(alloc: Global, options: Options<'_>, text: &str) -> Option<Parsed>
    ensures { IfSome result (IsReadFrom options.entry text.now) }
{
    if options.fixed {
        let escaped = regex_syntax::escape(alloc, text).ok()?;
        return read_tree(alloc, options, escaped.as_str());
    }
    read_tree(alloc, options, text)
}

/// Reads the text by the grammar, and bounds its matches.
fn read_tree(alloc: Global, options: Options<'_>, text: &str) -> Option<Parsed>
    ensures { IfSome result (λ tree. (re : Re) → IsMeant (syntax_of options.entry) text.now re
        → SameCaptures (meaning tree.hir) (bounded options.entry.bounds re)) }
{
    let Ok(Parsed { hir, names }) = regex_syntax::parse(alloc, text, &syntax_of(options)) else {
        return None;
    };
    match bounded(alloc, options.bounds, hir) {
        Ok(hir) => Some(Parsed { hir, names }),
        Err(_) => None,
    }
}

/// Returns the tree with what bounds its matches.
fn bounded(alloc: Global, bounds: Bounds, tree: Hir) -> Result<Hir, AllocError>
    ensures { IfOk result (λ hir. meaning hir ≡ bounded bounds (meaning tree)) }
{
    match bounds {
        Bounds::Anywhere => Ok(tree),
        Bounds::Words => {
            let start = either(alloc, Look::WordStartHalfUnicode, Look::WordStartUnicode)?;
            let end = either(alloc, Look::WordEndHalfUnicode, Look::WordEndUnicode)?;
            between(alloc, start, tree, end)
        }
        Bounds::Line => between(alloc, Hir::Look(Look::Start), tree, Hir::Look(Look::End)),
    }
}

/// Returns the tree between two others.
fn between(alloc: Global, start: Hir, tree: Hir, end: Hir) -> Result<Hir, AllocError>
    ensures { IfOk result (λ hir. meaning hir ≡ cat_all (meaning start ∷ meaning tree ∷ meaning end ∷ [])) }
{
    let mut parts = Vec::with_capacity(alloc, 3)?;
    parts.push(start)?;
    parts.push(tree)?;
    parts.push(end)?;
    Ok(Hir::Concat(parts))
}

/// Returns the tree of one assertion or another one.
fn either(alloc: Global, one: Look, other: Look) -> Result<Hir, AllocError>
    ensures { IfOk result (λ hir. meaning hir ≡ alt_all (look one ∷ look other ∷ [])) }
{
    let mut branches = Vec::with_capacity(alloc, 2)?;
    branches.push(Hir::Look(one))?;
    branches.push(Hir::Look(other))?;
    Ok(Hir::Alternation(branches))
}

/// Returns why some text of these was not read: it is not a pattern, or allocation failed.
fn refusal(alloc: Global, options: Options<'_>, texts: &[&str]) -> Fault
    ensures { IsTextRefusal options.entry (map (λ text. text.now) texts.now) result }
{
    if options.fixed {
        return Fault::Memory;
    }
    let compiler = Compiler::new()
        .configure(Config::new().utf8(false))
        .syntax(syntax_of(options));
    match compiler.build_many(alloc, texts) {
        Err(CompileError::Syntax(error)) => described(texts.len(), CompileError::Syntax(error)),
        _ => Fault::Memory,
    }
}

/// Returns the error, with the number of its pattern if there are several.
pub fn described(pattern_len: usize, error: CompileError) -> Fault
    ensures { result ≡ described pattern_len error }
{
    if pattern_len == 1 {
        Fault::OnlyPattern(OnlyPattern(error))
    } else {
        Fault::Pattern(error)
    }
}
