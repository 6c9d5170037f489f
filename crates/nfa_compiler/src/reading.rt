//! Reading the texts of patterns as trees.
ghost use Rattle.std.specs.Prelude.{◌≡◌, ◌≤◌, IfErr, IfOk, IsCharBoundary, map, string_bytes, ⊤};
ghost use Rattle.std.specs.List.{AllZip};
ghost use Rattle.regex_syntax.specs.Verdict.{Refuses};
ghost use Rattle.nfa_compiler.specs.Compiled.{IsTreeOf};
ghost use Rattle.nfa_compiler.specs.Rejected.{IsMemoryOr, IsOfOneText, IsRejection};

use crate::error::CompileError;
use crate::syntax_error::SyntaxError;
use regex_syntax::{Config, ErrorKind, Parsed};
use std::alloc::Global;

/// Reads each text as a tree.
pub(crate) fn read_all(
    alloc: Global,
    patterns: &[&str],
    syntax: &Config,
) -> Result<Vec<Parsed>, CompileError>
    ensures read { IfOk result (λ trees. AllZip (IsTreeOf syntax.now) (map (λ text. text.now) patterns.now)
        trees.items) }
    ensures rejected { IfErr result (IsOfOneText syntax.now (map (λ text. text.now) patterns.now)) }
    ensures fails { IfErr result (IsMemoryOr (λ _. ⊤)) }
{
    let mut trees = Vec::with_capacity(alloc, patterns.len())?;
    for (index, pattern) in patterns.iter().enumerate() {
        trees.push(read(alloc, index, pattern, syntax)?)?;
    }
    Ok(trees)
}

/// Reads the text of the pattern with this number as a tree.
fn read(alloc: Global, index: usize, pattern: &str, syntax: &Config) -> Result<Parsed, CompileError>
    ensures read { IfOk result (IsTreeOf syntax.now pattern.now) }
    ensures rejected { IfErr result (IsMemoryOr (IsRejection syntax.now index pattern.now)) }
{
    match regex_syntax::parse(alloc, pattern, syntax) {
        Ok(tree) => Ok(tree),
        Err(error) => Err(refused(alloc, index, pattern, syntax, error)),
    }
}

/// Returns the error of a text that was refused: out of memory, or a [`SyntaxError`] with a copy of the text.
fn refused(
    alloc: Global,
    index: usize,
    pattern: &str,
    syntax: &Config,
    error: regex_syntax::Error,
) -> CompileError
    requires refuses { Refuses syntax.now pattern.now error.kind }
    requires span { (error.span.start ≤ error.span.end)
        × IsCharBoundary pattern.now error.span.start × IsCharBoundary pattern.now error.span.end }
    ensures { IsMemoryOr (IsRejection syntax.now index pattern.now) result }
{
    if error.kind == ErrorKind::OutOfMemory {
        return CompileError::Memory;
    }
    match String::from_str(alloc, pattern) {
        Ok(text) => CompileError::Syntax(SyntaxError {
            pattern: index,
            text,
            syntax: *syntax,
            kind: error.kind,
            reason: error.kind.message(),
            span: error.span,
        }),
        Err(_) => CompileError::Memory,
    }
}
