//! The regex that searches for patterns.
ghost use Rattle.std.specs.Prelude.{◌≡◌, IfErr, IfOk, map, string_bytes};
ghost use Rattle.replacer.specs.Hits.{IsSearchOf};
ghost use Rattle.replacer.specs.Printed.{AreFixedTexts, IsFixedText, IsPatternMistake, escaped, pattern_mistake};
ghost use Rattle.replacer.specs.Printed.{sought};

use crate::command::Request;
use crate::job::Mistake;
use nfa_compiler::{CompileError, Flags, OnlyPattern, Syntax};
use nfa_meta::{BuildError, Regex};
use std::alloc::{AllocError, Global};

/// Compiles the patterns of the request. Fails if a text is not a pattern, if a pattern is too large, or if allocation
/// failed.
pub fn regex_of(alloc: Global, request: Request<'_>) -> Result<Regex, Mistake>
    ensures searches { IfOk result (λ regex. IsSearchOf (sought request.entry) regex.choice) }
    ensures fixed { IfOk result (λ _. IsFixedText request.entry) }
    ensures mistake { IfErr result (IsPatternMistake (sought request.entry)) }
{
    if !request.fixed {
        return compile(alloc, request.patterns, request.ignore_case);
    }
    let Ok(escaped) = escaped(alloc, request.patterns) else {
        return Err(Mistake::Memory);
    };
    compile(alloc, &escaped, request.ignore_case)
}

/// Returns each text with a backslash before each character that has a meaning of its own.
fn escaped(alloc: Global, texts: &[String]) -> Result<Vec<String>, AllocError>
    ensures escaped { IfOk result (λ made.
        map string_bytes made.items ≡ map escaped (map string_bytes texts.now)) }
    ensures fixed { IfOk result (λ made.
        AreFixedTexts (map string_bytes texts.now) (map string_bytes made.items)) }
{
    let mut made = Vec::new(alloc);
    for text in texts {
        made.push(regex_syntax::escape(alloc, text.as_str())?)?;
    }
    Ok(made)
}

/// Returns the texts as slices.
fn texts_of<'t>(alloc: Global, texts: &'t [String]) -> Result<Vec<&'t str>, AllocError>
    ensures { IfOk result (λ made. map (λ text. text.now) made.items ≡ map string_bytes texts.now) }
{
    let mut made = Vec::new(alloc);
    for text in texts {
        made.push(text.as_str())?;
    }
    Ok(made)
}

/// Compiles the texts of patterns.
fn compile(alloc: Global, texts: &[String], ignore_case: bool) -> Result<Regex, Mistake>
    ensures searches { IfOk result (λ regex.
        IsSearchOf (record { texts = map string_bytes texts.now; ignore_case = ignore_case }) regex.choice) }
    ensures mistake { IfErr result
        (IsPatternMistake (record { texts = map string_bytes texts.now; ignore_case = ignore_case })) }
{
    let Ok(texts) = texts_of(alloc, texts) else {
        return Err(Mistake::Memory);
    };
    let flags = Flags {
        case_insensitive: ignore_case,
        ..Flags::default()
    };
    let syntax = Syntax {
        flags,
        ..Syntax::default()
    };
    match Regex::builder().syntax(syntax).build_many(alloc, &texts) {
        Ok(regex) => Ok(regex),
        Err(BuildError::Memory) => Err(Mistake::Memory),
        Err(BuildError::Compile(error)) => Err(mistake_of(texts.len(), error)),
    }
}

/// Returns the mistake for this error of a pattern. `count` is the number of patterns.
fn mistake_of(count: usize, error: CompileError) -> Mistake
    ensures { result ≡ pattern_mistake count error }
{
    if count == 1 {
        Mistake::OnlyPattern(OnlyPattern(error))
    } else {
        Mistake::Pattern(error)
    }
}
