//! Calls that are given the text of a pattern: their contracts say what the text means.
ghost use Rattle.std.specs.Prelude.{◌≡◌, ◌∷◌, [], IfOk, List, Option, Some, drop, false, true, map};
ghost use Rattle.std.specs.Prelude.{option_and_then, option_map, ℕ};
ghost use Rattle.regex_hir.specs.Find.{find, find_all, find_all_str, find_str};
ghost use Rattle.regex_hir.specs.Re.{Re};
ghost use Rattle.nfa_engines.specs.Found.{found_of};
ghost use Rattle.nfa_engines.specs.Groups.{group_named};
ghost use Rattle.nfa_engines.specs.Paths.{is_utf8_empty};
ghost use Rattle.nfa_compiler.specs.Compiled.{FindsFromAnyStart, IsCompiled, IsMeant, IsNamed};
ghost use Rattle.nfa_compiler.specs.Patterns.{found_by, written_span};
ghost use Rattle.nfa_compiler.specs.Written.{syntax_of};

use anyhow::Result;
use nfa_compiler::Compiler;
use nfa_compiler::calls::{
    match_in_str, match_of_text, matches_in_str, matches_of_text, named_group_in_str,
};
use nfa_engines::backtrack::{self, BoundedBacktracker};
use nfa_engines::error::SearchError;
use nfa_engines::pikevm::PikeVM;
use nfa_engines::{Input, Match, Span};
use std::alloc::Global;

/// Returns the first match of the pattern in the line, by a PikeVM: the match that the reference matcher finds for the
/// pattern that the grammar reads in the text.
///
/// Requires a compiler that is not in UTF-8 mode and not anchored.
pub fn find_text(
    alloc: Global,
    compiler: &Compiler,
    pattern: &str,
    line: &[u8],
) -> Result<Option<Match>>
    requires bytes { compiler.now.config.utf8 ≡ false }
    requires free { compiler.now.config.anchored ≡ false }
    ensures { IfOk result (λ found. (re : Re) → IsMeant (syntax_of compiler.now) pattern.now re
        → option_map found_of found ≡ option_map found_by (find re line.now 0)) }
{
    let vm = PikeVM::new_from_nfa(compiler.build(alloc, pattern)?)?;
    let mut cache = vm.create_cache(alloc)?;
    let found = vm.find(&mut cache, Input::new(line));
    match_of_text(compiler, pattern, vm.get_nfa(), line, found);
    Ok(found)
}

/// Returns the same match by a bounded backtracker that was made of the pattern before, once for many lines. Fails if
/// the line is too long for it.
pub fn try_find_compiled(
    compiler: &Compiler,
    pattern: &str,
    engine: &BoundedBacktracker,
    cache: &mut backtrack::Cache,
    line: &[u8],
) -> Result<Option<Match>, SearchError>
    requires compiled { IsCompiled (syntax_of compiler.now) (pattern.now ∷ []) engine.now.nfa }
    requires anywhere { is_utf8_empty engine.now.nfa ≡ false }
    requires free { FindsFromAnyStart engine.now.nfa }
    ensures { IfOk result (λ found. (re : Re) → IsMeant (syntax_of compiler.now) pattern.now re
        → option_map found_of found ≡ option_map found_by (find re line.now 0)) }
{
    let found = engine.try_find(cache, Input::new(line))?;
    match_of_text(compiler, pattern, engine.get_nfa(), line, found);
    Ok(found)
}

/// Returns all matches of the pattern in the line, from left to right.
pub fn find_all_text(
    alloc: Global,
    compiler: &Compiler,
    pattern: &str,
    line: &[u8],
) -> Result<Vec<Match>>
    requires bytes { compiler.now.config.utf8 ≡ false }
    requires free { compiler.now.config.anchored ≡ false }
    ensures { IfOk result (λ found. (re : Re) → IsMeant (syntax_of compiler.now) pattern.now re
        → map found_of found.items ≡ map found_by (find_all re line.now)) }
{
    let vm = PikeVM::new_from_nfa(compiler.build(alloc, pattern)?)?;
    let mut cache = vm.create_cache(alloc)?;
    let found = vm.find_all(alloc, &mut cache, Input::new(line))?;
    matches_of_text(compiler, pattern, vm.get_nfa(), line, &found);
    Ok(found)
}

/// Returns the first match of the pattern in the line, which is a `str`: the match that the reference matcher finds in
/// a `str` for the pattern that the grammar reads in the text.
///
/// Requires a compiler in UTF-8 mode, as [`Compiler::new`] makes it, and not anchored.
pub fn find_text_in_str(
    alloc: Global,
    compiler: &Compiler,
    pattern: &str,
    line: &str,
) -> Result<Option<Match>>
    requires text { compiler.now.config.utf8 ≡ true }
    requires free { compiler.now.config.anchored ≡ false }
    ensures { IfOk result (λ found. (re : Re) → IsMeant (syntax_of compiler.now) pattern.now re
        → option_map found_of found ≡ option_map found_by (find_str re line.now 0)) }
{
    let vm = PikeVM::new_from_nfa(compiler.build(alloc, pattern)?)?;
    let mut cache = vm.create_cache(alloc)?;
    let bytes = line.as_bytes();
    let found = vm.find(&mut cache, Input::new(bytes));
    match_in_str(compiler, pattern, vm.get_nfa(), bytes, found);
    Ok(found)
}

/// Returns all matches of the pattern in the line, which is a `str`, from left to right.
pub fn find_all_text_in_str(
    alloc: Global,
    compiler: &Compiler,
    pattern: &str,
    line: &str,
) -> Result<Vec<Match>>
    requires text { compiler.now.config.utf8 ≡ true }
    requires free { compiler.now.config.anchored ≡ false }
    ensures { IfOk result (λ found. (re : Re) → IsMeant (syntax_of compiler.now) pattern.now re
        → map found_of found.items ≡ map found_by (find_all_str re line.now)) }
{
    let vm = PikeVM::new_from_nfa(compiler.build(alloc, pattern)?)?;
    let mut cache = vm.create_cache(alloc)?;
    let bytes = line.as_bytes();
    let found = vm.find_all(alloc, &mut cache, Input::new(bytes))?;
    matches_in_str(compiler, pattern, vm.get_nfa(), bytes, &found);
    Ok(found)
}

/// Returns where the group of this name is in the first match of the pattern in the line, which is a `str`: the span
/// that the reference matcher last writes for the first group that has the name in the text.
///
/// Requires a compiler in UTF-8 mode and not anchored.
pub fn find_group_in_str(
    alloc: Global,
    compiler: &Compiler,
    pattern: &str,
    name: &str,
    line: &str,
) -> Result<Option<Span>>
    requires text { compiler.now.config.utf8 ≡ true }
    requires free { compiler.now.config.anchored ≡ false }
    ensures { IfOk result (λ span. (re : Re) (names : List (Option (List ℕ))) (group : ℕ)
        → IsMeant (syntax_of compiler.now) pattern.now re → IsNamed (syntax_of compiler.now) pattern.now names
        → group_named (drop 1 names ∷ []) 0 name.now ≡ Some group
        → span ≡ option_and_then (written_span group) (find_str re line.now 0)) }
{
    let vm = PikeVM::new_from_nfa(compiler.build(alloc, pattern)?)?;
    let mut cache = vm.create_cache(alloc)?;
    let mut captures = vm.create_captures(alloc)?;
    let bytes = line.as_bytes();
    vm.captures(&mut cache, Input::new(bytes), &mut captures);
    named_group_in_str(compiler, pattern, vm.get_nfa(), bytes, &captures, name);
    Ok(captures.get_group_by_name(name))
}
