//! The NFA in which lines are searched. Several patterns are one alternation there: each state of an NFA of separate
//! patterns takes room for the slots of all of them.
ghost use Rattle.std.specs.Prelude.{◌≡◌, IfErr, IfOk, false, length};
ghost use Rattle.regex_hir.specs.Meaning.{alt_all, meaning};
ghost use Rattle.nfa_compiler.specs.Compiled.{FindsFromAnyStart, IsNfaOf, res_of};
ghost use Rattle.nfa_engines.specs.Paths.{is_utf8_empty};
ghost use Rattle.nfa_grep.specs.Meant.{IsOfAll, IsTreeRefusal};

use crate::fault::Fault;
use crate::pattern::described;
use nfa_compiler::{CompileError, Compiler, Config, Parsed};
use regex_hir::Hir;
use std::alloc::{AllocError, Global};
use thompson_nfa::NFA;

/// The most bytes that the tables of the alternation may take. Patterns that need more are compiled each by itself.
const JOINED_LIMIT: usize = 64 << 20;

/// Makes the NFA of these patterns: of their alternation, or of each by itself if there are fewer than two, or if the
/// alternation is too large. Fails if a pattern is too large by itself, or if allocation failed.
pub fn nfa_of(alloc: Global, trees: &[Parsed]) -> Result<NFA, Fault>
    ensures made { IfOk result (IsOfAll (res_of trees.now)) }
    ensures anywhere { IfOk result (λ nfa. is_utf8_empty nfa ≡ false) }
    ensures free { IfOk result FindsFromAnyStart }
    ensures refused { IfErr result (IsTreeRefusal (length trees.now) (res_of trees.now)) }
{
    if trees.len() > 1 && all_fit_alone(alloc, trees)? {
        let tree = joined(alloc, trees)?;
        let config = Config::new().utf8(false).size_limit(JOINED_LIMIT);
        let compiler = Compiler::new().configure(config);
        match compiler.build_from_hir(alloc, &tree) {
            Ok(nfa) => return Ok(nfa),
            Err(CompileError::Memory) => return Err(Fault::Memory),
            Err(_) => {}
        }
    }
    separate(alloc, trees)
}

/// Returns whether each of these patterns by itself is within the size limit. One that is not is refused, so the
/// alternation may take more only if there is none.
fn all_fit_alone(alloc: Global, trees: &[Parsed]) -> Result<bool, AllocError> {
    for tree in trees {
        if !fits_alone(alloc, tree)? {
            return Ok(false);
        }
    }
    Ok(true)
}

/// Returns whether the pattern by itself is within the size limit.
fn fits_alone(alloc: Global, tree: &Parsed) -> Result<bool, AllocError> {
    let compiler = Compiler::new().configure(Config::new().utf8(false));
    match compiler.build_from_hir(alloc, tree) {
        Ok(_) => Ok(true),
        Err(CompileError::Memory) => Err(AllocError),
        Err(_) => Ok(false),
    }
}

/// Makes the NFA of these patterns, each compiled by itself.
pub fn separate(alloc: Global, trees: &[Parsed]) -> Result<NFA, Fault>
    ensures made { IfOk result (IsNfaOf (res_of trees.now)) }
    ensures anywhere { IfOk result (λ nfa. is_utf8_empty nfa ≡ false) }
    ensures free { IfOk result FindsFromAnyStart }
    ensures refused { IfErr result (IsTreeRefusal (length trees.now) (res_of trees.now)) }
{
    let config = Config::new().utf8(false);
    match Compiler::new()
        .configure(config)
        .build_many_from_hir(alloc, trees)
    {
        Ok(nfa) => Ok(nfa),
        Err(error) => Err(described(trees.len(), error)),
    }
}

/// Returns the alternation of these patterns. The groups of all have the same numbers, since no one asks for them.
fn joined(alloc: Global, trees: &[Parsed]) -> Result<Parsed, AllocError>
    ensures { IfOk result (λ tree. meaning tree.hir ≡ alt_all (res_of trees.now)) }
{
    let mut branches = Vec::with_capacity(alloc, trees.len())?;
    for tree in trees {
        branches.push(tree.hir.copy(alloc)?)?;
    }
    Ok(Parsed {
        hir: Hir::Alternation(branches),
        names: no_names(alloc, most_groups(trees))?,
    })
}

/// Returns the most groups that one of these patterns has.
fn most_groups(trees: &[Parsed]) -> usize {
    let mut most = 0;
    for tree in trees {
        most = most.max(tree.names.len());
    }
    most
}

/// Returns the names of this many groups that have none.
fn no_names(alloc: Global, count: usize) -> Result<Vec<Option<String>>, AllocError> {
    let mut names = Vec::with_capacity(alloc, count)?;
    for _ in 0..count {
        names.push(None)?;
    }
    Ok(names)
}
