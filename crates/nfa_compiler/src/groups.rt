//! The groups of patterns, and the numbers of patterns and slots.
ghost use Rattle.std.specs.Prelude.{◌≡◌, ◌+◌, ◌*◌, IfErr, IfOk, drop, length, map, option_map, string_bytes};
ghost use Rattle.regex_search_core.specs.PatternSets.{number_of};
ghost use Rattle.nfa_compiler.specs.Compiled.{explicit_names, groups_of};
ghost use Rattle.nfa_compiler.specs.Rejected.{IsOfNoPattern};

use crate::error::CompileError;
use regex_search_core::{GroupInfo, PatternID};
use regex_syntax::Parsed;
use std::alloc::{AllocError, Global};

/// Returns the names of the pattern's explicit groups: all but group 0.
fn explicit(pattern: &Parsed) -> &[Option<String>]
    ensures { map (option_map string_bytes) result.now ≡ explicit_names pattern.now }
{
    if pattern.names.is_empty() {
        return &[];
    }
    &pattern.names[1..]
}

/// Makes the group info of these patterns.
pub(crate) fn groups_of(alloc: Global, patterns: &[Parsed]) -> Result<GroupInfo, CompileError>
    ensures groups { IfOk result (λ groups. groups ≡ groups_of patterns.now) }
    ensures fails { IfErr result IsOfNoPattern }
{
    let mut names = Vec::with_capacity(alloc, patterns.len())?;
    for pattern in patterns {
        names.push(names_of(alloc, explicit(pattern))?)?;
    }
    GroupInfo::new(names).ok_or(CompileError::TooManyGroups)
}

/// Copies the names.
fn names_of(alloc: Global, names: &[Option<String>]) -> Result<Vec<Option<String>>, AllocError>
    ensures { IfOk result (λ copy. map (option_map string_bytes) copy.items ≡ map (option_map string_bytes) names.now) }
{
    let mut copy = Vec::with_capacity(alloc, names.len())?;
    for name in names {
        copy.push(name.clone()?)?;
    }
    Ok(copy)
}

/// Returns the number of the pattern at this index.
pub(crate) fn pattern_number(index: usize) -> Result<PatternID, CompileError>
    ensures number { IfOk result (λ pattern. number_of pattern ≡ index) }
    ensures fails { IfErr result IsOfNoPattern }
{
    PatternID::new(index).ok_or(CompileError::TooManyPatterns)
}

/// Returns the first slot after those of the pattern's explicit groups, which begin at `slots`.
pub(crate) fn slots_after(slots: usize, pattern: &Parsed) -> Result<usize, CompileError>
    ensures after { IfOk result (λ after. after ≡ slots + 2 * length (explicit_names pattern.now)) }
    ensures fails { IfErr result IsOfNoPattern }
{
    let own = slots_for(explicit(pattern).len())?;
    slots.checked_add(own).ok_or(CompileError::TooManyGroups)
}

/// Returns the number of slots of this number of groups: two for each.
pub(crate) fn slots_for(groups: usize) -> Result<usize, CompileError>
    ensures slots { IfOk result (λ slots. slots ≡ 2 * groups) }
    ensures fails { IfErr result IsOfNoPattern }
{
    groups.checked_mul(2).ok_or(CompileError::TooManyGroups)
}
