//! The NFA with fewer captures.
ghost use Rattle.std.specs.Prelude.{◌≡◌, ◌⊎◌, ◌<◌, ◌≤◌, ◌*◌, [], IfErr, IfOk, IfSome, IsNone, IsOkUnless, length};
ghost use Rattle.std.specs.Prelude.{Some, replicate, slice_get};
ghost use Rattle.regex_search_core.specs.Groups.{names_of, slot_count};
ghost use Rattle.nfa_facts.specs.Kept.{kept_groups, with_captures};

use crate::captures::states::kept_states;
use crate::captures::which::WhichCaptures;
use regex_search_core::{GroupInfo, PatternID, StateID};
use std::alloc::{AllocError, Global};
use thompson_nfa::{BuildError, NFA};

/// Returns the same NFA with only these captures.
///
/// Each state keeps its number. A `Capture` of another slot becomes a `Union` of one alternative, so all paths stay. An
/// NFA with only group 0 has no explicit groups, and one with none has groups for no pattern.
///
/// Fails with [`BuildError::Memory`] if an allocation failed, and with [`BuildError::Pattern`] if the NFA has more than
/// 2147483647 patterns, so that no search could name the last one.
///
/// ```
/// let small = keep_captures(alloc, &nfa, WhichCaptures::None)?;
/// assert_eq!(rt; small.group_info().slot_len(), 0);
/// assert_eq!(rt; small.pattern_len(), nfa.pattern_len());
/// ```
pub fn keep_captures(alloc: Global, nfa: &NFA, which: WhichCaptures) -> Result<NFA, BuildError>
    ensures kept { IfOk result (λ kept. kept ≡ with_captures which nfa.now) }
    ensures errors { IfErr result (λ e. (e ≡ BuildError.Memory)
        ⊎ ((e ≡ BuildError.Pattern) × (2147483647 < length nfa.now.patterns))) }
{
    let groups = groups_kept(alloc, nfa.group_info(), which)?;
    let states = kept_states(alloc, nfa.states(), groups.slot_len())?;
    let starts = pattern_starts(alloc, nfa)?;
    let anchored = nfa.start_anchored();
    let unanchored = nfa.start_unanchored();
    let has_empty = nfa.has_empty();
    let utf8 = nfa.is_utf8();
    match NFA::from_states(
        states, anchored, unanchored, starts, groups, has_empty, utf8,
    ) {
        Ok(kept) => Ok(kept),
        Err(_) => unreachable!(),
    }
}

/// Returns the groups of which slots are kept.
fn groups_kept(
    alloc: Global,
    groups: &GroupInfo,
    which: WhichCaptures,
) -> Result<GroupInfo, BuildError>
    ensures groups { IfOk result (λ kept. kept ≡ kept_groups which groups.now) }
    ensures memory { IsOkUnless result BuildError.Memory }
{
    match which {
        WhichCaptures::All => Ok(groups.clone()?),
        WhichCaptures::Implicit => {
            let _ = groups.slot_len();
            Ok(named(no_names(alloc, groups.pattern_len())?))
        }
        WhichCaptures::None => Ok(named(Vec::new(alloc))),
    }
}

/// Returns the groups with these names. Requires that they have no more slots than groups may have.
fn named(names: Vec<Vec<Option<String>>>) -> GroupInfo
    requires { slot_count (names_of names.items) ≤ 2147483646 }
    ensures { result ≡ names_of names.items }
{
    match GroupInfo::new(names) {
        Some(groups) => groups,
        None => unreachable!(),
    }
}

/// Returns that this number of patterns has no explicit groups.
fn no_names(alloc: Global, count: usize) -> Result<Vec<Vec<Option<String>>>, AllocError>
    ensures { IfOk result (λ names. names_of names.items ≡ replicate count []) }
{
    let mut names = Vec::with_capacity(alloc, count)?;
    for _ in 0..count {
        names.push(Vec::new(alloc))?;
    }
    Ok(names)
}

/// Returns the start state of each pattern.
fn pattern_starts(alloc: Global, nfa: &NFA) -> Result<Vec<StateID>, BuildError>
    ensures starts { IfOk result (λ starts. starts.items ≡ nfa.now.patterns) }
    ensures errors { IfErr result (λ e. (e ≡ BuildError.Memory)
        ⊎ ((e ≡ BuildError.Pattern) × (2147483647 < length nfa.now.patterns))) }
{
    let mut starts = Vec::with_capacity(alloc, nfa.pattern_len())?;
    for index in 0..nfa.pattern_len() {
        let start = pattern_start(nfa, index).ok_or(BuildError::Pattern)?;
        starts.push(start)?;
    }
    Ok(starts)
}

/// Returns the start state of the pattern of this number. `None` if there is none, or if no search can name the
/// pattern.
fn pattern_start(nfa: &NFA, index: usize) -> Option<StateID>
    ensures start { IfSome result (λ start. slice_get nfa.now.patterns index ≡ Some start) }
    ensures none { IsNone result → index < length nfa.now.patterns → 2147483646 < index }
{
    nfa.start_pattern(PatternID::new(index)?)
}
