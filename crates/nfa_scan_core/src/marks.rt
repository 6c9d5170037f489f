//! A mark for each state.
ghost use Rattle.std.specs.Prelude.{◌≡◌, ◌<◌, IfOk, false, length, replicate, slice_index_or, slice_set, true};

use regex_search_core::StateID;
use std::alloc::{AllocError, Global};
use thompson_nfa::NFA;

/// Returns a mark for each state, none of them set.
pub fn none_seen(alloc: Global, nfa: &NFA) -> Result<Vec<bool>, AllocError>
    ensures { IfOk result (λ made. made.items ≡ replicate (length nfa.now.states) false) }
{
    Ok(vec![in alloc; false; nfa.states().len()]?)
}

/// Marks the state, and says whether it was not marked before.
#[inline(always)]
pub fn see(seen: &mut Vec<bool>, sid: StateID) -> bool
    requires { sid < length seen.old.items }
    ensures fresh { result ≡ true → slice_index_or seen.old.items sid true ≡ false }
    ensures marked { result ≡ true → seen.new.items ≡ slice_set seen.old.items sid true }
    ensures again { result ≡ false → slice_index_or seen.old.items sid true ≡ true }
    ensures same { result ≡ false → seen.new.items ≡ seen.old.items }
{
    if seen[sid.as_usize()] {
        return false;
    }
    seen[sid.as_usize()] = true;
    true
}
