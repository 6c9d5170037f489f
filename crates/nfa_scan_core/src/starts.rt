//! The starts of a search, which of them it skips, and where its answer may end.
ghost use Rattle.std.specs.Prelude.{◌≡◌, ℕ, ◌+◌, ◌-◌, ◌<◌, ◌≤◌, Some, true, false, length, IfSome};
ghost use Rattle.regex_search_core.specs.Boundary.{IsBoundary};
ghost use Rattle.regex_search_core.specs.Search.{search_of};
ghost use Rattle.thompson_nfa.specs.Automaton.{IsAutomaton};
ghost use Rattle.nfa_paths.specs.Paths.{start_state, start_count, starts, pairs_from, is_utf8_empty};
ghost use Rattle.nfa_scan_core.specs.FirstBytes.{IsRefused};

use crate::first_bytes::FirstBytes;
use regex_search_core::{Anchored, Input, StateID};
use thompson_nfa::NFA;

/// Returns the first state of a path. `None` for an unknown pattern.
pub fn start_state(nfa: &NFA, input: &Input<'_>) -> Option<StateID>
    ensures value { result ≡ start_state nfa.now (search_of input.now).anchored }
    ensures within { IfSome result (λ sid. sid < length nfa.now.states) }
    ensures valid { IsAutomaton nfa.now }
{
    match input.get_anchored() {
        Anchored::No | Anchored::Yes => Some(nfa.start_anchored()),
        Anchored::Pattern(pattern) => nfa.start_pattern(pattern),
    }
}

/// Returns the position after the last one at which a path may start. Requires that the input is not done.
pub fn start_limit(nfa: &NFA, input: &Input<'_>) -> usize
    requires { (search_of input.now).start ≤ (search_of input.now).end }
    ensures starts { (sid : ℕ) → start_state nfa.now (search_of input.now).anchored ≡ Some sid
        → starts nfa.now (search_of input.now)
        ≡ pairs_from sid (search_of input.now).start (result - (search_of input.now).start) }
    ensures count { result ≡ (search_of input.now).start + start_count nfa.now (search_of input.now) }
    ensures low { (search_of input.now).start ≤ result }
    ensures high { result ≤ (search_of input.now).end + 1 }
{
    if input.get_anchored().is_anchored() || nfa.is_always_start_anchored() {
        input.start() + 1
    } else {
        input.end() + 1
    }
}

/// Returns the position after the last one that may be skipped for its byte. If a path may start at one position only,
/// none may be skipped. Requires that the input is not done.
pub fn skip_limit(nfa: &NFA, input: &Input<'_>) -> usize
    requires { (search_of input.now).start ≤ (search_of input.now).end }
    ensures count { result + 1 ≡ (search_of input.now).start + start_count nfa.now (search_of input.now) }
    ensures within { result ≤ (search_of input.now).end }
    ensures anchored { (search_of input.now).start < result → start_state nfa.now (search_of input.now).anchored
        ≡ Some nfa.now.anchored }
{
    start_limit(nfa, input) - 1
}

/// Returns the first position, beginning with `from`, that is not skipped for its byte. This is a separate call, so
/// that its values take no registers from the walk.
#[inline(never)]
pub fn next_start(first: &FirstBytes, input: &Input<'_>, from: usize, stop: usize) -> usize
    requires from { from ≤ (search_of input.now).end + 1 }
    requires stop { stop ≤ (search_of input.now).end }
    ensures low { from ≤ result }
    ensures high { result ≤ (search_of input.now).end + 1 }
    ensures near { from ≤ stop → result ≤ stop }
    ensures stays { stop ≤ from → result ≡ from }
    ensures passed { (k : ℕ) → from ≤ k → k < result → IsRefused first.now.may_begin (search_of input.now) k }
    ensures least { result < stop → IsRefused first.now.may_begin (search_of input.now) result → ⊥ }
{
    let haystack = input.haystack();
    let mut at = from;
    while at < stop && first.refuses(haystack[at]) {
        at += 1;
    }
    at
}

/// Returns whether an answer counts only if it ends on a boundary: the NFA can match the empty string and is in UTF-8
/// mode.
pub fn is_utf8_empty(nfa: &NFA) -> bool
    ensures { result ≡ is_utf8_empty nfa.now }
{
    nfa.has_empty() && nfa.is_utf8()
}

/// Returns whether an answer that ends at the position counts.
pub fn may_end_at(nfa: &NFA, input: &Input<'_>, at: usize) -> bool
    ensures counts { result ≡ true → is_utf8_empty nfa.now ≡ true → IsBoundary (search_of input.now).haystack at }
    ensures splits { result ≡ false → is_utf8_empty nfa.now ≡ true }
    ensures inside { result ≡ false → ¬ (IsBoundary (search_of input.now).haystack at) }
{
    !is_utf8_empty(nfa) || input.is_char_boundary(at)
}
