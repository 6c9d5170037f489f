//! A scan: a walk from each start in turn, with the marks kept.
ghost use Rattle.std.specs.Prelude.{◌≡◌, ◌+◌, ◌-◌, ◌*◌, ◌^◌, ◌<◌, ◌≤◌, [], None, false, length, replicate, IfOk, OnErr};
ghost use Rattle.std.specs.Prelude.{MatchOption, OnOk};
ghost use Rattle.regex_search_core.specs.Search.{search_of};
ghost use Rattle.regex_search_core.specs.declared.search.MatchKind.TheVariants.{LeftmostFirst};
ghost use Rattle.nfa_paths.specs.Paths.{span_len, start_count, IsScanAnswer};
ghost use Rattle.nfa_paths.specs.Restarts.{max_scan_turns, GivesPath, ScanGives};
ghost use Rattle.nfa_scan_core.specs.FirstBytes.{IsFirstBytes, IsRefused};
ghost use Rattle.nfa_backtrack.specs.Walk.{pair_of, walk_of, HasBits, IsStatePos, MayTryStarts};

use crate::frame::StatePos;
use crate::scratch::Scratch;
use crate::walk::walk;
use nfa_scan_core::first_bytes::FirstBytes;
use nfa_scan_core::starts::{next_start, skip_limit, start_limit, start_state};
use regex_search_core::{HalfMatch, Input, NonMaxUsize, Refused, StateID};
use thompson_nfa::NFA;

/// Unsets all slots. Two slots, those of a match, take no call.
pub fn unset(slots: &mut [Option<NonMaxUsize>])
    ensures { slots.new ≡ replicate (length slots.old) None }
{
    if slots.len() == 2 {
        slots[0] = None;
        slots[1] = None;
    } else {
        unset_each(slots);
    }
}

/// Unsets all slots, of any number. It is never inlined, so that a search with two slots computes nothing for it.
#[inline(never)]
fn unset_each(slots: &mut [Option<NonMaxUsize>])
    ensures { slots.new ≡ replicate (length slots.old) None }
{
    slots.fill(None);
}

/// Returns the place of a start: a state, and a position of the span that may not be skipped for its byte. Only that
/// clause uses the table of first bytes.
#[inline(always)]
fn state_pos_at(
    nfa: &NFA,
    first: &FirstBytes,
    input: &Input<'_>,
    sid: StateID,
    at: usize,
) -> StatePos
    requires state { sid < length nfa.now.states }
    requires from { (search_of input.now).start ≤ at }
    requires to { at ≤ (search_of input.now).end }
    requires fits { length nfa.now.states * (span_len (search_of input.now) + 1) < 2 ^ 64 }
    requires due { at + 1 < (search_of input.now).start + start_count nfa.now (search_of input.now)
        → IsRefused first.now.may_begin (search_of input.now) at → ⊥ }
    ensures pair { pair_of result ≡ (sid, at) }
    ensures place { IsStatePos nfa.now (search_of input.now) result }
{
    let row = (at - input.start()) * nfa.states().len();
    StatePos { sid, at, row }
}

/// Searches from each start in turn that is not skipped for its byte, with the marks kept.
fn try_starts(
    nfa: &NFA,
    first: &FirstBytes,
    input: &Input<'_>,
    scratch: &mut Scratch,
    slots: &mut [Option<NonMaxUsize>],
) -> Result<Option<HalfMatch>, Refused>
    requires ready { MayTryStarts nfa.now first.now.may_begin (search_of input.now) (walk_of scratch.old slots.old) }
    ensures scans { scratch.new.scans ≡ scratch.old.scans }
    ensures size { length scratch.new.visited.bits ≡ length scratch.old.visited.bits }
    ensures turns { scratch.new.visited.turns ≤ scratch.old.visited.turns + max_scan_turns nfa.now
        (search_of input.now) }
    ensures answer { let x = search_of input.now in IfOk result (λ found.
        MatchOption found (IsScanAnswer nfa.now x LeftmostFirst false None)
        (λ half. GivesPath nfa.now LeftmostFirst false x half slots.new
        (scratch.new.visited.turns - scratch.old.visited.turns))) }
    ensures over { OnOk result (scratch.new.stack.items ≡ []) }
{
    if input.is_done() {
        return Ok(None);
    }
    let Some(sid) = start_state(nfa, input) else {
        return Ok(None);
    };
    let limit = start_limit(nfa, input);
    let stop = skip_limit(nfa, input);
    let mut at = next_start(first, input, input.start(), stop);
    while at < limit {
        let place = state_pos_at(nfa, first, input, sid, at);
        if let Some(half) = walk(nfa, input, place, scratch, slots)? {
            return Ok(Some(half));
        }
        at = next_start(first, input, at + 1, stop);
    }
    Ok(None)
}

/// Makes one scan, from cleared slots, stack and marks. Returns the end of the first accepting path and writes its
/// slots, or leaves no slot set. The stack is empty afterwards.
pub fn scan(
    nfa: &NFA,
    first: &FirstBytes,
    input: &Input<'_>,
    scratch: &mut Scratch,
    slots: &mut [Option<NonMaxUsize>],
) -> Result<Option<HalfMatch>, Refused>
    requires first { IsFirstBytes nfa.now first.now.may_begin }
    requires room { HasBits nfa.now (search_of input.now) scratch.old.visited.bits }
    ensures scans { scratch.new.scans ≡ scratch.old.scans + 1 }
    ensures size { length scratch.new.visited.bits ≡ length scratch.old.visited.bits }
    ensures turns { scratch.new.visited.turns ≤ scratch.old.visited.turns + max_scan_turns nfa.now
        (search_of input.now) }
    ensures answer { IfOk result (λ half. ScanGives nfa.now LeftmostFirst false (search_of input.now) half slots.new
        (scratch.new.visited.turns - scratch.old.visited.turns)) }
    ensures refused { OnErr result (slots.new ≡ replicate (length slots.old) None) }
    ensures stack { scratch.new.stack.items ≡ [] }
{
    scratch.scans.tick();
    unset(slots);
    scratch.stack.clear();
    scratch.visited.clear();
    match try_starts(nfa, first, input, scratch, slots) {
        Ok(Some(half)) => Ok(Some(half)),
        Ok(None) => {
            unset(slots);
            Ok(None)
        }
        Err(refused) => {
            scratch.stack.clear();
            unset(slots);
            Err(refused)
        }
    }
}
