//! The alternatives of a union that are pushed: all but those that lead nowhere on the byte at the position.
ghost use Rattle.std.specs.Prelude.{◌≡◌, ℕ, ◌<◌, ◌∷◌, true, List, length, drop, All, OnOk};
ghost use Rattle.regex_search_core.specs.Search.{Search};
ghost use Rattle.nfa_paths.specs.Paths.{byte_at};
ghost use Rattle.nfa_backtrack.specs.Walk.{IsDeadEnd, IsStatePos, PushesLive};
ghost use Rattle.nfa_backtrack.specs.declared.frame.Frame.{Frame};

use crate::frame::{Frame, StatePos};
use nfa_scan_core::transitions::range_target;
use regex_search_core::{Refused, StateID};
use thompson_nfa::{NFA, State};

/// Returns whether the state reads one range of bytes, which does not have this byte.
#[inline(always)]
#[tactic(auto, using(crate::proofs::AlternateLemmas::dead_ends))]
fn refuses_byte(nfa: &NFA, sid: StateID, byte: Option<u8>) -> bool
    requires { sid < length nfa.now.states }
    ensures { result ≡ true → (x : Search) (at : ℕ) → byte ≡ byte_at x at → IsDeadEnd nfa.now x (sid, at) }
{
    match nfa.state(sid) {
        State::ByteRange { trans } => match range_target(trans, byte) {
            Some(_) => false,
            None => true,
        },
        _ => false,
    }
}

/// Returns whether the byte leads nowhere from the state: the state, or the one after a `Capture`, refuses it.
#[inline(always)]
#[tactic(auto, using(crate::proofs::AlternateLemmas::dead_ends))]
fn is_dead_end(nfa: &NFA, sid: StateID, byte: Option<u8>) -> bool
    requires { sid < length nfa.now.states }
    ensures { result ≡ true → (x : Search) (at : ℕ) → byte ≡ byte_at x at → IsDeadEnd nfa.now x (sid, at) }
{
    match nfa.state(sid) {
        State::Capture { next, .. } => refuses_byte(nfa, *next, byte),
        _ => refuses_byte(nfa, sid, byte),
    }
}

/// Pushes the alternative, unless it leads nowhere. `byte` is the one at the place.
#[inline(always)]
fn push_live(
    nfa: &NFA,
    stack: &mut Vec<Frame>,
    sid: StateID,
    place: &StatePos,
    byte: Option<u8>,
) -> Result<(), Refused>
    requires { sid < length nfa.now.states }
    ensures { OnOk result ((x : Search) (rest : List ℕ) (before : List Frame) → IsStatePos nfa.now x place.now
        → byte ≡ byte_at x place.now.at → PushesLive nfa.now x place.now rest before stack.old.items
        → PushesLive nfa.now x place.now (sid ∷ rest) before stack.new.items) }
{
    if is_dead_end(nfa, sid, byte) {
        return Ok(());
    }
    stack.push(place.later(sid))?;
    Ok(())
}

/// Pushes all alternatives but the first and those that lead nowhere, with the earliest on top. `byte` is the one at
/// the place.
pub fn push_alternates(
    nfa: &NFA,
    stack: &mut Vec<Frame>,
    alternates: &[StateID],
    place: StatePos,
    byte: Option<u8>,
) -> Result<(), Refused>
    requires { All (λ s. s < length nfa.now.states) alternates.now }
    ensures { OnOk result ((x : Search) → IsStatePos nfa.now x place → byte ≡ byte_at x place.at
        → PushesLive nfa.now x place (drop 1 alternates.now) stack.old.items stack.new.items) }
{
    let mut left = alternates.len();
    while left > 1 {
        left -= 1;
        push_live(nfa, stack, alternates[left], &place, byte)?;
    }
    Ok(())
}
