//! A loop over one byte: a byte state and a union that prefers it, run turn by turn.
ghost use Rattle.std.specs.Prelude.{◌≡◌, ◌+◌, ◌<◌, ◌≤◌, None, Some, length, map, slice_get, IfOk, OnErr, OnOk};
ghost use Rattle.std.specs.Prelude.{IfNone};
ghost use Rattle.std.specs.Option.{ForSome};
ghost use Rattle.regex_search_core.specs.Search.{search_of};
ghost use Rattle.thompson_nfa.specs.Automaton.{IsAutomaton, node_of};
ghost use Rattle.thompson_nfa.specs.Automaton.Node.{ByteRange, BinaryUnion};
ghost use Rattle.thompson_nfa.specs.declared.state.Transition.{Transition};
ghost use Rattle.nfa_paths.specs.Exploring.{Slots};
ghost use Rattle.nfa_backtrack.specs.Walk.{pair_of, loops_on_byte, IsStatePos, HasBits, IsAfforded, IsByteLoop};
ghost use Rattle.nfa_backtrack.specs.Walk.{walk_of, LoopsTwice, MayLoop, TurnsLead, Walk};

use crate::frame::StatePos;
use crate::scratch::Scratch;
use crate::turn::{mark, state_at};
use crate::visited::Visited;
use nfa_scan_core::transitions::{byte_at, range_target};
use regex_search_core::{Input, Refused, StateID};
use thompson_nfa::{NFA, State, Transition};

/// Returns the transition of a loop over one byte: it leads from the first of two alternatives, which is a byte state,
/// back to a union of the same two. Returns `None` exactly if there is no such loop, or if the byte at the position or
/// the one after it does not lead round it: a call then costs more than it saves.
#[inline(always)]
pub fn byte_loop_at<'a>(
    nfa: &NFA,
    states: &'a [State],
    input: &Input<'_>,
    at: usize,
    alt1: StateID,
    alt2: StateID,
) -> Option<&'a Transition>
    requires states { map node_of states.now ≡ nfa.now.states }
    requires valid { IsAutomaton nfa.now }
    requires at { at < usize.MAX }
    requires alt1 { alt1 < length nfa.now.states }
    requires alt2 { alt2 < length nfa.now.states }
    ensures found { ForSome result (λ trans. LoopsTwice nfa.now (search_of input.now) at alt1 alt2 trans.now) }
    ensures missing { IfNone result
        ((trans : Transition) → LoopsTwice nfa.now (search_of input.now) at alt1 alt2 trans → ⊥) }
{
    let State::ByteRange { trans } = state_at(nfa, states, alt1) else {
        return None;
    };
    if !loops_on_byte(trans, input, at) || !loops_on_byte(trans, input, at + 1) {
        return None;
    }
    match state_at(nfa, states, trans.next) {
        State::BinaryUnion {
            alt1: body,
            alt2: exit,
        } => {
            if *body == alt1 && *exit == alt2 {
                Some(trans)
            } else {
                None
            }
        }
        _ => None,
    }
}

/// Returns whether the byte at the position is one of the transition's.
#[inline(always)]
fn loops_on_byte(trans: &Transition, input: &Input<'_>, at: usize) -> bool
    ensures { result ≡ loops_on_byte trans.now (search_of input.now) at }
{
    range_target(trans, byte_at(input, at)).is_some()
}

/// Takes one turn at a byte state: tries to mark the place, and returns the place that the byte leads to.
#[inline(always)]
fn step_byte(
    nfa: &NFA,
    input: &Input<'_>,
    place: StatePos,
    trans: &Transition,
    visited: &mut Visited,
) -> Option<StatePos>
    requires state { slice_get nfa.now.states place.sid ≡ Some (ByteRange trans.now) }
    requires onto { trans.now.next < length nfa.now.states }
    requires place { IsStatePos nfa.now (search_of input.now) place }
    requires room { HasBits nfa.now (search_of input.now) visited.old.bits }
    ensures turns { visited.new.turns ≡ visited.old.turns + 1 }
    ensures size { length visited.new.bits ≡ length visited.old.bits }
    ensures state { ForSome result (λ next. next.sid ≡ trans.now.next) }
    ensures further { ForSome result (λ next. next.at ≡ place.at + 1) }
    ensures leads { (walk : Walk) → TurnsLead nfa.now (search_of input.now) (pair_of place) result
        (record walk { marks = visited.old }) (record walk { marks = visited.new }) }
{
    let StatePos { at, row, .. } = place;
    if !mark(nfa, input, place, visited) {
        return None;
    }
    let byte = byte_at(input, at);
    match range_target(trans, byte) {
        Some(sid) => Some(StatePos {
            sid,
            at: at + 1,
            row: row + nfa.states().len(),
        }),
        None => None,
    }
}

/// Takes one turn at the union of a loop: tries to mark its place, pushes the exit, and returns the place of the byte
/// state.
#[inline(always)]
fn push_exit(
    nfa: &NFA,
    input: &Input<'_>,
    union: StatePos,
    body: StateID,
    exit: StateID,
    scratch: &mut Scratch,
) -> Result<Option<StatePos>, Refused>
    requires state { slice_get nfa.now.states union.sid ≡ Some (BinaryUnion body exit) }
    requires into { body < length nfa.now.states }
    requires out { exit < length nfa.now.states }
    requires place { IsStatePos nfa.now (search_of input.now) union }
    requires room { HasBits nfa.now (search_of input.now) scratch.old.visited.bits }
    ensures turns { scratch.new.visited.turns ≡ scratch.old.visited.turns + 1 }
    ensures scans { scratch.new.scans ≡ scratch.old.scans }
    ensures size { length scratch.new.visited.bits ≡ length scratch.old.visited.bits }
    ensures state { IfOk result (λ next. ForSome next (λ to. to.sid ≡ body)) }
    ensures here { IfOk result (λ next. ForSome next (λ to. to.at ≡ union.at)) }
    ensures leads { IfOk result (λ next. (slots : Slots) → TurnsLead nfa.now (search_of input.now) (pair_of union) next
        (walk_of scratch.old slots) (walk_of scratch.new slots)) }
    ensures refused { OnErr result (IsAfforded nfa.now (search_of input.now) scratch.old.stack.items scratch.old.visited
        scratch.new.visited) }
{
    if !mark(nfa, input, union, &mut scratch.visited) {
        return Ok(None);
    }
    scratch.stack.push(union.later(exit))?;
    Ok(Some(union.to(body)))
}

/// Runs a loop over one byte, from its byte state on, until a place is already marked or a byte does not match. Each
/// iteration pushes the exit.
///
/// It is a function of its own, so that its values stay in registers and take none from the walk.
#[cold]
#[inline(never)]
fn run_byte_loop(
    nfa: &NFA,
    input: &Input<'_>,
    body: StatePos,
    trans: &Transition,
    exit: StateID,
    scratch: &mut Scratch,
) -> Result<(), Refused>
    requires ready { MayLoop nfa.now (search_of input.now) body exit trans.now scratch.old.visited.bits }
    ensures turns { scratch.old.visited.turns ≤ scratch.new.visited.turns }
    ensures scans { scratch.new.scans ≡ scratch.old.scans }
    ensures size { length scratch.new.visited.bits ≡ length scratch.old.visited.bits }
    ensures leads { OnOk result ((slots : Slots) → TurnsLead nfa.now (search_of input.now) (pair_of body) None
        (walk_of scratch.old slots) (walk_of scratch.new slots)) }
    ensures refused { OnErr result (IsAfforded nfa.now (search_of input.now) scratch.old.stack.items scratch.old.visited
        scratch.new.visited) }
{
    let own_input = *input;
    let own_trans = *trans;
    let mut place = body;
    loop {
        let Some(union) = step_byte(nfa, &own_input, place, &own_trans, &mut scratch.visited) else {
            return Ok(());
        };
        let Some(next) = push_exit(nfa, &own_input, union, body.sid, exit, scratch)? else {
            return Ok(());
        };
        place = next;
    }
}

/// Runs a loop over one byte, from its byte state on, with a copy of the input.
#[inline(always)]
pub fn run_loop(
    nfa: &NFA,
    input: &Input<'_>,
    body: StatePos,
    trans: &Transition,
    exit: StateID,
    scratch: &mut Scratch,
) -> Result<(), Refused>
    requires state { IsByteLoop nfa.now body.sid exit trans.now }
    requires place { IsStatePos nfa.now (search_of input.now) body }
    requires room { HasBits nfa.now (search_of input.now) scratch.old.visited.bits }
    ensures turns { scratch.old.visited.turns ≤ scratch.new.visited.turns }
    ensures scans { scratch.new.scans ≡ scratch.old.scans }
    ensures size { length scratch.new.visited.bits ≡ length scratch.old.visited.bits }
    ensures leads { OnOk result ((slots : Slots) → TurnsLead nfa.now (search_of input.now) (pair_of body) None
        (walk_of scratch.old slots) (walk_of scratch.new slots)) }
    ensures refused { OnErr result (IsAfforded nfa.now (search_of input.now) scratch.old.stack.items scratch.old.visited
        scratch.new.visited) }
{
    // A value that is borrowed by a call is in memory, and the walk keeps its values in registers. The copy is made
    // here, so that a turn without a loop does not write its memory.
    let copied = *input;
    run_byte_loop(nfa, &copied, body, trans, exit, scratch)
}
