//! The target of a state on a byte.
ghost use Rattle.std.specs.Prelude.{◌≡◌, [], ◌∷◌, option_and_then};
ghost use Rattle.regex_search_core.specs.Search.{search_of};
ghost use Rattle.thompson_nfa.specs.Automaton.{node_of};
ghost use Rattle.thompson_nfa.specs.Automaton.Node.{ByteRange, Sparse, Dense};
ghost use Rattle.nfa_paths.specs.Paths.{byte_at, first_target, holds_byte, target_on};

use regex_search_core::{Input, StateID};
use thompson_nfa::{State, Transition};

/// Returns the byte at the position, if it is before the end of the span.
#[inline(always)]
pub fn byte_at(input: &Input<'_>, at: usize) -> Option<u8>
    ensures { result ≡ byte_at (search_of input.now) at }
{
    if at < input.end() {
        Some(input.haystack()[at])
    } else {
        None
    }
}

/// Returns the target of a `ByteRange` on the byte.
pub fn range_target(trans: &Transition, byte: Option<u8>) -> Option<StateID>
    ensures { result ≡ option_and_then (target_on (ByteRange trans.now)) byte }
{
    let byte = byte?;
    if trans.start <= byte && byte <= trans.end {
        Some(trans.next)
    } else {
        None
    }
}

/// Whether the range of the transition has the byte. Ranges mostly ascend, so one test skips those that end before the
/// byte.
#[inline(always)]
fn holds(trans: &Transition, byte: u8) -> bool
    ensures { result ≡ holds_byte trans.now byte }
{
    byte <= trans.end && trans.start <= byte
}

/// The target of the first transition whose range has the byte.
fn first_target(transitions: &[Transition], byte: u8) -> Option<StateID>
    ensures { result ≡ first_target transitions.now byte }
{
    for trans in transitions {
        if holds(trans, byte) {
            return Some(trans.next);
        }
    }
    None
}

/// The target of the first of two transitions whose range has the byte.
#[inline(always)]
fn first_target_of_two(first: &Transition, second: &Transition, byte: u8) -> Option<StateID>
    ensures { result ≡ first_target (first.now ∷ second.now ∷ []) byte }
{
    if holds(first, byte) {
        Some(first.next)
    } else if holds(second, byte) {
        Some(second.next)
    } else {
        None
    }
}

/// The target of the first transition whose range has the byte. It is a function of its own and marked cold, so that
/// its loop takes no registers from the walk.
#[cold]
#[inline(never)]
fn first_target_of_many(transitions: &[Transition], byte: u8) -> Option<StateID>
    ensures { result ≡ first_target transitions.now byte }
{
    // Four ranges are tested before the loop: this takes less than the call costs.
    let [first, second, third, fourth, rest @ ..] = transitions else {
        return first_target(transitions, byte);
    };
    if let Some(sid) = first_target_of_two(first, second, byte) {
        return Some(sid);
    }
    if let Some(sid) = first_target_of_two(third, fourth, byte) {
        return Some(sid);
    }
    first_target(rest, byte)
}

/// Returns the target of a `Sparse` on the byte: that of the first transition whose range has the byte.
pub fn sparse_target(transitions: &[Transition], byte: Option<u8>) -> Option<StateID>
    ensures { result ≡ option_and_then (target_on (Sparse transitions.now)) byte }
{
    let byte = byte?;
    // Most classes have two or three ranges. These are tested without a loop and without a call.
    if let [first, second, third] = transitions {
        if holds(first, byte) {
            return Some(first.next);
        }
        return first_target_of_two(second, third, byte);
    }
    if let [first, second] = transitions {
        return first_target_of_two(first, second, byte);
    }
    first_target_of_many(transitions, byte)
}

/// Returns the target of a `Dense` on the byte.
pub fn dense_target(targets: &[Option<StateID>], byte: Option<u8>) -> Option<StateID>
    ensures { result ≡ option_and_then (target_on (Dense targets.now)) byte }
{
    *targets.get(byte? as usize)?
}

/// Returns the target of the state on the byte; none if it is no byte state.
pub fn target(state: &State, byte: Option<u8>) -> Option<StateID>
    ensures { result ≡ option_and_then (target_on (node_of state.now)) byte }
{
    match state {
        State::ByteRange { trans } => range_target(trans, byte),
        State::Sparse(transitions) => sparse_target(transitions, byte),
        State::Dense(targets) => dense_target(targets, byte),
        _ => None,
    }
}
