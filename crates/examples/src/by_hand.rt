//! The second program of the README: all matches of `ab+` in a text, by an NFA that is written out.
use anyhow::{Context, Result};
use nfa_engines::pikevm::PikeVM;
use nfa_engines::{GroupInfo, Input, NFA, PatternID, State, StateID, Transition};
use std::alloc::Global;

// The state of this number.
fn state(number: usize) -> Result<StateID> {
    StateID::new(number).context("a state number is too large")
}

// A state that goes over a byte from `start` to `end`, both included.
fn bytes(start: u8, end: u8, next: usize) -> Result<State> {
    let next = state(next)?;
    Ok(State::ByteRange {
        trans: Transition { start, end, next },
    })
}

// A state that writes the position into a slot.
fn capture(slot: usize, next: usize) -> Result<State> {
    let next = state(next)?;
    Ok(State::Capture { next, slot })
}

// A state that goes on to either of two, the first one preferred.
fn either(first: usize, second: usize) -> Result<State> {
    let alt1 = state(first)?;
    let alt2 = state(second)?;
    Ok(State::BinaryUnion { alt1, alt2 })
}

// `ab+` as an NFA. The last two states skip the bytes before a match.
fn ab_plus(alloc: Global) -> Result<NFA> {
    let mut states = Vec::new(alloc);
    states.push(capture(0, 1)?)?;
    states.push(bytes(b'a', b'a', 2)?)?;
    states.push(bytes(b'b', b'b', 3)?)?;
    states.push(either(2, 4)?)?;
    states.push(capture(1, 5)?)?;
    let pattern_id = PatternID::new(0).context("there is a pattern 0")?;
    states.push(State::Match { pattern_id })?;
    states.push(either(0, 7)?)?;
    states.push(bytes(0, 255, 6)?)?;
    let groups = GroupInfo::new(vec![in alloc; Vec::new(alloc)]?).context("too many groups")?;
    let patterns = vec![in alloc; state(0)?]?;
    let nfa = NFA::from_states(states, state(0)?, state(6)?, patterns, groups, false, true)?;
    Ok(nfa)
}

/// Prints all matches of the NFA in a text.
pub fn run(rt: &HostRuntime) -> Result<()> {
    let alloc = rt.alloc();
    let nfa = ab_plus(alloc)?;
    let vm = PikeVM::new_from_nfa(nfa)?;
    let mut cache = vm.create_cache(alloc)?;
    let text = "ab, abb and b";
    for found in vm.find_iter(&mut cache, Input::new(text.as_bytes())) {
        println!(rt; "{}..{}", found.start(), found.end())?;
    }
    Ok(())
}
