//! A walk over the states of an NFA that may not pass a byte or a state: whether it reaches a match.
ghost use Rattle.std.specs.Prelude.{◌≡◌, ◌<◌, ◌↔◌, IfOk, IfSome, IsTrue, None, OnOk, Some, length, true};
ghost use Rattle.std.specs.Option.{is_some};
ghost use Rattle.thompson_nfa.specs.Automaton.{node_of};
ghost use Rattle.nfa_paths.specs.Paths.{pattern_of, target_on};
ghost use Rattle.nfa_facts.specs.Reached.{AddsTo};
ghost use Rattle.nfa_facts.specs.Walks.{IsPassable, IsWalked, byte_of, state_of};

use crate::literal::reached::ReachedStates;
use nfa_scan_core::transitions::target;
use regex_search_core::StateID;
use std::alloc::{AllocError, Global};
use thompson_nfa::{NFA, State};

/// The most states that a walk follows.
const MAX_STATES: usize = 5_000;

/// What a walk may not pass.
#[derive(Clone, Copy, Debug)]
pub enum Cut {
    /// No transition is taken on this byte.
    Byte(u8),
    /// This state is not followed.
    State(StateID),
}

impl Cut {
    /// Returns the byte, if it is one.
    fn byte(&self) -> Option<u8>
        ensures { result ≡ byte_of self.now }
    {
        match self {
            Cut::Byte(byte) => Some(*byte),
            Cut::State(_) => None,
        }
    }

    /// Whether it is this state.
    fn is_at(&self, state: StateID) -> bool
        ensures { IsTrue result ↔ (state_of self.now ≡ Some state) }
    {
        match self {
            Cut::Byte(_) => false,
            Cut::State(cut) => *cut == state,
        }
    }
}

/// What a walk reached that reached no match.
#[derive(Drop)]
pub struct Passed {
    pub reached: ReachedStates,
    /// Whether it read no line feed.
    pub on_line: bool,
}

/// Walks from the anchored start on. Returns `None` if the walk reaches a match, or more than 5,000 states.
pub fn walk(alloc: Global, nfa: &NFA, cut: &Cut) -> Result<Option<Passed>, AllocError>
    ensures walked { IfOk result (λ found. IfSome found (λ w. IsWalked nfa.now cut.now w.on_line w.reached.states)) }
    ensures room { IfOk result (λ found. IfSome found (λ w. w.reached.room ≡ length nfa.now.states)) }
{
    let mut reached = ReachedStates::new(alloc, nfa.states().len())?;
    reached.add(nfa.start_anchored())?;
    let mut on_line = true;
    for done in 0..MAX_STATES {
        if done == reached.len() {
            return Ok(Some(Passed { reached, on_line }));
        }
        let state = reached.state(done);
        let Some(still) = pass(nfa, state, cut, &mut reached, on_line)? else {
            return Ok(None);
        };
        on_line = still;
    }
    Ok(None)
}

/// Follows the state, unless it is not to be passed. Returns whether no line feed is read yet, or `None` if the state
/// is a match.
fn pass(
    nfa: &NFA,
    id: StateID,
    cut: &Cut,
    reached: &mut ReachedStates,
    on_line: bool,
) -> Result<Option<bool>, AllocError>
    requires room { reached.old.room ≡ length nfa.now.states }
    requires below { id < length nfa.now.states }
    ensures room { reached.new.room ≡ reached.old.room }
    ensures adds { OnOk result (AddsTo reached.old.states reached.new.states) }
    ensures before { IfOk result (λ still. IfSome still (λ line. line ≡ true → on_line ≡ true)) }
    ensures passed { IfOk result (λ still. IfSome still (λ line.
        IsPassable nfa.now cut.now line reached.new.states id)) }
{
    if cut.is_at(id) {
        return Ok(Some(on_line));
    }
    let state = nfa.state(id);
    if is_match(state) {
        return Ok(None);
    }
    let still = stays_on_line(on_line, state);
    reached.follow(state, cut.byte())?;
    Ok(Some(still))
}

/// Whether the state is a match.
pub fn is_match(state: &State) -> bool
    ensures { result ≡ is_some (pattern_of (node_of state.now)) }
{
    match state {
        State::Match { .. } => true,
        _ => false,
    }
}

/// Whether no line feed was read, and the state does not move on over one.
fn stays_on_line(on_line: bool, state: &State) -> bool
    ensures before { result ≡ true → on_line ≡ true }
    ensures here { result ≡ true → target_on (node_of state.now) 10 ≡ None }
{
    on_line && target(state, Some(b'\n')).is_none()
}
