//! A state, with what a way to it has done.
ghost use Rattle.std.specs.Prelude.{◌≡◌, ◌+◌, ◌*◌, ◌<◌, ◌&&◌, ◌==◌, ◌↔◌, IsTrue, Some, false};
ghost use Rattle.thompson_nfa.specs.Automaton.{node_of};
ghost use Rattle.nfa_paths.specs.Paths.{pattern_of};
ghost use Rattle.nfa_facts.specs.PathStates.{after_node, at_state, fresh_path_state, is_recorded};
ghost use Rattle.nfa_facts.specs.PathStates.{path_state_number, bit};

use regex_search_core::StateID;
use thompson_nfa::State;

/// A state, and what a way to it has done before the state's own turn. For one pattern, this is enough to decide
/// whether a match writes its start and its end.
#[derive(Clone, Copy, Debug)]
pub struct PathState {
    pub state: StateID,
    /// Whether a byte was read.
    pub has_read: bool,
    /// Whether the pattern's first slot holds the start of the way.
    pub start_written: bool,
    /// Whether the pattern's second slot holds the current position of the way.
    pub end_written: bool,
}

impl PathState {
    /// Makes the place of a state that a way starts with.
    pub fn fresh(state: StateID) -> PathState
        ensures { result ≡ fresh_path_state state }
    {
        PathState {
            state,
            has_read: false,
            start_written: false,
            end_written: false,
        }
    }

    /// Returns the place of another state with the same done.
    pub fn at_state(&self, state: StateID) -> PathState
        ensures { result ≡ at_state self.now state }
    {
        PathState { state, ..*self }
    }

    /// Returns the place's number. There are eight numbers for each state.
    pub fn number(&self) -> usize
        ensures value { result ≡ path_state_number self.now }
        ensures below { result < 8 * self.now.state + 8 }
    {
        8 * self.state.as_usize()
            + 4 * bit(self.has_read)
            + 2 * bit(self.start_written)
            + bit(self.end_written)
    }

    /// Returns the place after the turn of its state, which is passed as `state`.
    #[tactic(auto, unfolding(crate::specs::PathStates::after_node, nfa_paths::specs::StatePaths::reads))]
    pub fn after(&self, state: &State, pattern: usize) -> PathState
        ensures { result ≡ after_node pattern (node_of state.now) self.now }
    {
        match state {
            State::ByteRange { .. } | State::Sparse(_) | State::Dense(_) => PathState {
                has_read: true,
                end_written: false,
                ..*self
            },
            State::Capture { slot, .. } => PathState {
                start_written: if is_start_slot(*slot, pattern) {
                    !self.has_read
                } else {
                    self.start_written
                },
                end_written: self.end_written || is_end_slot(*slot, pattern),
                ..*self
            },
            _ => *self,
        }
    }

    /// Returns whether the place's state, passed as `state`, is a match of the pattern that lacks one of its bounds.
    pub fn is_unrecorded(&self, state: &State, pattern: usize) -> bool
        ensures { IsTrue result ↔ ((pattern_of (node_of state.now) ≡ Some pattern) × (is_recorded self.now ≡ false)) }
    {
        match state {
            State::Match { pattern_id } => {
                pattern_id.as_usize() == pattern && !(self.start_written && self.end_written)
            }
            _ => false,
        }
    }
}

/// 1 for true, 0 for false.
fn bit(value: bool) -> usize
    ensures { result ≡ bit value }
{
    value as usize
}

/// Whether this is the slot of the start of the pattern's matches.
fn is_start_slot(slot: usize, pattern: usize) -> bool
    ensures { result ≡ (slot == 2 * pattern) }
{
    slot % 2 == 0 && slot / 2 == pattern
}

/// Whether this is the slot of the end of the pattern's matches.
fn is_end_slot(slot: usize, pattern: usize) -> bool
    ensures { result ≡ (slot == 2 * pattern + 1) }
{
    slot % 2 == 1 && slot / 2 == pattern
}
