//! The states of an NFA.
ghost use Rattle.std.specs.Prelude.{◌≡◌, IfOk};
ghost use Rattle.thompson_nfa.specs.Automaton.{node_of, node_with_terminator};

use crate::look::Look;
use regex_search_core::{PatternID, StateID};
use std::alloc::AllocError;

/// A transition to the state `next`, on each byte from `start` to `end`, both included.
#[derive(Clone, Copy, Debug, PartialEq, Eq, Hash)]
pub struct Transition {
    pub start: u8,
    pub end: u8,
    pub next: StateID,
}

/// A state of an NFA: which states follow it, and what it does.
///
/// A contract sees it as its node, `node_of`, which has lists instead of vectors.
#[derive(Debug, Drop)]
pub enum State {
    /// Moves on by this transition only.
    ByteRange { trans: Transition },
    /// Moves on by the first transition that contains the byte.
    Sparse(Vec<Transition>),
    /// Moves on to the target at the index of the byte. Moves nowhere if the index is past the last target.
    Dense(Vec<Option<StateID>>),
    /// Moves on without a byte, if the assertion holds.
    Look { look: Look, next: StateID },
    /// Moves on without a byte to any of these, in order of preference.
    Union { alternates: Vec<StateID> },
    /// Moves on without a byte to either of these two. `alt1` is preferred.
    BinaryUnion { alt1: StateID, alt2: StateID },
    /// Moves on without a byte, and writes the position into the slot.
    Capture { next: StateID, slot: usize },
    /// Moves nowhere.
    Fail,
    /// Moves nowhere. The pattern matches here.
    Match { pattern_id: PatternID },
}

impl State {
    /// Returns an equal state.
    pub fn clone(&self) -> Result<State, AllocError>
        ensures { IfOk result (λ copy. node_of copy ≡ node_of self.now) }
    {
        Ok(match self {
            State::ByteRange { trans } => State::ByteRange { trans: *trans },
            State::Sparse(transitions) => State::Sparse(transitions.clone()?),
            State::Dense(targets) => State::Dense(targets.clone()?),
            State::Look { look, next } => State::Look {
                look: *look,
                next: *next,
            },
            State::Union { alternates } => State::Union {
                alternates: alternates.clone()?,
            },
            State::BinaryUnion { alt1, alt2 } => State::BinaryUnion {
                alt1: *alt1,
                alt2: *alt2,
            },
            State::Capture { next, slot } => State::Capture {
                next: *next,
                slot: *slot,
            },
            State::Fail => State::Fail,
            State::Match { pattern_id } => State::Match {
                pattern_id: *pattern_id,
            },
        })
    }

    /// Makes this byte the line terminator of the state's assertion, if it is one of lines that `\n` ends.
    pub(crate) fn set_line_terminator(&mut self, byte: u8)
        ensures { node_of self.new ≡ node_with_terminator byte (node_of self.old) }
    {
        if let State::Look { look, .. } = self {
            *look = look.with_line_terminator(byte);
        }
    }
}
