//! The states that a walk over an NFA reaches if it may not read one of the bytes.
ghost use Rattle.std.specs.Prelude.{◌≡◌, ◌<◌, All, IfOk, IfSome, OnOk, [], length, slice_get, Some};
ghost use Rattle.thompson_nfa.specs.Automaton.{LeadsBelow, node_of};
ghost use Rattle.thompson_nfa.specs.Automaton.Node.{ByteRange, Dense, Sparse};
ghost use Rattle.nfa_paths.specs.Graphs.{In};
ghost use Rattle.nfa_facts.specs.Reached.{AddsTo, HasOtherTargets, HasTargets};

use regex_search_core::StateID;
use std::alloc::{AllocError, Global};
use std::marker::Model;
use thompson_nfa::{State, Transition};

/// States of an NFA that were reached, each once, in order.
///
/// A contract sees the states, and the number of states of the NFA.
#[derive(Drop)]
pub struct ReachedStates {
    states: Vec<StateID>,
    /// For each state of the NFA, whether it was reached.
    marks: Vec<bool>,
}

impl Model for ReachedStates {
    ghost use Rattle.std.specs.Prelude.{length};
    ghost use Rattle.nfa_facts.specs.Reached.{AreMarked, Reach};

    ghost Value = { Reach };

    ghost view = { λ r. record { room = length r.marks.items; states = r.states.items } };

    ghost invariant = { λ r. AreMarked r.marks.items r.states.items };
}

impl ReachedStates {
    /// Makes an empty list, for an NFA of this number of states.
    pub fn new(alloc: Global, count: usize) -> Result<ReachedStates, AllocError>
        ensures { IfOk result (λ made. made ≡ record { room = count; states = [] }) }
    {
        Ok(ReachedStates {
            states: Vec::new(alloc),
            marks: vec![in alloc; false; count]?,
        })
    }

    /// Returns the number of states that were reached.
    pub fn len(&self) -> usize
        ensures { result ≡ length self.now.states }
    {
        self.states.len()
    }

    /// Returns the state at this index.
    pub fn state(&self, index: usize) -> StateID
        requires { index < length self.now.states }
        ensures value { slice_get self.now.states index ≡ Some result }
        ensures below { result < self.now.room }
    {
        self.states[index]
    }

    /// Adds the state, if it was not reached before. The only error is that an allocation failed.
    pub fn add(&mut self, state: StateID) -> Result<(), AllocError>
        requires { state < self.old.room }
        ensures room { self.new.room ≡ self.old.room }
        ensures adds { OnOk result (AddsTo self.old.states self.new.states) }
        ensures has { OnOk result (In state self.new.states) }
    {
        let index = state.as_usize();
        if !self.marks[index] {
            self.states.push(state)?;
            self.marks[index] = true;
        }
        Ok(())
    }

    /// Adds the states that this one leads to without a byte, and on each byte but this one. The only error is that an
    /// allocation failed.
    pub fn follow(&mut self, state: &State, byte: Option<u8>) -> Result<(), AllocError>
        requires { LeadsBelow self.old.room (node_of state.now) }
        ensures room { self.new.room ≡ self.old.room }
        ensures adds { OnOk result (AddsTo self.old.states self.new.states) }
        ensures has { OnOk result (HasTargets self.new.states byte (node_of state.now)) }
    {
        match state {
            State::ByteRange { trans } => self.add_other(trans, byte),
            State::Sparse(transitions) => self.add_others(transitions, byte),
            State::Dense(targets) => self.add_targets(targets, byte),
            State::Look { next, .. } | State::Capture { next, .. } => self.add(*next),
            State::Union { alternates } => self.add_all(alternates),
            State::BinaryUnion { alt1, alt2 } => {
                self.add(*alt1)?;
                self.add(*alt2)
            }
            State::Fail | State::Match { .. } => Ok(()),
        }
    }

    /// Adds each of the states.
    fn add_all(&mut self, states: &[StateID]) -> Result<(), AllocError>
        requires { All (λ s. s < self.old.room) states.now }
        ensures room { self.new.room ≡ self.old.room }
        ensures adds { OnOk result (AddsTo self.old.states self.new.states) }
        ensures has { OnOk result (All (λ s. In s self.new.states) states.now) }
    {
        for state in states {
            self.add(*state)?;
        }
        Ok(())
    }

    /// Adds the target of the transition, unless its range has no other byte than this one.
    fn add_other(&mut self, trans: &Transition, byte: Option<u8>) -> Result<(), AllocError>
        requires { trans.now.next < self.old.room }
        ensures room { self.new.room ≡ self.old.room }
        ensures adds { OnOk result (AddsTo self.old.states self.new.states) }
        ensures has { OnOk result (HasOtherTargets self.new.states byte (ByteRange trans.now)) }
    {
        match byte {
            Some(byte) if trans.start == byte && trans.end == byte => Ok(()),
            _ => self.add(trans.next),
        }
    }

    /// Adds the targets of the transitions whose ranges have another byte than this one.
    fn add_others(&mut self, transitions: &[Transition], byte: Option<u8>) -> Result<(), AllocError>
        requires { All (λ t. t.next < self.old.room) transitions.now }
        ensures room { self.new.room ≡ self.old.room }
        ensures adds { OnOk result (AddsTo self.old.states self.new.states) }
        ensures has { OnOk result (HasOtherTargets self.new.states byte (Sparse transitions.now)) }
    {
        for trans in transitions {
            self.add_other(trans, byte)?;
        }
        Ok(())
    }

    /// Adds the targets on each byte but this one.
    fn add_targets(
        &mut self,
        targets: &[Option<StateID>],
        byte: Option<u8>,
    ) -> Result<(), AllocError>
        requires { LeadsBelow self.old.room (Dense targets.now) }
        ensures room { self.new.room ≡ self.old.room }
        ensures adds { OnOk result (AddsTo self.old.states self.new.states) }
        ensures has { OnOk result (HasOtherTargets self.new.states byte (Dense targets.now)) }
    {
        for index in 0..targets.len() {
            self.add_target(index, targets[index], byte)?;
        }
        Ok(())
    }

    /// Adds the target on the byte of this index, if there is one and the byte is another one than `byte`.
    fn add_target(
        &mut self,
        index: usize,
        target: Option<StateID>,
        byte: Option<u8>,
    ) -> Result<(), AllocError>
        requires { IfSome target (λ s. s < self.old.room) }
        ensures room { self.new.room ≡ self.old.room }
        ensures adds { OnOk result (AddsTo self.old.states self.new.states) }
        ensures has { OnOk result (¬ (Some index ≡ byte) → IfSome target (λ s. In s self.new.states)) }
    {
        let Some(state) = target else {
            return Ok(());
        };
        match byte {
            Some(byte) if index == byte as usize => Ok(()),
            _ => self.add(state),
        }
    }
}
