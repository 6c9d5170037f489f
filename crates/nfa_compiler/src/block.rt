//! The states of one pattern, moved to their place in the NFA of all patterns.
ghost use Rattle.std.specs.Prelude.{◌≡◌, ◌+◌, ◌<◌, ◌≤◌, IfErr, IfOk, OnOk, All, Some, map, vec_len};
ghost use Rattle.regex_nfa.specs.Run.{state_of};
ghost use Rattle.thompson_nfa.specs.Automaton.{node_of};
ghost use Rattle.nfa_compiler.specs.Blocks.{Adds, HoldsStates, IsBlock, Stands, look_of, match_at, moved, slot_in};
ghost use Rattle.nfa_compiler.specs.Rejected.{IsOfSite};

use crate::error::CompileError;
use crate::states::push;
use regex_nfa::Nfa;
use regex_search_core::{PatternID, StateID};
use std::alloc::Global;
use thompson_nfa::{Look, State, Transition};

/// The place of one pattern in the NFA: its state numbers and its slots.
#[derive(Clone, Copy)]
pub(crate) struct Site {
    /// The number of its first state.
    pub(crate) base: usize,
    /// The number of states that are moved.
    pub(crate) size: usize,
    pub(crate) pattern: PatternID,
    /// The first slot of its explicit groups.
    pub(crate) slots: usize,
}

impl Site {
    /// Returns the new number of a state.
    fn target(self, id: u32) -> Result<StateID, CompileError>
        ensures target { IfOk result (λ target. (id < self.size) × (target ≡ self.base + id)) }
        ensures fails { IfErr result (IsOfSite self) }
    {
        if id as usize >= self.size {
            return Err(self.bad_tree());
        }
        StateID::new(self.base.saturating_add(id as usize)).ok_or(CompileError::TooManyStates)
    }

    /// Returns the error of a pattern whose tree is not one that a parser returns.
    fn bad_tree(self) -> CompileError
        ensures { IsOfSite self result }
    {
        CompileError::Tree {
            pattern: self.pattern.as_usize(),
        }
    }

    /// Returns the new number of a slot of an explicit group.
    fn slot(self, slot: u32) -> Result<usize, CompileError>
        ensures slot { IfOk result (λ place. (2 ≤ slot) × (place ≡ slot_in self slot)) }
        ensures fails { IfErr result (IsOfSite self) }
    {
        if slot < 2 {
            return Err(self.bad_tree());
        }
        self.slots
            .checked_add(slot as usize - 2)
            .ok_or(CompileError::TooManyGroups)
    }

    /// Moves a transition.
    fn transition(self, transition: regex_nfa::Transition) -> Result<Transition, CompileError>
        ensures moved { IfOk result (λ made. (transition.next < self.size) × (made ≡ moved self transition)) }
        ensures fails { IfErr result (IsOfSite self) }
    {
        Ok(Transition {
            start: transition.start,
            end: transition.end,
            next: self.target(transition.next)?,
        })
    }

    /// Moves transitions.
    fn transitions(
        self,
        alloc: Global,
        transitions: &[regex_nfa::Transition],
    ) -> Result<Vec<Transition>, CompileError>
        ensures inside { IfOk result (λ made. All (λ t. t.next < self.size) transitions.now) }
        ensures moved { IfOk result (λ made. made.items ≡ map (moved self) transitions.now) }
        ensures fails { IfErr result (IsOfSite self) }
    {
        let mut made = Vec::with_capacity(alloc, transitions.len())?;
        for transition in transitions {
            made.push(self.transition(*transition)?)?;
        }
        Ok(made)
    }

    /// Moves a state. A Match becomes a Capture of the end, which leads to the only Match of the pattern.
    fn state(self, alloc: Global, nfa: &Nfa, id: u32) -> Result<State, CompileError>
        requires { id < vec_len nfa.now.states }
        ensures stands { IfOk result (λ made.
            Stands nfa.now.transitions.items self (state_of nfa.now id) (node_of made)) }
        ensures fails { IfErr result (IsOfSite self) }
    {
        match nfa.state(id) {
            regex_nfa::State::ByteRange(transition) => Ok(State::ByteRange {
                trans: self.transition(transition)?,
            }),
            regex_nfa::State::Sparse { from, to } => Ok(State::Sparse(self.transitions(
                alloc,
                &nfa.transitions[from as usize..to as usize],
            )?)),
            regex_nfa::State::Split { first, second } => Ok(State::BinaryUnion {
                alt1: self.target(first)?,
                alt2: self.target(second)?,
            }),
            regex_nfa::State::Save { slot, next } => Ok(State::Capture {
                next: self.target(next)?,
                slot: self.slot(slot)?,
            }),
            regex_nfa::State::Look { look, next } => Ok(State::Look {
                look: look_of(look),
                next: self.target(next)?,
            }),
            regex_nfa::State::Match => Ok(State::Capture {
                next: self.end()?,
                slot: self.pattern.as_usize() * 2 + 1,
            }),
            regex_nfa::State::Fail => Ok(State::Fail),
        }
    }

    /// Returns the number of the pattern's Match.
    fn end(self) -> Result<StateID, CompileError>
        ensures end { IfOk result (λ end. end ≡ match_at self) }
        ensures fails { IfErr result (IsOfSite self) }
    {
        StateID::new(self.base.saturating_add(self.size)).ok_or(CompileError::TooManyStates)
    }

    /// Adds the first states of the NFA. Requires a site that begins after the last state.
    fn add_states(
        self,
        alloc: Global,
        nfa: &Nfa,
        states: &mut Vec<State>,
    ) -> Result<(), CompileError>
        requires base { self.base ≡ vec_len states.old }
        requires size { self.size ≤ vec_len nfa.now.states }
        ensures holds { OnOk result (HoldsStates (map node_of states.old.items) (map node_of states.new.items)
            nfa.now self self.size) }
        ensures fails { IfErr result (IsOfSite self) }
    {
        for id in 0..self.size {
            states.push(self.state(alloc, nfa, id as u32)?)?;
        }
        Ok(())
    }

    /// Adds the first states of the NFA, then a Match, then the pattern's start, and returns the number of the start.
    /// Requires a site that begins after the last state.
    pub(crate) fn add(
        self,
        alloc: Global,
        nfa: &Nfa,
        states: &mut Vec<State>,
    ) -> Result<StateID, CompileError>
        requires base { self.base ≡ vec_len states.old }
        requires size { self.size ≤ vec_len nfa.now.states }
        ensures start { IfOk result (λ start. start ≡ match_at self + 1) }
        ensures added { OnOk result (Adds (map node_of states.old.items) (map node_of states.new.items)) }
        ensures count { OnOk result (vec_len states.new ≡ match_at self + 2) }
        ensures block { OnOk result (IsBlock (map node_of states.new.items) nfa.now self) }
        ensures fails { IfErr result (IsOfSite self) }
    {
        self.add_states(alloc, nfa, states)?;
        push(
            states,
            State::Match {
                pattern_id: self.pattern,
            },
        )?;
        let next = self.target(nfa.start)?;
        let slot = self.pattern.as_usize() * 2;
        let start = push(states, State::Capture { next, slot })?;
        Ok(start)
    }
}

/// Returns the assertion of `thompson_nfa` for this one.
fn look_of(look: regex_hir::Look) -> Look
    ensures { result ≡ look_of look }
{
    match look {
        regex_hir::Look::Start => Look::Start,
        regex_hir::Look::End => Look::End,
        regex_hir::Look::StartLf => Look::StartLF,
        regex_hir::Look::EndLf => Look::EndLF,
        regex_hir::Look::StartCrlf => Look::StartCRLF,
        regex_hir::Look::EndCrlf => Look::EndCRLF,
        regex_hir::Look::WordAscii => Look::WordAscii,
        regex_hir::Look::WordAsciiNegate => Look::WordAsciiNegate,
        regex_hir::Look::WordUnicode => Look::WordUnicode,
        regex_hir::Look::WordUnicodeNegate => Look::WordUnicodeNegate,
        regex_hir::Look::WordStartAscii => Look::WordStartAscii,
        regex_hir::Look::WordEndAscii => Look::WordEndAscii,
        regex_hir::Look::WordStartUnicode => Look::WordStartUnicode,
        regex_hir::Look::WordEndUnicode => Look::WordEndUnicode,
        regex_hir::Look::WordStartHalfAscii => Look::WordStartHalfAscii,
        regex_hir::Look::WordEndHalfAscii => Look::WordEndHalfAscii,
        regex_hir::Look::WordStartHalfUnicode => Look::WordStartHalfUnicode,
        regex_hir::Look::WordEndHalfUnicode => Look::WordEndHalfUnicode,
    }
}
