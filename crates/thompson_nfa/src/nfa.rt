//! An NFA, made from its states.
ghost use Rattle.std.specs.Prelude.{◌≡◌, ◌<◌, ◌≤◌, ◌↔◌, length, map, Some, IsTrue, IfSome, IfOk, IsOkUnless, slice_get};
ghost use Rattle.regex_search_core.specs.Groups.{names_of, slot_count};
ghost use Rattle.regex_search_core.specs.PatternSets.{number_of};
ghost use Rattle.thompson_nfa.specs.Automaton.{Automaton, IsAutomaton, LeadsBelow, SlotBelow, PatternBelow, node_of};
ghost use Rattle.thompson_nfa.specs.Automaton.{node_with_terminator};

use crate::flaw::{Flaw, first_flaw};
use crate::state::State;
use regex_search_core::{GroupInfo, PatternID, Refused, StateID};
use std::alloc::{AllocError, AllocFailed, Global};
use std::fmt;
use std::marker::Model;
use thiserror::Error;

/// Why an NFA was not made: an allocation failed, or its parts have a flaw of this kind. [`first_flaw`] also says where
/// the flaw is.
#[derive(Clone, Copy, Debug, PartialEq, Eq, Hash, Error)]
pub enum BuildError {
    /// An allocation failed.
    #[error("out of memory")]
    Memory,
    /// There are no states.
    #[error("the NFA has no states")]
    Empty,
    /// A start or a state refers to a state that does not exist.
    #[error("a start or a state refers to a state that does not exist")]
    State,
    /// A `Capture` writes a slot that belongs to no group.
    #[error("a state writes a slot that belongs to no group")]
    Slot,
    /// A `Match` is of a pattern that has no start state.
    #[error("a state matches a pattern that has no start state")]
    Pattern,
    /// The groups are given for a number of patterns that is neither 0 nor the number of start states.
    #[error("groups and start states are given for different numbers of patterns")]
    Groups,
}

impl From<Flaw> for BuildError {
    ghost use Rattle.std.specs.Prelude.{◌≡◌};
    ghost use Rattle.thompson_nfa.specs.Flaws.{error_of};

    ghost from_gives = { λ flaw e. e ≡ error_of flaw };

    fn from(flaw: Flaw) -> BuildError {
        match flaw {
            Flaw::Empty => BuildError::Empty,
            Flaw::State(_) => BuildError::State,
            Flaw::Slot { .. } => BuildError::Slot,
            Flaw::Pattern { .. } => BuildError::Pattern,
            Flaw::Groups { .. } => BuildError::Groups,
        }
    }
}

impl From<Refused> for BuildError {
    ghost use Rattle.std.specs.Prelude.{◌≡◌};
    ghost use Rattle.thompson_nfa.specs.declared.nfa.BuildError.TheVariants as error;

    ghost from_gives = { λ _ e. e ≡ error.Memory };

    fn from(_: Refused) -> BuildError {
        BuildError::Memory
    }
}

impl From<AllocError> for BuildError {
    ghost use Rattle.std.specs.Prelude.{◌≡◌};
    ghost use Rattle.thompson_nfa.specs.declared.nfa.BuildError.TheVariants as error;

    ghost from_gives = { λ _ e. e ≡ error.Memory };

    fn from(_: AllocError) -> BuildError {
        BuildError::Memory
    }
}

impl<T: Drop> From<AllocFailed<T>> for BuildError {
    ghost use Rattle.std.specs.Prelude.{◌≡◌};
    ghost use Rattle.thompson_nfa.specs.declared.nfa.BuildError.TheVariants as error;

    ghost from_gives = { λ _ e. e ≡ error.Memory };

    fn from(_: AllocFailed<T>) -> BuildError {
        BuildError::Memory
    }
}

/// A nondeterministic finite automaton over bytes, as Thompson's construction makes it: its states, where searches
/// start, the groups of its patterns, and two flags.
///
/// Each state number in it names one of its states. Each `Capture` writes a slot of its groups. Each `Match` is of one
/// of its patterns. Its groups are given for each of its patterns, or for none.
///
/// A contract sees the NFA as an `Automaton`.
#[derive(Debug)]
pub struct NFA {
    states: Vec<State>,
    anchored: StateID,
    unanchored: StateID,
    patterns: Vec<StateID>,
    groups: GroupInfo,
    has_empty: bool,
    utf8: bool,
}

// Written out, so that a drop is one call in a proof, and not one for each field.
impl Drop for NFA {
    fn drop(self) {
        let NFA {
            states: _,
            anchored: _,
            unanchored: _,
            patterns: _,
            groups: _,
            has_empty: _,
            utf8: _,
        } = self;
    }
}

impl Model for NFA {
    ghost use Rattle.std.specs.Prelude.{map};
    ghost use Rattle.thompson_nfa.specs.Automaton.{Automaton, IsAutomaton, node_of};

    ghost Value = { Automaton };

    ghost use Rattle.thompson_nfa.specs.NFA.{automaton_of};

    ghost view = { automaton_of };

    ghost invariant = { λ a. IsAutomaton (automaton_of a) };
}

impl NFA {
    ghost use Rattle.thompson_nfa.specs.Flaws.{IsBuilt};
    ghost use Rattle.thompson_nfa.specs.Automaton.{always, never, nfa_with_terminator};

    /// Makes the NFA of these states. The number of a state is its index. Anchored searches start at `anchored`, all
    /// others at `unanchored`; `patterns` has the start state of each pattern.
    ///
    /// Returns an error exactly if [`first_flaw`] finds a flaw in the parts. The error is the flaw's variant. Nothing
    /// is allocated, so the error is never `Memory`.
    pub fn from_states(
        states: Vec<State>,
        anchored: StateID,
        unanchored: StateID,
        patterns: Vec<StateID>,
        groups: GroupInfo,
        has_empty: bool,
        utf8: bool,
    ) -> Result<NFA, BuildError>
        ensures { let made : Automaton = record {
          states = map node_of states.items;
          anchored = anchored;
          unanchored = unanchored;
          patterns = patterns.items;
          groups = groups;
          has_empty = has_empty;
          utf8 = utf8;
        } in IsBuilt made result }
    {
        if let Some(flaw) = first_flaw(&states, anchored, unanchored, &patterns, &groups) {
            return Err(BuildError::from(flaw));
        }
        Ok(NFA {
            states,
            anchored,
            unanchored,
            patterns,
            groups,
            has_empty,
            utf8,
        })
    }

    /// Makes an NFA of one pattern, the empty one, which matches the empty string at each position. It has no explicit
    /// groups, `has_empty` is true, and it is not in UTF-8 mode. The only error is `Memory`.
    pub fn always_match(alloc: Global) -> Result<NFA, BuildError>
        ensures made { IfOk result (λ made. made ≡ always) }
        ensures memory { IsOkUnless result BuildError.Memory }
    {
        let start = numbered(0);
        let states = vec![in alloc;
            State::Capture {
                next: numbered(1),
                slot: 0
            },
            State::Capture {
                next: numbered(2),
                slot: 1
            },
            State::Match {
                pattern_id: first_pattern()
            },
        ]?;
        let patterns = vec![in alloc; start]?;
        let groups = groups_named(vec![in alloc; Vec::new(alloc)]?);
        NFA::from_states(states, start, start, patterns, groups, true, false)
    }

    /// Makes an NFA without patterns, which matches nothing. Both flags are false. The only error is `Memory`.
    pub fn never_match(alloc: Global) -> Result<NFA, BuildError>
        ensures made { IfOk result (λ made. made ≡ never) }
        ensures memory { IsOkUnless result BuildError.Memory }
    {
        let start = numbered(0);
        let states = vec![in alloc; State::Fail]?;
        let groups = groups_named(Vec::new(alloc));
        NFA::from_states(states, start, start, Vec::new(alloc), groups, false, false)
    }

    /// Returns the NFA with this byte as the line terminator in place of `\n`: each `StartLF` is `StartLine` of the
    /// byte, and each `EndLF` is `EndLine`. All else stays, so `.` in a pattern still matches all but `\n`, and
    /// assertions of `\r\n` stay as they are.
    pub fn with_line_terminator(mut self, byte: u8) -> NFA
        ensures { result ≡ nfa_with_terminator byte self }
    {
        set_line_terminator(&mut self.states, byte);
        self
    }

    /// Returns the states, in the order of their numbers.
    pub fn states(&self) -> &[State]
        ensures nodes { map node_of result.now ≡ self.now.states }
        ensures valid { IsAutomaton self.now }
    {
        &self.states
    }

    /// Returns the state of this number. Requires that the number is below the number of states.
    pub fn state(&self, id: StateID) -> &State
        requires { id < length self.now.states }
        ensures node { slice_get self.now.states id ≡ Some (node_of result.now) }
        ensures leads { LeadsBelow (length self.now.states) (node_of result.now) }
        ensures slot { SlotBelow (slot_count self.now.groups) (node_of result.now) }
        ensures pattern { PatternBelow (length self.now.patterns) (node_of result.now) }
        ensures valid { IsAutomaton self.now }
    {
        &self.states[id.as_usize()]
    }

    /// Returns the start state of anchored searches.
    pub fn start_anchored(&self) -> StateID
        ensures value { result ≡ self.now.anchored }
        ensures within { result < length self.now.states }
        ensures valid { IsAutomaton self.now }
    {
        self.anchored
    }

    /// Returns the start state of unanchored searches.
    pub fn start_unanchored(&self) -> StateID
        ensures value { result ≡ self.now.unanchored }
        ensures within { result < length self.now.states }
        ensures valid { IsAutomaton self.now }
    {
        self.unanchored
    }

    /// Returns the start state of searches for this pattern only. `None` for an unknown pattern.
    pub fn start_pattern(&self, pattern: PatternID) -> Option<StateID>
        ensures value { result ≡ slice_get self.now.patterns (number_of pattern) }
        ensures within { IfSome result (λ s. s < length self.now.states) }
        ensures valid { IsAutomaton self.now }
    {
        self.patterns.get(pattern.as_usize()).copied()
    }

    /// Returns whether every search is anchored, that is, whether the two start states are equal.
    pub fn is_always_start_anchored(&self) -> bool
        ensures { IsTrue result ↔ (self.now.anchored ≡ self.now.unanchored) }
    {
        self.anchored == self.unanchored
    }

    /// Returns the flag `has_empty`: whether the NFA's maker said that it can match the empty string.
    pub fn has_empty(&self) -> bool
        ensures { result ≡ self.now.has_empty }
    {
        self.has_empty
    }

    /// Returns the flag `utf8`, as the NFA's maker set it: whether empty matches that split a codepoint are skipped.
    pub fn is_utf8(&self) -> bool
        ensures { result ≡ self.now.utf8 }
    {
        self.utf8
    }

    /// Returns the number of patterns.
    pub fn pattern_len(&self) -> usize
        ensures value { result ≡ length self.now.patterns }
        ensures valid { IsAutomaton self.now }
    {
        self.patterns.len()
    }

    /// Returns an equal NFA. The only error is `Memory`.
    pub fn clone(&self) -> Result<NFA, BuildError>
        ensures copy { IfOk result (λ copy. copy ≡ self.now) }
        ensures memory { IsOkUnless result BuildError.Memory }
    {
        Ok(NFA {
            states: clone_states(*self.states.allocator(), &self.states)?,
            anchored: self.anchored,
            unanchored: self.unanchored,
            patterns: self.patterns.clone()?,
            groups: self.groups.clone()?,
            has_empty: self.has_empty,
            utf8: self.utf8,
        })
    }

    /// Returns the groups of its patterns. They may be given for no pattern.
    pub fn group_info(&self) -> &GroupInfo
        ensures value { result.now ≡ self.now.groups }
        ensures valid { IsAutomaton self.now }
    {
        &self.groups
    }
}

/// The state of this number.
fn numbered(number: usize) -> StateID
    requires { number ≤ 2147483646 }
    ensures { result ≡ number }
{
    StateID::new(number).unwrap()
}

/// The pattern 0.
fn first_pattern() -> PatternID
    ensures { number_of result ≡ 0 }
{
    PatternID::new(0).unwrap()
}

/// The groups of these names.
fn groups_named(names: Vec<Vec<Option<String>>>) -> GroupInfo
    requires { slot_count (names_of names.items) ≤ 2147483646 }
    ensures { result ≡ names_of names.items }
{
    GroupInfo::new(names).unwrap()
}

/// Clones the states.
fn clone_states(alloc: Global, states: &[State]) -> Result<Vec<State>, BuildError>
    ensures copy { IfOk result (λ copy. map node_of copy.items ≡ map node_of states.now) }
    ensures memory { IsOkUnless result BuildError.Memory }
{
    let mut copy = Vec::with_capacity(alloc, states.len())?;
    for state in states {
        copy.push(state.clone()?)?;
    }
    Ok(copy)
}

/// Makes this byte the line terminator of all states.
fn set_line_terminator(states: &mut [State], byte: u8)
    ensures { map node_of states.new ≡ map (node_with_terminator byte) (map node_of states.old) }
{
    for state in states.iter_mut() {
        state.set_line_terminator(byte);
    }
}
