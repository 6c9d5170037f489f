//! The first flaw in the parts of an NFA.
ghost use Rattle.std.specs.Prelude.{Bool, map};
ghost use Rattle.thompson_nfa.specs.Automaton.{node_of};
ghost use Rattle.thompson_nfa.specs.Flaws.{IsFirstFlaw};

use crate::state::State;
use crate::validate::{first_pattern_outside, first_slot_outside, first_unnumbered};
use regex_search_core::{GroupInfo, StateID};
use std::fmt;
use thiserror::Error;

/// A place in an NFA that holds the number of a state: a start, or a state that leads to others.
#[derive(Clone, Copy, Debug, PartialEq, Eq, Hash)]
pub enum Referrer {
    /// The start state of anchored searches.
    Anchored,
    /// The start state of unanchored searches.
    Unanchored,
    /// The start state of the pattern of this number.
    Pattern(usize),
    /// The state of this number.
    State(usize),
}

impl fmt::Display for Referrer {
    ghost use Rattle.std.specs.Prelude.{Some};
    ghost use Rattle.thompson_nfa.specs.Flaws.{referrer_text};

    ghost output = { λ referrer. Some (referrer_text referrer) };

    fn fmt<W: fmt::Write>(&self, f: &mut fmt::Formatter<W>) -> fmt::Result {
        match self {
            Referrer::Anchored => f.write_str("the anchored start"),
            Referrer::Unanchored => f.write_str("the unanchored start"),
            Referrer::Pattern(pattern) => write!(f, "the start of pattern {pattern}"),
            Referrer::State(state) => write!(f, "state {state}"),
        }
    }
}

/// What is wrong with the parts of an NFA, and where.
#[derive(Clone, Copy, Debug, PartialEq, Eq, Hash, Error)]
pub enum Flaw {
    /// There are no states.
    #[error("the NFA has no states")]
    Empty,
    /// The holder refers to a state that does not exist.
    #[error("{0} refers to a state that does not exist")]
    State(Referrer),
    /// The state of this number is a `Capture` that writes a slot which belongs to no group.
    #[error("state {state} writes slot {slot}, which belongs to no group")]
    Slot { state: usize, slot: usize },
    /// The state of this number is a `Match` of a pattern that has no start state.
    #[error("state {state} matches pattern {pattern}, which has no start state")]
    Pattern { state: usize, pattern: usize },
    /// The groups are given for a number of patterns that is neither 0 nor the number of start states.
    #[error("groups are given for {groups} patterns, but start states for {patterns}")]
    Groups { groups: usize, patterns: usize },
}

/// Returns the first flaw in the parts of an NFA, or `None` if `NFA::from_states` makes an NFA of them.
///
/// The flaws are checked in this order:
///
/// 1. `Empty`: there are no states.
/// 2. `State`: a state number is out of range, in `anchored`, in `unanchored`, in a pattern's start, or in a state.
/// 3. `Slot`: the slot of a `Capture` is not below the number of slots.
/// 4. `Pattern`: the pattern of a `Match` is not below the number of patterns.
/// 5. `Groups`: the groups are given for a number of patterns that is neither 0 nor the number of start states.
///
/// Each flaw names the first place that has it. This function allocates nothing.
pub fn first_flaw(
    states: &[State],
    anchored: StateID,
    unanchored: StateID,
    patterns: &[StateID],
    groups: &GroupInfo,
) -> Option<Flaw>
    // Holds for any values of the two flags.
    ensures { (has_empty utf8 : Bool) → IsFirstFlaw (record {
      states = map node_of states.now;
      anchored = anchored;
      unanchored = unanchored;
      patterns = patterns.now;
      groups = groups.now;
      has_empty = has_empty;
      utf8 = utf8;
    }) result }
{
    if states.is_empty() {
        return Some(Flaw::Empty);
    }
    if let Some(holder) = first_unnumbered(states, anchored, unanchored, patterns) {
        return Some(Flaw::State(holder));
    }
    if let Some((state, slot)) = first_slot_outside(states, groups.slot_len()) {
        return Some(Flaw::Slot { state, slot });
    }
    if let Some((state, pattern)) = first_pattern_outside(states, patterns.len()) {
        return Some(Flaw::Pattern { state, pattern });
    }
    let (groups_of, with_start) = (groups.pattern_len(), patterns.len());
    if groups_of != with_start && groups_of != 0 {
        return Some(Flaw::Groups {
            groups: groups_of,
            patterns: with_start,
        });
    }
    None
}
