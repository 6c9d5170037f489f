//! The parts of a turn: the state at a place, the try to mark the place, and the turn at a byte state.
ghost use Rattle.std.specs.Prelude.{◌≡◌, ◌+◌, ◌<◌, Some, true, false, length, map, slice_get};
ghost use Rattle.regex_search_core.specs.Search.{search_of};
ghost use Rattle.thompson_nfa.specs.Automaton.{IsAutomaton, LeadsBelow, node_of};
ghost use Rattle.nfa_backtrack.specs.Walk.{pair_of, HasBits, IsByteStep, IsStatePos, Taken, TurnsLead, Walk};
ghost use Rattle.nfa_backtrack.specs.Walk.{WasMarked};

use crate::frame::StatePos;
use crate::visited::Visited;
use regex_search_core::{Input, StateID};
use thompson_nfa::{NFA, State};

/// Returns the state of this number. The walk holds the states; only the contract uses the NFA.
#[inline(always)]
pub fn state_at<'a>(nfa: &NFA, states: &'a [State], sid: StateID) -> &'a State
    requires states { map node_of states.now ≡ nfa.now.states }
    requires valid { IsAutomaton nfa.now }
    requires sid { sid < length nfa.now.states }
    ensures node { slice_get nfa.now.states sid ≡ Some (node_of result.now) }
    ensures leads { LeadsBelow (length nfa.now.states) (node_of result.now) }
{
    &states[sid.as_usize()]
}

/// Tries to mark the place, and returns whether it was unmarked. This is one turn.
#[inline(always)]
#[tactic(auto, using(crate::proofs::StepLemmas::bit_of_place))]
pub fn mark(nfa: &NFA, input: &Input<'_>, place: StatePos, visited: &mut Visited) -> bool
    requires place { IsStatePos nfa.now (search_of input.now) place }
    requires room { HasBits nfa.now (search_of input.now) visited.old.bits }
    ensures turns { visited.new.turns ≡ visited.old.turns + 1 }
    ensures size { length visited.new.bits ≡ length visited.old.bits }
    ensures taken { result ≡ true → Taken nfa.now (search_of input.now) (pair_of place) visited.old visited.new }
    ensures seen { result ≡ false → WasMarked nfa.now (search_of input.now) (pair_of place) visited.old visited.new }
{
    visited.insert(place.row + place.sid.as_usize())
}

/// Takes one turn at a byte state, and returns the place that the byte leads to. A row has `states` marks.
///
/// A dead end is not marked: if the byte leads nowhere, testing it again costs less than a mark.
#[inline(always)]
pub fn cross(
    nfa: &NFA,
    input: &Input<'_>,
    place: StatePos,
    target: Option<StateID>,
    states: usize,
    visited: &mut Visited,
) -> Option<StatePos>
    requires step { IsByteStep nfa.now (search_of input.now) (pair_of place) target }
    requires states { states ≡ length nfa.now.states }
    requires place { IsStatePos nfa.now (search_of input.now) place }
    requires room { HasBits nfa.now (search_of input.now) visited.old.bits }
    ensures turns { visited.new.turns ≡ visited.old.turns + 1 }
    ensures size { length visited.new.bits ≡ length visited.old.bits }
    ensures leads { (walk : Walk) → TurnsLead nfa.now (search_of input.now) (pair_of place) result
        (record walk { marks = visited.old }) (record walk { marks = visited.new }) }
{
    let StatePos { at, row, .. } = place;
    let Some(sid) = target else {
        visited.pass();
        return None;
    };
    if !mark(nfa, input, place, visited) {
        return None;
    }
    Some(StatePos {
        sid,
        at: at + 1,
        row: row + states,
    })
}
