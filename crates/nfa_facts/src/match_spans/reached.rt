//! The places that were reached, each once, in order.
ghost use Rattle.std.specs.Prelude.{◌≡◌, ◌+◌, ◌*◌, ◌^◌, ◌≤◌, ◌<◌, All, IfOk, OnOk, length, map, [], ◌∷◌};
ghost use Rattle.std.specs.Prelude.{slice_get, Some};
ghost use Rattle.nfa_facts.specs.PathStates.{at_state, GainsPathStates};

use crate::match_spans::path_state::PathState;
use regex_search_core::StateID;
use std::alloc::{AllocError, Global};
use std::marker::Model;

/// The places that were reached, each once, in order.
///
/// A contract sees the places, and their maximum number.
#[derive(Drop)]
pub struct ReachedSet {
    places: Vec<PathState>,
    /// For each place's number, whether the place was reached.
    marks: Vec<bool>,
}

impl Model for ReachedSet {
    ghost use Rattle.std.specs.Prelude.{length};
    ghost use Rattle.nfa_facts.specs.PathStates.{Reach, IsTable};

    ghost Value = { Reach };

    ghost view = { λ r. record { room = length r.marks.items; places = r.places.items } };

    ghost invariant = { λ r. IsTable r.marks.items r.places.items };
}

impl ReachedSet {
    /// Makes an empty list for this number of states.
    pub fn new(alloc: Global, states: usize) -> Result<ReachedSet, AllocError>
        requires { 8 * states < 2 ^ 64 }
        ensures { IfOk result (λ made. made ≡ record { room = 8 * states; places = [] }) }
    {
        Ok(ReachedSet {
            places: Vec::new(alloc),
            marks: vec![in alloc; false; 8 * states]?,
        })
    }

    /// Returns the number of places that were reached.
    pub fn len(&self) -> usize
        ensures value { result ≡ length self.now.places }
        ensures within { result ≤ self.now.room }
    {
        self.places.len()
    }

    /// Returns the place at this index.
    pub fn place(&self, index: usize) -> PathState
        requires { index < length self.now.places }
        ensures { slice_get self.now.places index ≡ Some result }
    {
        self.places[index]
    }

    /// Adds the place, if it was not reached before. The only error is that an allocation failed.
    pub fn add(&mut self, place: &PathState) -> Result<(), AllocError>
        requires { 8 * place.now.state + 8 ≤ self.old.room }
        ensures room { self.new.room ≡ self.old.room }
        ensures gains { OnOk result (GainsPathStates self.old.places self.new.places (place.now ∷ [])) }
    {
        let number = place.number();
        if !self.marks[number] {
            self.places.push(*place)?;
            self.marks[number] = true;
        }
        Ok(())
    }

    /// Adds the places of these states, with what is done at `place`. The only error is that an allocation failed.
    pub fn add_all(&mut self, place: &PathState, states: &[StateID]) -> Result<(), AllocError>
        requires { All (λ s. 8 * s + 8 ≤ self.old.room) states.now }
        ensures room { self.new.room ≡ self.old.room }
        ensures gains { OnOk result (GainsPathStates self.old.places self.new.places
            (map (at_state place.now) states.now)) }
    {
        for state in states {
            self.add(&place.at_state(*state))?;
        }
        Ok(())
    }
}
