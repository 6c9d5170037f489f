//! The rows that searches begin with.
ghost use Rattle.std.specs.Prelude.{◌≡◌, ◌<◌, IfSome, length};
ghost use Rattle.nfa_lazy_dfa.specs.Capacities.{GivesFirstRow};
ghost use Rattle.nfa_lazy_dfa.specs.Firsts.{IsFirstPlace, before_in};
ghost use Rattle.nfa_lazy_dfa.specs.Rows.{IsFor, IsRowOf, Spends};
ghost use Rattle.nfa_lazy_dfa.specs.Stances.{first_stance};

use super::{Cache, ROW_BYTES};
use crate::dfa::DFA;
use crate::error::GaveUp;
use crate::follow::Stand;
use crate::index::EMPTY;
use regex_search_core::StateID;

/// How many bytes the row takes that a scan begins with.
const FIRST_ROW_BYTES: usize = ROW_BYTES + 4;

/// The kind of what a search keeps of the byte before it. A search keeps no other byte.
#[inline(always)]
fn kind_of(before: Option<u8>) -> Option<usize>
    ensures low { IfSome result (λ kind. kind < 5) }
    ensures before { IfSome result (λ kind. before_in kind ≡ before) }
{
    match before {
        Some(b'a') => Some(0),
        Some(b' ') => Some(1),
        Some(b'\n') => Some(2),
        Some(b'\r') => Some(3),
        Some(_) => None,
        None => Some(4),
    }
}

/// The place of the row that such a search begins with, if it begins in the DFA's start.
#[inline(always)]
fn first_place(dfa: &DFA, start: StateID, before: Option<u8>, more: bool) -> Option<usize>
    ensures low { IfSome result (λ place. place < 10) }
    ensures start { IfSome result (λ place. start ≡ dfa.now.nfa.anchored) }
    ensures place { IfSome result (IsFirstPlace before more) }
{
    if start != dfa.nfa.start_anchored() {
        return None;
    }
    let kind = kind_of(before)?;
    Some(if more { kind + 5 } else { kind })
}

impl Cache {
    /// The row that a search begins with.
    #[inline(always)]
    pub(crate) fn start(
        &mut self,
        dfa: &DFA,
        start: StateID,
        before: Option<u8>,
        more: bool,
    ) -> Result<u32, GaveUp>
        requires own { IsFor self.old dfa.now }
        requires start { start < length dfa.now.nfa.states }
        ensures { GivesFirstRow dfa.now (first_stance start before more) self.old self.new result }
    {
        if let Some(row) = self.known_first(dfa, start, before, more) {
            return Ok(row);
        }
        self.begin(dfa, start, before, more)
    }

    /// The row that a search begins with, if it is remembered.
    #[inline(always)]
    pub(crate) fn known_first(
        &self,
        dfa: &DFA,
        start: StateID,
        before: Option<u8>,
        more: bool,
    ) -> Option<u32>
        requires { IsFor self.now dfa.now }
        ensures { IfSome result (λ row. IsRowOf self.now row (first_stance start before more)) }
    {
        let place = first_place(dfa, start, before, more)?;
        let row = self.firsts[place];
        if row == EMPTY {
            return None;
        }
        Some(row)
    }

    /// The row that a search begins with, if it is not remembered.
    #[cold]
    #[inline(never)]
    fn begin(
        &mut self,
        dfa: &DFA,
        start: StateID,
        before: Option<u8>,
        more: bool,
    ) -> Result<u32, GaveUp>
        requires own { IsFor self.old dfa.now }
        requires start { start < length dfa.now.nfa.states }
        ensures { GivesFirstRow dfa.now (first_stance start before more) self.old self.new result }
    {
        if dfa.capacity < FIRST_ROW_BYTES {
            return Err(GaveUp::Full);
        }
        let mut states = Vec::new(self.alloc);
        states.push(start)?;
        let stand = Stand {
            states,
            before,
            more,
            hit: None,
            hits: Vec::new(self.alloc),
        };
        let (row, _) = self.intern(dfa, stand)?;
        self.remember(dfa, start, before, more, row);
        Ok(row)
    }

    /// Remembers the row that such a search begins with, if it begins in the DFA's start.
    fn remember(&mut self, dfa: &DFA, start: StateID, before: Option<u8>, more: bool, row: u32)
        requires own { IsFor self.old dfa.now }
        requires row { IsRowOf self.old row (first_stance start before more) }
        ensures own { IsFor self.new dfa.now }
        ensures same { self.new.stands.items ≡ self.old.stands.items }
        ensures spends { Spends self.old self.new 0 0 }
    {
        if let Some(place) = first_place(dfa, start, before, more) {
            self.firsts[place] = row;
        }
    }
}
