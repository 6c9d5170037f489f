//! The states that were entered at a position, and the count of the turns.
ghost use Rattle.std.specs.Prelude.{◌≡◌, ◌+◌, ◌<◌, [], true, false, length, replicate, slice_index_or, slice_set, IfOk};

use nfa_scan_core::counter::Counter;
use regex_search_core::Refused;
use std::alloc::Global;
use std::marker::Model;

/// The states that were entered at a position, and the count of the tries to enter one. Contracts see a mark for each
/// state, and the count.
///
/// A state is marked if its stamp is the newest one, so a newer stamp clears all marks.
#[derive(Debug, Drop)]
pub struct Seen {
    pub(super) stamps: Vec<u32>,
    pub(super) newest: u32,
    turns: Counter,
}

impl Model for Seen {
    ghost use Rattle.std.specs.Prelude.{All, ◌≤◌, ◌<◌};
    ghost use Rattle.nfa_scan_core.specs.Marks.{Marks};
    ghost use Rattle.nfa_pikevm_scan.specs.Rows.{marks_of};

    ghost Value = { Marks };

    ghost view = { λ s. record { bits = marks_of s.newest s.stamps.items; turns = s.turns } };

    ghost invariant = { λ s. All (λ stamp. stamp ≤ s.newest) s.stamps.items × (0 < s.newest) };
}

impl Seen {
    /// Makes marks for no states.
    pub fn new(alloc: Global) -> Seen
        ensures { result ≡ record { bits = []; turns = 0 } }
    {
        Seen {
            stamps: Vec::new(alloc),
            newest: 1,
            turns: Counter::new(),
        }
    }

    /// Returns the same marks and count.
    pub fn copied(&self) -> Result<Seen, Refused>
        ensures { IfOk result (λ copy. copy ≡ self.now) }
    {
        Ok(Seen {
            stamps: self.stamps.clone()?,
            newest: self.newest,
            turns: self.turns.copy(),
        })
    }

    /// Returns the number of states that have a mark.
    pub fn len(&self) -> usize
        ensures { result ≡ length self.now.bits }
    {
        self.stamps.len()
    }

    /// Adds the count of turns to the total, and resets it to 0.
    pub fn restart_turns(&mut self, total: &mut Counter)
        ensures restarted { self.new ≡ record self.old { turns = 0 } }
        ensures total { total.new ≡ total.old + self.old.turns }
    {
        total.absorb(&mut self.turns);
    }

    /// Clears all marks.
    #[inline(always)]
    pub fn clear(&mut self)
        ensures { self.new ≡ record self.old { bits = replicate (length self.old.bits) false } }
    {
        if self.newest == u32::MAX {
            self.stamps.fill(0);
            self.newest = 1;
        } else {
            self.newest += 1;
        }
    }

    /// Marks the state, and returns whether it was unmarked. This is one turn.
    #[inline(always)]
    pub fn insert(&mut self, state: usize) -> bool
        requires { state < length self.old.bits }
        ensures turns { self.new.turns ≡ self.old.turns + 1 }
        ensures fresh { result ≡ true → (slice_index_or self.old.bits state true ≡ false)
            × (self.new.bits ≡ slice_set self.old.bits state true) }
        ensures seen { result ≡ false → (slice_index_or self.old.bits state false ≡ true)
            × (self.new.bits ≡ self.old.bits) }
    {
        self.turns.tick();
        if self.stamps[state] == self.newest {
            return false;
        }
        self.stamps[state] = self.newest;
        true
    }
}
