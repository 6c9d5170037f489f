//! The cache of a PikeVM, and the test whether it fits.
ghost use Rattle.std.specs.Prelude.{◌≡◌, ◌↔◌, IfOk, IsOk, OnOk, OnErr, IsOkUnless, IsTrue};
ghost use Rattle.nfa_pikevm.specs.Engines.{Fits, cache_for, reset_for, pike_memory_of};

use crate::engine::PikeVM;
use nfa_pikevm_scan::sizes::{make_room, size_for, stack_frames};
use nfa_pikevm_scan::slot::Slot;
use nfa_pikevm_scan::threads::Threads;
use nfa_scan_core::counter::Counter;
use nfa_search_base::error::SearchError;
use regex_search_core::Refused;
use std::alloc::Global;
use std::marker::Model;

/// The memory that searches of a PikeVM write to: the states that they follow, with a slot row for each, and a stack. A
/// search allocates nothing else. It requires a cache that is large enough ([`Cache::fits`]).
///
/// Contracts see the states, slots, patterns and stack frames that the cache has room for, the scans and turns of its
/// last search, and their totals over all searches.
#[derive(Debug)]
pub struct Cache {
    pub(super) threads: Threads,
    pub(super) found: Vec<Slot>,
    slots: usize,
    patterns: usize,
    /// Scans of all searches before the last one.
    past_scans: Counter,
    /// Turns of all searches before the last one.
    past_turns: Counter,
}

// Written out, so that a drop is one call in a proof, and not one for each field.
impl Drop for Cache {
    fn drop(self) {
        let Cache {
            threads: _,
            found: _,
            slots: _,
            patterns: _,
            past_scans: _,
            past_turns: _,
        } = self;
    }
}

impl Model for Cache {
    ghost use Rattle.std.specs.Prelude.{◌+◌, length};
    ghost use Rattle.nfa_pikevm.specs.Engines.{PikeCache};
    ghost use Rattle.nfa_pikevm_scan.specs.Scans.{IsRoomFor};

    ghost Value = { PikeCache };

    ghost view = { λ c. record {
      states = length c.threads.reached.seen.bits;
      slots = c.slots;
      patterns = c.patterns;
      frames =
          length c.threads.frames.items;
      scans = c.threads.scans;
      turns = c.threads.reached.seen.turns;
      all_scans =
          c.past_scans + c.threads.scans;
      all_turns = c.past_turns + c.threads.reached.seen.turns;
    } };

    ghost invariant = { λ c. IsRoomFor c.slots c.threads (length c.found.items) };
}

impl Cache {
    /// Makes a cache that fits the PikeVM and is no larger. The only error is `Memory`.
    pub fn new(alloc: Global, vm: &PikeVM) -> Result<Cache, SearchError>
        ensures made { IfOk result (λ made. made ≡ cache_for vm.now.nfa) }
        ensures memory { IsOkUnless result SearchError.Memory }
    {
        let nfa = vm.get_nfa();
        let Some(size) = size_for(nfa) else {
            return Err(SearchError::Memory);
        };
        let mut threads = Threads::new(alloc)?;
        let mut found = Vec::new(alloc);
        make_room(&mut threads, &mut found, &size, nfa.start_anchored())?;
        Ok(Cache {
            threads,
            found,
            slots: size.slots,
            patterns: nfa.pattern_len(),
            past_scans: Counter::new(),
            past_turns: Counter::new(),
        })
    }

    /// Makes the cache fit the PikeVM, even if that makes it smaller. Its memory is kept, so the result is `Ok` if the
    /// cache fits already. The only error is `Memory`. After an error the cache is unchanged, and fits what it fitted.
    pub fn reset(&mut self, vm: &PikeVM) -> Result<(), SearchError>
        ensures granted { Fits self.old vm.now.nfa → IsOk result }
        ensures made { OnOk result (self.new ≡ reset_for self.old vm.now.nfa) }
        ensures kept { OnErr result (self.new ≡ self.old) }
        ensures memory { IsOkUnless result SearchError.Memory }
    {
        let Cache {
            threads,
            found,
            slots,
            patterns,
            ..
        } = self;
        let nfa = vm.get_nfa();
        let Some(size) = size_for(nfa) else {
            return Err(SearchError::Memory);
        };
        make_room(threads, found, &size, nfa.start_anchored())?;
        *slots = size.slots;
        *patterns = nfa.pattern_len();
        Ok(())
    }

    /// Returns whether the cache is large enough for searches of the PikeVM.
    pub fn fits(&self, vm: &PikeVM) -> bool
        ensures { IsTrue result ↔ Fits self.now vm.now.nfa }
    {
        let nfa = vm.get_nfa();
        let frames = self.threads.frames.len();
        let Some(places) = stack_frames(nfa) else {
            return false;
        };
        nfa.states().len() <= self.threads.reached.seen.len()
            && nfa.group_info().slot_len() <= self.slots
            && nfa.pattern_len() <= self.patterns
            && places <= frames
    }

    /// Adds the work of the last search to that of all searches before, as a search begins.
    #[inline(always)]
    pub(super) fn restart_counts(&mut self)
        ensures { self.new ≡ record self.old { scans = 0; turns = 0 } }
    {
        self.past_scans.absorb(&mut self.threads.scans);
        self.threads
            .reached
            .seen
            .restart_turns(&mut self.past_turns);
    }

    /// Returns a cache of the same sizes and counts. The only error is `Memory`.
    pub fn clone(&self) -> Result<Cache, SearchError>
        ensures copy { IfOk result (λ copy. copy ≡ self.now) }
        ensures memory { IsOkUnless result SearchError.Memory }
    {
        Ok(self.copied()?)
    }

    fn copied(&self) -> Result<Cache, Refused>
        ensures { IfOk result (λ copy. copy ≡ self.now) }
    {
        Ok(Cache {
            threads: self.threads.copied()?,
            found: self.found.clone()?,
            slots: self.slots,
            patterns: self.patterns,
            past_scans: self.past_scans.copy(),
            past_turns: self.past_turns.copy(),
        })
    }

    /// Returns the bytes that the entries of the cache take: 24 for a stack frame, 8 for a slot, 4 for the mark of a
    /// state and for each entry of the two sets of states. The sum saturates at `usize::MAX`.
    pub fn memory_usage(&self) -> usize
        ensures { result ≡ pike_memory_of self.now }
    {
        let states = self.threads.reached.seen.len();
        let rows = states.saturating_mul(2).saturating_add(3);
        let entries = states.saturating_mul(3).saturating_add(2);
        let frames = self.threads.frames.len().saturating_mul(24);
        let slots = rows.saturating_mul(self.slots).saturating_mul(8);
        frames
            .saturating_add(slots)
            .saturating_add(entries.saturating_mul(4))
    }
}
