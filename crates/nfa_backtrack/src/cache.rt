//! The memory that a backtracker's searches write to, kept from one search to the next.
ghost use Rattle.std.specs.Prelude.{◌≡◌, IfOk, IsOkUnless};
ghost use Rattle.nfa_backtrack.specs.Backtrack.{empty_cache, memory_of};

use crate::engine::BoundedBacktracker;
use crate::scratch::Scratch;
use crate::visited::Visited;
use nfa_scan_core::counter::Counter;
use nfa_search_base::error::SearchError;
use regex_search_core::{NonMaxUsize, Refused};
use std::alloc::Global;
use std::marker::Model;

/// The memory that searches of a backtracker write to: marks, a stack and slots. Any cache works with any backtracker,
/// whatever it was used for before.
///
/// Contracts see the scans and turns of its last search and of all its searches, how many searches were answered and
/// how many refused, and its frames, blocks and slots.
#[derive(Debug)]
pub struct Cache {
    pub(super) scratch: Scratch,
    pub(super) slots: Vec<Option<NonMaxUsize>>,
    /// Searches that were answered.
    pub(super) answered: Counter,
    /// Searches that were refused.
    pub(super) refused: Counter,
    /// Scans of all searches before the last one.
    past_scans: Counter,
    /// Turns of all searches before the last one.
    past_turns: Counter,
}

// Written out, so that a drop is one call in a proof, and not one for each field.
impl Drop for Cache {
    fn drop(self) {
        let Cache {
            scratch: _,
            slots: _,
            answered: _,
            refused: _,
            past_scans: _,
            past_turns: _,
        } = self;
    }
}

impl Model for Cache {
    ghost use Rattle.std.specs.Prelude.{◌+◌, ◌/◌, length};
    ghost use Rattle.nfa_backtrack.specs.Backtrack.{BacktrackCache};

    ghost Value = { BacktrackCache };

    ghost view = { λ c. record {
      scans = c.scratch.scans;
      turns = c.scratch.visited.turns;
      frames = length c.scratch.stack.items;
      blocks = length c.scratch.visited.bits / 64;
      slots = length c.slots.items;
      answered = c.answered;
      refused = c.refused;
      all_scans = c.past_scans + c.scratch.scans;
      all_turns = c.past_turns + c.scratch.visited.turns;
    } };
}

impl Cache {
    /// Makes a cache. Does not allocate.
    pub fn new(alloc: Global, _: &BoundedBacktracker) -> Cache
        ensures { result ≡ empty_cache }
    {
        Cache {
            scratch: Scratch {
                stack: Vec::new(alloc),
                visited: Visited::new(alloc),
                scans: Counter::new(),
            },
            slots: Vec::new(alloc),
            answered: Counter::new(),
            refused: Counter::new(),
            past_scans: Counter::new(),
            past_turns: Counter::new(),
        }
    }

    /// Removes all marks and their blocks. The memory is kept for the next search. A search needs no reset before it.
    pub fn reset(&mut self, _: &BoundedBacktracker)
        ensures { self.new ≡ record self.old { blocks = 0 } }
    {
        self.scratch.visited.reset();
    }

    /// Returns a cache with the same marks and counts. The only error is `Memory`.
    pub fn clone(&self) -> Result<Cache, SearchError>
        ensures copy { IfOk result (λ copy. copy ≡ self.now) }
        ensures memory { IsOkUnless result SearchError.Memory }
    {
        Ok(self.copied()?)
    }

    fn copied(&self) -> Result<Cache, Refused>
        ensures { IfOk result (λ copy. copy ≡ self.now) }
    {
        Ok(Cache {
            scratch: Scratch {
                stack: self.scratch.stack.clone()?,
                visited: self.scratch.visited.clone()?,
                scans: self.scratch.scans.copy(),
            },
            slots: self.slots.clone()?,
            answered: self.answered.copy(),
            refused: self.refused.copy(),
            past_scans: self.past_scans.copy(),
            past_turns: self.past_turns.copy(),
        })
    }

    /// Adds the work of the last search to that of all searches before, as a search begins.
    #[inline(always)]
    pub(super) fn restart_counts(&mut self)
        ensures { self.new ≡ record self.old { scans = 0; turns = 0 } }
    {
        self.past_scans.absorb(&mut self.scratch.scans);
        self.scratch.visited.restart_turns(&mut self.past_turns);
    }

    /// Returns the bytes that the entries of the cache take: 24 for a stack frame, 8 for a block of marks, 8 for a
    /// slot. The sum saturates at `usize::MAX`.
    pub fn memory_usage(&self) -> usize
        ensures { result ≡ memory_of self.now }
    {
        let frames = self.scratch.stack.len().saturating_mul(24);
        let blocks = self.scratch.visited.block_len().saturating_mul(8);
        let slots = self.slots.len().saturating_mul(8);
        frames.saturating_add(blocks).saturating_add(slots)
    }
}
