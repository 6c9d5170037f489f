//! The marks of a search, one bit for each pair of a state and a position.
ghost use Rattle.std.specs.Prelude.{◌≡◌, ℕ, ◌+◌, ◌/◌, ◌<◌, ◌≤◌, max, [], true, false, length, replicate, slice_index};
ghost use Rattle.std.specs.Prelude.{slice_index_or, slice_set, IfOk, IsOk, OnOk};

use nfa_scan_core::counter::Counter;
use regex_search_core::Refused;
use std::alloc::Global;
use std::marker::Model;

/// The number of bits in a block.
const BLOCK_BITS: usize = 64;

/// A table of marks, one bit each, and the count of turns. Contracts see the bits and the count.
///
/// `clear` only clears the blocks that were used since the last `clear`.
#[derive(Debug, Drop)]
pub struct Visited {
    blocks: Vec<u64>,
    /// All blocks from this index on are zero.
    used: usize,
    turns: Counter,
}

impl Model for Visited {
    ghost use Rattle.std.specs.Prelude.{◌≤◌, length};
    ghost use Rattle.nfa_scan_core.specs.Marks.{Marks};
    ghost use Rattle.nfa_backtrack.specs.Bits.{bits_of, IsClearFrom};

    ghost Value = { Marks };

    ghost view = { λ v. record { bits = bits_of v.blocks.items; turns = v.turns } };

    ghost invariant = { λ v. (v.used ≤ length v.blocks.items) × IsClearFrom v.used v.blocks.items };
}

impl Visited {
    /// Makes a table without marks. Does not allocate.
    #[tactic(auto, using(crate::proofs::BitLemmas::bit_steps))]
    pub fn new(alloc: Global) -> Visited
        ensures { result ≡ record { bits = []; turns = 0 } }
    {
        Visited {
            blocks: Vec::new(alloc),
            used: 0,
            turns: Counter::new(),
        }
    }

    /// Returns a table of the same marks and count.
    pub fn clone(&self) -> Result<Visited, Refused>
        ensures { IfOk result (λ copy. copy ≡ self.now) }
    {
        Ok(Visited {
            blocks: self.blocks.clone()?,
            used: self.used,
            turns: self.turns.copy(),
        })
    }

    /// Returns the number of blocks.
    #[tactic(auto, using(crate::proofs::BitLemmas::bit_steps))]
    pub fn block_len(&self) -> usize
        ensures { result ≡ length self.now.bits / 64 }
    {
        self.blocks.len()
    }

    /// Removes all blocks. The memory is kept for the next search.
    #[tactic(auto, using(crate::proofs::BitLemmas::bit_steps))]
    pub fn reset(&mut self)
        ensures { self.new ≡ record self.old { bits = [] } }
    {
        self.used = 0;
        self.blocks.clear();
    }

    /// Adds the count of turns to the total, and resets it to 0.
    pub fn restart_turns(&mut self, total: &mut Counter)
        ensures restarted { self.new ≡ record self.old { turns = 0 } }
        ensures total { total.new ≡ total.old + self.old.turns }
    {
        total.absorb(&mut self.turns);
    }

    /// Makes room for this number of marks. Fails only if it has to allocate.
    #[tactic(auto, using(crate::proofs::BitLemmas::bit_steps))]
    pub fn reserve(&mut self, bits: usize) -> Result<(), Refused>
        ensures granted { bits ≤ length self.old.bits → IsOk result }
        ensures turns { self.new.turns ≡ self.old.turns }
        ensures room { OnOk result (bits ≤ length self.new.bits) }
        ensures kept { length self.old.bits / 64 ≤ length self.new.bits / 64 }
        ensures needed { length self.new.bits / 64 ≤ max (length self.old.bits / 64) ((bits + 63) / 64) }
    {
        let needed = bits.div_ceil(BLOCK_BITS);
        if self.blocks.len() < needed {
            self.blocks.resize(needed, 0)?;
        }
        Ok(())
    }

    /// Clears all marks.
    pub fn clear(&mut self)
        ensures { self.new ≡ record self.old { bits = replicate (length self.old.bits) false } }
    {
        zero_below(self.blocks.as_mut_slice(), self.used);
        self.used = 0;
    }

    /// Counts a turn that sets no mark.
    #[inline(always)]
    pub fn pass(&mut self)
        ensures { self.new ≡ record self.old { turns = self.old.turns + 1 } }
    {
        let turns = &mut self.turns;
        turns.tick();
    }

    /// Sets the mark, and returns whether it was unset. This is one turn.
    #[inline(always)]
    #[tactic(auto, using(crate::proofs::BitLemmas::bit_steps))]
    pub fn insert(&mut self, bit: usize) -> bool
        requires { bit < length self.old.bits }
        ensures turns { self.new.turns ≡ self.old.turns + 1 }
        ensures fresh { result ≡ true → (slice_index_or self.old.bits bit true ≡ false)
            × (self.new.bits ≡ slice_set self.old.bits bit true) }
        ensures seen { result ≡ false → (slice_index_or self.old.bits bit false ≡ true)
            × (self.new.bits ≡ self.old.bits) }
    {
        self.turns.tick();
        let index = bit / BLOCK_BITS;
        let place = bit % BLOCK_BITS;
        let block = self.blocks[index];
        let marked = block | (1u64 << place);
        if marked == block {
            return false;
        }
        self.blocks[index] = marked;
        if self.used <= index {
            self.used = index + 1;
        }
        true
    }
}

/// Sets the blocks below this index to zero. One block, as a search for an empty match uses, takes no call.
fn zero_below(blocks: &mut [u64], used: usize)
    requires { used ≤ length blocks.old }
    ensures below { (i : ℕ) → i < used → slice_index blocks.new i ≡ 0 }
    ensures others { (i : ℕ) → used ≤ i → slice_index blocks.new i ≡ slice_index blocks.old i }
{
    if used == 1 {
        blocks[0] = 0;
        return;
    }
    for i in 0..used {
        blocks[i] = 0;
    }
}
