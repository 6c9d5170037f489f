//! The rows of a cache by the hash of what they stand for.
ghost use Rattle.std.specs.Prelude.{◌≡◌, ◌↔◌, ◌≤◌, Some, IfOk, IfSome, IsTrue, length, map, option_map};
ghost use Rattle.std.specs.Prelude.{slice_get};
ghost use Rattle.regex_search_core.specs.PatternSets.{number_of};
ghost use Rattle.nfa_lazy_dfa.specs.Rows.{stances_of};
ghost use Rattle.nfa_lazy_dfa.specs.Stances.{stance_of};

use crate::follow::Stand;
use regex_search_core::{PatternID, StateID};
use std::alloc::{AllocError, Global};

/// No row.
pub const EMPTY: u32 = 0xFFFF_FFFF;

/// The most rows that a cache may have.
pub const MAX_ROWS: usize = 0x20_0000;

/// Rows by the hash of what they stand for. Contracts say nothing of the slots: a row is compared before it is used.
#[derive(Drop)]
pub struct Index {
    slots: Vec<u32>,
}

impl Index {
    /// Makes an index of no rows.
    pub fn new(alloc: Global) -> Result<Index, AllocError> {
        let slots = vec![in alloc; EMPTY; 64]?;
        Ok(Index { slots })
    }

    pub fn copied(&self) -> Result<Index, AllocError> {
        let slots = self.slots.clone()?;
        Ok(Index { slots })
    }

    /// Forgets all rows.
    pub fn clear(&mut self) {
        self.slots.fill(EMPTY);
    }

    /// Returns the row of the stand, if the index has it.
    pub fn find(&self, stands: &[Stand], stand: &Stand) -> Option<u32>
        ensures { IfSome result (λ row. slice_get (stances_of stands.now) row ≡ Some (stance_of stand.now)) }
    {
        let slots = self.slots.len();
        let hash = hash_of(stand);
        for probe in 0..slots {
            let row = *self.slots.get(slot(hash, probe, slots))?;
            if row == EMPTY {
                return None;
            }
            let other = stands.get(row as usize)?;
            if same_stand(other, stand) {
                return Some(row);
            }
        }
        None
    }

    /// Enters the last row, and keeps at least half of the slots free.
    pub fn enter_last(&mut self, stands: &[Stand])
        requires { length stands.now ≤ MAX_ROWS }
    {
        if stands.len() > self.slots.len() / 2 {
            self.grow(stands);
        }
        if let Some(stand) = stands.last() {
            let row = stands.len().saturating_sub(1);
            place(&mut self.slots, hash_of(stand), row as u32);
        }
    }

    /// Makes twice as many slots. If memory is refused the index stays as it is, and rows that it lacks are built
    /// again.
    fn grow(&mut self, stands: &[Stand])
        requires { length stands.now ≤ MAX_ROWS }
    {
        let slots = self.slots.len().saturating_mul(2);
        if self.slots.resize(slots, EMPTY).is_err() {
            return;
        }
        self.slots.fill(EMPTY);
        for row in 0..stands.len() {
            let hash = hash_of(&stands[row]);
            place(&mut self.slots, hash, row as u32);
        }
    }
}

/// The slot that is tried after `probe` others.
#[inline(always)]
fn slot(hash: usize, probe: usize, slots: usize) -> usize {
    hash.wrapping_add(probe) & slots.wrapping_sub(1)
}

/// Puts the row into the first slot that is free.
fn place(slots: &mut [u32], hash: usize, row: u32) {
    let count = slots.len();
    for probe in 0..count {
        let Some(entry) = slots.get_mut(slot(hash, probe, count)) else {
            return
        };
        if *entry == EMPTY {
            *entry = row;
            return;
        }
    }
}

/// The hash with these patterns mixed in.
fn with_patterns(seed: u64, patterns: &[PatternID]) -> u64 {
    let mut hash = seed;
    for pattern in patterns {
        hash = (hash.rotate_left(11) ^ pattern.as_usize() as u64).wrapping_mul(
            0x9E37_79B9_7F4A_7C15,
        );
    }
    hash
}

/// A number that is the same for equal stands.
fn hash_of(stand: &Stand) -> usize {
    let mut hash = match stand.hit {
        Some(pattern) => pattern.as_usize() as u64 * 4 + 2,
        None => 0,
    };
    hash = with_patterns(hash, &stand.hits);
    if stand.more {
        hash = hash ^ 1;
    }
    if let Some(before) = stand.before {
        hash = hash.rotate_left(8) ^ before as u64;
    }
    for sid in &stand.states {
        hash = (hash.rotate_left(11) ^ sid.as_usize() as u64).wrapping_mul(0x9E37_79B9_7F4A_7C15);
    }
    (hash / 0x1_0000_0000) as usize
}

/// Whether the two lists are equal.
fn same_states(a: &[StateID], b: &[StateID]) -> bool
    ensures { IsTrue result → a.now ≡ b.now }
{
    if a.len() != b.len() {
        return false;
    }
    for index in 0..a.len() {
        if a[index] != b[index] {
            return false;
        }
    }
    true
}

/// Whether the two patterns are equal.
fn same_hit(a: Option<PatternID>, b: Option<PatternID>) -> bool
    ensures { IsTrue result → option_map number_of a ≡ option_map number_of b }
{
    match (a, b) {
        (None, None) => true,
        (Some(a), Some(b)) => a.as_usize() == b.as_usize(),
        _ => false,
    }
}

/// Whether the two lists are equal.
fn same_hits(a: &[PatternID], b: &[PatternID]) -> bool
    ensures { IsTrue result → map number_of a.now ≡ map number_of b.now }
{
    if a.len() != b.len() {
        return false;
    }
    for index in 0..a.len() {
        if a[index].as_usize() != b[index].as_usize() {
            return false;
        }
    }
    true
}

/// Whether the two bytes are equal.
fn same_before(a: Option<u8>, b: Option<u8>) -> bool
    ensures { IsTrue result ↔ (a ≡ b) }
{
    match (a, b) {
        (None, None) => true,
        (Some(a), Some(b)) => a == b,
        _ => false,
    }
}

/// Whether the two stand for the same.
fn same_stand(a: &Stand, b: &Stand) -> bool
    ensures { IsTrue result → stance_of a.now ≡ stance_of b.now }
{
    a.more == b.more
        && same_before(a.before, b.before)
        && same_hit(a.hit, b.hit)
        && same_hits(&a.hits, &b.hits)
        && same_states(&a.states, &b.states)
}
