//! The rows that were built so far.
ghost use Rattle.std.specs.Prelude.{◌≡◌, ℕ, ◌+◌, ◌-◌, ◌*◌, ◌<◌, ◌≤◌, ◌++◌, ◌∷◌, [], true, false, None, Some, ◌⊎◌, ◌↔◌};
ghost use Rattle.std.specs.Prelude.{All, Err, IfErr, IfOk, IfNone, IfSome, IsOkUnless, IsTrue, OnErr, OnOk, length};
ghost use Rattle.std.specs.Prelude.{map, option_map, slice_get, vec_len};
ghost use Rattle.regex_search_core.specs.PatternSets.{number_of};
ghost use Rattle.nfa_lazy_dfa.specs.Capacities.{IsUsedUpBy, largest_row_memory};
ghost use Rattle.nfa_lazy_dfa.specs.Rows as rows;
ghost use Rattle.nfa_lazy_dfa.specs.Rows.{AllowsClears, CountsScan, IsFor, IsRowOf, KeepsOtherCounts, KeepsRows};
ghost use Rattle.nfa_lazy_dfa.specs.Rows.{Spends};
ghost use Rattle.nfa_lazy_dfa.specs.Rows.{memory_of, stances_of, stops_of};
ghost use Rattle.nfa_lazy_dfa.specs.Stances.{hit_here, hits_here, stance_of};

mod copy;
mod firsts;

use crate::dfa::DFA;
use crate::error::{GaveUp, StopError};
use crate::follow::{Stand, last_hit, last_hits};
use crate::index::{EMPTY, Index, MAX_ROWS};
use nfa_scan_core::counter::Counter;
use regex_search_core::PatternID;
use std::alloc::{AllocError, Global};

/// A cell of which nothing is known yet.
pub const UNKNOWN: u32 = 0xFFFF_FFFF;

/// Is added to the row in a cell if the row has only the start, in a DFA that marks such rows.
pub const IDLE: u32 = 0x2000_0000;

/// Is added to the row in a cell if a match was seen on the way.
pub const MATCHED: u32 = 0x4000_0000;

/// Is added to the row in a cell if the row is dead.
pub const DEAD: u32 = 0x8000_0000;

/// How many cells a row has.
pub const ROW_CELLS: usize = 256;

/// How many bytes a row takes besides its states and patterns.
const ROW_BYTES: usize = 1120;

/// The rows that searches of one DFA built so far.
pub struct Cache {
    /// For each row, where each byte leads: the place of the next row's first cell, and a mark.
    pub(crate) cells: Vec<u32>,
    pub(crate) stands: Vec<Stand>,
    /// The pattern that matches at the end of the haystack, if it was looked up.
    pub(crate) ends: Vec<Option<Option<PatternID>>>,
    index: Index,
    pub(crate) alloc: Global,
    /// How many bytes the rows take.
    taken: usize,
    /// How often this search may still clear the rows.
    clears: usize,
    /// The rows that searches from the DFA's start begin with, by what is before them and whether they may start later.
    firsts: [u32; 10],
    /// Where the cells of the two idle rows began that scans left last for a row that is not idle, the newer first.
    pub(crate) idles: [u32; 2],
    /// The steps that all searches took, each over one byte.
    pub(crate) steps: Counter,
    /// The rows that all searches made.
    made: Counter,
    /// How often all searches cleared the rows.
    cleared: Counter,
    /// The scans that all searches made.
    scans: Counter,
    /// The searches that stopped without an answer.
    pub(crate) stops: Counter,
}

// Written out, so that a drop is one call in a proof, and not one for each field.
impl Drop for Cache {
    fn drop(self) {
        let Cache {
            cells: _,
            stands: _,
            ends: _,
            index: _,
            alloc: _,
            taken: _,
            clears: _,
            firsts: _,
            idles: _,
            steps: _,
            made: _,
            cleared: _,
            scans: _,
            stops: _,
        } = self;
    }
}

impl Stand {
    /// Whether no later position has a match.
    pub(crate) fn is_dead(&self) -> bool
        ensures { IsTrue result → (stance_of self.now).states ≡ [] }
    {
        self.states.is_empty()
    }
}

impl Cache {
    /// Makes a cache for searches of the DFA. It has no rows. The only error is `Memory`.
    ///
    /// ```
    /// // dfa of "foo[0-9]+"
    /// let mut cache = Cache::new(alloc, dfa)?;
    /// assert_eq!(rt; cache.memory_usage(), 0);
    /// assert!(rt; dfa.try_is_match(&mut cache, Input::new(b"foo12345"))?);
    /// ```
    pub fn new(alloc: Global, dfa: &DFA) -> Result<Cache, StopError>
        ensures own { IfOk result (λ made. IsFor made dfa.now) }
        ensures none { IfOk result (λ made. memory_of made ≡ 0) }
        ensures stops { IfOk result (λ made. stops_of made ≡ 0) }
        ensures memory { IsOkUnless result StopError.Memory }
    {
        Ok(Cache {
            cells: Vec::new(alloc),
            stands: Vec::new(alloc),
            ends: Vec::new(alloc),
            index: Index::new(alloc)?,
            alloc,
            taken: 0,
            clears: 0,
            firsts: [EMPTY; 10],
            idles: [UNKNOWN; 2],
            steps: Counter::new(),
            made: Counter::new(),
            cleared: Counter::new(),
            scans: Counter::new(),
            stops: Counter::new(),
        })
    }

    /// Lets a search clear the rows this often.
    pub(crate) fn allow(&mut self, dfa: &DFA)
        requires { IsFor self.old dfa.now }
        ensures own { IsFor self.new dfa.now }
        ensures allows { AllowsClears self.old self.new dfa.now }
    {
        self.clears = dfa.max_clears;
    }

    /// Counts the steps over the bytes from one position to another.
    #[inline(always)]
    pub(crate) fn count_steps(&mut self, dfa: &DFA, from: usize, to: usize)
        requires own { IsFor self.old dfa.now }
        requires order { from ≤ to }
        ensures own { IsFor self.new dfa.now }
        ensures same { self.new.stands.items ≡ self.old.stands.items }
        ensures spends { Spends self.old self.new (to - from) 0 }
        ensures counts { self.new.steps ≡ self.old.steps + (to - from) }
    {
        let mut at = from;
        while at < to {
            self.steps.tick();
            at += 1;
        }
    }

    /// Counts a scan.
    pub(crate) fn count_scan(&mut self, dfa: &DFA)
        requires { IsFor self.old dfa.now }
        ensures own { IsFor self.new dfa.now }
        ensures counts { CountsScan self.old self.new }
    {
        self.scans.tick();
    }

    /// Counts a search that began after this number of stops: one more if it stopped.
    #[inline(always)]
    pub(crate) fn count_stop(&mut self, dfa: &DFA, before: Counter, stopped: bool)
        requires { IsFor self.old dfa.now }
        ensures own { IsFor self.new dfa.now }
        ensures same { KeepsOtherCounts self.old self.new }
        ensures answered { stopped ≡ false → stops_of self.new ≡ before }
        ensures stopped { stopped ≡ true → stops_of self.new ≡ before + 1 }
    {
        self.stops = before;
        if stopped {
            self.stops.tick();
        }
    }

    /// Returns how many bytes the rows take.
    pub fn memory_usage(&self) -> usize
        ensures { result ≡ memory_of self.now }
    {
        self.taken
    }

    /// Forgets all rows.
    pub(crate) fn clear(&mut self, dfa: &DFA)
        ensures own { IsFor self.new dfa.now }
        ensures none { self.new.stands.items ≡ [] }
        ensures taken { self.new.taken ≡ 0 }
        ensures left { self.new.clears ≡ self.old.clears }
        ensures cleared { self.new.cleared ≡ self.old.cleared + 1 }
        ensures steps { self.new.steps ≡ self.old.steps }
        ensures made { self.new.made ≡ self.old.made }
        ensures scans { self.new.scans ≡ self.old.scans }
        ensures stops { self.new.stops ≡ self.old.stops }
    {
        self.cleared.tick();
        self.cells.clear();
        self.stands.clear();
        self.ends.clear();
        self.index.clear();
        self.firsts = [EMPTY; 10];
        self.taken = 0;
    }

    /// How many bytes the rows take with one more for the stand, if there is room for it.
    fn room(&self, dfa: &DFA, stand: &Stand) -> Option<usize>
        ensures taken { IfSome result (λ taken.
            taken ≡ self.now.taken + rows.row_memory_of (stance_of stand.now)) }
        ensures room { IfSome result (λ taken. taken ≤ dfa.now.capacity) }
        ensures few { IfSome result (λ taken. vec_len self.now.stands < MAX_ROWS) }
        ensures full { IfNone result ((MAX_ROWS ≤ vec_len self.now.stands)
            ⊎ (dfa.now.capacity < self.now.taken + rows.row_memory_of (stance_of stand.now))) }
    {
        let capacity = dfa.capacity;
        let entries = stand.states.len().checked_add(stand.hits.len())?;
        let taken = self
            .taken
            .checked_add(ROW_BYTES)?
            .checked_add(entries.checked_mul(4)?)?;
        if taken > capacity || self.stands.len() >= MAX_ROWS {
            return None;
        }
        Some(taken)
    }

    /// Adds a row for the stand. With it the rows take `taken` bytes.
    fn add(&mut self, dfa: &DFA, stand: Stand, taken: usize) -> Result<u32, GaveUp>
        requires own { IsFor self.old dfa.now }
        requires below { All (λ s. s < length dfa.now.nfa.states) stand.states.items }
        requires few { vec_len self.old.stands < MAX_ROWS }
        requires taken { taken ≡ self.old.taken + rows.row_memory_of (stance_of stand) }
        requires room { taken ≤ dfa.now.capacity }
        ensures own { IsFor self.new dfa.now }
        ensures row { IfOk result (λ row. IsRowOf self.new row (stance_of stand)) }
        ensures keeps { OnOk result (KeepsRows self.old self.new) }
        ensures spends { Spends self.old self.new 0 1 }
        ensures counts { OnOk result (self.new.made ≡ self.old.made + 1) }
        ensures full { IfErr result (IsUsedUpBy self.new dfa.now) }
    {
        let row = self.stands.len() as u32;
        append(&mut self.cells, &mut self.stands, &mut self.ends, stand)?;
        self.made.tick();
        self.taken = taken;
        self.index.enter_last(&self.stands);
        Ok(row)
    }

    /// The row of the stand, and whether the other rows are still there.
    pub(crate) fn intern(&mut self, dfa: &DFA, stand: Stand) -> Result<(u32, bool), GaveUp>
        requires own { IsFor self.old dfa.now }
        requires below { All (λ s. s < length dfa.now.nfa.states) stand.states.items }
        requires small { rows.row_memory_of (stance_of stand) ≤ largest_row_memory dfa.now.nfa dfa.now.kind }
        ensures own { IsFor self.new dfa.now }
        ensures row { IfOk result (λ r. IsRowOf self.new r.0 (stance_of stand)) }
        ensures keeps { IfOk result (λ r. IsTrue r.1 → KeepsRows self.old self.new) }
        ensures spends { Spends self.old self.new 0 1 }
        ensures full { IfErr result (IsUsedUpBy self.new dfa.now) }
    {
        if let Some(row) = self.index.find(&self.stands, &stand) {
            return Ok((row, true));
        }
        if let Some(taken) = self.room(dfa, &stand) {
            let row = self.add(dfa, stand, taken)?;
            return Ok((row, true));
        }
        if self.clears == 0 {
            return Err(GaveUp::Full);
        }
        self.clears -= 1;
        self.clear(dfa);
        let Some(taken) = self.room(dfa, &stand) else {
            return Err(GaveUp::Full);
        };
        let row = self.add(dfa, stand, taken)?;
        Ok((row, false))
    }

    /// The pattern that matches at the end of the haystack.
    pub(crate) fn end(&mut self, dfa: &DFA, row: u32) -> Result<Option<PatternID>, GaveUp>
        requires own { IsFor self.old dfa.now }
        requires row { row < vec_len self.old.stands }
        ensures own { IsFor self.new dfa.now }
        ensures hit { IfOk result (λ hit. (s : _) → IsRowOf self.old row s
            → option_map number_of hit ≡ hit_here dfa.now.nfa dfa.now.kind s None) }
        ensures same { self.new.stands.items ≡ self.old.stands.items }
        ensures spends { Spends self.old self.new 0 0 }
        ensures full { IfErr result (IsUsedUpBy self.new dfa.now) }
    {
        if let Some(hit) = self.ends[row as usize] {
            return Ok(hit);
        }
        let hit = last_hit(self.alloc, dfa, &self.stands[row as usize])?;
        self.ends[row as usize] = Some(hit);
        Ok(hit)
    }
}

impl Cache {
    /// For `All` the patterns of all matches at the end of the haystack.
    pub(crate) fn end_hits(&mut self, dfa: &DFA, row: u32) -> Result<Vec<PatternID>, GaveUp>
        requires own { IsFor self.old dfa.now }
        requires row { row < vec_len self.old.stands }
        ensures own { IsFor self.new dfa.now }
        ensures hits { IfOk result (λ hits. (s : _) → IsRowOf self.old row s
            → map number_of hits.items ≡ hits_here dfa.now.nfa dfa.now.kind s None) }
        ensures spends { Spends self.old self.new 0 0 }
        ensures full { IfErr result (IsUsedUpBy self.new dfa.now) }
    {
        let hit = self.end(dfa, row)?;
        if hit.is_none() {
            return Ok(Vec::new(self.alloc));
        }
        let hits = last_hits(self.alloc, dfa, &self.stands[row as usize])?;
        Ok(hits)
    }
}

/// Adds a row whose cells are all unknown. After an error the three lists are as they were.
fn append(
    cells: &mut Vec<u32>,
    stands: &mut Vec<Stand>,
    ends: &mut Vec<Option<Option<PatternID>>>,
    stand: Stand,
) -> Result<(), AllocError>
    ensures cells { OnOk result (cells.new.items ≡ cells.old.items ++ rows.unknown) }
    ensures stands { OnOk result (stands.new.items ≡ stands.old.items ++ stand ∷ []) }
    ensures ends { OnOk result (ends.new.items ≡ ends.old.items ++ None ∷ []) }
    ensures same_cells { OnErr result (cells.new.items ≡ cells.old.items) }
    ensures same_stands { OnErr result (stands.new.items ≡ stands.old.items) }
    ensures same_ends { OnErr result (ends.new.items ≡ ends.old.items) }
{
    let before = cells.len();
    cells.extend_from_slice(&[UNKNOWN; ROW_CELLS])?;
    if append_stand(stands, ends, stand).is_err() {
        cells.truncate(before);
        return Err(AllocError);
    }
    Ok(())
}

/// Adds a stand with no known end. After an error the two lists are as they were.
fn append_stand(
    stands: &mut Vec<Stand>,
    ends: &mut Vec<Option<Option<PatternID>>>,
    stand: Stand,
) -> Result<(), AllocError>
    ensures stands { OnOk result (stands.new.items ≡ stands.old.items ++ stand ∷ []) }
    ensures ends { OnOk result (ends.new.items ≡ ends.old.items ++ None ∷ []) }
    ensures same_stands { OnErr result (stands.new.items ≡ stands.old.items) }
    ensures same_ends { OnErr result (ends.new.items ≡ ends.old.items) }
{
    let before = ends.len();
    ends.push(None)?;
    if stands.push(stand).is_err() {
        ends.truncate(before);
        return Err(AllocError);
    }
    Ok(())
}
