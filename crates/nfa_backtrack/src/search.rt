//! A search: a scan, and further scans while the answer ends inside a codepoint.
ghost use Rattle.std.specs.Prelude.{◌≡◌, ◌+◌, ◌-◌, ◌*◌, ◌/◌, ◌^◌, ◌<◌, ◌≤◌, [], None, Some, false, length};
ghost use Rattle.std.specs.Prelude.{replicate};
ghost use Rattle.std.specs.Prelude.{IfOk, IfSome, OnErr};
ghost use Rattle.regex_search_core.specs.Found.{half_found_of};
ghost use Rattle.regex_search_core.specs.Search.{search_of};
ghost use Rattle.regex_search_core.specs.declared.search.MatchKind.TheVariants.{LeftmostFirst};
ghost use Rattle.nfa_paths.specs.Paths.{span_len};
ghost use Rattle.nfa_paths.specs.Restarts.{max_scan_turns, IsBounded, ScanGives, SearchGives};
ghost use Rattle.nfa_backtrack.specs.Backtrack.{GrowsBlocks};
ghost use Rattle.nfa_backtrack.specs.Finding.{IsCounted};
ghost use Rattle.nfa_backtrack.specs.Walk.{HasBits};
ghost use Rattle.nfa_search_base.specs.EngineSearches.{last_start};

use crate::cache::Cache;
use crate::engine::BoundedBacktracker;
use crate::scan::{scan, unset};
use crate::scratch::Scratch;
use nfa_scan_core::starts::may_end_at;
use nfa_search_base::error::SearchError;
use regex_search_core::{HalfMatch, Input, NonMaxUsize, Refused};

impl BoundedBacktracker {
    /// Makes one scan of this engine.
    #[inline(always)]
    fn scan(
        &self,
        input: &Input<'_>,
        scratch: &mut Scratch,
        slots: &mut [Option<NonMaxUsize>],
    ) -> Result<Option<HalfMatch>, Refused>
        requires { HasBits self.now.nfa (search_of input.now) scratch.old.visited.bits }
        ensures scans { scratch.new.scans ≡ scratch.old.scans + 1 }
        ensures size { length scratch.new.visited.bits ≡ length scratch.old.visited.bits }
        ensures turns { scratch.new.visited.turns
            ≤ scratch.old.visited.turns + max_scan_turns self.now.nfa (search_of input.now) }
        ensures answer { IfOk result (λ half. ScanGives self.now.nfa LeftmostFirst false (search_of input.now) half
            slots.new (scratch.new.visited.turns - scratch.old.visited.turns)) }
        ensures refused { OnErr result (slots.new ≡ replicate (length slots.old) None) }
        ensures stack { scratch.new.stack.items ≡ [] }
    {
        scan(&self.nfa, &self.first, input, scratch, slots)
    }

    /// Scans, and scans again from one byte further on while the answer ends inside a codepoint. Only an NFA that can
    /// match the empty string and is in UTF-8 mode has such answers. An anchored search ends at the first one. If
    /// there is a match, `start` becomes the start of the last scan.
    fn search_from(
        &self,
        input: &Input<'_>,
        start: &mut usize,
        scratch: &mut Scratch,
        slots: &mut [Option<NonMaxUsize>],
    ) -> Result<Option<HalfMatch>, Refused>
        requires room { HasBits self.now.nfa (search_of input.now) scratch.old.visited.bits }
        requires counted { scratch.old.scans ≡ 0 }
        requires turned { scratch.old.visited.turns ≡ 0 }
        ensures answer { IfOk result (λ half. SearchGives self.now.nfa LeftmostFirst false (search_of input.now) half
            slots.new scratch.new.scans scratch.new.visited.turns) }
        ensures refused { OnErr result (slots.new ≡ replicate (length slots.old) None) }
        ensures stack { scratch.new.stack.items ≡ [] }
        ensures size { length scratch.new.visited.bits ≡ length scratch.old.visited.bits }
        ensures last { IfOk result (λ half. IfSome half (λ h.
            start.new ≡ last_start (search_of input.now) scratch.new.scans)) }
        ensures bounds { IsBounded self.now.nfa LeftmostFirst false (search_of input.now) scratch.new.scans
            scratch.new.visited.turns }
    {
        let mut search = *input;
        loop {
            let Some(half) = self.scan(&search, scratch, slots)? else {
                return Ok(None);
            };
            if may_end_at(self.get_nfa(), input, half.offset()) {
                *start = search.start();
                return Ok(Some(half));
            }
            if input.get_anchored().is_anchored() {
                unset(slots);
                return Ok(None);
            }
            let next = search.start() + 1;
            search.set_start(next);
        }
    }

    /// Answers a search that is not too long. If there is a match, `start` becomes the start of the last scan.
    pub(super) fn search(
        &self,
        input: &Input<'_>,
        start: &mut usize,
        scratch: &mut Scratch,
        slots: &mut [Option<NonMaxUsize>],
    ) -> Result<Option<HalfMatch>, Refused>
        requires fits { length self.now.nfa.states * (span_len (search_of input.now) + 1) < 2 ^ 64 }
        requires counted { scratch.old.scans ≡ 0 }
        requires turned { scratch.old.visited.turns ≡ 0 }
        ensures answer { IfOk result (λ half. SearchGives self.now.nfa LeftmostFirst false (search_of input.now) half
            slots.new scratch.new.scans scratch.new.visited.turns) }
        ensures refused { OnErr result (slots.new ≡ replicate (length slots.old) None) }
        ensures pattern { IfOk result (λ half. IfSome half (λ h.
            (half_found_of h).pattern < length self.now.nfa.patterns)) }
        ensures stack { length scratch.new.stack.items ≤ length scratch.old.stack.items }
        ensures blocks { GrowsBlocks self.now.nfa (search_of input.now) (length scratch.old.visited.bits / 64)
            (length scratch.new.visited.bits / 64) }
        ensures last { IfOk result (λ half. IfSome half (λ h.
            start.new ≡ last_start (search_of input.now) scratch.new.scans)) }
        ensures bounds { IsBounded self.now.nfa LeftmostFirst false (search_of input.now) scratch.new.scans
            scratch.new.visited.turns }
    {
        let pairs = self.nfa.states().len() * (input.get_span().len() + 1);
        if let Err(refused) = scratch.visited.reserve(pairs) {
            unset(slots);
            return Err(refused);
        }
        self.search_from(input, start, scratch, slots)
    }

    /// Answers a search, or says why it is refused. The cache counts the search and its work.
    #[inline(always)]
    pub(super) fn search_counted(
        &self,
        cache: &mut Cache,
        input: &Input<'_>,
        slots: &mut [Option<NonMaxUsize>],
    ) -> Result<Option<HalfMatch>, SearchError>
        ensures answer { IfOk result (λ half. SearchGives self.now.nfa LeftmostFirst false (search_of input.now) half
            slots.new cache.new.scans cache.new.turns) }
        ensures pattern { IfOk result (λ half. IfSome half (λ h.
            (half_found_of h).pattern < length self.now.nfa.patterns)) }
        ensures cleared { OnErr result (slots.new ≡ replicate (length slots.old) None) }
        ensures counts { IsCounted self.now (search_of input.now) 0 result cache.old cache.new }
    {
        cache.restart_counts();
        let Cache {
            scratch,
            answered,
            refused,
            ..
        } = cache;
        if self.is_too_long(input) {
            unset(slots);
            refused.tick();
            return Err(SearchError::HaystackTooLong {
                len: input.get_span().len(),
            });
        }
        let mut start = input.start();
        let Ok(half) = self.search(input, &mut start, scratch, slots) else {
            refused.tick();
            return Err(SearchError::Memory);
        };
        answered.tick();
        Ok(half)
    }
}
