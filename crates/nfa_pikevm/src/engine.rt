//! The PikeVM and its searches.
ghost use Rattle.std.specs.Prelude.{◌≡◌, ◌+◌, ◌-◌, ◌*◌, ◌≤◌, None, Ok, false, not, length, min, replicate, option_map};
ghost use Rattle.std.specs.Prelude.{IfOk, IfNone, IfSome, All, ◌<◌, IsOk, OnOk, OnErr, IsOkUnless};
ghost use Rattle.regex_search_core.specs.Search.{search_of};
ghost use Rattle.regex_search_core.specs.Groups.{slot_count};
ghost use Rattle.regex_search_core.specs.PatternSets.{number_of};
ghost use Rattle.regex_search_core.specs.Found.{found_of, half_found_of};
ghost use Rattle.thompson_nfa.specs.Automaton.{always, never};
ghost use Rattle.nfa_paths.specs.Overlaps.{IsOverlapResult};
ghost use Rattle.nfa_paths.specs.Paths.{span_len, total_degree, max_scans, is_utf8_empty, IsAnswer, IsBoolAnswer};
ghost use Rattle.nfa_paths.specs.Paths.{IsHalfAnswer, IsFindAnswer, IsWork, raised};
ghost use Rattle.nfa_pikevm.specs.Engines.{AddsPikeWork, Fits, SameCapacities, kind_of, cache_for, reset_for};
ghost use Rattle.nfa_pikevm.specs.Finding.{PikeSearches};
ghost use Rattle.nfa_pikevm_scan.specs.Needs.{overlap_scans};
ghost use Rattle.nfa_pikevm_scan.specs.Scans.{HaveRoom, SameSizes, max_scan_turns};
ghost use Rattle.nfa_search_base.specs.Lists.{finds, IsInside, IsSlotInside};

use crate::cache::Cache;
use crate::config::{Builder, Config};
use crate::search::search;
use nfa_pikevm_scan::overlap::overlap;
use nfa_pikevm_scan::slot::{Slot, copy_out, match_in};
use nfa_pikevm_scan::threads::Threads;
use nfa_scan_core::first_bytes::FirstBytes;
use nfa_scan_core::starts::is_utf8_empty;
use nfa_search_base::error::SearchError;
use regex_search_core::{Captures, HalfMatch, Input, Match, NonMaxUsize, PatternID, PatternSet};
use std::alloc::Global;
use std::marker::Model;
use thompson_nfa::{BuildError, NFA};

/// A search engine for one NFA that follows all states side by side.
///
/// It answers by the match kind that was set, and by the `earliest` flag of the input. Contracts see the NFA and the
/// match kind.
///
/// ```
/// let nfa = Compiler::new().build(alloc, "foo[0-9]+")?;
/// let vm = PikeVM::new_from_nfa(nfa)?;
/// let mut cache = vm.create_cache(alloc)?;
/// let found = vm.find(&mut cache, Input::new(b"foo12345"));
/// assert_eq!(rt; found.expect(rt, "a match").range(), 0..8);
/// ```
#[derive(Debug, Drop)]
pub struct PikeVM {
    config: Config,
    pub(super) first: FirstBytes,
    nfa: NFA,
}

impl Model for PikeVM {
    ghost use Rattle.nfa_scan_core.specs.FirstBytes.{IsFirstBytes};
    ghost use Rattle.nfa_pikevm.specs.Engines.{Pike};

    ghost Value = { Pike };

    ghost view = { λ e. record { nfa = e.nfa; match_kind = e.config } };

    ghost invariant = { λ e. IsFirstBytes e.nfa e.first.may_begin };
}

impl PikeVM {
    pub(super) fn from_parts(config: Config, nfa: NFA) -> PikeVM
        ensures { result ≡ record { nfa = nfa; match_kind = config } }
    {
        let first = FirstBytes::new(&nfa);
        PikeVM { config, first, nfa }
    }

    /// Makes a PikeVM of the NFA with the default configuration. This is always `Ok`.
    pub fn new_from_nfa(nfa: NFA) -> Result<PikeVM, BuildError>
        ensures { result ≡ Ok (record { nfa = nfa; match_kind = None }) }
    {
        Builder::new().build_from_nfa(nfa)
    }

    /// Makes a PikeVM that matches the empty string at each position, with the default configuration. The only error is
    /// `Memory`.
    ///
    /// ```
    /// let vm = PikeVM::always_match(alloc)?;
    /// let mut cache = vm.create_cache(alloc)?;
    /// assert!(rt; vm.is_match(&mut cache, Input::new(b"foo")));
    /// ```
    pub fn always_match(alloc: Global) -> Result<PikeVM, BuildError>
        ensures made { IfOk result (λ made. made ≡ record { nfa = always; match_kind = None }) }
        ensures memory { IsOkUnless result BuildError.Memory }
    {
        PikeVM::new_from_nfa(NFA::always_match(alloc)?)
    }

    /// Makes a PikeVM that matches nothing, with the default configuration. The only error is `Memory`.
    ///
    /// ```
    /// let vm = PikeVM::never_match(alloc)?;
    /// let mut cache = vm.create_cache(alloc)?;
    /// assert!(rt; !vm.is_match(&mut cache, Input::new(b"foo")));
    /// ```
    pub fn never_match(alloc: Global) -> Result<PikeVM, BuildError>
        ensures made { IfOk result (λ made. made ≡ record { nfa = never; match_kind = None }) }
        ensures memory { IsOkUnless result BuildError.Memory }
    {
        PikeVM::new_from_nfa(NFA::never_match(alloc)?)
    }

    /// Returns a configuration with nothing set.
    pub fn config() -> Config
        ensures { result ≡ None }
    {
        Config::new()
    }

    /// Returns a builder with nothing set.
    ///
    /// ```
    /// let mut builder = PikeVM::builder();
    /// builder.configure(PikeVM::config().match_kind(MatchKind::All));
    /// let vm = builder.build_from_nfa(nfa)?;
    /// assert_eq!(rt; vm.get_config().get_match_kind(), MatchKind::All);
    /// ```
    pub fn builder() -> Builder
        ensures { result ≡ None }
    {
        Builder::new()
    }

    /// Makes captures with two slots for each group of the NFA. No pattern and no slot is set. The only error is
    /// `Memory`.
    ///
    /// ```
    /// // vm of "foo(?<n>[0-9]+)"
    /// let captures = vm.create_captures(alloc)?;
    /// assert_eq!(rt; captures.slots(), [None; 4].as_slice());
    /// ```
    pub fn create_captures(&self, alloc: Global) -> Result<Captures, SearchError>
        ensures made { IfOk result (λ made. made ≡ record {
          groups = self.now.nfa.groups;
          pattern = None;
          slots = replicate (slot_count self.now.nfa.groups) None;
        }) }
        ensures memory { IsOkUnless result SearchError.Memory }
    {
        let groups = self.nfa.group_info().clone()?;
        Ok(Captures::all(alloc, groups)?)
    }

    /// Makes a cache that fits this PikeVM and is no larger. The only error is `Memory`.
    pub fn create_cache(&self, alloc: Global) -> Result<Cache, SearchError>
        ensures made { IfOk result (λ made. made ≡ cache_for self.now.nfa) }
        ensures memory { IsOkUnless result SearchError.Memory }
    {
        Cache::new(alloc, self)
    }

    /// Makes the cache fit this PikeVM, even if that makes it smaller. The result is `Ok` if the cache fits already.
    /// The only error is `Memory`. After an error the cache is unchanged.
    ///
    /// ```
    /// // vm of r"\W", cache of another PikeVM
    /// vm.reset_cache(cache)?;
    /// assert!(rt; vm.is_match(cache, Input::new("☃".as_bytes())));
    /// ```
    pub fn reset_cache(&self, cache: &mut Cache) -> Result<(), SearchError>
        ensures granted { Fits cache.old self.now.nfa → IsOk result }
        ensures made { OnOk result (cache.new ≡ reset_for cache.old self.now.nfa) }
        ensures kept { OnErr result (cache.new ≡ cache.old) }
        ensures memory { IsOkUnless result SearchError.Memory }
    {
        cache.reset(self)
    }

    /// Returns the number of patterns of the NFA.
    ///
    /// ```
    /// // vm of [r"\pL+", r"\d+"]
    /// assert_eq!(rt; vm.pattern_len(), 2);
    /// assert_eq!(rt; vm.get_nfa().group_info().slot_len(), 4);
    /// ```
    pub fn pattern_len(&self) -> usize
        ensures { result ≡ length self.now.nfa.patterns }
    {
        self.nfa.pattern_len()
    }

    /// Returns the configuration.
    pub fn get_config(&self) -> &Config
        ensures { result.now ≡ self.now.match_kind }
    {
        &self.config
    }

    /// Returns the NFA.
    pub fn get_nfa(&self) -> &NFA
        ensures { result.now ≡ self.now.nfa }
    {
        &self.nfa
    }

    /// Returns an equal PikeVM. The only error is `Memory`.
    ///
    /// ```
    /// // vm of "foo(?<n>[0-9]+)"
    /// let copy = vm.clone()?;
    /// assert!(rt; copy.is_match(cache, Input::new(b"foo12345")));
    /// ```
    pub fn clone(&self) -> Result<PikeVM, SearchError>
        ensures copy { IfOk result (λ copy. copy ≡ self.now) }
        ensures memory { IsOkUnless result SearchError.Memory }
    {
        let Ok(nfa) = self.nfa.clone() else {
            return Err(SearchError::Memory);
        };
        Ok(PikeVM::from_parts(self.config, nfa))
    }

    /// Searches, and writes byte offsets to the slots. Slots `2p` and `2p + 1` get the start and end of a match of
    /// pattern `p`; the slots of the explicit groups follow. Any number of slots may be given. Slots that the NFA does
    /// not have are set to `None`, and so are all slots if nothing matches.
    ///
    /// Requires a cache that fits. A search does not change its sizes.
    ///
    /// ```
    /// // vm of [r"\pL+", r"\d+"]
    /// let mut slots = [None; 4];
    /// let pattern = vm.search_slots(cache, &Input::new(b"!@#123"), &mut slots);
    /// assert_eq!(rt; pattern.expect(rt, "a match").as_usize(), 1);
    /// let wanted = [None, None, NonMaxUsize::new(3), NonMaxUsize::new(6)];
    /// assert_eq!(rt; slots, wanted);
    /// ```
    pub fn search_slots(
        &self,
        cache: &mut Cache,
        input: &Input<'_>,
        slots: &mut [Option<NonMaxUsize>],
    ) -> Option<PatternID>
        requires { Fits cache.old self.now.nfa }
        ensures answer { IsAnswer self.now.nfa (kind_of self.now) (search_of input.now).earliest (search_of input.now)
            (option_map number_of result) slots.new }
        ensures unmatched { IfNone result (slots.new ≡ replicate (length slots.old) None) }
        ensures pattern { IfSome result (λ p. number_of p < length self.now.nfa.patterns) }
        ensures inside { All (IsSlotInside (search_of input.now)) slots.new }

        ensures counts { PikeSearches self.now (search_of input.now) cache.old cache.new }
    {
        cache.restart_counts();
        let Cache { threads, found, .. } = cache;
        self.search_with(threads, input, found.as_mut_slice(), slots)
    }

    /// Returns the pattern that a search answers. It fills the row `found` of the cache, and copies it to the slots at
    /// its end.
    fn search_with(
        &self,
        threads: &mut Threads,
        input: &Input<'_>,
        found: &mut [Slot],
        slots: &mut [Option<NonMaxUsize>],
    ) -> Option<PatternID>
        requires row { slot_count self.now.nfa.groups ≤ length found.old }
        requires serves { HaveRoom self.now.nfa (min (length slots.old) (slot_count self.now.nfa.groups)) threads.old }
        requires counted { threads.old.scans ≡ 0 }
        requires turned { threads.old.reached.seen.turns ≡ 0 }
        ensures answer { IsAnswer self.now.nfa (kind_of self.now) (search_of input.now).earliest (search_of input.now)
            (option_map number_of result) slots.new }
        ensures pattern { IfSome result (λ p. number_of p < length self.now.nfa.patterns) }
        ensures work { IsWork self.now.nfa (kind_of self.now) (search_of input.now).earliest (search_of input.now)
            threads.new.scans threads.new.reached.seen.turns }
        ensures sizes { SameSizes threads.old threads.new }
        ensures scans { threads.new.scans ≤ max_scans self.now.nfa (search_of input.now) }
        ensures turns { threads.new.reached.seen.turns
            ≤ threads.new.scans * max_scan_turns self.now.nfa (search_of input.now) }
    {
        let width = slots.len().min(self.nfa.group_info().slot_len());
        let row = &mut found[..width];
        let mut moved = *input;
        let half = search(
            &self.nfa,
            &self.first,
            self.config.get_match_kind(),
            &mut moved,
            threads,
            row,
        );
        copy_out(row, slots);
        Some(half?.pattern())
    }

    /// Returns the match that a search answers, from the row of the cache that it fills. The input then starts where
    /// the last scan started. It is a function of its own so that an iteration that knows an answer saves no registers
    /// for a search.
    #[inline(never)]
    fn find_with(
        &self,
        threads: &mut Threads,
        input: &mut Input<'_>,
        found: &mut [Slot],
    ) -> Option<Match>
        requires row { 2 * length self.now.nfa.groups ≤ length found.old }
        requires serves { HaveRoom self.now.nfa (2 * length self.now.nfa.groups) threads.old }
        requires counted { threads.old.scans ≡ 0 }
        requires turned { threads.old.reached.seen.turns ≡ 0 }
        ensures answer { IsFindAnswer self.now.nfa (kind_of self.now) (search_of input.old).earliest
            (search_of input.old) (option_map found_of result) }
        ensures pattern { IfSome result (λ m. (found_of m).pattern < length self.now.nfa.patterns) }
        ensures work { IsWork self.now.nfa (kind_of self.now) (search_of input.old).earliest (search_of input.old)
            threads.new.scans threads.new.reached.seen.turns }
        ensures last { search_of input.new ≡ raised (search_of input.old) (threads.new.scans - 1) }
        ensures sizes { SameSizes threads.old threads.new }
        ensures scans { threads.new.scans ≤ max_scans self.now.nfa (search_of input.old) }
        ensures turns { threads.new.reached.seen.turns
            ≤ threads.new.scans * max_scan_turns self.now.nfa (search_of input.old) }
    {
        let slot_len = self.nfa.group_info().implicit_slot_len();
        let slots = &mut found[..slot_len];
        let half = search(
            &self.nfa,
            &self.first,
            self.config.get_match_kind(),
            input,
            threads,
            slots,
        )?;
        match_in(half.pattern(), slots)
    }

    /// Returns the match that a search of the input finds: the span between the two slots of its pattern.
    ///
    /// Its offsets are bytes from the start of the haystack. Returns `None` if nothing matches, if the matching path
    /// leaves one of the two slots unset, or if its start is greater than its end.
    ///
    /// Requires a cache that fits. A search does not change its sizes.
    ///
    /// ```
    /// // vm of "foo(?<n>[0-9]+)"
    /// let found = vm.find(cache, Input::new(b"foo12345"));
    /// assert_eq!(rt; found.expect(rt, "a match").range(), 0..8);
    /// ```
    pub fn find<'h>(&self, cache: &mut Cache, input: Input<'h>) -> Option<Match>
        requires { Fits cache.old self.now.nfa }
        ensures answer { IsFindAnswer self.now.nfa (kind_of self.now) (search_of input.entry).earliest
            (search_of input.entry) (option_map found_of result) }
        ensures pattern { IfSome result (λ m. (found_of m).pattern < length self.now.nfa.patterns) }
        ensures inside { IfSome result (λ m. IsInside (search_of input.entry) (found_of m)) }

        ensures counts { PikeSearches self.now (search_of input.entry) cache.old cache.new }
    {
        let mut moved = input;
        self.find_with_start(cache, &mut moved)
    }

    /// Returns the match that a search of the input finds. The input then starts where the last scan started.
    pub(super) fn find_with_start(&self, cache: &mut Cache, input: &mut Input<'_>) -> Option<Match>
        requires { Fits cache.old self.now.nfa }
        ensures answer { IsFindAnswer self.now.nfa (kind_of self.now) (search_of input.old).earliest
            (search_of input.old) (option_map found_of result) }
        ensures pattern { IfSome result (λ m. (found_of m).pattern < length self.now.nfa.patterns) }
        ensures searches { PikeSearches self.now (search_of input.old) cache.old cache.new }
        ensures last { search_of input.new ≡ raised (search_of input.old) (cache.new.scans - 1) }
    {
        cache.restart_counts();
        let Cache { threads, found, .. } = cache;
        self.find_with(threads, input, found.as_mut_slice())
    }

    /// Returns the pattern of the match that a search of the input finds, and the offset of its end. It writes no
    /// slots, so the NFA need not record where its matches start and end.
    ///
    /// Returns `None` if nothing matches.
    ///
    /// Requires a cache that fits. A search does not change its sizes.
    ///
    /// ```
    /// // vm of "foo(?<n>[0-9]+)"
    /// let half = vm.find_half(cache, Input::new(b"foo12345"));
    /// assert_eq!(rt; half.expect(rt, "a match").offset(), 8);
    /// ```
    pub fn find_half<'h>(&self, cache: &mut Cache, input: Input<'h>) -> Option<HalfMatch>
        requires { Fits cache.old self.now.nfa }
        ensures answer { IsHalfAnswer self.now.nfa (kind_of self.now) (search_of input.entry).earliest
            (search_of input.entry) (option_map half_found_of result) }
        ensures pattern { IfSome result (λ m. (half_found_of m).pattern < length self.now.nfa.patterns) }
        ensures inside { IfSome result (λ m. ((search_of input.entry).start ≤ (half_found_of m).offset)
            × ((half_found_of m).offset ≤ (search_of input.entry).end)) }

        ensures counts { PikeSearches self.now (search_of input.entry) cache.old cache.new }
    {
        cache.restart_counts();
        let threads = &mut cache.threads;
        // An NFA that can be read is valid, so the pattern of each Match state exists.
        self.nfa.states();
        let match_kind = self.config.get_match_kind();
        let mut moved = input;
        search(
            &self.nfa,
            &self.first,
            match_kind,
            &mut moved,
            threads,
            &mut [],
        )
    }

    /// Returns whether a search of the input finds a match.
    ///
    /// The `earliest` flag of the input is ignored: the search stops at the earliest match if that cannot change the
    /// answer.
    ///
    /// Requires a cache that fits. A search does not change its sizes.
    ///
    /// ```
    /// // vm of "foo(?<n>[0-9]+)"
    /// assert!(rt; vm.is_match(cache, Input::new(b"foo12345")));
    /// assert!(rt; !vm.is_match(cache, Input::new(b"foobar")));
    /// ```
    pub fn is_match<'h>(&self, cache: &mut Cache, input: Input<'h>) -> bool
        requires { Fits cache.old self.now.nfa }
        ensures answer { IsBoolAnswer self.now.nfa (kind_of self.now) false (search_of input.entry) result }
        ensures finds { result ≡ finds self.now.nfa (kind_of self.now) false (search_of input.entry) }

        ensures capacities { SameCapacities cache.old cache.new }
        ensures total { AddsPikeWork cache.old cache.new }

        ensures work { IsWork self.now.nfa (kind_of self.now) (not (is_utf8_empty self.now.nfa)) (search_of input.entry)
            cache.new.scans cache.new.turns }
        ensures scans { cache.new.scans ≤ max_scans self.now.nfa (search_of input.entry) }
        ensures turns { cache.new.turns ≤ cache.new.scans * ((1 + total_degree self.now.nfa)
            * (span_len (search_of input.entry) + 1)) }
    {
        let earliest = !is_utf8_empty(&self.nfa);
        let input = input.earliest(earliest);
        self.search_slots(cache, &input, &mut []).is_some()
    }

    /// Adds the patterns of all matches to the set, including matches that overlap. The set keeps its patterns, and
    /// gains only patterns below its capacity.
    ///
    /// - `All`: it gains every pattern that matches in the span. With `earliest`, only those with a match that ends
    ///   where the first one ends.
    /// - `LeftmostFirst`: a set that holds a pattern gains nothing. An empty set gains the pattern of the first match,
    ///   and of each match that is the first of those that end before some limit. With `earliest`, only that of the
    ///   match that ends first.
    ///
    /// If the NFA requires it, a match has to end on a boundary. Matches of patterns at or above the capacity do not
    /// count.
    ///
    /// Requires a cache that fits. A search does not change its sizes.
    ///
    /// ```
    /// // vm of [r"\w+", r"\d+", r"\pL+", "foo", "bar", "barfoo", "foobar"], with MatchKind::All
    /// let mut patterns = PatternSet::new(alloc, vm.pattern_len())?;
    /// vm.which_overlapping_matches(cache, &Input::new(b"foobar"), &mut patterns);
    /// let mut numbers = Vec::new(alloc);
    /// for pattern in patterns.iter() {
    ///     numbers.push(pattern.as_usize())?;
    /// }
    /// assert_eq!(rt; numbers.as_slice(), [0, 2, 3, 4, 6].as_slice());
    /// ```
    pub fn which_overlapping_matches(
        &self,
        cache: &mut Cache,
        input: &Input<'_>,
        patterns: &mut PatternSet,
    )
        requires { Fits cache.old self.now.nfa }
        ensures result { IsOverlapResult self.now.nfa (search_of input.now) (kind_of self.now)
            (search_of input.now).earliest patterns.old patterns.new }

        ensures capacities { SameCapacities cache.old cache.new }
        ensures total { AddsPikeWork cache.old cache.new }

        // One scan, or none under leftmost first if the set holds a pattern.
        ensures scans { cache.new.scans ≡ overlap_scans (kind_of self.now) patterns.old }
        ensures turns { cache.new.turns ≤ cache.new.scans * ((1 + total_degree self.now.nfa)
            * (span_len (search_of input.now) + 1)) }
    {
        cache.restart_counts();
        let threads = &mut cache.threads;
        let kind = self.config.get_match_kind();
        overlap(&self.nfa, kind, input, threads, patterns);
    }
}
