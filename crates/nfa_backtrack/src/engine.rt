//! The backtracker: its constructors, getters and searches.
ghost use Rattle.std.specs.Prelude.{◌≡◌, ◌↔◌, ◌+◌, ◌*◌, ◌/◌, ◌<◌, ◌≤◌, ◌^◌, None, Ok, length, max, vec_len, replicate};
ghost use Rattle.std.specs.Prelude.{option_map, All, IfOk, OnOk, OnErr, IsOkUnless, IsTrue, false, IfNone, IfSome};
ghost use Rattle.std.specs.Prelude.{IsOk, vec_capacity};
ghost use Rattle.regex_search_core.specs.Search.{search_of};
ghost use Rattle.regex_search_core.specs.Groups.{slot_count};
ghost use Rattle.regex_search_core.specs.PatternSets.{number_of};
ghost use Rattle.regex_search_core.specs.Found.{found_of, half_found_of};
ghost use Rattle.regex_search_core.specs.declared.search.MatchKind.TheVariants.{LeftmostFirst};
ghost use Rattle.thompson_nfa.specs.Automaton.{always, never};
ghost use Rattle.nfa_paths.specs.Paths.{span_len, IsAnswer, IsFindAnswer, IsBoolAnswer, IsWork};
ghost use Rattle.nfa_paths.specs.Restarts.{IsBounded};
ghost use Rattle.nfa_backtrack.specs.Backtrack.{IsTooLong, GrowsBlocks, empty_cache, capacity_of, rounded_bits};
ghost use Rattle.nfa_backtrack.specs.Backtrack.{max_haystack_len_of, min_capacity_of};
ghost use Rattle.nfa_backtrack.specs.Finding.{IsCounted};
ghost use Rattle.nfa_search_base.specs.EngineSearches.{last_start};
ghost use Rattle.nfa_search_base.specs.Lists.{finds, IsInside, IsSlotInside};

use crate::cache::Cache;
use crate::config::{Builder, Config};
use crate::scratch::Scratch;
use nfa_scan_core::first_bytes::FirstBytes;
use nfa_search_base::error::SearchError;
use regex_search_core::{Captures, HalfMatch, Input, Match, NonMaxUsize, PatternID, Refused};
use std::alloc::Global;
use std::marker::Model;
use thompson_nfa::{BuildError, NFA};

/// A depth-first search engine for one NFA, with a table of marks that bounds its work.
///
/// It answers by leftmost first: the match with the least start and, of those, the one that earlier alternatives lead
/// to. The `earliest` flag is ignored. Contracts see the NFA and the capacity that was set.
///
/// ```
/// let nfa = Compiler::new().build(alloc, "foo[0-9]+")?;
/// let backtracker = BoundedBacktracker::new_from_nfa(nfa)?;
/// let mut cache = backtracker.create_cache(alloc);
/// let found = backtracker.try_find(&mut cache, Input::new(b"foo12345"))?;
/// assert_eq!(rt; found.expect(rt, "a match").range(), 0..8);
/// ```
#[derive(Debug, Drop)]
pub struct BoundedBacktracker {
    config: Config,
    /// The number of pairs of a state and a position that a search may mark.
    mark_limit: usize,
    pub(super) first: FirstBytes,
    pub(super) nfa: NFA,
}

impl Model for BoundedBacktracker {
    ghost use Rattle.std.specs.Prelude.{◌≡◌};
    ghost use Rattle.nfa_backtrack.specs.Backtrack.{Backtracker, capacity_of};
    ghost use Rattle.nfa_scan_core.specs.FirstBytes.{IsFirstBytes};

    ghost Value = { Backtracker };

    ghost view = { λ e. record { nfa = e.nfa; visited_capacity = e.config } };

    ghost invariant = { λ e. IsFirstBytes e.nfa e.first.may_begin
        × (e.mark_limit ≡ capacity_of (record { nfa = e.nfa; visited_capacity = e.config })) };
}

/// Returns the least visited capacity, in bytes, that has a bit for each pair of the search. With it no search of the
/// input is refused for its length. Requires that the number of states times n + 1, for a span of n bytes, fits a
/// `usize`.
///
/// ```
/// // nfa of one state: nine positions take nine bits
/// let bytes = backtrack::min_visited_capacity(nfa, &Input::new(b"foo12345"));
/// assert_eq!(rt; bytes, 2);
/// ```
pub fn min_visited_capacity(nfa: &NFA, input: &Input<'_>) -> usize
    requires { length nfa.now.states * (span_len (search_of input.now) + 1) < 2 ^ 64 }
    ensures { result ≡ min_capacity_of nfa.now (search_of input.now) }
{
    (nfa.states().len() * (input.get_span().len() + 1)).div_ceil(8)
}

/// Returns the bits of this number of bytes, rounded up to whole blocks.
fn rounded_bits(bytes: usize) -> usize
    ensures { result ≡ rounded_bits bytes }
{
    bytes.saturating_mul(8).div_ceil(64).saturating_mul(64)
}

/// Makes room for this number of slots, and no more. Fails only if it has to allocate.
fn grow(slots: &mut Vec<Option<NonMaxUsize>>, len: usize) -> Result<(), Refused>
    ensures granted { len ≤ vec_capacity slots.old → IsOk result }
    ensures room { OnOk result (len ≤ vec_len slots.new) }
    ensures kept { vec_len slots.old ≤ vec_len slots.new }
    ensures needed { vec_len slots.new ≤ max (vec_len slots.old) len }
{
    if slots.len() < len {
        slots.resize(len, None)?;
    }
    Ok(())
}

/// Returns the pattern of the match.
fn pattern_of(half: Option<HalfMatch>) -> Option<PatternID>
    ensures { option_map number_of result ≡ option_map (λ half. (half_found_of half).pattern) half }
{
    Some(half?.pattern())
}

impl BoundedBacktracker {
    pub(super) fn from_parts(config: Config, nfa: NFA) -> BoundedBacktracker
        ensures { result ≡ record { nfa = nfa; visited_capacity = config } }
    {
        let mark_limit = rounded_bits(config.get_visited_capacity());
        let first = FirstBytes::new(&nfa);
        BoundedBacktracker {
            config,
            mark_limit,
            first,
            nfa,
        }
    }

    /// Makes a backtracker of the NFA with the default configuration. This is always `Ok`.
    pub fn new_from_nfa(nfa: NFA) -> Result<BoundedBacktracker, BuildError>
        ensures { result ≡ Ok (record { nfa = nfa; visited_capacity = None }) }
    {
        Builder::new().build_from_nfa(nfa)
    }

    /// Makes a backtracker that matches the empty string at each position, with the default configuration. The only
    /// error is `Memory`.
    ///
    /// ```
    /// let backtracker = BoundedBacktracker::always_match(alloc)?;
    /// let mut cache = backtracker.create_cache(alloc);
    /// assert!(rt; backtracker.try_is_match(&mut cache, Input::new(b"foo"))?);
    /// ```
    pub fn always_match(alloc: Global) -> Result<BoundedBacktracker, BuildError>
        ensures made { IfOk result (λ made. made ≡ record { nfa = always; visited_capacity = None }) }
        ensures memory { IsOkUnless result BuildError.Memory }
    {
        BoundedBacktracker::new_from_nfa(NFA::always_match(alloc)?)
    }

    /// Makes a backtracker that matches nothing, with the default configuration. The only error is `Memory`.
    ///
    /// ```
    /// let backtracker = BoundedBacktracker::never_match(alloc)?;
    /// let mut cache = backtracker.create_cache(alloc);
    /// assert!(rt; !backtracker.try_is_match(&mut cache, Input::new(b"foo"))?);
    /// ```
    pub fn never_match(alloc: Global) -> Result<BoundedBacktracker, BuildError>
        ensures made { IfOk result (λ made. made ≡ record { nfa = never; visited_capacity = None }) }
        ensures memory { IsOkUnless result BuildError.Memory }
    {
        BoundedBacktracker::new_from_nfa(NFA::never_match(alloc)?)
    }

    /// Returns a configuration with nothing set.
    pub fn config() -> Config
        ensures { result ≡ None }
    {
        Config::new()
    }

    /// Returns a builder with nothing set.
    ///
    /// ```
    /// let mut builder = BoundedBacktracker::builder();
    /// builder.configure(BoundedBacktracker::config().visited_capacity(64));
    /// let backtracker = builder.build_from_nfa(nfa)?;
    /// assert_eq!(rt; backtracker.get_config().get_visited_capacity(), 64);
    /// ```
    pub fn builder() -> Builder
        ensures { result ≡ None }
    {
        Builder::new()
    }

    /// Makes a cache for this backtracker. Does not allocate.
    pub fn create_cache(&self, alloc: Global) -> Cache
        ensures { result ≡ empty_cache }
    {
        Cache::new(alloc, self)
    }

    /// Makes captures with two slots for each group of the NFA. No pattern and no slot is set. The only error is
    /// `Memory`.
    ///
    /// ```
    /// // backtracker of "foo(?<n>[0-9]+)"
    /// let captures = backtracker.create_captures(alloc)?;
    /// assert_eq!(rt; captures.slots(), [None; 4].as_slice());
    /// ```
    pub fn create_captures(&self, alloc: Global) -> Result<Captures, SearchError>
        ensures made { IfOk result (λ made. made ≡ record {
          groups = self.now.nfa.groups;
          pattern = None;
          slots = replicate (slot_count self.now.nfa.groups) None;
        }) }
        ensures memory { IsOkUnless result SearchError.Memory }
    {
        let groups = self.nfa.group_info().clone()?;
        Ok(Captures::all(alloc, groups)?)
    }

    /// Removes all marks of the cache and their blocks. The memory is kept for the next search. A search needs no reset
    /// before it.
    ///
    /// ```
    /// // backtracker of r"\W", cache of another backtracker
    /// backtracker.reset_cache(cache);
    /// assert!(rt; backtracker.try_is_match(cache, Input::new("☃".as_bytes()))?);
    /// ```
    pub fn reset_cache(&self, cache: &mut Cache)
        ensures { cache.new ≡ record cache.old { blocks = 0 } }
    {
        cache.reset(self);
    }

    /// Returns the number of patterns of the NFA.
    ///
    /// ```
    /// // backtracker of [r"\pL+", r"\d+"]
    /// assert_eq!(rt; backtracker.pattern_len(), 2);
    /// assert_eq!(rt; backtracker.get_nfa().group_info().slot_len(), 4);
    /// ```
    pub fn pattern_len(&self) -> usize
        ensures { result ≡ length self.now.nfa.patterns }
    {
        self.nfa.pattern_len()
    }

    /// Returns the configuration.
    pub fn get_config(&self) -> &Config
        ensures { result.now ≡ self.now.visited_capacity }
    {
        &self.config
    }

    /// Returns the NFA.
    pub fn get_nfa(&self) -> &NFA
        ensures { result.now ≡ self.now.nfa }
    {
        &self.nfa
    }

    /// Returns an equal backtracker. The only error is `Memory`.
    ///
    /// ```
    /// // backtracker of "foo(?<n>[0-9]+)"
    /// let copy = backtracker.clone()?;
    /// assert!(rt; copy.try_is_match(cache, Input::new(b"foo12345"))?);
    /// ```
    pub fn clone(&self) -> Result<BoundedBacktracker, SearchError>
        ensures copy { IfOk result (λ copy. copy ≡ self.now) }
        ensures memory { IsOkUnless result SearchError.Memory }
    {
        let Ok(nfa) = self.nfa.clone() else {
            return Err(SearchError::Memory);
        };
        Ok(BoundedBacktracker::from_parts(self.config, nfa))
    }

    /// Returns the number of pairs of a state and a position that a search may mark.
    fn capacity(&self) -> usize
        ensures { result ≡ capacity_of self.now }
    {
        self.mark_limit
    }

    /// Returns the length in bytes of the longest span that is not refused for its length: the number of pairs that may
    /// be marked, divided by the number of states, less one. If the capacity has fewer bits than the NFA has states,
    /// every span is refused, and the result is 0.
    ///
    /// ```
    /// // backtracker that never matches: one state, and the default capacity of 256 KiB
    /// assert_eq!(rt; backtracker.max_haystack_len(), 262144 * 8 - 1);
    /// ```
    pub fn max_haystack_len(&self) -> usize
        ensures { result ≡ max_haystack_len_of self.now }
    {
        (self.capacity() / self.nfa.states().len()).saturating_sub(1)
    }

    /// Returns whether the search has more pairs than may be marked.
    pub(crate) fn is_too_long(&self, input: &Input<'_>) -> bool
        ensures { IsTrue result ↔ IsTooLong self.now (search_of input.now) }
    {
        let positions = input.get_span().len() + 1;
        match self.nfa.states().len().checked_mul(positions) {
            Some(pairs) => pairs > self.capacity(),
            None => true,
        }
    }

    /// Searches, and writes byte offsets to the slots. Slots `2p` and `2p + 1` get the start and end of a match of
    /// pattern `p`; the slots of the explicit groups follow. Any number of slots may be given. Slots that the NFA does
    /// not have are set to `None`, and so are all slots after no match and after an error.
    ///
    /// The error is `HaystackTooLong` exactly if the span is too long, which is tested first. It is `Memory` if the
    /// cache could not grow. The cache can be used again after an error.
    ///
    /// ```
    /// // backtracker of [r"\pL+", r"\d+"]
    /// let mut slots = [None; 4];
    /// let pattern = backtracker.try_search_slots(cache, &Input::new(b"!@#123"), &mut slots)?;
    /// assert_eq!(rt; pattern.expect(rt, "a match").as_usize(), 1);
    /// let wanted = [None, None, NonMaxUsize::new(3), NonMaxUsize::new(6)];
    /// assert_eq!(rt; slots, wanted);
    /// ```
    pub fn try_search_slots(
        &self,
        cache: &mut Cache,
        input: &Input<'_>,
        slots: &mut [Option<NonMaxUsize>],
    ) -> Result<Option<PatternID>, SearchError>
        ensures answer { IfOk result (λ pattern. IsAnswer self.now.nfa LeftmostFirst false (search_of input.now)
            (option_map number_of pattern) slots.new) }
        ensures unmatched { IfOk result (λ pattern. IfNone pattern (slots.new ≡ replicate (length slots.old) None)) }
        ensures cleared { OnErr result (slots.new ≡ replicate (length slots.old) None) }
        ensures pattern { IfOk result (λ pattern. IfSome pattern (λ p. number_of p < length self.now.nfa.patterns)) }
        ensures inside { All (IsSlotInside (search_of input.now)) slots.new }

        ensures counts { IsCounted self.now (search_of input.now) 0 result cache.old cache.new }
    {
        let half = self.search_counted(cache, input, slots)?;
        Ok(pattern_of(half))
    }

    /// Returns the match that a search of the input finds: the span between the two slots of its pattern.
    ///
    /// Its offsets are bytes from the start of the haystack. Returns `None` if nothing matches, if the matching path
    /// leaves one of the two slots unset, or if its start is greater than its end.
    ///
    /// The errors are those of [`BoundedBacktracker::try_search_slots`].
    ///
    /// ```
    /// // backtracker of "foo(?<n>[0-9]+)"
    /// let found = backtracker.try_find(cache, Input::new(b"foo12345"))?;
    /// assert_eq!(rt; found.expect(rt, "a match").range(), 0..8);
    /// ```
    pub fn try_find<'h>(
        &self,
        cache: &mut Cache,
        input: Input<'h>,
    ) -> Result<Option<Match>, SearchError>
        ensures answer { IfOk result (λ found. IsFindAnswer self.now.nfa LeftmostFirst false (search_of input.entry)
            (option_map found_of found)) }
        ensures inside { IfOk result (λ found. IfSome found (λ m. IsInside (search_of input.entry) (found_of m))) }
        ensures pattern { IfOk result (λ found. IfSome found
            (λ m. (found_of m).pattern < length self.now.nfa.patterns)) }

        ensures counts { IsCounted self.now (search_of input.entry) (2 * length self.now.nfa.groups) result cache.old
            cache.new }
    {
        let mut start = input.start();
        self.find_with_start(cache, &input, &mut start)
    }

    /// Returns the match that a search of the input finds. If there is one, `start` becomes the start of the last scan.
    pub(super) fn find_with_start(
        &self,
        cache: &mut Cache,
        input: &Input<'_>,
        start: &mut usize,
    ) -> Result<Option<Match>, SearchError>
        ensures answer { IfOk result (λ found. IsFindAnswer self.now.nfa LeftmostFirst false (search_of input.now)
            (option_map found_of found)) }
        ensures inside { IfOk result (λ found. IfSome found (λ m. IsInside (search_of input.now) (found_of m))) }
        ensures pattern { IfOk result (λ found. IfSome found
            (λ m. (found_of m).pattern < length self.now.nfa.patterns)) }
        ensures counts { IsCounted self.now (search_of input.now) (2 * length self.now.nfa.groups) result cache.old
            cache.new }
        ensures last { IfOk result (λ found. IfSome found (λ m.
            start.new ≡ last_start (search_of input.now) cache.new.scans)) }
    {
        cache.restart_counts();
        let Cache {
            scratch,
            answered,
            refused,
            slots,
            ..
        } = cache;
        if self.is_too_long(input) {
            refused.tick();
            return Err(SearchError::HaystackTooLong {
                len: input.get_span().len(),
            });
        }
        let Ok(found) = self.find_with(scratch, slots, input, start) else {
            refused.tick();
            return Err(SearchError::Memory);
        };
        answered.tick();
        Ok(found)
    }

    /// Returns the match of a search that is not too long, from slots of the cache. If there is one, `start` becomes
    /// the start of the last scan.
    fn find_with(
        &self,
        scratch: &mut Scratch,
        slots: &mut Vec<Option<NonMaxUsize>>,
        input: &Input<'_>,
        start: &mut usize,
    ) -> Result<Option<Match>, Refused>
        requires fits { length self.now.nfa.states * (span_len (search_of input.now) + 1) < 2 ^ 64 }
        requires counted { scratch.old.scans ≡ 0 }
        requires turned { scratch.old.visited.turns ≡ 0 }
        ensures answer { IfOk result (λ found. IsFindAnswer self.now.nfa LeftmostFirst false (search_of input.now)
            (option_map found_of found)) }
        ensures inside { IfOk result (λ found. IfSome found (λ m. IsInside (search_of input.now) (found_of m))) }
        ensures pattern { IfOk result (λ found. IfSome found
            (λ m. (found_of m).pattern < length self.now.nfa.patterns)) }
        ensures work { OnOk result (IsWork self.now.nfa LeftmostFirst false (search_of input.now) scratch.new.scans
            scratch.new.visited.turns) }
        ensures blocks { GrowsBlocks self.now.nfa (search_of input.now) (length scratch.old.visited.bits / 64)
            (length scratch.new.visited.bits / 64) }
        ensures stack { length scratch.new.stack.items ≤ length scratch.old.stack.items }
        // Two slots for each pattern are enough.
        ensures slots { vec_len slots.old ≤ vec_len slots.new }
        ensures few { vec_len slots.new ≤ max (vec_len slots.old) (2 * length self.now.nfa.groups) }
        ensures last { IfOk result (λ found. IfSome found (λ m.
            start.new ≡ last_start (search_of input.now) scratch.new.scans)) }
        ensures bounds { IsBounded self.now.nfa LeftmostFirst false (search_of input.now) scratch.new.scans
            scratch.new.visited.turns }
    {
        let slot_len = self.nfa.group_info().implicit_slot_len();
        grow(slots, slot_len)?;
        let slots = &mut slots.as_mut_slice()[..slot_len];
        let Some(half) = self.search(input, start, scratch, slots)? else {
            return Ok(None);
        };
        Ok(Match::from_slots(half.pattern(), slots))
    }

    /// Returns whether a search of the input finds a match.
    ///
    /// The errors are those of [`BoundedBacktracker::try_search_slots`].
    ///
    /// ```
    /// // backtracker of "foo(?<n>[0-9]+)"
    /// assert!(rt; backtracker.try_is_match(cache, Input::new(b"foo12345"))?);
    /// assert!(rt; !backtracker.try_is_match(cache, Input::new(b"foobar"))?);
    /// ```
    pub fn try_is_match<'h>(&self, cache: &mut Cache, input: Input<'h>) -> Result<bool, SearchError>
        ensures answer { IfOk result (λ found. IsBoolAnswer self.now.nfa LeftmostFirst false (search_of input.entry)
            found) }
        ensures finds { IfOk result (λ found. found ≡ finds self.now.nfa LeftmostFirst false (search_of input.entry)) }

        ensures counts { IsCounted self.now (search_of input.entry) 0 result cache.old cache.new }
    {
        match self.try_search_slots(cache, &input, &mut [])? {
            Some(_) => Ok(true),
            None => Ok(false),
        }
    }
}
