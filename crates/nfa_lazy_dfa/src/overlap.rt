//! The patterns of all matches, including matches that overlap.
ghost use Rattle.std.specs.Prelude.{◌≡◌, ◌+◌, ◌-◌, ◌<◌, ◌≤◌, ◌⊎◌, IfErr, IfOk, OnErr, OnOk, false, length, map, true};
ghost use Rattle.std.specs.Prelude.{slice_get};
ghost use Rattle.regex_search_core.specs.PatternSets.{size_of_set, number_of};
ghost use Rattle.regex_search_core.specs.Search.{search_of};
ghost use Rattle.regex_search_core.specs.declared.search.MatchKind.TheVariants.{All};
ghost use Rattle.nfa_paths.specs.Overlaps.{IsOverlapResult};
ghost use Rattle.nfa_lazy_dfa.specs.Assertions.{IsRead};
ghost use Rattle.nfa_lazy_dfa.specs.Capacities.{HasNoRoom, HasToScan, IsUsedUpAt, StopsAtStart, first_row_memory};
ghost use Rattle.nfa_lazy_dfa.specs.Configs.{kind_of, nfa_of};
ghost use Rattle.nfa_lazy_dfa.specs.Places.{IsFoundAt};
ghost use Rattle.nfa_lazy_dfa.specs.Reads.{HasRead, IsSetOver};
ghost use Rattle.nfa_lazy_dfa.specs.Rows.{IsAt, IsBounded, IsFor, IsRowOf, Scans, Spends, capacity_of, memory_of};
ghost use Rattle.nfa_lazy_dfa.specs.Rows.{scans_of, steps_of};
ghost use Rattle.nfa_lazy_dfa.specs.Sets.{AddsEach, AddsHere, IsPartOfOverlap};
ghost use Rattle.nfa_lazy_dfa.specs.Stances.{hits_here};
ghost use Rattle.nfa_lazy_dfa.specs.Stops.{CountsStop, IsStop};

use crate::cache::{Cache, ROW_CELLS};
use crate::dfa::DFA;
use crate::error::StopError;
use crate::known::pass;
use crate::scan::{Place, first_row, next_row, place_after};
use nfa_scan_core::starts::{may_end_at, start_state};
use regex_search_core::{Input, PatternID, PatternSet};

impl DFA {
    /// Adds the patterns of all matches to the set, including matches that overlap. The set keeps its patterns, and
    /// gains only patterns below its capacity.
    ///
    /// An answer is that of `PikeVM::which_overlapping_matches` for `All`: the set gains every pattern that matches in
    /// the span. With `earliest`, only those with a match that ends where the first one ends. If the NFA requires it, a
    /// match has to end on a boundary.
    ///
    /// The errors are those of [`DFA::try_find_half`]. After an error the set has gained only patterns that match, and
    /// none with `earliest`. So a search of another engine may go on with the set.
    ///
    /// The caller must ensure that the cache is the DFA's (`IsFor`), and that the DFA's match kind is `All`.
    ///
    /// ```
    /// // dfa of [r"\w+", r"\d+", r"\pL+", "foo", "bar", "barfoo", "foobar"], with MatchKind::All
    /// let mut patterns = PatternSet::new(alloc, dfa.pattern_len())?;
    /// dfa.try_which_overlapping_matches(cache, &Input::new(b"foobar"), &mut patterns)?;
    /// assert_eq!(rt; patterns.len(), 5);
    /// ```
    pub fn try_which_overlapping_matches(
        &self,
        cache: &mut Cache,
        input: &Input<'_>,
        patterns: &mut PatternSet,
    ) -> Result<(), StopError>
        requires own { IsFor cache.old self.now }
        requires kind { kind_of self.now ≡ All }
        ensures own { IsFor cache.new self.now }
        ensures result { OnOk result (IsOverlapResult (nfa_of self.now) (search_of input.now) All
            (search_of input.now).earliest patterns.old patterns.new) }
        ensures part { OnErr result (IsPartOfOverlap (nfa_of self.now) (search_of input.now)
            (search_of input.now).earliest patterns.old patterns.new) }
        ensures stops { IfErr result (IsStop (nfa_of self.now) (search_of input.now)) }
        ensures counts { CountsStop result cache.old cache.new }
        ensures memory { memory_of cache.new ≤ capacity_of self.now }
        ensures scans { scans_of cache.new ≡ scans_of cache.old + 1 }
        ensures work { IsBounded cache.old cache.new self.now (search_of input.now) }
        ensures reads { let x = search_of input.now in
            OnOk result (HasRead (IsSetOver self.now x x.earliest patterns.new) cache.old cache.new x.start) }
        ensures full { IfErr result (HasNoRoom cache.old cache.new self.now) }
        ensures small { capacity_of self.now < first_row_memory → size_of_set patterns.old < length patterns.old
            → HasToScan (nfa_of self.now) (search_of input.now) → StopsAtStart (search_of input.now) result }
    {
        let before = cache.stops.copy();
        cache.allow(self);
        // The rows are those of a search that goes on after each match.
        let whole = input.earliest(false);
        let done = overlap(self, cache, &whole, input.get_earliest(), patterns);
        cache.count_stop(self, before, done.is_err());
        done
    }
}

/// Adds the patterns of all matches, or those of the earliest, in one scan.
fn overlap(
    dfa: &DFA,
    cache: &mut Cache,
    input: &Input<'_>,
    earliest: bool,
    patterns: &mut PatternSet,
) -> Result<(), StopError>
    requires own { IsFor cache.old dfa.now }
    requires kind { dfa.now.kind ≡ All }
    requires late { (search_of input.now).earliest ≡ false }
    ensures own { IsFor cache.new dfa.now }
    ensures result { OnOk result (IsOverlapResult dfa.now.nfa (search_of input.now) All earliest patterns.old
        patterns.new) }
    ensures part { OnErr result (IsPartOfOverlap dfa.now.nfa (search_of input.now) earliest patterns.old
        patterns.new) }
    ensures stops { IfErr result (IsStop dfa.now.nfa (search_of input.now)) }
    ensures scan { let x = search_of input.now in Scans cache.old cache.new 1 (x.end - x.start) }
    ensures reads { let x = search_of input.now in OnOk result (HasRead (IsSetOver dfa.now x earliest patterns.new)
        cache.old cache.new x.start) }
    ensures full { IfErr result (IsUsedUpAt cache.new dfa.now) }
    ensures small { dfa.now.capacity < first_row_memory → size_of_set patterns.old < length patterns.old
        → HasToScan dfa.now.nfa (search_of input.now) → StopsAtStart (search_of input.now) result }
{
    cache.count_scan(dfa);
    // A full set gains nothing, and neither does a set of capacity 0.
    if patterns.is_full() || input.is_done() {
        return Ok(());
    }
    let Some(start) = start_state(&dfa.nfa, input) else {
        return Ok(());
    };
    let at = input.start();
    let row = first_row(dfa, cache, input, start)?;
    let from = Place {
        at,
        row,
        found: None,
    };
    overlap_from(dfa, cache, input, from, earliest, patterns)
}

/// Adds the patterns of all matches, or those of the earliest, in a scan that is at its start.
fn overlap_from(
    dfa: &DFA,
    cache: &mut Cache,
    input: &Input<'_>,
    from: Place,
    earliest: bool,
    patterns: &mut PatternSet,
) -> Result<(), StopError>
    requires own { IsFor cache.old dfa.now }
    requires kind { dfa.now.kind ≡ All }
    requires late { (search_of input.now).earliest ≡ false }
    requires first { from.at ≡ (search_of input.now).start }
    requires at { IsFoundAt dfa.now cache.old (search_of input.now) from }
    ensures own { IsFor cache.new dfa.now }
    ensures result { OnOk result (IsOverlapResult dfa.now.nfa (search_of input.now) All earliest patterns.old
        patterns.new) }
    ensures part { OnErr result (IsPartOfOverlap dfa.now.nfa (search_of input.now) earliest patterns.old
        patterns.new) }
    ensures stops { IfErr result (IsStop dfa.now.nfa (search_of input.now)) }
    ensures spends { Spends cache.old cache.new (((search_of input.now).end - from.at) + 1) 0 }
    ensures reads { OnOk result (HasRead (IsSetOver dfa.now (search_of input.now) earliest patterns.new) cache.old
        cache.new from.at) }
    ensures full { IfErr result (IsUsedUpAt cache.new dfa.now) }
{
    let mut place = skip(dfa, cache, input, from);
    while place.at < input.end() {
        let next = next_row(dfa, cache, input, place)?;
        let stand = &cache.stands[next as usize];
        let met = add_here(dfa, input, place.at, &stand.hits, patterns);
        if is_over(met, earliest, patterns) {
            return Ok(());
        }
        let (after, over) = place_after(dfa, cache, input, place, next);
        if over {
            return Ok(());
        }
        place = skip(dfa, cache, input, after);
    }
    add_last(dfa, cache, input, place, patterns)?;
    Ok(())
}

/// Goes on over cells that lead to rows without a match, and counts the steps.
#[inline(always)]
fn skip(dfa: &DFA, cache: &mut Cache, input: &Input<'_>, from: Place) -> Place
    requires own { IsFor cache.old dfa.now }
    requires at { IsFoundAt dfa.now cache.old (search_of input.now) from }
    ensures own { IsFor cache.new dfa.now }
    ensures at { IsFoundAt dfa.now cache.new (search_of input.now) result }
    ensures low { from.at ≤ result.at }
    ensures found { result.found ≡ from.found }
    ensures spends { Spends cache.old cache.new (result.at - from.at) 0 }
    ensures counts { steps_of cache.new ≡ steps_of cache.old + (result.at - from.at) }
{
    let first = from.row * ROW_CELLS as u32;
    let (at, first) = pass(dfa, cache, input, from.at, first, from.found);
    cache.count_steps(dfa, from.at, at);
    let row = first / ROW_CELLS as u32;
    Place {
        at,
        row,
        found: from.found,
    }
}

/// Whether a scan is over after a position: there was a match that counts, and the scan stops at the earliest one, or
/// the set is full.
fn is_over(met: bool, earliest: bool, patterns: &PatternSet) -> bool
    ensures over { result ≡ true → (met ≡ true)
        × ((earliest ≡ true) ⊎ (size_of_set patterns.now ≡ length patterns.now)) }
    ensures goes_on { result ≡ false → met ≡ true → earliest ≡ false }
{
    met && (earliest || patterns.is_full())
}

/// Adds the patterns of the matches at the end of the span. Returns whether one of them counts.
fn add_last(
    dfa: &DFA,
    cache: &mut Cache,
    input: &Input<'_>,
    place: Place,
    patterns: &mut PatternSet,
) -> Result<bool, StopError>
    requires own { IsFor cache.old dfa.now }
    requires at { IsAt dfa.now cache.old (search_of input.now) place.at place.row }
    ensures own { IsFor cache.new dfa.now }
    ensures adds { let x = search_of input.now in IfOk result (λ met. (s : _) → IsRowOf cache.old place.row s
        → AddsHere dfa.now.nfa x place.at (hits_here dfa.now.nfa dfa.now.kind s (slice_get x.haystack place.at))
        patterns.old met patterns.new) }
    ensures same { OnErr result (patterns.new ≡ patterns.old) }
    ensures read { OnOk result (IsRead dfa.now.nfa (slice_get (search_of input.now).haystack place.at)) }
    ensures stops { IfErr result (IsStop dfa.now.nfa (search_of input.now)) }
    ensures spends { Spends cache.old cache.new 1 0 }
    ensures full { IfErr result (IsUsedUpAt cache.new dfa.now) }
{
    let at = place.at;
    if at < input.haystack().len() {
        let next = next_row(dfa, cache, input, place)?;
        let hits = &cache.stands[next as usize].hits;
        return Ok(add_here(dfa, input, at, hits, patterns));
    }
    match cache.end_hits(dfa, place.row) {
        Ok(hits) => Ok(add_here(dfa, input, at, &hits, patterns)),
        Err(gave_up) => Err(gave_up.at(at)),
    }
}

/// Adds these patterns, of matches that end at the position, if a match may end there. Returns whether one of them
/// counts: it is below the capacity of the set.
fn add_here(
    dfa: &DFA,
    input: &Input<'_>,
    at: usize,
    hits: &[PatternID],
    patterns: &mut PatternSet,
) -> bool
    ensures { AddsHere dfa.now.nfa (search_of input.now) at (map number_of hits.now) patterns.old result patterns.new }
{
    if !may_end_at(&dfa.nfa, input, at) {
        return false;
    }
    add_each(hits, patterns)
}

/// Adds the patterns that are below the capacity. Returns whether there is one.
fn add_each(hits: &[PatternID], patterns: &mut PatternSet) -> bool
    ensures { AddsEach (map number_of hits.now) patterns.old result patterns.new }
{
    let mut met = false;
    for pattern in hits {
        if patterns.try_insert(*pattern).is_some() {
            met = true;
        }
    }
    met
}
