//! The window of a match: it ends with the match, and begins at a position near it at which no path was under way.
//!
//! `watch.rt` says which of these positions a scan sees.
ghost use Rattle.std.specs.Prelude.{◌≡◌, ◌+◌, ◌-◌, ◌<◌, ◌≤◌, IfErr, IfOk, IfSome, OnOk, option_map, true};
ghost use Rattle.regex_search_core.specs.Found.{half_found_of};
ghost use Rattle.regex_search_core.specs.PatternSets.{number_of};
ghost use Rattle.regex_search_core.specs.Search.{search_of};
ghost use Rattle.nfa_paths.specs.Paths.{IsHalfAnswer};
ghost use Rattle.nfa_lazy_dfa.specs.Configurations.{scan_half, StartsFrom};
ghost use Rattle.nfa_lazy_dfa.specs.Capacities.{HasNoRoom, HasToScan, IsUsedUpAt, StopsAtStart, first_row_memory};
ghost use Rattle.nfa_lazy_dfa.specs.Configs.{kind_of, nfa_of};
ghost use Rattle.nfa_lazy_dfa.specs.Reads.{HasRead, HasReadSpan, IsOver};
ghost use Rattle.nfa_lazy_dfa.specs.Rows.{IsBounded, IsFor, Scans, Spends, capacity_of, memory_of};
ghost use Rattle.nfa_lazy_dfa.specs.Stops.{CountsStop, IsStop};
ghost use Rattle.nfa_lazy_dfa.specs.Watches.{IsBegun, IsWatching};
ghost use Rattle.nfa_lazy_dfa.specs.Windows.{IsWindow, half_in, start_in};

use crate::cache::Cache;
use crate::determinize::laws;
use crate::dfa::DFA;
use crate::error::StopError;
use crate::scan::{begin, next_row, place_after, scan_from, scan_half};
use crate::watch::{Watch, first_watch, is_known, keep_left, looked_at, pass_counted, watch_at};
use nfa_scan_core::starts::is_utf8_empty;
use regex_search_core::{HalfMatch, Input, PatternID};

/// A part of the haystack that holds the match of a search. It ends where the match ends, and the match starts at its
/// start or later.
///
/// ```
/// // dfa of "foo[0-9]+"
/// let found = dfa.try_find_window(cache, Input::new(b"a foo12 b"))?;
/// let window = found.expect(rt, "a match");
/// assert_eq!(rt; window.start()..window.end(), 2..7);
/// assert_eq!(rt; window.pattern().as_usize(), 0);
/// ```
#[derive(Clone, Copy, Debug, PartialEq, Eq)]
pub struct Window {
    half: HalfMatch,
    start: usize,
}

impl Window {
    /// Returns the pattern of the match.
    pub fn pattern(&self) -> PatternID
        ensures { number_of result ≡ (half_in self.now).pattern }
    {
        self.half.pattern()
    }

    /// Returns the byte offset at which the window starts. No match of the search starts before it.
    pub fn start(&self) -> usize
        ensures { result ≡ start_in self.now }
    {
        self.start
    }

    /// Returns the byte offset at which the match and the window end.
    pub fn end(&self) -> usize
        ensures { result ≡ (half_in self.now).offset }
    {
        self.half.offset()
    }
}

/// The window that ends with the half match.
fn window_of(half: Option<HalfMatch>, start: usize) -> Option<Window>
    ensures half { option_map half_in result ≡ option_map half_found_of half }
    ensures start { IfSome result (λ w. start_in w ≡ start) }
{
    Some(Window { half: half?, start })
}

/// The window of a scan that is at this place.
fn window_from(
    dfa: &DFA,
    cache: &mut Cache,
    input: &Input<'_>,
    from: Watch,
) -> Result<Option<Window>, StopError>
    requires own { IsFor cache.old dfa.now }
    requires apart { dfa.now.apart ≡ true }
    requires watching { IsWatching dfa.now cache.old (search_of input.now) from }
    ensures own { IsFor cache.new dfa.now }
    ensures half { let x = search_of input.now in IfOk result (λ w.
        option_map half_in w ≡ scan_half dfa.now.nfa x dfa.now.kind x.earliest) }
    ensures start { IfOk result (λ w. IfSome w (λ w.
        IsBegun dfa.now.nfa (search_of input.now) (start_in w) (search_of input.now).end)) }
    ensures stops { IfErr result (IsStop dfa.now.nfa (search_of input.now)) }
    ensures spends { Spends cache.old cache.new (((search_of input.now).end - from.at) + 1) 0 }
    ensures reads { OnOk result (HasRead (IsOver dfa.now (search_of input.now)) cache.old cache.new from.at) }
    ensures full { IfErr result (IsUsedUpAt cache.new dfa.now) }
{
    let mut w = pass_counted(dfa, cache, input, from);
    while w.at < input.end() {
        if is_known(dfa, cache, input, w) {
            break;
        }
        let place = w.place();
        let here = looked_at(dfa, cache, input, w);
        let next = next_row(dfa, cache, input, place)?;
        let (after, over) = place_after(dfa, cache, input, place, next);
        if over {
            return Ok(window_of(after.found, here.start));
        }
        if after.found.is_some() {
            let half = scan_from(dfa, cache, input, after)?;
            return Ok(window_of(half, here.start));
        }
        let there = watch_at(dfa, cache, input, after, here.start, here.idle);
        keep_left(dfa, cache, input.start(), here, there);
        w = pass_counted(dfa, cache, input, there);
    }
    let last = looked_at(dfa, cache, input, w);
    let half = scan_from(dfa, cache, input, w.place())?;
    Ok(window_of(half, last.start))
}

/// The window of one scan.
fn scan_window(dfa: &DFA, cache: &mut Cache, input: &Input<'_>) -> Result<Option<Window>, StopError>
    requires own { IsFor cache.old dfa.now }
    requires apart { dfa.now.apart ≡ true }
    ensures own { IsFor cache.new dfa.now }
    ensures half { let x = search_of input.now in IfOk result (λ w.
        option_map half_in w ≡ scan_half dfa.now.nfa x dfa.now.kind x.earliest) }
    ensures start { IfOk result (λ w. IfSome w (λ w.
        IsBegun dfa.now.nfa (search_of input.now) (start_in w) (search_of input.now).end)) }
    ensures stops { IfErr result (IsStop dfa.now.nfa (search_of input.now)) }
    ensures scan { let x = search_of input.now in Scans cache.old cache.new 1 (x.end - x.start) }
    ensures reads { let x = search_of input.now in
        OnOk result (HasRead (IsOver dfa.now x) cache.old cache.new x.start) }
    ensures full { IfErr result (IsUsedUpAt cache.new dfa.now) }
    ensures small { dfa.now.capacity < first_row_memory → HasToScan dfa.now.nfa (search_of input.now)
        → StopsAtStart (search_of input.now) result }
{
    let Some(begun) = begin(dfa, cache, input)? else {
        return Ok(None);
    };
    let from = first_watch(dfa, cache, input, begun);
    window_from(dfa, cache, input, from)
}

/// The window of the first scan of a search. If a byte leads back to the start of the NFA, it is the whole span.
#[inline(always)]
fn first_window(
    dfa: &DFA,
    cache: &mut Cache,
    input: &Input<'_>,
) -> Result<Option<Window>, StopError>
    requires { IsFor cache.old dfa.now }
    ensures own { IsFor cache.new dfa.now }
    ensures half { let x = search_of input.now in IfOk result (λ w.
        option_map half_in w ≡ scan_half dfa.now.nfa x dfa.now.kind x.earliest) }
    ensures start { IfOk result (λ w. IfSome w (λ w.
        IsBegun dfa.now.nfa (search_of input.now) (start_in w) (search_of input.now).end)) }
    ensures stops { IfErr result (IsStop dfa.now.nfa (search_of input.now)) }
    ensures scan { let x = search_of input.now in Scans cache.old cache.new 1 (x.end - x.start) }
    ensures reads { let x = search_of input.now in
        OnOk result (HasRead (IsOver dfa.now x) cache.old cache.new x.start) }
    ensures full { IfErr result (IsUsedUpAt cache.new dfa.now) }
    ensures small { dfa.now.capacity < first_row_memory → HasToScan dfa.now.nfa (search_of input.now)
        → StopsAtStart (search_of input.now) result }
{
    if !dfa.apart {
        let half = scan_half(dfa, cache, input)?;
        return Ok(window_of(half, input.start()));
    }
    scan_window(dfa, cache, input)
}

impl DFA {
    /// Returns a window of the match that a search of the input finds: the pattern and the end of the match, and a
    /// position at or before its start.
    ///
    /// So a search of the window by a PikeVM or a backtracker, with the anchoring of the input, finds the span and the
    /// groups of the match, at the cost of the window. The position is mostly the last one before the match at
    /// which no path of an earlier start was left. If the NFA can match the empty string and is in UTF-8 mode,
    /// or if a byte leads back to its start, it is the start of the input.
    ///
    /// The answer is `None` exactly if that of [`DFA::try_find_half`] is. The errors, what the caller must ensure and
    /// the bounds are those of that search.
    ///
    /// ```
    /// // dfa of "foo[0-9]+"
    /// let window = dfa.try_find_window(&mut cache, Input::new(b"a line of text: foo12345"))?;
    /// assert_eq!(rt; window.expect(rt, "a match").end(), 24);
    /// ```
    pub fn try_find_window<'h>(
        &self,
        cache: &mut Cache,
        input: Input<'h>,
    ) -> Result<Option<Window>, StopError>
        requires { IsFor cache.old self.now }
        ensures own { IsFor cache.new self.now }
        ensures answer { let x = search_of input.entry in IfOk result (λ w.
            IsHalfAnswer (nfa_of self.now) (kind_of self.now) x.earliest x (option_map half_in w)) }
        ensures window { let x = search_of input.entry in IfOk result (λ w.
            IfSome w (IsWindow (nfa_of self.now) x)) }
        ensures stops { IfErr result (IsStop (nfa_of self.now) (search_of input.entry)) }
        ensures counts { CountsStop result cache.old cache.new }
        ensures memory { memory_of cache.new ≤ capacity_of self.now }
        ensures work { IsBounded cache.old cache.new self.now (search_of input.entry) }
        ensures reads { OnOk result (HasReadSpan cache.old cache.new self.now (search_of input.entry)) }
        ensures full { IfErr result (HasNoRoom cache.old cache.new self.now) }
        ensures small { capacity_of self.now < first_row_memory
            → HasToScan (nfa_of self.now) (search_of input.entry) → StopsAtStart (search_of input.entry) result }
    {
        laws::steps_find_the_half();
        if is_utf8_empty(&self.nfa) {
            let start = input.start();
            let half = self.try_find_half(cache, input)?;
            return Ok(window_of(half, start));
        }
        self.try_scan_window(cache, input)
    }

    /// Returns a window of the match that the first scan of a search finds: the pattern and the end of the match, and a
    /// position at or before its start.
    ///
    /// If the NFA can match the empty string and is in UTF-8 mode, the match may split a codepoint. It is then not the
    /// answer of the search, but no match of the search starts before the window. Otherwise the answer is that of
    /// [`DFA::try_find_window`].
    ///
    /// If the answer is `None`, the search finds nothing. The errors, what the caller must ensure and the bounds are
    /// those of [`DFA::try_find_half`].
    ///
    /// ```
    /// // dfa of "foo[0-9]+"
    /// let window = dfa.try_scan_window(&mut cache, Input::new(b"a line of text: foo12345"))?;
    /// assert_eq!(rt; window.expect(rt, "a match").end(), 24);
    /// ```
    pub fn try_scan_window<'h>(
        &self,
        cache: &mut Cache,
        input: Input<'h>,
    ) -> Result<Option<Window>, StopError>
        requires { IsFor cache.old self.now }
        ensures own { IsFor cache.new self.now }
        ensures half { let x = search_of input.entry in IfOk result (λ w.
            option_map half_in w ≡ scan_half (nfa_of self.now) x (kind_of self.now) x.earliest) }
        ensures start { let x = search_of input.entry in IfOk result (λ w.
            IfSome w (λ w. IsBegun (nfa_of self.now) x (start_in w) x.end)) }
        ensures stops { IfErr result (IsStop (nfa_of self.now) (search_of input.entry)) }
        ensures counts { CountsStop result cache.old cache.new }
        ensures memory { memory_of cache.new ≤ capacity_of self.now }
        ensures work { IsBounded cache.old cache.new self.now (search_of input.entry) }
        ensures reads { OnOk result (HasReadSpan cache.old cache.new self.now (search_of input.entry)) }
        ensures full { IfErr result (HasNoRoom cache.old cache.new self.now) }
        ensures small { capacity_of self.now < first_row_memory
            → HasToScan (nfa_of self.now) (search_of input.entry) → StopsAtStart (search_of input.entry) result }
    {
        let before = cache.stops.copy();
        cache.allow(self);
        let window = first_window(self, cache, &input);
        cache.count_stop(self, before, window.is_err());
        window
    }
}
