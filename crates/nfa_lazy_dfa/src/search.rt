//! Searches of a lazy DFA.
ghost use Rattle.std.specs.Prelude.{◌≡◌, ◌↔◌, ◌<◌, ◌≤◌, IfErr, IfOk, IsTrue, OnOk, false, not, option_map, true};
ghost use Rattle.regex_search_core.specs.Found.{half_found_of};
ghost use Rattle.regex_search_core.specs.Search.{search_of};
ghost use Rattle.nfa_paths.specs.Paths.{IsBoolAnswer, IsHalfAnswer, is_utf8_empty};
ghost use Rattle.nfa_lazy_dfa.specs.Configurations.{IsRestartedHalf, IsStepsHalf, IsWholeHalf};
ghost use Rattle.nfa_lazy_dfa.specs.Capacities.{HasNoRoom, HasToScan, IsUsedUpAt, StopsAtStart, first_row_memory};
ghost use Rattle.nfa_lazy_dfa.specs.Configs.{kind_of, nfa_of};
ghost use Rattle.nfa_lazy_dfa.specs.Reads.{HasReadSpan};
ghost use Rattle.nfa_lazy_dfa.specs.Rows.{IsBounded, IsFor, ScansAtMost, capacity_of, memory_of};
ghost use Rattle.nfa_lazy_dfa.specs.Stops.{CountsStop, IsStop};

use crate::cache::Cache;
use crate::determinize::laws;
use crate::dfa::DFA;
use crate::error::StopError;
use crate::scan::scan_half;
use regex_search_core::{HalfMatch, Input};

impl DFA {
    /// Returns the pattern of the match that a search of the input finds, and the offset of its end.
    ///
    /// Returns `None` if nothing matches. An answer is that of `PikeVM::find_half`, for the DFA's match kind, each
    /// anchoring, and the input's `earliest`. The errors say why there is no answer:
    ///
    /// - `Quit`: the NFA has an assertion of a Unicode word, and the search came to a byte of 128 or more.
    /// - `GaveUp`: the search had cleared the cache as often as it may, and the cache was full again.
    /// - `Memory`: an allocation failed.
    ///
    /// The caller must ensure that the cache is the DFA's (`IsFor`). [`DFA::create_cache`] and [`Cache::reset`] make
    /// one. It stays the DFA's in each search, also in one that returns an error.
    ///
    /// ```
    /// // dfa of "foo[0-9]+"
    /// let half = dfa.try_find_half(cache, Input::new(b"foo12345"))?;
    /// assert_eq!(rt; half.expect(rt, "a match").offset(), 8);
    /// ```
    #[inline(always)]
    pub fn try_find_half<'h>(
        &self,
        cache: &mut Cache,
        input: Input<'h>,
    ) -> Result<Option<HalfMatch>, StopError>
        requires { IsFor cache.old self.now }
        ensures own { IsFor cache.new self.now }
        ensures answer { let x = search_of input.entry in IfOk result (λ half.
            IsHalfAnswer (nfa_of self.now) (kind_of self.now) x.earliest x (option_map half_found_of half)) }
        ensures stops { IfErr result (IsStop (nfa_of self.now) (search_of input.entry)) }
        ensures counts { CountsStop result cache.old cache.new }
        ensures memory { memory_of cache.new ≤ capacity_of self.now }
        ensures work { IsBounded cache.old cache.new self.now (search_of input.entry) }
        ensures reads { OnOk result (HasReadSpan cache.old cache.new self.now (search_of input.entry)) }
        ensures full { IfErr result (HasNoRoom cache.old cache.new self.now) }
        ensures small { capacity_of self.now < first_row_memory
            → HasToScan (nfa_of self.now) (search_of input.entry) → StopsAtStart (search_of input.entry) result }
    {
        let before = cache.stops.copy();
        cache.allow(self);
        let half = find_half(self, cache, &input);
        cache.count_stop(self, before, half.is_err());
        half
    }

    /// Returns whether a search of the input finds a match. It stops at the first position at which it knows.
    ///
    /// An answer is that of `PikeVM::is_match`, whatever the input's `earliest`. The errors, and what the caller must
    /// ensure, are those of [`DFA::try_find_half`].
    ///
    /// ```
    /// // dfa of "foo[0-9]+"
    /// assert!(rt; dfa.try_is_match(cache, Input::new(b"foo12345"))?);
    /// assert!(rt; !dfa.try_is_match(cache, Input::new(b"foobar"))?);
    /// ```
    #[inline(always)]
    pub fn try_is_match<'h>(&self, cache: &mut Cache, input: Input<'h>) -> Result<bool, StopError>
        requires { IsFor cache.old self.now }
        ensures own { IsFor cache.new self.now }
        ensures answer { IfOk result
            (IsBoolAnswer (nfa_of self.now) (kind_of self.now) false (search_of input.entry)) }
        ensures stops { IfErr result (IsStop (nfa_of self.now) (search_of input.entry)) }
        ensures counts { CountsStop result cache.old cache.new }
        ensures memory { memory_of cache.new ≤ capacity_of self.now }
        ensures work { IsBounded cache.old cache.new self.now (search_of input.entry) }
        ensures reads { let free = not (is_utf8_empty (nfa_of self.now)) in OnOk result
            (HasReadSpan cache.old cache.new self.now (record (search_of input.entry) { earliest = free })) }
        ensures full { IfErr result (HasNoRoom cache.old cache.new self.now) }
        ensures small { capacity_of self.now < first_row_memory
            → HasToScan (nfa_of self.now) (search_of input.entry) → StopsAtStart (search_of input.entry) result }
    {
        let earliest = !self.on_boundary;
        let input = input.earliest(earliest);
        let half = self.try_find_half(cache, input)?;
        Ok(half.is_some())
    }
}

/// The half match of a search. This is a separate call, so that no caller copies its input.
#[inline(never)]
fn find_half(
    dfa: &DFA,
    cache: &mut Cache,
    input: &Input<'_>,
) -> Result<Option<HalfMatch>, StopError>
    requires { IsFor cache.old dfa.now }
    ensures own { IsFor cache.new dfa.now }
    ensures answer { let x = search_of input.now in IfOk result (λ half.
        IsHalfAnswer dfa.now.nfa dfa.now.kind x.earliest x (option_map half_found_of half)) }
    ensures stops { IfErr result (IsStop dfa.now.nfa (search_of input.now)) }
    ensures work { ScansAtMost cache.old cache.new (search_of input.now) }
    ensures reads { OnOk result (HasReadSpan cache.old cache.new dfa.now (search_of input.now)) }
    ensures full { IfErr result (IsUsedUpAt cache.new dfa.now) }
    ensures small { dfa.now.capacity < first_row_memory → HasToScan dfa.now.nfa (search_of input.now)
        → StopsAtStart (search_of input.now) result }
{
    laws::steps_find_the_half();
    if dfa.on_boundary {
        return find_on_boundary(dfa, cache, input);
    }
    scan_half(dfa, cache, input)
}

/// The half match of a search whose match counts only if it ends on a boundary.
#[inline(never)]
fn find_on_boundary(
    dfa: &DFA,
    cache: &mut Cache,
    input: &Input<'_>,
) -> Result<Option<HalfMatch>, StopError>
    requires own { IsFor cache.old dfa.now }
    requires utf8 { is_utf8_empty dfa.now.nfa ≡ true }
    ensures own { IsFor cache.new dfa.now }
    ensures steps { let x = search_of input.now in IfOk result (λ half.
        IsStepsHalf dfa.now.nfa dfa.now.kind x.earliest x (option_map half_found_of half)) }
    ensures stops { IfErr result (IsStop dfa.now.nfa (search_of input.now)) }
    ensures work { ScansAtMost cache.old cache.new (search_of input.now) }
    ensures reads { OnOk result (HasReadSpan cache.old cache.new dfa.now (search_of input.now)) }
    ensures full { IfErr result (IsUsedUpAt cache.new dfa.now) }
    ensures small { dfa.now.capacity < first_row_memory → HasToScan dfa.now.nfa (search_of input.now)
        → StopsAtStart (search_of input.now) result }
{
    if !input.get_anchored().is_anchored() {
        return find_whole_half(dfa, cache, *input);
    }
    let half = scan_half(dfa, cache, input)?;
    if !is_whole_half(input, half) {
        return Ok(None);
    }
    Ok(half)
}

/// The half match of the first scan whose match does not split a codepoint, as the start of the span moves on.
fn find_whole_half(
    dfa: &DFA,
    cache: &mut Cache,
    mut input: Input<'_>,
) -> Result<Option<HalfMatch>, StopError>
    requires { IsFor cache.old dfa.now }
    ensures own { IsFor cache.new dfa.now }
    ensures half { let x = search_of input.entry in IfOk result (λ half.
        IsRestartedHalf dfa.now.nfa dfa.now.kind x.earliest x (option_map half_found_of half)) }
    ensures stops { IfErr result (IsStop dfa.now.nfa (search_of input.entry)) }
    ensures work { ScansAtMost cache.old cache.new (search_of input.entry) }
    ensures reads { OnOk result (HasReadSpan cache.old cache.new dfa.now (search_of input.entry)) }
    ensures full { IfErr result (IsUsedUpAt cache.new dfa.now) }
    ensures small { dfa.now.capacity < first_row_memory → HasToScan dfa.now.nfa (search_of input.entry)
        → StopsAtStart (search_of input.entry) result }
{
    let mut half = scan_half(dfa, cache, &input)?;
    while !is_whole_half(&input, half) {
        input.set_start(input.start() + 1);
        half = scan_half(dfa, cache, &input)?;
    }
    Ok(half)
}

/// Whether there is no match, or it ends on a boundary.
fn is_whole_half(input: &Input<'_>, half: Option<HalfMatch>) -> bool
    ensures { IsTrue result ↔ IsWholeHalf (search_of input.now) (option_map half_found_of half) }
{
    match half {
        Some(half) => input.is_char_boundary(half.offset()),
        None => true,
    }
}
