//! A search over known cells only, which changes nothing.
ghost use Rattle.std.specs.Prelude.{◌≡◌, IfSome, Some, option_map, true};
ghost use Rattle.regex_search_core.specs.Boundary.{IsBoundary};
ghost use Rattle.regex_search_core.specs.Found.{half_found_of};
ghost use Rattle.regex_search_core.specs.Search.{is_anchored, search_of};
ghost use Rattle.nfa_paths.specs.Paths.{IsHalfAnswer, is_utf8_empty};
ghost use Rattle.nfa_lazy_dfa.specs.Configurations.{scan_half};
ghost use Rattle.nfa_lazy_dfa.specs.Configs.{kind_of, nfa_of};
ghost use Rattle.nfa_lazy_dfa.specs.Places.{IsFoundAt};
ghost use Rattle.nfa_lazy_dfa.specs.Rows.{IsFor};

use crate::cache::Cache;
use crate::determinize::laws;
use crate::dfa::DFA;
use crate::direct::{direct, run_on_by_byte};
use crate::ends::found_last;
use crate::scan::{Place, may_start_later, seen_before};
use nfa_scan_core::starts::start_state;
use regex_search_core::{HalfMatch, Input};

impl DFA {
    /// Returns the half match of a search, if rows that earlier searches made lead to it. `None` says nothing: such
    /// rows are not there, or nothing matches.
    ///
    /// An answer is that of [`DFA::try_find_half`], which also makes the rows that this call needs. This one changes
    /// nothing, and counts no step. If a match has to end on a boundary, only an anchored search has an answer. The
    /// caller must ensure that the cache is the DFA's (`IsFor`).
    ///
    /// ```
    /// // dfa of "foo[0-9]+"
    /// let input = Input::new(b"foo12345").anchored(Anchored::Yes);
    /// assert_eq!(rt; dfa.known_half(cache, &input), None);
    /// let half = dfa.try_find_half(cache, input)?;
    /// assert_eq!(rt; dfa.known_half(cache, &input), half);
    /// ```
    #[inline(always)]
    pub fn known_half(&self, cache: &Cache, input: &Input<'_>) -> Option<HalfMatch>
        requires { IsFor cache.now self.now }
        ensures answer { let x = search_of input.now in IfSome result (λ half.
            IsHalfAnswer (nfa_of self.now) (kind_of self.now) x.earliest x (Some (half_found_of half))) }
    {
        laws::steps_find_the_half();
        if !is_one_scan(self, input) {
            return None;
        }
        let found = known_scan(self, cache, input)?;
        let half = found?;
        if !is_whole(self, input, half) {
            return None;
        }
        Some(half)
    }

    /// Returns what [`DFA::try_find_half`] returns, also that nothing matches, if rows that earlier searches made lead
    /// to it. `None` says nothing: such rows are not there, or a match has to end on a boundary.
    ///
    /// This call changes nothing, and counts no step. The caller must ensure that the cache is the DFA's (`IsFor`).
    ///
    /// ```
    /// // dfa of "foo[0-9]+"
    /// let input = Input::new(b"foo, foo12345").anchored(Anchored::Yes);
    /// assert_eq!(rt; dfa.known_answer(cache, &input), None);
    /// assert_eq!(rt; dfa.try_find_half(cache, input)?, None);
    /// assert_eq!(rt; dfa.known_answer(cache, &input), Some(None));
    /// ```
    #[inline(always)]
    pub fn known_answer(&self, cache: &Cache, input: &Input<'_>) -> Option<Option<HalfMatch>>
        requires { IsFor cache.now self.now }
        ensures answer { let x = search_of input.now in IfSome result (λ half.
            IsHalfAnswer (nfa_of self.now) (kind_of self.now) x.earliest x (option_map half_found_of half)) }
    {
        laws::steps_find_the_half();
        if self.on_boundary {
            return None;
        }
        known_scan(self, cache, input)
    }
}

/// Whether the answer of a search is that of its only scan: it is anchored, or a match may end anywhere.
#[inline(always)]
fn is_one_scan(dfa: &DFA, input: &Input<'_>) -> bool
    ensures { result ≡ true → is_utf8_empty dfa.now.nfa ≡ true → is_anchored (search_of input.now).anchored ≡ true }
{
    !dfa.on_boundary || input.get_anchored().is_anchored()
}

/// Whether a half match counts: it ends on a boundary, or it may end anywhere.
#[inline(always)]
fn is_whole(dfa: &DFA, input: &Input<'_>, half: HalfMatch) -> bool
    ensures { result ≡ true → is_utf8_empty dfa.now.nfa ≡ true
        → IsBoundary (search_of input.now).haystack (half_found_of half).offset }
{
    !dfa.on_boundary || input.is_char_boundary(half.offset())
}

/// The half match of one scan, if known cells lead to where it is over.
#[inline(always)]
fn known_scan(dfa: &DFA, cache: &Cache, input: &Input<'_>) -> Option<Option<HalfMatch>>
    requires { IsFor cache.now dfa.now }
    ensures { let x = search_of input.now in IfSome result (λ half.
        option_map half_found_of half ≡ scan_half dfa.now.nfa x dfa.now.kind x.earliest) }
{
    let from = known_begin(dfa, cache, input)?;
    let (place, over) = direct(dfa, cache, input, from);
    if over {
        return Some(place.found);
    }
    // A name of its own, so that the usual answer, above, is in no memory that the call may write.
    let rest = known_rest(dfa, cache, *input, place);
    rest
}

/// Where a scan begins, if a match may start and the row there is remembered.
#[inline(always)]
fn known_begin(dfa: &DFA, cache: &Cache, input: &Input<'_>) -> Option<Place>
    requires { IsFor cache.now dfa.now }
    ensures { IfSome result (IsFoundAt dfa.now cache.now (search_of input.now)) }
{
    let Some(start) = start_state(&dfa.nfa, input) else {
        return None;
    };
    if input.is_done() {
        return None;
    }
    let Ok(seen) = seen_before(dfa, input) else {
        return None;
    };
    let row = cache.known_first(dfa, start, seen, may_start_later(dfa, input))?;
    let at = input.start();
    Some(Place {
        at,
        row,
        found: None,
    })
}

/// The half match of a scan that is at this place, and that [`direct`] does not lead to where it is over. It takes the
/// input by value, so that no caller keeps it in memory for this call.
#[inline(never)]
fn known_rest(dfa: &DFA, cache: &Cache, input: Input<'_>, from: Place) -> Option<Option<HalfMatch>>
    requires own { IsFor cache.now dfa.now }
    requires at { IsFoundAt dfa.now cache.now (search_of input) from }
    ensures { let x = search_of input.entry in IfSome result (λ half.
        option_map half_found_of half ≡ scan_half dfa.now.nfa x dfa.now.kind x.earliest) }
{
    let (place, over) = run_on_by_byte(dfa, cache, &input, from);
    if over {
        return Some(place.found);
    }
    found_last(dfa, cache, &input, place)
}
