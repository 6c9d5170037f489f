//! The end of a span, if the cache knows what matches there.
ghost use Rattle.std.specs.Prelude.{◌≡◌, ◌<◌, ◌≤◌, IfSome, None, Some, option_map, slice_get, vec_len};
ghost use Rattle.regex_search_core.specs.Found.{half_found_of};
ghost use Rattle.regex_search_core.specs.PatternSets.{number_of};
ghost use Rattle.regex_search_core.specs.Search.{search_of};
ghost use Rattle.nfa_lazy_dfa.specs.Configurations.{scan_half};
ghost use Rattle.nfa_lazy_dfa.specs.Assertions.{IsRead};
ghost use Rattle.nfa_lazy_dfa.specs.Places.{IsFoundAt};
ghost use Rattle.nfa_lazy_dfa.specs.Rows.{IsAt, IsFor, IsRowOf};
ghost use Rattle.nfa_lazy_dfa.specs.Stances.{Stance, hit_here};

use crate::cache::{Cache, ROW_CELLS, UNKNOWN};
use crate::dfa::DFA;
use crate::fill::row_of;
use crate::scan::{Place, half_at};
use regex_search_core::{HalfMatch, Input, PatternID};

/// The pattern that matches at the end of the haystack, if it was looked up.
#[inline(always)]
fn known_end(dfa: &DFA, cache: &Cache, row: u32) -> Option<Option<PatternID>>
    requires own { IsFor cache.now dfa.now }
    requires row { row < vec_len cache.now.stands }
    ensures { IfSome result (λ hit. (s : Stance) → IsRowOf cache.now row s
        → option_map number_of hit ≡ hit_here dfa.now.nfa dfa.now.kind s None) }
{
    match cache.ends[row as usize] {
        Some(hit) => Some(hit),
        None => None,
    }
}

/// The pattern that matches before this byte, if its cell is known.
#[inline(always)]
fn known_before(dfa: &DFA, cache: &Cache, row: u32, byte: u8) -> Option<Option<PatternID>>
    requires own { IsFor cache.now dfa.now }
    requires row { row < vec_len cache.now.stands }
    ensures hit { IfSome result (λ hit. (s : Stance) → IsRowOf cache.now row s
        → option_map number_of hit ≡ hit_here dfa.now.nfa dfa.now.kind s (Some byte)) }
    ensures read { IfSome result (λ hit. IsRead dfa.now.nfa (Some byte)) }
{
    let cell = cache.cells[row as usize * ROW_CELLS + byte as usize];
    if cell == UNKNOWN {
        return None;
    }
    Some(cache.stands[row_of(cell) as usize].hit)
}

/// The pattern that matches at the end of the span, if the cache knows it.
#[inline(always)]
fn known_last(
    dfa: &DFA,
    cache: &Cache,
    input: &Input<'_>,
    place: Place,
) -> Option<Option<PatternID>>
    requires own { IsFor cache.now dfa.now }
    requires at { IsAt dfa.now cache.now (search_of input.now) place.at place.row }
    ensures hit { IfSome result (λ hit. (s : Stance) → IsRowOf cache.now place.row s
        → option_map number_of hit ≡ hit_here dfa.now.nfa dfa.now.kind s
        (slice_get (search_of input.now).haystack place.at)) }
    ensures read { IfSome result (λ hit. IsRead dfa.now.nfa (slice_get (search_of input.now).haystack place.at)) }
{
    let at = place.at;
    let haystack = input.haystack();
    if at < haystack.len() {
        return known_before(dfa, cache, place.row, haystack[at]);
    }
    known_end(dfa, cache, place.row)
}

/// What a scan that is at the end of its span found, if the cache knows what matches there.
#[inline(always)]
pub fn found_last(
    dfa: &DFA,
    cache: &Cache,
    input: &Input<'_>,
    place: Place,
) -> Option<Option<HalfMatch>>
    requires own { IsFor cache.now dfa.now }
    requires at { IsFoundAt dfa.now cache.now (search_of input.now) place }
    ensures steps { let x = search_of input.now in IfSome result (λ half.
        option_map half_found_of half ≡ scan_half dfa.now.nfa x dfa.now.kind x.earliest) }
    ensures over { IfSome result (λ half. (search_of input.now).end ≤ place.at) }
{
    let at = place.at;
    if at < input.end() {
        return None;
    }
    let hit = known_last(dfa, cache, input, place)?;
    Some(half_at(hit, at).or(place.found))
}
