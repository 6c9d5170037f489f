//! A scan over known cells up to its end.
//!
//! An anchored one mostly goes straight there: to a match, on over matches, and to a dead row.
ghost use Rattle.std.specs.Prelude.{◌≡◌, ◌⊎◌, ◌-◌, ◌/◌, ◌%◌, ◌<◌, ◌≤◌, false, option_map, true, vec_len};
ghost use Rattle.regex_search_core.specs.Found.{half_found_of, half_at};
ghost use Rattle.regex_search_core.specs.Search.{search_of};
ghost use Rattle.nfa_lazy_dfa.specs.Places.{IsCellAt, IsFoundAt, IsMatchedAt, IsNextPlace};
ghost use Rattle.nfa_lazy_dfa.specs.Rows as rows;
ghost use Rattle.nfa_lazy_dfa.specs.Rows.{IsAt, IsFor, IsRowOf};
ghost use Rattle.nfa_lazy_dfa.specs.Runs.{place_at};
ghost use Rattle.nfa_lazy_dfa.specs.Stances.{Stance};

use crate::cache::{Cache, DEAD, IDLE, MATCHED, ROW_CELLS, UNKNOWN};
use crate::dfa::DFA;
use crate::fill::row_of;
use crate::known::{pass, pass_matches, read_cell, run, run_by_byte};
use crate::scan::{Place, half_at};
use regex_search_core::{HalfMatch, Input};

/// Where a scan is: a position, where the cells of the row there begin, and the cell of the next byte. That is
/// `UNKNOWN` also at the end of the span.
#[derive(Clone, Copy)]
pub struct Ahead {
    at: usize,
    first: u32,
    cell: u32,
}

/// The cell of the byte at the position, or `UNKNOWN` at the end of the span.
#[inline(always)]
fn next_cell(dfa: &DFA, cache: &Cache, input: &Input<'_>, at: usize, first: u32) -> u32
    requires own { IsFor cache.now dfa.now }
    requires whole { first % ROW_CELLS ≡ 0 }
    requires at { IsAt dfa.now cache.now (search_of input.now) at (first / ROW_CELLS) }
    ensures { IsCellAt dfa.now cache.now (search_of input.now) at first result }
{
    if at >= input.end() {
        return UNKNOWN;
    }
    read_cell(dfa, cache, input, at, first)
}

/// Whether the cell is known and leads to a dead row.
#[inline(always)]
fn is_dead(cell: u32) -> bool
    ensures { result ≡ true → (DEAD ≤ cell) × (cell < UNKNOWN) }
{
    cell >= DEAD && cell != UNKNOWN
}

/// Whether the cell is known and ends a scan: it leads to a dead row, or to a match that is enough.
#[inline(always)]
fn ends_scan(cell: u32, earliest: bool) -> bool
    ensures known { result ≡ true → cell < UNKNOWN }
    ensures over { result ≡ true → (DEAD ≤ cell) ⊎ ((earliest ≡ true) × ((MATCHED ≤ cell) × (cell < DEAD))) }
{
    is_dead(cell) || (earliest && cell >= MATCHED && cell < DEAD)
}

/// Whether a scan goes on over the cell: it leads to a row with a match that is not dead, and later matches count.
#[inline(always)]
fn goes_over(cell: u32, earliest: bool) -> bool
    ensures matched { result ≡ true → (MATCHED ≤ cell) × (cell < DEAD) }
    ensures late { result ≡ true → earliest ≡ false }
{
    cell >= MATCHED && cell < DEAD && !earliest
}

/// The match that ends at the position, of the row.
#[inline(always)]
fn hit_at(cache: &Cache, row: u32, at: usize) -> Option<HalfMatch>
    requires { row < vec_len cache.now.stands }
    ensures { (s : Stance) → IsRowOf cache.now row s
        → option_map half_found_of result ≡ option_map (half_at at) s.hit }
{
    half_at(cache.stands[row as usize].hit, at)
}

/// What a scan that found this has found after a cell that is known.
#[inline(always)]
fn found_over(cache: &Cache, cell: u32, at: usize, found: Option<HalfMatch>) -> Option<HalfMatch>
    requires { rows.row_of cell < vec_len cache.now.stands }
    ensures plain { cell % DEAD < MATCHED → result ≡ found }
    ensures matched { MATCHED ≤ cell % DEAD → (s : Stance) → IsRowOf cache.now (rows.row_of cell) s
        → option_map half_found_of result ≡ option_map (half_at at) s.hit }
{
    if cell % DEAD < MATCHED {
        return found;
    }
    hit_at(cache, row_of(cell), at)
}

/// What a scan has found after a cell that is known: the match of that cell, or else that of the row before it.
#[inline(always)]
fn last_found(cache: &Cache, ahead: Ahead) -> Option<HalfMatch>
    requires low { 0 < ahead.at }
    requires row { ahead.first / ROW_CELLS < vec_len cache.now.stands }
    requires next { rows.row_of ahead.cell < vec_len cache.now.stands }
    ensures plain { ahead.cell % DEAD < MATCHED → (s : Stance) → IsRowOf cache.now (ahead.first / ROW_CELLS) s
        → option_map half_found_of result ≡ option_map (half_at (ahead.at - 1)) s.hit }
    ensures matched { MATCHED ≤ ahead.cell % DEAD → (s : Stance) → IsRowOf cache.now (rows.row_of ahead.cell) s
        → option_map half_found_of result ≡ option_map (half_at ahead.at) s.hit }
{
    let Ahead { at, first, cell } = ahead;
    if cell % DEAD >= MATCHED {
        return hit_at(cache, row_of(cell), at);
    }
    hit_at(cache, first / ROW_CELLS as u32, at - 1)
}

/// The place of a scan that found this after the next byte, if its cell ends the scan. Otherwise the place before it.
/// Returns whether the scan is over.
#[inline(always)]
fn after_plain(
    dfa: &DFA,
    cache: &Cache,
    input: &Input<'_>,
    ahead: Ahead,
    found: Option<HalfMatch>,
) -> (Place, bool)
    requires at { IsFoundAt dfa.now cache.now (search_of input.now) (place_at ahead.at ahead.first found) }
    requires cell { IsCellAt dfa.now cache.now (search_of input.now) ahead.at ahead.first ahead.cell }
    ensures next { IsNextPlace dfa.now cache.now (search_of input.now) result.0 result.1 }
    ensures low { ahead.at ≤ result.0.at }
{
    let Ahead { at, first, cell } = ahead;
    if ends_scan(cell, input.get_earliest()) {
        let found = found_over(cache, cell, at, found);
        let row = row_of(cell);
        let next = at + 1;
        return (
            Place {
                at: next,
                row,
                found,
            },
            true,
        );
    }
    let row = first / ROW_CELLS as u32;
    (Place { at, row, found }, false)
}

/// The same for a scan whose last match is that of the row.
#[inline(always)]
fn after_match(dfa: &DFA, cache: &Cache, input: &Input<'_>, ahead: Ahead) -> (Place, bool)
    requires late { (search_of input.now).earliest ≡ false }
    requires low { 0 < ahead.at }
    requires at { IsMatchedAt dfa.now cache.now (search_of input.now) ahead.at ahead.first }
    requires cell { IsCellAt dfa.now cache.now (search_of input.now) ahead.at ahead.first ahead.cell }
    ensures next { IsNextPlace dfa.now cache.now (search_of input.now) result.0 result.1 }
    ensures low { ahead.at ≤ result.0.at }
{
    let Ahead { at, first, cell } = ahead;
    if is_dead(cell) {
        let found = last_found(cache, ahead);
        let row = row_of(cell);
        let next = at + 1;
        return (
            Place {
                at: next,
                row,
                found,
            },
            true,
        );
    }
    let row = first / ROW_CELLS as u32;
    let found = hit_at(cache, row, at - 1);
    (Place { at, row, found }, false)
}

/// Goes on over known cells, straight to the end of a match. Returns the place that the scan came to, and whether it is
/// over there.
#[inline(always)]
pub fn direct(dfa: &DFA, cache: &Cache, input: &Input<'_>, from: Place) -> (Place, bool)
    requires own { IsFor cache.now dfa.now }
    requires at { IsFoundAt dfa.now cache.now (search_of input.now) from }
    ensures next { IsNextPlace dfa.now cache.now (search_of input.now) result.0 result.1 }
    ensures low { from.at ≤ result.0.at }
{
    let found = from.found;
    let start = from.row * ROW_CELLS as u32;
    let (at, first) = pass(dfa, cache, input, from.at, start, found);
    let cell = next_cell(dfa, cache, input, at, first);
    if goes_over(cell, input.get_earliest()) {
        let (to, row) = pass_matches(dfa, cache, input, at + 1, cell % IDLE);
        let last = next_cell(dfa, cache, input, to, row);
        let ahead = Ahead {
            at: to,
            first: row,
            cell: last,
        };
        return after_match(dfa, cache, input, ahead);
    }
    after_plain(dfa, cache, input, Ahead { at, first, cell }, found)
}

/// Goes on as [`direct`], again from each place that it comes to.
#[inline(always)]
fn direct_on(dfa: &DFA, cache: &Cache, input: &Input<'_>, from: Place) -> (Place, bool)
    requires own { IsFor cache.now dfa.now }
    requires at { IsFoundAt dfa.now cache.now (search_of input.now) from }
    ensures next { IsNextPlace dfa.now cache.now (search_of input.now) result.0 result.1 }
    ensures low { from.at ≤ result.0.at }
{
    let mut place = from;
    let mut least = from.at;
    while place.at >= least {
        least = place.at + 1;
        let (next, over) = direct(dfa, cache, input, place);
        if over {
            return (next, over);
        }
        place = next;
    }
    (place, false)
}

/// Goes on as [`run`], and over a cell that ends the scan.
#[inline(always)]
pub fn run_on(dfa: &DFA, cache: &Cache, input: &Input<'_>, from: Place) -> (Place, bool)
    requires own { IsFor cache.now dfa.now }
    requires at { IsFoundAt dfa.now cache.now (search_of input.now) from }
    ensures next { IsNextPlace dfa.now cache.now (search_of input.now) result.0 result.1 }
    ensures low { from.at ≤ result.0.at }
{
    let place = run(dfa, cache, input, from);
    over_end(dfa, cache, input, place)
}

/// Goes on as [`run_on`], one byte at a time.
#[inline(always)]
pub fn run_on_by_byte(dfa: &DFA, cache: &Cache, input: &Input<'_>, from: Place) -> (Place, bool)
    requires own { IsFor cache.now dfa.now }
    requires at { IsFoundAt dfa.now cache.now (search_of input.now) from }
    ensures next { IsNextPlace dfa.now cache.now (search_of input.now) result.0 result.1 }
    ensures low { from.at ≤ result.0.at }
{
    let place = run_by_byte(dfa, cache, input, from);
    over_end(dfa, cache, input, place)
}

/// Goes on over the next cell, if it ends the scan. Returns whether it does.
#[inline(always)]
fn over_end(dfa: &DFA, cache: &Cache, input: &Input<'_>, place: Place) -> (Place, bool)
    requires own { IsFor cache.now dfa.now }
    requires at { IsFoundAt dfa.now cache.now (search_of input.now) place }
    ensures next { IsNextPlace dfa.now cache.now (search_of input.now) result.0 result.1 }
    ensures low { place.at ≤ result.0.at }
{
    let first = place.row * ROW_CELLS as u32;
    let cell = next_cell(dfa, cache, input, place.at, first);
    let ahead = Ahead {
        at: place.at,
        first,
        cell,
    };
    after_plain(dfa, cache, input, ahead, place.found)
}

/// Goes on over known cells. Returns the place that the scan came to, and whether it is over there. A scan that is not
/// anchored mostly begins in an idle row, where [`run`] is faster.
#[inline(always)]
pub fn over_known(dfa: &DFA, cache: &Cache, input: &Input<'_>, from: Place) -> (Place, bool)
    requires own { IsFor cache.now dfa.now }
    requires at { IsFoundAt dfa.now cache.now (search_of input.now) from }
    ensures next { IsNextPlace dfa.now cache.now (search_of input.now) result.0 result.1 }
    ensures low { from.at ≤ result.0.at }
{
    if input.get_anchored().is_anchored() {
        return direct_on(dfa, cache, input, from);
    }
    run_on(dfa, cache, input, from)
}
