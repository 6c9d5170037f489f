//! A scan over cells that are known.
ghost use Rattle.std.specs.Prelude.{◌≡◌, ◌+◌, ◌-◌, ◌/◌, ◌%◌, ◌<◌, ◌≤◌, IfSome, IsTrue, false, slice_index};
ghost use Rattle.regex_search_core.specs.Search.{search_of};
ghost use Rattle.nfa_lazy_dfa.specs.Places.{IsFoundAt, IsMatchedAt};
ghost use Rattle.nfa_lazy_dfa.specs.Runs.{place_at};
ghost use Rattle.nfa_lazy_dfa.specs.Rows as rows;
ghost use Rattle.nfa_lazy_dfa.specs.Rows.{IsAt, IsFor, IsRowOf, Leads, LeadsTo, Spends, stances_of, steps_of};
ghost use Rattle.nfa_lazy_dfa.specs.Stances.{Stance};
ghost use Rattle.nfa_lazy_dfa.specs.Watches.{IsIdlePlace};

use crate::cache::{Cache, DEAD, IDLE, MATCHED, ROW_CELLS, UNKNOWN};
use crate::dfa::DFA;
use crate::scan::{Place, half_at};
use regex_search_core::{HalfMatch, Input};

/// The cell of the byte at the position. The cells of the row begin at `first`.
#[inline(always)]
pub fn read_cell(dfa: &DFA, cache: &Cache, input: &Input<'_>, at: usize, first: u32) -> u32
    requires own { IsFor cache.now dfa.now }
    requires inside { at < (search_of input.now).end }
    requires whole { first % ROW_CELLS ≡ 0 }
    requires at { IsAt dfa.now cache.now (search_of input.now) at (first / ROW_CELLS) }
    ensures { result < UNKNOWN → (s : Stance) → IsRowOf cache.now (first / ROW_CELLS) s
        → Leads dfa.now.nfa dfa.now.kind (stances_of cache.now.stands.items) s
        (slice_index (search_of input.now).haystack at) result }
{
    let haystack = input.haystack();
    cache.cells[first as usize + haystack[at] as usize]
}

/// The same, for a scan at this position that has found this end.
#[inline(always)]
pub fn cell_at(
    dfa: &DFA,
    cache: &Cache,
    input: &Input<'_>,
    at: usize,
    first: u32,
    found: Option<HalfMatch>,
) -> u32
    requires own { IsFor cache.now dfa.now }
    requires inside { at < (search_of input.now).end }
    requires whole { first % ROW_CELLS ≡ 0 }
    requires at { IsFoundAt dfa.now cache.now (search_of input.now) (place_at at first found) }
    ensures whole { result < UNKNOWN → result % ROW_CELLS ≡ 0 }
    ensures plain { result < IDLE
        → IsFoundAt dfa.now cache.now (search_of input.now) (place_at (at + 1) result found) }
    ensures unmatched { result < MATCHED
        → IsFoundAt dfa.now cache.now (search_of input.now) (place_at (at + 1) (result % IDLE) found) }
    ensures idle { IDLE ≤ result → result < MATCHED → IsIdlePlace dfa.now cache.now (result % IDLE) }
    ensures leads { result < UNKNOWN → LeadsTo dfa.now cache.now cache.now (first / ROW_CELLS)
        (slice_index (search_of input.now).haystack at) (rows.row_of result) }
{
    read_cell(dfa, cache, input, at, first)
}

/// Goes on over cells without a mark, four bytes at a time. Returns the position, where the cells of the row there
/// begin, and the next cell, which has a mark or is unknown. Near the end of the span it is `UNKNOWN` too.
#[inline(always)]
pub fn pass_plain(
    dfa: &DFA,
    cache: &Cache,
    input: &Input<'_>,
    from: usize,
    row: u32,
    found: Option<HalfMatch>,
) -> (usize, u32, u32)
    requires own { IsFor cache.now dfa.now }
    requires whole { row % ROW_CELLS ≡ 0 }
    requires at { IsFoundAt dfa.now cache.now (search_of input.now) (place_at from row found) }
    ensures whole { result.1 % ROW_CELLS ≡ 0 }
    ensures at { IsFoundAt dfa.now cache.now (search_of input.now) (place_at result.0 result.1 found) }
    ensures low { from ≤ result.0 }
    ensures marked { IDLE ≤ result.2 }
    ensures next { result.2 < UNKNOWN → result.2 % ROW_CELLS ≡ 0 }
    ensures unmatched { result.2 < MATCHED
        → IsFoundAt dfa.now cache.now (search_of input.now) (place_at (result.0 + 1) (result.2 % IDLE) found) }
    ensures idle { IDLE ≤ result.2 → result.2 < MATCHED → IsIdlePlace dfa.now cache.now (result.2 % IDLE) }
{
    let end = input.end();
    let mut at = from;
    let mut first = row;
    while end - at >= 4 {
        let second = cell_at(dfa, cache, input, at, first, found);
        if second >= IDLE {
            return (at, first, second);
        }
        at += 1;
        let third = cell_at(dfa, cache, input, at, second, found);
        if third >= IDLE {
            return (at, second, third);
        }
        at += 1;
        let fourth = cell_at(dfa, cache, input, at, third, found);
        if fourth >= IDLE {
            return (at, third, fourth);
        }
        at += 1;
        first = cell_at(dfa, cache, input, at, fourth, found);
        if first >= IDLE {
            return (at, fourth, first);
        }
        at += 1;
    }
    (at, first, UNKNOWN)
}

/// Whether the byte leads from the row to which the cell leads back to it, by the same cell.
#[inline(always)]
fn stays(
    dfa: &DFA,
    cache: &Cache,
    input: &Input<'_>,
    at: usize,
    cell: u32,
    found: Option<HalfMatch>,
) -> bool
    requires own { IsFor cache.now dfa.now }
    requires inside { at < (search_of input.now).end }
    requires whole { cell % ROW_CELLS ≡ 0 }
    requires unmatched { cell < MATCHED }
    requires at { IsFoundAt dfa.now cache.now (search_of input.now) (place_at at (cell % IDLE) found) }
    ensures { IsTrue result
        → IsFoundAt dfa.now cache.now (search_of input.now) (place_at (at + 1) (cell % IDLE) found) }
{
    cell_at(dfa, cache, input, at, cell % IDLE, found) == cell
}

/// Goes on over bytes that lead from an idle row back to it, by the cell that led there, four at a time. Returns the
/// position.
#[inline(always)]
pub fn past_idle(
    dfa: &DFA,
    cache: &Cache,
    input: &Input<'_>,
    from: usize,
    cell: u32,
    found: Option<HalfMatch>,
) -> usize
    requires own { IsFor cache.now dfa.now }
    requires whole { cell % ROW_CELLS ≡ 0 }
    requires unmatched { cell < MATCHED }
    requires at { IsFoundAt dfa.now cache.now (search_of input.now) (place_at from (cell % IDLE) found) }
    ensures at { IsFoundAt dfa.now cache.now (search_of input.now) (place_at result (cell % IDLE) found) }
    ensures low { from ≤ result }
{
    let mut at = from;
    while input.end() - at >= 4 {
        if !stays(dfa, cache, input, at, cell, found) {
            return at;
        }
        at += 1;
        if !stays(dfa, cache, input, at, cell, found) {
            return at;
        }
        at += 1;
        if !stays(dfa, cache, input, at, cell, found) {
            return at;
        }
        at += 1;
        if !stays(dfa, cache, input, at, cell, found) {
            return at;
        }
        at += 1;
    }
    at
}

/// Goes on over cells that lead to rows without a match. Returns the position and where the cells of the row there
/// begin. The next cell leads to a match, to a dead row or is unknown, or the span ends soon.
#[inline(always)]
pub fn pass(
    dfa: &DFA,
    cache: &Cache,
    input: &Input<'_>,
    from: usize,
    row: u32,
    found: Option<HalfMatch>,
) -> (usize, u32)
    requires own { IsFor cache.now dfa.now }
    requires whole { row % ROW_CELLS ≡ 0 }
    requires at { IsFoundAt dfa.now cache.now (search_of input.now) (place_at from row found) }
    ensures whole { result.1 % ROW_CELLS ≡ 0 }
    ensures at { IsFoundAt dfa.now cache.now (search_of input.now) (place_at result.0 result.1 found) }
    ensures low { from ≤ result.0 }
{
    if !dfa.marks {
        let (at, first, _) = pass_plain(dfa, cache, input, from, row, found);
        return (at, first);
    }
    let mut at = from;
    let mut first = row;
    while input.end() - at >= 4 {
        let (next, plain, cell) = pass_plain(dfa, cache, input, at, first, found);
        if cell >= MATCHED {
            return (next, plain);
        }
        at = past_idle(dfa, cache, input, next + 1, cell, found);
        first = cell % IDLE;
    }
    (at, first)
}

/// Where the cells of the next row begin, if the byte leads to a row with a match that is known and not dead.
#[inline(always)]
fn over_match(dfa: &DFA, cache: &Cache, input: &Input<'_>, at: usize, first: u32) -> Option<u32>
    requires own { IsFor cache.now dfa.now }
    requires inside { at < (search_of input.now).end }
    requires whole { first % ROW_CELLS ≡ 0 }
    requires at { IsAt dfa.now cache.now (search_of input.now) at (first / ROW_CELLS) }
    ensures whole { IfSome result (λ next. next % ROW_CELLS ≡ 0) }
    ensures at { let x = search_of input.now in x.earliest ≡ false
        → IfSome result (IsMatchedAt dfa.now cache.now x (at + 1)) }
{
    let cell = read_cell(dfa, cache, input, at, first);
    if cell < MATCHED || cell >= DEAD {
        return None;
    }
    Some(cell % IDLE)
}

/// Whether the byte leads from the row with a match back to it.
#[inline(always)]
fn stays_matched(dfa: &DFA, cache: &Cache, input: &Input<'_>, at: usize, first: u32) -> bool
    requires own { IsFor cache.now dfa.now }
    requires late { (search_of input.now).earliest ≡ false }
    requires inside { at < (search_of input.now).end }
    requires whole { first % ROW_CELLS ≡ 0 }
    requires at { IsMatchedAt dfa.now cache.now (search_of input.now) at first }
    ensures { IsTrue result → IsMatchedAt dfa.now cache.now (search_of input.now) (at + 1) first }
{
    read_cell(dfa, cache, input, at, first) == first + MATCHED
}

/// Goes on over bytes that lead from the row with a match back to it, four at a time. Returns the position. Where the
/// last byte led from another row it is the same one.
#[inline(always)]
fn past_match(
    dfa: &DFA,
    cache: &Cache,
    input: &Input<'_>,
    from: usize,
    first: u32,
    before: u32,
) -> usize
    requires own { IsFor cache.now dfa.now }
    requires late { (search_of input.now).earliest ≡ false }
    requires whole { first % ROW_CELLS ≡ 0 }
    requires at { IsMatchedAt dfa.now cache.now (search_of input.now) from first }
    ensures at { IsMatchedAt dfa.now cache.now (search_of input.now) result first }
    ensures low { from ≤ result }
{
    let mut at = from;
    if before != first {
        return at;
    }
    while input.end() - at >= 4 {
        if !stays_matched(dfa, cache, input, at, first) {
            return at;
        }
        at += 1;
        if !stays_matched(dfa, cache, input, at, first) {
            return at;
        }
        at += 1;
        if !stays_matched(dfa, cache, input, at, first) {
            return at;
        }
        at += 1;
        if !stays_matched(dfa, cache, input, at, first) {
            return at;
        }
        at += 1;
    }
    at
}

/// Where the cells of the next row begin, if the byte leads to a row without a match by a cell without a mark.
#[inline(always)]
fn over_plain(dfa: &DFA, cache: &Cache, input: &Input<'_>, at: usize, first: u32) -> Option<u32>
    requires own { IsFor cache.now dfa.now }
    requires inside { at < (search_of input.now).end }
    requires whole { first % ROW_CELLS ≡ 0 }
    requires at { IsAt dfa.now cache.now (search_of input.now) at (first / ROW_CELLS) }
    ensures whole { IfSome result (λ next. next % ROW_CELLS ≡ 0) }
    ensures at { IfSome result (λ next.
        IsAt dfa.now cache.now (search_of input.now) (at + 1) (next / ROW_CELLS)) }
{
    let cell = read_cell(dfa, cache, input, at, first);
    if cell >= IDLE {
        return None;
    }
    Some(cell)
}

/// Whether two bytes lead from the row with a match back to it, over a row without one.
#[inline(always)]
fn stays_by_two(dfa: &DFA, cache: &Cache, input: &Input<'_>, at: usize, first: u32) -> bool
    requires own { IsFor cache.now dfa.now }
    requires late { (search_of input.now).earliest ≡ false }
    requires inside { at + 1 < (search_of input.now).end }
    requires whole { first % ROW_CELLS ≡ 0 }
    requires at { IsMatchedAt dfa.now cache.now (search_of input.now) at first }
    ensures { IsTrue result → IsMatchedAt dfa.now cache.now (search_of input.now) (at + 2) first }
{
    let Some(between) = over_plain(dfa, cache, input, at, first) else {
        return false;
    };
    read_cell(dfa, cache, input, at + 1, between) == first + MATCHED
}

/// Goes on over pairs of bytes that lead from the row with a match back to it, as characters of two bytes do. Returns
/// the position.
#[inline(always)]
fn past_pairs(dfa: &DFA, cache: &Cache, input: &Input<'_>, from: usize, first: u32) -> usize
    requires own { IsFor cache.now dfa.now }
    requires late { (search_of input.now).earliest ≡ false }
    requires whole { first % ROW_CELLS ≡ 0 }
    requires at { IsMatchedAt dfa.now cache.now (search_of input.now) from first }
    ensures at { IsMatchedAt dfa.now cache.now (search_of input.now) result first }
    ensures low { from ≤ result }
{
    let mut at = from;
    while input.end() - at >= 2 {
        if !stays_by_two(dfa, cache, input, at, first) {
            return at;
        }
        at += 2;
    }
    at
}

/// Goes on over cells that lead to rows with a match, or else over pairs of bytes that lead back to the row. Returns
/// the position and where the cells of the row there begin.
#[inline(always)]
pub fn pass_matches(
    dfa: &DFA,
    cache: &Cache,
    input: &Input<'_>,
    from: usize,
    row: u32,
) -> (usize, u32)
    requires own { IsFor cache.now dfa.now }
    requires late { (search_of input.now).earliest ≡ false }
    requires whole { row % ROW_CELLS ≡ 0 }
    requires at { IsMatchedAt dfa.now cache.now (search_of input.now) from row }
    ensures whole { result.1 % ROW_CELLS ≡ 0 }
    ensures at { IsMatchedAt dfa.now cache.now (search_of input.now) result.0 result.1 }
    ensures low { from ≤ result.0 }
{
    let end = input.end();
    if from >= end {
        return (from, row);
    }
    let Some(second) = over_match(dfa, cache, input, from, row) else {
        return (past_pairs(dfa, cache, input, from, row), row);
    };
    let mut at = past_match(dfa, cache, input, from + 1, second, row);
    let mut first = second;
    while at < end {
        let Some(next) = over_match(dfa, cache, input, at, first) else {
            return (at, first);
        };
        first = next;
        at += 1;
    }
    (at, first)
}

/// Goes on over cells up to one that leads to a dead row or is unknown, or with `earliest` up to one with a match.
#[inline(always)]
pub fn run(dfa: &DFA, cache: &Cache, input: &Input<'_>, from: Place) -> Place
    requires own { IsFor cache.now dfa.now }
    requires at { IsFoundAt dfa.now cache.now (search_of input.now) from }
    ensures at { IsFoundAt dfa.now cache.now (search_of input.now) result }
    ensures low { from.at ≤ result.at }
{
    let earliest = input.get_earliest();
    let end = input.end();
    let mut at = from.at;
    let mut first = from.row * ROW_CELLS as u32;
    let mut found = from.found;
    while at < end {
        let cell = cell_at(dfa, cache, input, at, first, found);
        if cell < MATCHED {
            let (next, row) = pass(dfa, cache, input, at + 1, cell % IDLE, found);
            at = next;
            first = row;
            continue;
        }
        if earliest {
            break;
        }
        let Some(matched) = over_match(dfa, cache, input, at, first) else {
            break;
        };
        let (next, row) = pass_matches(dfa, cache, input, at + 1, matched);
        found = half_at(cache.stands[row as usize / ROW_CELLS].hit, next - 1);
        at = next;
        first = row;
    }
    let row = first / ROW_CELLS as u32;
    Place { at, row, found }
}

/// Goes on as [`run`], one byte at a time. It is faster if rows with a match and others take turns, as where characters
/// of several bytes match.
#[inline(always)]
pub fn run_by_byte(dfa: &DFA, cache: &Cache, input: &Input<'_>, from: Place) -> Place
    requires own { IsFor cache.now dfa.now }
    requires at { IsFoundAt dfa.now cache.now (search_of input.now) from }
    ensures at { IsFoundAt dfa.now cache.now (search_of input.now) result }
    ensures low { from.at ≤ result.at }
{
    let is_earliest = input.get_earliest();
    let end = input.end();
    let mut at = from.at;
    let mut first = from.row * ROW_CELLS as u32;
    let mut found = from.found;
    while at < end {
        let cell = cell_at(dfa, cache, input, at, first, found);
        if cell < MATCHED {
            at += 1;
            first = cell % IDLE;
            continue;
        }
        if is_earliest {
            break;
        }
        let Some(matched) = over_match(dfa, cache, input, at, first) else {
            break;
        };
        at += 1;
        first = matched;
        found = half_at(cache.stands[first as usize / ROW_CELLS].hit, at - 1);
    }
    let row = first / ROW_CELLS as u32;
    Place { at, row, found }
}

/// Goes on as [`run`], and counts the steps.
#[inline(always)]
pub fn walk(dfa: &DFA, cache: &mut Cache, input: &Input<'_>, from: Place) -> Place
    requires own { IsFor cache.old dfa.now }
    requires at { IsFoundAt dfa.now cache.old (search_of input.now) from }
    ensures own { IsFor cache.new dfa.now }
    ensures at { IsFoundAt dfa.now cache.new (search_of input.now) result }
    ensures low { from.at ≤ result.at }
    ensures spends { Spends cache.old cache.new (result.at - from.at) 0 }
    ensures counts { steps_of cache.new ≡ steps_of cache.old + (result.at - from.at) }
{
    let place = run(dfa, cache, input, from);
    cache.count_steps(dfa, from.at, place.at);
    place
}
