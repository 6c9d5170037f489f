//! A scan that found nothing yet, and the last position at which it saw that no path is under way.
//!
//! A row whose only state is the start is *idle*: each path of an earlier start has ended there. If few bytes begin a
//! match and the NFA has no assertions, cells that lead to such a row are marked, and a scan stays in it in a loop of
//! its own. A loop does not pay where idle rows are left after a few bytes, as with assertions.
//!
//! With assertions there are several, by the byte before. A scan knows one of them, and compares it with the row of
//! each position. It begins with one of the two that earlier scans left last for a row that is not idle, so for the
//! start of a match: the cache keeps their places. Where a step takes no known cell, and where the scan ends, it
//! looks at the row itself, and goes on with that one if it is idle.
ghost use Rattle.std.specs.Prelude.{◌≡◌, ◌+◌, ◌-◌, ◌%◌, ◌<◌, ◌≤◌, None, true};
ghost use Rattle.regex_search_core.specs.Search.{search_of};
ghost use Rattle.nfa_lazy_dfa.specs.Places.{IsFirstAt, IsFoundAt};
ghost use Rattle.nfa_lazy_dfa.specs.Rows.{IsFor, Spends, steps_of};
ghost use Rattle.nfa_lazy_dfa.specs.Runs.{place_at};
ghost use Rattle.nfa_lazy_dfa.specs.Watches.{IsBegun, IsIdlePlace, IsWatching};

use crate::cache::{Cache, IDLE, MATCHED, ROW_CELLS, UNKNOWN};
use crate::dfa::DFA;
use crate::fill::is_idle;
use crate::known::{cell_at, pass_plain, past_idle};
use crate::scan::{First, Place};
use regex_search_core::Input;

/// Where a scan is that has found nothing yet.
#[derive(Clone, Copy)]
pub struct Watch {
    pub at: usize,
    /// Where the cells of the row at this position begin.
    first: u32,
    /// A position before which no match starts.
    pub start: usize,
    /// Where the cells of an idle row begin. `UNKNOWN` is the place of none.
    pub idle: u32,
}

impl Watch {
    /// The place of the scan.
    pub fn place(self) -> Place
        ensures { result ≡ place_at self.at self.first None }
    {
        Place {
            at: self.at,
            row: self.first / ROW_CELLS as u32,
            found: None,
        }
    }
}

/// Where the cells of the row begin if it is idle, and otherwise the place of no row.
fn idle_place(dfa: &DFA, cache: &Cache, row: u32) -> u32
    requires { IsFor cache.now dfa.now }
    ensures { IsIdlePlace dfa.now cache.now result }
{
    if row as usize >= cache.stands.len() {
        return UNKNOWN;
    }
    if is_idle(&cache.stands[row as usize], dfa.nfa.start_anchored()) {
        row * ROW_CELLS as u32
    } else {
        UNKNOWN
    }
}

/// The watch at this place. No match starts before the place if its row is idle, nor otherwise before `start`.
pub fn watch_at(
    dfa: &DFA,
    cache: &Cache,
    input: &Input<'_>,
    place: Place,
    start: usize,
    idle: u32,
) -> Watch
    requires own { IsFor cache.now dfa.now }
    requires apart { dfa.now.apart ≡ true }
    requires found { place.found ≡ None }
    requires at { IsFoundAt dfa.now cache.now (search_of input.now) place }
    requires begun { IsBegun dfa.now.nfa (search_of input.now) start place.at }
    ensures watching { IsWatching dfa.now cache.now (search_of input.now) result }
    ensures at { result.at ≡ place.at }
{
    let first = place.row * ROW_CELLS as u32;
    let here = idle_place(dfa, cache, place.row);
    if here == first {
        Watch {
            at: place.at,
            first,
            start: place.at,
            idle: here,
        }
    } else {
        Watch {
            at: place.at,
            first,
            start,
            idle: idle_place(dfa, cache, idle / ROW_CELLS as u32),
        }
    }
}

/// The watch with a look at the row itself, which may be another idle row than the one that it knows. Without
/// assertions there is no other one.
#[inline(always)]
pub fn looked_at(dfa: &DFA, cache: &Cache, input: &Input<'_>, from: Watch) -> Watch
    requires own { IsFor cache.now dfa.now }
    requires apart { dfa.now.apart ≡ true }
    requires watching { IsWatching dfa.now cache.now (search_of input.now) from }
    ensures watching { IsWatching dfa.now cache.now (search_of input.now) result }
    ensures at { result.at ≡ from.at }
{
    if !dfa.looks || from.start == from.at {
        return from;
    }
    let here = idle_place(dfa, cache, from.first / ROW_CELLS as u32);
    if here != from.first {
        return from;
    }
    Watch {
        at: from.at,
        first: here,
        start: from.at,
        idle: here,
    }
}

/// Whether the cell of the next byte is known.
#[inline(always)]
pub fn is_known(dfa: &DFA, cache: &Cache, input: &Input<'_>, watch: Watch) -> bool
    requires own { IsFor cache.now dfa.now }
    requires inside { watch.at < (search_of input.now).end }
    requires watching { IsWatching dfa.now cache.now (search_of input.now) watch }
{
    cell_at(dfa, cache, input, watch.at, watch.first, None) != UNKNOWN
}

/// Where the cells of an idle row begin to which the scan is likely to come: of the two that earlier scans left last,
/// the one to which the first byte leads, or the newer one. `UNKNOWN` is the place of none.
fn likely_idle(dfa: &DFA, cache: &Cache, input: &Input<'_>, at: usize, first: u32) -> u32
    requires own { IsFor cache.now dfa.now }
    requires whole { first % ROW_CELLS ≡ 0 }
    requires at { IsFoundAt dfa.now cache.now (search_of input.now) (place_at at first None) }
    ensures idle { IsIdlePlace dfa.now cache.now result }
{
    let [newer, older] = cache.idles;
    let is_older = at < input.end() && cell_at(dfa, cache, input, at, first, None) == older;
    let likely = if is_older { older } else { newer };
    idle_place(dfa, cache, likely / ROW_CELLS as u32)
}

/// The watch where a scan begins. An NFA without assertions has no other idle row that a scan comes to before a match.
#[inline(always)]
pub fn first_watch(dfa: &DFA, cache: &Cache, input: &Input<'_>, begun: First) -> Watch
    requires own { IsFor cache.now dfa.now }
    requires apart { dfa.now.apart ≡ true }
    requires at { IsFirstAt dfa.now cache.now (search_of input.now) begun }
    ensures watching { IsWatching dfa.now cache.now (search_of input.now) result }
    ensures at { result.at ≡ begun.place.at }
{
    let place = begun.place;
    let at = place.at;
    let first = place.row * ROW_CELLS as u32;
    if !dfa.looks && begun.start == dfa.nfa.start_anchored() {
        return Watch {
            at,
            first,
            start: at,
            idle: first,
        };
    }
    let idle = likely_idle(dfa, cache, input, at, first);
    if idle == UNKNOWN {
        return watch_at(dfa, cache, input, place, at, UNKNOWN);
    }
    Watch {
        at,
        first,
        start: at,
        idle,
    }
}

/// Keeps the place of the row that a scan left, if that row was idle and the next one is not. The row that the scan
/// began with is known to the next scan without this.
pub fn keep_left(dfa: &DFA, cache: &mut Cache, begun: usize, from: Watch, to: Watch)
    requires { IsFor cache.old dfa.now }
    ensures own { IsFor cache.new dfa.now }
    ensures same { cache.new.stands.items ≡ cache.old.stands.items }
    ensures spends { Spends cache.old cache.new 0 0 }
    ensures counts { steps_of cache.new ≡ steps_of cache.old }
{
    let [newer, _] = cache.idles;
    if begun < from.at && from.start == from.at && to.start < to.at && from.first != newer {
        cache.idles = [from.first, newer];
    }
}

/// The watch one position further, in the row whose cells begin at `first`.
#[inline(always)]
fn moved(dfa: &DFA, cache: &Cache, input: &Input<'_>, from: Watch, first: u32) -> Watch
    requires apart { dfa.now.apart ≡ true }
    requires watching { IsWatching dfa.now cache.now (search_of input.now) from }
    requires whole { first % ROW_CELLS ≡ 0 }
    requires at { IsFoundAt dfa.now cache.now (search_of input.now) (place_at (from.at + 1) first None) }
    ensures watching { IsWatching dfa.now cache.now (search_of input.now) result }
    ensures at { result.at ≡ from.at + 1 }
{
    let at = from.at + 1;
    let start = if first == from.idle { at } else { from.start };
    Watch {
        at,
        first,
        start,
        idle: from.idle,
    }
}

/// Goes on over cells without a mark, four bytes at a time, as the scan of a half match does, and looks at each
/// position whether the row is idle.
#[inline(always)]
fn pass(dfa: &DFA, cache: &Cache, input: &Input<'_>, from: Watch) -> Watch
    requires own { IsFor cache.now dfa.now }
    requires apart { dfa.now.apart ≡ true }
    requires watching { IsWatching dfa.now cache.now (search_of input.now) from }
    ensures watching { IsWatching dfa.now cache.now (search_of input.now) result }
    ensures low { from.at ≤ result.at }
{
    let end = input.end();
    let mut w = from;
    while end - w.at >= 4 {
        let second = cell_at(dfa, cache, input, w.at, w.first, None);
        if second >= IDLE {
            return w;
        }
        w = moved(dfa, cache, input, w, second);
        let third = cell_at(dfa, cache, input, w.at, w.first, None);
        if third >= IDLE {
            return w;
        }
        w = moved(dfa, cache, input, w, third);
        let fourth = cell_at(dfa, cache, input, w.at, w.first, None);
        if fourth >= IDLE {
            return w;
        }
        w = moved(dfa, cache, input, w, fourth);
        let fifth = cell_at(dfa, cache, input, w.at, w.first, None);
        if fifth >= IDLE {
            return w;
        }
        w = moved(dfa, cache, input, w, fifth);
    }
    w
}

/// Goes on over cells that lead to rows without a match, four bytes at a time. The idle ones are marked.
#[inline(always)]
fn pass_marked(dfa: &DFA, cache: &Cache, input: &Input<'_>, from: Watch) -> Watch
    requires own { IsFor cache.now dfa.now }
    requires apart { dfa.now.apart ≡ true }
    requires watching { IsWatching dfa.now cache.now (search_of input.now) from }
    ensures watching { IsWatching dfa.now cache.now (search_of input.now) result }
    ensures low { from.at ≤ result.at }
{
    let mut at = from.at;
    let mut first = from.first;
    let mut start = from.start;
    while input.end() - at >= 4 {
        let (next, plain, cell) = pass_plain(dfa, cache, input, at, first, None);
        if cell >= MATCHED {
            return Watch {
                at: next,
                first: plain,
                start,
                idle: from.idle,
            };
        }
        at = past_idle(dfa, cache, input, next + 1, cell, None);
        first = cell % IDLE;
        start = at;
    }
    Watch {
        at,
        first,
        start,
        idle: from.idle,
    }
}

/// Goes on as [`pass_marked`] if cells mark idle rows, and otherwise as [`pass`].
#[inline(always)]
fn pass_by_four(dfa: &DFA, cache: &Cache, input: &Input<'_>, from: Watch) -> Watch
    requires own { IsFor cache.now dfa.now }
    requires apart { dfa.now.apart ≡ true }
    requires watching { IsWatching dfa.now cache.now (search_of input.now) from }
    ensures watching { IsWatching dfa.now cache.now (search_of input.now) result }
    ensures low { from.at ≤ result.at }
{
    if dfa.marks {
        pass_marked(dfa, cache, input, from)
    } else {
        pass(dfa, cache, input, from)
    }
}

/// Goes on over cells that lead to rows without a match, one byte at a time.
#[inline(always)]
fn pass_rest(dfa: &DFA, cache: &Cache, input: &Input<'_>, from: Watch) -> Watch
    requires own { IsFor cache.now dfa.now }
    requires apart { dfa.now.apart ≡ true }
    requires watching { IsWatching dfa.now cache.now (search_of input.now) from }
    ensures watching { IsWatching dfa.now cache.now (search_of input.now) result }
    ensures low { from.at ≤ result.at }
{
    let end = input.end();
    let mut w = from;
    while w.at < end {
        let next = cell_at(dfa, cache, input, w.at, w.first, None);
        if next >= MATCHED {
            return w;
        }
        w = moved(dfa, cache, input, w, next % IDLE);
    }
    w
}

/// Goes on over known cells that lead to rows without a match, to the first other one or the end of the span, and
/// counts the steps.
#[inline(always)]
pub fn pass_counted(dfa: &DFA, cache: &mut Cache, input: &Input<'_>, from: Watch) -> Watch
    requires own { IsFor cache.old dfa.now }
    requires apart { dfa.now.apart ≡ true }
    requires watching { IsWatching dfa.now cache.old (search_of input.now) from }
    ensures own { IsFor cache.new dfa.now }
    ensures watching { IsWatching dfa.now cache.new (search_of input.now) result }
    ensures low { from.at ≤ result.at }
    ensures spends { Spends cache.old cache.new (result.at - from.at) 0 }
    ensures counts { steps_of cache.new ≡ steps_of cache.old + (result.at - from.at) }
{
    let passed = pass_by_four(dfa, cache, input, from);
    let to = pass_rest(dfa, cache, input, passed);
    cache.count_steps(dfa, from.at, to.at);
    to
}
