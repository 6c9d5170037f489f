//! One scan of the span, for each match kind.
ghost use Rattle.std.specs.Prelude.{◌≡◌, ◌+◌, ◌<◌, ◌≤◌, [], None, true, false, length, cond, option_map, IfSome};
ghost use Rattle.regex_search_core.specs.Search.{search_of};
ghost use Rattle.regex_search_core.specs.Found.{half_found_of, half_at};
ghost use Rattle.regex_search_core.specs.PatternSets.{number_of};
ghost use Rattle.regex_search_core.specs.declared.search.MatchKind.TheVariants.{All, LeftmostFirst};
ghost use Rattle.nfa_paths.specs.Restarts.{ScanGives};
ghost use Rattle.nfa_scan_core.specs.FirstBytes.{IsFirstBytes};
ghost use Rattle.nfa_pikevm_scan.specs.Scans.{AddsStart, AreStarts, HaveRoom, HaveRows, JoinsStart};
ghost use Rattle.nfa_pikevm_scan.specs.Scans.{IsWithinTurns, KeepsThreads, MayScan, PassesOver, SameSizes, ScansFirst};
ghost use Rattle.nfa_pikevm_scan.specs.declared.threads.Threads.{Threads};

use crate::closure::ClosureContext;
use crate::nexts::{nexts, nexts_of_lone, nexts_of_start, set_up};
use crate::slot::{Slot, unset_row};
use crate::threads::Threads;
use nfa_scan_core::first_bytes::FirstBytes;
use nfa_scan_core::starts::{next_start, skip_limit, start_limit, start_state};
use nfa_scan_core::transitions::byte_at;
use regex_search_core::{HalfMatch, Input, MatchKind, PatternID, StateID};
use thompson_nfa::NFA;

/// The starts of a scan: the state, the position after the last one, and the position after the last one that may be
/// skipped for its byte.
#[derive(Clone, Copy)]
pub struct Starts {
    pub state: StateID,
    pub limit: usize,
    pub stop: usize,
}

impl Starts {
    /// Returns the same starts for a scan that skips none.
    #[inline(always)]
    fn passing_over_none(&self, input: &Input<'_>) -> Starts
        ensures { result ≡ record self.now { stop = (search_of input.now).start } }
    {
        Starts {
            stop: input.start(),
            ..*self
        }
    }
}

/// Adds the start state after the states at the position. Requires a position that may not be skipped.
#[inline(always)]
pub fn add_start(starts: &Starts, at: usize, threads: &mut Threads)
    requires room { length threads.old.curr.items < threads.old.curr.capacity }
    requires due { starts.now.stop ≤ at }
    ensures { JoinsStart starts.now at threads.old threads.new }
{
    if at < starts.limit {
        threads.curr.push_blank(starts.state);
    }
}

/// Returns the position or, if it may be skipped for its byte, a later one up to which all may be. If it may not, no
/// function is called.
#[inline(always)]
fn pass_over(first: &FirstBytes, input: &Input<'_>, from: usize, stop: usize) -> usize
    requires from { from ≤ (search_of input.now).end + 1 }
    requires stop { stop ≤ (search_of input.now).end }
    ensures { PassesOver first.now.may_begin (search_of input.now) from stop result }
{
    if from < stop && first.refuses(input.haystack()[from]) {
        return next_start(first, input, from, stop);
    }
    from
}

/// Adds the start state to the states at the position or, if there is none, at the next position where a match may
/// begin. If there are others and no match may begin here, or at the limit, it adds nothing. Returns the position, or
/// `None` if no state is there.
#[inline(always)]
fn add_start_or_skip(
    first: &FirstBytes,
    input: &Input<'_>,
    starts: &Starts,
    limit: usize,
    at: usize,
    threads: &mut Threads,
) -> Option<usize>
    requires room { length threads.old.curr.items < threads.old.curr.capacity }
    requires place { at < limit → at ≤ (search_of input.now).end }
    requires stop { starts.now.stop ≤ (search_of input.now).end }
    requires order { at < limit → starts.now.stop < limit }
    ensures next { threads.new.reached.next.items ≡ threads.old.reached.next.items }
    ensures keeps { KeepsThreads threads.old threads.new }
    ensures seen { threads.new.reached.seen ≡ threads.old.reached.seen }
    ensures none { result ≡ None → limit ≤ at }
    ensures over { result ≡ None → threads.old.curr.items ≡ [] }
    ensures some { IfSome result (λ to. 0 < length threads.new.curr.items) }
    ensures joins { IfSome result (λ to. AddsStart first.now.may_begin (search_of input.now) starts.now limit
        threads.old.curr.width at threads.old.curr.items to threads.new.curr.items) }
{
    if at >= limit {
        if threads.curr.is_empty() {
            return None;
        }
        return Some(at);
    }
    if threads.curr.is_empty() {
        let next = pass_over(first, input, at, starts.stop);
        threads.curr.push_blank(starts.state);
        return Some(next);
    }
    if at >= starts.stop || !first.refuses(input.haystack()[at]) {
        threads.curr.push_blank(starts.state);
    }
    Some(at)
}

/// Returns the match at the position, if there is one.
#[inline(always)]
fn half_at(hit: Option<PatternID>, at: usize) -> Option<HalfMatch>
    ensures { option_map half_found_of result ≡ option_map (λ pattern. half_at at (number_of pattern)) hit }
{
    Some(HalfMatch::new(hit?, at))
}

/// A position of a scan whose states were followed, and the match that was found so far.
#[derive(Clone, Copy)]
struct Progress {
    at: usize,
    found: Option<HalfMatch>,
}

/// Follows the states of the next positions, as long as there is one state. Requires that no start is left. Only the
/// contract reads the starts.
#[inline(always)]
fn run_lone(
    nfa: &NFA,
    input: &Input<'_>,
    starts: &Starts,
    last: Progress,
    threads: &mut Threads,
    slots: &mut [Slot],
) -> Progress
    requires starts { AreStarts nfa.now (search_of input.now) starts.now }
    requires room { HaveRows nfa.now (length slots.old) threads.old }
    // The scan began with the threads `base`.
    requires first { (base : Threads) × ScansFirst nfa.now (search_of input.now) starts.now 0 (last.at + 1)
        (length slots.old) last.found slots.old base threads.old }
    ensures low { last.at ≤ result.at }
    ensures high { result.at ≤ (search_of input.now).end }
    ensures first { (base : Threads) → ScansFirst nfa.now (search_of input.now) starts.now 0 (last.at + 1)
        (length slots.old) last.found slots.old base threads.old
        → ScansFirst nfa.now (search_of input.now) starts.now 0 (result.at + 1) (length slots.old) result.found
        slots.new base threads.new }
{
    let mut at = last.at;
    let mut found = last.found;
    while threads.curr.is_lone() {
        at += 1;
        let hit = half_at(nexts_of_lone(nfa, input, at, threads, slots), at);
        if hit.is_some() {
            found = hit;
        }
    }
    Progress { at, found }
}

/// Finds the first accepting path: at each position, the states after a match are dropped. The first start, and a lone
/// state after a match, are followed without a loop over states.
fn scan_first(
    nfa: &NFA,
    first: &FirstBytes,
    input: &Input<'_>,
    starts: &Starts,
    threads: &mut Threads,
    slots: &mut [Slot],
) -> Option<HalfMatch>
    requires first { IsFirstBytes nfa.now first.now.may_begin }
    requires ready { MayScan nfa.now (search_of input.now) starts.now slots.old threads.old }
    requires some { (search_of input.now).start < starts.now.limit }
    ensures keeps { KeepsThreads threads.old threads.new }
    ensures turns { IsWithinTurns nfa.now (search_of input.now) threads.old threads.new }
    ensures answer { ScanGives nfa.now LeftmostFirst false (search_of input.now) result slots.new
        threads.new.reached.seen.turns }
{
    let mut limit = starts.limit;
    let mut at = pass_over(first, input, input.start(), starts.stop);
    let here = ClosureContext {
        nfa,
        input,
        at,
        byte: byte_at(input, at),
    };
    let mut found = half_at(nexts_of_start(&here, first, starts, threads, slots), at);
    if found.is_some() {
        if threads.curr.is_empty() {
            return found;
        }
        limit = 0;
    }
    at += 1;
    loop {
        let Some(to) = add_start_or_skip(first, input, starts, limit, at, threads) else {
            return found;
        };
        at = to;
        let hit = half_at(nexts(nfa, input, at, false, threads, slots), at);
        if hit.is_some() {
            // A later start comes after this match.
            limit = 0;
            let last = run_lone(
                nfa,
                input,
                starts,
                Progress { at, found: hit },
                threads,
                slots,
            );
            at = last.at;
            found = last.found;
        }
        at += 1;
    }
}

/// Finds the paths with the greatest end, and returns the last of them.
fn scan_all(
    nfa: &NFA,
    input: &Input<'_>,
    starts: &Starts,
    threads: &mut Threads,
    slots: &mut [Slot],
) -> Option<HalfMatch>
    requires ready { MayScan nfa.now (search_of input.now) starts.now slots.old threads.old }
    requires stop { starts.now.stop ≤ (search_of input.now).start }
    ensures keeps { KeepsThreads threads.old threads.new }
    ensures turns { IsWithinTurns nfa.now (search_of input.now) threads.old threads.new }
    ensures answer { ScanGives nfa.now All false (search_of input.now) result slots.new
        threads.new.reached.seen.turns }
{
    let mut found = None;
    for at in input.start()..input.end() + 1 {
        add_start(starts, at, threads);
        if threads.curr.is_empty() {
            return found;
        }
        let hit = half_at(nexts(nfa, input, at, true, threads, slots), at);
        found = hit.or(found);
    }
    found
}

/// Finds the paths with the least end, and returns the first of them, or with `past_match` the last.
fn scan_earliest(
    nfa: &NFA,
    input: &Input<'_>,
    starts: &Starts,
    past_match: bool,
    threads: &mut Threads,
    slots: &mut [Slot],
) -> Option<HalfMatch>
    requires ready { MayScan nfa.now (search_of input.now) starts.now slots.old threads.old }
    requires stop { starts.now.stop ≤ (search_of input.now).start }
    ensures keeps { KeepsThreads threads.old threads.new }
    ensures turns { IsWithinTurns nfa.now (search_of input.now) threads.old threads.new }
    ensures answer { ScanGives nfa.now (cond past_match All LeftmostFirst) true (search_of input.now) result slots.new
        threads.new.reached.seen.turns }
{
    for at in input.start()..input.end() + 1 {
        add_start(starts, at, threads);
        if threads.curr.is_empty() {
            return None;
        }
        let hit = half_at(nexts(nfa, input, at, past_match, threads, slots), at);
        if hit.is_some() {
            return hit;
        }
    }
    None
}

/// Makes one scan, from cleared slots. Returns the end of the path that is meant and writes its slots, or sets no slot.
// A function of its own, so that the loop of a search takes no registers from the scan's.
#[inline(never)]
pub fn scan(
    nfa: &NFA,
    first: &FirstBytes,
    kind: MatchKind,
    input: &Input<'_>,
    threads: &mut Threads,
    slots: &mut [Slot],
) -> Option<HalfMatch>
    requires first { IsFirstBytes nfa.now first.now.may_begin }
    requires serves { HaveRoom nfa.now (length slots.old) threads.old }
    ensures scans { threads.new.scans ≡ threads.old.scans + 1 }
    ensures sizes { SameSizes threads.old threads.new }
    ensures turns { IsWithinTurns nfa.now (search_of input.now) threads.old threads.new }
    ensures answer { ScanGives nfa.now kind (search_of input.now).earliest (search_of input.now) result slots.new
        threads.new.reached.seen.turns }
{
    threads.scans.tick();
    unset_row(slots);
    if input.is_done() {
        return None;
    }
    let state = start_state(nfa, input)?;
    let starts = Starts {
        state,
        limit: start_limit(nfa, input),
        stop: skip_limit(nfa, input),
    };
    set_up(threads, slots.len());
    let past_match = kind.continue_past_first_match();
    if input.get_earliest() {
        scan_earliest(
            nfa,
            input,
            &starts.passing_over_none(input),
            past_match,
            threads,
            slots,
        )
    } else if past_match {
        scan_all(nfa, input, &starts.passing_over_none(input), threads, slots)
    } else {
        scan_first(nfa, first, input, &starts, threads, slots)
    }
}
