//! The set of all patterns that match, in one scan.
ghost use Rattle.std.specs.Prelude.{◌≡◌, ◌+◌, ◌*◌, ◌<◌, ◌≤◌, [], true, false, length, take, not, ◌&&◌, ◌⊎◌, cond};
ghost use Rattle.regex_search_core.specs.PatternSets.{size_of_set};
ghost use Rattle.regex_search_core.specs.Search.{search_of};
ghost use Rattle.regex_search_core.specs.declared.search.MatchKind.TheVariants.{All as AllMatches, LeftmostFirst};
ghost use Rattle.thompson_nfa.specs.Automaton.{IsAutomaton};
ghost use Rattle.nfa_paths.specs.Overlaps.{IsOverlapResult};
ghost use Rattle.nfa_pikevm_scan.specs.Scans.{held, HaveRoom, KeepsThreads, MayCross, MayScan, SameSizes};
ghost use Rattle.nfa_pikevm_scan.specs.Scans.{max_scan_turns, IsWithinTurns};
ghost use Rattle.nfa_pikevm_scan.specs.Needs.{overlap_scans};
ghost use Rattle.nfa_pikevm_scan.specs.Sinks.{NextsOverlappingGive, PatternSinkTakes};

use crate::nexts::{nexts_with, set_up, swap_state_sets};
use crate::scan::{Starts, add_start};
use crate::sink::MatchSink;
use crate::slot::Slot;
use crate::threads::Threads;
use nfa_scan_core::starts::{may_end_at, start_limit, start_state};
use regex_search_core::{Input, MatchKind, PatternID, PatternSet};
use thompson_nfa::NFA;

/// A sink that adds patterns to a set. A match counts if it may end at its position and the set has room for its
/// pattern. Without `past_match` the position ends with the first match that counts.
#[derive(Drop)]
pub struct PatternSink<'p> {
    pub patterns: &'p mut PatternSet,
    /// Whether a match may end at the position.
    pub permitted: bool,
    pub past_match: bool,
    /// Whether there was a match that counts.
    pub met: bool,
}

impl MatchSink for PatternSink<'_> {
    ghost row_width = { λ s. 0 };

    ghost takes = { PatternSinkTakes };

    ghost reference = { λ s. s.patterns.ghost_name };

    #[inline(always)]
    fn width(&self) -> usize {
        0
    }

    #[inline(always)]
    fn take(&mut self, pattern: PatternID, _row: &[Slot]) -> bool {
        if !self.permitted {
            return false;
        }
        if self.patterns.try_insert(pattern).is_none() {
            return false;
        }
        self.met = true;
        !self.past_match
    }
}

/// Follows the states at the position, and goes on to those that its byte leads to. Returns whether there was a match
/// that counts. Requires a set that is not full, since a full one gains nothing.
fn nexts_overlapping(
    nfa: &NFA,
    input: &Input<'_>,
    at: usize,
    past_match: bool,
    threads: &mut Threads,
    patterns: &mut PatternSet,
) -> bool
    requires ready { MayCross nfa.now (search_of input.now) at 0 threads.old }
    requires some { 0 < length threads.old.curr.items }
    requires not_full { size_of_set patterns.old < length patterns.old }
    ensures next { threads.new.reached.next.items ≡ [] }
    ensures keeps { KeepsThreads threads.old threads.new }
    ensures crosses { NextsOverlappingGive nfa.now (search_of input.now) at past_match (length patterns.old)
        (held threads.old []) patterns.old result (held threads.new []) patterns.new }
{
    let mut gatherer = PatternSink {
        patterns,
        permitted: may_end_at(nfa, input, at),
        past_match,
        met: false,
    };
    nexts_with(nfa, input, at, threads, &mut gatherer);
    swap_state_sets(threads);
    gatherer.met
}

/// Returns whether a scan is over after a position: there was a match that counts, and the scan stops at the earliest
/// one, or the set is full, so that it gains nothing more.
#[inline(always)]
fn is_over(met: bool, earliest: bool, patterns: &PatternSet) -> bool
    ensures over { result ≡ true → (met ≡ true)
        × ((earliest ≡ true) ⊎ (size_of_set patterns.now ≡ length patterns.now)) }
    ensures goes_on { result ≡ false → met ≡ true
        → (earliest ≡ false) × (size_of_set patterns.now < length patterns.now) }
{
    met && (earliest || patterns.is_full())
}

/// Returns the limit of the starts after a position. After a first match no start is left: it would come later.
#[inline(always)]
fn later_limit(limit: usize, met: bool, past_match: bool) -> usize
    ensures { result ≡ cond (met && not past_match) 0 limit }
{
    if met && !past_match { 0 } else { limit }
}

/// Adds the patterns that a scan from these starts means. With `past_match` these are the patterns of all matches,
/// otherwise that of the first match and those that are met up to its end. If the scan stops at the earliest match,
/// only matches with the least end count.
fn overlap_from(
    nfa: &NFA,
    input: &Input<'_>,
    starts: &Starts,
    past_match: bool,
    threads: &mut Threads,
    patterns: &mut PatternSet,
)
    requires valid { IsAutomaton nfa.now }
    requires ready { MayScan nfa.now (search_of input.now) starts.now [] threads.old }
    requires stop { starts.now.stop ≤ (search_of input.now).start }
    requires empty { past_match ≡ false → size_of_set patterns.old ≡ 0 }
    requires not_full { size_of_set patterns.old < length patterns.old }
    ensures keeps { KeepsThreads threads.old threads.new }
    ensures turns { IsWithinTurns nfa.now (search_of input.now) threads.old threads.new }
    ensures gains { IsOverlapResult nfa.now (search_of input.now) (cond past_match AllMatches LeftmostFirst)
        (search_of input.now).earliest patterns.old patterns.new }
{
    let earliest = input.get_earliest();
    let mut joining = *starts;
    for at in input.start()..input.end() + 1 {
        add_start(&joining, at, threads);
        if threads.curr.is_empty() {
            return;
        }
        let met = nexts_overlapping(nfa, input, at, past_match, threads, patterns);
        if is_over(met, earliest, patterns) {
            return;
        }
        joining.limit = later_limit(joining.limit, met, past_match);
    }
}

/// Adds the patterns of the matches that the kind means to the set, including matches that overlap, in one scan. Makes
/// no scan under leftmost first if the set holds a pattern.
pub fn overlap(
    nfa: &NFA,
    kind: MatchKind,
    input: &Input<'_>,
    threads: &mut Threads,
    patterns: &mut PatternSet,
)
    requires serves { HaveRoom nfa.now 0 threads.old }
    ensures result { IsOverlapResult nfa.now (search_of input.now) kind (search_of input.now).earliest patterns.old
        patterns.new }
    ensures scans { threads.new.scans ≡ threads.old.scans + overlap_scans kind patterns.old }
    ensures sizes { SameSizes threads.old threads.new }
    ensures turns { threads.new.reached.seen.turns
        ≤ threads.old.reached.seen.turns + overlap_scans kind patterns.old * max_scan_turns nfa.now
        (search_of input.now) }
{
    let past_match = kind.continue_past_first_match();
    if !past_match && !patterns.is_empty() {
        return;
    }
    threads.scans.tick();
    if input.is_done() {
        return;
    }
    // A full set gains nothing, and neither does a set of capacity 0.
    if patterns.is_full() {
        return;
    }
    let Some(state) = start_state(nfa, input) else {
        return;
    };
    let starts = Starts {
        state,
        limit: start_limit(nfa, input),
        // No start is skipped here.
        stop: input.start(),
    };
    set_up(threads, 0);
    overlap_from(nfa, input, &starts, past_match, threads, patterns);
}
