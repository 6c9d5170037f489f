//! Callers of the laws on the work of whole iterations.
ghost use Rattle.std.specs.Prelude.{◌+◌, ◌*◌, ◌≤◌, length, IfOk};
ghost use Rattle.nfa_engines.specs.Search.{search_of};
ghost use Rattle.nfa_engines.specs.Engines.{Fits};
ghost use Rattle.nfa_engines.specs.Paths.{span_len, total_degree};
ghost use Rattle.nfa_engines.specs.PikeVMFinding.{PikeFindsOn};
ghost use Rattle.nfa_engines.specs.IterationLaws.{list_scan_limit};

use nfa_engines::backtrack::{self, BoundedBacktracker};
use nfa_engines::error::SearchError;
use nfa_engines::pikevm::{Cache, PikeVM};
use nfa_engines::{Input, Match, laws};
use std::alloc::Global;

/// Returns all matches. The cache makes little more scans for them than for one search, and their turns.
pub fn all_by_pikevm(
    vm: &PikeVM,
    alloc: Global,
    cache: &mut Cache,
    input: Input<'_>,
) -> Result<Vec<Match>, SearchError>
    requires { Fits cache.old vm.now.nfa }
    ensures scans { IfOk result (λ found. cache.new.all_scans
        ≤ cache.old.all_scans + list_scan_limit vm.now.nfa (search_of input.entry) (length found.items)) }
    ensures turns { IfOk result (λ found. cache.new.all_turns
        ≤ cache.old.all_turns + list_scan_limit vm.now.nfa (search_of input.entry) (length found.items)
        * ((1 + total_degree vm.now.nfa) * (span_len (search_of input.entry) + 1))) }
{
    laws::lists_are_bounded();
    vm.find_all(alloc, cache, input)
}

/// Returns all matches, or a refusal. The cache makes little more scans for them than for one search, and their turns.
pub fn all_by_backtracker(
    engine: &BoundedBacktracker,
    alloc: Global,
    cache: &mut backtrack::Cache,
    input: Input<'_>,
) -> Result<Vec<Match>, SearchError>
    ensures scans { IfOk result (λ found. cache.new.all_scans
        ≤ cache.old.all_scans + list_scan_limit engine.now.nfa (search_of input.entry) (length found.items)) }
    ensures turns { IfOk result (λ found. cache.new.all_turns
        ≤ cache.old.all_turns + list_scan_limit engine.now.nfa (search_of input.entry) (length found.items)
        * ((1 + total_degree engine.now.nfa) * (span_len (search_of input.entry) + 1))) }
{
    laws::lists_are_bounded();
    engine.try_find_all(alloc, cache, input)
}

/// Returns all matches. However the call ends, the cache makes at most two scans for each byte of the span, and 3 more.
pub fn few_scans_by_pikevm(
    engine: &PikeVM,
    alloc: Global,
    cache: &mut Cache,
    input: Input<'_>,
) -> Result<Vec<Match>, SearchError>
    requires { Fits cache.old engine.now.nfa }
    ensures { cache.new.all_scans ≤ cache.old.all_scans + (2 * span_len (search_of input.entry) + 3) }
{
    laws::iterations_are_bounded();
    engine.find_all(alloc, cache, input)
}

/// Returns all matches, or a refusal. However the call ends, the cache makes at most two scans for each byte of the
/// span, and 3 more.
pub fn few_scans_by_backtracker(
    backtracker: &BoundedBacktracker,
    alloc: Global,
    cache: &mut backtrack::Cache,
    input: Input<'_>,
) -> Result<Vec<Match>, SearchError>
    ensures { cache.new.all_scans ≤ cache.old.all_scans + (2 * span_len (search_of input.entry) + 3) }
{
    laws::iterations_are_bounded();
    backtracker.try_find_all(alloc, cache, input)
}

// Counts the matches. The cache changes as an iteration changes it.
fn counted(vm: &PikeVM, cache: &mut Cache, input: Input<'_>) -> usize
    requires { Fits cache.old vm.now.nfa }
    ensures { PikeFindsOn vm.now (search_of input.entry) cache.old cache.new }
{
    let mut count = 0usize;
    for _found in vm.find_iter(cache, input) {
        count = count.saturating_add(1);
    }
    count
}

/// Returns the number of matches. The loop makes at most two scans for each byte of the span, and 3 more.
pub fn count_in_few_scans(vm: &PikeVM, cache: &mut Cache, input: Input<'_>) -> usize
    requires { Fits cache.old vm.now.nfa }
    ensures { cache.new.all_scans ≤ cache.old.all_scans + (2 * span_len (search_of input.entry) + 3) }
{
    laws::iterations_are_bounded();
    counted(vm, cache, input)
}
