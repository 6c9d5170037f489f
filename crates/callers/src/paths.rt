//! Callers of the laws on paths and on lists of matches.
ghost use Rattle.std.specs.Prelude.{◌≡◌, ◌+◌, ◌≤◌, false, length, map, IfOk, IfSome, List, None};
ghost use Rattle.nfa_engines.specs.Found.{Found, found_of};
ghost use Rattle.nfa_engines.specs.Search.{Search, search_of};
ghost use Rattle.nfa_engines.specs.MatchKind.TheVariants.{LeftmostFirst};
ghost use Rattle.nfa_engines.specs.Laws.{MatchesNothing, PathsWriteTheirEnds, StartsBeforePaths};
ghost use Rattle.nfa_engines.specs.Engines.{Fits, kind_of};
ghost use Rattle.nfa_engines.specs.Graphs.{ComesBefore, Pair, PathTo};
ghost use Rattle.nfa_engines.specs.Items.{greedy, IsFoundIn, answer_by, end_of, item_by};
ghost use Rattle.nfa_engines.specs.Paths.{edges, is_utf8_empty, span_len, starts, IsMatch};
ghost use Rattle.nfa_engines.specs.IterStates.{Answer, half_span_of, span_of};
ghost use Rattle.nfa_engines.specs.Lists.{AreDisjoint, AreFirstMatches};
ghost use Rattle.nfa_engines.specs.Stored.{iter_state_of};

use nfa_engines::iter::Searcher;
use nfa_engines::iter::laws::half_and_full_agree;
use nfa_engines::pikevm::{Cache, PikeVM};
use nfa_engines::{Input, Match, laws};
use std::alloc::{AllocError, Global};

/// Two accepting paths are equal if neither comes before the other.
pub fn unordered_paths_are_one(vm: &PikeVM, input: &Input<'_>)
    ensures { let x = search_of input.now in (m n : Pair) (p q : List Pair)
        → PathTo (edges vm.now.nfa x) (starts vm.now.nfa x) m p → IsMatch vm.now.nfa m
        → PathTo (edges vm.now.nfa x) (starts vm.now.nfa x) n q → IsMatch vm.now.nfa n
        → ¬ (ComesBefore (edges vm.now.nfa x) p q) → ¬ (ComesBefore (edges vm.now.nfa x) q p) → p ≡ q }
{
    laws::accepting_paths_are_ordered();
}

/// Returns the leftmost match of an NFA whose accepting paths write their ends. No accepting path starts before it, and
/// without a match there is no accepting path.
pub fn leftmost(vm: &PikeVM, cache: &mut Cache, input: Input<'_>) -> Option<Match>
    requires fits { Fits cache.old vm.now.nfa }
    requires kind { kind_of vm.now ≡ LeftmostFirst }
    requires off { (search_of input).earliest ≡ false }
    requires anywhere { is_utf8_empty vm.now.nfa ≡ false }
    requires writes { PathsWriteTheirEnds vm.now.nfa (search_of input) }
    ensures none { result ≡ None → MatchesNothing vm.now.nfa (search_of input.entry) }
    ensures start { IfSome result (λ m. StartsBeforePaths vm.now.nfa (search_of input.entry) (found_of m)) }
{
    laws::no_gap();
    vm.get_nfa().pattern_len();
    match vm.find(cache, input) {
        Some(found) => Some(found),
        None => None,
    }
}

// The first two matches, or all if there are fewer.
fn found_first(
    alloc: Global,
    vm: &PikeVM,
    cache: &mut Cache,
    input: Input<'_>,
) -> Result<Vec<Match>, AllocError>
    requires { Fits cache.old vm.now.nfa }
    ensures { IfOk result (λ v. AreFirstMatches vm.now.nfa (kind_of vm.now) (search_of input.entry).earliest
        (search_of input.entry) (map found_of v.items)) }
{
    let mut found = Vec::new(alloc);
    for item in vm.find_iter(cache, input) {
        found.push(item)?;
        if found.len() == 2 {
            break;
        }
    }
    Ok(found)
}

/// Returns the first two matches, or all if there are fewer. They are in the span, and the second ends after the first.
/// There is at most one more than the span has bytes.
pub fn first_two(
    alloc: Global,
    vm: &PikeVM,
    cache: &mut Cache,
    input: Input<'_>,
) -> Result<Vec<Match>, AllocError>
    requires { Fits cache.old vm.now.nfa }
    ensures disjoint { IfOk result (λ v. AreDisjoint (search_of input.entry) None (map found_of v.items)) }
    ensures few { IfOk result (λ v. length (map found_of v.items) ≤ span_len (search_of input.entry) + 1) }
{
    laws::matches_are_disjoint();
    let found = found_first(alloc, vm, cache, input)?;
    Ok(found)
}

/// From any searcher on, an iteration over the ends of matches gives the ends of the iteration over the matches, if
/// each match is in the span of its search.
pub fn ends_are_those_of_matches(searcher: &Searcher<'_>)
    ensures { (h : Search → Answer Found) → ((t : Search) → IsFoundIn t (h t))
        → greedy half_span_of (λ t. answer_by end_of (h t)) (iter_state_of searcher.now)
        ≡ map (item_by end_of) (greedy span_of h (iter_state_of searcher.now)) }
{
    half_and_full_agree();
}
