//! Callers of the laws on sets of patterns.
ghost use Rattle.std.specs.Prelude.{◌≡◌, ◌<◌, ◌≤◌, false, length, List, Option, ℕ};
ghost use Rattle.nfa_engines.specs.PatternSets.{size_of_set};
ghost use Rattle.nfa_engines.specs.Search.{search_of};
ghost use Rattle.nfa_engines.specs.MatchKind.TheVariants.{All, LeftmostFirst};
ghost use Rattle.nfa_engines.specs.Engines.{Fits, kind_of};
ghost use Rattle.nfa_engines.specs.Graphs.{IsFirstPath, Pair};
ghost use Rattle.nfa_engines.specs.Overlaps.{HoldsPattern, IsFirstBefore, IsPatternOf, IsPermitted, IsSelectedPath};
ghost use Rattle.nfa_engines.specs.Paths.{edges, starts};

use nfa_engines::pikevm::{Cache, PikeVM};
use nfa_engines::{Input, PatternSet, laws};

/// Two caches make one set of a set, under either match kind.
pub fn sets_are_one(
    vm: &PikeVM,
    cache: &mut Cache,
    other: &mut Cache,
    input: &Input<'_>,
    patterns: &mut PatternSet,
    others: &mut PatternSet,
)
    requires first { Fits cache.old vm.now.nfa }
    requires second { Fits other.old vm.now.nfa }
    requires same { others.old ≡ patterns.old }
    ensures { patterns.new ≡ others.new }
{
    laws::cache_history_is_invisible();
    vm.which_overlapping_matches(cache, input, patterns);
    vm.which_overlapping_matches(other, input, others);
}

/// What a leftmost first search puts into an empty set.
pub fn first_patterns(vm: &PikeVM, cache: &mut Cache, input: &Input<'_>, patterns: &mut PatternSet)
    requires fits { Fits cache.old vm.now.nfa }
    requires kind { kind_of vm.now ≡ LeftmostFirst }
    requires off { (search_of input.now).earliest ≡ false }
    requires empty { size_of_set patterns.old ≡ 0 }
    ensures { (k : ℕ) → HoldsPattern patterns.new k
        → IsFirstBefore vm.now.nfa (search_of input.now) (length patterns.old) k }
{
    laws::leftmost_sets_are_exact();
    vm.which_overlapping_matches(cache, input, patterns);
}

/// A set that holds a pattern stays as it is under leftmost first.
pub fn set_stays(vm: &PikeVM, cache: &mut Cache, input: &Input<'_>, patterns: &mut PatternSet)
    requires fits { Fits cache.old vm.now.nfa }
    requires kind { kind_of vm.now ≡ LeftmostFirst }
    requires some { 0 < size_of_set patterns.old }
    ensures { patterns.new ≡ patterns.old }
{
    laws::leftmost_sets_are_exact();
    vm.which_overlapping_matches(cache, input, patterns);
}

/// Every pattern that the set holds afterwards it held before, or it is one of an accepting path.
pub fn all_patterns(vm: &PikeVM, cache: &mut Cache, input: &Input<'_>, patterns: &mut PatternSet)
    requires fits { Fits cache.old vm.now.nfa }
    requires kind { kind_of vm.now ≡ All }
    requires off { (search_of input.now).earliest ≡ false }
    ensures { (k : ℕ) → k < length patterns.old
        → IsPatternOf vm.now.nfa (search_of input.now) (IsPermitted vm.now.nfa (search_of input.now)) k
        → HoldsPattern patterns.new k }
{
    laws::overlap_is_complete();
    vm.which_overlapping_matches(cache, input, patterns);
}

/// With room for each pattern the first path that counts is the first of all that may end where they do.
pub fn all_paths_count(vm: &PikeVM, input: &Input<'_>, capacity: usize)
    requires room { length vm.now.nfa.patterns ≤ capacity }
    ensures { (path : Option (List Pair)) → IsSelectedPath vm.now.nfa (search_of input.now) false capacity path
        → IsFirstPath (edges vm.now.nfa (search_of input.now)) (starts vm.now.nfa (search_of input.now))
        (IsPermitted vm.now.nfa (search_of input.now)) path }
{
    laws::room_leaves_no_path_out();
    vm.get_nfa().pattern_len();
}
