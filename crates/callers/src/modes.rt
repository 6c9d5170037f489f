//! Callers of the laws on searches of any kind in UTF-8 mode.
ghost use Rattle.std.specs.Prelude.{◌≡◌, ◌==◌, ◌↔◌, ◌<◌, ◌⊎◌, IsUtf8, false, length, slice_index_or, true, ℕ};
ghost use Rattle.std.specs.Prelude.{All as EachIn};
ghost use Rattle.regex_hir.specs.Re.{empty};
ghost use Rattle.nfa_engines.specs.Boundary.{IsBoundary};
ghost use Rattle.nfa_engines.specs.Search.{search_of};
ghost use Rattle.nfa_engines.specs.MatchKind.TheVariants.{All};
ghost use Rattle.nfa_engines.specs.Engines.{Fits, kind_of};
ghost use Rattle.nfa_engines.specs.Overlaps.{HoldsPattern};
ghost use Rattle.nfa_compiler.specs.Compiled.{IsNfaOf, res_of};
ghost use Rattle.nfa_compiler.specs.Written.{MatchesCharacters, MatchesSomewhere, PatternMatches};

use nfa_compiler::{Parsed, laws};
use nfa_engines::pikevm::{Cache, PikeVM};
use nfa_engines::{Input, PatternSet};

/// Returns whether a search finds something, by a PikeVM of any kind. What it finds shows that some pattern matches.
pub fn finds_something(vm: &PikeVM, cache: &mut Cache, trees: &[Parsed], input: Input<'_>) -> bool
    requires fits { Fits cache.old vm.now.nfa }
    requires made { IsNfaOf (res_of trees.now) vm.now.nfa }
    requires whole { (search_of input).end ≡ length (search_of input).haystack }
    ensures { result ≡ true → MatchesSomewhere (res_of trees.now) false (search_of input.entry) }
{
    laws::searches_find_only_matches();
    vm.is_match(cache, input)
}

/// Returns whether some pattern matches somewhere in the haystack, which is ASCII.
pub fn matches_in_ascii(vm: &PikeVM, cache: &mut Cache, trees: &[Parsed], input: Input<'_>) -> bool
    requires fits { Fits cache.old vm.now.nfa }
    requires made { IsNfaOf (res_of trees.now) vm.now.nfa }
    requires ascii { EachIn (λ b. b < 128) (search_of input).haystack }
    requires whole { (search_of input).end ≡ length (search_of input).haystack }
    ensures { (result ≡ true) ↔ MatchesSomewhere (res_of trees.now) (vm.now.nfa.anchored == vm.now.nfa.unanchored)
        (search_of input.entry) }
{
    laws::ascii_searches_find_if_patterns_match();
    vm.is_match(cache, input)
}

/// Puts patterns into the set that match in the haystack, and no other.
///
/// - In a `str`: each that matches whole characters from a boundary and for which the set has room.
/// - In ASCII: each that matches and for which the set has room.
///
/// Requires a PikeVM that searches under `All`, and is not `earliest`.
pub fn patterns_in_text(
    vm: &PikeVM,
    cache: &mut Cache,
    trees: &[Parsed],
    input: &Input<'_>,
    patterns: &mut PatternSet,
)
    requires fits { Fits cache.old vm.now.nfa }
    requires made { IsNfaOf (res_of trees.now) vm.now.nfa }
    requires kind { kind_of vm.now ≡ All }
    requires off { (search_of input.now).earliest ≡ false }
    requires whole { (search_of input.now).end ≡ length (search_of input.now).haystack }
    ensures only { (k : ℕ) → HoldsPattern patterns.new k → HoldsPattern patterns.old k ⊎ ((k < length patterns.old)
        × PatternMatches (res_of trees.now) (vm.now.nfa.anchored == vm.now.nfa.unanchored) (search_of input.now) k) }
    ensures each { IsUtf8 (search_of input.now).haystack
        → (k : ℕ) → k < length patterns.old → MatchesCharacters (slice_index_or (res_of trees.now) k empty)
        → (m : PatternMatches (res_of trees.now) (vm.now.nfa.anchored == vm.now.nfa.unanchored) (search_of input.now) k)
        → IsBoundary (search_of input.now).haystack m.start → HoldsPattern patterns.new k }
    ensures ascii { EachIn (λ b. b < 128) (search_of input.now).haystack
        → (k : ℕ) → HoldsPattern patterns.new k ↔ (HoldsPattern patterns.old k ⊎ ((k < length patterns.old)
        × PatternMatches (res_of trees.now) (vm.now.nfa.anchored == vm.now.nfa.unanchored) (search_of input.now) k)) }
{
    laws::searches_find_only_matches();
    laws::ascii_searches_find_if_patterns_match();
    vm.which_overlapping_matches(cache, input, patterns);
}
