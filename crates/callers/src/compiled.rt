//! Callers of the laws on compiled NFAs: what the answers of calls say of the patterns.
ghost use Rattle.std.specs.Prelude.{◌≡◌, ◌==◌, ◌↔◌, ◌<◌, ◌≤◌, ◌⊎◌, ◌∷◌, [], IfOk, IfSome, List, Option, drop, false};
ghost use Rattle.std.specs.Prelude.{length, map, option_map, replicate, true, ℕ};
ghost use Rattle.regex_hir.specs.Looks.{holds};
ghost use Rattle.regex_hir.specs.declared.look.Look as theirs;
ghost use Rattle.nfa_engines.specs.Found.{found_of};
ghost use Rattle.nfa_engines.specs.Search.{is_anchored, search_of};
ghost use Rattle.nfa_engines.specs.MatchKind.TheVariants.{All};
ghost use Rattle.nfa_engines.specs.Laws.{MatchesNothing, PathsWriteTheirEnds};
ghost use Rattle.nfa_engines.specs.Engines.{Fits, kind_of};
ghost use Rattle.nfa_engines.specs.Graphs.{Pair};
ghost use Rattle.nfa_engines.specs.Overlaps.{HoldsPattern};
ghost use Rattle.nfa_engines.specs.Paths.{IsFindAnswer, IsSearchAnswer, is_utf8_empty, raised};
ghost use Rattle.nfa_facts.specs.MatchSpanLaws.{AreOneMatch};
ghost use Rattle.nfa_compiler.specs.Blocks.{look_of};
ghost use Rattle.nfa_compiler.specs.Compiled.{AreNamed, IsCompiled, IsNfaOf, res_of};
ghost use Rattle.nfa_compiler.specs.Written.{MatchesSomewhere, PatternMatches, syntax_of};

use anyhow::Result;
use nfa_compiler::{Compiler, Parsed, laws};
use nfa_engines::pikevm::{Cache, PikeVM};
use nfa_engines::{Input, Look, Match, MatchKind, NFA, PatternSet, look_matches};
use nfa_facts::match_spans::laws::{
    anchored_matches_start_the_span, match_spans_are_written, matches_are_of_paths,
    no_match_is_missed, pikevm_nfa_is_valid,
};
use std::alloc::Global;

/// Puts into the set the patterns that match somewhere in the haystack: under `All` and not `earliest`, those for which
/// it has room, and no other.
///
/// Requires a PikeVM whose NFA was compiled from these trees.
pub fn patterns_that_match(
    vm: &PikeVM,
    cache: &mut Cache,
    trees: &[Parsed],
    input: &Input<'_>,
    patterns: &mut PatternSet,
)
    requires fits { Fits cache.old vm.now.nfa }
    requires made { IsNfaOf (res_of trees.now) vm.now.nfa }
    requires anywhere { is_utf8_empty vm.now.nfa ≡ false }
    requires kind { kind_of vm.now ≡ All }
    requires off { (search_of input.now).earliest ≡ false }
    requires whole { (search_of input.now).end ≡ length (search_of input.now).haystack }
    ensures { (k : ℕ) → HoldsPattern patterns.new k ↔ (HoldsPattern patterns.old k ⊎ ((k < length patterns.old)
        × PatternMatches (res_of trees.now) (vm.now.nfa.anchored == vm.now.nfa.unanchored) (search_of input.now) k)) }
{
    laws::sets_hold_patterns_that_match();
    vm.which_overlapping_matches(cache, input, patterns);
}

/// Returns whether some pattern matches somewhere in the haystack. Neither the match kind nor `earliest` matters.
///
/// Requires a PikeVM whose NFA was compiled from these trees.
pub fn matches_somewhere(vm: &PikeVM, cache: &mut Cache, trees: &[Parsed], input: Input<'_>) -> bool
    requires fits { Fits cache.old vm.now.nfa }
    requires made { IsNfaOf (res_of trees.now) vm.now.nfa }
    requires anywhere { is_utf8_empty vm.now.nfa ≡ false }
    requires whole { (search_of input).end ≡ length (search_of input).haystack }
    ensures { (result ≡ true) ↔ MatchesSomewhere (res_of trees.now) (vm.now.nfa.anchored == vm.now.nfa.unanchored)
        (search_of input.entry) }
{
    laws::searches_find_if_patterns_match();
    vm.is_match(cache, input)
}

/// Compiles the trees, and returns whether some of them matches somewhere in the haystack, with the PikeVM.
///
/// Requires a compiler that is not in UTF-8 mode.
pub fn compile_and_match(
    alloc: Global,
    compiler: &Compiler,
    trees: &[Parsed],
    input: Input<'_>,
) -> Result<(PikeVM, bool)>
    requires bytes { compiler.now.config.utf8 ≡ false }
    requires whole { (search_of input).end ≡ length (search_of input).haystack }
    ensures { IfOk result (λ p. (p.1 ≡ true) ↔ MatchesSomewhere (res_of trees.now)
        (p.0.nfa.anchored == p.0.nfa.unanchored) (search_of input.entry)) }
{
    let vm = PikeVM::new_from_nfa(compiler.build_many_from_hir(alloc, trees)?)?;
    let mut cache = vm.create_cache(alloc)?;
    let found = matches_somewhere(&vm, &mut cache, trees, input);
    Ok((vm, found))
}

/// Returns the NFA of the patterns. Its groups have the names that the grammar reads in the texts.
pub fn named_groups(alloc: Global, compiler: &Compiler, patterns: &[&str]) -> Result<NFA>
    ensures { IfOk result (λ nfa. (names : List (List (Option (List ℕ))))
        → AreNamed (syntax_of compiler.now) (map (λ text. text.now) patterns.now) names
        → nfa.groups ≡ map (drop 1) names) }
{
    laws::groups_are_those_of_texts();
    let nfa = compiler.build_many(alloc, patterns)?;
    Ok(nfa)
}

// The match of an anchored search starts where the span starts, if the NFA was compiled from the text.
fn starts_the_span(
    compiler: &Compiler,
    pattern: &str,
    vm: &PikeVM,
    input: Input<'_>,
    found: Option<Match>,
)
    requires compiled { IsCompiled (syntax_of compiler.now) (pattern.now ∷ []) vm.now.nfa }
    requires anchored { is_anchored (search_of input).anchored ≡ true }
    requires answer { IsFindAnswer vm.now.nfa (kind_of vm.now) (search_of input).earliest (search_of input)
        (option_map found_of found) }
    ensures { IfSome found (λ m. (found_of m).start ≡ (search_of input.entry).start) }
{
    laws::compiled_nfas_record_bounds();
    anchored_matches_start_the_span();
    pikevm_nfa_is_valid(vm);
}

/// Returns the match of the pattern at the start of the span. A compiled NFA records where a match starts, so the match
/// starts there.
///
/// Requires an anchored input.
pub fn find_at_start(
    alloc: Global,
    compiler: &Compiler,
    pattern: &str,
    input: Input<'_>,
) -> Result<Option<Match>>
    requires { is_anchored (search_of input).anchored ≡ true }
    ensures { IfOk result (λ found. IfSome found (λ m. (found_of m).start ≡ (search_of input.entry).start)) }
{
    let vm = PikeVM::new_from_nfa(compiler.build(alloc, pattern)?)?;
    let mut cache = vm.create_cache(alloc)?;
    let found = vm.find(&mut cache, input);
    starts_the_span(compiler, pattern, &vm, input, found);
    Ok(found)
}

// Whether there is no match, by an NFA that was compiled from the text.
fn has_no_match(
    compiler: &Compiler,
    pattern: &str,
    vm: &PikeVM,
    cache: &mut Cache,
    input: Input<'_>,
) -> bool
    requires fits { Fits cache.old vm.now.nfa }
    requires compiled { IsCompiled (syntax_of compiler.now) (pattern.now ∷ []) vm.now.nfa }
    requires anywhere { is_utf8_empty vm.now.nfa ≡ false }
    ensures { result ≡ true → MatchesNothing vm.now.nfa (search_of input.entry) }
{
    laws::compiled_nfas_record_bounds();
    no_match_is_missed();
    pikevm_nfa_is_valid(vm);
    match vm.find(cache, input) {
        None => true,
        Some(_) => false,
    }
}

/// Returns a PikeVM of the pattern if there is no match: then there is no accepting path. Returns `None` if there is a
/// match.
///
/// Requires a compiler that is not in UTF-8 mode.
pub fn surely_matches_nothing(
    alloc: Global,
    compiler: &Compiler,
    pattern: &str,
    input: Input<'_>,
) -> Result<Option<PikeVM>>
    requires { compiler.now.config.utf8 ≡ false }
    ensures { IfOk result (λ sure. IfSome sure (λ vm. MatchesNothing vm.nfa (search_of input.entry))) }
{
    let vm = PikeVM::new_from_nfa(compiler.build(alloc, pattern)?)?;
    let mut cache = vm.create_cache(alloc)?;
    if has_no_match(compiler, pattern, &vm, &mut cache, input) {
        Ok(Some(vm))
    } else {
        Ok(None)
    }
}

/// Each accepting path of a compiled NFA writes its ends: a premise of `nfa_engines::laws::no_gap`.
pub fn paths_write_their_ends(compiler: &Compiler, pattern: &str, vm: &PikeVM, input: &Input<'_>)
    requires { IsCompiled (syntax_of compiler.now) (pattern.now ∷ []) vm.now.nfa }
    ensures { PathsWriteTheirEnds vm.now.nfa (search_of input.now) }
{
    laws::compiled_nfas_record_bounds();
    match_spans_are_written();
}

/// Returns the match of a search. It is the match of the path that the search answers.
pub fn match_of_the_path(
    compiler: &Compiler,
    pattern: &str,
    vm: &PikeVM,
    cache: &mut Cache,
    input: Input<'_>,
) -> Option<Match>
    requires fits { Fits cache.old vm.now.nfa }
    requires compiled { IsCompiled (syntax_of compiler.now) (pattern.now ∷ []) vm.now.nfa }
    ensures { let x = search_of input.entry in (restarts : ℕ) (path : Option (List Pair))
        → IsSearchAnswer vm.now.nfa (kind_of vm.now) x.earliest x restarts path
        → AreOneMatch vm.now.nfa (raised x restarts) path (option_map found_of result) }
{
    laws::compiled_nfas_record_bounds();
    matches_are_of_paths();
    pikevm_nfa_is_valid(vm);
    vm.find(cache, input)
}

/// Returns whether the assertion of an NFA holds at the position: whether each assertion of a pattern holds that is
/// compiled to it.
pub fn assertion_holds(look: Look, haystack: &[u8], at: usize) -> bool
    requires { at ≤ length haystack.now }
    ensures { (l : theirs.Look) → look_of l ≡ look → result ≡ holds l haystack.now at }
{
    laws::assertions_agree();
    look_matches(look, haystack, at)
}

/// Compiles the trees, and returns the set of those that match somewhere in the haystack, with the PikeVM that found
/// them.
///
/// Requires a compiler that is not in UTF-8 mode.
pub fn compile_and_collect(
    alloc: Global,
    compiler: &Compiler,
    trees: &[Parsed],
    input: &Input<'_>,
) -> Result<(PikeVM, PatternSet)>
    requires bytes { compiler.now.config.utf8 ≡ false }
    requires off { (search_of input.now).earliest ≡ false }
    requires whole { (search_of input.now).end ≡ length (search_of input.now).haystack }
    ensures { IfOk result (λ p. (k : ℕ) → HoldsPattern p.1 k ↔ (HoldsPattern (replicate (length trees.now) false) k
        ⊎ ((k < length (replicate (length trees.now) false)) × PatternMatches (res_of trees.now)
        (p.0.nfa.anchored == p.0.nfa.unanchored) (search_of input.now) k))) }
{
    let config = PikeVM::config().match_kind(MatchKind::All);
    let nfa = compiler.build_many_from_hir(alloc, trees)?;
    let vm = PikeVM::builder().configure(config).build_from_nfa(nfa)?;
    let mut cache = vm.create_cache(alloc)?;
    let mut patterns = PatternSet::new(alloc, trees.len())?;
    patterns_that_match(&vm, &mut cache, trees, input, &mut patterns);
    Ok((vm, patterns))
}
