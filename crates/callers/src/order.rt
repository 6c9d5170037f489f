//! Callers of the laws on the order of the patterns of a compiled NFA.
ghost use Rattle.std.specs.Prelude.{◌≡◌, ◌↔◌, false, map, option_map, IfOk, Some, ℕ};
ghost use Rattle.nfa_engines.specs.Found.{Found, found_of};
ghost use Rattle.nfa_engines.specs.Search.{search_of};
ghost use Rattle.nfa_engines.specs.Anchored.TheVariants.{Yes};
ghost use Rattle.nfa_engines.specs.MatchKind.TheVariants.{LeftmostFirst};
ghost use Rattle.nfa_engines.specs.Engines.{Fits, kind_of};
ghost use Rattle.nfa_engines.specs.Paths.{is_utf8_empty};
ghost use Rattle.nfa_engines.specs.StartLaws.{IsFirstThatMatches, TriesPatternsInOrder};
ghost use Rattle.nfa_compiler.specs.Compiled.{IsCompiled};
ghost use Rattle.nfa_compiler.specs.Written.{syntax_of};

use anyhow::Result;
use nfa_compiler::{Compiler, laws};
use nfa_engines::laws::first_pattern_is_found;
use nfa_engines::pikevm::{Cache, PikeVM};
use nfa_engines::{Anchored, Input, Match};
use nfa_facts::match_spans::laws::{match_spans_are_written, pikevm_nfa_is_valid};
use std::alloc::Global;

/// An NFA that was compiled from texts tries their patterns in order: a premise of `places::first_of_patterns`.
pub fn texts_are_tried_in_order(
    compiler: &Compiler,
    patterns: &[&str],
    vm: &PikeVM,
    input: &Input<'_>,
)
    requires { IsCompiled (syntax_of compiler.now) (map (λ text. text.now) patterns.now) vm.now.nfa }
    ensures { TriesPatternsInOrder vm.now.nfa (record (search_of input.now) { anchored = Yes }) }
{
    laws::compiled_nfas_try_patterns_in_order();
}

/// Returns the match of an anchored search. It is of the first pattern, in their order, that matches by itself.
///
/// Requires a PikeVM whose NFA was compiled from these texts.
pub fn first_match_of_texts(
    compiler: &Compiler,
    patterns: &[&str],
    vm: &PikeVM,
    cache: &mut Cache,
    input: Input<'_>,
) -> Option<Match>
    requires fits { Fits cache.old vm.now.nfa }
    requires kind { kind_of vm.now ≡ LeftmostFirst }
    requires off { (search_of input).earliest ≡ false }
    requires compiled { IsCompiled (syntax_of compiler.now) (map (λ text. text.now) patterns.now) vm.now.nfa }
    requires anywhere { is_utf8_empty vm.now.nfa ≡ false }
    ensures { (k : ℕ) → (option_map (λ (m : Found). m.pattern) (option_map found_of result) ≡ Some k)
        ↔ IsFirstThatMatches vm.now.nfa (record (search_of input.entry) { anchored = Yes }) k }
{
    laws::compiled_nfas_try_patterns_in_order();
    laws::compiled_nfas_record_bounds();
    match_spans_are_written();
    pikevm_nfa_is_valid(vm);
    first_pattern_is_found();
    let anchored = input.anchored(Anchored::Yes);
    vm.find(cache, anchored)
}

/// Compiles the texts, and returns the match at the start of the span, with the PikeVM that found it. The match is of
/// the first pattern, in their order, that matches there by itself.
///
/// Requires a compiler that is not in UTF-8 mode.
pub fn compile_and_find_first(
    alloc: Global,
    compiler: &Compiler,
    patterns: &[&str],
    input: Input<'_>,
) -> Result<(PikeVM, Option<Match>)>
    requires bytes { compiler.now.config.utf8 ≡ false }
    requires off { (search_of input).earliest ≡ false }
    ensures compiled { IfOk result (λ p. IsCompiled (syntax_of compiler.now) (map (λ text. text.now) patterns.now)
        p.0.nfa) }
    ensures first { IfOk result (λ p. (k : ℕ)
        → (option_map (λ (m : Found). m.pattern) (option_map found_of p.1) ≡ Some k)
        ↔ IsFirstThatMatches p.0.nfa (record (search_of input.entry) { anchored = Yes }) k) }
{
    let vm = PikeVM::new_from_nfa(compiler.build_many(alloc, patterns)?)?;
    let mut cache = vm.create_cache(alloc)?;
    let found = first_match_of_texts(compiler, patterns, &vm, &mut cache, input);
    Ok((vm, found))
}
