//! Callers of the laws on the hits of compiled NFAs: a bounded backtracker finds what the reference matcher finds for
//! the patterns. Each one requires an NFA that a compiler returned for these patterns.
ghost use Rattle.std.specs.Prelude.{◌≡◌, ◌∷◌, [], IfOk, IsUtf8, List, false, length, map, option_map, true};
ghost use Rattle.regex_hir.specs.Find.{find, find_all, find_str};
ghost use Rattle.regex_hir.specs.Meaning.{meaning};
ghost use Rattle.regex_hir.specs.Re.{Re};
ghost use Rattle.nfa_engines.specs.Found.{found_of};
ghost use Rattle.nfa_engines.specs.Search.{search_of, whole};
ghost use Rattle.nfa_engines.specs.Anchored.TheVariants.{No};
ghost use Rattle.regex_syntax.specs.WellFormed.{IsWellFormed};
ghost use Rattle.nfa_engines.specs.WithCaptures.{row_of};
ghost use Rattle.nfa_engines.specs.Paths.{is_utf8_empty};
ghost use Rattle.nfa_compiler.specs.Compiled.{AreMeant, FindsFromAnyStart, IsCompiled, IsMeant, IsNfaOf, res_of};
ghost use Rattle.nfa_compiler.specs.Patterns.{StartsOnBoundary, all_boundary_hits, all_hits, all_str_hits};
ghost use Rattle.nfa_compiler.specs.Patterns.{boundary_hit, found_at, found_of_hit, hit, hit_by, row_of_hit, str_hit};
ghost use Rattle.nfa_compiler.specs.Written.{syntax_of};

use nfa_compiler::{Compiler, Parsed, laws};
use nfa_engines::backtrack::{BoundedBacktracker, Cache};
use nfa_engines::error::SearchError;
use nfa_engines::{Captures, Input, Match};
use std::alloc::Global;

/// Returns the match of the patterns: that of their first hit.
pub fn find_hit(
    engine: &BoundedBacktracker,
    cache: &mut Cache,
    trees: &[Parsed],
    input: Input<'_>,
) -> Result<Option<Match>, SearchError>
    requires made { IsNfaOf (res_of trees.now) engine.now.nfa }
    requires anywhere { is_utf8_empty engine.now.nfa ≡ false }
    requires whole { (search_of input).end ≡ length (search_of input).haystack }
    ensures { IfOk result (λ found. option_map found_of found
        ≡ found_of_hit (hit (res_of trees.now) engine.now.nfa (search_of input.entry))) }
{
    laws::searches_find_hits();
    let found = engine.try_find(cache, input)?;
    Ok(found)
}

/// Returns the match of one pattern: the one that `find` of `regex_hir` gives.
pub fn find_one(
    engine: &BoundedBacktracker,
    cache: &mut Cache,
    tree: &Parsed,
    input: Input<'_>,
) -> Result<Option<Match>, SearchError>
    requires made { IsNfaOf (meaning tree.now.hir ∷ []) engine.now.nfa }
    requires anywhere { is_utf8_empty engine.now.nfa ≡ false }
    requires free { FindsFromAnyStart engine.now.nfa }
    requires unanchored { (search_of input).anchored ≡ No }
    requires whole { (search_of input).end ≡ length (search_of input).haystack }
    ensures { let x = search_of input.entry in IfOk result (λ found. option_map found_of found
        ≡ found_of_hit (option_map (hit_by 0) (find (meaning tree.now.hir) x.haystack x.start))) }
{
    laws::searches_find_hits();
    laws::no_hit_is_lost();
    laws::one_hit_is_find();
    let found = engine.try_find(cache, input)?;
    Ok(found)
}

/// Returns all matches of one pattern: those that `find_all` of `regex_hir` gives.
pub fn find_all_of_one(
    alloc: Global,
    engine: &BoundedBacktracker,
    cache: &mut Cache,
    tree: &Parsed,
    input: Input<'_>,
) -> Result<Vec<Match>, SearchError>
    requires made { IsNfaOf (meaning tree.now.hir ∷ []) engine.now.nfa }
    requires anywhere { is_utf8_empty engine.now.nfa ≡ false }
    requires free { FindsFromAnyStart engine.now.nfa }
    requires unanchored { (search_of input).anchored ≡ No }
    requires start { (search_of input).start ≡ 0 }
    requires whole { (search_of input).end ≡ length (search_of input).haystack }
    ensures { IfOk result (λ found. map found_of found.items
        ≡ map found_at (map (hit_by 0) (find_all (meaning tree.now.hir) (search_of input.entry).haystack))) }
{
    laws::iterations_find_all_hits();
    laws::no_hit_is_lost();
    laws::all_hits_are_find_all();
    let found = engine.try_find_all(alloc, cache, input)?;
    Ok(found)
}

/// Returns the captures of all hits of the patterns, from left to right.
pub fn capture_hits(
    alloc: Global,
    engine: &BoundedBacktracker,
    cache: &mut Cache,
    trees: &[Parsed],
    input: Input<'_>,
) -> Result<Vec<Captures>, SearchError>
    requires made { IsNfaOf (res_of trees.now) engine.now.nfa }
    requires anywhere { is_utf8_empty engine.now.nfa ≡ false }
    requires whole { (search_of input).end ≡ length (search_of input).haystack }
    ensures { IfOk result (λ rows. map row_of rows.items
        ≡ map (row_of_hit engine.now.nfa) (all_hits (res_of trees.now) engine.now.nfa (search_of input.entry))) }
{
    laws::iterations_find_all_hits();
    let rows = engine.try_captures_all(alloc, cache, input)?;
    Ok(rows)
}

/// Returns the match of the patterns in a `str`, by an NFA in UTF-8 mode: that of the first hit on a boundary of what
/// the grammar reads in their texts.
pub fn find_hit_in_str(
    compiler: &Compiler,
    patterns: &[&str],
    engine: &BoundedBacktracker,
    cache: &mut Cache,
    input: Input<'_>,
) -> Result<Option<Match>, SearchError>
    requires compiled { IsCompiled (syntax_of compiler.now) (map (λ text. text.now) patterns.now) engine.now.nfa }
    requires utf8 { engine.now.nfa.utf8 ≡ true }
    requires text { IsUtf8 (search_of input).haystack }
    requires start { StartsOnBoundary engine.now.nfa (search_of input) }
    requires whole { (search_of input).end ≡ length (search_of input).haystack }
    ensures { IfOk result (λ found. (res : List Re)
        → AreMeant (syntax_of compiler.now) (map (λ text. text.now) patterns.now) res
        → option_map found_of found ≡ found_of_hit (str_hit res engine.now.nfa (search_of input.entry))) }
{
    laws::searches_of_strs_find_texts();
    let found = engine.try_find(cache, input)?;
    Ok(found)
}

/// Returns the captures of all hits in a `str`, by an NFA in UTF-8 mode.
pub fn capture_hits_in_str(
    compiler: &Compiler,
    patterns: &[&str],
    alloc: Global,
    engine: &BoundedBacktracker,
    cache: &mut Cache,
    input: Input<'_>,
) -> Result<Vec<Captures>, SearchError>
    requires compiled { IsCompiled (syntax_of compiler.now) (map (λ text. text.now) patterns.now) engine.now.nfa }
    requires utf8 { engine.now.nfa.utf8 ≡ true }
    requires free { FindsFromAnyStart engine.now.nfa }
    requires text { IsUtf8 (search_of input).haystack }
    requires whole { (search_of input).end ≡ length (search_of input).haystack }
    ensures { IfOk result (λ rows. (res : List Re)
        → AreMeant (syntax_of compiler.now) (map (λ text. text.now) patterns.now) res
        → map row_of rows.items ≡ map (row_of_hit engine.now.nfa)
        (all_str_hits res engine.now.nfa (search_of input.entry))) }
{
    laws::iterations_of_strs_find_texts();
    let rows = engine.try_captures_all(alloc, cache, input)?;
    Ok(rows)
}

/// Returns the match of patterns that may match the empty string, by an NFA in UTF-8 mode: that of the first hit that
/// ends on a boundary.
pub fn find_boundary_hit(
    engine: &BoundedBacktracker,
    cache: &mut Cache,
    trees: &[Parsed],
    input: Input<'_>,
) -> Result<Option<Match>, SearchError>
    requires made { IsNfaOf (res_of trees.now) engine.now.nfa }
    requires empty { is_utf8_empty engine.now.nfa ≡ true }
    requires whole { (search_of input).end ≡ length (search_of input).haystack }
    ensures { IfOk result (λ found. option_map found_of found
        ≡ found_of_hit (boundary_hit (res_of trees.now) engine.now.nfa (search_of input.entry))) }
{
    laws::searches_find_boundary_hits();
    let found = engine.try_find(cache, input)?;
    Ok(found)
}

/// Returns all these matches, from left to right.
pub fn find_all_boundary_hits(
    alloc: Global,
    engine: &BoundedBacktracker,
    cache: &mut Cache,
    trees: &[Parsed],
    input: Input<'_>,
) -> Result<Vec<Match>, SearchError>
    requires made { IsNfaOf (res_of trees.now) engine.now.nfa }
    requires empty { is_utf8_empty engine.now.nfa ≡ true }
    requires whole { (search_of input).end ≡ length (search_of input).haystack }
    ensures { IfOk result (λ found. map found_of found.items
        ≡ map found_at (all_boundary_hits (res_of trees.now) engine.now.nfa (search_of input.entry))) }
{
    laws::iterations_find_boundary_hits();
    let found = engine.try_find_all(alloc, cache, input)?;
    Ok(found)
}

/// Returns the match of the patterns in the line: that of the first hit of what the grammar reads in their texts.
pub fn find_hit_of_texts(
    compiler: &Compiler,
    patterns: &[&str],
    engine: &BoundedBacktracker,
    cache: &mut Cache,
    line: &[u8],
) -> Result<Option<Match>, SearchError>
    requires compiled { IsCompiled (syntax_of compiler.now) (map (λ text. text.now) patterns.now) engine.now.nfa }
    requires anywhere { is_utf8_empty engine.now.nfa ≡ false }
    ensures { IfOk result (λ found. (res : List Re)
        → AreMeant (syntax_of compiler.now) (map (λ text. text.now) patterns.now) res
        → option_map found_of found ≡ found_of_hit (hit res engine.now.nfa (whole line.now))) }
{
    laws::searches_find_texts();
    let found = engine.try_find(cache, Input::new(line))?;
    Ok(found)
}

/// Returns the captures of all these hits, from left to right.
pub fn capture_hits_of_texts(
    compiler: &Compiler,
    patterns: &[&str],
    alloc: Global,
    engine: &BoundedBacktracker,
    cache: &mut Cache,
    line: &[u8],
) -> Result<Vec<Captures>, SearchError>
    requires compiled { IsCompiled (syntax_of compiler.now) (map (λ text. text.now) patterns.now) engine.now.nfa }
    requires anywhere { is_utf8_empty engine.now.nfa ≡ false }
    ensures { IfOk result (λ rows. (res : List Re)
        → AreMeant (syntax_of compiler.now) (map (λ text. text.now) patterns.now) res
        → map row_of rows.items ≡ map (row_of_hit engine.now.nfa) (all_hits res engine.now.nfa (whole line.now))) }
{
    laws::iterations_find_texts();
    let rows = engine.try_captures_all(alloc, cache, Input::new(line))?;
    Ok(rows)
}

/// Compiles the patterns, and returns the captures of all hits in the line, with the backtracker that found them.
///
/// Requires a compiler that is not in UTF-8 mode.
pub fn compile_and_capture(
    alloc: Global,
    compiler: &Compiler,
    patterns: &[&str],
    line: &[u8],
) -> anyhow::Result<(BoundedBacktracker, Vec<Captures>)>
    requires { compiler.now.config.utf8 ≡ false }
    ensures { IfOk result (λ p. (res : List Re)
        → AreMeant (syntax_of compiler.now) (map (λ text. text.now) patterns.now) res
        → map row_of p.1.items ≡ map (row_of_hit p.0.nfa) (all_hits res p.0.nfa (whole line.now))) }
{
    let engine = BoundedBacktracker::new_from_nfa(compiler.build_many(alloc, patterns)?)?;
    let mut cache = engine.create_cache(alloc);
    let rows = capture_hits_of_texts(compiler, patterns, alloc, &engine, &mut cache, line)?;
    Ok((engine, rows))
}

/// Returns the match of one pattern in a `str`, by an NFA in UTF-8 mode: the one that `find_str` of `regex_hir` gives.
pub fn find_one_in_str(
    compiler: &Compiler,
    pattern: &str,
    engine: &BoundedBacktracker,
    cache: &mut Cache,
    input: Input<'_>,
) -> Result<Option<Match>, SearchError>
    requires compiled { IsCompiled (syntax_of compiler.now) (pattern.now ∷ []) engine.now.nfa }
    requires utf8 { engine.now.nfa.utf8 ≡ true }
    requires text { IsUtf8 (search_of input).haystack }
    requires free { FindsFromAnyStart engine.now.nfa }
    requires start { StartsOnBoundary engine.now.nfa (search_of input) }
    requires unanchored { (search_of input).anchored ≡ No }
    requires whole { (search_of input).end ≡ length (search_of input).haystack }
    ensures { let x = search_of input.entry in IfOk result (λ found. (re : Re)
        → IsMeant (syntax_of compiler.now) pattern.now re
        → option_map found_of found ≡ found_of_hit (option_map (hit_by 0) (find_str re x.haystack x.start))) }
{
    laws::searches_of_strs_find_texts();
    laws::no_hit_is_lost();
    laws::str_hits_are_find_str();
    let found = engine.try_find(cache, input)?;
    Ok(found)
}

/// Returns the match of one pattern that may match the empty string, in a `str`: that of the first hit on a boundary.
///
/// Requires a tree that was parsed in UTF-8 mode.
pub fn find_tree_in_str(
    engine: &BoundedBacktracker,
    cache: &mut Cache,
    tree: &Parsed,
    input: Input<'_>,
) -> Result<Option<Match>, SearchError>
    requires made { IsNfaOf (meaning tree.now.hir ∷ []) engine.now.nfa }
    requires formed { IsWellFormed true tree.now.hir }
    requires empty { is_utf8_empty engine.now.nfa ≡ true }
    requires text { IsUtf8 (search_of input).haystack }
    requires start { StartsOnBoundary engine.now.nfa (search_of input) }
    requires whole { (search_of input).end ≡ length (search_of input).haystack }
    ensures { IfOk result (λ found. option_map found_of found
        ≡ found_of_hit (str_hit (meaning tree.now.hir ∷ []) engine.now.nfa (search_of input.entry))) }
{
    laws::searches_find_boundary_hits();
    laws::trees_match_characters();
    laws::boundary_hits_are_str_hits();
    let found = engine.try_find(cache, input)?;
    Ok(found)
}
