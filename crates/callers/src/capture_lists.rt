//! Lists of captures by both engines. Their contracts say what the list is, and, by the laws, that it is the same for
//! other callers.

ghost use Rattle.std.specs.Prelude.{◌≡◌, false, length, map, IfOk};
ghost use Rattle.regex_search_core.specs.Found.{found_of};
ghost use Rattle.regex_search_core.specs.Search.{whole};
ghost use Rattle.regex_search_core.specs.declared.search.MatchKind.TheVariants.{LeftmostFirst};
ghost use Rattle.nfa_engines.specs.WithCaptures.{row_of};
ghost use Rattle.nfa_engines.specs.Lists.{AreAllCaptures, AnswersRow, HasGroups};
ghost use Rattle.nfa_engines.specs.Runs.{match_in};
ghost use Rattle.nfa_engines.specs.Engines.{Fits, kind_of};
ghost use Rattle.nfa_engines.specs.BacktrackFinding.{IsTryCapturesAnswer};

use nfa_engines::backtrack::{self, BoundedBacktracker};
use nfa_engines::error::SearchError;
use nfa_engines::laws::{one_list_of_captures, one_list_of_matches};
use nfa_engines::pikevm::{self, PikeVM};
use nfa_engines::{Captures, Input, Match};
use std::alloc::{AllocError, Global};

/// All captures of the text.
pub fn collected(
    alloc: Global,
    vm: &PikeVM,
    cache: &mut pikevm::Cache,
    text: &[u8],
) -> Result<Vec<Result<Captures, SearchError>>, AllocError>
    requires { Fits cache.old vm.now.nfa }
    ensures { IfOk result
        (λ v. AreAllCaptures (AnswersRow vm.now.nfa (kind_of vm.now) false) (whole text.now) v.items) }
{
    let Ok(items) = vm.captures_iter(alloc, cache, Input::new(text)) else {
        return Err(AllocError);
    };
    items.collect(alloc)
}

/// The same of a backtracker.
pub fn tries_collected(
    alloc: Global,
    engine: &BoundedBacktracker,
    cache: &mut backtrack::Cache,
    text: &[u8],
) -> Result<Vec<Result<Captures, SearchError>>, AllocError>
    ensures { IfOk result (λ v. AreAllCaptures (IsTryCapturesAnswer engine.now) (whole text.now) v.items) }
{
    let Ok(items) = engine.try_captures_iter(alloc, cache, Input::new(text)) else {
        return Err(AllocError);
    };
    items.collect(alloc)
}

/// All captures of the text, searched with captures of the caller.
pub fn collected_with(
    alloc: Global,
    vm: &PikeVM,
    cache: &mut pikevm::Cache,
    captures: Captures,
    text: &[u8],
) -> Result<Vec<Result<Captures, SearchError>>, AllocError>
    requires fits { Fits cache.old vm.now.nfa }
    requires holds { HasGroups vm.now.nfa captures }
    ensures { IfOk result
        (λ v. AreAllCaptures (AnswersRow vm.now.nfa (kind_of vm.now) false) (whole text.now) v.items) }
{
    vm.captures_iter_with(cache, Input::new(text), captures)
        .collect(alloc)
}

/// The same of a backtracker.
pub fn tries_collected_with(
    alloc: Global,
    engine: &BoundedBacktracker,
    cache: &mut backtrack::Cache,
    captures: Captures,
    text: &[u8],
) -> Result<Vec<Result<Captures, SearchError>>, AllocError>
    requires { HasGroups engine.now.nfa captures }
    ensures { IfOk result (λ v. AreAllCaptures (IsTryCapturesAnswer engine.now) (whole text.now) v.items) }
{
    engine
        .try_captures_iter_with(cache, Input::new(text), captures)
        .collect(alloc)
}

/// The captures of one text by both engines, which hold the same.
pub fn caught_by_both(
    alloc: Global,
    engines: (&PikeVM, &BoundedBacktracker),
    cache: &mut pikevm::Cache,
    other: &mut backtrack::Cache,
    text: &[u8],
) -> Result<(Vec<Captures>, Vec<Captures>), SearchError>
    requires fits { Fits cache.old engines.0.now.nfa }
    requires same { engines.0.now.nfa ≡ engines.1.now.nfa }
    requires kind { kind_of engines.0.now ≡ LeftmostFirst }
    ensures { IfOk result (λ both. map row_of both.0.items ≡ map row_of both.1.items) }
{
    let (vm, engine) = engines;
    one_list_of_captures();
    let first = vm.captures_all(alloc, cache, Input::new(text))?;
    let second = engine.try_captures_all(alloc, other, Input::new(text))?;
    Ok((first, second))
}

/// The captures of the text and its matches, by two caches: as many, and each in its place.
pub fn captures_and_matches(
    alloc: Global,
    vm: &PikeVM,
    cache: &mut pikevm::Cache,
    other: &mut pikevm::Cache,
    text: &[u8],
) -> Result<(Vec<Captures>, Vec<Match>), SearchError>
    requires first { Fits cache.old vm.now.nfa }
    requires second { Fits other.old vm.now.nfa }
    ensures same { IfOk result (λ both. map match_in both.0.items ≡ map found_of both.1.items) }
    ensures count { IfOk result (λ both. length both.0.items ≡ length both.1.items) }
{
    one_list_of_matches();
    let captures = vm.captures_all(alloc, cache, Input::new(text))?;
    let matches = vm.find_all(alloc, other, Input::new(text))?;
    Ok((captures, matches))
}
