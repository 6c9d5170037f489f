//! Lists of matches by each engine.

ghost use Rattle.std.specs.Prelude.{false, ◌≡◌, List, All, IfOk, IfSome, length, map, [], ◌∷◌};
ghost use Rattle.regex_search_core.specs.Found.{Found, found_of};
ghost use Rattle.regex_search_core.specs.Search.{whole};
ghost use Rattle.nfa_engines.specs.Engines.{Fits, kind_of};
ghost use Rattle.nfa_engines.specs.Lists.{AreMatches, AreFirstMatches, IsInside};
ghost use Rattle.nfa_engines.specs.BacktrackRuns.{AreAllItems};

use nfa_engines::backtrack::{self, BoundedBacktracker};
use nfa_engines::error::SearchError;
use nfa_engines::pikevm::{Cache, PikeVM};
use nfa_engines::{Input, Match};
use std::alloc::{AllocError, Global};

/// All matches in a text, by `collect`, which lie in it.
pub fn collected(
    alloc: Global,
    vm: &PikeVM,
    cache: &mut Cache,
    text: &[u8],
) -> Result<Vec<Match>, AllocError>
    requires { Fits cache.old vm.now.nfa }
    ensures all { IfOk result
        (λ v. AreMatches vm.now.nfa (kind_of vm.now) false (whole text.now) (map found_of v.items)) }
    ensures inside { IfOk result (λ v. All (λ m. IsInside (whole text.now) (found_of m)) v.items) }
{
    vm.find_iter(cache, Input::new(text)).collect(alloc)
}

/// How many matches there are, by `count`.
pub fn how_many(vm: &PikeVM, cache: &mut Cache, text: &[u8]) -> usize
    requires { Fits cache.old vm.now.nfa }
    ensures { (all : List Found) → AreMatches vm.now.nfa (kind_of vm.now) false (whole text.now) all
        → result ≡ length all }
{
    vm.find_iter(cache, Input::new(text)).count()
}

/// The first match, by `next`.
pub fn first_alone(vm: &PikeVM, cache: &mut Cache, text: &[u8]) -> Option<Match>
    requires { Fits cache.old vm.now.nfa }
    ensures { IfSome result
        (λ m. AreFirstMatches vm.now.nfa (kind_of vm.now) false (whole text.now) (found_of m ∷ [])) }
{
    let mut items = vm.find_iter(cache, Input::new(text));
    items.next()
}

/// All items of an engine, by `collect`.
pub fn tries_collected(
    alloc: Global,
    engine: &BoundedBacktracker,
    cache: &mut backtrack::Cache,
    text: &[u8],
) -> Result<Vec<Result<Match, SearchError>>, AllocError>
    ensures all { IfOk result (λ v. AreAllItems engine.now (whole text.now) v.items) }
    ensures inside { IfOk result (λ v. All (λ item. IfOk item (λ m. IsInside (whole text.now) (found_of m))) v.items) }
{
    engine.try_find_iter(cache, Input::new(text)).collect(alloc)
}

/// The number of bytes in all matches, by a loop that slices the text at each match.
pub fn matched_len(
    engine: &BoundedBacktracker,
    cache: &mut backtrack::Cache,
    text: &[u8],
) -> Result<usize, SearchError> {
    let mut len = 0usize;
    for item in engine.try_find_iter(cache, Input::new(text)) {
        let found = item?;
        let part = &text[found.start()..found.end()];
        len = len.saturating_add(part.len());
    }
    Ok(len)
}
