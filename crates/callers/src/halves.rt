//! Callers of the laws on half matches.
ghost use Rattle.std.specs.Prelude.{◌≡◌, map, option_map, IfOk, List, Option};
ghost use Rattle.nfa_engines.specs.Found.{Found, HalfFound, found_of, half_found_of};
ghost use Rattle.nfa_engines.specs.Search.{search_of};
ghost use Rattle.nfa_engines.specs.Items.{end_of};
ghost use Rattle.nfa_engines.specs.Engines.{Fits, kind_of};
ghost use Rattle.nfa_engines.specs.Paths.{IsFindAnswer};
ghost use Rattle.nfa_facts.specs.StatePaths.{RecordsMatchSpans};
ghost use Rattle.nfa_choice.specs.HalfLists.{AreHalves};

use nfa_engines::error::SearchError;
use nfa_engines::iter::laws::half_and_full_agree;
use nfa_engines::pikevm::{Cache, PikeVM};
use nfa_engines::{HalfMatch, Input, Match, laws};
use nfa_facts::match_spans::laws::{half_matches_are_ends, pikevm_nfa_is_valid};
use std::alloc::Global;

/// Returns the pattern and the end of a match. They are those of the match that `find` gives, if the NFA records its
/// bounds.
pub fn end_of_match(vm: &PikeVM, cache: &mut Cache, input: Input<'_>) -> Option<HalfMatch>
    requires fits { Fits cache.old vm.now.nfa }
    requires recorded { RecordsMatchSpans vm.now.nfa }
    ensures { let x = search_of input.entry in (found : Option Found)
        → IsFindAnswer vm.now.nfa (kind_of vm.now) x.earliest x found
        → option_map half_found_of result ≡ option_map end_of found }
{
    half_matches_are_ends();
    pikevm_nfa_is_valid(vm);
    vm.find_half(cache, input)
}

/// Returns all matches of the input. An iteration over the answers of `find_half` gives exactly their patterns and
/// ends, if the NFA records its bounds.
pub fn matches_with_ends(
    alloc: Global,
    vm: &PikeVM,
    cache: &mut Cache,
    input: Input<'_>,
) -> Result<Vec<Match>, SearchError>
    requires fits { Fits cache.old vm.now.nfa }
    requires recorded { RecordsMatchSpans vm.now.nfa }
    ensures { let x = search_of input.entry in IfOk result (λ found. (halves : List HalfFound)
        → AreHalves vm.now.nfa (kind_of vm.now) x.earliest x halves
        → halves ≡ map end_of (map found_of found.items)) }
{
    laws::every_search_has_an_answer();
    laws::one_match();
    laws::one_half_match();
    half_and_full_agree();
    half_matches_are_ends();
    pikevm_nfa_is_valid(vm);
    let found = vm.find_all(alloc, cache, input)?;
    Ok(found)
}
