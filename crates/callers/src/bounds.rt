//! A caller of the law on matches that are missed.
ghost use Rattle.std.specs.Prelude.{◌≡◌, IfOk, true, false};
ghost use Rattle.regex_search_core.specs.Search.{search_of};
ghost use Rattle.nfa_engines.specs.Engines.{Fits};
ghost use Rattle.nfa_engines.specs.Paths.{is_utf8_empty};
ghost use Rattle.nfa_facts.specs.MatchSpanLaws.{MatchesNothing};

use nfa_engines::Input;
use nfa_engines::pikevm::{Cache, PikeVM};
use nfa_facts::match_spans::laws::no_match_is_missed;
use nfa_facts::records_match_spans;
use std::alloc::{AllocError, Global};

/// Whether it is sure that nothing matches: the NFA records its bounds, and there is no match.
pub fn surely_matches_nothing(
    alloc: Global,
    vm: &PikeVM,
    cache: &mut Cache,
    input: Input<'_>,
) -> Result<bool, AllocError>
    requires fits { Fits cache.old vm.now.nfa }
    requires anywhere { is_utf8_empty vm.now.nfa ≡ false }
    ensures { IfOk result (λ sure. sure ≡ true → MatchesNothing vm.now.nfa (search_of input.entry)) }
{
    no_match_is_missed();
    if !records_match_spans(alloc, vm.get_nfa())? {
        return Ok(false);
    }
    match vm.find(cache, input) {
        None => Ok(true),
        Some(_) => Ok(false),
    }
}
