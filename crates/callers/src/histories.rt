//! What a cache did before does not show: two caches give one answer, by a law.

ghost use Rattle.std.specs.Prelude.{◌≡◌, IfOk, option_map};
ghost use Rattle.regex_search_core.specs.Found.{found_of};
ghost use Rattle.nfa_engines.specs.Engines.{Fits};

use nfa_engines::backtrack::{self, BoundedBacktracker};
use nfa_engines::error::SearchError;
use nfa_engines::laws::cache_history_is_invisible;
use nfa_engines::pikevm::{Cache, PikeVM};
use nfa_engines::{Input, Match};

/// The match by each of two caches.
pub fn found_twice(
    vm: &PikeVM,
    first: &mut Cache,
    second: &mut Cache,
    text: &[u8],
) -> (Option<Match>, Option<Match>)
    requires first { Fits first.old vm.now.nfa }
    requires second { Fits second.old vm.now.nfa }
    ensures { option_map found_of result.0 ≡ option_map found_of result.1 }
{
    cache_history_is_invisible();
    let input = Input::new(text);
    let one = vm.find(first, input);
    let two = vm.find(second, input);
    (one, two)
}

/// The same by a backtracker, where no search is refused.
pub fn tried_twice(
    engine: &BoundedBacktracker,
    first: &mut backtrack::Cache,
    second: &mut backtrack::Cache,
    text: &[u8],
) -> (
    Result<Option<Match>, SearchError>,
    Result<Option<Match>, SearchError>,
)
    ensures { IfOk result.0 (λ one. IfOk result.1 (λ two. option_map found_of one ≡ option_map found_of two)) }
{
    cache_history_is_invisible();
    let input = Input::new(text);
    let one = engine.try_find(first, input);
    let two = engine.try_find(second, input);
    (one, two)
}
