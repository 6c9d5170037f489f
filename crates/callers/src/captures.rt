//! Callers of the laws on NFAs with fewer captures.
ghost use Rattle.std.specs.Prelude.{◌≡◌, option_map, IfOk};
ghost use Rattle.nfa_facts.specs.Kept.{with_captures};
ghost use Rattle.nfa_facts.specs.declared.captures.which.WhichCaptures.TheVariants as which;
ghost use Rattle.nfa_engines.specs.Engines.{Fits, kind_of};
ghost use Rattle.nfa_engines.specs.Found.{found_of, half_found_of};
ghost use Rattle.nfa_engines.specs.Paths.{IsFindAnswer, IsHalfAnswer};
ghost use Rattle.nfa_engines.specs.Search.{search_of};

use anyhow::Result;
use nfa_engines::pikevm::{Cache, PikeVM};
use nfa_engines::{HalfMatch, Input, Match};
use nfa_facts::captures::laws::{matches_need_group_0, no_captures_are_needed};
use nfa_facts::{WhichCaptures, keep_captures};
use std::alloc::Global;
use thompson_nfa::NFA;

/// Makes a PikeVM of the NFA whose cache has no slots.
pub fn without_slots(alloc: Global, nfa: &NFA) -> Result<PikeVM>
    ensures { IfOk result (λ vm. vm.nfa ≡ with_captures which.None nfa.now) }
{
    let small = keep_captures(alloc, nfa, WhichCaptures::None)?;
    let vm = PikeVM::new_from_nfa(small)?;
    Ok(vm)
}

/// Returns the half match of a search without slots. It is that of the NFA.
pub fn half_match(vm: &PikeVM, cache: &mut Cache, nfa: &NFA, input: Input<'_>) -> Option<HalfMatch>
    requires fits { Fits cache.old vm.now.nfa }
    requires small { vm.now.nfa ≡ with_captures which.None nfa.now }
    ensures { IsHalfAnswer nfa.now (kind_of vm.now) (search_of input.entry).earliest (search_of input.entry)
        (option_map half_found_of result) }
{
    no_captures_are_needed();
    vm.find_half(cache, input)
}

/// Returns the match of a search with the slots of group 0. It is that of the NFA.
pub fn match_by_group_0(
    vm: &PikeVM,
    cache: &mut Cache,
    nfa: &NFA,
    input: Input<'_>,
) -> Option<Match>
    requires fits { Fits cache.old vm.now.nfa }
    requires small { vm.now.nfa ≡ with_captures which.Implicit nfa.now }
    ensures { IsFindAnswer nfa.now (kind_of vm.now) (search_of input.entry).earliest (search_of input.entry)
        (option_map found_of result) }
{
    matches_need_group_0();
    // Says that the NFA is valid.
    let _ = nfa.pattern_len();
    vm.find(cache, input)
}
