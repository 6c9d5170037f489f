//! Laws of the steps. Each function is empty: its contract is the theorem.
ghost use Rattle.nfa_lazy_dfa.specs.Closures.{ClosureHasEachOnce, ClosureIsShort, ClosureReadsAssertions};
ghost use Rattle.nfa_lazy_dfa.specs.Closures.{ClosureRests, FirstOfEachHasEachOnce, RepeatAddsNothing};
ghost use Rattle.nfa_lazy_dfa.specs.Configurations.{AdvancesWithEachOnce, DeadStays, FoundStays, StepsFindTheAnswer};
ghost use Rattle.nfa_lazy_dfa.specs.Configurations.{IdlePassesStarts, StepsFindTheHalf};

/// The steps over all positions of the span find the pattern and the end of the scan's answer, of each match kind and
/// `earliest`.
#[tactic(auto, using(crate::proofs::AnswerLemmas::steps_find))]
pub fn steps_find_the_answer()
    ensures { StepsFindTheAnswer }
{}

/// The half match of a search is what the steps find, scan by scan, and only that: what `find_half` returns.
pub fn steps_find_the_half()
    ensures { StepsFindTheHalf }
{}

/// A configuration without states and starts stays as it is, so a scan may end there.
#[tactic(auto, using(crate::proofs::SettledLemmas::stays_settled))]
pub fn dead_stays()
    ensures { DeadStays }
{}

/// A scan may end if its configuration is dead, or if it is `earliest` and found a match: what was found stays.
#[tactic(auto, using(crate::proofs::SettledLemmas::stays_settled))]
pub fn found_stays()
    ensures { FoundStays }
{}

/// The closure of a list does not change if a state that the list has already is dropped further right. So a scan may
/// keep each state once, where it is first: the next configuration is the same.
#[tactic(auto, using(crate::proofs::ClosureLemmas::repeats))]
pub fn repeats_add_nothing()
    ensures repeat { RepeatAddsNothing }
    ensures once { FirstOfEachHasEachOnce }
    ensures advances { AdvancesWithEachOnce }
{}

/// A closure has each state once, no more of them than the NFA, and only byte states, Fails and Matches. So an NFA has
/// finitely many closures.
#[tactic(auto, using(crate::proofs::ExploreLemmas::finite_closures))]
pub fn closures_are_finite()
    ensures once { ClosureHasEachOnce }
    ensures short { ClosureIsShort }
    ensures rests { ClosureRests }
{}

/// Of the haystack, a closure depends only on which assertions hold at its position.
pub fn closures_read_assertions()
    ensures { ClosureReadsAssertions }
{}

/// If nothing was found before a position and the closure of its states is empty, no accepting path of the search
/// starts before it, for each match kind and `earliest`. `nfa_engines::laws::starts_may_be_passed` says what follows.
#[tactic(auto, using(crate::proofs::IdleLemmas::idle_positions))]
pub fn idle_passes_starts()
    ensures { IdlePassesStarts }
{}
