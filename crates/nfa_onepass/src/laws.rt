//! The law. The function is empty: its contract is the theorem.
ghost use Rattle.nfa_onepass.specs.OnlyLaws.{OnlyIsAnswer};

use nfa_engines::laws::answer_is_that_of_the_cut_span;
use nfa_facts::match_spans::laws::matches_are_of_paths;

/// If a search finds a match, and each path from the start of the match to its end has the same pattern and slots, they
/// are the leftmost first answer of the search.
///
/// The NFA has to record the bounds of its matches.
pub fn only_slots_answer()
    ensures { OnlyIsAnswer }
{
    answer_is_that_of_the_cut_span();
    matches_are_of_paths();
}
