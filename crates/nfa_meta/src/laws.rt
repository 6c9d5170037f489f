//! Laws of windows. Each function only calls other laws, if anything: its contract is the theorem.
ghost use Rattle.nfa_meta.specs.WindowLaws.{ScansAreFirstStarts, SearchGoesOn, WindowHasTheAnswer, WindowHasTheMatch};
ghost use Rattle.nfa_meta.specs.WindowLaws.{WindowsAreFirstStarts};

use nfa_engines::laws::answer_is_that_of_the_cut_span;

/// The start of a window is a first start: a premise of `starts_may_be_passed` and `first_start_answers` of
/// `nfa_engines::laws`.
pub fn windows_are_first_starts()
    ensures { WindowsAreFirstStarts }
{}

/// The leftmost first answer of a search, without `earliest`, is that of the search of a window: of a span from a
/// position before which no accepting path starts, to the end of the half match. The same holds for its match.
///
/// Premises: neither the search nor the NFA is anchored, and no match has to end on a boundary.
pub fn windows_answer()
    ensures answers { WindowHasTheAnswer }
    ensures matches { WindowHasTheMatch }
{
    answer_is_that_of_the_cut_span();
}

/// Suppose that nothing matches before a position, and that the anchored search there finds nothing. Then the leftmost
/// first answer of an unanchored search is that of the search from the next position on. The start of a window is
/// such a position, since no accepting path starts before it.
///
/// This holds also if a match has to end on a boundary, so that the anchored search may find nothing since its match
/// splits a codepoint. Premises: neither the search nor the NFA is anchored.
pub fn searches_go_on()
    ensures goes_on { SearchGoesOn }
    ensures first { ScansAreFirstStarts }
{}
