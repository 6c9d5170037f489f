//! What `records_match_spans` means for searches. Each function is empty, or only reads: its contract is the theorem.
//!
//! Call a law in a function whose proof needs that no match is missed. The call costs nothing at run time, and the
//! proof of that function can use its clauses. The laws of `nfa_engines` hold for every NFA.
//!
//! ```
//! no_match_is_missed();
//! let recorded = records_match_spans(alloc, vm.get_nfa())?;
//! match vm.find(&mut cache, input) {
//!     None => Ok(recorded),
//!     Some(_) => Ok(false),
//! }
//! ```
ghost use Rattle.regex_search_core.specs.declared.search.MatchKind.TheVariants.{LeftmostFirst};
ghost use Rattle.std.specs.Prelude.{false};
ghost use Rattle.thompson_nfa.specs.Automaton.{IsAutomaton};
ghost use Rattle.nfa_facts.specs.MatchSpanLaws.{AnchoredStartsTheSpan, BytesAreAnswered, EverySearchIsRecorded};
ghost use Rattle.nfa_facts.specs.MatchSpanLaws.{HalfMatchesAreEnds, MatchesAreOfPaths, NoBytesAreAnswered};
ghost use Rattle.nfa_facts.specs.MatchSpanLaws.{NoneIsNoPathThere, NoneIsNothing, NoneStartsBeforeThere};

use nfa_engines::pikevm::PikeVM;

/// The NFA of a PikeVM is one that `NFA::from_states` accepts, which the laws require.
pub fn pikevm_nfa_is_valid(vm: &PikeVM)
    ensures { IsAutomaton vm.now.nfa }
{
    vm.get_nfa().pattern_len();
}

/// If `records_match_spans` is true, each accepting path of each search writes its start and its end into the two slots
/// of its pattern. `nfa_engines::laws::no_gap` requires this of an NFA.
pub fn match_spans_are_written()
    ensures { EverySearchIsRecorded }
{}

/// No match of such an NFA is missed, if a match may end anywhere. For each match kind, `earliest` or not, there is no
/// match exactly if there is no accepting path. Under leftmost first, no accepting path starts before the match.
pub fn no_match_is_missed()
    ensures none { NoneIsNoPathThere }
    ensures nothing { NoneIsNothing }
    ensures start { NoneStartsBeforeThere LeftmostFirst false }
{}

/// The match of an anchored search of such an NFA starts at the start of its span, for each match kind, `earliest` or
/// not.
pub fn anchored_matches_start_the_span()
    ensures { AnchoredStartsTheSpan }
{}

/// The match of a search is that of the path which the search answers: its pattern, its start and its end. If the
/// search answers no path, there is no match. This holds for each match kind, `earliest` or not, and also if a match
/// has to end on a boundary.
pub fn matches_are_of_paths()
    ensures { MatchesAreOfPaths }
{}

/// The half match of `find_half` has the pattern and the end of the match of `find`. This holds for each match kind,
/// `earliest` or not, and also if a match has to end on a boundary.
pub fn half_matches_are_ends()
    ensures { HalfMatchesAreEnds }
{}

/// The path that an anchored search answers reads a byte exactly if the search's match has one. If the match has none,
/// each accepting path reads a byte and a match may end anywhere, there is no accepting path.
pub fn anchored_matches_show_bytes()
    ensures some { BytesAreAnswered }
    ensures none { NoBytesAreAnswered }
{}
