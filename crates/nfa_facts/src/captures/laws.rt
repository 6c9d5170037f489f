//! What an NFA with fewer captures answers. Each function is empty: its contract is the theorem.
//!
//! Call a law in a function whose proof needs it. The call costs nothing at run time, and the proof of that function
//! can use its clauses.
//!
//! ```
//! let half = PikeVM::new_from_nfa(keep_captures(alloc, &nfa, WhichCaptures::None)?)?;
//! no_captures_are_needed();
//! let found = half.find_half(&mut cache, input);
//! ```
ghost use Rattle.nfa_facts.specs.CapturesLaws.{AllAreKept, FindsAlike, HalvesAlike, MatchesAlike, SetsAlike};
ghost use Rattle.nfa_facts.specs.CapturesLaws.{SlotsAlike};

/// Whether there is a match, half matches and sets of patterns are the same with any captures. This holds for each
/// match kind, `earliest` or not.
pub fn no_captures_are_needed()
    ensures found { FindsAlike }
    ensures half { HalvesAlike }
    ensures sets { SetsAlike }
{}

/// The pattern of a search is the same with any captures, and so are the slots that are kept.
pub fn kept_slots_are_the_same()
    ensures { SlotsAlike }
{}

/// Matches are the same if group 0 of each pattern is kept.
pub fn matches_need_group_0()
    ensures { MatchesAlike }
{}

/// With all captures an NFA is itself.
pub fn all_captures_are_kept()
    ensures { AllAreKept }
{}
