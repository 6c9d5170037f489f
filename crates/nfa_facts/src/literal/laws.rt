//! What the bytes that each match begins with mean for searches. Each function is empty: its contract is the theorem.
//!
//! Call a law in a function whose proof needs it. The call costs nothing at run time, and the proof of that function
//! can use its clauses.
//!
//! ```
//! starts_without_prefix_may_be_passed();
//! let at = find_prefix(input.haystack(), from, input.end(), &prefix);
//! ```
ghost use Rattle.nfa_facts.specs.PrefixLaws.{FirstStartMovesOn, FirstStartMovesToOccurrence, NothingIsNoAnswer};
ghost use Rattle.nfa_facts.specs.PrefixLaws.{NothingIsNoHalfMatch, NothingIsNoMatch, NothingIsNotFound};
ghost use Rattle.nfa_facts.specs.RequiredLaws.{FirstStartMovesToRequired, NothingWithoutRequired};
ghost use Rattle.nfa_facts.specs.RequiredLaws.{NothingWithoutRequiredAhead};
ghost use Rattle.nfa_facts.specs.PrefixLaws.{NothingInFewerBytes, NothingWithoutBytes, NothingWithoutOccurrence};
ghost use Rattle.nfa_facts.specs.PrefixLaws.{PrefixBegins};

/// Each match of an NFA begins with its prefix, which `literal_prefix` returns: wherever an anchored search has an
/// accepting path, the prefix is in the haystack, inside the span.
pub fn prefixes_are_read()
    ensures { PrefixBegins }
{}

/// If each match begins with some bytes, an anchored search at a position without them has no accepting path. If they
/// occur nowhere between a position before which no match starts and another one, no match starts before that either.
/// `nfa_engines::laws::starts_may_be_passed` says what follows for the answer.
pub fn starts_without_prefix_may_be_passed()
    ensures nothing { NothingWithoutBytes }
    ensures moves { FirstStartMovesOn }
    ensures first { FirstStartMovesToOccurrence }
{}

/// If each match begins with some bytes, and they occur nowhere from a position on before which no match starts, the
/// search has no accepting path.
///
/// Premises: neither the search nor the NFA is anchored, and a match may end anywhere.
pub fn no_match_without_prefix()
    ensures { NothingWithoutOccurrence }
{}

/// If each match has some bytes that are not ahead of a position, an anchored search there has no accepting path. If
/// they are ahead of no position between one before which no match starts and another one, no match starts before that
/// either. Bytes are ahead if the haystack has them from the position on, inside the span. If no match has a line feed
/// before them, none may be between.
pub fn starts_without_required_bytes_may_be_passed()
    ensures nothing { NothingWithoutRequired }
    ensures moves { FirstStartMovesToRequired }
{}

/// If each match has some bytes that are ahead of no position from one on before which no match starts, the search has
/// no accepting path.
///
/// Premises: neither the search nor the NFA is anchored, and a match may end anywhere.
pub fn no_match_without_required_bytes()
    ensures { NothingWithoutRequiredAhead }
{}

/// If each match has at least some number of bytes, and the span has fewer, the search has no accepting path.
///
/// Premises: neither the search nor the NFA is anchored, and a match may end anywhere.
pub fn no_match_in_fewer_bytes()
    ensures { NothingInFewerBytes }
{}

/// A search without an accepting path has no match, no half match and no pattern, and each slot is `None`. This holds
/// for each match kind, `earliest` or not, and also if a match has to end on a boundary.
pub fn nothing_has_no_answer()
    ensures answer { NothingIsNoAnswer }
    ensures match_of { NothingIsNoMatch }
    ensures half { NothingIsNoHalfMatch }
    ensures found { NothingIsNotFound }
{}
