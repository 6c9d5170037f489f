//! Laws of iteration. Each function is empty: its contract is the theorem.
//!
//! Call the law in a proof that goes from matches to their ends. The laws of `nfa_engines` are about the lists of
//! engines. The call costs nothing at run time.
//!
//! ```
//! half_and_full_agree();
//! let ends = Searcher::new(input).into_half_matches_iter(half_finder);
//! ```
ghost use Rattle.nfa_search_base.specs.Items.{HalfAndFullAgree};

/// A law, without effect at run time. Suppose that a half finder answers the pattern and the end of each match of a
/// full finder, and that both are functions of their input. Then an iteration over the half finder gives the patterns
/// and ends of the iteration over the full one.
pub fn half_and_full_agree()
    ensures { HalfAndFullAgree }
{}
