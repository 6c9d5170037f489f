//! Searches of a Thompson NFA.
//!
//! [`pikevm`] follows all states side by side. It takes haystacks of any length and every match kind, and no search
//! fails. [`backtrack`] searches depth first and marks what it has tried. It is usually faster on short spans, but
//! answers only leftmost first, and may refuse a search. `nfa_choice` holds both and picks the one that suits. All of
//! them give the answer of one definition, and [`laws`] states that there is exactly one.
//!
//! ```
//! let vm = PikeVM::new_from_nfa(nfa)?;
//! let mut cache = vm.create_cache(alloc)?;
//! for found in vm.find_iter(&mut cache, Input::new(b"ab, abb")) {
//!     println!(rt; "{}..{}", found.start(), found.end())?;
//! }
//! ```
//!
//! This crate re-exports every type that calls of the engines take or return, and its `specs` every word that a
//! contract of their caller may name. So a user lists no crate below it.
#![tactic(auto)]

pub mod backtrack;
pub mod laws;
pub mod pikevm;

pub use nfa_search_base::{empty, error, iter};
pub use regex_search_core::{
    Anchored, Captures, CapturesPatternIter, GroupInfo, HalfMatch, Input, Match, MatchError,
    MatchKind, NonMaxUsize, PatternID, PatternSet, PatternSetIter, Refused, Span, StateID,
};
pub use thompson_nfa::{
    BuildError, Flaw, Look, NFA, Referrer, State, Transition, first_flaw, look_matches,
};
