//! One scan of the PikeVM, for a match or for the set of all patterns that match: at each position it follows all
//! states that lead there, each with its slot row.
//!
//! The engine and its public calls are in `nfa_pikevm`. A scan does not depend on errors and iteration, so it is a
//! crate of its own and is proved in parallel with them.
#![tactic(auto)]

pub mod active;
pub mod closure;
pub mod frame;
pub mod nexts;
pub mod overlap;
pub mod room;
pub mod scan;
pub mod seen;
pub mod sink;
pub mod sizes;
pub mod slot;
pub mod threads;
