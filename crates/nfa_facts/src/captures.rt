//! NFAs with fewer captures: with only group 0 of each pattern, or with no group.
//!
//! The cache of a PikeVM has a row of slots for each state, as long as the NFA has slots. So an NFA of many patterns,
//! or of patterns with many groups, takes much less memory without those that you do not need. No answer changes: an
//! NFA with only group 0 has the same matches, and one with no group the same half matches and sets (`laws`).
//!
//! ```
//! let nfa = Compiler::new().build_many(alloc, &["(a)(b)", "c"])?;
//! let small = keep_captures(alloc, &nfa, WhichCaptures::Implicit)?;
//! assert_eq!(rt; nfa.group_info().slot_len(), 8);
//! assert_eq!(rt; small.group_info().slot_len(), 4);
//! ```

mod keep;
pub mod laws;
mod states;
mod which;

pub use keep::keep_captures;
pub use which::WhichCaptures;
