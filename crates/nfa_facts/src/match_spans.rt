//! A test of hand-written NFAs: whether each match writes its start and its end.
//!
//! Searches accept an NFA that fails the test, but a match may then be missing or have a span that nobody intended. Run
//! the test once on each NFA that you write by hand.
//!
//! ```
//! if !records_match_spans(alloc, &nfa)? {
//!     return Err(anyhow!("a way to a match does not write where it starts or ends"));
//! }
//! ```

pub mod laws;
mod path_state;
mod reached;
pub mod spans;
mod targets;

pub use spans::records_match_spans;
