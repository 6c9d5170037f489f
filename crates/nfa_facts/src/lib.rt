//! What can be known of an NFA without a search: whether each match records its span ([`match_spans`]), and what each
//! match begins with or has ([`literal`]). [`captures`] makes the same NFA with fewer captures.
//!
//! ```
//! assert!(rt; records_match_spans(alloc, &nfa)?);
//! let literals = Literals::new(alloc, &nfa)?;
//! let small = keep_captures(alloc, &nfa, WhichCaptures::Implicit)?;
//! ```
#![tactic(auto)]

pub mod captures;
pub mod literal;
pub mod match_spans;

pub use captures::{WhichCaptures, keep_captures};
pub use literal::{FewBytes, Literals, RequiredBytes, find_prefix, literal_prefix};
pub use match_spans::records_match_spans;
