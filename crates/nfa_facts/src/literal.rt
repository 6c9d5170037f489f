//! What each match of an NFA begins with or has, and a search for it.
//!
//! A search may jump to the first position at which the bytes occur that each match begins with, since no match starts
//! before it. If they do not occur, nothing matches. The laws say so (`laws`), and what bytes mean that each match has
//! ([`RequiredBytes`]). [`Literals`] says where to begin.
//!
//! ```
//! // NFA of "foo[0-9]+": "foo"
//! let prefix = literal_prefix(alloc, &nfa)?;
//! assert!(rt; find_prefix(b"x foo1", 0, 6, &prefix) == Some(2));
//! ```

pub mod few_bytes;
pub mod find;
pub mod laws;
mod least_length;
mod level;
mod levels;
pub mod literals;
mod needles;
mod only_move;
pub mod prefix;
mod reached;
pub mod required_bytes;
mod singles;
mod walk;

pub use few_bytes::FewBytes;
pub use find::find_prefix;
pub use literals::Literals;
pub use prefix::literal_prefix;
pub use required_bytes::RequiredBytes;
