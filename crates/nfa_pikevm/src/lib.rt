//! A search that follows all states of an NFA side by side.
//!
//! At each position of the span a PikeVM keeps the states that its NFA may be in, in order of preference, each with its
//! own slot row. A byte leads from the states at one position to those at the next. A scan therefore goes from the
//! start of the span to its end and never back. It takes at most (1 + D)(n + 1) turns for n bytes, where D counts the
//! edges of all states at a position. A search is one scan, or up to n + 2 if matches that split a codepoint are
//! skipped. It allocates nothing and cannot fail.
//!
//! Use it for haystacks of any length, for every match kind and for sets of patterns. Most callers get it from
//! `nfa_engines`. On short spans the backtracker (`nfa_backtrack`) is usually faster.
//!
//! ```
//! let vm = PikeVM::new_from_nfa(nfa)?;
//! let mut cache = vm.create_cache(alloc)?;
//! let found = vm.find(&mut cache, Input::new(b"ab, abb"));
//! ```
#![tactic(auto)]

mod cache;
mod captures;
mod captures_iter;
mod config;
mod engine;
mod find_iter;
mod may_begin;
mod search;

pub use cache::Cache;
pub use captures_iter::CapturesMatches;
pub use config::{Builder, Config};
pub use engine::PikeVM;
pub use find_iter::FindMatches;
