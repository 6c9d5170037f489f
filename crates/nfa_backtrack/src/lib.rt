//! A depth-first search with a table of marks that bounds its work.
//!
//! A backtracker tries the alternatives of an NFA in order of preference, from one start after another. It marks each
//! pair of a state and a position that it searches from, and never searches from a marked pair again in the same scan.
//! A scan of n bytes therefore takes at most (1 + D)(n + 1) turns, where D counts the edges of all states at a
//! position. A search is one scan, or up to n + 2 if matches that split a codepoint are skipped. Each pair needs a
//! mark, so a search of a span that is too long is refused ([`BoundedBacktracker::max_haystack_len`]).
//!
//! Use it for short spans and leftmost first matches. Most callers get it from `nfa_engines`. For everything else use
//! the PikeVM (`nfa_pikevm`), which refuses no search.
//!
//! ```
//! let engine = BoundedBacktracker::new_from_nfa(nfa)?;
//! let mut cache = engine.create_cache(alloc);
//! let found = engine.try_find(&mut cache, Input::new(b"ab, abb"))?;
//! ```
#![tactic(auto)]

mod alternates;
mod byte_loop;
mod cache;
mod captures;
mod captures_iter;
mod config;
mod engine;
mod find_iter;
mod frame;
mod half;
mod may_begin;
mod scan;
mod scratch;
mod search;
mod turn;
mod visited;
mod walk;

pub use cache::Cache;
pub use captures_iter::TryCapturesMatches;
pub use config::{Builder, Config};
pub use engine::{BoundedBacktracker, min_visited_capacity};
pub use find_iter::TryFindMatches;
