//! A depth-first search with a table of marks that bounds its work, under its public names.
//!
//! Use it for spans that its marks have room for. There it is usually the faster engine, and a search requires nothing
//! of its cache. It answers only leftmost first, and refuses a span of more than
//! [`BoundedBacktracker::max_haystack_len`] bytes. For longer spans, for other match kinds and `earliest`, and for
//! searches that must not fail, use [`crate::pikevm`]. `nfa_choice` holds both.
//!
//! ```
//! let engine = BoundedBacktracker::new_from_nfa(nfa)?;
//! let mut cache = engine.create_cache(alloc);
//! for item in engine.try_find_iter(&mut cache, Input::new(b"ab, abb")) {
//!     let found = item?;
//!     println!(rt; "{}..{}", found.start(), found.end())?;
//! }
//! ```

pub use nfa_backtrack::{
    BoundedBacktracker, Builder, Cache, Config, TryCapturesMatches, TryFindMatches,
    min_visited_capacity,
};
