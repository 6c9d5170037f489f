//! What the searches of all engines share: the [`error`] of a search, the skipping of matches that split a codepoint
//! ([`empty`]), and iteration over matches ([`iter`]). `nfa_paths` defines the answer of a search.
//!
//! Use this crate to build an engine, or an iteration over a search of your own. Callers of the engines find it all in
//! `nfa_engines`, which re-exports these modules.
//!
//! ```
//! let mut searcher = Searcher::new(Input::new(text));
//! while let Some(found) = searcher.try_advance(|input| engine.try_find(&mut cache, *input))? {
//!     println!(rt; "{}..{}", found.start(), found.end())?;
//! }
//! ```
#![tactic(auto)]

mod asking;
pub mod empty;
pub mod error;
pub mod iter;
