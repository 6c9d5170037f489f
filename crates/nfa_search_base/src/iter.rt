//! Iteration over the matches of a haystack, which always moves forward.
//!
//! A [`Searcher`] keeps an input and the end of the last match. Each step searches the input for a match, and moves the
//! input's start to the match's end. An empty match at the end of the last match would be found again and again, so the
//! step then searches once more from one byte further on. The ends of the matches therefore rise, and there are at most
//! as many matches as the span has bytes, plus one. The rule is that of regex-automata's `util::iter`.
//!
//! The engines have iterators of their own (`find_iter`, `captures_iter`). Use a searcher for a search of your own, or
//! to do something between the steps.
//!
//! ```
//! let mut searcher = Searcher::new(Input::new(text));
//! while let Some(found) = searcher.try_advance(|input| engine.try_find(&mut cache, *input))? {
//!     println!(rt; "{}..{}", found.start(), found.end())?;
//! }
//! ```

mod by_ref;
pub mod captures_items;
mod captures_matches;
mod found_iter;
pub mod laws;
pub mod match_items;
mod searcher;
mod searches;
mod span;
mod spanned;
mod steps;

pub use captures_matches::{CapturesIter, TryCapturesIter};
pub use found_iter::{
    FoundIter, HalfMatchesIter, MatchesIter, TryFoundIter, TryHalfMatchesIter, TryMatchesIter,
};
pub use searcher::{Offered, Searcher};
pub use searches::FindWith;
pub use steps::Steps;
