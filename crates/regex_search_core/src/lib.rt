//! The types that every engine uses: the input of a search ([`Input`]), its results ([`Match`], [`Captures`],
//! [`PatternSet`]), and the numbers in both.
//!
//! They are also re-exported by `nfa_engines`. A library that only passes them along needs no engine, so it can take
//! them from here. All positions are byte offsets. A function that allocates takes the allocator, and returns
//! [`Refused`] if an allocation failed.
//!
//! ```
//! let input = Input::new(b"ab, abb").range(4..7).anchored(Anchored::Yes);
//! if let Some(found) = vm.find(&mut cache, input) {
//!     println!(rt; "{}..{}", found.start(), found.end())?;
//! }
//! ```
//!
//! Names and behaviour follow the public documentation of the crate regex-automata.
#![tactic(auto)]

mod captures;
mod group_info;
mod pattern_set;
mod primitives;
mod refused;
mod search;
mod slots;

pub use captures::{Captures, CapturesPatternIter};
pub use group_info::GroupInfo;
pub use pattern_set::{PatternSet, PatternSetIter};
pub use primitives::{NonMaxUsize, PatternID, StateID};
pub use refused::Refused;
pub use search::{Anchored, HalfMatch, Input, Match, MatchError, MatchKind, Span};
