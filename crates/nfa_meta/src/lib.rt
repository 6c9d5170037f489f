//! One engine for one NFA ([`Regex`]). A lazy DFA finds where a match ends and a window that holds it, and an engine of
//! `nfa_choice` finds the match in the window. Searches never fail.
//!
//! ```
//! let mut regex = Regex::new(alloc, "[0-9]+")?;
//! if let Some(found) = regex.find(Input::new(text)) {
//!     println!(rt; "{}..{}", found.start(), found.end())?;
//! }
//! ```
#![tactic(auto)]

mod builder;
mod error;
mod group_spans;
pub mod interpolate;
pub mod laws;
pub mod regex;
mod replacer;
pub mod set;

pub use builder::{Builder, Config};
pub use error::BuildError;
pub use group_spans::extract;
pub use nfa_choice::Engine;
pub use nfa_compiler::{CompileError, Flags, Syntax};
pub use nfa_facts::WhichCaptures;
pub use regex::{CapturesMatches, FindMatches, HalfMatches, Regex, Split, SplitN};
pub use regex_syntax::escape;
pub use replacer::{NoExpand, Replacer};
pub use set::{RegexSet, SetMatches};
