//! Engines that choose. Their searches never fail.
//!
//! A [`Choice`] ([`choose`]) uses the backtracker if that can give the answer and its marks have room, and otherwise
//! the PikeVM. Use it if haystacks may have any length. It takes the memory of both engines. If the limits of one
//! engine suit you, that engine (`nfa_engines`) takes less.
//!
//! ```
//! let mut choice = Choice::new(alloc, nfa, backtrack::Config::new(), pikevm::Config::new())?;
//! for found in choice.find_iter(Input::new(text)) {
//!     println!(rt; "{}..{}", found.start(), found.end())?;
//! }
//! ```
//!
//! A [`hybrid::Hybrid`] searches with a lazy DFA, and with a PikeVM if the DFA stops. Use it to know whether there is a
//! match, or where matches end, in haystacks that are long next to the pattern. It finds neither starts nor groups: for
//! these use a `Choice`, or an engine of `nfa_engines`.
//!
//! ```
//! let mut hybrid = Hybrid::new(alloc, nfa, dfa::Config::new())?;
//! for half in hybrid.half_matches(Input::new(text)) {
//!     println!(rt; "{}", half.offset())?;
//! }
//! ```
#![tactic(auto)]

pub mod choose;
pub mod dfa;
pub mod half_items;
pub mod hybrid;
pub mod laws;

pub use choose::{Choice, ChoiceCaptures, ChoiceMatches, Engine};
