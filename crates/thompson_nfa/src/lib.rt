//! Nondeterministic finite automata over bytes: their states ([`State`]), the assertions that a state may make about a
//! position ([`Look`]), and whole automata ([`NFA`]). An `NFA` is made from its states, and keeps the invariants that a
//! search relies on.
//!
//! Use this crate if you choose each state yourself. `nfa_compiler` makes the states from a pattern, `nfa_samples` has
//! some automata by name, and `nfa_engines` searches with them.
//!
//! ```
//! let zero = StateID::new(0).context("there is a state 0")?;
//! let one = StateID::new(1).context("there is a state 1")?;
//! let mut states = Vec::new(alloc);
//! states.push(State::ByteRange {
//!     trans: Transition { start: b'a', end: b'z', next: one },
//! })?;
//! states.push(State::Match {
//!     pattern_id: PatternID::new(0).context("there is a pattern 0")?,
//! })?;
//! let groups = GroupInfo::new(vec![in alloc; Vec::new(alloc)]?).context("too many groups")?;
//! let nfa = NFA::from_states(states, zero, zero, vec![in alloc; zero]?, groups, false, true)?;
//! ```
//!
//! This NFA only says whether the haystack starts with a letter. Captures of the slots 0 and 1 would also give the span
//! of the match. Names and behaviour follow the public documentation of the crate regex-automata.
#![tactic(auto)]

mod characters;
mod flaw;
mod look;
mod nfa;
mod state;
mod validate;

pub use flaw::{Flaw, Referrer, first_flaw};
pub use look::{Look, look_matches};
pub use nfa::{BuildError, NFA};
pub use state::{State, Transition};
