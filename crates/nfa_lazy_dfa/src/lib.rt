//! A DFA that is built while it searches: it finds whether and where a match ends, and which patterns match, at a few
//! instructions a byte.
#![tactic(auto)]

mod apart;
mod cache;
mod caches;
mod config;
mod cuts;
pub mod determinize;
mod dfa;
mod direct;
mod ends;
mod error;
mod fill;
mod follow;
mod index;
mod known;
mod overlap;
mod quick;
mod scan;
mod search;
mod sparse;
mod terminators;
mod watch;
mod window;

pub use cache::Cache;
pub use config::{Builder, Config};
pub use dfa::DFA;
pub use error::StopError;
pub use thompson_nfa::BuildError;
pub use window::Window;
