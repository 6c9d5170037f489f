//! The lazy DFA of a [`Hybrid`](crate::hybrid::Hybrid), and its configuration.

pub use nfa_lazy_dfa::{BuildError, Builder, Cache, Config, DFA, StopError};
