//! The paths of an NFA, and the answer of a search in terms of them. This crate has the definitions (in `specs/`) that
//! the contracts of all engines use, and the theory of them. It has no code.
#![tactic(auto)]
