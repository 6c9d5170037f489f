//! The slots of a match whose span is known: a walk over its bytes, as long as only one way through the NFA is left.
#![tactic(auto)]

pub mod laws;
mod lists;
mod table;
mod walk;
mod way;

pub use table::OnePass;
