//! The parts that engines share: a count that only contracts see, the bytes that a match may begin with, marks of
//! states, the target of a byte, and the start of a search. Callers take the engines from `nfa_engines`.
#![tactic(auto)]

pub mod counter;
pub mod first_bytes;
pub mod marks;
pub mod starts;
pub mod transitions;
