//! The engine of `nfa_meta` for programs in C, and in all languages that call C. `bindings/c/nfa.h` declares what this
//! exports, and says what a caller must ensure.
#![tactic(auto)]

pub mod codes;
pub mod compile;
pub mod groups;
pub mod handle;
pub mod names;
pub mod options;
mod parts;
pub mod place;
pub mod rewrite;
mod room;
pub mod search;
pub mod set_compile;
pub mod set_handle;
pub mod set_search;
mod set_slot;
pub mod set_why;
mod slot;
mod texts;
mod threads;
pub mod why;

pub use handle::NfaRegex;
pub use set_handle::NfaSet;
