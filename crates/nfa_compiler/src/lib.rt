//! NFAs from the texts of patterns.
//!
//! [`Compiler`] parses texts in the syntax of the crate regex (`regex_syntax`), compiles each pattern
//! (`regex_compile`), and joins their states in one `NFA`. The functions of [`laws`] state what searches of that NFA
//! find: what the patterns mean.
//!
//! ```
//! let nfa = Compiler::new().build(alloc, r"(?<key>\w+)=(?<value>[^ ]*)")?;
//! let vm = PikeVM::new_from_nfa(nfa)?;
//! ```
#![tactic(auto)]

mod block;
pub mod calls;
mod compiler;
mod config;
mod error;
mod excerpt;
mod groups;
pub mod laws;
mod loops;
mod reading;
mod states;
mod syntax_error;
pub mod written;

pub use compiler::Compiler;
pub use config::Config;
pub use error::{CompileError, OnlyPattern};
pub use loops::has_empty_loop;
pub use regex_syntax::{Config as Syntax, ErrorKind, Flags, Parsed, Span};
pub use syntax_error::SyntaxError;
