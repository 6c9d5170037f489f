//! What `nfa_grep` is asked for, and all of it that needs no regex: its command line (`arguments`, `words`, `flags`,
//! `command`, `given`), what that says (`options`) and why it cannot be obeyed (`error`); the texts of its patterns
//! (`patterns`) and their syntax (`syntax`), globs (`glob`, `matching`) and the files that they leave out (`rules`,
//! `chosen`), the rules of files such as `.gitignore` and what these leave out (`ignoring`, `ignored`, `ignores`), the
//! paths in folders (`walk`), names that are not text (`marked`), and what standard input and output are (`output`).
#![tactic(auto)]

pub mod arguments;
pub mod chosen;
pub mod colours;
pub mod command;
pub mod error;
mod flags;
mod given;
pub mod glob;
mod ignored;
pub mod ignores;
mod ignoring;
pub mod marked;
mod matching;
pub mod options;
pub mod output;
pub mod patterns;
pub mod rules;
pub mod syntax;
pub mod walk;
pub mod words;
