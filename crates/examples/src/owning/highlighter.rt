//! A user of the engine that never fails.

use nfa_choice::choose::Choice;
use nfa_engines::error::SearchError;
use nfa_engines::{Input, NFA, backtrack, pikevm};
use std::alloc::Global;

/// Counts the bytes in matches of an NFA that may change.
#[derive(Drop)]
pub struct Highlighter {
    choice: Choice,
}

impl Highlighter {
    /// Makes a highlighter of matches of this NFA. The only error is `Memory`.
    pub fn new(alloc: Global, nfa: NFA) -> Result<Highlighter, SearchError> {
        let choice = Choice::new(alloc, nfa, backtrack::Config::new(), pikevm::Config::new())?;
        Ok(Highlighter { choice })
    }

    /// Counts matches of this NFA from now on. After an error it counts those of the old one.
    pub fn look_for(&mut self, nfa: NFA) -> Result<(), SearchError> {
        self.choice.replace(nfa)
    }

    /// Returns the number of bytes that are in matches.
    pub fn marked(&mut self, text: &[u8]) -> usize {
        let mut marked = 0usize;
        for found in self.choice.find_iter(Input::new(text)) {
            marked = marked.saturating_add(found.end() - found.start());
        }
        marked
    }
}
