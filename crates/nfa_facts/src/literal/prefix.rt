//! The bytes that each match of an NFA begins with.
ghost use Rattle.std.specs.Prelude.{◌≡◌, ◌<◌, IfOk, length};
ghost use Rattle.nfa_facts.specs.Prefixes.{BeginsWith, literal_at, prefix_of};

use crate::literal::laws::prefixes_are_read;
use crate::literal::only_move::only_move;
use regex_search_core::StateID;
use std::alloc::{AllocError, Global};
use thompson_nfa::NFA;

/// The maximum length of a prefix. Up to this length, a search for it prepares no table.
const MAX_LENGTH: usize = 32;

/// Returns the bytes that each match of the NFA begins with, wherever it starts. They are in the haystack from the
/// start of the match on, inside the span of the search.
///
/// The states are followed from the start state of anchored searches (`NFA::start_anchored`), as long as they move on
/// in one way only: over one byte, or without a byte. So the prefix may be shorter than what all matches have in
/// common, or empty: it ends before a class of bytes and before an alternation. It has at most 32 bytes. It does not
/// cover `Anchored::Pattern`, whose searches begin with another state. The only error is that an allocation failed.
///
/// ```
/// // NFA of "(foo)(?:bar|qux)": "foo"
/// let prefix = literal_prefix(alloc, &nfa)?;
/// assert!(rt; &prefix[..] == b"foo".as_slice());
/// ```
pub fn literal_prefix(alloc: Global, nfa: &NFA) -> Result<Vec<u8>, AllocError>
    ensures value { IfOk result (λ prefix. prefix.items ≡ prefix_of nfa.now) }
    ensures begins { IfOk result (λ prefix. BeginsWith nfa.now prefix.items) }
{
    prefixes_are_read();
    literal_from(alloc, nfa, nfa.start_anchored())
}

/// Returns the bytes that are read from the state on, as long as each state moves on in one way only: at most 32.
pub(crate) fn literal_from(alloc: Global, nfa: &NFA, from: StateID) -> Result<Vec<u8>, AllocError>
    requires { from < length nfa.now.states }
    ensures { IfOk result (λ literal. literal.items ≡ literal_at nfa.now from) }
{
    let mut literal = Vec::new(alloc);
    let mut state = from;
    for _ in 0..nfa.states().len() {
        let Some(only) = only_move(nfa.state(state)) else {
            return Ok(literal);
        };
        if let Some(byte) = only.byte {
            if literal.len() == MAX_LENGTH {
                return Ok(literal);
            }
            literal.push(byte)?;
        }
        state = only.next;
    }
    Ok(literal)
}
