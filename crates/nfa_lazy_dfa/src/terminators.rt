//! Bytes after which the same assertions of an NFA hold.
ghost use Rattle.std.specs.Prelude.{◌≡◌, true, slice_index_or, false};
ghost use Rattle.thompson_nfa.specs.Automaton.{node_of};
ghost use Rattle.nfa_lazy_dfa.specs.Assertions.{AreLikes, AreTerminators, IsMarkedBy, KeepsMarks, like, plain_like};

use thompson_nfa::{Look, NFA, State};

/// Returns for each byte one that is like it: the same assertions hold after both. So rows are made for few bytes.
pub fn likes_of(nfa: &NFA) -> [u8; 256]
    ensures { AreLikes nfa.now result }
{
    let terminators = terminators_of(nfa);
    let mut likes = [0u8; 256];
    for byte in 0..256 {
        likes[byte] = like(&terminators, byte as u8);
    }
    likes
}

/// Marks the line terminators of the assertions `StartLine`.
fn terminators_of(nfa: &NFA) -> [bool; 256]
    ensures { AreTerminators nfa.now result }
{
    let mut marks = [false; 256];
    for state in nfa.states() {
        mark_terminator(&mut marks, state);
    }
    marks
}

/// Marks the line terminator of the state, if it is such an assertion.
fn mark_terminator(marks: &mut [bool; 256], state: &State)
    ensures marked { IsMarkedBy marks.new (node_of state.now) }
    ensures keeps { KeepsMarks marks.old marks.new }
{
    match state {
        State::Look {
            look: Look::StartLine(byte),
            ..
        } => marks[*byte as usize] = true,
        _ => {}
    }
}

/// A byte like this one, if these are the line terminators of assertions.
fn like(terminators: &[bool; 256], byte: u8) -> u8
    ensures { result ≡ like terminators.now byte }
{
    let plain = plain_like(byte);
    if terminators[byte as usize] || terminators[plain as usize] {
        byte
    } else {
        plain
    }
}

/// A byte like this one: `a` for one of a word, a space for all others but line feed and carriage return.
fn plain_like(byte: u8) -> u8
    ensures { result ≡ plain_like byte }
{
    if byte.is_ascii_alphanumeric() || byte == b'_' {
        b'a'
    } else if byte == b'\n' || byte == b'\r' {
        byte
    } else {
        b' '
    }
}
