//! The bytes that are the only byte of some transition.

use thompson_nfa::{NFA, State, Transition};

/// For each byte, whether some transition of an NFA has it as its only byte. A byte that each match has is one of
/// these, or of a `Dense`, whose bytes are left out.
#[derive(Drop)]
pub struct SingleBytes {
    has: [bool; 256],
}

impl SingleBytes {
    /// Returns those of the NFA.
    pub fn new(nfa: &NFA) -> SingleBytes {
        let mut singles = SingleBytes { has: [false; 256] };
        for state in nfa.states() {
            singles.admit_state(state);
        }
        singles
    }

    /// Whether the byte is one of these.
    pub fn has(&self, byte: u8) -> bool {
        self.has[byte as usize]
    }

    /// Adds those of the state.
    fn admit_state(&mut self, state: &State) {
        match state {
            State::ByteRange { trans } => self.admit(trans),
            State::Sparse(transitions) => self.admit_all(transitions),
            _ => (),
        }
    }

    /// Adds those of the transitions.
    fn admit_all(&mut self, transitions: &[Transition]) {
        for trans in transitions {
            self.admit(trans);
        }
    }

    /// Adds the byte of the transition, if it has only one.
    fn admit(&mut self, trans: &Transition) {
        if trans.start == trans.end {
            self.has[trans.start as usize] = true;
        }
    }
}
