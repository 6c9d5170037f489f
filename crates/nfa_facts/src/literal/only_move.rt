//! States that move on in one way only.
ghost use Rattle.std.specs.Prelude.{◌≡◌, ◌<◌, IfSome};
ghost use Rattle.thompson_nfa.specs.Automaton.{LeadsBelow, node_of};
ghost use Rattle.nfa_facts.specs.Prefixes.{move_over, only_move};

use regex_search_core::StateID;
use thompson_nfa::{State, Transition};

/// The only move of a state.
#[derive(Clone, Copy, Debug)]
pub struct Move {
    /// The byte that the move reads, if it reads one.
    pub byte: Option<u8>,
    pub next: StateID,
}

/// Returns the only move of the state. Returns `None` if it has another one, or none.
pub fn only_move(state: &State) -> Option<Move>
    ensures { result ≡ only_move (node_of state.now) }
{
    match state {
        State::ByteRange { trans } => move_over(trans),
        State::Sparse(transitions) => match &transitions[..] {
            [trans] => move_over(trans),
            _ => None,
        },
        State::Look { next, .. } | State::Capture { next, .. } => Some(Move {
            byte: None,
            next: *next,
        }),
        _ => None,
    }
}

/// The move over the transition, if it has only one byte.
fn move_over(trans: &Transition) -> Option<Move>
    ensures { result ≡ move_over trans.now }
{
    if trans.start != trans.end {
        return None;
    }
    Some(Move {
        byte: Some(trans.start),
        next: trans.next,
    })
}
