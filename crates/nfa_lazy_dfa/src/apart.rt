//! Whether the start state of an NFA is reached again over a byte.
ghost use Rattle.std.specs.Prelude.{◌≡◌, ℕ, Some, false, option_and_then, slice_get, true};
ghost use Rattle.thompson_nfa.specs.Automaton.{node_of};
ghost use Rattle.nfa_paths.specs.Paths.{first_target, target_on};
ghost use Rattle.nfa_lazy_dfa.specs.Apart.{IsStartApart};

use regex_search_core::StateID;
use thompson_nfa::{NFA, State, Transition};

/// Whether no byte leads to the start, so that a row whose only state is the start has no path of an earlier start.
pub fn is_start_apart(nfa: &NFA) -> bool
    ensures { result ≡ true → IsStartApart nfa.now }
{
    let start = nfa.start_anchored();
    for state in nfa.states() {
        if may_lead_to(state, start) {
            return false;
        }
    }
    true
}

/// Whether some byte may lead from the state to this one.
fn may_lead_to(state: &State, sid: StateID) -> bool
    ensures { result ≡ false → (byte : ℕ) → target_on (node_of state.now) byte ≡ Some sid → ⊥ }
{
    match state {
        State::ByteRange { trans } => trans.next == sid,
        State::Sparse(transitions) => has_transition_to(transitions, sid),
        State::Dense(targets) => has_target(targets, sid),
        _ => false,
    }
}

/// Whether one of the transitions leads to the state.
fn has_transition_to(transitions: &[Transition], sid: StateID) -> bool
    ensures { result ≡ false → (byte : ℕ) → first_target transitions.now byte ≡ Some sid → ⊥ }
{
    for trans in transitions {
        if trans.next == sid {
            return true;
        }
    }
    false
}

/// Whether one of the targets is the state.
fn has_target(targets: &[Option<StateID>], sid: StateID) -> bool
    ensures { result ≡ false
        → (byte : ℕ) → option_and_then (λ target. target) (slice_get targets.now byte) ≡ Some sid → ⊥ }
{
    for target in targets {
        if is_target(*target, sid) {
            return true;
        }
    }
    false
}

/// Whether the target is the state.
fn is_target(target: Option<StateID>, sid: StateID) -> bool
    ensures { result ≡ false → target ≡ Some sid → ⊥ }
{
    match target {
        Some(target) => target == sid,
        None => false,
    }
}
