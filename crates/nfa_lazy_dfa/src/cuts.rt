//! Bytes next to each other that an NFA treats alike.
ghost use Rattle.std.specs.Prelude.{◌≡◌, ℕ, ◌+◌, ◌<◌, length};
ghost use Rattle.thompson_nfa.specs.Automaton.{node_of};
ghost use Rattle.nfa_paths.specs.Paths.{first_target, holds_byte, target_on};
ghost use Rattle.nfa_lazy_dfa.specs.Cuts.{AreCuts, IsUncut, KeepsCuts};

use thompson_nfa::{NFA, State, Transition};

/// Where bytes next to each other are treated otherwise: after the byte of each index. With assertions, everywhere.
pub fn cuts_of(nfa: &NFA, looks: bool) -> [bool; 256]
    ensures { AreCuts nfa.now looks result }
{
    let mut cuts = [looks; 256];
    for state in nfa.states() {
        cut_state(&mut cuts, state);
    }
    cuts
}

/// Cuts where the state treats bytes otherwise.
fn cut_state(cuts: &mut [bool; 256], state: &State)
    ensures alike { (k : ℕ) → IsUncut cuts.new k
        → target_on (node_of state.now) k ≡ target_on (node_of state.now) (k + 1) }
    ensures keeps { KeepsCuts cuts.old cuts.new }
{
    match state {
        State::ByteRange { trans } => cut_around(cuts, trans),
        State::Sparse(transitions) => cut_all(cuts, transitions),
        State::Dense(_) => cut_everywhere(cuts),
        _ => {}
    }
}

/// Cuts after each byte.
fn cut_everywhere(cuts: &mut [bool; 256])
    ensures none { (k : ℕ) → IsUncut cuts.new k → ⊥ }
    ensures keeps { KeepsCuts cuts.old cuts.new }
{
    for at in 0..256 {
        cuts[at] = true;
    }
}

/// Cuts around the ranges of all transitions.
fn cut_all(cuts: &mut [bool; 256], transitions: &[Transition])
    ensures alike { (k : ℕ) → IsUncut cuts.new k
        → first_target transitions.now k ≡ first_target transitions.now (k + 1) }
    ensures keeps { KeepsCuts cuts.old cuts.new }
{
    for trans in transitions {
        cut_around(cuts, trans);
    }
}

/// Cuts around the range of the transition.
fn cut_around(cuts: &mut [bool; 256], trans: &Transition)
    ensures alike { (k : ℕ) → IsUncut cuts.new k → holds_byte trans.now k ≡ holds_byte trans.now (k + 1) }
    ensures keeps { KeepsCuts cuts.old cuts.new }
{
    if trans.start > 0 {
        cut(cuts, trans.start - 1);
    }
    cut(cuts, trans.end);
}

/// Cuts after the byte.
fn cut(cuts: &mut [bool; 256], byte: u8)
    ensures cut { IsUncut cuts.new byte → ⊥ }
    ensures keeps { KeepsCuts cuts.old cuts.new }
{
    cuts[byte as usize] = true;
}
