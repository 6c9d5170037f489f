//! How many bytes each match of an NFA has at least.
ghost use Rattle.std.specs.Prelude.{◌≡◌, ◌<◌, ◌≤◌, All, IfOk, IfSome, length, slice_index_or, true};
ghost use Rattle.thompson_nfa.specs.Automaton.{LeadsBelow, node_of};
ghost use Rattle.nfa_facts.specs.LeastLengths.{AreLeastLengths, HasLeast, IsLeastOf};

use regex_search_core::StateID;
use std::alloc::{AllocError, Global};
use thompson_nfa::{NFA, State, Transition};

/// How often the numbers of all states are set. Twice is enough for what the compiler makes: it numbers what follows a
/// part before the part, but for the match itself.
const ROUNDS: usize = 2;

/// Returns a number of bytes that each match of the NFA has at least, wherever it starts: at most 255. It is 0 if the
/// numbers are not settled after a few rounds, as may be if an NFA is made by hand. It does not cover
/// `Anchored::Pattern`, whose searches begin with another state. The only error is that an allocation failed.
pub(crate) fn least_length(alloc: Global, nfa: &NFA) -> Result<usize, AllocError>
    ensures { IfOk result (HasLeast nfa.now) }
{
    let mut lengths = vec![in alloc; u8::MAX; nfa.states().len()]?;
    for _ in 0..ROUNDS {
        lower_all(&mut lengths, nfa);
    }
    if !are_least_lengths(&lengths, nfa) {
        return Ok(0);
    }
    Ok(length_of(&lengths, nfa.start_anchored()) as usize)
}

/// Sets the number of each state to what those of its targets allow, from the first state to the last.
fn lower_all(lengths: &mut [u8], nfa: &NFA)
    requires { length lengths.old ≡ length nfa.now.states }
    ensures { length lengths.new ≡ length nfa.now.states }
{
    let states = nfa.states();
    for index in 0..states.len() {
        lengths[index] = least_from(lengths, &states[index]);
    }
}

/// Whether no state's number is more than those of its targets allow.
fn are_least_lengths(lengths: &[u8], nfa: &NFA) -> bool
    requires { length lengths.now ≡ length nfa.now.states }
    ensures { result ≡ true → AreLeastLengths nfa.now lengths.now }
{
    let states = nfa.states();
    for index in 0..states.len() {
        if lengths[index] > least_from(lengths, &states[index]) {
            return false;
        }
    }
    true
}

/// Returns the least number of bytes from the state to a match, if its targets have these numbers.
fn least_from(lengths: &[u8], state: &State) -> u8
    requires { LeadsBelow (length lengths.now) (node_of state.now) }
    ensures { IsLeastOf lengths.now (node_of state.now) result }
{
    match state {
        State::ByteRange { trans } => length_of(lengths, trans.next).saturating_add(1),
        State::Sparse(transitions) => least_over(lengths, transitions).saturating_add(1),
        State::Dense(targets) => least_of_targets(lengths, targets).saturating_add(1),
        State::Look { next, .. } | State::Capture { next, .. } => length_of(lengths, *next),
        State::Union { alternates } => least_of(lengths, alternates),
        State::BinaryUnion { alt1, alt2 } => {
            length_of(lengths, *alt1).min(length_of(lengths, *alt2))
        }
        State::Fail => u8::MAX,
        State::Match { .. } => 0,
    }
}

/// Returns the number of the state.
fn length_of(lengths: &[u8], state: StateID) -> u8
    requires { state < length lengths.now }
    ensures { result ≡ slice_index_or lengths.now state 0 }
{
    lengths[state.as_usize()]
}

/// Returns the least number of the targets of these transitions.
fn least_over(lengths: &[u8], transitions: &[Transition]) -> u8
    requires { All (λ t. t.next < length lengths.now) transitions.now }
    ensures { All (λ t. result ≤ slice_index_or lengths.now t.next 0) transitions.now }
{
    let mut least = u8::MAX;
    for trans in transitions {
        least = least.min(length_of(lengths, trans.next));
    }
    least
}

/// Returns the least number of the targets that are there.
fn least_of_targets(lengths: &[u8], targets: &[Option<StateID>]) -> u8
    requires { All (λ o. IfSome o (λ s. s < length lengths.now)) targets.now }
    ensures { All (λ o. IfSome o (λ s. result ≤ slice_index_or lengths.now s 0)) targets.now }
{
    let mut least = u8::MAX;
    for target in targets {
        least = least_with(lengths, least, *target);
    }
    least
}

/// Returns the lesser of this number and that of the target, if there is a target.
fn least_with(lengths: &[u8], least: u8, target: Option<StateID>) -> u8
    requires { IfSome target (λ s. s < length lengths.now) }
    ensures before { result ≤ least }
    ensures here { IfSome target (λ s. result ≤ slice_index_or lengths.now s 0) }
{
    match target {
        Some(state) => least.min(length_of(lengths, state)),
        None => least,
    }
}

/// Returns the least number of these states.
fn least_of(lengths: &[u8], states: &[StateID]) -> u8
    requires { All (λ s. s < length lengths.now) states.now }
    ensures { All (λ s. result ≤ slice_index_or lengths.now s 0) states.now }
{
    let mut least = u8::MAX;
    for state in states {
        least = least.min(length_of(lengths, *state));
    }
    least
}
