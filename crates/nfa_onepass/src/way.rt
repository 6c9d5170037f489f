//! The only way from a state to one that reads a byte, or to a Match.
ghost use Rattle.std.specs.Prelude.{◌≡◌, ◌<◌, ◌≤◌, ◌++◌, ◌∷◌, [], IfOk, IfSome, IsErrOf, None, false, length, true};
ghost use Rattle.thompson_nfa.specs.Automaton.{node_of};
ghost use Rattle.thompson_nfa.specs.Flaws.{pattern_of};
ghost use Rattle.nfa_onepass.specs.Ways.{IsDead, free_states, goal_of, written};
ghost use Rattle.nfa_onepass.specs.Lists.{HasEmptyList, Keeps, list_at};
ghost use Rattle.nfa_onepass.specs.Tables.{GoesOn, IsReached, threads_at};

use crate::lists::{Lists, NO_SLOTS};
use nfa_scan_core::transitions::target;
use regex_search_core::StateID;
use thompson_nfa::{NFA, State};

/// The number of states to look at before a step counts as not sure: a cycle of states that read no byte has no end.
const MAX_TURNS: usize = 4096;

/// A state that a way came to, and the list of the slots that it wrote.
#[derive(Clone, Copy)]
pub struct Thread {
    pub sid: StateID,
    pub list: u32,
}

/// The end of a way: its goal, and the list of the slots that it wrote.
#[derive(Clone, Copy)]
pub struct WayEnd {
    pub goal: u32,
    pub list: u32,
}

/// Why a search for the only way found none.
#[derive(Clone, Copy)]
pub enum NoWay {
    /// There are several, or too many states to look at, or there was no room or memory.
    Unsure,
    /// There is none, and none to a `Match` where no assertion holds.
    Nothing,
    /// A way leads to a `Match` where no assertion holds.
    Match,
}

/// What the state leads to: with a byte the target on it, without one the pattern of a `Match`.
fn goal(state: &State, byte: Option<u8>) -> Option<u32>
    ensures goal { result ≡ goal_of byte (node_of state.now) }
    ensures small { IfSome result (λ k. k ≤ 2147483646) }
{
    match byte {
        Some(_) => Some(target(state, byte)?.as_usize() as u32),
        None => match state {
            State::Match { pattern_id } => Some(pattern_id.as_usize() as u32),
            _ => None,
        },
    }
}

/// Whether the state is a `Match` that a way came to where no assertion holds.
fn matches_plainly(state: &State, looks: bool) -> bool
    ensures { result ≡ false → looks ≡ false → pattern_of (node_of state.now) ≡ None }
{
    !looks && goal(state, None).is_some()
}

/// The number of the list after the state, if the one before it has this number.
fn list_after(lists: &mut Lists, state: &State, list: u32) -> Option<u32>
    requires { list < length lists.old.items.items }
    ensures keeps { Keeps lists.old.items.items lists.new.items.items }
    ensures most { lists.new.most ≡ lists.old.most }
    ensures after { IfSome result (λ after. (after < length lists.new.items.items)
        × (list_at lists.new.items.items after ≡ list_at lists.old.items.items list ++ written (node_of state.now))) }
{
    match state {
        State::Capture { slot, .. } => lists.extended(list, *slot),
        _ => Some(list),
    }
}

/// Pushes each state with the list. Returns whether there was memory for them.
fn push_each(stack: &mut Vec<Thread>, states: &[StateID], list: u32) -> bool
    ensures { result ≡ true → stack.new.items ≡ stack.old.items ++ threads_at list states.now }
{
    for sid in states {
        if stack.push(Thread { sid: *sid, list }).is_err() {
            return false;
        }
    }
    true
}

/// Pushes the states that the state leads to without a byte, with the list, if each assertion holds or none does.
/// Returns whether there was memory for them.
fn push_free(stack: &mut Vec<Thread>, state: &State, list: u32, looks: bool) -> bool
    ensures { result ≡ true
        → stack.new.items ≡ stack.old.items ++ threads_at list (free_states looks (node_of state.now)) }
{
    match state {
        State::Look { next, .. } => !looks || push_each(stack, &[*next], list),
        State::Capture { next, .. } => push_each(stack, &[*next], list),
        State::Union { alternates } => push_each(stack, alternates, list),
        State::BinaryUnion { alt1, alt2 } => push_each(stack, &[*alt1, *alt2], list),
        _ => true,
    }
}

/// Goes on from the thread to the states that its state leads to without a byte, if each assertion holds or none does.
/// Returns whether there was memory.
fn go_on(nfa: &NFA, lists: &mut Lists, stack: &mut Vec<Thread>, thread: Thread, looks: bool) -> bool
    requires state { thread.sid < length nfa.now.states }
    requires list { thread.list < length lists.old.items.items }
    ensures keeps { Keeps lists.old.items.items lists.new.items.items }
    ensures most { lists.new.most ≡ lists.old.most }
    ensures on { result ≡ true
        → GoesOn nfa.now looks lists.old.items.items lists.new.items.items stack.old.items stack.new.items thread }
{
    let state = nfa.state(thread.sid);
    match list_after(lists, state, thread.list) {
        Some(list) => push_free(stack, state, list, looks),
        None => false,
    }
}

/// Returns where the only way from the state leads that ends at a goal, if each assertion holds or none does: with the
/// byte at a target, without one at the pattern of a `Match`. If none does, there is no such way from a state that also
/// leads to a `Match`.
pub fn only_way(
    nfa: &NFA,
    lists: &mut Lists,
    stack: &mut Vec<Thread>,
    sid: StateID,
    byte: Option<u8>,
    looks: bool,
) -> Result<WayEnd, NoWay>
    requires state { sid < length nfa.now.states }
    requires first { HasEmptyList lists.old.items.items }
    ensures keeps { Keeps lists.old.items.items lists.new.items.items }
    ensures most { lists.new.most ≡ lists.old.most }
    ensures reached { IfOk result (IsReached nfa.now lists.new.items.items looks sid byte) }
    ensures nothing { IsErrOf result NoWay.Nothing → IsDead nfa.now looks sid byte }
{
    stack.clear();
    if !push_each(stack, &[sid], NO_SLOTS) {
        return Err(NoWay::Unsure);
    }
    let mut found: Option<WayEnd> = None;
    'turns: for _ in 0..MAX_TURNS {
        let Some(thread) = stack.pop() else {
            return found.ok_or(NoWay::Nothing);
        };
        let state = nfa.state(thread.sid);
        match goal(state, byte) {
            Some(goal) => {
                if found.is_some() {
                    return Err(NoWay::Unsure);
                }
                found = Some(WayEnd {
                    goal,
                    list: thread.list,
                });
            }
            None => {
                if matches_plainly(state, looks) {
                    return Err(NoWay::Match);
                }
                if !go_on(nfa, lists, stack, thread, looks) {
                    return Err(NoWay::Unsure);
                }
            }
        }
    }
    Err(NoWay::Unsure)
}
