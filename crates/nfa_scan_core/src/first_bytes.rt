//! The bytes that a match may begin with.
//!
//! Some states are reached from the start of anchored searches before a byte is read. If none of them is a match and
//! none reads the byte at a position, no match begins there, and a search skips the position.
ghost use Rattle.std.specs.Prelude.{◌≡◌, ℕ, ◌<◌, ◌≤◌, [], ◌∷◌, Some, true, false, slice_index_or, All, IfSome, IfNone};
ghost use Rattle.thompson_nfa.specs.Automaton.{LeadsBelow, node_of};
ghost use Rattle.thompson_nfa.specs.Automaton.Node.{ByteRange, Sparse, Dense};
ghost use Rattle.nfa_paths.specs.Paths.{holds_byte, target_on};
ghost use Rattle.nfa_scan_core.specs.FirstBytes.{Admits, Grows, WasReached, Extends, AreBelow, Covers, IsFirstBytes};
ghost use Rattle.nfa_scan_core.specs.FirstBytes.{AddsOnly, Differ, LacksRoom, GrowsBy, Stops, MayBegin};
ghost use Rattle.nfa_scan_core.specs.FirstBytes.{epsilon_targets};

use regex_search_core::StateID;
use std::fmt;
use thompson_nfa::{NFA, State, Transition};

/// The maximum number of states that are followed.
const LIMIT: usize = 64;

/// The bytes that a match may begin with. No match begins with a byte that is refused. No byte is refused if a match
/// may be empty, or if more than 64 states would have to be followed.
#[derive(Clone, Copy)]
pub struct FirstBytes {
    /// For each byte, whether a match may begin with it.
    pub may_begin: [bool; 256],
}

// Leaves the table out, which would hide everything printed next to it.
impl fmt::Debug for FirstBytes {
    fn fmt<W: fmt::Write>(&self, f: &mut fmt::Formatter<W>) -> fmt::Result {
        f.debug_struct("FirstBytes").finish_non_exhaustive()
    }
}

impl FirstBytes {
    /// Returns the bytes that a match of the NFA may begin with.
    pub fn new(nfa: &NFA) -> FirstBytes
        ensures { IsFirstBytes nfa.now result.may_begin }
    {
        match follow_all(nfa) {
            Some(first) => first,
            None => FirstBytes {
                may_begin: [true; 256],
            },
        }
    }

    /// Returns whether the byte is refused, so that no match begins with it.
    #[inline(always)]
    pub fn refuses(&self, byte: u8) -> bool
        ensures refused { result ≡ true → slice_index_or self.now.may_begin byte true ≡ false }
        ensures admitted { result ≡ false → slice_index_or self.now.may_begin byte true ≡ true }
    {
        !self.may_begin[byte as usize]
    }
}

/// The states that are reached before a byte is read: the first `len` of these.
#[derive(Drop)]
struct ReachedStates {
    states: [StateID; LIMIT],
    len: usize,
}

impl ReachedStates {
    /// Whether the state was reached.
    fn has(&self, sid: StateID) -> bool
        requires { self.now.len ≤ 64 }
        ensures reached { result ≡ true → WasReached self.now sid }
        ensures other { result ≡ false → WasReached self.now sid → ⊥ }
    {
        for place in 0..self.len {
            if self.states[place] == sid {
                return true;
            }
        }
        false
    }

    /// Adds the state, and returns whether there was room for it.
    fn add(&mut self, sid: StateID) -> bool
        requires { self.old.len ≤ 64 }
        ensures room { self.new.len ≤ 64 }
        ensures extends { Extends self.old self.new }
        ensures added { result ≡ true → WasReached self.new sid }
        ensures below { (n : ℕ) → sid < n → AreBelow n self.old → AreBelow n self.new }
        ensures only { AddsOnly self.old self.new (sid ∷ []) }
        ensures differ { Differ self.old → Differ self.new }
        ensures full { result ≡ false → LacksRoom self.new (sid ∷ []) }
    {
        if self.has(sid) {
            return true;
        }
        if self.len >= LIMIT {
            return false;
        }
        self.states[self.len] = sid;
        self.len += 1;
        true
    }

    /// Adds each of the states, and returns whether there was room for them.
    fn add_all(&mut self, sids: &[StateID]) -> bool
        requires { self.old.len ≤ 64 }
        ensures room { self.new.len ≤ 64 }
        ensures extends { Extends self.old self.new }
        ensures added { result ≡ true → All (WasReached self.new) sids.now }
        ensures below { (n : ℕ) → All (λ s. s < n) sids.now → AreBelow n self.old → AreBelow n self.new }
        ensures only { AddsOnly self.old self.new sids.now }
        ensures differ { Differ self.old → Differ self.new }
        ensures full { result ≡ false → LacksRoom self.new sids.now }
    {
        for i in 0..sids.len() {
            if !self.add(sids[i]) {
                return false;
            }
        }
        true
    }
}

/// Admits the bytes of the transition.
fn admit(table: &mut [bool; 256], trans: &Transition)
    ensures grows { Grows table.old table.new }
    ensures admits { (b : ℕ) → holds_byte trans.now b ≡ true → Admits table.new b }
    ensures only { GrowsBy table.old table.new (ByteRange trans.now) }
{
    for byte in trans.start as usize..trans.end as usize + 1 {
        table[byte] = true;
    }
}

/// Admits the bytes of the transitions.
fn admit_all(table: &mut [bool; 256], transitions: &[Transition])
    ensures grows { Grows table.old table.new }
    ensures admits { (b t : ℕ) → target_on (Sparse transitions.now) b ≡ Some t → Admits table.new b }
    ensures only { GrowsBy table.old table.new (Sparse transitions.now) }
{
    for i in 0..transitions.len() {
        admit(table, &transitions[i]);
    }
}

/// Admits the bytes that have a target.
fn admit_targets(table: &mut [bool; 256], targets: &[Option<StateID>])
    ensures grows { Grows table.old table.new }
    ensures admits { (b t : ℕ) → target_on (Dense targets.now) b ≡ Some t → Admits table.new b }
    ensures only { GrowsBy table.old table.new (Dense targets.now) }
{
    for byte in 0..256 {
        if let Some(Some(_)) = targets.get(byte) {
            table[byte] = true;
        }
    }
}

/// Adds the states that this state leads to without a byte, and admits the bytes that it reads. Returns false if the
/// state is a match or if there was no room.
fn follow(state: &State, reached: &mut ReachedStates, table: &mut [bool; 256]) -> bool
    requires { reached.old.len ≤ 64 }
    ensures room { reached.new.len ≤ 64 }
    ensures extends { Extends reached.old reached.new }
    ensures grows { Grows table.old table.new }
    ensures covers { result ≡ true → Covers reached.new table.new (node_of state.now) }
    ensures below { (n : ℕ) → LeadsBelow n (node_of state.now) → AreBelow n reached.old → AreBelow n reached.new }
    ensures adds { AddsOnly reached.old reached.new (epsilon_targets (node_of state.now)) }
    ensures differ { Differ reached.old → Differ reached.new }
    ensures only { GrowsBy table.old table.new (node_of state.now) }
    ensures stops { result ≡ false → Stops reached.new (node_of state.now) }
{
    match state {
        State::ByteRange { trans } => {
            admit(table, trans);
            true
        }
        State::Sparse(transitions) => {
            admit_all(table, transitions);
            true
        }
        State::Dense(targets) => {
            admit_targets(table, targets);
            true
        }
        State::Look { next, .. } => reached.add(*next),
        State::Union { alternates } => reached.add_all(alternates),
        State::BinaryUnion { alt1, alt2 } => reached.add(*alt1) && reached.add(*alt2),
        State::Capture { next, .. } => reached.add(*next),
        State::Fail => true,
        State::Match { .. } => false,
    }
}

/// Follows all states that are reached before a byte is read. `None` if one of them is a match or if there is no room.
fn follow_all(nfa: &NFA) -> Option<FirstBytes>
    ensures some { IfSome result (λ first. IsFirstBytes nfa.now first.may_begin) }
    ensures none { IfNone result ((b : ℕ) → MayBegin nfa.now b) }
{
    let mut reached = ReachedStates {
        states: [nfa.start_anchored(); LIMIT],
        len: 1,
    };
    let mut table = [false; 256];
    let mut done = 0;
    while done < reached.len {
        let state = nfa.state(reached.states[done]);
        if !follow(state, &mut reached, &mut table) {
            return None;
        }
        done += 1;
    }
    Some(FirstBytes { may_begin: table })
}
