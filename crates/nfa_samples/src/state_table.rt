//! An NFA as a table of its states.
ghost use Rattle.std.specs.Prelude.{◌≡◌, ◌≤◌, map, option_map, string_bytes, All, IfOk, IsOkUnless, IsTrue};
ghost use Rattle.regex_search_core.specs.Groups.{slot_count};
ghost use Rattle.regex_search_core.specs.PatternSets.{number_of};
ghost use Rattle.thompson_nfa.specs.Automaton.{IsAutomaton, node_of};
ghost use Rattle.nfa_samples.specs.StateTables.{
  IsSmall,
  automaton_in,
  groups_in,
  is_sound,
  names_in,
  node_in,
  prefixed_nfa,
  transition_in,
};

use regex_search_core::{GroupInfo, PatternID, StateID};
use std::alloc::{AllocError, Global};
use thompson_nfa::{BuildError, Look, NFA, State, Transition};

/// A state, as a table gives it. The last number of each row, except of `Union` and `Match`, is the next state.
#[derive(Clone, Copy)]
pub enum StateRow<'a> {
    /// Reads this byte.
    Byte(u8, usize),
    /// Reads a byte from the first to the second, both included.
    Range(u8, u8, usize),
    /// Reads a byte of one of these ranges.
    Ranges(&'a [(u8, u8)], usize),
    /// Leads to either of two states. The first is preferred.
    Either(usize, usize),
    /// Leads to any of these states, in order of preference.
    Union(&'a [usize]),
    /// Writes the position into the slot of this number.
    Capture(usize, usize),
    /// Requires that the assertion holds at the position.
    Assert(Look, usize),
    /// Matches the pattern of this number.
    Match(usize),
}

impl StateRow<'_> {
    /// Makes the state of the row.
    fn state(self, alloc: Global) -> Result<State, AllocError>
        requires { IsSmall self }
        ensures { IfOk result (λ state. node_of state ≡ node_in self.entry) }
    {
        match self {
            StateRow::Byte(byte, next) => Ok(State::ByteRange {
                trans: transition(byte, byte, next),
            }),
            StateRow::Range(start, end, next) => Ok(State::ByteRange {
                trans: transition(start, end, next),
            }),
            StateRow::Ranges(ranges, next) => Ok(State::Sparse(transitions(alloc, ranges, next)?)),
            StateRow::Either(first, second) => Ok(State::BinaryUnion {
                alt1: state_id(first),
                alt2: state_id(second),
            }),
            StateRow::Union(numbers) => Ok(State::Union {
                alternates: state_ids(alloc, numbers)?,
            }),
            StateRow::Capture(slot, next) => Ok(State::Capture {
                next: state_id(next),
                slot,
            }),
            StateRow::Assert(look, next) => Ok(State::Look {
                look,
                next: state_id(next),
            }),
            StateRow::Match(pattern) => Ok(State::Match {
                pattern_id: pattern_id(pattern),
            }),
        }
    }
}

/// The transition on a byte of the range.
fn transition(start: u8, end: u8, next: usize) -> Transition
    requires { next ≤ 2147483646 }
    ensures { result ≡ transition_in start end next }
{
    Transition {
        start,
        end,
        next: state_id(next),
    }
}

/// The transitions on a byte of one of the ranges.
fn transitions(
    alloc: Global,
    ranges: &[(u8, u8)],
    next: usize,
) -> Result<Vec<Transition>, AllocError>
    requires { next ≤ 2147483646 }
    ensures { IfOk result (λ steps. steps.items ≡ map (λ r. transition_in r.0 r.1 next) ranges.now) }
{
    let mut steps = Vec::with_capacity(alloc, ranges.len())?;
    for &(start, end) in ranges {
        steps.push(transition(start, end, next))?;
    }
    Ok(steps)
}

/// The state of this number.
fn state_id(number: usize) -> StateID
    requires { number ≤ 2147483646 }
    ensures { result ≡ number }
{
    StateID::new(number).unwrap()
}

/// The pattern of this number.
fn pattern_id(number: usize) -> PatternID
    requires { number ≤ 2147483646 }
    ensures { number_of result ≡ number }
{
    PatternID::new(number).unwrap()
}

/// The states of these numbers.
fn state_ids(alloc: Global, numbers: &[usize]) -> Result<Vec<StateID>, AllocError>
    requires { All (λ number. number ≤ 2147483646) numbers.now }
    ensures { IfOk result (λ ids. ids.items ≡ numbers.now) }
{
    let mut ids = Vec::with_capacity(alloc, numbers.len())?;
    for &number in numbers {
        ids.push(state_id(number))?;
    }
    Ok(ids)
}

/// The states of the rows.
fn states(alloc: Global, rows: &[StateRow<'_>]) -> Result<Vec<State>, AllocError>
    requires { All IsSmall rows.now }
    ensures { IfOk result (λ states. map node_of states.items ≡ map node_in rows.now) }
{
    let mut states = Vec::with_capacity(alloc, rows.len())?;
    for row in rows {
        states.push(row.state(alloc)?)?;
    }
    Ok(states)
}

/// The names of a pattern's groups.
fn owned_names(alloc: Global, names: &[Option<&str>]) -> Result<Vec<Option<String>>, AllocError>
    ensures { IfOk result (λ owned. map (option_map string_bytes) owned.items ≡ names_in names.now) }
{
    let mut owned = Vec::with_capacity(alloc, names.len())?;
    for name in names {
        owned.push(match name {
            Some(name) => Some(String::from_str(alloc, name)?),
            None => None,
        })?;
    }
    Ok(owned)
}

/// The groups of these patterns.
fn group_info(alloc: Global, patterns: &[&[Option<&str>]]) -> Result<GroupInfo, AllocError>
    requires { slot_count (groups_in patterns.now) ≤ 2147483646 }
    ensures { IfOk result (λ groups. groups ≡ groups_in patterns.now) }
{
    let mut names = Vec::with_capacity(alloc, patterns.len())?;
    for pattern in patterns {
        names.push(owned_names(alloc, pattern)?)?;
    }
    Ok(GroupInfo::new(names).unwrap())
}

/// An NFA, as a table gives it.
#[derive(Clone, Copy)]
pub struct StateTable<'a> {
    /// The states, in the order of their numbers. A search starts at the first one.
    pub rows: &'a [StateRow<'a>],
    /// The start state of each pattern.
    pub starts: &'a [usize],
    /// The explicit groups of each pattern, each with its name if it has one; or the groups of no pattern.
    pub groups: &'a [&'a [Option<&'a str>]],
    /// Whether the NFA can match the empty string.
    pub has_empty: bool,
    /// Whether the NFA is in UTF-8 mode.
    pub utf8: bool,
}

/// A table without states, to be filled: of one pattern without explicit groups, in UTF-8 mode, that cannot match the
/// empty string.
pub const ONE_PATTERN: StateTable<'static> = StateTable {
    rows: &[],
    starts: &[0],
    groups: &[&[]],
    has_empty: false,
    utf8: true,
};

/// The same, of two patterns.
pub const TWO_PATTERNS: StateTable<'static> = StateTable {
    rows: &[],
    starts: &[0, 0],
    groups: &[&[], &[]],
    has_empty: false,
    utf8: true,
};

impl StateTable<'_> {
    /// Makes an NFA whose matches start at the start of the search.
    pub fn anchored(&self, alloc: Global) -> Result<NFA, BuildError>
        requires { IsTrue (is_sound 0 self.now) }
        ensures made { IfOk result (λ made. made ≡ automaton_in (map node_in self.now.rows.now) 0 self.now) }
        ensures memory { IsOkUnless result BuildError.Memory }
    {
        self.build(states(alloc, self.rows)?, 0)
    }

    /// Makes an NFA whose matches may start anywhere. A prefix of two more states skips bytes until a match starts.
    pub fn with_prefix(&self, alloc: Global) -> Result<NFA, BuildError>
        requires { IsTrue (is_sound 2 self.now) }
        ensures made { IfOk result (λ made. made ≡ prefixed_nfa self.now) }
        ensures memory { IsOkUnless result BuildError.Memory }
    {
        let mut states = states(alloc, self.rows)?;
        let prefix = states.len();
        states.push(StateRow::Either(0, prefix + 1).state(alloc)?)?;
        states.push(StateRow::Range(0x00, 0xFF, prefix).state(alloc)?)?;
        self.build(states, prefix)
    }

    /// Makes the NFA of these states.
    fn build(&self, states: Vec<State>, unanchored: usize) -> Result<NFA, BuildError>
        requires start { unanchored ≤ 2147483646 }
        requires starts { All (λ start. start ≤ 2147483646) self.now.starts.now }
        requires slots { slot_count (groups_in self.now.groups.now) ≤ 2147483646 }
        requires sound { IsAutomaton (automaton_in (map node_of states.items) unanchored self.now) }
        ensures made { IfOk result (λ made. made ≡ automaton_in (map node_of states.items) unanchored self.now) }
        ensures memory { IsOkUnless result BuildError.Memory }
    {
        let alloc = *states.allocator();
        NFA::from_states(
            states,
            state_id(0),
            state_id(unanchored),
            state_ids(alloc, self.starts)?,
            group_info(alloc, self.groups)?,
            self.has_empty,
            self.utf8,
        )
    }
}
