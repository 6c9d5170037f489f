//! Numbers of patterns and states, and byte offsets.
ghost use Rattle.std.specs.Prelude.{◌≡◌, ℕ, ◌<◌, ◌≤◌};
ghost use Rattle.std.specs.Option.{SomeIff};

use std::marker::Model;

/// The maximum number of a pattern or a state: two less than 2 ^ 31, as in regex-automata.
const MAX_INDEX: usize = 2147483646;

/// The number of a pattern, at most 2147483646. Patterns count from 0.
///
/// A contract sees the number as `number_of`.
#[derive(Clone, Copy, Debug, PartialEq, Eq, PartialOrd, Ord, Hash)]
pub struct PatternID {
    index: u32,
    pub ghost small: { index ≤ 2147483646 },
}

impl PatternID {
    ghost use Rattle.std.specs.Prelude.{option_map};
    ghost use Rattle.regex_search_core.specs.PatternSets.{number_of};

    /// Makes the pattern of this number. `None` if the number is above 2147483646.
    pub fn new(index: usize) -> Option<PatternID>
        ensures { SomeIff (option_map number_of result) (index ≤ 2147483646) index }
    {
        if index > MAX_INDEX {
            return None;
        }
        Some(PatternID {
            index: index as u32,
        })
    }

    /// Returns the number, as an index.
    pub fn as_usize(self) -> usize
        ensures value { result ≡ number_of self }
        ensures within { result ≤ 2147483646 }
    {
        self.index as usize
    }
}

/// The number of a state of an NFA, at most 2147483646. States count from 0.
///
/// A contract sees it as its number.
#[derive(Clone, Copy, Debug, PartialEq, Eq, PartialOrd, Ord, Hash)]
pub struct StateID(u32);

impl Model for StateID {
    ghost Value = { ℕ };

    ghost view = { λ p. p.0 };

    ghost invariant = { λ p. p.0 ≤ 2147483646 };

    ghost inverse = { λ n. record { 0 = n } };
}

impl StateID {
    /// Makes the state of this number. `None` if the number is above 2147483646.
    pub fn new(index: usize) -> Option<StateID>
        ensures { SomeIff result (index ≤ 2147483646) index }
    {
        if index > MAX_INDEX {
            return None;
        }
        Some(StateID(index as u32))
    }

    /// Returns the number, as an index.
    pub fn as_usize(self) -> usize
        ensures value { result ≡ self }
        ensures within { result ≤ 2147483646 }
    {
        self.0 as usize
    }
}

/// A byte offset below `usize::MAX`, as a slot holds it.
///
/// A contract sees it as its number.
#[derive(Clone, Copy, Debug, PartialEq, Eq, PartialOrd, Ord, Hash)]
pub struct NonMaxUsize(usize);

impl Model for NonMaxUsize {
    ghost use Rattle.std.specs.Prelude.{ℕ, ◌<◌, ◌-◌, ◌^◌};

    ghost Value = { ℕ };

    ghost view = { λ p. p.0 };

    ghost invariant = { λ p. p.0 < 2 ^ 64 - 1 };

    ghost inverse = { λ n. record { 0 = n } };
}

impl NonMaxUsize {
    /// Makes this offset. `None` for `usize::MAX`.
    pub fn new(value: usize) -> Option<NonMaxUsize>
        ensures { SomeIff result (value < usize.MAX) value }
    {
        if value == usize::MAX {
            return None;
        }
        Some(NonMaxUsize(value))
    }

    /// Returns the offset.
    pub fn get(self) -> usize
        ensures value { result ≡ self }
        ensures within { result < usize.MAX }
    {
        self.0
    }
}
