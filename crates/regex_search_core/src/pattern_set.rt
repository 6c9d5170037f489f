//! A set of patterns.
ghost use Rattle.std.specs.Prelude.{◌≡◌, ◌+◌, ◌<◌, ◌↔◌, List, Bool, Some, None, true, false, not, length, replicate};
ghost use Rattle.std.specs.Prelude.{if◌then◌else◌, nat_lt, slice_index_or, IfOk, IsTrue};
ghost use Rattle.regex_search_core.specs.PatternSets.{with_pattern, without_pattern, size_of_set, AreNumbers};
ghost use Rattle.regex_search_core.specs.PatternSets.{number_of};

use crate::primitives::PatternID;
use crate::refused::Refused;
use std::alloc::Global;
use std::marker::Model;

/// A set of patterns whose numbers are below the set's capacity. The capacity is fixed when the set is made.
///
/// A contract sees, for each number below the capacity, whether that pattern is in the set.
#[derive(Debug, Drop)]
pub struct PatternSet {
    which: Vec<bool>,
    len: usize,
}

impl Model for PatternSet {
    ghost use Rattle.std.specs.Prelude.{List, Bool};
    ghost use Rattle.regex_search_core.specs.PatternSets.{IsPatternSet};

    ghost Value = { List Bool };

    ghost view = { λ s. s.which.items };

    ghost invariant = { λ s. IsPatternSet s.len s.which.items };
}

impl PatternSet {
    ghost use Rattle.std.specs.Prelude.{ℕ, Contains};
    ghost use Rattle.std.specs.List.Sorted.{IsStrictlyIncreasing};
    ghost use Rattle.regex_search_core.specs.PatternSets.{patterns_of};
    ghost use Rattle.regex_search_core.specs.PatternSetIters.{patterns_left};

    /// Makes an empty set of this capacity.
    pub fn new(alloc: Global, capacity: usize) -> Result<PatternSet, Refused>
        ensures { IfOk result (λ made. made ≡ replicate capacity false) }
    {
        let which = vec![in alloc; false; capacity]?;
        Ok(PatternSet { which, len: 0 })
    }

    /// Adds the pattern, and returns whether it is new. `None` if the pattern is not below the capacity; the set then
    /// stays as it was.
    pub fn try_insert(&mut self, pattern: PatternID) -> Option<bool>
        ensures answer { result ≡ (if nat_lt (number_of pattern) (length self.old)
            then Some (not (slice_index_or self.old (number_of pattern) false)) else None) }
        ensures after { self.new ≡ with_pattern self.old (number_of pattern) }
    {
        let index = pattern.as_usize();
        if index >= self.which.len() {
            return None;
        }
        if self.which[index] {
            return Some(false);
        }
        self.which[index] = true;
        self.len += 1;
        Some(true)
    }

    /// Adds the pattern, and returns whether it is new.
    ///
    /// Requires that the pattern is below the capacity. [`PatternSet::try_insert`] checks that.
    pub fn insert(&mut self, pattern: PatternID) -> bool
        requires { number_of pattern < length self.old }
        ensures answer { result ≡ not (slice_index_or self.old (number_of pattern) false) }
        ensures after { self.new ≡ with_pattern self.old (number_of pattern) }
    {
        match self.try_insert(pattern) {
            Some(is_new) => is_new,
            None => unreachable!(),
        }
    }

    /// Removes the pattern, and returns whether it was in the set. Any pattern may be passed.
    pub fn remove(&mut self, pattern: PatternID) -> bool
        ensures answer { result ≡ slice_index_or self.old (number_of pattern) false }
        ensures after { self.new ≡ without_pattern self.old (number_of pattern) }
    {
        if !self.contains(pattern) {
            return false;
        }
        self.which[pattern.as_usize()] = false;
        self.len -= 1;
        true
    }

    /// Removes all patterns. The capacity stays.
    pub fn clear(&mut self)
        ensures { self.new ≡ replicate (length self.old) false }
    {
        self.which.fill(false);
        self.len = 0;
    }

    /// Returns whether the pattern is in the set.
    pub fn contains(&self, pattern: PatternID) -> bool
        ensures { result ≡ slice_index_or self.now (number_of pattern) false }
    {
        self.contains_number(pattern.as_usize())
    }

    /// Returns whether the pattern with this number is in the set. Any number may be passed.
    pub fn contains_number(&self, number: usize) -> bool
        ensures { result ≡ slice_index_or self.now number false }
    {
        number < self.which.len() && self.which[number]
    }

    /// Returns the number of patterns in the set.
    pub fn len(&self) -> usize
        ensures { result ≡ size_of_set self.now }
    {
        self.len
    }

    /// Returns the capacity. Each pattern in the set is below this number.
    pub fn capacity(&self) -> usize
        ensures { result ≡ length self.now }
    {
        self.which.len()
    }

    /// Returns whether the set is empty.
    pub fn is_empty(&self) -> bool
        ensures { IsTrue result ↔ (size_of_set self.now ≡ 0) }
    {
        self.len == 0
    }

    /// Returns whether each pattern below the capacity is in the set.
    pub fn is_full(&self) -> bool
        ensures { IsTrue result ↔ (size_of_set self.now ≡ length self.now) }
    {
        self.len == self.which.len()
    }

    /// Returns an iterator over the patterns in the set, in ascending order.
    #[tactic(auto, using(crate::proofs::PatternSetLemmas::patterns_in_set))]
    pub fn iter(&self) -> PatternSetIter<'_>
        ensures all { patterns_left result ≡ patterns_of self.now }
        ensures ascending { IsStrictlyIncreasing (patterns_of self.now) }
        ensures members { (p : ℕ) → Contains (patterns_of self.now) p ↔ (slice_index_or self.now p false ≡ true) }
    {
        PatternSetIter {
            which: &self.which,
            next: 0,
        }
    }
}

/// An iterator over the patterns of a set, in ascending order.
///
/// A contract sees the numbers of the patterns still to come as `patterns_left`.
#[derive(Debug, Drop)]
pub struct PatternSetIter<'a> {
    which: &'a [bool],
    next: usize,
    ghost numbered: { AreNumbers which.now },
}

impl<'a> Iterator for PatternSetIter<'a> {
    ghost use Rattle.std.specs.Iterator.{YieldsFirstBy, item_count};
    ghost use Rattle.regex_search_core.specs.PatternSetIters.{patterns_left};

    type Item = PatternID;

    ghost next_gives = { YieldsFirstBy number_of patterns_left };

    ghost remaining = { item_count patterns_left };

    fn next(&mut self) -> Option<PatternID> {
        'patterns: while self.next < self.which.len() {
            let index = self.next;
            self.next += 1;
            if self.which[index] {
                return PatternID::new(index);
            }
        }
        None
    }
}
