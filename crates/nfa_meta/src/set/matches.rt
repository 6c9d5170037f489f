//! The patterns of a set that match.
ghost use Rattle.std.specs.Prelude.{◌≡◌, ◌↔◌, ℕ, Contains, IsTrue, false, length, not, slice_index_or, true};
ghost use Rattle.std.specs.List.Sorted.{IsStrictlyIncreasing};
ghost use Rattle.regex_search_core.specs.PatternSets.{patterns_of, size_of_set};
ghost use Rattle.regex_search_core.specs.PatternSetIters.{patterns_left};

use regex_search_core::{PatternID, PatternSet, PatternSetIter};
use std::marker::Model;

/// Which patterns of a [`RegexSet`](crate::RegexSet) match. [`RegexSet::matches`](crate::RegexSet::matches) returns it.
/// `for pattern in &found` goes over those that match, as [`SetMatches::iter`] does.
///
/// A contract sees, for each pattern of the set, whether it matches.
#[derive(Debug, Drop)]
pub struct SetMatches {
    patterns: PatternSet,
}

impl Model for SetMatches {
    ghost use Rattle.std.specs.Prelude.{Bool, List};

    ghost Value = { List Bool };

    ghost view = { λ m. m.patterns };
}

impl SetMatches {
    /// Returns the same as matches of a set.
    pub(super) fn of(patterns: PatternSet) -> SetMatches
        ensures { result ≡ patterns }
    {
        SetMatches { patterns }
    }

    /// Returns whether a pattern matches.
    ///
    /// ```
    /// // found of ["foo", "[0-9]+"] in "a foo"
    /// assert!(rt; found.matched_any());
    /// ```
    pub fn matched_any(&self) -> bool
        ensures { IsTrue (not result) ↔ (size_of_set self.now ≡ 0) }
    {
        !self.patterns.is_empty()
    }

    /// Returns whether each pattern matches.
    ///
    /// ```
    /// // found of ["foo", "[0-9]+"] in "a foo"
    /// assert!(rt; !found.matched_all());
    /// ```
    pub fn matched_all(&self) -> bool
        ensures { IsTrue result ↔ (size_of_set self.now ≡ length self.now) }
    {
        self.patterns.is_full()
    }

    /// Returns whether the pattern with this number matches. No other number does.
    ///
    /// ```
    /// // found of ["foo", "[0-9]+"] in "a foo"
    /// assert!(rt; found.matched(0) && !found.matched(1) && !found.matched(2));
    /// ```
    pub fn matched(&self, index: usize) -> bool
        ensures { result ≡ slice_index_or self.now index false }
    {
        self.patterns.contains_number(index)
    }

    /// Returns the number of patterns of the set, of those that match and of the others.
    ///
    /// ```
    /// // found of ["foo", "[0-9]+"] in "a foo"
    /// assert_eq!(rt; found.len(), 2);
    /// ```
    pub fn len(&self) -> usize
        ensures { result ≡ length self.now }
    {
        self.patterns.capacity()
    }

    /// Returns an iterator over the patterns that match, in ascending order.
    ///
    /// ```
    /// // found of ["foo", "[0-9]+"] in "a foo"
    /// let mut numbers = Vec::new(alloc);
    /// for pattern in found.iter() {
    ///     numbers.push(pattern.as_usize())?;
    /// }
    /// assert_eq!(rt; numbers.as_slice(), [0].as_slice());
    /// for pattern in &found {
    ///     assert_eq!(rt; pattern.as_usize(), 0);
    /// }
    /// ```
    pub fn iter(&self) -> PatternSetIter<'_>
        ensures all { patterns_left result ≡ patterns_of self.now }
        ensures ascending { IsStrictlyIncreasing (patterns_of self.now) }
        ensures members { (p : ℕ) → Contains (patterns_of self.now) p ↔ (slice_index_or self.now p false ≡ true) }
    {
        self.patterns.iter()
    }
}

impl<'a> IntoIterator for &'a SetMatches {
    type Item = PatternID;

    type IntoIter = PatternSetIter<'a>;

    ghost into_iter_gives = { λ m left. patterns_left left ≡ patterns_of m.now };

    fn into_iter(self) -> PatternSetIter<'a> {
        self.iter()
    }
}
