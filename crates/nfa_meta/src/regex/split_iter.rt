//! Iteration over the spans around the matches of a text.

use crate::regex::{FindMatches, Regex};
use regex_search_core::{Input, Span};

/// An iterator over the spans of a haystack before, between and after its matches, from left to right. [`Regex::split`]
/// returns it.
///
/// It gives one span more than there are matches. It is fused: after the last span it returns only `None`.
#[derive(Drop)]
pub struct Split<'r, 'h> {
    matches: FindMatches<'r, 'h>,
    // The next span starts here, and the last one ends there.
    start: usize,
    end: usize,
    done: bool,
}

/// An iterator over the first of the spans that [`Split`] gives, of which the last goes to the end of the haystack.
/// [`Regex::splitn`] returns it.
///
/// It gives at most as many spans as its limit. It is fused.
#[derive(Drop)]
pub struct SplitN<'r, 'h> {
    spans: Split<'r, 'h>,
    // The most spans still to come.
    left: usize,
}

impl Regex {
    ghost use Rattle.std.specs.Prelude.{◌≡◌};
    ghost use Rattle.nfa_search_base.specs.Runs.{RunsGive};
    ghost use Rattle.nfa_meta.specs.Gaps.{IsSplit};
    ghost use Rattle.nfa_meta.specs.Splits.{BeginsOne, BeginsSplit, IsSplitWithin, SplitGivesIn, SplitGivesKept};
    ghost use Rattle.nfa_meta.specs.Splits.{SplitNGivesIn};
    ghost use Rattle.nfa_meta.specs.Splits.{SplitNGivesKept};
    ghost use Rattle.nfa_meta.specs.Splits.{split_next, split_regex, splitn_next, splitn_regex};

    /// Returns an iterator over the spans of the haystack before, between and after its matches, from left to right:
    /// those that [`Regex::split_all`] lists. Does not allocate.
    ///
    /// ```
    /// // regex of "[;/]+"
    /// let mut ranges = Vec::new(alloc);
    /// for span in regex.split(b"a;b//c") {
    ///     ranges.push(span.range())?;
    /// }
    /// assert_eq!(rt; ranges.as_slice(), [0..1, 2..3, 5..6].as_slice());
    /// ```
    pub fn split<'r, 'h>(&'r mut self, haystack: &'h [u8]) -> Split<'r, 'h>
        ensures same_reference { (split_regex result).ghost_name ≡ self.entry.ghost_name }
        ensures same_regex { (split_regex result).now ≡ self.entry.now }
        // Each run of calls gives the first spans of the haystack, and all of them if it goes on to `None`.
        ensures runs { RunsGive split_next (BeginsOne (IsSplit self.entry.now.choice haystack.now))
            (IsSplit self.entry.now.choice haystack.now) result }
        ensures inside { SplitGivesIn haystack.now result }
        ensures keeps { SplitGivesKept result }
    {
        self.begin_split(haystack)
    }

    /// Returns an iterator over the first of the spans that [`Regex::split`] gives, at most `limit` of them. The last
    /// one goes to the end of the haystack. It gives none if `limit` is 0. Searches for no more matches than it needs.
    /// Does not allocate.
    ///
    /// ```
    /// // regex of "[;/]+"
    /// let mut ranges = Vec::new(alloc);
    /// for span in regex.splitn(b"a;b//c", 2) {
    ///     ranges.push(span.range())?;
    /// }
    /// assert_eq!(rt; ranges.as_slice(), [0..1, 2..6].as_slice());
    /// ```
    pub fn splitn<'r, 'h>(&'r mut self, haystack: &'h [u8], limit: usize) -> SplitN<'r, 'h>
        ensures same_reference { (splitn_regex result).ghost_name ≡ self.entry.ghost_name }
        ensures same_regex { (splitn_regex result).now ≡ self.entry.now }
        // Each run of calls gives the first of these spans, and all of them if it goes on to `None`.
        ensures runs { RunsGive splitn_next (BeginsOne (IsSplitWithin self.entry.now.choice haystack.now limit))
            (IsSplitWithin self.entry.now.choice haystack.now limit) result }
        ensures inside { SplitNGivesIn haystack.now result }
        ensures keeps { SplitNGivesKept result }
    {
        SplitN {
            spans: self.begin_split(haystack),
            left: limit,
        }
    }

    // The iterator over the spans before its first call.
    fn begin_split<'r, 'h>(&'r mut self, haystack: &'h [u8]) -> Split<'r, 'h>
        ensures same_reference { (split_regex result).ghost_name ≡ self.entry.ghost_name }
        ensures same_regex { (split_regex result).now ≡ self.entry.now }
        ensures begins { BeginsSplit self.entry.now.choice haystack.now result }
    {
        Split {
            matches: self.find_iter(Input::new(haystack)),
            start: 0,
            end: haystack.len(),
            done: false,
        }
    }
}

impl<'r, 'h> Split<'r, 'h> {
    ghost use Rattle.nfa_meta.specs.Splits.{ends_split};

    // Ends the iteration: returns the rest of the haystack, unless it has ended.
    fn rest(&mut self) -> Option<Span>
        ensures { ends_split self.old result self.new }
    {
        if self.done {
            return None;
        }
        self.done = true;
        Some(Span {
            start: self.start,
            end: self.end,
        })
    }
}

impl<'r, 'h> Iterator for Split<'r, 'h> {
    ghost use Rattle.nfa_meta.specs.Splits.{split_left, split_next};

    type Item = Span;

    ghost next_gives = { split_next };

    ghost remaining = { split_left };

    #[inline]
    fn next(&mut self) -> Option<Span> {
        if self.done {
            return None;
        }
        let Some(found) = self.matches.next() else {
            return self.rest();
        };
        let start = self.start;
        self.start = found.end();
        Some(Span {
            start,
            end: found.start(),
        })
    }
}

impl<'r, 'h> Iterator for SplitN<'r, 'h> {
    ghost use Rattle.nfa_meta.specs.Splits.{splitn_left, splitn_next};

    type Item = Span;

    ghost next_gives = { splitn_next };

    ghost remaining = { splitn_left };

    fn next(&mut self) -> Option<Span> {
        if self.left == 0 {
            return None;
        }
        self.left -= 1;
        if self.left == 0 {
            return self.spans.rest();
        }
        self.spans.next()
    }
}
