//! The bytes that a match may begin with, if they are few.
ghost use Rattle.std.specs.Prelude.{◌≡◌, ◌⊎◌, ℕ, ◌<◌, ◌≤◌, All, false, length, slice_index_or, true};
ghost use Rattle.memchr.specs.Find.{IsFirstByte};
ghost use Rattle.nfa_facts.specs.FewBytes.{BeginsAmong, LacksBetween, is_among};

use memchr::{memchr, memchr2, memchr3};
use nfa_scan_core::first_bytes::FirstBytes;
use thompson_nfa::NFA;

/// The bytes that a match of an NFA may begin with, if they are at most three.
#[derive(Clone, Copy, Debug)]
pub enum FewBytes {
    /// Any byte: they are more than three, or a match may be empty.
    Any,
    /// No byte.
    No,
    One(u8),
    Two(u8, u8),
    Three(u8, u8, u8),
}

impl FewBytes {
    /// Returns the bytes that a match of the NFA may begin with, wherever it starts.
    ///
    /// They are `Any` too if more than 64 states can be reached before a byte is read. They do not cover
    /// `Anchored::Pattern`, whose searches begin with another state.
    ///
    /// ```
    /// // NFA of "foo[0-9]+"
    /// let few = FewBytes::new(&nfa);
    /// assert!(rt; few.next(b"a foo1", 0, 6) == 2);
    /// ```
    pub fn new(nfa: &NFA) -> FewBytes
        ensures { BeginsAmong nfa.now result }
    {
        let table = FirstBytes::new(nfa);
        let mut few = FewBytes::No;
        for byte in 0..256usize {
            few = few.with_admitted(&table, byte as u8);
        }
        few
    }

    /// Returns these bytes, and this one unless the table refuses it.
    fn with_admitted(self, table: &FirstBytes, byte: u8) -> FewBytes
        ensures keeps { (b : ℕ) → is_among result b ≡ false → is_among self b ≡ false }
        ensures refused { is_among result byte ≡ false → slice_index_or table.now.may_begin byte true ≡ false }
    {
        if table.refuses(byte) {
            return self;
        }
        self.with(byte)
    }

    /// Returns these bytes and this one.
    fn with(self, byte: u8) -> FewBytes
        ensures keeps { (b : ℕ) → is_among result b ≡ false → is_among self b ≡ false }
        ensures has { is_among result byte ≡ true }
    {
        match self {
            FewBytes::No => FewBytes::One(byte),
            FewBytes::One(a) => FewBytes::Two(a, byte),
            FewBytes::Two(a, b) => FewBytes::Three(a, b, byte),
            FewBytes::Three(..) | FewBytes::Any => FewBytes::Any,
        }
    }

    /// Returns the first position from `from` on, before `end`, whose byte is one of these. Returns `end` if there is
    /// none, and `from` if that is past the end.
    ///
    /// Requires that `end` is not past the end of the haystack.
    ///
    /// ```
    /// let few = FewBytes::Two(b'x', b'y');
    /// assert!(rt; few.next(b"a y x", 1, 5) == 2);
    /// assert!(rt; few.next(b"a y x", 0, 2) == 2);
    /// ```
    pub fn next(&self, haystack: &[u8], from: usize, end: usize) -> usize
        requires { end ≤ length haystack.now }
        ensures onward { from ≤ result }
        ensures within { (result ≤ end) ⊎ (result ≡ from) }
        ensures lacks { LacksBetween self.now haystack.now from result }
        ensures bytes { All (λ b. b < 256) haystack.now }
    {
        if from > end {
            return from;
        }
        match self.find(&haystack[from..end]) {
            Some(at) => from + at,
            None => end,
        }
    }

    /// Returns the first position whose byte is one of these.
    fn find(&self, part: &[u8]) -> Option<usize>
        ensures { IsFirstByte (is_among self.now) part.now result }
    {
        match self {
            FewBytes::Any => first_position(part),
            FewBytes::No => None,
            FewBytes::One(a) => memchr(*a, part),
            FewBytes::Two(a, b) => memchr2(*a, *b, part),
            FewBytes::Three(a, b, c) => memchr3(*a, *b, *c, part),
        }
    }
}

/// Returns the first position, if there is one.
fn first_position(part: &[u8]) -> Option<usize>
    ensures { IsFirstByte (λ _. true) part.now result }
{
    if part.is_empty() { None } else { Some(0) }
}
