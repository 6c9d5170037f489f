//! The input of a search, and its matches.
ghost use Rattle.std.specs.Prelude.{◌≡◌, ◌+◌, ◌-◌, ◌<◌, ◌≤◌, ◌↔◌, ◌^◌, length, IsTrue, false, option_map};
ghost use Rattle.regex_search_core.specs.Boundary.{IsBoundary};

use crate::primitives::{NonMaxUsize, PatternID};
use crate::slots::span_in;
use std::ops::Range;
use thiserror::Error;

/// The bytes from offset `start` up to, but not including, offset `end`.
#[derive(Clone, Copy, Debug, PartialEq, Eq, Hash)]
pub struct Span {
    pub start: usize,
    pub end: usize,
}

impl Span {
    /// Returns the number of bytes in the span. It is `end - start`, or 0 if `end` is less than `start`.
    pub fn len(&self) -> usize
        ensures { result ≡ self.now.end - self.now.start }
    {
        self.end.saturating_sub(self.start)
    }

    /// Returns whether the span has no bytes, that is, whether `end` is at most `start`.
    pub fn is_empty(&self) -> bool
        ensures { IsTrue result ↔ (self.now.end ≤ self.now.start) }
    {
        self.start >= self.end
    }

    /// Returns the same offsets as a range, which can index a slice.
    pub fn range(&self) -> Range<usize>
        ensures { result ≡ record { start = self.now.start; end = self.now.end } }
    {
        self.start..self.end
    }

    /// Returns the span moved to the right by this number of bytes.
    ///
    /// Requires that both of its offsets still fit into a `usize`.
    pub fn offset(&self, offset: usize) -> Span
        requires start { self.now.start + offset < 2 ^ 64 }
        requires end { self.now.end + offset < 2 ^ 64 }
        ensures { result ≡ record { start = self.now.start + offset; end = self.now.end + offset } }
    {
        Span {
            start: self.start + offset,
            end: self.end + offset,
        }
    }
}

/// Where a match may start, and which pattern may match.
#[derive(Clone, Copy, Debug, PartialEq, Eq, Hash)]
pub enum Anchored {
    /// Anywhere in the span, for any pattern.
    No,
    /// Only at the start of the span, for any pattern.
    Yes,
    /// Only at the start of the span, and only for this pattern.
    Pattern(PatternID),
}

impl Anchored {
    ghost use Rattle.regex_search_core.specs.PatternSets.{number_of};
    ghost use Rattle.regex_search_core.specs.Search.{anchored_pattern, is_anchored};

    /// Returns whether a match may only start at the start of the span: true for `Yes` and `Pattern`.
    pub fn is_anchored(&self) -> bool
        ensures { result ≡ is_anchored self.now }
    {
        !matches!(self, Anchored::No)
    }

    /// Returns the one pattern that may match. `None` if any pattern may.
    pub fn pattern(&self) -> Option<PatternID>
        ensures { option_map number_of result ≡ anchored_pattern self.now }
    {
        match self {
            Anchored::Pattern(pattern) => Some(*pattern),
            _ => None,
        }
    }
}

/// Which of the matches that begin at one position a search returns.
#[derive(Clone, Copy, Debug, PartialEq, Eq, Hash)]
pub enum MatchKind {
    /// Each of them counts, whatever was found before.
    All,
    /// Only the first in the order of preference.
    LeftmostFirst,
}

impl MatchKind {
    /// Returns whether a search continues past the first match that it finds: true for `All` only.
    pub fn continue_past_first_match(&self) -> bool
        ensures { IsTrue result ↔ (self.now ≡ MatchKind.All) }
    {
        *self == MatchKind::All
    }
}

/// The parameters of a search: a haystack, the span to search, where a match may start, and whether the search may stop
/// at the earliest match.
///
/// The span ends within the haystack, and starts at most one past its own end. Look-around sees the whole haystack. A
/// contract sees an input as `search_of`.
#[derive(Clone, Copy, Debug)]
pub struct Input<'h> {
    haystack: &'h [u8],
    span: Span,
    anchored: Anchored,
    earliest: bool,
    pub ghost within: { span.end ≤ length haystack.now },
    pub ghost ordered: { span.start ≤ span.end + 1 },

    // No slice of bytes is longer.
    pub ghost short: { length haystack.now < 2 ^ 63 },
}

impl<'h> Input<'h> {
    ghost use Rattle.regex_search_core.specs.Search.{search_of, whole};

    /// Makes an input that searches the whole haystack, not anchored and not `earliest`.
    pub fn new(haystack: &'h [u8]) -> Input<'h>
        ensures { search_of result ≡ whole haystack.now }
    {
        Input {
            haystack,
            span: Span {
                start: 0,
                end: haystack.len(),
            },
            anchored: Anchored::No,
            earliest: false,
        }
    }

    /// Returns the same input with this span. Requires that the span ends within the haystack and starts at most one
    /// past its own end.
    pub fn span(mut self, span: Span) -> Input<'h>
        requires within { span.end ≤ length (search_of self).haystack }
        requires ordered { span.start ≤ span.end + 1 }
        ensures { search_of result ≡ record (search_of self.entry) { start = span.start; end = span.end } }
    {
        self.set_span(span);
        self
    }

    /// Returns the same input with the span of this range. Requires the same as [`Input::span`].
    pub fn range(mut self, range: Range<usize>) -> Input<'h>
        requires within { range.end ≤ length (search_of self).haystack }
        requires ordered { range.start ≤ range.end + 1 }
        ensures { search_of result ≡ record (search_of self.entry) { start = range.start; end = range.end } }
    {
        self.set_range(range);
        self
    }

    /// Returns the same input with this anchoring.
    pub fn anchored(mut self, mode: Anchored) -> Input<'h>
        ensures { search_of result ≡ record (search_of self.entry) { anchored = mode } }
    {
        self.set_anchored(mode);
        self
    }

    /// Returns the same input with a search that may stop at the earliest match (`true`) or may not (`false`).
    pub fn earliest(mut self, yes: bool) -> Input<'h>
        ensures { search_of result ≡ record (search_of self.entry) { earliest = yes } }
    {
        self.set_earliest(yes);
        self
    }

    /// Sets the span. Requires the same as [`Input::span`].
    pub fn set_span(&mut self, span: Span)
        requires within { span.end ≤ length (search_of self.old).haystack }
        requires ordered { span.start ≤ span.end + 1 }
        ensures { search_of self.new ≡ record (search_of self.old) { start = span.start; end = span.end } }
    {
        self.span = span;
    }

    /// Sets the span to that of this range. Requires the same as [`Input::span`].
    pub fn set_range(&mut self, range: Range<usize>)
        requires within { range.end ≤ length (search_of self.old).haystack }
        requires ordered { range.start ≤ range.end + 1 }
        ensures { search_of self.new ≡ record (search_of self.old) { start = range.start; end = range.end } }
    {
        self.set_span(Span {
            start: range.start,
            end: range.end,
        });
    }

    /// Sets where a match may start, and which pattern may match.
    pub fn set_anchored(&mut self, mode: Anchored)
        ensures { search_of self.new ≡ record (search_of self.old) { anchored = mode } }
    {
        self.anchored = mode;
    }

    /// Sets whether the search may stop at the earliest match (`true`) or may not (`false`).
    pub fn set_earliest(&mut self, yes: bool)
        ensures { search_of self.new ≡ record (search_of self.old) { earliest = yes } }
    {
        self.earliest = yes;
    }

    /// Sets the start of the span, a byte offset. Requires that it is at most one past the span's end.
    pub fn set_start(&mut self, start: usize)
        requires { start ≤ (search_of self.old).end + 1 }
        ensures { search_of self.new ≡ record (search_of self.old) { start = start } }
    {
        self.span.start = start;
    }

    /// Sets the end of the span, a byte offset. Requires that it is within the haystack and at least the span's start
    /// less one.
    pub fn set_end(&mut self, end: usize)
        requires within { end ≤ length (search_of self.old).haystack }
        requires ordered { (search_of self.old).start ≤ end + 1 }
        ensures { search_of self.new ≡ record (search_of self.old) { end = end } }
    {
        self.span.end = end;
    }

    /// Returns the whole haystack, including the bytes outside the span.
    pub fn haystack(&self) -> &'h [u8]
        ensures { result.now ≡ (search_of self.now).haystack }
    {
        self.haystack
    }

    /// Returns the start of the span, a byte offset into the haystack.
    pub fn start(&self) -> usize
        ensures { result ≡ (search_of self.now).start }
    {
        self.span.start
    }

    /// Returns the end of the span, a byte offset into the haystack.
    pub fn end(&self) -> usize
        ensures value { result ≡ (search_of self.now).end }
    {
        self.span.end
    }

    /// Returns the span to search.
    pub fn get_span(&self) -> Span
        ensures start { result.start ≡ (search_of self.now).start }
        ensures end { result.end ≡ (search_of self.now).end }
    {
        self.span
    }

    /// Returns the span to search, as a range.
    pub fn get_range(&self) -> Range<usize>
        ensures { result ≡ record { start = (search_of self.now).start; end = (search_of self.now).end } }
    {
        self.span.range()
    }

    /// Returns where a match may start, and which pattern may match.
    pub fn get_anchored(&self) -> Anchored
        ensures { result ≡ (search_of self.now).anchored }
    {
        self.anchored
    }

    /// Returns whether the search may stop at the earliest match.
    pub fn get_earliest(&self) -> bool
        ensures { result ≡ (search_of self.now).earliest }
    {
        self.earliest
    }

    /// Returns whether nothing is left to search: the span's start is greater than its end.
    pub fn is_done(&self) -> bool
        ensures { IsTrue result ↔ ((search_of self.now).end < (search_of self.now).start) }
    {
        self.span.start > self.span.end
    }

    /// Returns whether the offset does not split a codepoint of UTF-8 (RFC 3629): it is the haystack's length, or its
    /// byte is not a continuation byte, that is, at most 0x7F or at least 0xC0.
    pub fn is_char_boundary(&self, offset: usize) -> bool
        ensures { IsTrue result ↔ IsBoundary (search_of self.now).haystack offset }
    {
        match self.haystack.get(offset) {
            None => offset == self.haystack.len(),
            Some(&byte) => byte <= 0x7F || byte >= 0xC0,
        }
    }
}

/// A pattern, and the byte offset at which a match of it ends.
///
/// A contract sees it as `half_found_of`.
#[derive(Clone, Copy, Debug, PartialEq, Eq, Hash)]
pub struct HalfMatch {
    pattern: PatternID,
    offset: usize,
}

impl HalfMatch {
    ghost use Rattle.regex_search_core.specs.PatternSets.{number_of};
    ghost use Rattle.regex_search_core.specs.Found.{half_found_of};

    /// Makes a match of the pattern that ends at the offset.
    pub fn new(pattern: PatternID, offset: usize) -> HalfMatch
        ensures { half_found_of result ≡ record { pattern = number_of pattern; offset = offset } }
    {
        HalfMatch { pattern, offset }
    }

    /// Returns the pattern that matches.
    pub fn pattern(&self) -> PatternID
        ensures { number_of result ≡ (half_found_of self.now).pattern }
    {
        self.pattern
    }

    /// Returns the end of the match, a byte offset into the haystack.
    pub fn offset(&self) -> usize
        ensures { result ≡ (half_found_of self.now).offset }
    {
        self.offset
    }
}

/// A pattern, and the span of a match of it. The start of the span is at most its end.
///
/// A contract sees it as `found_of`.
#[derive(Clone, Copy, Debug, PartialEq, Eq, Hash)]
pub struct Match {
    pattern: PatternID,
    span: Span,
    pub ghost ordered: { span.start ≤ span.end },
}

impl Match {
    ghost use Rattle.std.specs.Prelude.{Some, option_map};
    ghost use Rattle.regex_search_core.specs.PatternSets.{number_of};
    ghost use Rattle.regex_search_core.specs.Found.{found_of};
    ghost use Rattle.regex_search_core.specs.Slots.{match_of};

    /// Makes a match of the pattern at the span. Requires that the start of the span is at most its end.
    pub fn new(pattern: PatternID, span: Span) -> Match
        requires { span.start ≤ span.end }
        ensures { found_of result ≡ record { pattern = number_of pattern; start = span.start; end = span.end } }
    {
        Match { pattern, span }
    }

    /// Returns the match of the pattern that a row of slots gives. It starts at the offset in slot `2 * pattern` and
    /// ends at the offset in the next slot. `None` if the row is too short, if one of the two slots is `None`, or if
    /// the start is greater than the end.
    pub fn from_slots(pattern: PatternID, slots: &[Option<NonMaxUsize>]) -> Option<Match>
        ensures { option_map found_of result ≡ match_of (Some (number_of pattern)) slots.now }
    {
        let span = span_in(slots, pattern.as_usize() * 2)?;
        Some(Match { pattern, span })
    }

    /// Returns the pattern that matches.
    pub fn pattern(&self) -> PatternID
        ensures { number_of result ≡ (found_of self.now).pattern }
    {
        self.pattern
    }

    /// Returns the span of the match.
    pub fn span(&self) -> Span
        ensures { result ≡ record { start = (found_of self.now).start; end = (found_of self.now).end } }
    {
        self.span
    }

    /// Returns the start of the match, a byte offset into the haystack.
    pub fn start(&self) -> usize
        ensures { result ≡ (found_of self.now).start }
    {
        self.span.start
    }

    /// Returns the end of the match, a byte offset into the haystack.
    pub fn end(&self) -> usize
        ensures { result ≡ (found_of self.now).end }
    {
        self.span.end
    }

    /// Returns the span of the match as a range, which can index the haystack.
    pub fn range(&self) -> Range<usize>
        ensures start { result.start ≡ (found_of self.now).start }
        ensures end { result.end ≡ (found_of self.now).end }
    {
        self.span.range()
    }

    /// Returns the number of bytes in the match.
    pub fn len(&self) -> usize
        ensures { result ≡ (found_of self.now).end - (found_of self.now).start }
    {
        self.span.len()
    }

    /// Returns whether the match is empty.
    pub fn is_empty(&self) -> bool
        ensures { IsTrue result ↔ ((found_of self.now).start ≡ (found_of self.now).end) }
    {
        self.span.start == self.span.end
    }
}

/// Why a search failed, with the variants of regex-automata. A finder that a caller passes in may fail with it.
#[derive(Clone, Copy, Debug, PartialEq, Eq, Hash, Error)]
pub enum MatchError {
    /// The search stopped at this byte, which it may not go past, at this offset.
    #[error("the search must stop at byte {byte}, at offset {offset}")]
    Quit { byte: u8, offset: usize },
    /// The search gave up at this offset, since going on would have been inefficient.
    #[error("the search gave up at offset {offset}")]
    GaveUp { offset: usize },
    /// The haystack has this number of bytes, too many for the search.
    #[error("the haystack of {len} bytes is too long to search")]
    HaystackTooLong { len: usize },
    /// The search does not support this anchoring.
    #[error("anchored mode {mode:?} is not supported")]
    UnsupportedAnchored { mode: Anchored },
}
