//! Iteration over the groups of a match.
ghost use Rattle.std.specs.Prelude.{◌≡◌, ℕ, ◌+◌, ◌*◌, ◌^◌, ◌<◌, [], Some, IfSome, MatchOption, length, slice_get};

use crate::captures::Captures;
use crate::primitives::NonMaxUsize;
use crate::search::Span;
use crate::slots::span_in;

/// An iterator over the spans of the groups of a pattern, in order. [`Captures::iter`] makes it.
///
/// An item is `None` for a group that did not take part. A contract sees the items still to come as `spans_left`.
#[derive(Debug, Drop)]
pub struct CapturesPatternIter<'a> {
    slots: &'a [Option<NonMaxUsize>],
    // The slot of the next group, the slot of the group after it, and the number of groups still to come.
    next: usize,
    explicit: usize,
    left: usize,
    ghost next_is_slot: { next < 2 ^ 33 },
    ghost rest_are_slots: { explicit + 2 * left < 2 ^ 33 },
}

impl Captures {
    ghost use Rattle.regex_search_core.specs.Slots.{captured_count, group_span, group_spans, spans_at, spans_left};

    /// Returns an iterator over the groups of the pattern that is set, in order, beginning with group 0. Each item is
    /// the span that [`Captures::get_group`] returns for the group.
    ///
    /// There are no items if no pattern is set or if `GroupInfo` does not know the pattern.
    #[tactic(auto, using(crate::proofs::GroupLemmas::spans_are_of_groups))]
    pub fn iter(&self) -> CapturesPatternIter<'_>
        ensures all { spans_left result ≡ group_spans self.now }
        ensures count { length (group_spans self.now) ≡ captured_count self.now }
        ensures at { (i : ℕ) → i < captured_count self.now
            → slice_get (group_spans self.now) i ≡ Some (group_span self.now i) }
    {
        let (next, explicit, left) = self.group_slots().unwrap_or((0, 0, 0));
        CapturesPatternIter {
            slots: &self.slots,
            next,
            explicit,
            left,
        }
    }

    // The slot of group 0 of the pattern that is set, the slot of its first explicit group, and the number of its
    // groups.
    fn group_slots(&self) -> Option<(usize, usize, usize)>
        ensures spans { MatchOption result (group_spans self.now ≡ [])
            (λ s. spans_at self.now.slots s.0 s.1 s.2 ≡ group_spans self.now) }
        ensures next_is_slot { IfSome result (λ s. s.0 < 2 ^ 33) }
        ensures rest_are_slots { IfSome result (λ s. s.1 + 2 * s.2 < 2 ^ 33) }
    {
        let pattern = self.pattern?;
        let (explicit, count) = self.group_info().explicit_groups(pattern)?;
        Some((pattern.as_usize() * 2, explicit, count + 1))
    }
}

impl<'a> Iterator for CapturesPatternIter<'a> {
    ghost use Rattle.std.specs.Iterator.{YieldsFirst, item_count};
    ghost use Rattle.regex_search_core.specs.Slots.{spans_left};

    type Item = Option<Span>;

    ghost next_gives = { YieldsFirst spans_left };

    ghost remaining = { item_count spans_left };

    fn next(&mut self) -> Option<Option<Span>> {
        if self.left == 0 {
            return None;
        }
        let span = span_in(self.slots, self.next);
        self.next = self.explicit;
        self.explicit += 2;
        self.left -= 1;
        Some(span)
    }
}
