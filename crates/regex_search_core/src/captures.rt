//! What the groups of a match captured.
ghost use Rattle.std.specs.Prelude.{◌≡◌, ◌↔◌, ◌*◌, ◌≤◌, None, Ok, Some, [], length, replicate, IfOk, IsTrue, IsSome, option_map};
ghost use Rattle.std.specs.Borrow.{sem};
ghost use Rattle.regex_search_core.specs.Groups.{slot_count};
ghost use Rattle.regex_search_core.specs.Slots.{match_of, captured_count, group_span, named_span, text_of_group};
ghost use Rattle.regex_search_core.specs.Slots.{text_of_name, text_of_span};
ghost use Rattle.regex_search_core.specs.PatternSets.{number_of};

mod groups;
mod held_groups;

use crate::group_info::GroupInfo;
use crate::primitives::{NonMaxUsize, PatternID};
use crate::refused::Refused;
use crate::search::{Match, Span};
use crate::slots::span_in;
pub use groups::CapturesPatternIter;
use held_groups::HeldGroups;
use smallvec::{SmallVec, smallvec};
use std::alloc::Global;
use std::marker::Model;

/// The pattern that a search matched, if any, and the slots of its groups.
///
/// A slot holds the byte offset of the start or the end of a group, or `None` if the group did not take part. Copies
/// share the groups, and two slots lie in the captures, so a copy takes memory for more than two slots only. A contract
/// sees the groups, the pattern's number and the slots.
#[derive(Debug)]
pub struct Captures {
    group_info: HeldGroups,
    pattern: Option<PatternID>,
    slots: SmallVec<Option<NonMaxUsize>, 2>,
}

// Written out, so that a drop is one call in a proof, and not one for each field.
impl Drop for Captures {
    fn drop(self) {
        let Captures {
            group_info: _,
            pattern: _,
            slots: _,
        } = self;
    }
}

impl Model for Captures {
    ghost use Rattle.std.specs.Prelude.{option_map};
    ghost use Rattle.regex_search_core.specs.PatternSets.{number_of};
    ghost use Rattle.regex_search_core.specs.Slots.{Captured};
    ghost use Rattle.regex_search_core.specs.HeldGroups.{held_groups};

    ghost Value = { Captured };

    ghost view = { λ c. record {
      groups = held_groups c.group_info;
      pattern = option_map number_of c.pattern;
      slots = c.slots.items;
    } };
}

impl Captures {
    ghost use Rattle.regex_search_core.specs.CapturesLends.{LendsSlots};
    ghost use Rattle.regex_search_core.specs.Found.{found_of};

    /// Makes captures with two slots for each group of each pattern, all unset, and no pattern.
    pub fn all(alloc: Global, group_info: GroupInfo) -> Result<Captures, Refused>
        ensures { IfOk result (λ made. made ≡ record {
          groups = group_info;
          pattern = None;
          slots = replicate (slot_count group_info) None;
        }) }
    {
        let slots = smallvec![in alloc; None; group_info.slot_len()]?;
        Ok(Captures {
            group_info: HeldGroups::shared(alloc, group_info)?,
            pattern: None,
            slots,
        })
    }

    /// Makes captures with two slots for each pattern, those of group 0, all unset, and no pattern.
    pub fn matches(alloc: Global, group_info: GroupInfo) -> Result<Captures, Refused>
        ensures { IfOk result (λ made. made ≡ record {
          groups = group_info;
          pattern = None;
          slots = replicate (2 * length group_info) None;
        }) }
    {
        let slots = smallvec![in alloc; None; group_info.implicit_slot_len()]?;
        Ok(Captures {
            group_info: HeldGroups::shared(alloc, group_info)?,
            pattern: None,
            slots,
        })
    }

    /// Makes captures without slots and without a pattern. It allocates nothing, so it always returns `Ok`.
    pub fn empty(alloc: Global, group_info: GroupInfo) -> Result<Captures, Refused>
        ensures { result ≡ Ok (record { groups = group_info; pattern = None; slots = [] }) }
    {
        Ok(Captures {
            group_info: HeldGroups::Owned(group_info),
            pattern: None,
            slots: SmallVec::new(alloc),
        })
    }

    /// Returns the groups of each pattern.
    pub fn group_info(&self) -> &GroupInfo
        ensures { result.now ≡ self.now.groups }
    {
        self.group_info.get()
    }

    /// Returns the pattern that matched. `None` if no pattern is set.
    pub fn pattern(&self) -> Option<PatternID>
        ensures { option_map number_of result ≡ self.now.pattern }
    {
        self.pattern
    }

    /// Sets the pattern that matched. Nothing else changes.
    pub fn set_pattern(&mut self, pattern: Option<PatternID>)
        ensures { self.new ≡ record self.old { pattern = option_map number_of pattern } }
    {
        self.pattern = pattern;
    }

    /// Returns the slots. Group 0 of pattern `p` has the slots `2 * p` and `2 * p + 1`. `GroupInfo::slot` returns the
    /// slots of the other groups.
    pub fn slots(&self) -> &[Option<NonMaxUsize>]
        ensures { result.now ≡ self.now.slots }
    {
        &self.slots
    }

    /// Returns the slots for writing. Their number and everything else in the captures stay as they are.
    pub fn slots_mut(&mut self) -> &mut [Option<NonMaxUsize>]
        ensures* writes_back { sem 𝓛 (LendsSlots self.entry result) }
        ensures value { result.now ≡ self.old.slots }
    {
        &mut self.slots
    }

    /// Returns whether there is a match, that is, whether a pattern is set.
    pub fn is_match(&self) -> bool
        ensures { IsTrue result ↔ IsSome self.now.pattern }
    {
        self.pattern.is_some()
    }

    /// Returns the match of the pattern that is set, read from the slots as [`Match::from_slots`] does.
    pub fn get_match(&self) -> Option<Match>
        ensures { option_map found_of result ≡ match_of self.now.pattern self.now.slots }
    {
        Match::from_slots(self.pattern?, &self.slots)
    }

    /// Returns the span of this group of the pattern that is set, by the rule of [`Match::from_slots`] at the group's
    /// two slots. `None` also if no pattern is set, or if the pattern has no such group.
    pub fn get_group(&self, index: usize) -> Option<Span>
        ensures { result ≡ group_span self.now index }
    {
        let slot = self.group_info().slot(self.pattern?, index)?;
        span_in(&self.slots, slot)
    }

    /// Returns the span of the first group of this name, as [`Captures::get_group`] does.
    pub fn get_group_by_name(&self, name: &str) -> Option<Span>
        ensures { result ≡ named_span self.now name.now }
    {
        let index = self.group_info().to_index(self.pattern?, name)?;
        self.get_group(index)
    }

    /// Returns the bytes of the haystack that the group matched, by the rule of [`Captures::get_group`]. `None` also if
    /// the group ends after the end of the haystack. The captures are then those of another haystack.
    pub fn group_text<'h>(&self, haystack: &'h [u8], index: usize) -> Option<&'h [u8]>
        ensures { option_map (λ text. text.now) result ≡ text_of_group self.now haystack.now index }
    {
        text_at(haystack, self.get_group(index)?)
    }

    /// Returns the bytes of the haystack that the first group of this name matched, as [`Captures::group_text`] does.
    pub fn group_text_by_name<'h>(&self, haystack: &'h [u8], name: &str) -> Option<&'h [u8]>
        ensures { option_map (λ text. text.now) result ≡ text_of_name self.now haystack.now name.now }
    {
        text_at(haystack, self.get_group_by_name(name)?)
    }

    /// Returns the number of groups of the pattern that is set, including group 0. It is 0 if no pattern is set or if
    /// `GroupInfo` does not know the pattern.
    pub fn group_len(&self) -> usize
        ensures { result ≡ captured_count self.now }
    {
        match self.pattern {
            Some(pattern) => self.group_info().group_len(pattern),
            None => 0,
        }
    }

    /// Unsets the pattern and all slots, so that there is no match. The groups and the number of slots stay.
    pub fn clear(&mut self)
        ensures { self.new ≡ record self.old { pattern = None; slots = replicate (length self.old.slots) None } }
    {
        self.pattern = None;
        self.slots.fill(None);
    }

    /// Returns equal captures, which share the groups of these. The groups of [`Captures::empty`] are copied.
    pub fn clone(&self) -> Result<Captures, Refused>
        ensures { IfOk result (λ copy. copy ≡ self.now) }
    {
        Ok(Captures {
            group_info: self.group_info.clone()?,
            pattern: self.pattern,
            slots: copied(*self.slots.allocator(), &self.slots)?,
        })
    }
}

/// Returns the same slots. Two are copied in place, which the general call does more slowly.
fn copied(
    alloc: Global,
    slots: &[Option<NonMaxUsize>],
) -> Result<SmallVec<Option<NonMaxUsize>, 2>, Refused>
    ensures { IfOk result (λ copy. copy.items ≡ slots.now) }
{
    match slots {
        [start, end] => Ok(SmallVec::from_buf(alloc, [*start, *end])),
        _ => Ok(SmallVec::from_slice(alloc, slots)?),
    }
}

/// Returns the bytes of the haystack at the span, if it ends within the haystack.
fn text_at(haystack: &[u8], span: Span) -> Option<&[u8]>
    requires { span.start ≤ span.end }
    ensures { option_map (λ text. text.now) result ≡ text_of_span haystack.now (Some span) }
{
    if span.end > haystack.len() {
        return None;
    }
    Some(&haystack[span.start..span.end])
}
