//! The capture groups of all patterns, and their slots.
ghost use Rattle.std.specs.Prelude.{◌≡◌, ◌+◌, ◌*◌, ◌<◌, ◌≤◌, length, map, take, sum_by, position, option_map};
ghost use Rattle.std.specs.Prelude.{string_bytes, IfOk, IfSome, IsSome, ◌↔◌};
ghost use Rattle.std.specs.Option.{SomeIff};
ghost use Rattle.regex_search_core.specs.Groups.{names_of, explicit_slot, group_count, slot_count, slot_at, groups_at};
ghost use Rattle.regex_search_core.specs.Groups.{group_named, is_named};
ghost use Rattle.regex_search_core.specs.PatternSets.{number_of};

use crate::primitives::PatternID;
use crate::refused::Refused;
use std::marker::Model;

/// The maximum number of slots, as in regex-automata.
const MAX_SLOTS: usize = 2147483646;

/// The groups of each pattern, and their slots.
///
/// Each pattern has group 0, which is the match itself, and explicit groups 1, 2, .., some of them with a name. A group
/// has two slots, one for the byte offset of its start and one for that of its end. The slots of all groups 0 come
/// first, in the order of the patterns. The slots of the explicit groups follow, pattern by pattern and in order. There
/// are at most 2147483646 slots.
///
/// A contract sees, for each pattern, the names of its explicit groups as bytes.
#[derive(Debug, Drop)]
pub struct GroupInfo {
    names: Vec<Vec<Option<String>>>,
    slot_len: usize,
}

impl Model for GroupInfo {
    ghost use Rattle.std.specs.Prelude.{ℕ, List, Option, ◌≡◌, ◌≤◌};
    ghost use Rattle.regex_search_core.specs.Groups.{names_of, slot_count};

    ghost Value = { List (List (Option (List ℕ))) };

    ghost view = { λ g. names_of g.names.items };

    ghost invariant = { λ g. (g.slot_len ≡ slot_count (names_of g.names.items)) × (g.slot_len ≤ 2147483646) };
}

impl GroupInfo {
    /// Makes the groups of these patterns. Each pattern is the list of its explicit groups, each with its name if it
    /// has one. `None` if they have more than 2147483646 slots.
    pub fn new(names: Vec<Vec<Option<String>>>) -> Option<GroupInfo>
        ensures { SomeIff result (slot_count (names_of names.items) ≤ 2147483646) (names_of names.items) }
    {
        let slot_len = count_slots(&names)?;
        Some(GroupInfo { names, slot_len })
    }

    /// Returns the number of patterns.
    pub fn pattern_len(&self) -> usize
        ensures { result ≡ length self.now }
    {
        self.names.len()
    }

    /// Returns the number of slots of the groups 0: two for each pattern.
    pub fn implicit_slot_len(&self) -> usize
        ensures { result ≡ 2 * length self.now }
    {
        let _ = &self.slot_len;
        self.names.len() * 2
    }

    /// Returns the number of slots of all groups: two for each group.
    pub fn slot_len(&self) -> usize
        ensures value { result ≡ slot_count self.now }
        ensures within { result ≤ 2147483646 }
    {
        self.slot_len
    }

    /// Returns the slot of the start of this group of the pattern. The slot of its end is the next one. `None` for an
    /// unknown pattern or group.
    pub fn slot(&self, pattern: PatternID, group: usize) -> Option<usize>
        ensures value { result ≡ slot_at self.now (number_of pattern) group }
        ensures within { IfSome result (λ slot. slot + 1 < slot_count self.now) }
    {
        let index = pattern.as_usize();
        if index >= self.names.len() {
            return None;
        }
        if group == 0 {
            return Some(index * 2);
        }
        if group - 1 >= self.names[index].len() {
            return None;
        }
        Some(explicit_start(&self.names, index) + (group - 1) * 2)
    }

    /// Returns the number of groups of the pattern, including group 0. It is 0 for an unknown pattern.
    #[tactic(auto, using(crate::proofs::GroupLemmas::slots_before))]
    pub fn group_len(&self, pattern: PatternID) -> usize
        ensures value { result ≡ group_count self.now (number_of pattern) }
        ensures within { result ≤ 1073741823 }
    {
        let _ = &self.slot_len;
        let index = pattern.as_usize();
        if index >= self.names.len() {
            return 0;
        }
        self.names[index].len() + 1
    }

    // The first slot of the explicit groups of the pattern, and the number of these groups. `None` for an unknown
    // pattern.
    pub(crate) fn explicit_groups(&self, pattern: PatternID) -> Option<(usize, usize)>
        ensures known { IsSome result ↔ (number_of pattern < length self.now) }
        ensures first { IfSome result (λ r. r.0 ≡ explicit_slot self.now (number_of pattern)) }
        ensures count { IfSome result (λ r. r.1 ≡ length (groups_at self.now (number_of pattern))) }
        ensures room { IfSome result (λ r. r.0 + 2 * r.1 ≤ 2147483646) }
    {
        let index = pattern.as_usize();
        if index >= self.names.len() {
            return None;
        }
        Some((explicit_start(&self.names, index), self.names[index].len()))
    }

    /// Returns the number of the pattern's first group of this name. `None` if the pattern is unknown or if no group
    /// has the name. Explicit groups count from 1, since group 0 has no name here.
    pub fn to_index(&self, pattern: PatternID, name: &str) -> Option<usize>
        ensures { result ≡ group_named self.now (number_of pattern) name.now }
    {
        let place = place_named(self.names.get(pattern.as_usize())?, name)?;
        Some(place + 1)
    }

    /// Returns equal groups.
    pub fn clone(&self) -> Result<GroupInfo, Refused>
        ensures { IfOk result (λ copy. copy ≡ self.now) }
    {
        Ok(GroupInfo {
            names: self.names.clone()?,
            slot_len: self.slot_len,
        })
    }
}

/// The index of the first group of this name.
fn place_named(groups: &[Option<String>], name: &str) -> Option<usize>
    ensures { result ≡ position (is_named name.now) (map (option_map string_bytes) groups.now) }
{
    groups.iter().position(|group| is_named(group, name))
}

/// Whether the group has this name.
fn is_named(group: &Option<String>, name: &str) -> bool
    ensures { result ≡ is_named name.now (option_map string_bytes group.now) }
{
    match group {
        Some(own) => own.as_str() == name,
        None => false,
    }
}

/// The first slot of the pattern's explicit groups.
#[tactic(auto, using(crate::proofs::GroupLemmas::slots_before))]
fn explicit_start(names: &[Vec<Option<String>>], index: usize) -> usize
    requires inside { index < length names.now }
    requires small { slot_count (names_of names.now) ≤ 2147483646 }
    ensures value { result ≡ 2 * length names.now + 2 * sum_by length (take index (names_of names.now)) }
    ensures room { result + 2 * length (groups_at (names_of names.now) index) ≤ 2147483646 }
{
    let mut slot = names.len() * 2;
    for i in 0..index {
        slot += names[i].len() * 2;
    }
    slot
}

/// The number of slots of the groups of these names. `None` above 2147483646.
fn count_slots(names: &[Vec<Option<String>>]) -> Option<usize>
    ensures { SomeIff result (slot_count (names_of names.now) ≤ 2147483646) (slot_count (names_of names.now)) }
{
    if names.len() > MAX_SLOTS / 2 {
        return None;
    }
    let mut slot_len = names.len() * 2;
    for groups in names {
        if groups.len() > (MAX_SLOTS - slot_len) / 2 {
            return None;
        }
        slot_len += groups.len() * 2;
    }
    Some(slot_len)
}
