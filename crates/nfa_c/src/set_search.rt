//! Searches by the handle of a set.
ghost use Rattle.std.specs.Prelude.{IfSome, None, false, if◌then◌else◌, length, slice_index_or, ◌≡◌, ◌⊎◌};
ghost use Rattle.nfa_c.specs.Answers.{search_in};
ghost use Rattle.nfa_c.specs.Codes.{InRange, empty_code, memory_code, range_code};
ghost use Rattle.nfa_c.specs.Sets.{AreMarks, AreMatching, IsSetAnswer, KeepsSet, SaysWhetherAny};

use crate::codes::{EMPTY, FOUND, MEMORY, NONE, RANGE};
use crate::search::input_of;
use crate::set_handle::{NfaSet, full_set, take_set};
use nfa_meta::SetMatches;
use std::alloc::Global;

/// Returns the number of patterns. 0 for an empty handle.
#[unsafe(no_mangle)]
pub extern "C" fn nfa_regex_set_len(alloc: Global, set: &mut NfaSet) -> usize
    ensures count { IfSome set.old.slot.value (λ own. result ≡ length own.set.engine.nfa.patterns) }
    ensures empty { set.old.slot.value ≡ None → result ≡ 0 }
    ensures keeps { set.new.slot.value ≡ set.old.slot.value }
{
    let Some(own) = take_set(set, alloc) else {
        return 0;
    };
    let count = own.set.len();
    *set = full_set(own);
    count
}

/// Returns whether one of the patterns matches in the range of the haystack. Assertions see the whole haystack.
#[unsafe(no_mangle)]
pub extern "C" fn nfa_regex_set_is_match(
    alloc: Global,
    set: &mut NfaSet,
    haystack: &[u8],
    start: usize,
    end: usize,
) -> i32
    ensures answer { IfSome set.old.slot.value (λ own. InRange haystack.now start end →
        IsSetAnswer own.set (search_in haystack.now start end) result) }
    ensures keeps { KeepsSet set.old.slot.value set.new.slot.value }
    ensures empty { InRange haystack.now start end → set.old.slot.value ≡ None → result ≡ empty_code }
    ensures range { (InRange haystack.now start end → ⊥) → result ≡ range_code }
{
    let Some(input) = input_of(haystack, start, end) else {
        return RANGE;
    };
    let Some(mut own) = take_set(set, alloc) else {
        return EMPTY;
    };
    let found = own.set.is_match(input);
    *set = full_set(own);
    if found { FOUND } else { NONE }
}

/// Returns the byte of the pattern with this number.
fn mark(found: &SetMatches, at: usize) -> u8
    ensures { result ≡ (if slice_index_or found.now at false then 1 else 0) }
{
    if found.matched(at) { 1 } else { 0 }
}

/// Writes a byte for each pattern.
fn write_marks(found: &SetMatches, marks: &mut [u8])
    ensures { AreMarks found.now marks.new }
{
    for at in 0..marks.len() {
        marks[at] = mark(found, at);
    }
}

/// Returns whether one of the patterns matches.
fn any(found: &SetMatches) -> i32
    ensures { SaysWhetherAny found.now result }
{
    if found.matched_any() { FOUND } else { NONE }
}

/// Finds which patterns match in the range, and writes a byte for each: 1 or 0. Bytes of patterns that the set does not
/// have are set to 0. Nothing is written if memory is refused.
#[unsafe(no_mangle)]
pub extern "C" fn nfa_regex_set_matches(
    alloc: Global,
    set: &mut NfaSet,
    haystack: &[u8],
    start: usize,
    end: usize,
    marks: &mut [u8],
) -> i32
    ensures answer { IfSome set.old.slot.value (λ own. InRange haystack.now start end →
        (result ≡ memory_code) ⊎ AreMatching own.set (search_in haystack.now start end) result marks.new) }
    ensures memory { result ≡ memory_code → marks.new ≡ marks.old }
    ensures keeps { KeepsSet set.old.slot.value set.new.slot.value }
    ensures empty { InRange haystack.now start end → set.old.slot.value ≡ None →
        (result ≡ empty_code) × (marks.new ≡ marks.old) }
    ensures range { (InRange haystack.now start end → ⊥) → (result ≡ range_code) × (marks.new ≡ marks.old) }
{
    let Some(input) = input_of(haystack, start, end) else {
        return RANGE;
    };
    let Some(mut own) = take_set(set, alloc) else {
        return EMPTY;
    };
    let answer = own.set.matches(alloc, &input);
    *set = full_set(own);
    match answer {
        Ok(found) => {
            write_marks(&found, marks);
            any(&found)
        }
        Err(_) => MEMORY,
    }
}
