//! Searches by a handle.
ghost use Rattle.std.specs.Prelude.{IfSome, IsSome, None, get_or, length, pos, ◌≡◌, ◌≢◌};
ghost use Rattle.regex_search_core.specs.Search.{search_of};
ghost use Rattle.nfa_choice.specs.ChoiceState.{finds_in};
ghost use Rattle.nfa_c.specs.Answers.{AreWords, IsCaptured, IsFound, IsShortest, Keeps, search_in, shortest_in};
ghost use Rattle.nfa_c.specs.Answers.{word_of};
ghost use Rattle.nfa_c.specs.Codes.{InRange, code_of, empty_code, range_code};

use crate::codes::{EMPTY, FOUND, NONE, RANGE};
use crate::handle::{NfaRegex, full, take};
use regex_search_core::{Input, NonMaxUsize};
use std::alloc::Global;

/// A match: the number of its pattern, and byte offsets into the haystack.
#[repr(C)]
#[derive(Clone, Copy)]
pub struct NfaMatch {
    pub pattern: usize,
    pub start: usize,
    pub end: usize,
}

/// Returns the input of a search, if the range is one of the haystack.
pub(crate) fn input_of(haystack: &[u8], start: usize, end: usize) -> Option<Input<'_>>
    ensures input { IfSome result (λ input. search_of input ≡ search_in haystack.now start end) }
    ensures range { InRange haystack.now start end → IsSome result }
    ensures within { IfSome result (λ input. InRange haystack.now start end) }
{
    if end > haystack.len() || start > end {
        return None;
    }
    Some(Input::new(haystack).range(start..end))
}

/// Returns whether the range of the haystack has a match. Assertions see the whole haystack.
#[unsafe(no_mangle)]
pub extern "C" fn nfa_regex_is_match(
    alloc: Global,
    regex: &mut NfaRegex,
    haystack: &[u8],
    start: usize,
    end: usize,
) -> i32
    ensures answer { IfSome regex.old.slot.value (λ own. InRange haystack.now start end →
        result ≡ code_of (finds_in own.regex.choice (search_in haystack.now start end))) }
    ensures keeps { Keeps regex.old.slot.value regex.new.slot.value }
    ensures empty { InRange haystack.now start end → regex.old.slot.value ≡ None → result ≡ empty_code }
    ensures range { (InRange haystack.now start end → ⊥) → result ≡ range_code }
{
    let Some(input) = input_of(haystack, start, end) else {
        return RANGE;
    };
    let Some(mut own) = take(regex, alloc) else {
        return EMPTY;
    };
    let found = own.regex.is_match(input);
    *regex = full(own);
    if found { FOUND } else { NONE }
}

/// Finds the match of the range, and writes it.
#[unsafe(no_mangle)]
pub extern "C" fn nfa_regex_find(
    alloc: Global,
    regex: &mut NfaRegex,
    haystack: &[u8],
    start: usize,
    end: usize,
    found: &mut NfaMatch,
) -> i32
    ensures answer { IfSome regex.old.slot.value (λ own. InRange haystack.now start end →
        IsFound own.regex.choice (search_in haystack.now start end) result found.new) }
    ensures stays { result ≢ pos 1 → found.new ≡ found.old }
    ensures keeps { Keeps regex.old.slot.value regex.new.slot.value }
    ensures empty { InRange haystack.now start end → regex.old.slot.value ≡ None → result ≡ empty_code }
    ensures range { (InRange haystack.now start end → ⊥) → result ≡ range_code }
{
    let Some(input) = input_of(haystack, start, end) else {
        return RANGE;
    };
    let Some(mut own) = take(regex, alloc) else {
        return EMPTY;
    };
    let answer = own.regex.find(input);
    *regex = full(own);
    match answer {
        Some(m) => {
            *found = NfaMatch {
                pattern: m.pattern().as_usize(),
                start: m.start(),
                end: m.end(),
            };
            FOUND
        }
        None => NONE,
    }
}

/// Finds where a match of the range is known, which may be before the end of the match, and writes this offset.
#[unsafe(no_mangle)]
pub extern "C" fn nfa_regex_shortest_match(
    alloc: Global,
    regex: &mut NfaRegex,
    haystack: &[u8],
    start: usize,
    end: usize,
    offset: &mut usize,
) -> i32
    ensures answer { IfSome regex.old.slot.value (λ own. InRange haystack.now start end →
        IsShortest own.regex.choice (shortest_in haystack.now start end) result offset.new) }
    ensures stays { result ≢ pos 1 → offset.new ≡ offset.old }
    ensures keeps { Keeps regex.old.slot.value regex.new.slot.value }
    ensures empty { InRange haystack.now start end → regex.old.slot.value ≡ None → result ≡ empty_code }
    ensures range { (InRange haystack.now start end → ⊥) → result ≡ range_code }
{
    let Some(input) = input_of(haystack, start, end) else {
        return RANGE;
    };
    let Some(mut own) = take(regex, alloc) else {
        return EMPTY;
    };
    let answer = own.regex.find_half(input.earliest(true));
    *regex = full(own);
    match answer {
        Some(half) => {
            *offset = half.offset();
            FOUND
        }
        None => NONE,
    }
}

/// Returns the offset of this slot, or the greatest number.
fn word(row: &[Option<NonMaxUsize>], at: usize) -> usize
    ensures { result ≡ word_of (get_or row.now at None) }
{
    match row.get(at) {
        Some(Some(offset)) => offset.get(),
        _ => usize::MAX,
    }
}

/// Writes the slots of the row as words.
fn write_words(row: &[Option<NonMaxUsize>], words: &mut [usize])
    ensures { AreWords row.now words.new }
{
    for at in 0..words.len() {
        words[at] = word(row, at);
    }
}

/// Finds the match of the range, and writes the start and the end of each group to two slots. Slots that no group has
/// set, and those that the regex does not have, are set to the greatest number.
#[unsafe(no_mangle)]
pub extern "C" fn nfa_regex_captures(
    alloc: Global,
    regex: &mut NfaRegex,
    haystack: &[u8],
    start: usize,
    end: usize,
    slots: &mut [usize],
) -> i32
    ensures answer { IfSome regex.old.slot.value (λ own. InRange haystack.now start end →
        IsCaptured own.regex.choice (search_in haystack.now start end) (length own.row.items) result slots.new) }
    ensures keeps { Keeps regex.old.slot.value regex.new.slot.value }
    ensures empty { InRange haystack.now start end → regex.old.slot.value ≡ None →
        (result ≡ empty_code) × (slots.new ≡ slots.old) }
    ensures range { (InRange haystack.now start end → ⊥) → (result ≡ range_code) × (slots.new ≡ slots.old) }
{
    let Some(input) = input_of(haystack, start, end) else {
        return RANGE;
    };
    let Some(mut own) = take(regex, alloc) else {
        return EMPTY;
    };
    let inside = &mut *own;
    let answer = inside.regex.search_slots(&input, &mut inside.row);
    write_words(&inside.row, slots);
    *regex = full(own);
    if answer.is_some() { FOUND } else { NONE }
}
