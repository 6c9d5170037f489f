//! The patterns and groups of a handle.
ghost use Rattle.std.specs.Prelude.{IfSome, IsUtf8, None, length, pos, ◌≡◌, ◌≢◌, ◌≤◌};
ghost use Rattle.regex_search_core.specs.Groups.{group_named, slot_count};
ghost use Rattle.nfa_c.specs.Codes.{Writes, empty_code, utf8_code};

use crate::codes::{EMPTY, FOUND, NONE, UTF8};
use crate::handle::{NfaRegex, full, take};
use nfa_meta::Regex;
use regex_search_core::PatternID;
use std::alloc::Global;

/// Returns the number of slots of the regex: two for each group of each pattern. 0 for an empty handle.
#[unsafe(no_mangle)]
pub extern "C" fn nfa_regex_slot_count(alloc: Global, regex: &mut NfaRegex) -> usize
    ensures count { IfSome regex.old.slot.value (λ own. result ≡ slot_count own.regex.choice.nfa.groups) }
    ensures empty { regex.old.slot.value ≡ None → result ≡ 0 }
    ensures keeps { regex.new.slot.value ≡ regex.old.slot.value }
{
    let Some(own) = take(regex, alloc) else {
        return 0;
    };
    let count = own.regex.group_info().slot_len();
    *regex = full(own);
    count
}

/// Returns the number of patterns. 0 for an empty handle.
#[unsafe(no_mangle)]
pub extern "C" fn nfa_regex_pattern_count(alloc: Global, regex: &mut NfaRegex) -> usize
    ensures count { IfSome regex.old.slot.value (λ own. result ≡ length own.regex.choice.nfa.patterns) }
    ensures empty { regex.old.slot.value ≡ None → result ≡ 0 }
    ensures keeps { regex.new.slot.value ≡ regex.old.slot.value }
{
    let Some(own) = take(regex, alloc) else {
        return 0;
    };
    let count = own.regex.pattern_len();
    *regex = full(own);
    count
}

/// Writes the value, if there is one.
fn write(value: Option<usize>, to: &mut usize) -> i32
    ensures { Writes value result to.old to.new }
{
    match value {
        Some(value) => {
            *to = value;
            FOUND
        }
        None => NONE,
    }
}

/// Returns the number of the group that has this name.
fn group_named(regex: &Regex, pattern: usize, name: &str) -> Option<usize>
    ensures known { pattern ≤ 2147483646 → result ≡ group_named regex.now.choice.nfa.groups pattern name.now }
    ensures unknown { (pattern ≤ 2147483646 → ⊥) → result ≡ None }
{
    regex.group_info().to_index(PatternID::new(pattern)?, name)
}

/// Finds the number of the pattern's group that has this name, and writes it.
#[unsafe(no_mangle)]
pub extern "C" fn nfa_regex_group_index(
    alloc: Global,
    regex: &mut NfaRegex,
    pattern: usize,
    name: &[u8],
    index: &mut usize,
) -> i32
    ensures index { IfSome regex.old.slot.value (λ own. IsUtf8 name.now → pattern ≤ 2147483646 →
        Writes (group_named own.regex.choice.nfa.groups pattern name.now) result index.old index.new) }
    ensures unknown { IfSome regex.old.slot.value (λ own. IsUtf8 name.now → (pattern ≤ 2147483646 → ⊥) →
        result ≡ pos 0) }
    ensures utf8 { (IsUtf8 name.now → ⊥) → result ≡ utf8_code }
    ensures empty { IsUtf8 name.now → regex.old.slot.value ≡ None → result ≡ empty_code }
    ensures stays { result ≢ pos 1 → index.new ≡ index.old }
    ensures keeps { regex.new.slot.value ≡ regex.old.slot.value }
{
    let Ok(name) = std::str::from_utf8(name) else {
        return UTF8;
    };
    let Some(own) = take(regex, alloc) else {
        return EMPTY;
    };
    let place = group_named(&own.regex, pattern, name);
    *regex = full(own);
    write(place, index)
}
