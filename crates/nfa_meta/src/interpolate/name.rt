//! The names of groups in a template.
ghost use Rattle.std.specs.Prelude.{MatchBool};
ghost use Rattle.regex_search_core.specs.PatternSets.{number_of};
ghost use Rattle.nfa_meta.specs.GroupNames.{IsWord, Means};

use regex_search_core::{GroupInfo, PatternID};
use std::str;

/// Returns whether a name without braces may have the byte: a letter, a digit or an underscore.
pub(super) fn is_word(byte: u8) -> bool
    ensures { MatchBool result (IsWord byte) (¬ IsWord byte) }
{
    matches!(byte, b'_' | b'0'..=b'9' | b'A'..=b'Z' | b'a'..=b'z')
}

/// Returns the group of the pattern that the name means: that of its number if the name is one, else that of its name.
/// Returns `None` if the pattern has no such group.
pub(super) fn group_of(groups: &GroupInfo, pattern: PatternID, name: &[u8]) -> Option<usize>
    ensures { Means groups.now (number_of pattern) name.now result }
{
    let Ok(name) = str::from_utf8(name) else {
        return None;
    };
    if let Ok(number) = name.parse() {
        return match groups.slot(pattern, number) {
            Some(_) => Some(number),
            None => None,
        };
    }
    groups.to_index(pattern, name)
}
