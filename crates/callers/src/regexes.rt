//! Callers of a regex: of one that is made of the text of a pattern, and of captures that are lent.
ghost use Rattle.std.specs.Prelude.{◌≡◌, ◌+◌, ◌*◌, ◌/◌, ◌≤◌, IfOk, length, map, max};
ghost use Rattle.nfa_engines.specs.Found.{found_of};
ghost use Rattle.nfa_engines.specs.Paths.{span_len};
ghost use Rattle.nfa_engines.specs.Search.{search_of};
ghost use Rattle.callers.specs.Texts.{AreGroupSpans, AreMatchesOf};

use anyhow::Result;
use nfa_engines::error::SearchError;
use nfa_engines::{Input, Match, Span};
use nfa_meta::Regex;
use std::alloc::Global;

/// Returns all matches of the pattern in the text, from left to right, without overlaps. Fails if the pattern is not
/// one, or if allocation fails.
pub fn matches_in(alloc: Global, pattern: &str, text: &[u8]) -> Result<Vec<Match>>
    ensures { IfOk result (λ found. AreMatchesOf pattern.now text.now (map found_of found.items)) }
{
    let mut regex = Regex::new(alloc, pattern)?;
    let found = regex.find_all(alloc, Input::new(text))?;
    Ok(found)
}

/// Returns the span of this group in each match of the text, from left to right. It is `None` where the match has none.
/// No captures are copied. The only error is that allocation failed.
pub fn group_spans(
    alloc: Global,
    regex: &mut Regex,
    text: &[u8],
    group: usize,
) -> std::result::Result<Vec<Option<Span>>, SearchError>
    ensures { IfOk result (λ spans. AreGroupSpans regex.old.choice text.now group spans.items) }
{
    let mut spans = Vec::new(alloc);
    let mut items = regex.captures_iter(alloc, Input::new(text))?;
    while let Some(captures) = items.next_lent() {
        spans.push(captures.get_group(group))?;
    }
    Ok(spans)
}

/// Returns the number of matches. Besides the scans of the lazy DFA, the PikeVM makes at most two for each byte of the
/// span, and three more.
pub fn count_matches(regex: &mut Regex, input: Input<'_>) -> usize
    ensures { regex.new.choice.pike.all_scans
        ≤ regex.old.choice.pike.all_scans + (2 * span_len (search_of input.entry) + 3) }
{
    regex.count(input)
}

/// Returns whether nothing matches. If the lazy DFA does not stop, no other engine searches.
pub fn is_clean(regex: &mut Regex, text: &[u8]) -> bool
    ensures { regex.new.stops ≡ regex.old.stops → regex.new.choice ≡ regex.old.choice }
{
    !regex.is_match(Input::new(text))
}

/// Returns the first match. The backtracker then has no more blocks of 64 marks than before, or than mark each state at
/// each position of the text.
pub fn first_match(regex: &mut Regex, text: &[u8]) -> Option<Match>
    ensures { regex.new.choice.back.blocks ≤ max regex.old.choice.back.blocks
        ((length regex.old.choice.nfa.states * (length text.now + 1) + 63) / 64) }
{
    regex.find(Input::new(text))
}

/// Returns where a match ends first. If the lazy DFA does not stop, no other engine searches.
pub fn first_end(regex: &mut Regex, text: &[u8]) -> Option<usize>
    ensures { regex.new.stops ≡ regex.old.stops → regex.new.choice ≡ regex.old.choice }
{
    let half = regex.half_matches(Input::new(text)).next()?;
    Some(half.offset())
}
