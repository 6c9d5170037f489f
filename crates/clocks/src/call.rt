//! What a round does with a text: a call of `nfa_meta::Regex`, and the one of the crate regex that does the same.

use nfa_engines::{Captures, Input};
use nfa_meta::Regex as Meta;
use nfa_samples::named_engine::Failure;
use regex::bytes::{Matcher, Template};
use std::alloc::Global;

/// A call on a whole text.
#[derive(Clone, Copy, Debug)]
pub enum Call {
    FindIter,
    CapturesIter,
    LentCaptures,
    IsMatch,
    Find,
    Captures,
    Split,
    SplitAll,
    ReplaceAll,
}

impl Call {
    /// Returns the call that follows the engine in an argument, or `find_iter` if nothing follows.
    pub fn from_word(word: &str) -> Option<Call> {
        match word {
            "" => Some(Call::FindIter),
            "-captures" => Some(Call::CapturesIter),
            "-lent" => Some(Call::LentCaptures),
            "-is-match" => Some(Call::IsMatch),
            "-find" => Some(Call::Find),
            "-once" => Some(Call::Captures),
            "-split" => Some(Call::Split),
            "-split-all" => Some(Call::SplitAll),
            "-replace" => Some(Call::ReplaceAll),
            _ => None,
        }
    }

    /// Makes the call, and returns the number of items, the end of the match, or the length of the text that is made.
    /// The captures are those that a call fills.
    pub fn of_meta(
        self,
        alloc: Global,
        meta: &mut Meta,
        captures: &mut Captures,
        text: &[u8],
    ) -> Result<u64, Failure> {
        let input = Input::new(text);
        match self {
            Call::FindIter => Ok(meta.find_iter(input).count() as u64),
            Call::CapturesIter => count_captures(alloc, meta, text),
            Call::LentCaptures => count_lent(alloc, meta, text),
            Call::IsMatch => Ok(meta.is_match(input) as u64),
            Call::Find => Ok(meta.find(input).map_or(0, |found| found.end() as u64)),
            Call::Captures => {
                meta.search_captures(&input, captures);
                Ok(captures.get_match().map_or(0, |found| found.end() as u64))
            }
            Call::Split => Ok(meta.split(text).count() as u64),
            Call::SplitAll => Ok(meta.split_all(alloc, text)?.len() as u64),
            Call::ReplaceAll => Ok(meta.replace_all(alloc, text, b"-")?.len() as u64),
        }
    }

    /// The same by the crate regex.
    pub fn of_matcher(
        self,
        alloc: Global,
        matcher: &mut Matcher<'_>,
        text: &[u8],
    ) -> Result<u64, Failure> {
        match self {
            Call::FindIter => Ok(matcher.find_iter(text).count() as u64),
            Call::CapturesIter | Call::LentCaptures => Ok(count_captured(matcher, text)),
            Call::IsMatch => Ok(matcher.is_match(text) as u64),
            Call::Find => Ok(matcher.find(text).map_or(0, |found| found.end() as u64)),
            Call::Captures => {
                let found = matcher.captures(text);
                Ok(found.map_or(0, |captures| captures.get_match().end() as u64))
            }
            Call::Split => Ok(matcher.split(text).count() as u64),
            Call::SplitAll => {
                let pieces: Vec<&[u8]> = matcher.split(text).collect(alloc)?;
                Ok(pieces.len() as u64)
            }
            Call::ReplaceAll => {
                let template = Template::literal(alloc, b"-")?;
                Ok(matcher.replace_all(alloc, text, &template)?.len() as u64)
            }
        }
    }
}

fn count_captures(alloc: Global, meta: &mut Meta, text: &[u8]) -> Result<u64, Failure> {
    let mut count = 0u64;
    for captures in meta.captures_iter(alloc, Input::new(text))? {
        captures?;
        count = count.wrapping_add(1);
    }
    Ok(count)
}

fn count_lent(alloc: Global, meta: &mut Meta, text: &[u8]) -> Result<u64, Failure> {
    let mut items = meta.captures_iter(alloc, Input::new(text))?;
    let mut count = 0u64;
    while items.next_lent().is_some() {
        count = count.wrapping_add(1);
    }
    Ok(count)
}

fn count_captured(matcher: &mut Matcher<'_>, text: &[u8]) -> u64 {
    let mut found = matcher.captures_iter(text);
    let mut count = 0u64;
    // A pass finds at most one match at each offset.
    for _ in 0..=text.len() {
        if found.next().is_none() {
            break;
        }
        count = count.wrapping_add(1);
    }
    count
}
