//! Callers that cut out what captures give, by the span alone: each is proved with no proof file.

ghost use Rattle.nfa_engines.specs.Engines.{Fits};

use anyhow::Result;
use nfa_choice::Choice;
use nfa_engines::backtrack::{BoundedBacktracker, Cache as BackCache};
use nfa_engines::pikevm::{Cache, PikeVM};
use nfa_engines::{Captures, Input};
use std::alloc::Global;

/// The text of a group.
pub fn group_text<'t>(
    vm: &PikeVM,
    cache: &mut Cache,
    captures: &mut Captures,
    text: &'t [u8],
) -> Option<&'t [u8]>
    requires { Fits cache.old vm.now.nfa }
{
    vm.captures(cache, Input::new(text), captures);
    let span = captures.get_group(1)?;
    Some(&text[span.start..span.end])
}

/// The text of a group, whichever is asked for.
pub fn group_text_of<'t>(
    vm: &PikeVM,
    cache: &mut Cache,
    captures: &mut Captures,
    text: &'t [u8],
    group: usize,
) -> Option<&'t [u8]>
    requires { Fits cache.old vm.now.nfa }
{
    vm.search(cache, &Input::new(text), captures);
    let span = captures.get_group(group)?;
    Some(&text[span.start..span.end])
}

/// The text of a named group.
pub fn named_text<'t>(
    vm: &PikeVM,
    cache: &mut Cache,
    captures: &mut Captures,
    text: &'t [u8],
) -> Option<&'t [u8]>
    requires { Fits cache.old vm.now.nfa }
{
    vm.captures(cache, Input::new(text), captures);
    let span = captures.get_group_by_name("name")?;
    Some(&text[span.start..span.end])
}

/// The text of the match.
pub fn match_text<'t>(
    vm: &PikeVM,
    cache: &mut Cache,
    captures: &mut Captures,
    text: &'t [u8],
) -> Option<&'t [u8]>
    requires { Fits cache.old vm.now.nfa }
{
    vm.captures(cache, Input::new(text), captures);
    let found = captures.get_match()?;
    Some(&text[found.start()..found.end()])
}

/// The same by a backtracker.
pub fn back_text<'t>(
    engine: &BoundedBacktracker,
    cache: &mut BackCache,
    captures: &mut Captures,
    text: &'t [u8],
) -> Option<&'t [u8]> {
    if engine
        .try_captures(cache, Input::new(text), captures)
        .is_err()
    {
        return None;
    }
    let span = captures.get_group_by_name("name")?;
    Some(&text[span.start..span.end])
}

/// The texts of a group of all matches, by the list.
pub fn texts_of_all<'t>(
    alloc: Global,
    vm: &PikeVM,
    cache: &mut Cache,
    text: &'t [u8],
) -> Result<Vec<&'t [u8]>>
    requires { Fits cache.old vm.now.nfa }
{
    let mut cut = Vec::new(alloc);
    for captures in &vm.captures_all(alloc, cache, Input::new(text))? {
        if let Some(span) = captures.get_group_by_name("name") {
            cut.push(&text[span.start..span.end])?;
        }
        if let Some(span) = captures.get_group(1) {
            cut.push(&text[span.start..span.end])?;
        }
        if let Some(found) = captures.get_match() {
            cut.push(&text[found.start()..found.end()])?;
        }
    }
    Ok(cut)
}

/// The same by a backtracker.
pub fn texts_by_back<'t>(
    alloc: Global,
    engine: &BoundedBacktracker,
    cache: &mut BackCache,
    text: &'t [u8],
) -> Result<Vec<&'t [u8]>> {
    let mut cut = Vec::new(alloc);
    for item in engine.try_captures_iter(alloc, cache, Input::new(text))? {
        let captures = item?;
        if let Some(span) = captures.get_group_by_name("name") {
            cut.push(&text[span.start..span.end])?;
        }
    }
    for captures in &engine.try_captures_all(alloc, cache, Input::new(text))? {
        if let Some(span) = captures.get_group(2) {
            cut.push(&text[span.start..span.end])?;
        }
    }
    Ok(cut)
}

/// The text of a group, by the engine that suits.
pub fn choice_text<'t>(
    choice: &mut Choice,
    captures: &mut Captures,
    text: &'t [u8],
) -> Option<&'t [u8]> {
    choice.captures(Input::new(text), captures);
    let span = captures.get_group(1)?;
    Some(&text[span.start..span.end])
}

/// The texts of a group of all matches, by the list of a choice.
pub fn texts_by_choice<'t>(
    alloc: Global,
    choice: &mut Choice,
    text: &'t [u8],
) -> Result<Vec<&'t [u8]>> {
    let mut cut = Vec::new(alloc);
    for captures in &choice.captures_all(alloc, Input::new(text))? {
        if let Some(span) = captures.get_group_by_name("name") {
            cut.push(&text[span.start..span.end])?;
        }
    }
    Ok(cut)
}

/// The same by its iterator.
pub fn texts_in_turn<'t>(
    alloc: Global,
    choice: &mut Choice,
    text: &'t [u8],
) -> Result<Vec<&'t [u8]>> {
    let mut cut = Vec::new(alloc);
    for item in choice.captures_iter(alloc, Input::new(text))? {
        let captures = item?;
        if let Some(span) = captures.get_group(1) {
            cut.push(&text[span.start..span.end])?;
        }
    }
    Ok(cut)
}

/// The texts of all matches, by the list of a choice.
pub fn matches_by_choice<'t>(
    alloc: Global,
    choice: &mut Choice,
    text: &'t [u8],
) -> Result<Vec<&'t [u8]>> {
    let mut cut = Vec::new(alloc);
    for found in &choice.find_all(alloc, Input::new(text))? {
        cut.push(&text[found.start()..found.end()])?;
    }
    Ok(cut)
}
