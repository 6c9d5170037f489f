//! Ways to hold an engine with its cache, as `docs/OWNING.md` and `docs/GUIDE.md` have them.
mod fitting;
mod highlighter;
mod matcher;

use crate::owning::fitting::matches;
use crate::owning::highlighter::Highlighter;
use crate::owning::matcher::Matcher;
use anyhow::{Context, Result};
use nfa_engines::NFA;
use nfa_engines::pikevm::{Cache, PikeVM};
use nfa_samples::sample;
use std::alloc::Global;

// The sample NFA of this name.
fn named(alloc: Global, name: &str) -> Result<NFA> {
    sample(alloc, name)?.context("there is no NFA of this name")
}

// The bytes in matches of one NFA, and in those of another that takes its place.
fn marked(alloc: Global, text: &[u8]) -> Result<(usize, usize)> {
    let mut highlighter = Highlighter::new(alloc, named(alloc, "foo_num")?)?;
    marked_by(alloc, &mut highlighter, text)
}

fn marked_by(alloc: Global, highlighter: &mut Highlighter, text: &[u8]) -> Result<(usize, usize)> {
    let before = highlighter.marked(text);
    highlighter.look_for(named(alloc, "abc")?)?;
    Ok((before, highlighter.marked(text)))
}

// A PikeVM of the sample NFA of this name.
fn engine(alloc: Global, name: &str) -> Result<PikeVM> {
    Ok(PikeVM::new_from_nfa(named(alloc, name)?)?)
}

// Where the first match starts.
fn first_start(alloc: Global, text: &[u8]) -> Result<Option<usize>> {
    let mut matcher = Matcher::new(alloc, engine(alloc, "abc")?)?;
    Ok(matcher.find(text).map(|found| found.start()))
}

// A cache that fits the engine of this name, which is gone.
fn cache_of(alloc: Global, name: &str) -> Result<Cache> {
    Ok(engine(alloc, name)?.create_cache(alloc)?)
}

// Whether the text has a match, with the cache of a smaller engine.
fn matches_with_other(alloc: Global, text: &[u8]) -> Result<bool> {
    let mut cache = cache_of(alloc, "a_pair")?;
    Ok(matches(&engine(alloc, "foo_num")?, &mut cache, text)?)
}

/// Prints what each of them finds.
pub fn run(rt: &HostRuntime) -> Result<()> {
    let (before, after) = marked(rt.alloc(), b"foo1 foo12 abc")?;
    println!(rt; "{before}")?;
    println!(rt; "{after}")?;
    println!(rt; "{:?}", first_start(rt.alloc(), b"xabc")?)?;
    println!(rt; "{}", matches_with_other(rt.alloc(), b"foo1")?)?;
    Ok(())
}
