//! The path of the match that a search finds.
ghost use Rattle.std.specs.Prelude.{◌≤◌, length};
ghost use Rattle.nfa_engines.specs.Engines.{Fits};

use crate::edges::edges_of;
use anyhow::Result;
use nfa_engines::pikevm::{Cache, PikeVM};
use regex_search_core::{Anchored, Input, PatternID, StateID};
use std::alloc::{AllocError, Global};
use std::collections::BTreeSet;
use thompson_nfa::{NFA, State};

/// An edge of a path: the number of the state that it leaves, and its index among the edges of this state.
#[derive(Clone, Copy, PartialEq, Eq)]
pub struct Step {
    pub state: usize,
    pub edge: usize,
}

/// A path from a start state to a match.
#[derive(Drop)]
pub struct Path {
    pub pattern: PatternID,
    /// The offset in the haystack where the path starts.
    pub start: usize,
    /// The offset where it ends.
    pub end: usize,
    /// The edges, the last one first.
    pub steps: Vec<Step>,
    /// The number of the match state.
    pub last: usize,
}

/// Returns the path of the match that a leftmost first search of the haystack finds, if it finds one.
pub fn answered_path(alloc: Global, vm: &PikeVM, haystack: &[u8]) -> Result<Option<Path>> {
    let mut cache = vm.create_cache(alloc)?;
    match answered_start(vm, &mut cache, haystack) {
        Some(start) => first_path(alloc, vm.get_nfa(), haystack, start),
        None => Ok(None),
    }
}

/// Where the match of a search starts: the first position from which an anchored search finds one. The slots of the
/// match do not say so if the NFA writes none.
fn answered_start(vm: &PikeVM, cache: &mut Cache, haystack: &[u8]) -> Option<usize>
    requires { Fits cache.old vm.now.nfa }
{
    let last = if vm.get_nfa().is_always_start_anchored() {
        0
    } else {
        haystack.len()
    };
    for start in 0..=last {
        if starts_match(vm, cache, haystack, start) {
            return Some(start);
        }
    }
    None
}

/// Whether an anchored search from this position finds a match.
fn starts_match(vm: &PikeVM, cache: &mut Cache, haystack: &[u8], start: usize) -> bool
    requires fits { Fits cache.old vm.now.nfa }
    requires inside { start ≤ length haystack.now }
    ensures { Fits cache.new vm.now.nfa }
{
    let input = Input::new(haystack)
        .range(start..haystack.len())
        .anchored(Anchored::Yes);
    vm.search_slots(cache, &input, &mut []).is_some()
}

/// A state at a position, and how the search came there.
#[derive(Clone, Copy)]
struct Visit {
    state: StateID,
    at: usize,
    /// The index of the visit before this one, and of the edge that leads from its state. None at the start.
    from: Option<(usize, usize)>,
}

/// Returns the first accepting path from this position: depth first, each state at most once at each position.
fn first_path(alloc: Global, nfa: &NFA, haystack: &[u8], start: usize) -> Result<Option<Path>> {
    let mut stack = Vec::new(alloc);
    stack.push(Visit {
        state: nfa.start_anchored(),
        at: start,
        from: None,
    })?;
    let mut walk = Walk {
        alloc,
        nfa,
        haystack,
        visits: Vec::new(alloc),
        seen: BTreeSet::new(alloc),
        stack,
    };
    Ok(walk.path()?)
}

/// A walk through the states, depth first.
struct Walk<'a> {
    alloc: Global,
    nfa: &'a NFA,
    haystack: &'a [u8],
    visits: Vec<Visit>,
    /// The states that were visited, each with the position.
    seen: BTreeSet<(usize, usize)>,
    /// The visits that come next, in reverse order.
    stack: Vec<Visit>,
}

// Written out, so that a drop is one call in a proof, and not one for each field.
impl<'a> Drop for Walk<'a> {
    fn drop(self) {
        let Walk {
            alloc: _,
            nfa: _,
            haystack: _,
            visits: _,
            seen: _,
            stack: _,
        } = self;
    }
}

impl<'a> Walk<'a> {
    /// Returns the path to the first match state that is visited.
    fn path(&mut self) -> Result<Option<Path>, AllocError> {
        let nfa = self.nfa;
        for _ in 0..u64::MAX {
            let Some(visit) = self.stack.pop() else { break };
            match nfa.states().get(visit.state.as_usize()) {
                Some(State::Match { pattern_id }) => {
                    let path = path_to(self.alloc, *pattern_id, &self.visits, visit)?;
                    return Ok(Some(path));
                }
                Some(state) => self.visit(state, visit)?,
                None => break,
            }
        }
        Ok(None)
    }

    /// Visits this state, unless it was visited at this position before.
    fn visit(&mut self, state: &State, visit: Visit) -> Result<(), AllocError> {
        if !self.seen.insert((visit.state.as_usize(), visit.at))? {
            return Ok(());
        }
        let next = targets(
            self.alloc,
            state,
            self.haystack,
            visit.at,
            self.visits.len(),
        )?;
        self.visits.push(visit)?;
        for target in next.iter().rev() {
            self.stack.push(*target)?;
        }
        Ok(())
    }
}

/// The visits that come next, the preferred one first, if that of this state at this position has the index `number`.
fn targets(
    alloc: Global,
    state: &State,
    haystack: &[u8],
    at: usize,
    number: usize,
) -> Result<Vec<Visit>, AllocError> {
    let mut targets = Vec::new(alloc);
    for (index, edge) in edges_of(alloc, state)?.iter().enumerate() {
        if let Some(at) = edge.label.target(haystack, at) {
            targets.push(Visit {
                state: edge.next,
                at,
                from: Some((number, index)),
            })?;
            if edge.label.reads() {
                break;
            }
        }
    }
    Ok(targets)
}

/// The path that led to this visit of a match state.
fn path_to(
    alloc: Global,
    pattern: PatternID,
    visits: &[Visit],
    end: Visit,
) -> Result<Path, AllocError> {
    let mut steps = Vec::new(alloc);
    let (mut start, mut from) = (end.at, end.from);
    for _ in 0..visits.len() {
        let Some((number, edge)) = from else { break };
        let Some(before) = visits.get(number) else {
            break;
        };
        let state = before.state.as_usize();
        steps.push(Step { state, edge })?;
        (start, from) = (before.at, before.from);
    }
    Ok(Path {
        pattern,
        start,
        end: end.at,
        steps,
        last: end.state.as_usize(),
    })
}
