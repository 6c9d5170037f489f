//! Bytes that each match of an NFA has.
ghost use Rattle.std.specs.Prelude.{◌≡◌, ◌+◌, ◌-◌, ◌<◌, ◌≤◌, ◌∷◌, [], IfNone, IfOk, IfSome, Some, length, slice_get};
ghost use Rattle.nfa_facts.specs.Prefixes.{literal_at};
ghost use Rattle.nfa_facts.specs.RequiredBytes.{IsRequired, LacksBefore, LacksFrom};
ghost use Rattle.nfa_facts.specs.Walks.{IsWalked};
ghost use Rattle.nfa_facts.specs.declared.literal.walk.Cut.TheVariants.{Byte};

use crate::literal::find::find_prefix;
use crate::literal::prefix::literal_from;
use crate::literal::singles::SingleBytes;
use crate::literal::walk::{Cut, Passed, walk};
use memchr::memrchr;
use regex_search_core::StateID;
use std::alloc::{AllocError, Global};
use thompson_nfa::NFA;

/// The bytes that are sought, those that are rarest in texts first. Their order is a guess that no clause covers.
const BY_RARITY: &[u8] =
    b"~^`\\|@#$%{}&!?+<>*;[]'QZXJKVYWUBGFPHMDCLNRSOITAE()\"9876543/=:21_0-,.\tqzjxkvwbgpfymculdhnrsioaet \r\n";

/// The most bytes that are tried for an NFA, and the most states.
const MAX_TRIES: usize = 8;

/// Up to this distance no search for a line feed is made, which would take longer than it can spare.
const NEAR: usize = 32;

/// Bytes that each match has, next to one another.
#[derive(Debug, Drop)]
pub struct RequiredBytes {
    pub bytes: Vec<u8>,
    /// Whether no match has a line feed before it first has these bytes.
    pub on_line: bool,
}

impl RequiredBytes {
    /// Returns bytes that each match of the NFA has, wherever it starts. They have the rarest byte of those that are
    /// tried.
    ///
    /// At most eight bytes are tried, of those that are the only byte of a transition, and then at most eight states
    /// from which on such bytes are read. Returns `None` if each byte leaves a way to a match, or if more than 5,000
    /// states have to be followed. The bytes do not cover `Anchored::Pattern`, whose searches begin with another state.
    /// The only error is that an allocation failed.
    ///
    /// ```
    /// // NFA of "[a-z]+ = [0-9]"
    /// let required = RequiredBytes::new(alloc, &nfa)?;
    /// assert!(rt; required.is_some_and(|it| &it.bytes[..] == b" = ".as_slice()));
    /// ```
    pub fn new(alloc: Global, nfa: &NFA) -> Result<Option<RequiredBytes>, AllocError>
        ensures { IfOk result (λ found. IfSome found (IsRequired nfa.now)) }
    {
        let singles = SingleBytes::new(nfa);
        let mut left = MAX_TRIES;
        for byte in BY_RARITY {
            if left == 0 {
                return Ok(None);
            }
            if singles.has(*byte) {
                left -= 1;
                if let Some(found) = walk(alloc, nfa, &Cut::Byte(*byte))? {
                    return Ok(Some(with_neighbours(alloc, nfa, *byte, &found)?));
                }
            }
        }
        Ok(None)
    }

    /// Returns the first position from `from` on at which a match may start, as far as these bytes say, if the span
    /// ends at `end`. Returns `None` if no match may start from there on.
    ///
    /// It is `from`, or the start of the line on which the bytes are first: if the line starts after `from`, no match
    /// has a line feed before the bytes, and they are not near. Requires that `end` is not past that of the haystack.
    ///
    /// ```
    /// let required = RequiredBytes {
    ///     bytes: vec![in alloc; b'=']?,
    ///     on_line: true,
    /// };
    /// let text = b"a line without the byte, of some length\nkey=value";
    /// assert!(rt; required.first_start(text, 0, 49) == Some(40));
    /// assert!(rt; required.first_start(text, 0, 43) == None);
    /// ```
    pub fn first_start(&self, haystack: &[u8], from: usize, end: usize) -> Option<usize>
        requires { end ≤ length haystack.now }
        ensures nowhere { IfNone result (LacksFrom self.now haystack.now end from) }
        ensures passed { IfSome result (LacksBefore self.now haystack.now end from) }
        ensures within { IfSome result (λ at. at ≤ end) }
    {
        let Some(at) = find_prefix(haystack, from, end, &self.bytes) else {
            return None;
        };
        if !self.on_line || at - from < NEAR {
            return Some(from);
        }
        Some(line_start(haystack, from, at))
    }
}

/// Returns the longest bytes that the NFA reads on the way to a match with the byte, of those that are tried, or the
/// byte. Requires that each match has the byte: the walk does not pass it.
fn with_neighbours(
    alloc: Global,
    nfa: &NFA,
    byte: u8,
    found: &Passed,
) -> Result<RequiredBytes, AllocError>
    requires walked { IsWalked nfa.now (Byte byte) found.now.on_line found.now.reached.states }
    requires room { found.now.reached.room ≡ length nfa.now.states }
    ensures { IfOk result (IsRequired nfa.now) }
{
    let mut best = single(alloc, nfa, byte, found)?;
    let mut left = MAX_TRIES;
    for index in 0..found.reached.len() {
        if left == 0 {
            return Ok(best);
        }
        let state = found.reached.state(index);
        let bytes = literal_from(alloc, nfa, state)?;
        if bytes.len() > best.bytes.len() && bytes.contains(&byte) {
            left -= 1;
            best = if_longer(alloc, nfa, state, bytes, best)?;
        }
    }
    Ok(best)
}

/// Returns the byte, which each match has if the walk does not pass it.
fn single(alloc: Global, nfa: &NFA, byte: u8, found: &Passed) -> Result<RequiredBytes, AllocError>
    requires { IsWalked nfa.now (Byte byte) found.now.on_line found.now.reached.states }
    ensures { IfOk result (IsRequired nfa.now) }
{
    Ok(RequiredBytes {
        bytes: vec![in alloc; byte]?,
        on_line: found.on_line,
    })
}

/// Returns the bytes that are read from the state on, if each match passes the state, and otherwise those that are
/// passed as `best`.
fn if_longer(
    alloc: Global,
    nfa: &NFA,
    state: StateID,
    bytes: Vec<u8>,
    best: RequiredBytes,
) -> Result<RequiredBytes, AllocError>
    requires literal { bytes.items ≡ literal_at nfa.now state }
    requires best { IsRequired nfa.now best }
    ensures { IfOk result (IsRequired nfa.now) }
{
    match walk(alloc, nfa, &Cut::State(state))? {
        Some(found) => Ok(RequiredBytes {
            bytes,
            on_line: found.on_line,
        }),
        None => Ok(best),
    }
}

/// Returns the position after the last line feed from `from` on and before `to`, or `from` if there is none.
fn line_start(haystack: &[u8], from: usize, to: usize) -> usize
    requires onward { from ≤ to }
    requires within { to ≤ length haystack.now }
    ensures onward { from ≤ result }
    ensures within { result ≤ to }
    ensures line { from < result → slice_get haystack.now (result - 1) ≡ Some 10 }
{
    match memrchr(b'\n', &haystack[from..to]) {
        Some(distance) => from + distance + 1,
        None => from,
    }
}
