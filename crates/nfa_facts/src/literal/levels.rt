//! The bytes that matches have at their first positions, and a search for where they may start.
ghost use Rattle.std.specs.Prelude.{◌+◌, ◌≤◌, All, IfNone, IfOk, IfSome, length, ℕ, ◌<◌, List, MatchOption};
ghost use Rattle.regex_literal.specs.Find.{NoneBefore, Nowhere, OccursAt};
ghost use Rattle.regex_literal.specs.Levels.{FitsLevels};
ghost use Rattle.nfa_facts.specs.Levels.{AdmitsAt, AdmitsMatches, AdmitsNoneBefore, AdmitsNoneFrom};

use crate::literal::level::fill;
use crate::literal::needles::{needle, needles, next_needle};
use crate::literal::reached::ReachedStates;
use regex_literal::{Ladder, Prefilter};
use std::alloc::{AllocError, Global};
use std::fmt;
use thompson_nfa::NFA;

/// The most positions that are looked at.
const MAX_LEVELS: usize = 8;

/// The least of them that are worth a search.
pub const MIN_LEVELS: usize = 2;

/// The most positions of a million bytes of usual text at which the bytes may be.
const MAX_PER_MILLION: u64 = 10_000;

/// For each of the first positions of matches, the bytes that they may have there.
#[derive(Drop)]
pub enum Levels {
    /// A test of the bytes at each position.
    Bytes(Ladder),
    /// All texts that have such bytes, which are few. A prefix is the only one.
    Texts(Prefilter),
}

// Leaves the tables out, which would hide everything printed next to them.
impl fmt::Debug for Levels {
    fn fmt<W: fmt::Write>(&self, f: &mut fmt::Formatter<W>) -> fmt::Result {
        f.debug_struct("Levels").finish_non_exhaustive()
    }
}

impl Levels {
    /// Returns the levels of the NFA: for up to eight positions, as long as no match ends and at most 64 states are
    /// followed. Returns `None` if they are fewer than two, or not rare in usual text. They do not cover
    /// `Anchored::Pattern`, whose searches begin with another state. The only error is that an allocation failed.
    pub fn new(alloc: Global, nfa: &NFA) -> Result<Option<Levels>, AllocError>
        ensures { IfOk result (λ found. IfSome found (AdmitsMatches nfa.now)) }
    {
        let mut levels = [[false; 256]; MAX_LEVELS];
        let mut here = ReachedStates::new(alloc, nfa.states().len())?;
        here.add(nfa.start_anchored())?;
        for count in 0..MAX_LEVELS {
            let mut next = ReachedStates::new(alloc, nfa.states().len())?;
            let mut level = [false; 256];
            let is_full = fill(nfa, &mut here, &mut next, &mut level)?;
            if !is_full {
                return if_rare(alloc, &levels[..count]);
            }
            levels[count] = level;
            here = next;
        }
        if_rare(alloc, &levels[..MAX_LEVELS])
    }

    /// Returns a search for bytes with which each match begins. The only error is that an allocation failed.
    pub fn of_prefix(alloc: Global, prefix: &[u8]) -> Result<Option<Levels>, AllocError>
        ensures { IfOk result (λ found. IfSome found (λ l. (hay : List ℕ) (k : ℕ) → OccursAt hay prefix.now k
            → AdmitsAt l hay k)) }
    {
        match needle(alloc, prefix)? {
            Some(needle) => Ok(Some(Levels::Texts(needle))),
            None => Ok(None),
        }
    }

    /// Returns the first position from `from` on at which a match may start, as far as the levels say, if the span ends
    /// at `end`. Returns `None` if no match may start from there on.
    ///
    /// Requires that `end` is not past the end of the haystack.
    #[inline(never)]
    pub fn first_start(&self, haystack: &[u8], from: usize, end: usize) -> Option<usize>
        requires { end ≤ length haystack.now }
        ensures nowhere { IfNone result (AdmitsNoneFrom self.now haystack.now from end) }
        ensures passed { IfSome result (AdmitsNoneBefore self.now haystack.now from end) }
        ensures within { IfSome result (λ at. at ≤ end) }
        ensures bytes { All (λ b. b < 256) haystack.now }
    {
        if from > end {
            return None;
        }
        self.find(&haystack[..end], from)
    }

    /// Returns the first position of the text from `from` on that the levels admit, or one before which they admit
    /// none.
    fn find(&self, text: &[u8], from: usize) -> Option<usize>
        requires { from ≤ length text.now }
        ensures { MatchOption result (Nowhere (AdmitsAt self.now text.now) from (length text.now + 1))
            (NoneBefore (AdmitsAt self.now text.now) from (length text.now + 1)) }
    {
        match self {
            Levels::Bytes(ladder) => ladder.find(text, from),
            Levels::Texts(needles) => next_needle(needles, text, from),
        }
    }
}

/// Returns these levels, if they are at least two, and rare in usual text: by all texts that have their bytes, if those
/// are few.
fn if_rare(alloc: Global, levels: &[[bool; 256]]) -> Result<Option<Levels>, AllocError>
    ensures { IfOk result (λ found. IfSome found (λ l. (hay : List ℕ) (k : ℕ) → FitsLevels hay levels.now k
        → AdmitsAt l hay k)) }
{
    if levels.len() < MIN_LEVELS {
        return Ok(None);
    }
    match needles(alloc, levels)? {
        Some(needles) => Ok(Some(Levels::Texts(needles))),
        None => Ok(rare_ladder(levels)),
    }
}

/// Returns a test of the bytes at each position, if those that pass it are rare in usual text.
fn rare_ladder(levels: &[[bool; 256]]) -> Option<Levels>
    ensures { IfSome result (λ l. (hay : List ℕ) (k : ℕ) → FitsLevels hay levels.now k → AdmitsAt l hay k) }
{
    let ladder = Ladder::new(levels, &[false; 256])?;
    if ladder.candidates_per_million() > MAX_PER_MILLION {
        return None;
    }
    Some(Levels::Bytes(ladder))
}
