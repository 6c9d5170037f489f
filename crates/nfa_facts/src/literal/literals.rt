//! What each match of an NFA begins with, and the first start that a search has to try.
ghost use Rattle.std.specs.Prelude.{◌+◌, ◌≤◌, IfNone, IfOk, IfSome};
ghost use Rattle.regex_search_core.specs.Search.{search_of};
ghost use Rattle.nfa_engines.specs.Laws.{MatchesNothing};
ghost use Rattle.nfa_engines.specs.StartLaws.{IsFirstStart, IsUnbound};
ghost use Rattle.nfa_facts.specs.Levels.{AdmitsMatches};
ghost use Rattle.nfa_facts.specs.Literals.{AreLiteralsOf};
ghost use Rattle.nfa_facts.specs.Prefixes.{BeginsWith};
ghost use Rattle.nfa_facts.specs.RequiredBytes.{IsRequired};

use crate::literal::few_bytes::FewBytes;
use crate::literal::find::find_prefix;
use crate::literal::laws::{
    no_match_in_fewer_bytes, no_match_without_prefix, no_match_without_required_bytes,
    starts_without_prefix_may_be_passed, starts_without_required_bytes_may_be_passed,
};
use crate::literal::least_length::least_length;
use crate::literal::levels::{Levels, MIN_LEVELS};
use crate::literal::prefix::literal_prefix;
use crate::literal::required_bytes::RequiredBytes;
use nfa_engines::laws::bytes_may_be_skipped;
use regex_search_core::Input;
use std::alloc::{AllocError, Global};
use thompson_nfa::NFA;

/// What each match of an NFA begins with.
#[derive(Debug, Drop)]
pub struct Literals {
    /// The least number of bytes of a match, as far as it is known.
    least: usize,
    /// The bytes that each match begins with.
    prefix: Vec<u8>,
    /// The bytes that matches may have at their first positions, if they are rare in text: a prefix of two bytes or
    /// more, or else those that are found for each position.
    levels: Option<Levels>,
    /// The bytes that a match may begin with.
    first: FewBytes,
    /// Bytes that each match has. They are sought only if there is no prefix, and no level.
    required: Option<RequiredBytes>,
}

impl Literals {
    /// Returns the literals of the NFA. The only error is that an allocation failed.
    ///
    /// ```
    /// // NFA of "foo[0-9]+"
    /// let literals = Literals::new(alloc, &nfa)?;
    /// assert!(rt; literals.first_start(&nfa, &Input::new(b"a foo1")) == Some(2));
    /// ```
    pub fn new(alloc: Global, nfa: &NFA) -> Result<Literals, AllocError>
        ensures { IfOk result (AreLiteralsOf nfa.now) }
    {
        let least = least_length(alloc, nfa)?;
        let prefix = literal_prefix(alloc, nfa)?;
        let levels = levels_of(alloc, nfa, &prefix)?;
        let first = FewBytes::new(nfa);
        let is_known = !prefix.is_empty() || levels.is_some();
        let required = required_of(alloc, nfa, is_known)?;
        Ok(Literals {
            least,
            prefix,
            levels,
            first,
            required,
        })
    }

    /// Returns a position of the span before which no match starts, as far on as the literals say. Returns `None` if
    /// they say that nothing matches.
    ///
    /// It is the first one at which the prefix of each match occurs. If that has fewer than two bytes, and the bytes
    /// that matches may have at their first positions are rare in usual text, it is one up to the first with these.
    /// Otherwise, if there is no prefix, it is the first one whose byte a match may begin with, or the end of the span,
    /// if these bytes are at most three; and from there on the start of the line with the first bytes that each match
    /// has, if there are such bytes. Unless a prefix of one byte is looked for, there is none if the span has fewer
    /// bytes than each match is known to have. Requires that these are literals of the NFA, that neither the search nor
    /// the NFA is anchored, and that a match may end anywhere.
    ///
    /// ```
    /// // NFA of "foo[0-9]+", and its literals
    /// assert!(rt; literals.first_start(&nfa, &Input::new(b"a foo1")) == Some(2));
    /// assert!(rt; literals.first_start(&nfa, &Input::new(b"a fo1")) == None);
    /// assert!(rt; literals.first_start(&nfa, &Input::new(b"foo")) == None);
    /// ```
    pub fn first_start(&self, nfa: &NFA, input: &Input<'_>) -> Option<usize>
        requires of { AreLiteralsOf nfa.now self.now }
        requires unbound { IsUnbound nfa.now (search_of input.now) }
        ensures nothing { IfNone result (MatchesNothing nfa.now (search_of input.now)) }
        ensures first { IfSome result (IsFirstStart nfa.now (search_of input.now)) }
        ensures within { IfSome result (λ at. at ≤ (search_of input.now).end + 1) }
    {
        bytes_may_be_skipped();
        self.next_start(nfa, input, input.start())
    }

    /// Returns such a position from one on before which no match starts.
    fn next_start(&self, nfa: &NFA, input: &Input<'_>, from: usize) -> Option<usize>
        requires of { AreLiteralsOf nfa.now self.now }
        requires unbound { IsUnbound nfa.now (search_of input.now) }
        requires first { IsFirstStart nfa.now (search_of input.now) from }
        requires within { from ≤ (search_of input.now).end + 1 }
        ensures nothing { IfNone result (MatchesNothing nfa.now (search_of input.now)) }
        ensures first { IfSome result (IsFirstStart nfa.now (search_of input.now)) }
        ensures within { IfSome result (λ at. at ≤ (search_of input.now).end + 1) }
    {
        bytes_may_be_skipped();
        starts_without_prefix_may_be_passed();
        no_match_without_prefix();
        no_match_in_fewer_bytes();
        let (haystack, end) = (input.haystack(), input.end());
        if self.levels.is_none() && !self.prefix.is_empty() {
            return find_prefix(haystack, from, end, &self.prefix);
        }
        if input.get_span().len() < self.least {
            return None;
        }
        match &self.levels {
            Some(levels) => levels.first_start(haystack, from, end),
            None => self.next_begin(nfa, input, from),
        }
    }

    /// Whether only the first byte of a match says where one may start: no prefix, and no byte that each match has, is
    /// looked for.
    #[inline(always)]
    pub fn are_first_bytes(&self) -> bool {
        self.levels.is_none() && self.prefix.is_empty() && self.required.is_none()
    }

    /// Returns such a position, as far as the first bytes and the required ones say. A call of its own, so that a
    /// search for a prefix saves no registers.
    #[inline(never)]
    fn next_begin(&self, nfa: &NFA, input: &Input<'_>, from: usize) -> Option<usize>
        requires of { AreLiteralsOf nfa.now self.now }
        requires unbound { IsUnbound nfa.now (search_of input.now) }
        requires first { IsFirstStart nfa.now (search_of input.now) from }
        requires within { from ≤ (search_of input.now).end + 1 }
        ensures nothing { IfNone result (MatchesNothing nfa.now (search_of input.now)) }
        ensures first { IfSome result (IsFirstStart nfa.now (search_of input.now)) }
        ensures within { IfSome result (λ at. at ≤ (search_of input.now).end + 1) }
    {
        bytes_may_be_skipped();
        starts_without_required_bytes_may_be_passed();
        no_match_without_required_bytes();
        let (haystack, end) = (input.haystack(), input.end());
        let at = self.first.next(haystack, from, end);
        match &self.required {
            Some(required) => required.first_start(haystack, at, end),
            None => Some(at),
        }
    }
}

/// Returns the levels of the NFA: those of its prefix, if that has two bytes.
fn levels_of(alloc: Global, nfa: &NFA, prefix: &[u8]) -> Result<Option<Levels>, AllocError>
    requires { BeginsWith nfa.now prefix.now }
    ensures { IfOk result (λ found. IfSome found (AdmitsMatches nfa.now)) }
{
    if prefix.len() < MIN_LEVELS {
        Levels::new(alloc, nfa)
    } else {
        Levels::of_prefix(alloc, prefix)
    }
}

/// Returns bytes that each match has, unless what matches begin with is something to look for.
fn required_of(
    alloc: Global,
    nfa: &NFA,
    is_known: bool,
) -> Result<Option<RequiredBytes>, AllocError>
    ensures { IfOk result (λ found. IfSome found (IsRequired nfa.now)) }
{
    if is_known {
        Ok(None)
    } else {
        RequiredBytes::new(alloc, nfa)
    }
}
