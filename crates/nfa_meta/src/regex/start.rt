//! The first start of a search at which it may match.
ghost use Rattle.std.specs.Prelude.{◌≡◌, ◌+◌, ◌<◌, ◌≤◌, IfNone, IfSome, None, Some, false, length, true};
ghost use Rattle.regex_search_core.specs.Found.{found_of};
ghost use Rattle.regex_search_core.specs.Search.{search_of};
ghost use Rattle.nfa_paths.specs.Paths.{IsFindAnswer, IsHalfAnswer, is_utf8_empty};
ghost use Rattle.nfa_engines.specs.StartLaws.{IsFirstStart, StartsAnywhere, anchored_at};
ghost use Rattle.nfa_choice.specs.ChoiceState.{kind_in};
ghost use Rattle.nfa_meta.specs.RegexState.{KeepsRegex};

use crate::regex::Regex;
use nfa_engines::laws::{bytes_may_be_skipped, first_start_answers};
use regex_search_core::{Anchored, Input, Match};

/// The number of bytes that a search passes over to its first start, before it leaves the rest to a window.
const REACH: usize = 64;

impl Regex {
    /// Whether a match of the search may start anywhere in its span, and the first of all paths counts.
    #[inline(always)]
    pub(super) fn starts_anywhere(&self, input: &Input<'_>) -> bool
        ensures anywhere { result ≡ true → StartsAnywhere self.now.choice.nfa (search_of input.now) }
        ensures last { result ≡ true → (search_of input.now).earliest ≡ false }
    {
        !input.get_earliest()
            && !input.get_anchored().is_anchored()
            && !self.choice.get_nfa().is_always_start_anchored()
    }

    /// Returns the first position of a span, from one on before which nothing matches, whose byte a match may begin
    /// with. Returns `until` if there is none before it, or the position if it is not before that.
    #[inline(always)]
    pub(super) fn next_start(&self, input: &Input<'_>, from: usize, until: usize) -> usize
        requires first { IsFirstStart self.now.choice.nfa (search_of input.now) from }
        requires within { from ≤ (search_of input.now).end + 1 }
        requires until { until ≤ (search_of input.now).end }
        ensures first { IsFirstStart self.now.choice.nfa (search_of input.now) result }
        ensures within { result ≤ (search_of input.now).end + 1 }
    {
        bytes_may_be_skipped();
        let haystack = input.haystack();
        let mut at = from;
        while at < until && !self.may_begin(haystack[at]) {
            at += 1;
        }
        at
    }

    /// Returns the first position of the span whose byte a match may begin with, or its end. Returns `None` if that is
    /// not near the start, or inside a codepoint.
    #[inline(always)]
    pub(super) fn first_begin(&self, input: &Input<'_>) -> Option<usize>
        ensures first { IfSome result (IsFirstStart self.now.choice.nfa (search_of input.now)) }
        ensures within { IfSome result (λ at. at ≤ (search_of input.now).end + 1) }
    {
        bytes_may_be_skipped();
        let start = input.start();
        let end = input.end();
        let until = start.saturating_add(REACH).min(end);
        let at = self.next_start(input, start, until);
        let is_near = at < until || at >= end;
        if !is_near || !input.is_char_boundary(at) {
            return None;
        }
        Some(at)
    }

    /// Returns the match of a search, if the lazy DFA finds one at this start, before which nothing matches. Returns
    /// `Some(None)` if it finds none there, and `None` if it has no answer. Known rows are asked first if that is
    /// wanted.
    #[inline(always)]
    pub(super) fn find_at_start<'h>(
        &mut self,
        input: Input<'h>,
        at: usize,
        known: bool,
    ) -> Option<Option<Match>>
        requires anywhere { StartsAnywhere self.old.choice.nfa (search_of input) }
        requires last { (search_of input).earliest ≡ false }
        requires first { IsFirstStart self.old.choice.nfa (search_of input) at }
        requires within { at ≤ (search_of input).end + 1 }
        ensures answer { let x = search_of input.entry in IfSome result (λ found. IfSome found (λ m.
            IsFindAnswer self.old.choice.nfa (kind_in self.old.choice) x.earliest x (Some (found_of m)))) }
        ensures pattern { IfSome result (λ found.
            IfSome found (λ m. (found_of m).pattern < length self.old.choice.nfa.patterns)) }
        ensures moves { is_utf8_empty self.old.choice.nfa ≡ false → IfSome result (λ found.
            IfNone found (IsFirstStart self.old.choice.nfa (search_of input.entry) (at + 1))) }
        ensures none { let x = search_of input.entry in IfSome result (λ found. IfNone found
            (IsHalfAnswer self.old.choice.nfa (kind_in self.old.choice) x.earliest (anchored_at x at) None)) }
        ensures same { self.new.choice ≡ self.old.choice }
        ensures keeps { KeepsRegex self.old self.new }
    {
        let _ = &self.dfa;
        first_start_answers();
        self.find_anchored(input.range(at..input.end()).anchored(Anchored::Yes), known)
    }

    /// Whether the match is at the first start of its search, so that the next one may be, too. After a search that
    /// began inside a codepoint, this is what it was before.
    pub(super) fn is_at_first(&self, input: &Input<'_>, found: Option<Match>) -> bool {
        let Some(found) = found else {
            return false;
        };
        if !input.is_char_boundary(input.start()) {
            return self.matched_at_first;
        }
        match input.haystack().get(input.start()..found.start()) {
            Some(passed) => passed.len() <= REACH && !self.begins_among(passed),
            None => false,
        }
    }

    /// Whether a match may begin with one of the bytes.
    fn begins_among(&self, bytes: &[u8]) -> bool {
        for byte in bytes {
            if self.may_begin(*byte) {
                return true;
            }
        }
        false
    }
}
