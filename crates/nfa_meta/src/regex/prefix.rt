//! What each match begins with.
ghost use Rattle.std.specs.Prelude.{IfNone, IfSome};
ghost use Rattle.regex_search_core.specs.Search.{search_of};
ghost use Rattle.nfa_engines.specs.Laws.{MatchesNothing};
ghost use Rattle.nfa_engines.specs.StartLaws.{IsUnbound};
ghost use Rattle.nfa_facts.specs.Literals.{AreLiteralsOf};
ghost use Rattle.nfa_choice.specs.ChoiceState.{kind_in};
ghost use Rattle.nfa_meta.specs.Windowed.{IsRestOf, IsWindowed};
ghost use Rattle.nfa_meta.specs.WindowRuns.{AnswersAs, HalvesAs, HasNoHalf, HasNoMatch, IsWindowOf};

use crate::regex::Regex;
use nfa_engines::laws::starts_may_be_passed;
use nfa_facts::Literals;
use nfa_facts::literal::laws::nothing_has_no_answer;
use regex_search_core::Input;
use thompson_nfa::NFA;

impl Regex {
    /// Returns the input from the first position on at which a match may start, as far as the literals say. Returns
    /// `None` if they say that nothing matches.
    pub(super) fn from_prefix<'h>(&self, input: Input<'h>) -> Option<Input<'h>>
        requires windowed { IsWindowed self.now.choice.nfa (search_of input) }
        ensures nothing { IfNone result
            (HasNoMatch self.now.choice.nfa (kind_in self.now.choice) (search_of input.entry)) }
        ensures part { IfSome result (λ part. IsWindowOf self.now.choice.nfa (search_of input.entry) (search_of part)) }
        ensures answers { IfSome result (λ part.
            AnswersAs self.now.choice.nfa (kind_in self.now.choice) (search_of input.entry) (search_of part)) }
        ensures halves { IfSome result (λ part.
            HalvesAs self.now.choice.nfa (kind_in self.now.choice) (search_of input.entry) (search_of part)) }
    {
        starts_may_be_passed();
        nothing_has_no_answer();
        rest_from(self.choice.get_nfa(), &self.literals, input)
    }

    /// Returns the same for a search for the end of a match, which may be the earliest one. Where a match may not start
    /// or end anywhere, that is the input.
    pub(super) fn half_from_prefix<'h>(&self, input: Input<'h>) -> Option<Input<'h>>
        ensures nothing { IfNone result
            (HasNoHalf self.now.choice.nfa (kind_in self.now.choice) (search_of input.entry)) }
        ensures answers { IfSome result (λ part.
            HalvesAs self.now.choice.nfa (kind_in self.now.choice) (search_of input.entry) (search_of part)) }
    {
        starts_may_be_passed();
        nothing_has_no_answer();
        if !self.is_unbound(&input) || self.begins_at_start(&input) {
            return Some(input);
        }
        rest_from(self.choice.get_nfa(), &self.literals, input)
    }

    /// Whether literals pass no position of the input, as its first byte may begin a match. That saves a call.
    #[inline(always)]
    fn begins_at_start(&self, input: &Input<'_>) -> bool {
        match input.haystack().get(input.start()) {
            Some(byte) => self.literals.are_first_bytes() && self.choice.may_begin(*byte),
            None => false,
        }
    }
}

/// Returns the input of a search from a position on before which no match starts, as far on as the literals say.
/// Returns `None` if they say that nothing matches.
fn rest_from<'h>(nfa: &NFA, literals: &Literals, input: Input<'h>) -> Option<Input<'h>>
    requires of { AreLiteralsOf nfa.now literals.now }
    requires unbound { IsUnbound nfa.now (search_of input) }
    ensures nothing { IfNone result (MatchesNothing nfa.now (search_of input.entry)) }
    ensures rest { IfSome result (λ part. IsRestOf nfa.now (search_of input.entry) (search_of part)) }
{
    match literals.first_start(nfa, &input) {
        Some(at) => Some(input.range(at..input.end())),
        None => None,
    }
}
