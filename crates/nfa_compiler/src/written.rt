//! Patterns that are written out: the NFA of one, and laws for the values of a call. A law has no code: a caller that
//! cites it after a search states what the search found, as a function of the pattern and the text
//! (`specs/WrittenPatterns.antt`). `proofs/Denotes.antt` has lemmas on which whole texts a pattern matches, in words on
//! texts (`specs/Texts.antt`).
//!
//! ```
//! let vm = PikeVM::new_from_nfa(compile(alloc, "[0-9]+")?)?;
//! let mut cache = vm.create_cache(alloc)?;
//! let found = vm.is_match(&mut cache, Input::new(text));
//! is_match_of_pattern("[0-9]+", vm.get_nfa(), text, found);
//! ```
ghost use Rattle.std.specs.Prelude.{◌≡◌, IfOk, false, length, map, option_map};
ghost use Rattle.thompson_nfa.specs.Automaton.{IsAutomaton};
ghost use Rattle.regex_search_core.specs.Found.{found_of};
ghost use Rattle.regex_search_core.specs.Groups.{slot_count};
ghost use Rattle.nfa_search_base.specs.Lists.{AreMatches};
ghost use Rattle.regex_search_core.specs.declared.search.MatchKind.TheVariants.{LeftmostFirst};
ghost use Rattle.nfa_paths.specs.Paths.{IsAnswer, IsBoolAnswer, IsFindAnswer};
ghost use Rattle.regex_search_core.specs.Search.{whole};
ghost use Rattle.regex_search_core.specs.Slots.{named_span};
ghost use Rattle.nfa_compiler.specs.Patterns.{found_by};
ghost use Rattle.regex_syntax.specs.Verdict.{ReadsAsText};
ghost use Rattle.nfa_compiler.specs.WrittenPatterns.{IsFirstPlace, IsOfPattern, all_matches, first_match, has_match};
ghost use Rattle.nfa_compiler.specs.WrittenPatterns.{named_span_in};

use crate::{CompileError, Compiler, Config};
use regex_search_core::{Captures, Match};
use std::alloc::Global;
use thompson_nfa::NFA;

/// Makes the NFA of the pattern in byte mode.
pub fn compile(alloc: Global, pattern: &str) -> Result<NFA, CompileError>
    ensures pattern { IfOk result (IsOfPattern pattern.now) }
    ensures valid { IfOk result IsAutomaton }
{
    Compiler::new()
        .configure(Config::new().utf8(false))
        .build(alloc, pattern)
}

/// A search of the whole text finds the first match of the pattern.
pub fn match_of_pattern(pattern: &str, nfa: &NFA, text: &[u8], found: Option<Match>)
    requires pattern { IsOfPattern pattern.now nfa.now }
    requires answer { IsFindAnswer nfa.now LeftmostFirst false (whole text.now) (option_map found_of found) }
    ensures { option_map found_of found ≡ option_map found_by (first_match pattern.now text.now) }
{}

/// A search of the whole text finds something exactly if the pattern has a match.
pub fn is_match_of_pattern(pattern: &str, nfa: &NFA, text: &[u8], found: bool)
    requires pattern { IsOfPattern pattern.now nfa.now }
    requires answer { IsBoolAnswer nfa.now LeftmostFirst false (whole text.now) found }
    ensures { found ≡ has_match pattern.now text.now }
{}

/// An iteration over the whole text finds all matches of the pattern.
pub fn matches_of_pattern(pattern: &str, nfa: &NFA, text: &[u8], found: &[Match])
    requires pattern { IsOfPattern pattern.now nfa.now }
    requires all { AreMatches nfa.now LeftmostFirst false (whole text.now) (map found_of found.now) }
    ensures { map found_of found.now ≡ map found_by (all_matches pattern.now text.now) }
{}

/// Captures of the whole text give for a name the span of this group in the first match.
pub fn named_group_of_pattern(
    pattern: &str,
    nfa: &NFA,
    text: &[u8],
    captures: &Captures,
    name: &str,
)
    requires pattern { IsOfPattern pattern.now nfa.now }
    requires groups { captures.now.groups ≡ nfa.now.groups }
    requires room { length captures.now.slots ≡ slot_count nfa.now.groups }
    requires answer { IsAnswer nfa.now LeftmostFirst false (whole text.now) captures.now.pattern captures.now.slots }
    ensures { named_span captures.now name.now ≡ named_span_in pattern.now name.now text.now }
{}

/// The pattern that `nfa_meta::escape` makes of a text finds where the text stands first, and nothing if it stands
/// nowhere. By [`match_of_pattern`] that is what a search finds.
pub fn escaped_text_finds_itself(text: &str, escaped: &str, haystack: &[u8])
    requires escaped { ReadsAsText escaped.now text.now }
    ensures { IsFirstPlace text.now haystack.now (first_match escaped.now haystack.now) }
{}
