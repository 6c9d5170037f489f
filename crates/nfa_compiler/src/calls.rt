//! The laws for the values of a call. Each function states the meaning of what one search found. It has no code: a
//! caller that cites it states what the text of its pattern means, without a proof of its own.
//!
//! ```
//! let found = vm.find(&mut cache, Input::new(line));
//! match_of_text(&compiler, pattern, vm.get_nfa(), line, found);
//! ```
ghost use Rattle.std.specs.Prelude.{◌≡◌, ◌↔◌, ◌∷◌, [], IsUtf8, List, Option, Some, drop, false};
ghost use Rattle.std.specs.Prelude.{length, map, option_and_then, option_map, true, ℕ};
ghost use Rattle.regex_hir.specs.Find.{find, find_all, find_all_str, find_str};
ghost use Rattle.regex_hir.specs.Re.{Re};
ghost use Rattle.regex_search_core.specs.Found.{found_of};
ghost use Rattle.regex_search_core.specs.Groups.{group_named, slot_count};
ghost use Rattle.regex_search_core.specs.Search.{whole};
ghost use Rattle.regex_search_core.specs.Slots.{named_span};
ghost use Rattle.regex_search_core.specs.declared.search.MatchKind.TheVariants.{LeftmostFirst};
ghost use Rattle.nfa_paths.specs.Paths.{is_utf8_empty, IsAnswer, IsBoolAnswer, IsFindAnswer};
ghost use Rattle.nfa_search_base.specs.Lists.{AreMatches};
ghost use Rattle.nfa_compiler.specs.Compiled.{FindsFromAnyStart, IsCompiled, IsMeant, IsNamed};
ghost use Rattle.nfa_compiler.specs.Patterns.{found_by, written_span};
ghost use Rattle.nfa_compiler.specs.Written.{IsReadAs, MatchesIn, MatchesInStr, syntax_of};

use crate::compiler::Compiler;
use regex_search_core::{Captures, Match};
use thompson_nfa::NFA;

/// The match of a search of the whole haystack is what `find` of `regex_hir` gives for the pattern that the grammar
/// reads in the text.
pub fn match_of_text(
    compiler: &Compiler,
    pattern: &str,
    nfa: &NFA,
    haystack: &[u8],
    found: Option<Match>,
)
    requires compiled { IsCompiled (syntax_of compiler.now) (pattern.now ∷ []) nfa.now }
    requires anywhere { is_utf8_empty nfa.now ≡ false }
    requires free { FindsFromAnyStart nfa.now }
    requires answer { IsFindAnswer nfa.now LeftmostFirst false (whole haystack.now) (option_map found_of found) }
    ensures { (re : Re) → IsMeant (syntax_of compiler.now) pattern.now re
        → option_map found_of found ≡ option_map found_by (find re haystack.now 0) }
{}

/// A search of the whole haystack finds something exactly if the pattern that is read in the text matches, in the
/// textbook sense, from some position. The pattern may be written in any way that matches the same.
pub fn is_match_of_text(compiler: &Compiler, pattern: &str, nfa: &NFA, haystack: &[u8], found: bool)
    requires compiled { IsCompiled (syntax_of compiler.now) (pattern.now ∷ []) nfa.now }
    requires anywhere { is_utf8_empty nfa.now ≡ false }
    requires free { FindsFromAnyStart nfa.now }
    requires answer { IsBoolAnswer nfa.now LeftmostFirst false (whole haystack.now) found }
    ensures { (re : Re) → IsReadAs (syntax_of compiler.now) pattern.now re
        → (found ≡ true) ↔ MatchesIn haystack.now re }
{}

/// All matches of a search of the whole haystack are what `find_all` of `regex_hir` gives for the pattern that the
/// grammar reads in the text.
pub fn matches_of_text(
    compiler: &Compiler,
    pattern: &str,
    nfa: &NFA,
    haystack: &[u8],
    found: &[Match],
)
    requires compiled { IsCompiled (syntax_of compiler.now) (pattern.now ∷ []) nfa.now }
    requires anywhere { is_utf8_empty nfa.now ≡ false }
    requires free { FindsFromAnyStart nfa.now }
    requires all { AreMatches nfa.now LeftmostFirst false (whole haystack.now) (map found_of found.now) }
    ensures { (re : Re) → IsMeant (syntax_of compiler.now) pattern.now re
        → map found_of found.now ≡ map found_by (find_all re haystack.now) }
{}

/// The span that captures of a search of the whole haystack give for a name: the span that the match of `find` last
/// wrote for the first group with this name in the text.
pub fn named_group_of_text(
    compiler: &Compiler,
    pattern: &str,
    nfa: &NFA,
    haystack: &[u8],
    captures: &Captures,
    name: &str,
)
    requires compiled { IsCompiled (syntax_of compiler.now) (pattern.now ∷ []) nfa.now }
    requires anywhere { is_utf8_empty nfa.now ≡ false }
    requires free { FindsFromAnyStart nfa.now }
    requires groups { captures.now.groups ≡ nfa.now.groups }
    requires room { length captures.now.slots ≡ slot_count nfa.now.groups }
    requires answer { IsAnswer nfa.now LeftmostFirst false (whole haystack.now) captures.now.pattern
        captures.now.slots }
    ensures { (re : Re) (names : List (Option (List ℕ))) (group : ℕ) → IsMeant (syntax_of compiler.now) pattern.now re
        → IsNamed (syntax_of compiler.now) pattern.now names → group_named (drop 1 names ∷ []) 0 name.now ≡ Some group
        → named_span captures.now name.now ≡ option_and_then (written_span group) (find re haystack.now 0) }
{}

/// In UTF-8 mode, the match of a search of a whole `str` is what `find_str` of `regex_hir` gives for the pattern that
/// the grammar reads in the text.
pub fn match_in_str(
    compiler: &Compiler,
    pattern: &str,
    nfa: &NFA,
    haystack: &[u8],
    found: Option<Match>,
)
    requires compiled { IsCompiled (syntax_of compiler.now) (pattern.now ∷ []) nfa.now }
    requires utf8 { nfa.now.utf8 ≡ true }
    requires text { IsUtf8 haystack.now }
    requires free { FindsFromAnyStart nfa.now }
    requires answer { IsFindAnswer nfa.now LeftmostFirst false (whole haystack.now) (option_map found_of found) }
    ensures { (re : Re) → IsMeant (syntax_of compiler.now) pattern.now re
        → option_map found_of found ≡ option_map found_by (find_str re haystack.now 0) }
{}

/// In UTF-8 mode, a search of a whole `str` finds something exactly if the pattern that is read in the text matches
/// from a boundary. The pattern may be written in any way that matches the same.
pub fn is_match_in_str(compiler: &Compiler, pattern: &str, nfa: &NFA, haystack: &[u8], found: bool)
    requires compiled { IsCompiled (syntax_of compiler.now) (pattern.now ∷ []) nfa.now }
    requires utf8 { nfa.now.utf8 ≡ true }
    requires text { IsUtf8 haystack.now }
    requires free { FindsFromAnyStart nfa.now }
    requires answer { IsBoolAnswer nfa.now LeftmostFirst false (whole haystack.now) found }
    ensures { (re : Re) → IsReadAs (syntax_of compiler.now) pattern.now re
        → (found ≡ true) ↔ MatchesInStr haystack.now re }
{}

/// In UTF-8 mode, all matches of a search of a whole `str` are what `find_all_str` of `regex_hir` gives for that
/// pattern.
pub fn matches_in_str(
    compiler: &Compiler,
    pattern: &str,
    nfa: &NFA,
    haystack: &[u8],
    found: &[Match],
)
    requires compiled { IsCompiled (syntax_of compiler.now) (pattern.now ∷ []) nfa.now }
    requires utf8 { nfa.now.utf8 ≡ true }
    requires text { IsUtf8 haystack.now }
    requires free { FindsFromAnyStart nfa.now }
    requires all { AreMatches nfa.now LeftmostFirst false (whole haystack.now) (map found_of found.now) }
    ensures { (re : Re) → IsMeant (syntax_of compiler.now) pattern.now re
        → map found_of found.now ≡ map found_by (find_all_str re haystack.now) }
{}

/// In UTF-8 mode, the span that captures of a search of a whole `str` give for a name: the span that the match of
/// `find_str` last wrote for the first group with this name in the text.
pub fn named_group_in_str(
    compiler: &Compiler,
    pattern: &str,
    nfa: &NFA,
    haystack: &[u8],
    captures: &Captures,
    name: &str,
)
    requires compiled { IsCompiled (syntax_of compiler.now) (pattern.now ∷ []) nfa.now }
    requires utf8 { nfa.now.utf8 ≡ true }
    requires text { IsUtf8 haystack.now }
    requires free { FindsFromAnyStart nfa.now }
    requires groups { captures.now.groups ≡ nfa.now.groups }
    requires room { length captures.now.slots ≡ slot_count nfa.now.groups }
    requires answer { IsAnswer nfa.now LeftmostFirst false (whole haystack.now) captures.now.pattern
        captures.now.slots }
    ensures { (re : Re) (names : List (Option (List ℕ))) (group : ℕ) → IsMeant (syntax_of compiler.now) pattern.now re
        → IsNamed (syntax_of compiler.now) pattern.now names → group_named (drop 1 names ∷ []) 0 name.now ≡ Some group
        → named_span captures.now name.now ≡ option_and_then (written_span group) (find_str re haystack.now 0) }
{}
