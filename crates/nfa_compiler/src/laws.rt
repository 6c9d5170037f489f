//! Searches of a compiled NFA find what its patterns mean. Each function is empty: its contract is the theorem.
ghost use Rattle.std.specs.Prelude.{false, true};
ghost use Rattle.regex_hir.specs.Find.{find, find_all, find_all_str, find_str};
ghost use Rattle.nfa_paths.specs.Starts.{TriesPatternsInOrder};
ghost use Rattle.nfa_compiler.specs.Laws.{AllHitsAreFindAll, AnswersAreHits, AnswersIfMatches, AnswersOnlyMatches};
ghost use Rattle.nfa_compiler.specs.Laws.{Anywhere, BegunMatchAtStart, BoundaryHitsAreStrHits, FindsHits};
ghost use Rattle.nfa_compiler.specs.Laws.{FindsIfMatches, FindsOnlyMatches, GroupsAreCounted, GroupsAreNamed};
ghost use Rattle.nfa_compiler.specs.Laws.{GroupsAreWritten, HitsAreUnbound, InAscii, InBytes, InStr, InStrFromAnyStart};
ghost use Rattle.nfa_compiler.specs.Laws.{LooksAgree, MatchAlone, MatchesAreAllHits, MatchesAreAllOfTexts};
ghost use Rattle.nfa_compiler.specs.Laws.{MatchesAreHits, MatchesAreUnbound, NamesAreWritten, HoldsForPatterns};
ghost use Rattle.nfa_compiler.specs.Laws.{HoldsForTexts, OneHitIsFind, PatternsLoseNoHit, PatternsRecordBounds};
ghost use Rattle.nfa_compiler.specs.Laws.{RowsAreAllHits, RowsAreAllOfTexts, SetsHoldMatches, SetsHoldMatchesOfStrs};
ghost use Rattle.nfa_compiler.specs.Laws.{SetsHoldOnlyMatches, TextsAreAnswered, TextsAreMatched, TextsLoseNoHit};
ghost use Rattle.nfa_compiler.specs.Laws.{TextsRecordBounds, TreesMatchCharacters};
ghost use Rattle.nfa_compiler.specs.Patterns.{boundary_hit, expected, expected_in_str, expected_on_boundary, hit};
ghost use Rattle.nfa_compiler.specs.Patterns.{str_hit};

/// An assertion of an NFA holds exactly if that of the pattern does.
pub fn assertions_agree()
    ensures { LooksAgree }
{}

/// `nfa_facts::records_match_spans` is true of a compiled NFA: each way through its states, from a start of a search to
/// a match, writes its start and its end. The laws of `nfa_facts::match_spans` therefore hold for it, and no test is
/// needed.
pub fn compiled_nfas_record_bounds()
    ensures patterns { PatternsRecordBounds }
    ensures texts { TextsRecordBounds }
{}

/// A compiled NFA tries its patterns in their order: its anchored start is that of the only pattern, or a union of the
/// starts of the patterns, and no path leads from one of these back to it. The start of a pattern leads to no Match of
/// another pattern. These are the premises of `nfa_engines::laws::first_pattern_answers` and
/// `first_pattern_is_found`.
pub fn compiled_nfas_try_patterns_in_order()
    ensures patterns { HoldsForPatterns TriesPatternsInOrder }
    ensures texts { HoldsForTexts TriesPatternsInOrder }
    ensures patterns_alone { HoldsForPatterns MatchAlone }
    ensures texts_alone { HoldsForTexts MatchAlone }
{}

/// A leftmost first search finds the hit at the least start at which one of the patterns matches, and there that of the
/// first such pattern. The search goes on to the end of the haystack, and `earliest` is false.
pub fn searches_find_hits()
    ensures answers { AnswersAreHits false hit }
    ensures matches { MatchesAreHits false hit }
    ensures found { FindsHits false hit }
{}

/// The same for texts: a search finds what the grammar of patterns reads in them.
/// [`Compiler::build`](crate::Compiler::build) and [`Compiler::build_many`](crate::Compiler::build_many) ensure the
/// premise on the NFA.
pub fn searches_find_texts()
    ensures answers { TextsAreAnswered InBytes hit }
    ensures matches { TextsAreMatched InBytes hit }
{}

/// A pattern that begins with `Start` matches only from the start of a haystack. The compiler binds searches to their
/// start if each pattern begins so. In that case, too, no hit is lost: `FindsFromAnyStart`, which
/// [`Compiler::build`](crate::Compiler::build) ensures if it is not anchored, is the premise.
pub fn no_hit_is_lost()
    ensures begun { BegunMatchAtStart }
    ensures patterns { PatternsLoseNoHit }
    ensures texts { TextsLoseNoHit }
{}

/// If no hit is lost, hits and matches are those of a search that is not bound to its start.
pub fn hits_are_unbound()
    ensures hits { HitsAreUnbound expected }
    ensures boundary_hits { HitsAreUnbound expected_on_boundary }
    ensures str_hits { HitsAreUnbound expected_in_str }
    ensures matches { MatchesAreUnbound }
{}

/// The hit of one pattern is what `find` of `regex_hir` gives, if no hit is lost.
pub fn one_hit_is_find()
    ensures { OneHitIsFind hit find }
{}

/// The matches of a search, as `find_iter` and `find_all` of both engines give them, are all hits of the patterns, from
/// left to right. The same holds for the captures, with all slots. An empty hit at the end of the last one is skipped.
pub fn iterations_find_all_hits()
    ensures matches { MatchesAreAllHits false hit }
    ensures captures { RowsAreAllHits false hit }
{}

/// The same for texts: an iteration finds all hits of what the grammar reads in them.
pub fn iterations_find_texts()
    ensures matches { MatchesAreAllOfTexts InBytes hit }
    ensures captures { RowsAreAllOfTexts InBytes hit }
{}

/// All hits of one pattern in a whole haystack are what `find_all` of `regex_hir` gives, if no hit is lost.
pub fn all_hits_are_find_all()
    ensures { AllHitsAreFindAll hit find_all }
{}

/// A search of any match kind, `earliest` or not, finds something exactly if some pattern matches somewhere: if the
/// pattern matches, in the textbook sense, from a position where the search may start.
pub fn searches_find_if_patterns_match()
    ensures found { FindsIfMatches Anywhere }
    ensures answers { AnswersIfMatches Anywhere }
{}

/// Under `MatchKind::All`, without `earliest`, a set of overlapping matches gains exactly the patterns that match
/// somewhere and that it has room for. A pattern matches somewhere if it matches, in the textbook sense, from a
/// position where the search may start.
pub fn sets_hold_patterns_that_match()
    ensures { SetsHoldMatches Anywhere }
{}

/// In UTF-8 mode, too, a search of any match kind, `earliest` or not, finds something only if some pattern matches, and
/// a set of overlapping matches gains only patterns that match. In a `str`, under `All` without `earliest`, a set gains
/// each pattern that matches whole characters and matches from a boundary.
///
/// If patterns may match the empty string, a pattern may match without being found: `earliest` and `All` prefer matches
/// by their end, and after one that splits a codepoint a search starts again after its old start.
pub fn searches_find_only_matches()
    ensures found { FindsOnlyMatches }
    ensures answers { AnswersOnlyMatches }
    ensures sets { SetsHoldOnlyMatches }
    ensures strs { SetsHoldMatchesOfStrs }
{}

/// In an ASCII haystack the laws [`searches_find_if_patterns_match`] and [`sets_hold_patterns_that_match`] also hold in
/// UTF-8 mode.
pub fn ascii_searches_find_if_patterns_match()
    ensures found { FindsIfMatches InAscii }
    ensures answers { AnswersIfMatches InAscii }
    ensures sets { SetsHoldMatches InAscii }
{}

/// The groups of an NFA have the names that the grammar reads in the texts. For a group, the captures of a hit give the
/// span that the match last wrote for it, and for a name the span of its first group, as `Captures::get_group_by_name`
/// does. This holds for hits in byte mode, for those that end on a boundary, and for those in a `str`.
pub fn groups_are_those_of_texts()
    ensures names { GroupsAreNamed }
    ensures count { GroupsAreCounted }
    ensures spans { GroupsAreWritten hit }
    ensures named { NamesAreWritten hit }
    ensures boundary_spans { GroupsAreWritten boundary_hit }
    ensures boundary_named { NamesAreWritten boundary_hit }
    ensures str_spans { GroupsAreWritten str_hit }
    ensures str_named { NamesAreWritten str_hit }
{}

/// The same as [`searches_find_hits`] in UTF-8 mode, for patterns that may match the empty string: a search finds the
/// first hit that ends on a boundary. An anchored search finds the hit at its start, if that hit ends on a boundary.
pub fn searches_find_boundary_hits()
    ensures answers { AnswersAreHits true boundary_hit }
    ensures matches { MatchesAreHits true boundary_hit }
    ensures found { FindsHits true boundary_hit }
{}

/// The same as [`iterations_find_all_hits`] in UTF-8 mode, for patterns that may match the empty string.
pub fn iterations_find_boundary_hits()
    ensures matches { MatchesAreAllHits true boundary_hit }
    ensures captures { RowsAreAllHits true boundary_hit }
{}

/// In UTF-8 mode and in a `str`, a haystack that is UTF-8, a search finds what the grammar reads in the texts of the
/// patterns, at the first boundary at which one of them matches, whether or not they may match the empty string.
pub fn searches_of_strs_find_texts()
    ensures answers { TextsAreAnswered InStr str_hit }
    ensures matches { TextsAreMatched InStr str_hit }
{}

/// An iteration finds all of these, if the NFA finds matches from any start.
pub fn iterations_of_strs_find_texts()
    ensures matches { MatchesAreAllOfTexts InStrFromAnyStart str_hit }
    ensures captures { RowsAreAllOfTexts InStrFromAnyStart str_hit }
{}

/// The hit of one pattern in a `str` is what `find_str` of `regex_hir` gives, and all hits are what `find_all_str`
/// gives, if no hit is lost.
pub fn str_hits_are_find_str()
    ensures first { OneHitIsFind str_hit find_str }
    ensures all { AllHitsAreFindAll str_hit find_all_str }
{}

/// In a `str`, a hit of patterns that match whole characters ends on a boundary exactly if it starts on one.
pub fn boundary_hits_are_str_hits()
    ensures { BoundaryHitsAreStrHits }
{}

/// A tree that `regex_syntax::parse` returns under its option `utf8` matches whole characters of a `str`.
pub fn trees_match_characters()
    ensures { TreesMatchCharacters }
{}
