//! Laws about the definitions only. Each function is empty: its contract is the theorem.
//!
//! No program needs them to search. Call one if a proof about answers needs it, for instance that two searches agree.
//! The call costs nothing at run time, and its clauses are available in the proof of the caller.
//!
//! ```
//! engines_agree();
//! let pattern = vm.search_slots(&mut cache, &input, &mut slots);
//! let same = engine.try_search_slots(&mut other, &input, &mut others)?;
//! ```
ghost use Rattle.std.specs.Prelude.{false, true};
ghost use Rattle.regex_search_core.specs.declared.search.MatchKind.TheVariants.{All, LeftmostFirst};
ghost use Rattle.nfa_paths.specs.Graphs.{IsEarliestPath, IsFirstPath};
ghost use Rattle.nfa_paths.specs.Overlaps.{IsFirstBefore};
ghost use Rattle.nfa_paths.specs.Paths.{IsBoolAnswer, IsFindAnswer, IsHalfAnswer, IsScanAnswer};
ghost use Rattle.nfa_search_base.specs.Lists.{AreMatches, AreRows};
ghost use Rattle.nfa_backtrack.specs.Backtrack.{Backtracker};
ghost use Rattle.nfa_backtrack.specs.Finding.{BacktrackerCapturesOn, BacktrackerCapturesToEnd, BacktrackerFindsOn};
ghost use Rattle.nfa_backtrack.specs.Finding.{BacktrackerFindsToEnd};
ghost use Rattle.nfa_pikevm.specs.Engines.{Pike, SameCapacities};
ghost use Rattle.nfa_pikevm.specs.Finding.{PikeCapturesOn, PikeCapturesToEnd, PikeFindsOn, PikeFindsToEnd};
ghost use Rattle.nfa_engines.specs.SpanLaws.{AnswersHaveASpan, EndMayBeCut, SearchMayBeCut, SpanMayBeCut, StartIsLeast};
ghost use Rattle.nfa_engines.specs.SpanLaws.{StartIsLeastOfAll, moved_found, moved_slots, CutOutLinesHoldAlike};
ghost use Rattle.nfa_engines.specs.SpanLaws.{CutOutMoves, HoldAlike, LinesHoldAlike, Moves, NoneToHold, ReadsTheSpan};
ghost use Rattle.nfa_engines.specs.SpanLaws.{SameSidesHoldAlike};
ghost use Rattle.nfa_engines.specs.Laws.{NoneIsNoPath, NoneStartsBefore, AllSlotsGiveTheMatch, AnswersAgree};
ghost use Rattle.nfa_engines.specs.Laws.{AnswersUnderAnyFlag, AtLeastOne, AtMostOne, BoolIsPattern};
ghost use Rattle.nfa_engines.specs.Laws.{EverySearchHasAnAnswer, FewerSlots, FoundIsSomething, FoundUnderAnyFlag};
ghost use Rattle.nfa_engines.specs.Laws.{HalfMatchHasThePattern, IsAsLeftmost, MatchUnderAnyFlag, NoPatternIsNothing};
ghost use Rattle.nfa_engines.specs.Laws.{NotBoth, NotFoundIsNothing, OfSlots, OneSearchAnswer, PathReadsNoFlag};
ghost use Rattle.nfa_engines.specs.Laws.{PathsAreOrdered, PathsAreOrderedOnce, PatternIsMatched, PatternIsSomething};
ghost use Rattle.nfa_engines.specs.Laws.{ReadsNoFlag, ScansAgree, SearchesAgree, SetReadsNoFlag, SlotsPastAreNone};
ghost use Rattle.nfa_engines.specs.Laws.{TwoSlotsGiveTheMatch};
ghost use Rattle.nfa_engines.specs.IterationLaws.{AtMostInList, AtMostMatches, CapturesUpToRefusal, EndsIncrease};
ghost use Rattle.nfa_engines.specs.IterationLaws.{FirstRowsAreMatches, MatchesAreDisjoint, RowsAreMatches};
ghost use Rattle.nfa_engines.specs.IterationLaws.{EmptySetGains, FullSetStays, IsOfAllPaths, IsPatternOfEarliest};
ghost use Rattle.nfa_engines.specs.IterationLaws.{OneSet, SetHoldsEachPattern, SetIsComplete, backtracker_totals};
ghost use Rattle.nfa_engines.specs.IterationLaws.{list_scan_limit, pike_totals, FitsAsBefore, IsKeptByLoop};
ghost use Rattle.nfa_engines.specs.IterationLaws.{IsKeptByNone, IsKeptByTwo, IterationsAreWithin};
ghost use Rattle.nfa_engines.specs.IterationLaws.{LeastCapacityIsEnough, ListsAreWithin, LongerIsRefused};
ghost use Rattle.nfa_engines.specs.IterationLaws.{LongestLengthFits, LoopHoldsNoMore};
ghost use Rattle.nfa_engines.specs.StartLaws.{AnswerIsOfFirst, AnswersAreOfPatterns, FirstPatternAnswers};
ghost use Rattle.nfa_engines.specs.StartLaws.{FirstPatternMatches, MatchIsOfFirst, MatchesAreOfPatterns};
ghost use Rattle.nfa_engines.specs.StartLaws.{NothingOfEachPattern, PatternIsAlone, AnswersHaveAStart};
ghost use Rattle.nfa_engines.specs.StartLaws.{FirstStartAnswers, FirstStartMatches, FirstStartMoves, IsUnbound};
ghost use Rattle.nfa_engines.specs.StartLaws.{NothingAtByte, NothingAtEachStart, StartIsFirst, StartsAnywhere};
ghost use Rattle.nfa_engines.specs.StartLaws.{StartsArePassed};

/// A scan has at most one answer, for each match kind and `earliest`.
pub fn one_scan_answer()
    ensures { AtMostOne (λ nfa kind earliest x. IsScanAnswer nfa x kind earliest) }
{}

/// A search has at most one answer, after one number of restarts.
pub fn one_search_answer()
    ensures { OneSearchAnswer }
{}

/// Of two different accepting paths of one search, exactly one comes before the other.
pub fn accepting_paths_are_ordered()
    ensures total { PathsAreOrdered }
    ensures asymmetric { PathsAreOrderedOnce }
{}

/// Every scan of every NFA has an answer, for each match kind and `earliest`.
pub fn every_scan_has_an_answer()
    ensures { AtLeastOne (λ nfa kind earliest x. IsScanAnswer nfa x kind earliest) }
{}

/// Every search has an answer, after some number of restarts.
pub fn every_search_has_an_answer()
    ensures { EverySearchHasAnAnswer }
{}

/// Whether a scan finds a match depends neither on the match kind nor on `earliest`. The same holds for a search, if no
/// match has to end on a boundary. A search finds a match exactly if it has a pattern. For leftmost first searches
/// there is one answer: `PikeVM::is_match` and, if it is `Ok`, `BoundedBacktracker::try_is_match` agree.
pub fn is_match_agrees()
    ensures scans { ScansAgree }
    ensures searches { SearchesAgree }
    ensures pattern { BoolIsPattern }
    ensures engines { IsAsLeftmost IsBoolAnswer LeftmostFirst }
{}

/// A search has one pattern and one slot row. A PikeVM that searches leftmost first, without `earliest`, therefore
/// agrees with the backtracker whenever the backtracker answers.
pub fn engines_agree()
    ensures { AnswersAgree }
{}

/// Fewer slots are the first ones of the same answer. Slots that the NFA does not have are `None`.
pub fn fewer_slots()
    ensures first { FewerSlots }
    ensures past { SlotsPastAreNone }
{}

/// A search has at most one match, and either finds something or does not. From one set an overlapping search makes one
/// set, for each kind, with and without `earliest`.
pub fn one_match()
    ensures matches { AtMostOne IsFindAnswer }
    ensures found { AtMostOne IsBoolAnswer }
    ensures sets { OneSet All }
    ensures first_sets { OneSet LeftmostFirst }
{}

/// A search has at most one half match: `find_half` of both engines gives the same. Its pattern is that of a search for
/// slots, so there is a half match exactly if there is a pattern. For an NFA that records its bounds, a law of
/// `nfa_facts::match_spans` says that it is the end of the match that `find` gives.
pub fn one_half_match()
    ensures one { AtMostOne IsHalfAnswer }
    ensures pattern { HalfMatchHasThePattern }
{}

/// The history of a cache is invisible. The contracts of searches mention only the NFA, the kind and the input, and
/// they allow one answer. Two calls on one input, with any caches, therefore give one pattern and slot row, one match,
/// one `is_match`, and from one set one set.
pub fn cache_history_is_invisible()
    ensures slots { AnswersAgree }
    ensures matches { AtMostOne IsFindAnswer }
    ensures found { AtMostOne IsBoolAnswer }
    ensures patterns { OneSet All }
    ensures first_patterns { OneSet LeftmostFirst }
{}

/// The exact result of a leftmost first overlapping search. A set that holds a pattern does not change. An empty set
/// gains exactly the patterns of the first accepting paths that end before some limit (each is the answer of a search
/// up to the limit). With `earliest` it gains only the pattern of the earliest path.
pub fn leftmost_sets_are_exact()
    ensures stays { FullSetStays }
    ensures firsts { EmptySetGains false IsFirstBefore }
    ensures earliest { EmptySetGains true IsPatternOfEarliest }
{}

/// If the set has room for each pattern of the NFA, the first and the earliest path that count are those of all
/// accepting paths with a permitted end.
pub fn room_leaves_no_path_out()
    ensures first { IsOfAllPaths IsFirstPath }
    ensures earliest { IsOfAllPaths IsEarliestPath }
{}

/// Under `All`, without `earliest`, an overlapping search adds exactly the patterns below the set's capacity that have
/// an accepting path with a permitted end. A set with room for each pattern misses none.
pub fn overlap_is_complete()
    ensures below { SetIsComplete false }
    ensures all { SetHoldsEachPattern false }
{}

/// With a visited capacity of at least `min_visited_capacity` of the input, no search of the input is refused for its
/// length. If there is a bit for each state, a span is refused for its length exactly if it is longer than
/// `max_haystack_len`.
pub fn enough_capacity()
    ensures least { LeastCapacityIsEnough 0 }
    ensures longest { LongestLengthFits 0 }
    ensures longer { LongerIsRefused }
{}

/// Over all calls of a searcher the ends of its matches increase, and each match starts at or after the end of the one
/// before. There are at most n + 1 matches for a span of n bytes. Calls that give no match or an error may come between
/// them.
pub fn ends_increase()
    ensures rise { EndsIncrease }
    ensures count { AtMostMatches 1 }
{}

/// Leftmost first misses no match. If a match may end anywhere, and each accepting path writes its start and its end
/// into the two slots of its pattern, there is no match exactly if there is no accepting path. Otherwise no accepting
/// path starts before the match.
pub fn no_gap()
    ensures none { NoneIsNoPath LeftmostFirst false }
    ensures start { NoneStartsBefore LeftmostFirst false }
{}

/// A search has exactly one list of its matches. The list of a PikeVM that searches leftmost first, without `earliest`,
/// is therefore that of a backtracker for the same NFA and input.
pub fn one_list_of_matches()
    ensures exists { AtLeastOne AreMatches }
    ensures one { AtMostOne AreMatches }
    ensures engines { IsAsLeftmost AreMatches LeftmostFirst }
{}

/// The first matches of a search, all or some, are inside its span and in order: each starts at or after the end of the
/// one before, and ends after that end. There are at most n + 1 for a span of n bytes.
pub fn matches_are_disjoint()
    ensures disjoint { MatchesAreDisjoint }
    ensures count { AtMostInList 1 }
{}

/// A search has exactly one list of its captures, which are the pattern and the slots of each of its answers. Their
/// matches are the list of its matches, so the iterators over captures and over matches agree in number, patterns and
/// spans. If a copy fails, the captures are the first ones of the list, then `Memory`, then the end. The list of a
/// PikeVM that searches leftmost first, without `earliest`, is therefore that of a backtracker for the same NFA and
/// input, if the backtracker gives no error.
pub fn one_list_of_captures()
    ensures exists { AtLeastOne AreRows }
    ensures one { AtMostOne AreRows }
    ensures engines { IsAsLeftmost AreRows LeftmostFirst }
    ensures matches { RowsAreMatches }
    ensures first { FirstRowsAreMatches }
    ensures refused { CapturesUpToRefusal }
{}

/// A statement with an `earliest` of its own does not read the `earliest` flag of the input. The answer of a search,
/// its match, whether there is one, its lists and the set that it makes are the same under any flag of the input.
pub fn earliest_flag_is_not_read()
    ensures path { PathReadsNoFlag }
    ensures answer { OfSlots ReadsNoFlag }
    ensures found { ReadsNoFlag IsBoolAnswer }
    ensures match_of { ReadsNoFlag IsFindAnswer }
    ensures matches { ReadsNoFlag AreMatches }
    ensures rows { ReadsNoFlag AreRows }
    ensures set { SetReadsNoFlag }
{}

/// A call that ignores the flag therefore gives, under any flag, the answer of a PikeVM without it. `is_match` is
/// whether `search_slots` has a pattern. If the kind is leftmost first, a backtracker for the same NFA gives the same
/// pattern and slots, and the same match.
pub fn answers_agree_under_any_flag()
    ensures found { FoundUnderAnyFlag }
    ensures answers { AnswersUnderAnyFlag }
    ensures matches { MatchUnderAnyFlag }
{}

/// The slots of an answer give the match of its search: captures of all groups, or of the two slots of each pattern,
/// have the match that `find` gives.
pub fn slots_give_the_match()
    ensures all { AllSlotsGiveTheMatch }
    ensures two { TwoSlotsGiveTheMatch }
{}

/// If a match may end anywhere, a search says exactly whether there is an accepting path, for each match kind,
/// `earliest` or not. It finds something exactly if there is an accepting path. It has a pattern exactly then, and some
/// accepting path is of that pattern.
pub fn found_is_an_accepting_path()
    ensures something { FoundIsSomething }
    ensures nothing { NotFoundIsNothing }
    ensures pattern { PatternIsMatched }
    ensures no_pattern { NoPatternIsNothing }
    ensures weaker { PatternIsSomething }
    ensures not_both { NotBoth }
{}

/// An unanchored search may skip a start at which the anchored search has no accepting path. From the first other start
/// on it has the same answer, the same match, and the same half match, for each match kind, `earliest` or not, and it
/// matches if the search from there does.
///
/// Premises: neither the search nor the NFA is anchored, and no match has to end on a boundary.
pub fn starts_may_be_passed()
    ensures answers { OfSlots StartsArePassed }
    ensures matches { StartsArePassed IsFindAnswer }
    ensures halves { StartsArePassed IsHalfAnswer }
    ensures found { StartsArePassed IsBoolAnswer }
    ensures nothing { NothingAtEachStart }
{}

/// A position may be skipped if no match begins with its byte, which `may_begin` of the engines says: the anchored
/// search there has no accepting path. So a start before which nothing matches may move past it, from the start of the
/// search on, and [`starts_may_be_passed`] says what the search from there answers.
pub fn bytes_may_be_skipped()
    ensures nothing { NothingAtByte }
    ensures first { StartIsFirst }
    ensures moves { FirstStartMoves }
{}

/// The leftmost first answer of an unanchored search is that of the anchored search at the first start that has one. If
/// an answer has a pattern, there is such a start in the span.
///
/// Premises: those of [`starts_may_be_passed`]. For `boundary`, the match may have to end on a boundary.
pub fn first_start_answers()
    ensures answers { FirstStartAnswers LeftmostFirst false }
    ensures matches { FirstStartMatches IsUnbound LeftmostFirst false }
    ensures boundary { FirstStartMatches StartsAnywhere LeftmostFirst false }
    ensures start { AnswersHaveAStart LeftmostFirst false }
{}

/// No accepting path that ends where a leftmost first answer ends starts before it, with `earliest` or not. Without
/// `earliest` no accepting path starts before it at all.
pub fn start_is_least()
    ensures first { StartIsLeast LeftmostFirst false }
    ensures earliest { StartIsLeast LeftmostFirst true }
    ensures all { StartIsLeastOfAll LeftmostFirst false }
{}

/// A leftmost first answer, without `earliest`, is also that of the search whose span is cut to where its path starts
/// and ends, over the same haystack, and needs no restart there. The cut search may keep its anchoring, and may be
/// anchored if the search is not. The answer of one scan may be cut with `earliest`, too.
pub fn answer_is_that_of_the_cut_span()
    ensures end { EndMayBeCut LeftmostFirst false }
    ensures scan { SpanMayBeCut LeftmostFirst false }
    ensures earliest { SpanMayBeCut LeftmostFirst true }
    ensures search { SearchMayBeCut LeftmostFirst false }
    ensures answer { AnswersHaveASpan LeftmostFirst false }
{}

/// A search with `Anchored::Pattern` has the answer and the match of the anchored search of that pattern only: of the
/// NFA whose anchored start is the start of the pattern. This holds for each match kind, `earliest` or not.
pub fn pattern_is_alone()
    ensures answer { OfSlots PatternIsAlone }
    ensures match_of { PatternIsAlone IsFindAnswer }
{}

/// The leftmost first answer of an anchored search is that of the first pattern, in their order, that has one when it
/// is searched alone, and so is its match. A search matches nothing exactly if no pattern alone matches.
///
/// Premises: the anchored start is a union of the starts of the patterns, in their order, and no path from one of these
/// leads back to it; or the NFA has one pattern, which starts there. No match has to end on a boundary. A law of
/// `nfa_compiler` says that each compiled NFA has such a start.
pub fn first_pattern_answers()
    ensures answers { FirstPatternAnswers LeftmostFirst false }
    ensures pattern { AnswersAreOfPatterns LeftmostFirst false }
    ensures matches { FirstPatternMatches LeftmostFirst false }
    ensures match_pattern { MatchesAreOfPatterns LeftmostFirst false }
    ensures nothing { NothingOfEachPattern }
{}

/// The leftmost first answer of an anchored search has a pattern exactly if this is the first, in their order, that
/// matches when it is searched alone. The same holds for the match, which `find` gives.
///
/// Premises: those of [`first_pattern_answers`], and the start of each pattern leads to no Match of another pattern.
/// For the match, the NFA is valid, and each accepting path writes its start and its end into the two slots of its
/// pattern.
pub fn first_pattern_is_found()
    ensures answers { AnswerIsOfFirst LeftmostFirst false }
    ensures matches { MatchIsOfFirst LeftmostFirst false }
{}

/// The answer of an NFA without assertions depends only on the bytes of the span. Two searches with the same bytes in
/// the same span have the same answer and the same match. If the bytes and the span move by a distance, the slots and
/// the match move by the same distance. A span and the text cut out of it therefore have the same answer, up to the
/// distance. This holds for each match kind, `earliest` or not, anchored or not.
///
/// Premises: no state of the NFA is a `Look`, and no match has to end on a boundary.
pub fn answers_read_the_span()
    ensures same { OfSlots (ReadsTheSpan NoneToHold) }
    ensures same_match { ReadsTheSpan NoneToHold IsFindAnswer }
    ensures moved { OfSlots (Moves NoneToHold moved_slots) }
    ensures moved_match { Moves NoneToHold moved_found IsFindAnswer }
    ensures cut_out { OfSlots (CutOutMoves NoneToHold moved_slots) }
    ensures cut_out_match { CutOutMoves NoneToHold moved_found IsFindAnswer }
{}

/// The answer of an NFA depends only on the bytes of the span and on which of its assertions hold at each position of
/// the span, its end included. Two searches for which both are the same in the same span have the same answer and the
/// same match. If the bytes, the span and the positions of the assertions move by a distance, the slots and the match
/// move by the same distance. [`answers_read_the_span`] is the case of an NFA without assertions.
///
/// Premise: no match has to end on a boundary.
pub fn answers_read_span_and_assertions()
    ensures same { OfSlots (ReadsTheSpan HoldAlike) }
    ensures same_match { ReadsTheSpan HoldAlike IsFindAnswer }
    ensures moved { OfSlots (Moves HoldAlike moved_slots) }
    ensures moved_match { Moves HoldAlike moved_found IsFindAnswer }
    ensures cut_out { OfSlots (CutOutMoves HoldAlike moved_slots) }
    ensures cut_out_match { CutOutMoves HoldAlike moved_found IsFindAnswer }
{}

/// Which assertions hold alike, as [`answers_read_span_and_assertions`] requires. An assertion that reads no more than
/// the byte on each side of a position holds alike in two spans with the same bytes, if both have the same byte, or
/// none, next to them on each side. All assertions except those of Unicode words are of this sort. `StartLF` and
/// `EndLF` hold alike in two spans of whole lines with the same bytes, so in a text and in whole lines that are cut out
/// of it.
pub fn assertions_hold_alike()
    ensures sides { SameSidesHoldAlike }
    ensures lines { LinesHoldAlike }
    ensures cut_out { CutOutLinesHoldAlike }
{}

/// A whole list takes little more than one search. Over the calls that find all k matches in a span of n bytes, or
/// their captures, the totals of the cache rise by at most n + k + 2 scans; if no search may restart, by at most 2k +
/// 1. The turns are at most (1 + D)(n + 1) for each of these scans.
///
/// The premises are what `find_all` and `captures_all` ensure of the cache where they are `Ok` (`to_end`), and what the
/// iterators over matches ensure where they go on to `None` (`searches`).
pub fn lists_are_bounded()
    ensures pike { ListsAreWithin (λ (vm : Pike). vm.nfa) pike_totals list_scan_limit
        PikeFindsToEnd }
    ensures pike_rows { ListsAreWithin (λ (vm : Pike). vm.nfa) pike_totals list_scan_limit
        PikeCapturesToEnd }
    ensures backtracker { ListsAreWithin (λ (e : Backtracker). e.nfa) backtracker_totals list_scan_limit
        BacktrackerFindsToEnd }
    ensures backtracker_rows { ListsAreWithin (λ (e : Backtracker). e.nfa) backtracker_totals list_scan_limit
        BacktrackerCapturesToEnd }
{}

/// Wherever an iteration stops, also after an error, the totals of the cache rise by at most 2n + 3 scans, each of at
/// most (1 + D)(n + 1) turns.
///
/// The premises are what all lists and iterators ensure of the cache (`searches`).
pub fn iterations_are_bounded()
    ensures pike { IterationsAreWithin (λ (vm : Pike). vm.nfa) pike_totals 3 PikeFindsOn }
    ensures pike_rows { IterationsAreWithin (λ (vm : Pike). vm.nfa) pike_totals 3 PikeCapturesOn }
    ensures backtracker { IterationsAreWithin (λ (e : Backtracker). e.nfa) backtracker_totals 3 BacktrackerFindsOn }
    ensures backtracker_rows { IterationsAreWithin (λ (e : Backtracker). e.nfa) backtracker_totals 3
        BacktrackerCapturesOn }
{}

/// A loop keeps what each of its searches keeps: the sizes of a PikeVM's cache, so the cache fits the same NFAs after
/// the loop as before it. In a backtracker's cache a loop holds no more frames and slots than one search may.
///
/// The premises are what each search ensures of its cache (`capacities`, `holds`). In a loop with an invariant the
/// check finds these steps itself. Take the law if a proof relates the searches otherwise, for instance by an iterator.
pub fn loops_keep_caches()
    ensures none { IsKeptByNone SameCapacities }
    ensures two { IsKeptByTwo SameCapacities }
    ensures loops { IsKeptByLoop SameCapacities }
    ensures fits { FitsAsBefore }
    ensures holds { LoopHoldsNoMore }
{}
