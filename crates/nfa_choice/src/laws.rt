//! Laws of a choice, about the definitions only. Each function is empty: its contract is the theorem.
//!
//! Call one if a proof about the work of an iteration needs it, as those of `nfa_engines::laws`. The call costs nothing
//! at run time.
ghost use Rattle.nfa_engines.specs.IterationLaws.{IsKeptByLoop, IsKeptByNone, IsKeptByTwo, list_scan_limit};
ghost use Rattle.nfa_choice.specs.ChoiceState.{ChoiceFitsAsBefore, IsAsBefore, KeepsEngines, RuleIsAsBefore};
ghost use Rattle.nfa_choice.specs.ChoiceState.{backtracker_of, pike_of};
ghost use Rattle.nfa_choice.specs.Iterations.{by_rule};
ghost use Rattle.nfa_choice.specs.WorkLaws.{CapturesCostWithin, FindsWithin, MatchesAreWithin, RowsAreWithin};

/// A whole list takes little more than one search. Over the calls that find all k matches in a span of n bytes, or
/// their captures, the totals of each cache rise by at most n + k + 2 scans. If no search may restart, they rise by at
/// most 2k + 1 scans. The turns rise by at most (1 + D)(n + 1) for each of these scans.
///
/// The premises are what `find_all` and `captures_all` ensure if they are `Ok` (`to_end`), and what `find_iter` ensures
/// if it goes on to `None` (`searches`).
pub fn lists_are_bounded()
    ensures matches { MatchesAreWithin by_rule list_scan_limit }
    ensures rows { RowsAreWithin by_rule list_scan_limit }
{}

/// Wherever an iteration over a span of n bytes stops, the totals of each cache rise by at most 2n + 3 scans. The turns
/// rise by at most (1 + D)(n + 1) for each of these scans.
///
/// The premises are what all lists and iterators ensure (`searches`).
pub fn iterations_are_bounded()
    ensures matches { FindsWithin by_rule 3 }
    ensures rows { CapturesCostWithin by_rule 3 }
{}

/// A loop of searches keeps the engines of a choice, and they answer after the loop as before it: the PikeVM, which
/// defines the answers, and the backtracker are the same, the rule names the same engine for each search, and the cache
/// of the PikeVM fits the same NFAs.
///
/// The premise is what each search ensures (`keeps`). In a loop with an invariant the check finds these steps itself.
/// Take the law if a proof relates the searches otherwise, for instance by an iterator.
pub fn loops_keep_engines()
    ensures none { IsKeptByNone KeepsEngines }
    ensures two { IsKeptByTwo KeepsEngines }
    ensures loops { IsKeptByLoop KeepsEngines }
    ensures pikevm { IsAsBefore pike_of }
    ensures backtracker { IsAsBefore backtracker_of }
    ensures rule { RuleIsAsBefore }
    ensures fits { ChoiceFitsAsBefore }
{}
