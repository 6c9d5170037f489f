//! Callers of the laws on the answers of searches: each takes a law, and says what follows of calls.
ghost use Rattle.std.specs.Prelude.{◌≡◌, ◌<◌, ◌≤◌, false, true, length, option_map, IfOk, IfSome, IsErrOf, List, Ok};
ghost use Rattle.std.specs.Prelude.{Option, is_some, option_and_then, take, ℕ};
ghost use Rattle.nfa_engines.specs.Found.{found_of};
ghost use Rattle.nfa_engines.specs.Groups.{slot_count};
ghost use Rattle.nfa_engines.specs.PatternSets.{number_of};
ghost use Rattle.nfa_engines.specs.Search.{search_of};
ghost use Rattle.nfa_engines.specs.MatchKind.TheVariants.{LeftmostFirst};
ghost use Rattle.nfa_engines.specs.Laws.{MatchesNothing, MatchesPattern, MatchesSomething};
ghost use Rattle.nfa_engines.specs.Backtrack.{capacity_of, max_haystack_len_of};
ghost use Rattle.nfa_engines.specs.Engines.{Fits, kind_of};
ghost use Rattle.nfa_engines.specs.Graphs.{Pair};
ghost use Rattle.nfa_engines.specs.IterationLaws.{IsCall};
ghost use Rattle.nfa_engines.specs.Paths.{IsBoolAnswer, IsScanAnswer, IsSearchAnswer, is_utf8_empty, path_pattern};
ghost use Rattle.nfa_engines.specs.Paths.{span_len};
ghost use Rattle.nfa_engines.specs.Finders.{match_span};
ghost use Rattle.nfa_engines.specs.Stored.{iter_state_of};
ghost use Rattle.nfa_engines.specs.IterStates.{LiesIn};

use nfa_engines::backtrack::{self, BoundedBacktracker};
use nfa_engines::error::SearchError;
use nfa_engines::iter::Searcher;
use nfa_engines::pikevm::{Cache, PikeVM};
use nfa_engines::{Captures, Input, Match, NonMaxUsize, PatternID, laws};

/// Two caches make one number of scans for one input.
pub fn scans_are_one(vm: &PikeVM, cache: &mut Cache, other: &mut Cache, input: &Input<'_>)
    requires first { Fits cache.old vm.now.nfa }
    requires second { Fits other.old vm.now.nfa }
    ensures { cache.new.scans ≡ other.new.scans }
{
    laws::one_search_answer();
    vm.search_slots(cache, input, &mut []);
    vm.search_slots(other, input, &mut []);
}

/// Each scan has an answer, whatever is asked.
pub fn scan_has_an_answer(vm: &PikeVM, input: &Input<'_>)
    ensures { (path : Option (List Pair)) × IsScanAnswer vm.now.nfa (search_of input.now) (kind_of vm.now) false path }
{
    laws::every_scan_has_an_answer();
}

/// The pattern is the pattern of the path that answers the scan.
pub fn pattern_of_the_scan(vm: &PikeVM, cache: &mut Cache, input: &Input<'_>) -> Option<PatternID>
    requires fits { Fits cache.old vm.now.nfa }
    requires anywhere { is_utf8_empty vm.now.nfa ≡ false }
    ensures { (path : Option (List Pair))
        → IsScanAnswer vm.now.nfa (search_of input.now) (kind_of vm.now) (search_of input.now).earliest path
        → option_map number_of result ≡ option_and_then (path_pattern vm.now.nfa) path }
{
    laws::one_scan_answer();
    vm.search_slots(cache, input, &mut [])
}

/// Both engines say the same of whether there is a match.
pub fn both_find(
    vm: &PikeVM,
    engine: &BoundedBacktracker,
    cache: &mut Cache,
    other: &mut backtrack::Cache,
    input: Input<'_>,
) -> (bool, Result<bool, SearchError>)
    requires fits { Fits cache.old vm.now.nfa }
    requires same { engine.now.nfa ≡ vm.now.nfa }
    requires kind { kind_of vm.now ≡ LeftmostFirst }
    ensures { IfOk result.1 (λ found. result.0 ≡ found) }
{
    laws::is_match_agrees();
    let one = vm.is_match(cache, input);
    let two = engine.try_is_match(other, input);
    (one, two)
}

/// Both engines answer one pattern.
pub fn both_answer(
    vm: &PikeVM,
    engine: &BoundedBacktracker,
    cache: &mut Cache,
    other: &mut backtrack::Cache,
    input: &Input<'_>,
) -> Result<(Option<PatternID>, Option<PatternID>), SearchError>
    requires fits { Fits cache.old vm.now.nfa }
    requires same { engine.now.nfa ≡ vm.now.nfa }
    requires kind { kind_of vm.now ≡ LeftmostFirst }
    requires off { (search_of input.now).earliest ≡ false }
    ensures { IfOk result (λ p. option_map number_of p.0 ≡ option_map number_of p.1) }
{
    laws::engines_agree();
    let one = vm.search_slots(cache, input, &mut []);
    let two = engine.try_search_slots(other, input, &mut [])?;
    Ok((one, two))
}

/// Whatever is asked, the search has an answer.
pub fn has_an_answer(vm: &PikeVM, input: &Input<'_>)
    ensures { (restarts : ℕ) × (path : Option (List Pair))
        × IsSearchAnswer vm.now.nfa (kind_of vm.now) false (search_of input.now) restarts path }
{
    laws::every_search_has_an_answer();
}

/// Fewer slots are the first ones of the same answer.
pub fn fewer_are_first(
    vm: &PikeVM,
    cache: &mut Cache,
    other: &mut Cache,
    input: &Input<'_>,
    slots: &mut [Option<NonMaxUsize>],
    more: &mut [Option<NonMaxUsize>],
)
    requires first { Fits cache.old vm.now.nfa }
    requires second { Fits other.old vm.now.nfa }
    requires fewer { length slots.old ≤ length more.old }
    ensures { slots.new ≡ take (length slots.new) more.new }
{
    laws::fewer_slots();
    vm.search_slots(cache, input, slots);
    vm.search_slots(other, input, more);
}

/// Returns whether there is an accepting path. If it is true, there is one.
pub fn matches_something(vm: &PikeVM, cache: &mut Cache, input: Input<'_>) -> bool
    requires fits { Fits cache.old vm.now.nfa }
    requires anywhere { is_utf8_empty vm.now.nfa ≡ false }
    ensures { result ≡ true → MatchesSomething vm.now.nfa (search_of input.entry) }
{
    laws::found_is_an_accepting_path();
    if vm.is_match(cache, input) {
        true
    } else {
        false
    }
}

/// Returns whether there is no accepting path. If it is true, there is none.
pub fn matches_nothing(vm: &PikeVM, cache: &mut Cache, input: Input<'_>) -> bool
    requires fits { Fits cache.old vm.now.nfa }
    requires anywhere { is_utf8_empty vm.now.nfa ≡ false }
    ensures { result ≡ true → MatchesNothing vm.now.nfa (search_of input.entry) }
{
    laws::found_is_an_accepting_path();
    if vm.is_match(cache, input) {
        false
    } else {
        true
    }
}

/// Returns the pattern of an accepting path.
pub fn matched_pattern(vm: &PikeVM, cache: &mut Cache, input: &Input<'_>) -> Option<PatternID>
    requires fits { Fits cache.old vm.now.nfa }
    requires anywhere { is_utf8_empty vm.now.nfa ≡ false }
    ensures { IfSome result (λ p. MatchesPattern vm.now.nfa (search_of input.now) (number_of p)) }
{
    laws::found_is_an_accepting_path();
    let pattern = vm.search_slots(cache, input, &mut [])?;
    Some(pattern)
}

/// Returns whether the search has no pattern. If it is true, there is no accepting path.
pub fn has_no_pattern(vm: &PikeVM, cache: &mut Cache, input: &Input<'_>) -> bool
    requires fits { Fits cache.old vm.now.nfa }
    requires anywhere { is_utf8_empty vm.now.nfa ≡ false }
    ensures { result ≡ true → MatchesNothing vm.now.nfa (search_of input.now) }
{
    laws::found_is_an_accepting_path();
    match vm.search_slots(cache, input, &mut []) {
        Some(_) => false,
        None => true,
    }
}

/// The match of captures is the match that `find` gives.
pub fn caught_is_found(
    vm: &PikeVM,
    cache: &mut Cache,
    input: Input<'_>,
    captures: &mut Captures,
) -> (Option<Match>, Option<Match>)
    requires fits { Fits cache.old vm.now.nfa }
    requires slots { length captures.old.slots ≡ slot_count vm.now.nfa.groups }
    ensures { option_map found_of result.0 ≡ option_map found_of result.1 }
{
    laws::slots_give_the_match();
    vm.captures(cache, input, captures);
    let caught = captures.get_match();
    let found = vm.find(cache, input);
    (caught, found)
}

/// A span that is not too long is not refused for its length.
pub fn not_too_long(
    engine: &BoundedBacktracker,
    cache: &mut backtrack::Cache,
    input: Input<'_>,
) -> Result<bool, SearchError>
    requires states { length engine.now.nfa.states ≤ capacity_of engine.now }
    requires short { span_len (search_of input) ≤ max_haystack_len_of engine.now }
    ensures { ¬ (IsErrOf result (SearchError.HaystackTooLong (span_len (search_of input.entry)))) }
{
    laws::enough_capacity();
    engine.try_is_match(cache, input)
}

/// Whether there is a match, of an input that carries the flag, is whether there is a pattern without it.
pub fn found_with_the_flag(
    vm: &PikeVM,
    cache: &mut Cache,
    input: Input<'_>,
) -> (bool, Option<PatternID>)
    requires fits { Fits cache.old vm.now.nfa }
    requires off { (search_of input).earliest ≡ false }
    ensures { result.0 ≡ is_some (option_map number_of result.1) }
{
    laws::answers_agree_under_any_flag();
    let flagged = input.earliest(true);
    let found = vm.is_match(cache, flagged);
    let pattern = vm.search_slots(cache, &input, &mut []);
    (found, pattern)
}

/// Whether there is a match does not depend on the flag that the input carries.
pub fn found_under_the_flag(vm: &PikeVM, cache: &mut Cache, input: Input<'_>) -> bool
    requires { Fits cache.old vm.now.nfa }
    ensures { IsBoolAnswer vm.now.nfa (kind_of vm.now) false (search_of input.entry) result }
{
    laws::earliest_flag_is_not_read();
    let flagged = input.earliest(true);
    vm.is_match(cache, flagged)
}

// A step of an iteration is a call in the sense of the laws. The finder returns the given match if it is inside the
// span, and none otherwise.
fn step(searcher: &mut Searcher<'_>, told: Option<Match>) -> Result<Option<Match>, SearchError>
    ensures { IsCall (iter_state_of searcher.old) (match_span result) (iter_state_of searcher.new) }
{
    searcher.try_advance(|input: &Input<'_>| Ok(within(input, told)))
}

// The match, if it lies in the span.
fn within(input: &Input<'_>, told: Option<Match>) -> Option<Match>
    ensures { LiesIn (search_of input.now) (match_span (Ok result)) }
{
    let found = told?;
    if input.start() <= found.start() && found.end() <= input.end() {
        Some(found)
    } else {
        None
    }
}

/// Returns two matches of one iteration. The second ends after the first, so the span is not empty.
pub fn two_matches(
    input: Input<'_>,
    one: Option<Match>,
    two: Option<Match>,
) -> Option<(Match, Match)>
    ensures rise { IfSome result (λ p. (found_of p.0).end < (found_of p.1).end) }
    ensures few { IfSome result (λ p. 1 ≤ span_len (search_of input.entry)) }
{
    laws::ends_increase();
    let mut searcher = Searcher::new(input);
    let Ok(Some(first)) = step(&mut searcher, one) else {
        return None;
    };
    let Ok(Some(second)) = step(&mut searcher, two) else {
        return None;
    };
    Some((first, second))
}
