//! Callers that state the promises of one word in a contract as clauses of their own, with no proof file.
ghost use Rattle.std.specs.Prelude.{◌≡◌, ◌⊎◌, ◌↔◌, ◌<◌, ◌≤◌, ◌*◌, ◌+◌, None, Some, [], false, length, map, replicate};
ghost use Rattle.std.specs.Prelude.{All, IfErr, IfNone, IfOk, IfSome, IsErrOf, IsOk, OnErr, OnOk};
ghost use Rattle.nfa_engines.specs.Backtrack.{AddsBacktrackWork, CountsAnswer, CountsRefusal, GrowsBlocks, HoldsNoMore};
ghost use Rattle.nfa_engines.specs.Backtrack.{IsTooLong, refused_early};
ghost use Rattle.nfa_engines.specs.BacktrackIterators.{backtrack_captures_next};
ghost use Rattle.nfa_engines.specs.BacktrackFinding.{IsTryCapturesAnswer};
ghost use Rattle.nfa_engines.specs.Lists.{AnswersRow, AreAllCaptures, AreDisjoint, AreFirstCaptures, AreMatches};
ghost use Rattle.nfa_engines.specs.Lists.{AreRows, HasGroups, IsSlotInside, SpansInside};
ghost use Rattle.nfa_engines.specs.Runs.{CapturesDisjoint, CapturesGroups, GivesFirst, GivesNext, MatchesAreAll};
ghost use Rattle.nfa_engines.specs.Runs.{MatchesAreFirst, OksAll, OksFirst, OksNext, OksRun, RowsAreAll, RowsAreFirst};
ghost use Rattle.nfa_engines.specs.Runs.{RunsGive, match_in};
ghost use Rattle.nfa_engines.specs.Engines.{AddsPikeWork, Fits, SameCapacities, kind_of};
ghost use Rattle.nfa_engines.specs.Found.{found_of};
ghost use Rattle.nfa_engines.specs.MatchKind.TheVariants.{LeftmostFirst};
ghost use Rattle.nfa_engines.specs.Needs.{overlap_scans};
ghost use Rattle.nfa_engines.specs.Paths.{IsWithinScans, IsWork, max_scans, span_len, total_degree};
ghost use Rattle.nfa_engines.specs.PatternSets.{number_of};
ghost use Rattle.nfa_engines.specs.PikeVMIterators.{pike_captures_next};
ghost use Rattle.nfa_engines.specs.Search.{search_of};
ghost use Rattle.nfa_engines.specs.WithCaptures.{row_of};
ghost use Rattle.nfa_choice.specs.Iterations.{choice_captures_next};
ghost use Rattle.nfa_choice.specs.ChoiceState.{kind_in};
ghost use Rattle.nfa_choice.specs.declared.choose.Engine.TheVariants as engine;
ghost use Rattle.nfa_choice.specs.HalfRuns.{HalvesAre, HalvesFirst, HalvesNext, HalvesRise, HalvesRun};
ghost use Rattle.nfa_meta.specs.CapturesMatches.{captures_next};
ghost use Rattle.nfa_meta.specs.Halves.{halves_next};

use nfa_choice::Choice;
use nfa_choice::choose::ChoiceCaptures;
use nfa_engines::backtrack::{self, BoundedBacktracker, TryCapturesMatches};
use nfa_engines::error::SearchError;
use nfa_engines::pikevm::{self, CapturesMatches, PikeVM};
use nfa_engines::{Captures, Input, Match, NonMaxUsize, PatternID, PatternSet};
use nfa_meta::Regex;
use nfa_meta::regex::{CapturesMatches as RegexCaptures, HalfMatches};
use std::alloc::Global;

/// Returns the answer of a PikeVM. What it counted and what it kept are a clause each.
pub fn counted_by_pikevm(
    vm: &PikeVM,
    cache: &mut pikevm::Cache,
    input: &Input<'_>,
    slots: &mut [Option<NonMaxUsize>],
) -> Option<PatternID>
    requires { Fits cache.old vm.now.nfa }
    ensures total { AddsPikeWork cache.old cache.new }
    ensures work { IsWork vm.now.nfa (kind_of vm.now) (search_of input.now).earliest (search_of input.now)
        cache.new.scans cache.new.turns }
    ensures scans { cache.new.scans ≤ max_scans vm.now.nfa (search_of input.now) }
    ensures turns { cache.new.turns
        ≤ cache.new.scans * ((1 + total_degree vm.now.nfa) * (span_len (search_of input.now) + 1)) }
    ensures capacities { SameCapacities cache.old cache.new }
{
    vm.search_slots(cache, input, slots)
}

/// Returns the answer of a backtracker. What it refused, counted and kept are a clause each.
pub fn counted_by_backtracker(
    engine: &BoundedBacktracker,
    cache: &mut backtrack::Cache,
    input: &Input<'_>,
    slots: &mut [Option<NonMaxUsize>],
) -> Result<Option<PatternID>, SearchError>
    ensures too_long { IsErrOf result (SearchError.HaystackTooLong (span_len (search_of input.now)))
        ↔ IsTooLong engine.now (search_of input.now) }
    ensures errors { IfErr result (λ e. (e ≡ SearchError.Memory)
        ⊎ (e ≡ SearchError.HaystackTooLong (span_len (search_of input.now)))) }
    ensures work { OnOk result (IsWork engine.now.nfa LeftmostFirst false (search_of input.now)
        cache.new.scans cache.new.turns) }
    ensures within { OnErr result (IsWithinScans engine.now.nfa LeftmostFirst false (search_of input.now)
        cache.new.scans) }
    ensures scans { cache.new.scans ≤ max_scans engine.now.nfa (search_of input.now) }
    ensures turns { cache.new.turns
        ≤ cache.new.scans * ((1 + total_degree engine.now.nfa) * (span_len (search_of input.now) + 1)) }
    ensures answered { OnOk result (CountsAnswer cache.old cache.new) }
    ensures refused { OnErr result (CountsRefusal cache.old cache.new) }
    ensures total { AddsBacktrackWork cache.old cache.new }
    ensures blocks { GrowsBlocks engine.now.nfa (search_of input.now) cache.old.blocks cache.new.blocks }
    ensures holds { HoldsNoMore 0 cache.old cache.new }
    ensures early { IsTooLong engine.now (search_of input.now) → cache.new ≡ refused_early cache.old }
{
    engine.try_search_slots(cache, input, slots)
}

/// Returns the captures that a PikeVM iterates over. What they are is a clause for each way to go through them.
pub fn captured_by_pikevm<'r, 'c, 'h>(
    vm: &'r PikeVM,
    alloc: Global,
    cache: &'c mut pikevm::Cache,
    input: Input<'h>,
) -> Result<CapturesMatches<'r, 'c, 'h>, SearchError>
    requires { Fits cache.old vm.now.nfa }
    ensures runs { let x = search_of input.entry in IfOk result (RunsGive pike_captures_next
        (AreFirstCaptures (AnswersRow vm.now.nfa (kind_of vm.now) x.earliest) x)
        (AreAllCaptures (AnswersRow vm.now.nfa (kind_of vm.now) x.earliest) x)) }
    ensures first { let x = search_of input.entry in IfOk result (GivesFirst pike_captures_next
        (AreFirstCaptures (AnswersRow vm.now.nfa (kind_of vm.now) x.earliest) x)) }
    ensures next { let x = search_of input.entry in IfOk result (GivesNext pike_captures_next
        (AreFirstCaptures (AnswersRow vm.now.nfa (kind_of vm.now) x.earliest) x)) }
    ensures rows { let x = search_of input.entry in IfOk result (OksRun pike_captures_next
        (RowsAreFirst vm.now.nfa (kind_of vm.now) x.earliest x) (RowsAreAll vm.now.nfa (kind_of vm.now) x.earliest x)) }
    ensures first_rows { let x = search_of input.entry in IfOk result (OksFirst pike_captures_next
        (RowsAreFirst vm.now.nfa (kind_of vm.now) x.earliest x)) }
    ensures next_row { let x = search_of input.entry in IfOk result (OksNext pike_captures_next
        (RowsAreFirst vm.now.nfa (kind_of vm.now) x.earliest x)) }
    ensures all_rows { let x = search_of input.entry in IfOk result (OksAll pike_captures_next
        (RowsAreAll vm.now.nfa (kind_of vm.now) x.earliest x)) }
    ensures matches { let x = search_of input.entry in IfOk result (OksRun pike_captures_next
        (MatchesAreFirst vm.now.nfa (kind_of vm.now) x.earliest x)
        (MatchesAreAll vm.now.nfa (kind_of vm.now) x.earliest x)) }
    ensures first_matches { let x = search_of input.entry in IfOk result (OksFirst pike_captures_next
        (MatchesAreFirst vm.now.nfa (kind_of vm.now) x.earliest x)) }
    ensures next_match { let x = search_of input.entry in IfOk result (OksNext pike_captures_next
        (MatchesAreFirst vm.now.nfa (kind_of vm.now) x.earliest x)) }
    ensures all_matches { let x = search_of input.entry in IfOk result (OksAll pike_captures_next
        (MatchesAreAll vm.now.nfa (kind_of vm.now) x.earliest x)) }
    ensures groups { IfOk result (CapturesGroups pike_captures_next vm.now.nfa) }
    ensures disjoint { IfOk result (CapturesDisjoint pike_captures_next (search_of input.entry)) }
{
    vm.captures_iter(alloc, cache, input)
}

/// Returns the captures that a backtracker iterates over. What they are is a clause for each way to go through them.
pub fn captured_by_backtracker<'r, 'c, 'h>(
    engine: &'r BoundedBacktracker,
    alloc: Global,
    cache: &'c mut backtrack::Cache,
    input: Input<'h>,
) -> Result<TryCapturesMatches<'r, 'c, 'h>, SearchError>
    ensures runs { let x = search_of input.entry in IfOk result (RunsGive backtrack_captures_next
        (AreFirstCaptures (IsTryCapturesAnswer engine.now) x) (AreAllCaptures (IsTryCapturesAnswer engine.now) x)) }
    ensures first { let x = search_of input.entry in IfOk result (GivesFirst backtrack_captures_next
        (AreFirstCaptures (IsTryCapturesAnswer engine.now) x)) }
    ensures next { let x = search_of input.entry in IfOk result (GivesNext backtrack_captures_next
        (AreFirstCaptures (IsTryCapturesAnswer engine.now) x)) }
    ensures rows { let x = search_of input.entry in IfOk result (OksRun backtrack_captures_next
        (RowsAreFirst engine.now.nfa LeftmostFirst false x) (RowsAreAll engine.now.nfa LeftmostFirst false x)) }
    ensures first_rows { let x = search_of input.entry in IfOk result (OksFirst backtrack_captures_next
        (RowsAreFirst engine.now.nfa LeftmostFirst false x)) }
    ensures next_row { let x = search_of input.entry in IfOk result (OksNext backtrack_captures_next
        (RowsAreFirst engine.now.nfa LeftmostFirst false x)) }
    ensures all_rows { let x = search_of input.entry in IfOk result (OksAll backtrack_captures_next
        (RowsAreAll engine.now.nfa LeftmostFirst false x)) }
    ensures matches { let x = search_of input.entry in IfOk result (OksRun backtrack_captures_next
        (MatchesAreFirst engine.now.nfa LeftmostFirst false x) (MatchesAreAll engine.now.nfa LeftmostFirst false x)) }
    ensures first_matches { let x = search_of input.entry in IfOk result (OksFirst backtrack_captures_next
        (MatchesAreFirst engine.now.nfa LeftmostFirst false x)) }
    ensures next_match { let x = search_of input.entry in IfOk result (OksNext backtrack_captures_next
        (MatchesAreFirst engine.now.nfa LeftmostFirst false x)) }
    ensures all_matches { let x = search_of input.entry in IfOk result (OksAll backtrack_captures_next
        (MatchesAreAll engine.now.nfa LeftmostFirst false x)) }
    ensures groups { IfOk result (CapturesGroups backtrack_captures_next engine.now.nfa) }
    ensures disjoint { IfOk result (CapturesDisjoint backtrack_captures_next (search_of input.entry)) }
{
    engine.try_captures_iter(alloc, cache, input)
}

/// Returns the captures that a choice iterates over. What they are is a clause for each way to go through them.
pub fn captured_by_choice<'c, 'h>(
    choice: &'c mut Choice,
    alloc: Global,
    input: Input<'h>,
) -> Result<ChoiceCaptures<'c, 'h>, SearchError>
    ensures runs { let x = search_of input.entry in IfOk result (λ made. RunsGive choice_captures_next
        (AreFirstCaptures (AnswersRow choice.entry.now.nfa (kind_in choice.entry.now) x.earliest) x)
        (AreAllCaptures (AnswersRow choice.entry.now.nfa (kind_in choice.entry.now) x.earliest) x) made) }
    ensures first { let x = search_of input.entry in IfOk result (λ made. GivesFirst choice_captures_next
        (AreFirstCaptures (AnswersRow choice.entry.now.nfa (kind_in choice.entry.now) x.earliest) x) made) }
    ensures next { let x = search_of input.entry in IfOk result (λ made. GivesNext choice_captures_next
        (AreFirstCaptures (AnswersRow choice.entry.now.nfa (kind_in choice.entry.now) x.earliest) x) made) }
    ensures all_rows { let x = search_of input.entry in IfOk result (OksAll choice_captures_next
        (RowsAreAll choice.entry.now.nfa (kind_in choice.entry.now) x.earliest x)) }
    ensures all_matches { let x = search_of input.entry in IfOk result (OksAll choice_captures_next
        (MatchesAreAll choice.entry.now.nfa (kind_in choice.entry.now) x.earliest x)) }
    ensures groups { IfOk result (CapturesGroups choice_captures_next choice.entry.now.nfa) }
    ensures disjoint { IfOk result (CapturesDisjoint choice_captures_next (search_of input.entry)) }
{
    choice.captures_iter(alloc, input)
}

/// Returns the captures that a regex iterates over. What they are is a clause for each way to go through them.
pub fn captured_by_regex<'r, 'h>(
    regex: &'r mut Regex,
    alloc: Global,
    input: Input<'h>,
) -> Result<RegexCaptures<'r, 'h>, SearchError>
    ensures runs { let x = search_of input.entry in IfOk result (λ made. RunsGive captures_next
        (AreFirstCaptures (AnswersRow regex.entry.now.choice.nfa (kind_in regex.entry.now.choice) x.earliest) x)
        (AreAllCaptures (AnswersRow regex.entry.now.choice.nfa (kind_in regex.entry.now.choice) x.earliest) x) made) }
    ensures first { let x = search_of input.entry in IfOk result (λ made. GivesFirst captures_next
        (AreFirstCaptures (AnswersRow regex.entry.now.choice.nfa (kind_in regex.entry.now.choice) x.earliest) x) made) }
    ensures next { let x = search_of input.entry in IfOk result (λ made. GivesNext captures_next
        (AreFirstCaptures (AnswersRow regex.entry.now.choice.nfa (kind_in regex.entry.now.choice) x.earliest) x) made) }
    ensures all_rows { let x = search_of input.entry in IfOk result (OksAll captures_next
        (RowsAreAll regex.entry.now.choice.nfa (kind_in regex.entry.now.choice) x.earliest x)) }
    ensures all_matches { let x = search_of input.entry in IfOk result (OksAll captures_next
        (MatchesAreAll regex.entry.now.choice.nfa (kind_in regex.entry.now.choice) x.earliest x)) }
    ensures groups { IfOk result (CapturesGroups captures_next regex.entry.now.choice.nfa) }
    ensures disjoint { IfOk result (CapturesDisjoint captures_next (search_of input.entry)) }
{
    regex.captures_iter(alloc, input)
}

/// Returns the pattern that a choice finds. What the slots are is a clause each.
pub fn slots_by_choice(
    choice: &mut Choice,
    input: &Input<'_>,
    slots: &mut [Option<NonMaxUsize>],
) -> Option<PatternID>
    ensures unmatched { IfNone result (slots.new ≡ replicate (length slots.old) None) }
    ensures pattern { IfSome result (λ p. number_of p < length choice.old.nfa.patterns) }
    ensures inside { All (IsSlotInside (search_of input.now)) slots.new }
{
    choice.search_slots(input, slots)
}

/// Searches by a regex. What the captures are is a clause each.
pub fn captures_by_regex(regex: &mut Regex, input: &Input<'_>, captures: &mut Captures)
    ensures groups { captures.new.groups ≡ captures.old.groups }
    ensures count { length captures.new.slots ≡ length captures.old.slots }
    ensures unmatched { IfNone captures.new.pattern
        (captures.new.slots ≡ replicate (length captures.old.slots) None) }
    ensures pattern { IfSome captures.new.pattern (λ p. p < length regex.old.choice.nfa.patterns) }
    ensures inside { All (IsSlotInside (search_of input.now)) captures.new.slots }
    ensures spans { SpansInside (search_of input.now) captures.new }
{
    regex.search_captures(input, captures);
}

/// Returns all matches that a regex finds. What they are is a clause each.
pub fn matches_by_regex(
    regex: &mut Regex,
    alloc: Global,
    input: Input<'_>,
) -> Result<Vec<Match>, SearchError>
    ensures granted { AreMatches regex.old.choice.nfa (kind_in regex.old.choice) (search_of input.entry).earliest
        (search_of input.entry) [] → IsOk result }
    ensures all { let x = search_of input.entry in IfOk result (λ found.
        AreMatches regex.old.choice.nfa (kind_in regex.old.choice) x.earliest x (map found_of found.items)) }
    ensures disjoint { IfOk result (λ found. AreDisjoint (search_of input.entry) None (map found_of found.items)) }
{
    regex.find_all(alloc, input)
}

/// Returns the captures of all matches that a choice finds. What they are is a clause each.
pub fn all_captures_by_choice(
    choice: &mut Choice,
    alloc: Global,
    input: Input<'_>,
) -> Result<Vec<Captures>, SearchError>
    ensures rows { IfOk result (λ all. AreRows choice.old.nfa (kind_in choice.old) (search_of input.entry).earliest
        (search_of input.entry) (map row_of all.items)) }
    ensures matches { IfOk result (λ all. AreMatches choice.old.nfa (kind_in choice.old)
        (search_of input.entry).earliest (search_of input.entry) (map match_in all.items)) }
    ensures groups { IfOk result (λ all. All (HasGroups choice.old.nfa) all.items) }
    ensures disjoint { IfOk result (λ all. AreDisjoint (search_of input.entry) None (map match_in all.items)) }
{
    choice.captures_all(alloc, input)
}

/// Returns the half matches that a regex iterates over. What they are is a clause for each way to go through them.
pub fn halves_by_regex<'r, 'h>(regex: &'r mut Regex, input: Input<'h>) -> HalfMatches<'r, 'h>
    ensures runs { HalvesRun regex.entry.now.choice.nfa (kind_in regex.entry.now.choice) (search_of input.entry)
        halves_next result }
    ensures are { HalvesAre regex.entry.now.choice.nfa (kind_in regex.entry.now.choice) (search_of input.entry)
        halves_next result }
    ensures rise { HalvesRise regex.entry.now.choice.nfa (kind_in regex.entry.now.choice) (search_of input.entry)
        halves_next result }
    ensures first { HalvesFirst regex.entry.now.choice.nfa (kind_in regex.entry.now.choice) (search_of input.entry)
        halves_next result }
    ensures next { HalvesNext regex.entry.now.choice.nfa (kind_in regex.entry.now.choice) (search_of input.entry)
        halves_next result }
{
    regex.half_matches(input)
}

/// Adds the patterns of all matches to the set, by a choice. What it ran and counted are a clause each.
pub fn set_by_choice(choice: &mut Choice, input: &Input<'_>, patterns: &mut PatternSet)
    ensures ran { choice.new.ran ≡ Some engine.PikeVM }
    ensures back { choice.new.back ≡ choice.old.back }
    ensures total { AddsPikeWork choice.old.pike choice.new.pike }
    ensures scans { choice.new.pike.scans ≡ overlap_scans (kind_in choice.old) patterns.old }
    ensures turns { choice.new.pike.turns ≤ choice.new.pike.scans * ((1 + total_degree choice.old.nfa)
        * (span_len (search_of input.now) + 1)) }
{
    choice.which_overlapping_matches(input, patterns);
}
