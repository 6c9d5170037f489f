//! Callers that search in a loop. Each contract says what the loop returns, and that its engines are as before. The
//! invariant of a loop has one line for each of these facts.
ghost use Rattle.std.specs.Prelude.{◌≡◌, ◌⊎◌, IfErr, IfOk, OnOk, SomeIndex};
ghost use Rattle.std.specs.List.{All, Any, count_by};
ghost use Rattle.nfa_engines.specs.Backtrack.{HoldsNoMore, IsTooLong};
ghost use Rattle.nfa_engines.specs.Engines.{Fits, SameCapacities};
ghost use Rattle.nfa_engines.specs.Search.{whole};
ghost use Rattle.nfa_choice.specs.ChoiceState.{finds_in, KeepsEngines};
ghost use Rattle.callers.specs.Texts.{IsFirstCommonStart, backtracker_finds, pikevm_finds, starting_at};

use nfa_choice::Choice;
use nfa_engines::backtrack::{self, BoundedBacktracker};
use nfa_engines::error::SearchError;
use nfa_engines::pikevm::{self, PikeVM};
use nfa_engines::{Anchored, Input};

/// Returns the number of lines in which a search finds a match.
pub fn count_by_choice(choice: &mut Choice, lines: &[&[u8]]) -> usize
    ensures count { result ≡ count_by (λ line. finds_in choice.old (whole line.now)) lines.now }
    ensures keeps { KeepsEngines choice.old choice.new }
{
    let mut count = 0;
    for line in lines {
        if choice.is_match(Input::new(line)) {
            count += 1;
        }
    }
    count
}

/// Returns whether a search finds a match in the text. The searches of lines before it do not change the answer.
pub fn ask_after_lines(choice: &mut Choice, lines: &[&[u8]], text: &[u8]) -> bool
    ensures answer { result ≡ finds_in choice.old (whole text.now) }
    ensures keeps { KeepsEngines choice.old choice.new }
{
    count_by_choice(choice, lines);
    choice.is_match(Input::new(text))
}

/// Returns the number of lines in which a search finds a match. The cache fits the same engines as before.
pub fn count_by_pikevm(vm: &PikeVM, cache: &mut pikevm::Cache, lines: &[&[u8]]) -> usize
    requires { Fits cache.old vm.now.nfa }
    ensures count { result ≡ count_by (λ line. pikevm_finds vm.now line.now) lines.now }
    ensures capacities { SameCapacities cache.old cache.new }
{
    let mut count = 0;
    for line in lines {
        if vm.is_match(cache, Input::new(line)) {
            count += 1;
        }
    }
    count
}

/// Returns the numbers of lines of two lists in which a search finds a match. One cache serves both loops.
pub fn count_in_two(
    vm: &PikeVM,
    cache: &mut pikevm::Cache,
    lines: &[&[u8]],
    others: &[&[u8]],
) -> (usize, usize)
    requires { Fits cache.old vm.now.nfa }
    ensures first { result.0 ≡ count_by (λ line. pikevm_finds vm.now line.now) lines.now }
    ensures second { result.1 ≡ count_by (λ line. pikevm_finds vm.now line.now) others.now }
    ensures fits { Fits cache.new vm.now.nfa }
{
    let first = count_by_pikevm(vm, cache, lines);
    (first, count_by_pikevm(vm, cache, others))
}

/// Returns the number of lines in which a search finds a match. Fails if a line is too long for the engine, or if
/// allocation fails. The cache gains no slots and no frames.
pub fn count_by_backtracker(
    engine: &BoundedBacktracker,
    cache: &mut backtrack::Cache,
    lines: &[&[u8]],
) -> Result<usize, SearchError>
    ensures count { IfOk result (λ count. count ≡ count_by (λ line. backtracker_finds engine.now line.now) lines.now) }
    ensures short { OnOk result (All (λ line. ¬ (IsTooLong engine.now (whole line.now))) lines.now) }
    ensures errors { IfErr result (λ e. (e ≡ SearchError.Memory)
        ⊎ Any (λ line. IsTooLong engine.now (whole line.now)) lines.now) }
    ensures holds { HoldsNoMore 0 cache.old cache.new }
{
    let mut count = 0;
    for line in lines {
        if engine.try_is_match(cache, Input::new(line))? {
            count += 1;
        }
    }
    Ok(count)
}

/// Returns the first offset at which a match of each engine starts. Fails if the text from some offset on is too long
/// for the backtracker, or if allocation fails.
pub fn first_common_start(
    vm: &PikeVM,
    cache: &mut pikevm::Cache,
    engine: &BoundedBacktracker,
    marks: &mut backtrack::Cache,
    text: &[u8],
) -> Result<Option<usize>, SearchError>
    requires { Fits cache.old vm.now.nfa }
    ensures first { IfOk result (λ first. IsFirstCommonStart vm.now engine.now text.now first) }
    ensures errors { IfErr result (λ e. (e ≡ SearchError.Memory)
        ⊎ SomeIndex text.now (λ at. IsTooLong engine.now (starting_at text.now at))) }
    ensures capacities { SameCapacities cache.old cache.new }
    ensures holds { HoldsNoMore 0 marks.old marks.new }
{
    for at in 0..text.len() {
        let input = Input::new(text)
            .range(at..text.len())
            .anchored(Anchored::Yes);
        if vm.is_match(cache, input) && engine.try_is_match(marks, input)? {
            return Ok(Some(at));
        }
    }
    Ok(None)
}
