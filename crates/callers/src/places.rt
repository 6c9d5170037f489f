//! Callers of the laws on where an answer starts, on the patterns of an NFA, and on spans.
ghost use Rattle.std.specs.Prelude.{◌≡◌, ◌+◌, ◌≤◌, false, length, option_map, slice_get, IfSome, Some};
ghost use Rattle.nfa_engines.specs.Found.{found_of};
ghost use Rattle.nfa_engines.specs.PatternSets.{number_of};
ghost use Rattle.nfa_engines.specs.Search.{search_of};
ghost use Rattle.nfa_engines.specs.Anchored.TheVariants.{Yes};
ghost use Rattle.nfa_engines.specs.MatchKind.TheVariants.{LeftmostFirst};
ghost use Rattle.nfa_engines.specs.Engines.{Fits, kind_of};
ghost use Rattle.nfa_engines.specs.Paths.{is_utf8_empty, IsAnswer, IsFindAnswer};
ghost use Rattle.nfa_engines.specs.StartLaws.{IsMatchOfPattern, IsOfPattern, TriesPatternsInOrder, IsFirstStart};
ghost use Rattle.nfa_engines.specs.StartLaws.{IsUnbound};
ghost use Rattle.nfa_engines.specs.SpanLaws.{byte_before, cut_out, moved_match, AreSidesSame, EachLook, HasNoLook};
ghost use Rattle.nfa_engines.specs.SpanLaws.{IsLineEdge, IsOfLines, IsSameSpan, ReadsBytes};
ghost use Rattle.callers.specs.Texts.{line_of};

use nfa_engines::pikevm::{Cache, PikeVM};
use nfa_engines::{Anchored, Input, Match, NonMaxUsize, PatternID, laws};

/// Returns the match of a search, which begins at a start before which nothing matches. It is the match of the whole
/// input.
pub fn found_later(vm: &PikeVM, cache: &mut Cache, input: Input<'_>, start: usize) -> Option<Match>
    requires fits { Fits cache.old vm.now.nfa }
    requires unbound { IsUnbound vm.now.nfa (search_of input) }
    requires first { IsFirstStart vm.now.nfa (search_of input) start }
    requires within { start ≤ (search_of input).end + 1 }
    ensures { IsFindAnswer vm.now.nfa (kind_of vm.now) (search_of input.entry).earliest (search_of input.entry)
        (option_map found_of result) }
{
    laws::starts_may_be_passed();
    let mut later = input;
    later.set_start(start);
    vm.find(cache, later)
}

/// Returns the first position, from the start of the search on, with a byte that a match may begin with, or the end of
/// the span. Nothing matches before it.
pub fn first_candidate(vm: &PikeVM, input: &Input<'_>) -> usize
    ensures first { IsFirstStart vm.now.nfa (search_of input.now) result }
    ensures within { result ≤ (search_of input.now).end + 1 }
{
    laws::bytes_may_be_skipped();
    let haystack = input.haystack();
    let mut at = input.start();
    while at < input.end() && !vm.may_begin(haystack[at]) {
        at += 1;
    }
    at
}

/// Returns the match of a search that begins at that position. It is the match of the whole input.
pub fn found_after_skip(vm: &PikeVM, cache: &mut Cache, input: Input<'_>) -> Option<Match>
    requires fits { Fits cache.old vm.now.nfa }
    requires unbound { IsUnbound vm.now.nfa (search_of input) }
    ensures { IsFindAnswer vm.now.nfa (kind_of vm.now) (search_of input.entry).earliest (search_of input.entry)
        (option_map found_of result) }
{
    let start = first_candidate(vm, &input);
    found_later(vm, cache, input, start)
}

/// Returns the pattern of the anchored search at the first start that has one, as a search from a prefilter's candidate
/// does, and fills the slots. They are the answer of the unanchored search.
pub fn found_at_candidate(
    vm: &PikeVM,
    cache: &mut Cache,
    input: Input<'_>,
    start: usize,
    slots: &mut [Option<NonMaxUsize>],
) -> Option<PatternID>
    requires fits { Fits cache.old vm.now.nfa }
    requires kind { kind_of vm.now ≡ LeftmostFirst }
    requires off { (search_of input).earliest ≡ false }
    requires unbound { IsUnbound vm.now.nfa (search_of input) }
    requires first { IsFirstStart vm.now.nfa (search_of input) start }
    requires within { start ≤ (search_of input).end + 1 }
    ensures { IfSome result
        (λ p. IsAnswer vm.now.nfa LeftmostFirst false (search_of input.entry) (Some (number_of p)) slots.new) }
{
    laws::first_start_answers();
    let mut candidate = input.anchored(Anchored::Yes);
    candidate.set_start(start);
    match vm.search_slots(cache, &candidate, slots) {
        Some(pattern) => Some(pattern),
        None => None,
    }
}

/// Returns the match of the pattern that starts at the anchored start, and the anchored match. They are one.
pub fn only_pattern(
    vm: &PikeVM,
    cache: &mut Cache,
    input: Input<'_>,
    pattern: PatternID,
) -> (Option<Match>, Option<Match>)
    requires fits { Fits cache.old vm.now.nfa }
    requires only { slice_get vm.now.nfa.patterns (number_of pattern) ≡ Some vm.now.nfa.anchored }
    ensures { option_map found_of result.0 ≡ option_map found_of result.1 }
{
    laws::pattern_is_alone();
    laws::one_match();
    let of_pattern = input.anchored(Anchored::Pattern(pattern));
    let bound = vm.find(cache, of_pattern);
    let of_start = input.anchored(Anchored::Yes);
    let anchored = vm.find(cache, of_start);
    (bound, anchored)
}

/// Returns the pattern of an anchored search, and fills the slots. They are the answer of the first pattern, in their
/// order, that has one by itself.
pub fn first_of_patterns(
    vm: &PikeVM,
    cache: &mut Cache,
    input: Input<'_>,
    slots: &mut [Option<NonMaxUsize>],
) -> Option<PatternID>
    requires fits { Fits cache.old vm.now.nfa }
    requires kind { kind_of vm.now ≡ LeftmostFirst }
    requires off { (search_of input).earliest ≡ false }
    requires anywhere { is_utf8_empty vm.now.nfa ≡ false }
    requires tries { TriesPatternsInOrder vm.now.nfa (record (search_of input) { anchored = Yes }) }
    ensures { IfSome result (λ p. IsOfPattern vm.now.nfa LeftmostFirst false
        (record (search_of input.entry) { anchored = Yes }) (number_of p) slots.new) }
{
    laws::first_pattern_answers();
    let anchored = input.anchored(Anchored::Yes);
    match vm.search_slots(cache, &anchored, slots) {
        Some(pattern) => Some(pattern),
        None => None,
    }
}

/// Returns the match of an anchored search. It is that of the first pattern, in their order, that has one by itself.
pub fn first_match_of_patterns(vm: &PikeVM, cache: &mut Cache, input: Input<'_>) -> Option<Match>
    requires fits { Fits cache.old vm.now.nfa }
    requires kind { kind_of vm.now ≡ LeftmostFirst }
    requires off { (search_of input).earliest ≡ false }
    requires anywhere { is_utf8_empty vm.now.nfa ≡ false }
    requires tries { TriesPatternsInOrder vm.now.nfa (record (search_of input) { anchored = Yes }) }
    ensures { IfSome result (λ m. IsMatchOfPattern vm.now.nfa LeftmostFirst false
        (record (search_of input.entry) { anchored = Yes }) (found_of m)) }
{
    laws::first_pattern_answers();
    let anchored = input.anchored(Anchored::Yes);
    match vm.find(cache, anchored) {
        Some(found) => Some(found),
        None => None,
    }
}

// The match in a line of a text, and the match in the line cut out.
fn find_inside_and_alone(
    vm: &PikeVM,
    cache: &mut Cache,
    text: &[u8],
    start: usize,
    end: usize,
) -> (Option<Match>, Option<Match>)
    requires fits { Fits cache.old vm.now.nfa }
    requires ordered { start ≤ end }
    requires within { end ≤ length text.now }
    ensures inside { IsFindAnswer vm.now.nfa (kind_of vm.now) false (line_of text.now start end)
        (option_map found_of result.0) }
    ensures alone { IsFindAnswer vm.now.nfa (kind_of vm.now) false (cut_out (line_of text.now start end))
        (option_map found_of result.1) }
{
    let all = Input::new(text);
    let line = all.range(start..end);
    let inside = vm.find(cache, line);
    let cut = Input::new(&text[start..end]);
    let alone = vm.find(cache, cut);
    (inside, alone)
}

/// Returns the match in a line of a text, and the match in the line cut out. They differ by the start of the line.
pub fn line_in_text(
    vm: &PikeVM,
    cache: &mut Cache,
    text: &[u8],
    start: usize,
    end: usize,
) -> (Option<Match>, Option<Match>)
    requires fits { Fits cache.old vm.now.nfa }
    requires plain { HasNoLook vm.now.nfa }
    requires anywhere { is_utf8_empty vm.now.nfa ≡ false }
    requires ordered { start ≤ end }
    requires within { end ≤ length text.now }
    ensures { option_map found_of result.0 ≡ option_map (moved_match start) (option_map found_of result.1) }
{
    laws::answers_read_the_span();
    laws::one_match();
    find_inside_and_alone(vm, cache, text, start, end)
}

/// Returns the match in a line of a text, and the match in the line cut out. They differ by the start of the line: all
/// assertions are `StartLF` and `EndLF`, and hold alike in both.
pub fn whole_line_in_text(
    vm: &PikeVM,
    cache: &mut Cache,
    text: &[u8],
    start: usize,
    end: usize,
) -> (Option<Match>, Option<Match>)
    requires fits { Fits cache.old vm.now.nfa }
    requires lines { EachLook IsOfLines vm.now.nfa }
    requires anywhere { is_utf8_empty vm.now.nfa ≡ false }
    requires ordered { start ≤ end }
    requires within { end ≤ length text.now }
    requires before { IsLineEdge (byte_before text.now start) }
    requires after { IsLineEdge (slice_get text.now end) }
    ensures { option_map found_of result.0 ≡ option_map (moved_match start) (option_map found_of result.1) }
{
    laws::answers_read_span_and_assertions();
    laws::assertions_hold_alike();
    laws::one_match();
    find_inside_and_alone(vm, cache, text, start, end)
}

/// Returns the matches of two searches with the same span in two texts, which have the same bytes there and next to it.
/// They are one match, since no assertion is of a Unicode word.
pub fn found_in_both_texts(
    vm: &PikeVM,
    cache: &mut Cache,
    input: Input<'_>,
    other: Input<'_>,
) -> (Option<Match>, Option<Match>)
    requires fits { Fits cache.old vm.now.nfa }
    requires bytes { EachLook ReadsBytes vm.now.nfa }
    requires anywhere { is_utf8_empty vm.now.nfa ≡ false }
    requires span { IsSameSpan (search_of input) (search_of other) }
    requires sides { AreSidesSame (search_of input) (search_of other) }
    requires flag { (search_of other).earliest ≡ (search_of input).earliest }
    ensures { option_map found_of result.0 ≡ option_map found_of result.1 }
{
    laws::answers_read_span_and_assertions();
    laws::assertions_hold_alike();
    laws::one_match();
    let found = vm.find(cache, input);
    let same = vm.find(cache, other);
    (found, same)
}
