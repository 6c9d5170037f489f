//! Skips empty matches that split a codepoint.
//!
//! In UTF-8 mode, an empty match that splits a codepoint does not count. A search that found one searches again from
//! one byte further on, as often as needed. The rule is that of regex-automata's `util::empty`.
//!
//! The engines skip by themselves. Use these functions with an engine of your own that finds matches inside codepoints.
//! They take its first answer, and call it again if that answer does not count.
//!
//! ```
//! // `search` returns a match and its end, at any offset.
//! let found = match search(&input)? {
//!     Some((found, end)) => skip_splits_fwd(&input, found, end, |input: &Input<'_>| search(input))?,
//!     None => None,
//! };
//! ```

ghost use Rattle.std.specs.Prelude.{◌≡◌, Some, None, Ok, true, false};
ghost use Rattle.regex_search_core.specs.Boundary.{IsBoundary};
ghost use Rattle.regex_search_core.specs.Search.{search_of, is_anchored};
ghost use Rattle.nfa_search_base.specs.Finders.{IsInSpan, ServesSkips, SkipsTo, start_raised, lowered};

use crate::asking::ask;
use crate::error::SearchError;
use regex_search_core::Input;

/// Returns the first answer whose offset does not split a codepoint, as the start of the search moves on.
///
/// `init` and `offset` are what a search of `input` found: a value, and the byte offset of its match. If the offset is
/// a boundary, the value is the answer. Otherwise the finder is called on the input with its start raised by 1, then by
/// 2, and so on, until it returns `None`, an error, or an offset that is a boundary. That answer is returned. An
/// anchored search does not move: the finder is not called, and the answer is the value, or `None` if its offset is not
/// a boundary.
///
/// Requires that `offset` is in the input's span. Requires that the finder may be called on each input on which it is
/// called, and returns offsets in that input's span. The first call is made only if `offset` is not a boundary, and
/// each further one only after an answer whose offset is not a boundary.
pub fn skip_splits_fwd<T: Drop, F>(
    input: &Input<'_>,
    init: T,
    offset: usize,
    mut find: F,
) -> Result<Option<T>, SearchError>
where
    F: FnMut(&Input<'_>) -> Result<Option<(T, usize)>, SearchError>,
    requires finder { let s = search_of input.now in let moved = start_raised s in is_anchored s.anchored ≡ false
        → ServesSkips F.FnMut s.haystack moved (Ok (Some (init, offset))) find }
    requires offset { IsInSpan (search_of input.now) offset }
    ensures anchored_whole { let s = search_of input.now in is_anchored s.anchored ≡ true
        → IsBoundary s.haystack offset → result ≡ Ok (Some init) }
    ensures anchored_split { let s = search_of input.now in is_anchored s.anchored ≡ true
        → ¬ (IsBoundary s.haystack offset) → result ≡ Ok None }
    ensures skips { let s = search_of input.now in let moved = start_raised s in is_anchored s.anchored ≡ false
        → (left : F) × SkipsTo F.FnMut s.haystack moved (Ok (Some (init, offset))) find result left }
{
    skip_splits_fwd_by_ref(input, init, offset, &mut find)
}

/// The same as [`skip_splits_fwd`], but borrows the finder. The finder keeps the state that its last call left. If it
/// is not called, it stays as it was.
pub fn skip_splits_fwd_by_ref<T: Drop, F>(
    input: &Input<'_>,
    init: T,
    offset: usize,
    find: &mut F,
) -> Result<Option<T>, SearchError>
where
    F: FnMut(&Input<'_>) -> Result<Option<(T, usize)>, SearchError>,
    requires finder { let s = search_of input.now in let moved = start_raised s in is_anchored s.anchored ≡ false
        → ServesSkips F.FnMut s.haystack moved (Ok (Some (init, offset))) find.old }
    requires offset { IsInSpan (search_of input.now) offset }
    ensures anchored_whole { let s = search_of input.now in is_anchored s.anchored ≡ true
        → IsBoundary s.haystack offset → result ≡ Ok (Some init) }
    ensures anchored_split { let s = search_of input.now in is_anchored s.anchored ≡ true
        → ¬ (IsBoundary s.haystack offset) → result ≡ Ok None }
    ensures anchored_kept { is_anchored (search_of input.now).anchored ≡ true → find.new ≡ find.old }
    ensures skips { let s = search_of input.now in let moved = start_raised s in is_anchored s.anchored ≡ false
        → SkipsTo F.FnMut s.haystack moved (Ok (Some (init, offset))) find.old result find.new }
{
    if input.get_anchored().is_anchored() {
        return Ok(keep_whole(input, init, offset));
    }
    skip_forward(*input, init, offset, find)
}

/// Returns the first answer whose offset does not split a codepoint, as the end of the search moves back.
///
/// The same as [`skip_splits_fwd`] for a search from right to left. The finder is called on the input with its end
/// lowered by 1, then by 2, and so on. If the end is 0, the answer is `None` without a call. An anchored search does
/// not move.
///
/// Requires that `offset` is in the input's span, and that the finder may be called on each input on which it is
/// called, and returns offsets in that input's span.
pub fn skip_splits_rev<T: Drop, F>(
    input: &Input<'_>,
    init: T,
    offset: usize,
    mut find: F,
) -> Result<Option<T>, SearchError>
where
    F: FnMut(&Input<'_>) -> Result<Option<(T, usize)>, SearchError>,
    requires finder { let s = search_of input.now in let moved = lowered s in is_anchored s.anchored ≡ false
        → ServesSkips F.FnMut s.haystack moved (Ok (Some (init, offset))) find }
    requires offset { IsInSpan (search_of input.now) offset }
    ensures anchored_whole { let s = search_of input.now in is_anchored s.anchored ≡ true
        → IsBoundary s.haystack offset → result ≡ Ok (Some init) }
    ensures anchored_split { let s = search_of input.now in is_anchored s.anchored ≡ true
        → ¬ (IsBoundary s.haystack offset) → result ≡ Ok None }
    ensures skips { let s = search_of input.now in let moved = lowered s in is_anchored s.anchored ≡ false
        → (left : F) × SkipsTo F.FnMut s.haystack moved (Ok (Some (init, offset))) find result left }
{
    skip_splits_rev_by_ref(input, init, offset, &mut find)
}

/// The same as [`skip_splits_rev`], but borrows the finder. The finder keeps the state that its last call left. If it
/// is not called, it stays as it was.
pub fn skip_splits_rev_by_ref<T: Drop, F>(
    input: &Input<'_>,
    init: T,
    offset: usize,
    find: &mut F,
) -> Result<Option<T>, SearchError>
where
    F: FnMut(&Input<'_>) -> Result<Option<(T, usize)>, SearchError>,
    requires finder { let s = search_of input.now in let moved = lowered s in is_anchored s.anchored ≡ false
        → ServesSkips F.FnMut s.haystack moved (Ok (Some (init, offset))) find.old }
    requires offset { IsInSpan (search_of input.now) offset }
    ensures anchored_whole { let s = search_of input.now in is_anchored s.anchored ≡ true
        → IsBoundary s.haystack offset → result ≡ Ok (Some init) }
    ensures anchored_split { let s = search_of input.now in is_anchored s.anchored ≡ true
        → ¬ (IsBoundary s.haystack offset) → result ≡ Ok None }
    ensures anchored_kept { is_anchored (search_of input.now).anchored ≡ true → find.new ≡ find.old }
    ensures skips { let s = search_of input.now in let moved = lowered s in is_anchored s.anchored ≡ false
        → SkipsTo F.FnMut s.haystack moved (Ok (Some (init, offset))) find.old result find.new }
{
    if input.get_anchored().is_anchored() {
        return Ok(keep_whole(input, init, offset));
    }
    skip_backward(*input, init, offset, find)
}

// Returns the value if its offset is a boundary.
fn keep_whole<T: Drop>(input: &Input<'_>, value: T, offset: usize) -> Option<T>
    ensures whole { IsBoundary (search_of input.now).haystack offset → result ≡ Some value }
    ensures split { ¬ (IsBoundary (search_of input.now).haystack offset) → result ≡ None }
{
    if input.is_char_boundary(offset) {
        Some(value)
    } else {
        None
    }
}

// Skips in a search that is not anchored, raising its start.
fn skip_forward<T: Drop, F>(
    mut input: Input<'_>,
    init: T,
    offset: usize,
    find: &mut F,
) -> Result<Option<T>, SearchError>
where
    F: FnMut(&Input<'_>) -> Result<Option<(T, usize)>, SearchError>,
    requires finder { let s = search_of input in let moved = start_raised s in
        ServesSkips F.FnMut s.haystack moved (Ok (Some (init, offset))) find.old }
    requires offset { IsInSpan (search_of input) offset }
    ensures { let s = search_of input.entry in let moved = start_raised s in
        SkipsTo F.FnMut s.haystack moved (Ok (Some (init, offset))) find.old result find.new }
{
    let mut value = init;
    let mut place = offset;
    while !input.is_char_boundary(place) {
        let start = input.start() + 1;
        input.set_start(start);
        match ask(find, &input) {
            Ok(Some((next, at))) => {
                value = next;
                place = at;
            }
            Ok(None) => return Ok(None),
            Err(error) => return Err(error),
        }
    }
    Ok(Some(value))
}

// Skips in a search that is not anchored, lowering its end.
fn skip_backward<T: Drop, F>(
    mut input: Input<'_>,
    init: T,
    offset: usize,
    find: &mut F,
) -> Result<Option<T>, SearchError>
where
    F: FnMut(&Input<'_>) -> Result<Option<(T, usize)>, SearchError>,
    requires finder { let s = search_of input in let moved = lowered s in
        ServesSkips F.FnMut s.haystack moved (Ok (Some (init, offset))) find.old }
    requires offset { IsInSpan (search_of input) offset }
    ensures { let s = search_of input.entry in let moved = lowered s in
        SkipsTo F.FnMut s.haystack moved (Ok (Some (init, offset))) find.old result find.new }
{
    let mut value = init;
    let mut place = offset;
    while !input.is_char_boundary(place) {
        let end = input.end();
        if end == 0 {
            return Ok(None);
        }
        input.set_end(end - 1);
        match ask(find, &input) {
            Ok(Some((next, at))) => {
                value = next;
                place = at;
            }
            Ok(None) => return Ok(None),
            Err(error) => return Err(error),
        }
    }
    Ok(Some(value))
}
