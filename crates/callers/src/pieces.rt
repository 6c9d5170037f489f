//! A list by a finder that is a closure: the pieces of a haystack.

ghost use Rattle.std.specs.Prelude.{◌≡◌, IfOk, Ok, map};
ghost use Rattle.regex_search_core.specs.Found.{found_of};
ghost use Rattle.regex_search_core.specs.Search.{search_of, whole};
ghost use Rattle.nfa_engines.specs.Finders.{match_span};
ghost use Rattle.nfa_engines.specs.Items.{item_by, greedy, answer_by};
ghost use Rattle.nfa_engines.specs.IterStates.{fresh, span_of, LiesIn};
ghost use Rattle.callers.specs.Pieces.{piece_answer};

use nfa_engines::error::SearchError;
use nfa_engines::iter::Searcher;
use nfa_engines::{Input, Match, PatternID, Span};
use std::alloc::{AllocError, Global};

/// The match that takes at most `len` bytes from the start of the span.
pub fn next_piece(input: &Input<'_>, len: usize) -> Option<Match>
    ensures is { answer_by found_of (Ok result) ≡ piece_answer len (search_of input.now) }
    ensures inside { LiesIn (search_of input.now) (match_span (Ok result)) }
{
    let start = input.start();
    let end = input.end();
    if start > end {
        return None;
    }
    let end = if end - start > len { start + len } else { end };
    match PatternID::new(0) {
        Some(pattern) => Some(Match::new(pattern, Span { start, end })),
        None => unreachable!(),
    }
}

/// All pieces of the haystack, by a finder that is a closure.
pub fn pieces(
    alloc: Global,
    haystack: &[u8],
    len: usize,
) -> Result<Vec<Result<Match, SearchError>>, AllocError>
    ensures { IfOk result (λ v. map (item_by found_of) v.items ≡ greedy span_of (piece_answer len)
        (fresh (whole haystack.now))) }
{
    let input = Input::new(haystack);
    let searcher = Searcher::new(input);
    let items = searcher.into_matches_iter(|input: &Input<'_>| Ok(next_piece(input, len)));
    items.collect(alloc)
}
