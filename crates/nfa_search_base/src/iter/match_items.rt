//! The items of an engine's iterator over matches. Engines build on these functions. Callers of an engine do not need
//! them.
ghost use Rattle.std.specs.Prelude.{◌≡◌, ◌≤◌, Ok, Some, option_map};
ghost use Rattle.std.specs.Option.{ForSome};
ghost use Rattle.regex_search_core.specs.Found.{found_of};
ghost use Rattle.nfa_search_base.specs.EngineSearches.{if_ends_at};
ghost use Rattle.nfa_search_base.specs.Finders.{match_span};
ghost use Rattle.nfa_search_base.specs.Items.{ComesOfMatch, GivesItem, answer_by};

use crate::error::SearchError;
use regex_search_core::{Match, Span};

/// Returns the span of the match.
#[inline]
pub fn found_span(found: Option<Match>) -> Option<Span>
    ensures span { result ≡ match_span (Ok found) }
    ensures ordered { ForSome result (λ p. p.start ≤ p.end) }
{
    match found {
        Some(found) => Some(found.span()),
        None => None,
    }
}

/// Returns the match as an item.
#[inline]
pub fn found_item(found: Option<Match>) -> Option<Result<Match, SearchError>>
    ensures gives { GivesItem found_of (answer_by found_of (Ok found)) result }
    ensures found { ComesOfMatch (answer_by found_of (Ok found)) result }
{
    match found {
        Some(found) => Some(Ok(found)),
        None => None,
    }
}

/// Returns the match if it ends at `end`, otherwise `None`.
#[inline]
pub fn ending_at(end: usize, found: Option<Match>) -> Option<Match>
    ensures kept { ForSome result (λ m. (found ≡ Some m) × ((found_of m).end ≡ end)) }
    ensures exactly { option_map found_of result ≡ if_ends_at end (option_map found_of found) }
{
    match found {
        Some(last) => { if last.end() == end { Some(last) } else { None } }
        None => None,
    }
}
