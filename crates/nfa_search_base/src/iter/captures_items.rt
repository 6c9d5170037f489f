//! The items of an iterator over captures. Engines build their iterators on these functions. To use an engine, call its
//! `captures_iter`; for a search of your own, call `Searcher::into_captures_iter`.
//!
//! ```
//! let reply = engine.try_search(&mut cache, &input, &mut captures);
//! let place = captures_span(&captures, reply);
//! let item = captures_item(&captures, reply);
//! ```
ghost use Rattle.std.specs.Prelude.{◌≡◌, ◌≤◌};
ghost use Rattle.std.specs.Option.{ForSome};
ghost use Rattle.nfa_search_base.specs.WithCaptures.{filled_answer, row_span, GivesCopy};
ghost use Rattle.nfa_search_base.specs.Items.{ComesOfMatch};
ghost use Rattle.nfa_search_base.specs.IterStates.{answer_span};

use crate::error::SearchError;
use regex_search_core::{Captures, Span};

/// Returns the span of the match of a search that left these captures and returned this reply. `None` if there is no
/// match, and after an error.
#[inline]
pub fn captures_span(captures: &Captures, reply: Result<(), SearchError>) -> Option<Span>
    ensures span { result ≡ answer_span row_span (filled_answer captures.now reply) }
    ensures ordered { ForSome result (λ p. p.start ≤ p.end) }
{
    match reply {
        Ok(()) => Some(captures.get_match()?.span()),
        Err(_) => None,
    }
}

/// Returns the item of that search. An error of the reply is the item. Otherwise it is a copy of the captures if they
/// have a match, [`SearchError::Memory`] if the copy could not be allocated, and `None` without a match.
#[inline]
pub fn captures_item(
    captures: &Captures,
    reply: Result<(), SearchError>,
) -> Option<Result<Captures, SearchError>>
    ensures gives { GivesCopy captures.now (filled_answer captures.now reply) result }
    ensures found { ComesOfMatch (filled_answer captures.now reply) result }
{
    match reply {
        Ok(()) => match captures.get_match() {
            Some(_) => match captures.clone() {
                Ok(copy) => Some(Ok(copy)),
                Err(_) => Some(Err(SearchError::Memory)),
            },
            None => None,
        },
        Err(error) => Some(Err(error)),
    }
}
