//! The items of an engine's iterator over half matches. Engines build on these functions. Callers of an engine do not
//! need them.
ghost use Rattle.std.specs.Prelude.{◌≡◌, ◌≤◌, Ok};
ghost use Rattle.std.specs.Option.{ForSome};
ghost use Rattle.regex_search_core.specs.Found.{half_found_of};
ghost use Rattle.nfa_search_base.specs.Finders.{half_match_span};
ghost use Rattle.nfa_search_base.specs.Items.{ComesOfMatch, GivesItem, answer_by};

use nfa_engines::error::SearchError;
use regex_search_core::{HalfMatch, Span};

/// Returns the span of the half match: its offset, without bytes.
///
/// ```
/// // hybrid of "foo[0-9]+"
/// let half = hybrid.find_half(Input::new(b"foo1"));
/// assert_eq!(rt; half_span(half).expect(rt, "a match").range(), 4..4);
/// ```
#[inline]
pub fn half_span(half: Option<HalfMatch>) -> Option<Span>
    ensures span { result ≡ half_match_span (Ok half) }
    ensures ordered { ForSome result (λ p. p.start ≤ p.end) }
{
    match half {
        Some(half) => Some(Span {
            start: half.offset(),
            end: half.offset(),
        }),
        None => None,
    }
}

/// Returns the half match as an item.
///
/// ```
/// // hybrid of "foo[0-9]+"
/// let half = hybrid.find_half(Input::new(b"foo1"));
/// let item = half_item(half).expect(rt, "a match")?;
/// assert_eq!(rt; item.offset(), 4);
/// ```
#[inline]
pub fn half_item(half: Option<HalfMatch>) -> Option<Result<HalfMatch, SearchError>>
    ensures gives { GivesItem half_found_of (answer_by half_found_of (Ok half)) result }
    ensures found { ComesOfMatch (answer_by half_found_of (Ok half)) result }
{
    match half {
        Some(half) => Some(Ok(half)),
        None => None,
    }
}
