//! The span of an answer's match.
ghost use Rattle.std.specs.Prelude.{◌≡◌, ◌≤◌};
ghost use Rattle.std.specs.Option.{ForSome};
ghost use Rattle.nfa_search_base.specs.Items.{answer_by};
ghost use Rattle.nfa_search_base.specs.IterStates.{answer_span};

use crate::error::SearchError;
use crate::iter::spanned::Spanned;
use regex_search_core::Span;

// The span of the answer's match or half match.
pub(crate) fn answer_span<M: Spanned>(answer: Result<Option<M>, SearchError>) -> Option<Span>
    ensures span { result ≡ answer_span M.span (answer_by M.value answer) }
    ensures ordered { ForSome result (λ p. p.start ≤ p.end) }
{
    match answer {
        Ok(Some(found)) => Some(found.to_span()),
        Ok(None) => None,
        Err(_) => None,
    }
}
