//! Engines that answer the searches of an iteration.
ghost use Rattle.std.specs.Prelude.{◌≡◌, ◌≤◌, Option, Result};
ghost use Rattle.std.specs.Option.{ForSome};
ghost use Rattle.regex_search_core.specs.Search.{Search, search_of};
ghost use Rattle.regex_search_core.specs.declared.search.Span.{Span};
ghost use Rattle.nfa_search_base.specs.Stored.{WithCache};
ghost use Rattle.nfa_search_base.specs.Items.{ComesOfMatch};
ghost use Rattle.nfa_search_base.specs.IterStates.{Answer, answer_span};
ghost use Rattle.nfa_search_base.specs.declared.error.SearchError.{SearchError};

use crate::error::SearchError;
use regex_search_core::{Input, Span};

/// An engine that answers the searches of an iteration, with a cache that is borrowed for each search. Engines build
/// their iterators on it. Callers of an engine do not need it.
pub trait FindWith: Drop {
    /// What is borrowed for each search.
    type Cache;

    /// The result of a search.
    type Reply: Copy;

    ghost Value: { Type 0 };

    // The answer that a reply stands for, in the state that the search left.
    ghost shows: { Self → Self.Reply → Answer Value };

    // The span of a match.
    ghost span: { Value → Span };

    // This search may be made with this cache.
    ghost accepts: { WithCache Self Self.Cache → Search → Type 0 };

    /// The item of an iterator.
    type Item;

    // The item of an answer, in the state that the search left.
    ghost gives: { Self → Answer Value → Option (Result Self.Item SearchError) → Type 0 };

    // This search may give this answer and leave this state.
    ghost asks: { WithCache Self Self.Cache → Search → Answer Value → WithCache Self Self.Cache → Type 0 };

    /// Searches the input.
    fn answer(&mut self, cache: &mut Self::Cache, input: &Input<'_>) -> Self::Reply
        requires { accepts (record { backend = self.old; cache = cache.old }) (search_of input.now) }
        ensures { asks (record { backend = self.old; cache = cache.old }) (search_of input.now) (shows self.new result)
            (record { backend = self.new; cache = cache.new }) };

    /// Returns the span of the answer's match.
    fn reply_span(&self, reply: Self::Reply) -> Option<Span>
        ensures span { result ≡ answer_span span (shows self.now reply) }
        ensures ordered { ForSome result (λ p. p.start ≤ p.end) };

    /// Returns the item of the answer.
    fn item(&self, reply: Self::Reply) -> Option<Result<Self::Item, SearchError>>
        ensures gives { gives self.now (shows self.now reply) result }
        ensures found { ComesOfMatch (shows self.now reply) result };
}
