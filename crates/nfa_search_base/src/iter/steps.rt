//! The steps of every iterator.
ghost use Rattle.std.specs.Prelude.{◌≡◌};
ghost use Rattle.nfa_search_base.specs.Items.{ends_at};

use crate::error::SearchError;
use crate::iter::searcher::Searcher;
use crate::iter::searches::FindWith;
use regex_search_core::Input;
use std::alloc::Global;

/// An iteration that borrows its finder or cache for each step: the core of each iterator, including those of engines.
///
/// Its items are those of the steps of a [`Searcher`]. It ends permanently after the first `None` and after an error.
#[derive(Debug, Drop)]
pub struct Steps<'h, A> {
    /// The state of the iteration.
    pub searcher: Searcher<'h>,
    /// The engine that answers its searches, with what each step borrows.
    pub backend: A,
    /// Whether it has ended.
    pub done: bool,
}

impl<'h, A: FindWith> Steps<'h, A> {
    ghost use Rattle.std.specs.Prelude.{◌⊎◌, false, IfErr, IfOk};
    ghost use Rattle.regex_search_core.specs.Search.{search_of};
    ghost use Rattle.nfa_search_base.specs.Runs.{CallsLead, DrainsAll, DrainsToError};
    ghost use Rattle.nfa_search_base.specs.Stored.{with_cache, can_step, steps_iter_state, takes_bare_steps, takes_steps};
    ghost use Rattle.nfa_search_base.specs.IterStates.{fresh};

    /// Makes an iteration over this input that has not begun.
    #[inline]
    pub fn new(input: Input<'h>, backend: A) -> Steps<'h, A>
        ensures iter_state { steps_iter_state result ≡ fresh (search_of input.entry) }
        ensures backend { result.backend ≡ backend }
        ensures going { result.done ≡ false }
    {
        Steps {
            searcher: Searcher::new(input),
            backend,
            done: false,
        }
    }

    /// Takes the next step, by searches with this cache, and makes no item: what the step found is left in `backend`.
    /// Returns the reply of its last search, or `None` if the iteration has ended. It ends if there is no match.
    /// Requires the same as [`Steps::next_with`]. Mix both calls at will.
    #[inline]
    pub fn advance_with(&mut self, cache: &mut A::Cache) -> Option<A::Reply>
        requires { can_step A.accepts A.asks A.span (with_cache self.old cache.old) }
        ensures { takes_bare_steps A.span A.asks (λ q. A.shows q.backend) (with_cache self.old cache.old) result
            (with_cache self.new cache.new) }
    {
        if self.done {
            return None;
        }
        let answer = self.searcher.step_with(&mut self.backend, cache);
        self.done = self.backend.reply_span(answer).is_none();
        Some(answer)
    }

    /// Returns the next item, by searches with this cache. Requires that each search of the iteration may be made,
    /// after any earlier searches, and answers a match in its span.
    #[inline]
    pub fn next_with(&mut self, cache: &mut A::Cache) -> Option<Result<A::Item, SearchError>>
        requires { can_step A.accepts A.asks A.span (with_cache self.old cache.old) }
        ensures { takes_steps A.span A.asks (λ q. A.gives q.backend) (with_cache self.old cache.old) result
            (with_cache self.new cache.new) }
    {
        if self.done {
            return None;
        }
        // Not by `advance_with`, which would look for the span once more.
        let reply = self.searcher.step_with(&mut self.backend, cache);
        let given = self.backend.item(reply);
        self.done = is_last(&given);
        given
    }

    /// Returns all items that are left, by searches with this cache. Stops at the first error and returns it. Returns
    /// [`SearchError::Memory`] if an allocation for the list failed. Requires the same as [`Steps::next_with`].
    pub fn all_with(
        &mut self,
        alloc: Global,
        cache: &mut A::Cache,
    ) -> Result<Vec<A::Item>, SearchError>
    where
        A::Item: Drop,
        requires { can_step A.accepts A.asks A.span (with_cache self.old cache.old) }
        ensures all { IfOk result (λ all. DrainsAll (takes_steps A.span A.asks (λ q. A.gives q.backend))
            (with_cache self.old cache.old) all.items (with_cache self.new cache.new)) }
        ensures errors { IfErr result (λ error. (error ≡ SearchError.Memory)
            ⊎ DrainsToError (takes_steps A.span A.asks (λ q. A.gives q.backend)) (with_cache self.old cache.old) error
            (with_cache self.new cache.new)) }
        ensures calls { CallsLead (takes_steps A.span A.asks (λ q. A.gives q.backend)) (with_cache self.old cache.old)
            (with_cache self.new cache.new) }
    {
        let mut all = Vec::new(alloc);
        while let Some(item) = self.next_with(cache) {
            all.push(item?)?;
        }
        Ok(all)
    }
}

// Whether an iterator ends with this item: with `None` or an error.
fn is_last<T>(item: &Option<Result<T, SearchError>>) -> bool
    ensures { result ≡ ends_at item.now }
{
    match item {
        Some(Ok(_)) => false,
        Some(Err(_)) => true,
        None => true,
    }
}
