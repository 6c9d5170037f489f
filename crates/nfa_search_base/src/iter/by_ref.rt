//! Finders that an iteration borrows for each call.

use crate::asking::{ask, ask_with};
use crate::error::SearchError;
use crate::iter::captures_items::{captures_item, captures_span};
use crate::iter::searches::FindWith;
use crate::iter::span::answer_span;
use crate::iter::spanned::Spanned;
use regex_search_core::{Captures, Input, Span};
use std::marker::{Model, PhantomData};

// A finder of matches or half matches that is borrowed for each call.
#[derive(Drop)]
pub(crate) struct ByRef<F, M> {
    finder: PhantomData<F>,
    found: PhantomData<M>,
}

impl<F, M> ByRef<F, M> {
    pub(crate) fn new() -> ByRef<F, M> {
        ByRef {
            finder: PhantomData,
            found: PhantomData,
        }
    }
}

impl<F, M: Spanned> FindWith for ByRef<F, M>
where
    F: FnMut(&Input<'_>) -> Result<Option<M>, SearchError>,
{
    ghost use Rattle.nfa_search_base.specs.Finders.{IsCallableOn, Finds};
    ghost use Rattle.nfa_search_base.specs.Stored.{accepts_whole, asks_whole, only_cache};
    ghost use Rattle.nfa_search_base.specs.Items.{GivesItem, answer_by};

    type Cache = F;

    type Reply = Result<Option<M>, SearchError>;

    ghost Value = { M.Value };

    ghost shows = { λ _ reply. answer_by M.value reply };

    ghost span = { M.span };

    ghost accepts = { accepts_whole only_cache (IsCallableOn F.FnMut) };

    type Item = M;

    ghost gives = { λ _. GivesItem M.value };

    ghost asks = { asks_whole only_cache (Finds M.value F.FnMut) };

    fn answer(&mut self, finder: &mut F, input: &Input<'_>) -> Result<Option<M>, SearchError> {
        ask(finder, input)
    }

    fn reply_span(&self, reply: Result<Option<M>, SearchError>) -> Option<Span> {
        answer_span(reply)
    }

    fn item(&self, reply: Result<Option<M>, SearchError>) -> Option<Result<M, SearchError>> {
        reply.transpose()
    }
}

// A finder of captures that is borrowed for each call, and the captures that it fills.
#[derive(Drop)]
pub(crate) struct FillByRef<F> {
    pub(crate) captures: Captures,
    finder: PhantomData<F>,
}

impl<F> FillByRef<F> {
    ghost use Rattle.std.specs.Prelude.{◌≡◌};

    pub(crate) fn new(captures: Captures) -> FillByRef<F>
        ensures { result ≡ captures }
    {
        FillByRef {
            captures,
            finder: PhantomData,
        }
    }
}

impl<F> Model for FillByRef<F> {
    ghost use Rattle.regex_search_core.specs.Slots.{Captured};

    ghost Value = { Captured };

    ghost view = { λ a. a.captures };
}

impl<F> FindWith for FillByRef<F>
where
    F: FnMut(&Input<'_>, &mut Captures) -> Result<(), SearchError>,
{
    ghost use Rattle.nfa_search_base.specs.Stored.{accepts_whole, asks_whole, with_finder};
    ghost use Rattle.nfa_search_base.specs.WithCaptures.{Row, CanFill, Fills, filled_answer, row_span, GivesCopy};

    type Cache = F;

    type Reply = Result<(), SearchError>;

    ghost Value = { Row };

    ghost shows = { filled_answer };

    ghost span = { row_span };

    ghost accepts = { accepts_whole with_finder (CanFill F.FnMut) };

    type Item = Captures;

    ghost gives = { GivesCopy };

    ghost asks = { asks_whole with_finder (Fills F.FnMut) };

    fn answer(&mut self, finder: &mut F, input: &Input<'_>) -> Result<(), SearchError> {
        ask_with(finder, input, &mut self.captures)
    }

    fn reply_span(&self, reply: Result<(), SearchError>) -> Option<Span> {
        captures_span(&self.captures, reply)
    }

    fn item(&self, reply: Result<(), SearchError>) -> Option<Result<Captures, SearchError>> {
        captures_item(&self.captures, reply)
    }
}
