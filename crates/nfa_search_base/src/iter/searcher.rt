//! Iteration over matches step by step, with any finder.
ghost use Rattle.nfa_search_base.specs.IterStates.{EndsBy};

use crate::error::SearchError;
use crate::iter::by_ref::ByRef;
use crate::iter::searches::FindWith;
use crate::iter::span::answer_span;
use regex_search_core::{HalfMatch, Input, Match, Span};
use std::alloc::AllocError;

/// An iteration over the matches of an input, which do not overlap.
///
/// It keeps the input of the next search and the end of the last match, but no finder: each step takes one. A contract
/// sees it as `iter_state_of`. Copying it allocates nothing.
#[derive(Debug, Drop)]
pub struct Searcher<'h> {
    input: Input<'h>,
    last_match_end: Option<usize>,
    pub ghost ends_by: { EndsBy last_match_end input.span.start },
}

/// The result of offering an answer to a [`Searcher`].
#[derive(Clone, Copy, Debug, PartialEq, Eq)]
pub enum Offered {
    /// This is the answer of the step.
    Done(Option<Match>),
    /// The answer was an empty match at the end of the last match. The searcher's input now starts one byte further on.
    /// Search it and offer that answer, which will be `Done`.
    Again,
}

impl<'h> Clone for Searcher<'h> {
    ghost use Rattle.std.specs.Prelude.{◌≡◌};
    ghost use Rattle.nfa_search_base.specs.Stored.{iter_state_of};

    ghost is_clone = { λ one other. iter_state_of other ≡ iter_state_of one };

    ghost is_infallible = { λ _. Unit {0} };

    fn clone(&self) -> Result<Self, AllocError> {
        Ok(Searcher {
            input: self.input,
            last_match_end: self.last_match_end,
        })
    }
}

impl<'h> Searcher<'h> {
    ghost use Rattle.std.specs.Prelude.{◌≡◌, ◌≤◌, IsTrue, false, Ok};
    ghost use Rattle.std.specs.Option.{ForSome};
    ghost use Rattle.regex_search_core.specs.Search.{search_of};
    ghost use Rattle.nfa_search_base.specs.IterStates.{AnswerIsInside, fresh, shifted, after, repeats, LiesIn, IsPast};
    ghost use Rattle.nfa_search_base.specs.IterStates.{ComesAfter, LeavesFewer, SameButStart};
    ghost use Rattle.regex_search_core.specs.Found.{found_of, half_found_of};
    ghost use Rattle.nfa_search_base.specs.IterStates.{half_span_of, span_of};
    ghost use Rattle.nfa_search_base.specs.Finders.{match_span, half_match_span, FindsStep, FindsStepInfallibly};
    ghost use Rattle.nfa_search_base.specs.Finders.{ServesAdvance, StepDone, StepsBy};
    ghost use Rattle.nfa_search_base.specs.Stored.{iter_state_of, offered_span, OfferGives, IsDone};

    /// Makes an iteration over the matches of this input, before its first match.
    ///
    /// ```
    /// let searcher = Searcher::new(Input::new(b"foo1 foo12"));
    /// assert_eq!(rt; searcher.input().get_range(), 0..10);
    /// ```
    pub fn new(input: Input<'h>) -> Searcher<'h>
        ensures { iter_state_of result ≡ fresh (search_of input.entry) }
    {
        Searcher {
            input,
            last_match_end: None,
        }
    }

    /// Returns the input of the next search: the input that the iteration began with, from the end of the last match
    /// on.
    ///
    /// ```
    /// // choice of "foo(?<n>[0-9]+)"
    /// let mut searcher = Searcher::new(Input::new(b"foo1 foo12"));
    /// searcher.advance(|input: &Input<'_>| Ok(choice.find(*input)));
    /// assert_eq!(rt; searcher.input().get_range(), 4..10);
    /// ```
    pub fn input(&self) -> &Input<'h>
        ensures { search_of result.now ≡ (iter_state_of self.now).at }
    {
        &self.input
    }

    /// Takes the answer of a search of [`Searcher::input`]. Requires that its match, if any, is in the input's span.
    ///
    /// An empty match at the end of the last match moves the input's start one byte on, and gives [`Offered::Again`].
    /// Any other match moves the start, and the last end, to its end. `None` changes nothing. Both of these give
    /// [`Offered::Done`].
    ///
    /// ```
    /// // choice of "a|"
    /// let mut searcher = Searcher::new(Input::new(b"ab"));
    /// let found = choice.find(*searcher.input());
    /// assert_eq!(rt; searcher.offer(found), Offered::Done(found));
    /// let empty = choice.find(*searcher.input());
    /// assert_eq!(rt; searcher.offer(empty), Offered::Again);
    /// ```
    pub fn offer(&mut self, answer: Option<Match>) -> Offered
        requires { LiesIn (iter_state_of self.old).at (match_span (Ok answer)) }
        ensures gives { OfferGives (iter_state_of self.old) answer result (iter_state_of self.new) }
        // The answer after an `Again` is done.
        ensures once { IsPast (iter_state_of self.old) → IsDone result }
        ensures rises { ComesAfter (iter_state_of self.old) (offered_span result) }
        ensures fewer { LeavesFewer (iter_state_of self.old) (offered_span result) (iter_state_of self.new) }
        ensures same { SameButStart (iter_state_of self.old).at (iter_state_of self.new).at }
    {
        let reply_span = answer_span(Ok(answer));
        if self.moves_on(reply_span) {
            return Offered::Again;
        }
        self.set_last_match(reply_span);
        Offered::Done(answer)
    }

    /// Returns the next match that the finder gives.
    ///
    /// The finder is called on [`Searcher::input`]. If it returns an empty match at the end of the last match, the
    /// input's start moves one byte on, and the finder is called once more. That answer is returned as it is. A match
    /// then moves the start, and the last end, to its end. An error of the finder is returned. If the first call
    /// returns an error or `None`, the searcher stays as it was. If the second call does, the start stays one byte
    /// further on.
    ///
    /// So the ends of the matches rise over all calls, and there are at most as many matches as the span has bytes,
    /// plus one. Requires that the finder returns matches in its input's span.
    ///
    /// ```
    /// // backtracker of "foo(?<n>[0-9]+)"
    /// let mut searcher = Searcher::new(Input::new(b"foo1 foo12"));
    /// let found = searcher.try_advance(|input: &Input<'_>| backtracker.try_find(cache, *input))?;
    /// assert_eq!(rt; found.expect(rt, "a match").range(), 0..4);
    /// ```
    pub fn try_advance<F>(&mut self, finder: F) -> Result<Option<Match>, SearchError>
    where
        F: FnMut(&Input<'_>) -> Result<Option<Match>, SearchError>,
        requires { FindsStep found_of F.FnMut span_of finder (iter_state_of self.old) }
        ensures step { (left : F) × StepsBy found_of F.FnMut span_of finder (iter_state_of self.old) result left
            (iter_state_of self.new) }
        ensures inside { LiesIn (iter_state_of self.old).at (match_span result) }
        ensures rises { ComesAfter (iter_state_of self.old) (match_span result) }
        ensures fewer { LeavesFewer (iter_state_of self.old) (match_span result) (iter_state_of self.new) }
        ensures same { SameButStart (iter_state_of self.old).at (iter_state_of self.new).at }
    {
        let mut finder = finder;
        self.try_advance_by_ref(&mut finder)
    }

    /// The same as [`Searcher::try_advance`], but borrows the finder, which keeps the state that its last call left.
    ///
    /// ```
    /// // backtracker of "foo(?<n>[0-9]+)"
    /// let mut searcher = Searcher::new(Input::new(b"foo1 foo12"));
    /// let mut finder = |input: &Input<'_>| backtracker.try_find(cache, *input);
    /// searcher.try_advance_by_ref(&mut finder)?;
    /// let second = searcher.try_advance_by_ref(&mut finder)?;
    /// assert_eq!(rt; second.expect(rt, "a match").range(), 5..10);
    /// ```
    pub fn try_advance_by_ref<F>(&mut self, finder: &mut F) -> Result<Option<Match>, SearchError>
    where
        F: FnMut(&Input<'_>) -> Result<Option<Match>, SearchError>,
        requires { FindsStep found_of F.FnMut span_of finder.old (iter_state_of self.old) }
        ensures step { StepsBy found_of F.FnMut span_of finder.old (iter_state_of self.old) result finder.new
            (iter_state_of self.new) }
        ensures inside { LiesIn (iter_state_of self.old).at (match_span result) }
        ensures rises { ComesAfter (iter_state_of self.old) (match_span result) }
        ensures fewer { LeavesFewer (iter_state_of self.old) (match_span result) (iter_state_of self.new) }
        ensures same { SameButStart (iter_state_of self.old).at (iter_state_of self.new).at }
    {
        self.step_with(&mut ByRef::new(), finder)
    }

    /// Returns the next match of a finder that never fails, by the step of [`Searcher::try_advance`]. Requires also
    /// that the finder never fails.
    ///
    /// ```
    /// // choice of "foo(?<n>[0-9]+)"
    /// let mut searcher = Searcher::new(Input::new(b"foo1 foo12"));
    /// let found = searcher.advance(|input: &Input<'_>| Ok(choice.find(*input)));
    /// assert_eq!(rt; found.expect(rt, "a match").range(), 0..4);
    /// ```
    pub fn advance<F>(&mut self, finder: F) -> Option<Match>
    where
        F: FnMut(&Input<'_>) -> Result<Option<Match>, SearchError>,
        requires { FindsStepInfallibly found_of F.FnMut span_of finder (iter_state_of self.old) }
        ensures step { (left : F) × StepsBy found_of F.FnMut span_of finder (iter_state_of self.old) (Ok result) left
            (iter_state_of self.new) }
        ensures inside { LiesIn (iter_state_of self.old).at (match_span (Ok result)) }
        ensures rises { ComesAfter (iter_state_of self.old) (match_span (Ok result)) }
        ensures fewer { LeavesFewer (iter_state_of self.old) (match_span (Ok result)) (iter_state_of self.new) }
        ensures same { SameButStart (iter_state_of self.old).at (iter_state_of self.new).at }
    {
        let mut finder = finder;
        self.advance_by_ref(&mut finder)
    }

    /// The same as [`Searcher::advance`], but borrows the finder, which keeps the state that its last call left.
    ///
    /// ```
    /// // choice of "foo(?<n>[0-9]+)"
    /// let mut searcher = Searcher::new(Input::new(b"foo1 foo12"));
    /// let mut finder = |input: &Input<'_>| Ok(choice.find(*input));
    /// searcher.advance_by_ref(&mut finder);
    /// let second = searcher.advance_by_ref(&mut finder);
    /// assert_eq!(rt; second.expect(rt, "a match").range(), 5..10);
    /// ```
    pub fn advance_by_ref<F>(&mut self, finder: &mut F) -> Option<Match>
    where
        F: FnMut(&Input<'_>) -> Result<Option<Match>, SearchError>,
        requires { FindsStepInfallibly found_of F.FnMut span_of finder.old (iter_state_of self.old) }
        ensures step { StepsBy found_of F.FnMut span_of finder.old (iter_state_of self.old) (Ok result) finder.new
            (iter_state_of self.new) }
        ensures inside { LiesIn (iter_state_of self.old).at (match_span (Ok result)) }
        ensures rises { ComesAfter (iter_state_of self.old) (match_span (Ok result)) }
        ensures fewer { LeavesFewer (iter_state_of self.old) (match_span (Ok result)) (iter_state_of self.new) }
        ensures same { SameButStart (iter_state_of self.old).at (iter_state_of self.new).at }
    {
        match self.try_advance_by_ref(finder) {
            Ok(found) => found,
            Err(_) => unreachable!(),
        }
    }

    /// Returns the next half match that the finder gives.
    ///
    /// The same as [`Searcher::try_advance`] if only the ends of matches are known. The finder is called a second time
    /// if its first answer has the offset at which the last match ended. Requires that the finder returns offsets in
    /// its input's span.
    ///
    /// ```
    /// // backtracker of "foo(?<n>[0-9]+)"
    /// let mut searcher = Searcher::new(Input::new(b"foo1 foo12"));
    /// let finder = |input: &Input<'_>| backtracker.try_find_half(cache, *input);
    /// let half = searcher.try_advance_half(finder)?;
    /// assert_eq!(rt; half.expect(rt, "a match").offset(), 4);
    /// ```
    pub fn try_advance_half<F>(&mut self, finder: F) -> Result<Option<HalfMatch>, SearchError>
    where
        F: FnMut(&Input<'_>) -> Result<Option<HalfMatch>, SearchError>,
        requires { FindsStep half_found_of F.FnMut half_span_of finder (iter_state_of self.old) }
        ensures step { (left : F) × StepsBy half_found_of F.FnMut half_span_of finder (iter_state_of self.old) result
            left (iter_state_of self.new) }
        ensures inside { LiesIn (iter_state_of self.old).at (half_match_span result) }
        ensures rises { ComesAfter (iter_state_of self.old) (half_match_span result) }
        ensures fewer { LeavesFewer (iter_state_of self.old) (half_match_span result) (iter_state_of self.new) }
        ensures same { SameButStart (iter_state_of self.old).at (iter_state_of self.new).at }
    {
        let mut finder = finder;
        self.try_advance_half_by_ref(&mut finder)
    }

    /// The same as [`Searcher::try_advance_half`], but borrows the finder, which keeps the state that its last call
    /// left.
    ///
    /// ```
    /// // backtracker of "foo(?<n>[0-9]+)"
    /// let mut searcher = Searcher::new(Input::new(b"foo1 foo12"));
    /// let mut finder = |input: &Input<'_>| backtracker.try_find_half(cache, *input);
    /// searcher.try_advance_half_by_ref(&mut finder)?;
    /// let second = searcher.try_advance_half_by_ref(&mut finder)?;
    /// assert_eq!(rt; second.expect(rt, "a match").offset(), 10);
    /// ```
    pub fn try_advance_half_by_ref<F>(
        &mut self,
        finder: &mut F,
    ) -> Result<Option<HalfMatch>, SearchError>
    where
        F: FnMut(&Input<'_>) -> Result<Option<HalfMatch>, SearchError>,
        requires { FindsStep half_found_of F.FnMut half_span_of finder.old (iter_state_of self.old) }
        ensures step { StepsBy half_found_of F.FnMut half_span_of finder.old (iter_state_of self.old) result finder.new
            (iter_state_of self.new) }
        ensures inside { LiesIn (iter_state_of self.old).at (half_match_span result) }
        ensures rises { ComesAfter (iter_state_of self.old) (half_match_span result) }
        ensures fewer { LeavesFewer (iter_state_of self.old) (half_match_span result) (iter_state_of self.new) }
        ensures same { SameButStart (iter_state_of self.old).at (iter_state_of self.new).at }
    {
        self.step_with(&mut ByRef::new(), finder)
    }

    /// Returns the next half match of a finder that never fails, by the step of [`Searcher::try_advance_half`].
    /// Requires also that the finder never fails.
    ///
    /// ```
    /// // choice of "foo(?<n>[0-9]+)"
    /// let mut searcher = Searcher::new(Input::new(b"foo1 foo12"));
    /// let half = searcher.advance_half(|input: &Input<'_>| Ok(choice.find_half(*input)));
    /// assert_eq!(rt; half.expect(rt, "a match").offset(), 4);
    /// ```
    pub fn advance_half<F>(&mut self, finder: F) -> Option<HalfMatch>
    where
        F: FnMut(&Input<'_>) -> Result<Option<HalfMatch>, SearchError>,
        requires { FindsStepInfallibly half_found_of F.FnMut half_span_of finder (iter_state_of self.old) }
        ensures step { (left : F) × StepsBy half_found_of F.FnMut half_span_of finder (iter_state_of self.old)
            (Ok result) left (iter_state_of self.new) }
        ensures inside { LiesIn (iter_state_of self.old).at (half_match_span (Ok result)) }
        ensures rises { ComesAfter (iter_state_of self.old) (half_match_span (Ok result)) }
        ensures fewer { LeavesFewer (iter_state_of self.old) (half_match_span (Ok result)) (iter_state_of self.new) }
        ensures same { SameButStart (iter_state_of self.old).at (iter_state_of self.new).at }
    {
        let mut finder = finder;
        self.advance_half_by_ref(&mut finder)
    }

    /// The same as [`Searcher::advance_half`], but borrows the finder, which keeps the state that its last call left.
    ///
    /// ```
    /// // choice of "foo(?<n>[0-9]+)"
    /// let mut searcher = Searcher::new(Input::new(b"foo1 foo12"));
    /// let mut finder = |input: &Input<'_>| Ok(choice.find_half(*input));
    /// searcher.advance_half_by_ref(&mut finder);
    /// let second = searcher.advance_half_by_ref(&mut finder);
    /// assert_eq!(rt; second.expect(rt, "a match").offset(), 10);
    /// ```
    pub fn advance_half_by_ref<F>(&mut self, finder: &mut F) -> Option<HalfMatch>
    where
        F: FnMut(&Input<'_>) -> Result<Option<HalfMatch>, SearchError>,
        requires { FindsStepInfallibly half_found_of F.FnMut half_span_of finder.old (iter_state_of self.old) }
        ensures step { StepsBy half_found_of F.FnMut half_span_of finder.old (iter_state_of self.old) (Ok result)
            finder.new (iter_state_of self.new) }
        ensures inside { LiesIn (iter_state_of self.old).at (half_match_span (Ok result)) }
        ensures rises { ComesAfter (iter_state_of self.old) (half_match_span (Ok result)) }
        ensures fewer { LeavesFewer (iter_state_of self.old) (half_match_span (Ok result)) (iter_state_of self.new) }
        ensures same { SameButStart (iter_state_of self.old).at (iter_state_of self.new).at }
    {
        match self.try_advance_half_by_ref(finder) {
            Ok(found) => found,
            Err(_) => unreachable!(),
        }
    }

    // Takes a step by an engine, with a cache that is borrowed for each search.
    #[inline]
    pub(crate) fn step_with<A: FindWith>(
        &mut self,
        backend: &mut A,
        cache: &mut A::Cache,
    ) -> A::Reply
        requires { ServesAdvance A.accepts A.asks A.span (AnswerIsInside A.span)
            (record { backend = backend.old; cache = cache.old })
            (iter_state_of self.old) }
        ensures { StepDone A.accepts A.asks A.span (record { backend = backend.old; cache = cache.old })
            (iter_state_of self.old)
            (A.shows backend.new result) (record { backend = backend.new; cache = cache.new })
            (iter_state_of self.new) }
    {
        let once = backend.answer(cache, &self.input);
        let reply_span = backend.reply_span(once);
        if !self.moves_on(reply_span) {
            self.set_last_match(reply_span);
            return once;
        }
        let twice = backend.answer(cache, &self.input);
        let reply_span = backend.reply_span(twice);
        self.set_last_match(reply_span);
        twice
    }

    // Returns whether the match is an empty one at the last end, and if so moves the start one byte on.
    #[inline]
    fn moves_on(&mut self, reply_span: Option<Span>) -> bool
        requires { LiesIn (iter_state_of self.old).at reply_span }
        ensures test { result ≡ repeats (iter_state_of self.old) reply_span }
        ensures moved { IsTrue result → (iter_state_of self.new ≡ shifted (iter_state_of self.old))
            × IsPast (iter_state_of self.new) }
        ensures stays { result ≡ false → iter_state_of self.new ≡ iter_state_of self.old }
    {
        let again = match reply_span {
            Some(span) => span.start == span.end && self.last_match_end == Some(span.end),
            None => false,
        };
        if again {
            let start = self.input.start() + 1;
            self.input.set_start(start);
        }
        again
    }

    // Moves the start to the end of the answer's match, which becomes the last match. Without a match nothing changes.
    #[inline]
    fn set_last_match(&mut self, reply_span: Option<Span>)
        requires inside { LiesIn (iter_state_of self.old).at reply_span }
        requires ordered { ForSome reply_span (λ p. p.start ≤ p.end) }
        ensures { iter_state_of self.new ≡ after (iter_state_of self.old) reply_span }
    {
        if let Some(span) = reply_span {
            self.input.set_start(span.end);
            self.last_match_end = Some(span.end);
        }
    }
}
