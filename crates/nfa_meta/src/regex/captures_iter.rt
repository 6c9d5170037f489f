//! Iteration over the captures of the matches of an input.
ghost use Rattle.std.specs.Prelude.{◌≡◌, ◌⊎◌, Err, None, Ok, Some, false, true};
ghost use Rattle.nfa_search_base.specs.Lists.{HasGroups};
ghost use Rattle.nfa_search_base.specs.Stored.{with_cache};
ghost use Rattle.nfa_meta.specs.CapturesSteps.{captures_call};
ghost use Rattle.nfa_meta.specs.RegexState.{KeepsRegex};

use crate::regex::Regex;
use nfa_engines::error::SearchError;
use nfa_engines::iter::captures_items::captures_span;
use nfa_engines::iter::{FindWith, Searcher, Steps};
use regex_search_core::{Captures, Input, Span};
use std::alloc::{AllocError, Global};
use std::marker::Model;

/// An iterator over the captures of all matches of an input that do not overlap, from left to right.
/// [`Regex::captures_iter`] returns it.
///
/// Its items are `Ok` captures, each its own copy, at most n + 1 for a span of n bytes, and at most one error. The only
/// error is [`SearchError::Memory`]: a copy could not be allocated. The iterator is fused: after the last match or the
/// error it returns only `None`.
#[derive(Drop)]
pub struct CapturesMatches<'r, 'h> {
    regex: &'r mut Regex,
    steps: Steps<'h, CapturesFinder>,
    ghost holds: { HasGroups regex.now.choice.nfa steps.backend.captures },
}

// The captures that the searches of one iteration fill. Each search borrows the engine.
#[derive(Debug, Drop)]
pub(super) struct CapturesFinder {
    captures: Captures,
    // The span of the match that they hold.
    held: Option<Span>,
}

impl Model for CapturesFinder {
    ghost use Rattle.std.specs.Prelude.{◌≡◌, ◌≤◌, Ok};
    ghost use Rattle.std.specs.Option.{ForSome};
    ghost use Rattle.nfa_search_base.specs.IterStates.{answer_span};
    ghost use Rattle.nfa_search_base.specs.WithCaptures.{WithCaptures, filled_answer, row_span};

    ghost Value = { WithCaptures (Unit {0}) };

    ghost view = { λ a. record { finder = tt; captures = a.captures } };

    ghost invariant = { λ a. (a.held ≡ answer_span row_span (filled_answer a.captures (Ok tt)))
        × ForSome a.held (λ p. p.start ≤ p.end) };
}

impl CapturesFinder {
    /// Makes a finder that fills these captures.
    #[inline]
    fn new(captures: Captures) -> CapturesFinder
        ensures { result ≡ record { finder = tt; captures = captures } }
    {
        let held = captures_span(&captures, Ok(()));
        CapturesFinder { captures, held }
    }
}

impl Regex {
    ghost use Rattle.std.specs.Prelude.{◌+◌, ◌*◌, All, IfOk, IsOkUnless, length};
    ghost use Rattle.regex_search_core.specs.Search.{search_of};
    ghost use Rattle.nfa_paths.specs.Paths.{span_len};
    ghost use Rattle.nfa_search_base.specs.Lists.{AnswersRow};
    ghost use Rattle.nfa_search_base.specs.Runs.{CapturesGiven, CapturesInside, CapturesMemory, CapturesWithin};
    ghost use Rattle.nfa_meta.specs.CapturesMatches.{CapturesGiveKept, CapturesWorkWithin, captures_next};
    ghost use Rattle.nfa_meta.specs.CapturesMatches.{captures_regex};
    ghost use Rattle.nfa_meta.specs.Work.{WorksWithin};
    ghost use Rattle.nfa_meta.specs.CapturesSteps.{BeginsCaptures};
    ghost use Rattle.nfa_engines.specs.IterationLaws.{list_scan_limit};
    ghost use Rattle.nfa_choice.specs.Answered.{ListsCaptures};
    ghost use Rattle.nfa_choice.specs.ChoiceState.{kind_in};

    /// Returns an iterator over the captures of all matches that do not overlap, from left to right, each with all
    /// groups of the NFA. This call runs no search. The only error is [`SearchError::Memory`]: the captures to search
    /// with could not be allocated.
    ///
    /// Each search starts at the end of the last match. An empty match there is replaced by the result of a search from
    /// one byte further on. The engines run as for [`Regex::find`]. An answer that gives no match ends the list, for
    /// instance if the NFA does not set the two slots of its pattern. Each item is a copy. If it cannot be allocated,
    /// the item is the error, once.
    ///
    /// ```
    /// // regex of "foo(?<n>[0-9]+)"
    /// let mut last = None;
    /// for captures in regex.captures_iter(alloc, Input::new(b"foo1 foo12 foo123"))? {
    ///     last = captures?.get_group_by_name("n");
    /// }
    /// assert_eq!(rt; last, Some(Span { start: 14, end: 17 }));
    /// ```
    pub fn captures_iter<'r, 'h>(
        &'r mut self,
        alloc: Global,
        input: Input<'h>,
    ) -> Result<CapturesMatches<'r, 'h>, SearchError>
        ensures memory { IsOkUnless result SearchError.Memory }
        ensures same_reference { IfOk result (λ made. (captures_regex made).ghost_name
            ≡ self.entry.ghost_name) }
        ensures same_regex { IfOk result (λ made. (captures_regex made).now ≡ self.entry.now) }
        // Each run of calls gives the first captures of the input, and all of them if it goes on to `None`. If no copy
        // fails, their rows and their matches are those of the input.
        ensures given { IfOk result (CapturesGiven captures_next self.entry.now.choice.nfa
            (kind_in self.entry.now.choice) (search_of input.entry).earliest
            (AnswersRow self.entry.now.choice.nfa (kind_in self.entry.now.choice) (search_of input.entry).earliest)
            (search_of input.entry)) }
        ensures inside { IfOk result (CapturesWithin captures_next (search_of input.entry)) }
        ensures errors { IfOk result (CapturesMemory captures_next) }
        // The engines work within the bounds of an iteration.
        ensures work { IfOk result (CapturesWorkWithin (search_of input.entry)) }
        ensures keeps { IfOk result CapturesGiveKept }
    {
        let captures = self.create_captures(alloc)?;
        Ok(self.captures_iter_with(input, captures))
    }

    /// Returns the same iterator, but searches with the given captures, which must have all groups of this NFA
    /// ([`Regex::create_captures`]). Does not allocate, and cannot fail.
    ///
    /// ```
    /// // regex of "foo(?<n>[0-9]+)"
    /// let captures = regex.create_captures(alloc)?;
    /// let mut last = None;
    /// for captures in regex.captures_iter_with(Input::new(b"foo1 foo12 foo123"), captures) {
    ///     last = captures?.get_group_by_name("n");
    /// }
    /// assert_eq!(rt; last, Some(Span { start: 14, end: 17 }));
    /// ```
    #[inline]
    pub fn captures_iter_with<'r, 'h>(
        &'r mut self,
        input: Input<'h>,
        captures: Captures,
    ) -> CapturesMatches<'r, 'h>
        requires { HasGroups self.old.choice.nfa captures }
        ensures same_reference { (captures_regex result).ghost_name ≡ self.entry.ghost_name }
        ensures same_regex { (captures_regex result).now ≡ self.entry.now }
        // Each run of calls gives the first captures of the input, and all of them if it goes on to `None`. If no copy
        // fails, their rows and their matches are those of the input.
        ensures given { CapturesGiven captures_next self.entry.now.choice.nfa (kind_in self.entry.now.choice)
            (search_of input.entry).earliest (AnswersRow self.entry.now.choice.nfa (kind_in self.entry.now.choice)
            (search_of input.entry).earliest) (search_of input.entry) result }
        ensures inside { CapturesWithin captures_next (search_of input.entry) result }
        ensures errors { CapturesMemory captures_next result }
        // The engines work within the bounds of an iteration.
        ensures work { CapturesWorkWithin (search_of input.entry) result }
        ensures keeps { CapturesGiveKept result }
    {
        let backend = CapturesFinder::new(captures);
        CapturesMatches {
            regex: self,
            steps: Steps {
                searcher: Searcher::new(input),
                backend,
                done: false,
            },
        }
    }

    /// Returns the captures of all matches that do not overlap, from left to right, each with all groups of the NFA, as
    /// [`Regex::captures_iter`] gives them.
    ///
    /// The only error is [`SearchError::Memory`]: the list or captures could not be allocated. No search fails.
    ///
    /// ```
    /// // regex of "foo(?<n>[0-9]+)"
    /// let all = regex.captures_all(alloc, Input::new(b"foo1 foo12 foo123"))?;
    /// assert_eq!(rt; all.len(), 3);
    /// let digits = all[2].get_group_by_name("n");
    /// assert_eq!(rt; digits, Some(Span { start: 14, end: 17 }));
    /// ```
    pub fn captures_all(
        &mut self,
        alloc: Global,
        input: Input<'_>,
    ) -> Result<Vec<Captures>, SearchError>
        ensures memory { IsOkUnless result SearchError.Memory }
        ensures lists { ListsCaptures self.old.choice (search_of input.entry) result }
        ensures inside { IfOk result (λ all. All (CapturesInside (search_of input.entry)) all.items) }
        ensures keeps { KeepsRegex self.old self.new }
        // The engines work within the bounds of an iteration. If all captures are returned, they work within those of
        // their list.
        ensures work { let x = search_of input.entry in WorksWithin (2 * span_len x + 3) 0 x self.old self.new }
        ensures list_work { let x = search_of input.entry in IfOk result (λ all.
            WorksWithin (list_scan_limit self.old.choice.nfa x (length all.items)) 0 x self.old self.new) }
    {
        let finder = CapturesFinder::new(self.create_captures(alloc)?);
        Steps::new(input, finder).all_with(alloc, self)
    }

    /// Returns steps over the captures of the haystack, which borrow the regex for each step (`next_captures`).
    pub(super) fn begin_captures<'h>(
        &self,
        alloc: Global,
        haystack: &'h [u8],
    ) -> Result<Steps<'h, CapturesFinder>, AllocError>
        ensures { IfOk result (BeginsCaptures self.now haystack.now) }
    {
        let Ok(captures) = self.create_captures(alloc) else {
            return Err(AllocError);
        };
        let input = Input::new(haystack);
        let steps = Steps::new(input, CapturesFinder::new(captures));
        Ok(steps)
    }
}

/// Takes the next step, by searches of the regex, and leaves the captures of its match in the steps. Returns whether
/// there is one.
pub(super) fn next_captures(steps: &mut Steps<'_, CapturesFinder>, regex: &mut Regex) -> bool
    requires { HasGroups regex.old.choice.nfa steps.old.backend.captures }
    ensures some { result ≡ true → captures_call (with_cache steps.old regex.old)
        (Some (Ok steps.new.backend.captures)) (with_cache steps.new regex.new) }
    ensures none { result ≡ false
        → captures_call (with_cache steps.old regex.old) None (with_cache steps.new regex.new) }
    ensures groups { HasGroups regex.new.choice.nfa steps.new.backend.captures }
    ensures keeps { KeepsRegex regex.old regex.new }
{
    steps.advance_with(regex);
    !steps.done
}

/// Returns the captures that the last step left.
pub(super) fn captures_in<'s>(steps: &'s Steps<'_, CapturesFinder>) -> &'s Captures
    ensures { result.now ≡ steps.now.backend.captures }
{
    &steps.backend.captures
}

impl FindWith for CapturesFinder {
    ghost use Rattle.nfa_search_base.specs.WithCaptures.{Row, filled_answer, row_span, GivesCaptures};
    ghost use Rattle.nfa_choice.specs.Iterations.{AsksRowBy, MayFillCaptures};
    ghost use Rattle.nfa_meta.specs.WindowRuns.{by_window};

    type Cache = Regex;

    type Reply = Result<(), SearchError>;

    ghost Value = { Row };

    ghost shows = { λ c reply. filled_answer c.captures reply };

    ghost span = { row_span };

    ghost accepts = { λ s _. MayFillCaptures by_window s };

    type Item = Captures;

    ghost gives = { GivesCaptures };

    ghost asks = { AsksRowBy by_window };

    #[inline]
    fn answer(&mut self, regex: &mut Regex, input: &Input<'_>) -> Result<(), SearchError> {
        self.held = regex.captured_span(input, &mut self.captures);
        Ok(())
    }

    #[inline]
    fn reply_span(&self, reply: Result<(), SearchError>) -> Option<Span> {
        match reply {
            Ok(()) => self.held,
            Err(_) => None,
        }
    }

    #[inline]
    fn item(&self, reply: Result<(), SearchError>) -> Option<Result<Captures, SearchError>> {
        match reply {
            Ok(()) => match self.held {
                Some(_) => Some(copied(&self.captures)),
                None => None,
            },
            Err(error) => Some(Err(error)),
        }
    }
}

/// Returns a copy of the captures. The only error is that it could not be allocated.
#[inline]
fn copied(captures: &Captures) -> Result<Captures, SearchError>
    ensures { (result ≡ Ok captures.now) ⊎ (result ≡ Err SearchError.Memory) }
{
    match captures.clone() {
        Ok(copy) => Ok(copy),
        Err(_) => Err(SearchError::Memory),
    }
}

impl<'r, 'h> CapturesMatches<'r, 'h> {
    ghost use Rattle.std.specs.Borrow.{sem};
    ghost use Rattle.nfa_search_base.specs.Stored.{held_item};
    ghost use Rattle.nfa_search_base.specs.WithCaptures.{lent_item};
    ghost use Rattle.nfa_meta.specs.CapturesMatches.{LendsNext, captures_next, captures_steps};

    /// Returns the captures of the next match, which are lent until the next call: the item that `next` would give, but
    /// no copy, so this call cannot fail. Mix both calls at will.
    ///
    /// ```
    /// // regex of "foo(?<n>[0-9]+)"
    /// let mut items = regex.captures_iter(alloc, Input::new(b"foo1 foo12 foo123"))?;
    /// let mut last = None;
    /// while let Some(captures) = items.next_lent() {
    ///     last = captures.get_group_by_name("n");
    /// }
    /// assert_eq!(rt; last, Some(Span { start: 14, end: 17 }));
    /// ```
    #[inline]
    pub fn next_lent<'a>(&'a mut self) -> Option<&'a Captures>
        ensures* lends { sem 𝓛 (LendsNext self.entry result) }
    {
        self.advance();
        self.held()
    }

    // Takes the step of the next call, and keeps its captures.
    #[inline]
    fn advance(&mut self)
        ensures { captures_next self.old (held_item (captures_steps self.new)) self.new }
    {
        self.steps.advance_with(self.regex);
    }

    // The captures of the last match, unless the iterator has ended.
    #[inline]
    fn held(&self) -> Option<&Captures>
        ensures { lent_item result ≡ held_item (captures_steps self.now) }
    {
        if self.steps.done {
            None
        } else {
            Some(&self.steps.backend.captures)
        }
    }
}

impl<'r, 'h> Iterator for CapturesMatches<'r, 'h> {
    ghost use Rattle.nfa_search_base.specs.Stored.{steps_left};
    ghost use Rattle.nfa_meta.specs.CapturesMatches.{captures_steps, captures_next};

    type Item = Result<Captures, SearchError>;

    ghost next_gives = { captures_next };

    ghost remaining = { λ s. steps_left (captures_steps s).steps };

    fn next(&mut self) -> Option<Result<Captures, SearchError>> {
        self.steps.next_with(self.regex)
    }
}
