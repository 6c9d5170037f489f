//! Searches that fill captures.
ghost use Rattle.std.specs.Prelude.{◌≡◌, ◌+◌, ◌<◌, None, length, replicate, false, All};
ghost use Rattle.std.specs.Prelude.{IfSome, IfNone, OnErr, OnOk};
ghost use Rattle.regex_search_core.specs.Search.{search_of};
ghost use Rattle.regex_search_core.specs.declared.search.MatchKind.TheVariants.{LeftmostFirst};
ghost use Rattle.nfa_paths.specs.Paths.{IsAnswer};
ghost use Rattle.nfa_backtrack.specs.Finding.{IsCounted};
ghost use Rattle.nfa_search_base.specs.Lists.{IsSlotInside, SpansInside};

use crate::cache::Cache;
use crate::engine::BoundedBacktracker;
use nfa_search_base::error::SearchError;
use regex_search_core::{Captures, Input};

impl BoundedBacktracker {
    /// Searches, and writes the result to the captures: the pattern that matched, and the slots that
    /// [`BoundedBacktracker::try_search_slots`] returns for that number of slots. Their groups do not change. After no
    /// match and after an error no pattern and no slot is set.
    ///
    /// The captures may be of another NFA, and may have any number of slots. The errors are those of
    /// [`BoundedBacktracker::try_search_slots`].
    ///
    /// ```
    /// // backtracker of "foo(?<n>[0-9]+)"
    /// let mut captures = backtracker.create_captures(alloc)?;
    /// backtracker.try_search(cache, &Input::new(b"foo12345"), &mut captures)?;
    /// let digits = captures.get_group_by_name("n");
    /// assert_eq!(rt; digits, Some(Span { start: 3, end: 8 }));
    /// ```
    pub fn try_search(
        &self,
        cache: &mut Cache,
        input: &Input<'_>,
        captures: &mut Captures,
    ) -> Result<(), SearchError>
        ensures answer { OnOk result (IsAnswer self.now.nfa LeftmostFirst false (search_of input.now)
            captures.new.pattern captures.new.slots) }
        ensures unmatched { IfNone captures.new.pattern
            (captures.new.slots ≡ replicate (length captures.old.slots) None) }
        ensures cleared { OnErr result (captures.new.pattern ≡ None) }
        ensures groups { captures.new.groups ≡ captures.old.groups }
        ensures count { length captures.new.slots ≡ length captures.old.slots }
        ensures pattern { IfSome captures.new.pattern (λ p. p < length self.now.nfa.patterns) }
        ensures inside { All (IsSlotInside (search_of input.now)) captures.new.slots }
        ensures spans { SpansInside (search_of input.now) captures.new }

        ensures counts { IsCounted self.now (search_of input.now) 0 result cache.old cache.new }
    {
        captures.set_pattern(None);
        let pattern = self.try_search_slots(cache, input, captures.slots_mut())?;
        captures.set_pattern(pattern);
        Ok(())
    }

    /// Searches as [`BoundedBacktracker::try_search`] does, but takes the input by value.
    ///
    /// ```
    /// // backtracker of "foo(?<n>[0-9]+)"
    /// let mut captures = backtracker.create_captures(alloc)?;
    /// backtracker.try_captures(cache, Input::new(b"foo12345"), &mut captures)?;
    /// assert_eq!(rt; captures.get_group(1), Some(Span { start: 3, end: 8 }));
    /// ```
    pub fn try_captures<'h>(
        &self,
        cache: &mut Cache,
        input: Input<'h>,
        captures: &mut Captures,
    ) -> Result<(), SearchError>
        ensures answer { OnOk result (IsAnswer self.now.nfa LeftmostFirst false (search_of input.entry)
            captures.new.pattern captures.new.slots) }
        ensures unmatched { IfNone captures.new.pattern
            (captures.new.slots ≡ replicate (length captures.old.slots) None) }
        ensures cleared { OnErr result (captures.new.pattern ≡ None) }
        ensures groups { captures.new.groups ≡ captures.old.groups }
        ensures count { length captures.new.slots ≡ length captures.old.slots }
        ensures pattern { IfSome captures.new.pattern (λ p. p < length self.now.nfa.patterns) }
        ensures inside { All (IsSlotInside (search_of input.entry)) captures.new.slots }
        ensures spans { SpansInside (search_of input.entry) captures.new }

        ensures counts { IsCounted self.now (search_of input.entry) 0 result cache.old cache.new }
    {
        self.try_search(cache, &input, captures)
    }
}
