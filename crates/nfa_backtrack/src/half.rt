//! The search for the end of a match only.
ghost use Rattle.std.specs.Prelude.{◌+◌, ◌<◌, ◌≤◌, length, option_map, false};
ghost use Rattle.std.specs.Prelude.{IfOk, IfSome};
ghost use Rattle.regex_search_core.specs.Found.{half_found_of};
ghost use Rattle.regex_search_core.specs.Search.{search_of};
ghost use Rattle.regex_search_core.specs.declared.search.MatchKind.TheVariants.{LeftmostFirst};
ghost use Rattle.nfa_paths.specs.Paths.{IsHalfAnswer};
ghost use Rattle.nfa_backtrack.specs.Finding.{IsCounted};

use crate::cache::Cache;
use crate::engine::BoundedBacktracker;
use nfa_search_base::error::SearchError;
use regex_search_core::{HalfMatch, Input};

impl BoundedBacktracker {
    /// Returns the pattern of the match that a search of the input finds, and the offset of its end. It writes no
    /// slots, so the NFA need not record where its matches start and end.
    ///
    /// Returns `None` if nothing matches. The errors are those of [`BoundedBacktracker::try_search_slots`].
    ///
    /// ```
    /// // backtracker of "foo(?<n>[0-9]+)"
    /// let half = backtracker.try_find_half(cache, Input::new(b"foo12345"))?;
    /// assert_eq!(rt; half.expect(rt, "a match").offset(), 8);
    /// ```
    pub fn try_find_half<'h>(
        &self,
        cache: &mut Cache,
        input: Input<'h>,
    ) -> Result<Option<HalfMatch>, SearchError>
        ensures answer { IfOk result (λ half. IsHalfAnswer self.now.nfa LeftmostFirst false (search_of input.entry)
            (option_map half_found_of half)) }
        ensures pattern { IfOk result (λ half. IfSome half
            (λ m. (half_found_of m).pattern < length self.now.nfa.patterns)) }
        ensures inside { IfOk result (λ half. IfSome half
            (λ m. ((search_of input.entry).start ≤ (half_found_of m).offset)
            × ((half_found_of m).offset ≤ (search_of input.entry).end))) }

        ensures counts { IsCounted self.now (search_of input.entry) 0 result cache.old cache.new }
    {
        self.search_counted(cache, &input, &mut [])
    }
}
