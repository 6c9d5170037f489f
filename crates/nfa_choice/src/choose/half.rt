//! The search for the pattern and the end of a match.
ghost use Rattle.std.specs.Prelude.{◌≡◌, ◌<◌, ◌≤◌, IfSome, length, option_map};
ghost use Rattle.regex_search_core.specs.Found.{half_found_of};
ghost use Rattle.regex_search_core.specs.Search.{search_of};
ghost use Rattle.nfa_paths.specs.Paths.{IsHalfAnswer};
ghost use Rattle.nfa_backtrack.specs.Backtrack.{HoldsNoMore};
ghost use Rattle.nfa_choice.specs.ChoiceState.{kind_in, KeepsEngines, RunsByRule};

use crate::choose::{Choice, Engine};
use regex_search_core::{HalfMatch, Input};

impl Choice {
    /// Returns the pattern of the match that a search of the input finds, and the offset of its end. It writes no
    /// slots, so the NFA need not record where its matches start and end.
    ///
    /// Returns `None` if nothing matches.
    ///
    /// ```
    /// // choice of "foo(?<n>[0-9]+)"
    /// let half = choice.find_half(Input::new(b"foo12345"));
    /// assert_eq!(rt; half.expect(rt, "a match").offset(), 8);
    /// ```
    pub fn find_half<'h>(&mut self, input: Input<'h>) -> Option<HalfMatch>
        ensures answer { IsHalfAnswer self.old.nfa (kind_in self.old) (search_of input.entry).earliest
            (search_of input.entry) (option_map half_found_of result) }
        ensures pattern { IfSome result (λ m. (half_found_of m).pattern < length self.old.nfa.patterns) }
        ensures inside { IfSome result (λ m. ((search_of input.entry).start ≤ (half_found_of m).offset)
            × ((half_found_of m).offset ≤ (search_of input.entry).end)) }
        ensures runs { RunsByRule self.old (search_of input.entry) (search_of input.entry).earliest self.new }
        ensures holds { HoldsNoMore 0 self.old.back self.new.back }
        ensures keeps { KeepsEngines self.old self.new }
    {
        if self.is_for_backtracker(&input) {
            if let Ok(half) = self.back.try_find_half(&mut self.back_cache, input) {
                self.ran = Some(Engine::Backtracker);
                return half;
            }
        }
        self.ran = Some(Engine::PikeVM);
        self.pike.find_half(&mut self.pike_cache, input)
    }
}
