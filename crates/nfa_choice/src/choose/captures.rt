//! Captures for the NFA, and the search that fills them and takes its input by value.
ghost use Rattle.std.specs.Prelude.{◌≡◌, None, replicate, IfOk, IsOkUnless};
ghost use Rattle.regex_search_core.specs.Groups.{slot_count};
ghost use Rattle.regex_search_core.specs.Search.{search_of};
ghost use Rattle.nfa_paths.specs.Paths.{IsAnswer};
ghost use Rattle.nfa_backtrack.specs.Backtrack.{HoldsNoMore};
ghost use Rattle.nfa_choice.specs.Answered.{FillsCaptures};
ghost use Rattle.nfa_choice.specs.ChoiceState.{kind_in, KeepsEngines, RunsByRule};

use crate::choose::Choice;
use nfa_engines::error::SearchError;
use regex_search_core::{Captures, Input};
use std::alloc::Global;

impl Choice {
    /// Makes captures with two slots for each group of the NFA. No pattern and no slot is set. The only error is
    /// `Memory`.
    ///
    /// ```
    /// // choice of "foo(?<n>[0-9]+)"
    /// let captures = choice.create_captures(alloc)?;
    /// assert_eq!(rt; captures.slots(), [None; 4].as_slice());
    /// ```
    pub fn create_captures(&self, alloc: Global) -> Result<Captures, SearchError>
        ensures made { IfOk result (λ made. made ≡ record {
          groups = self.now.nfa.groups;
          pattern = None;
          slots = replicate (slot_count self.now.nfa.groups) None;
        }) }
        ensures memory { IsOkUnless result SearchError.Memory }
    {
        self.pike.create_captures(alloc)
    }

    /// Searches as [`Choice::search`] does, but takes the input by value.
    ///
    /// ```
    /// // choice of "foo(?<n>[0-9]+)"
    /// let mut captures = choice.create_captures(alloc)?;
    /// choice.captures(Input::new(b"foo12345"), &mut captures);
    /// assert_eq!(rt; captures.get_group(1), Some(Span { start: 3, end: 8 }));
    /// ```
    pub fn captures<'h>(&mut self, input: Input<'h>, captures: &mut Captures)
        ensures answer { let x = search_of input.entry in
            IsAnswer self.old.nfa (kind_in self.old) x.earliest x captures.new.pattern captures.new.slots }
        ensures runs { RunsByRule self.old (search_of input.entry) (search_of input.entry).earliest self.new }
        ensures fills { FillsCaptures self.old.nfa (search_of input.entry) captures.old captures.new }
        ensures holds { HoldsNoMore 0 self.old.back self.new.back }
        ensures keeps { KeepsEngines self.old self.new }
    {
        self.search(&input, captures);
    }
}
