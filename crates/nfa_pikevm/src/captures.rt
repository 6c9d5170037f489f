//! Searches that fill captures.
ghost use Rattle.std.specs.Prelude.{◌≡◌, ◌+◌, ◌<◌, None, length, replicate, IfSome, IfNone, All};
ghost use Rattle.regex_search_core.specs.Search.{search_of};
ghost use Rattle.nfa_paths.specs.Paths.{IsAnswer};
ghost use Rattle.nfa_search_base.specs.Lists.{IsSlotInside, SpansInside};
ghost use Rattle.nfa_pikevm.specs.Engines.{Fits, kind_of};
ghost use Rattle.nfa_pikevm.specs.Finding.{PikeSearches};

use crate::cache::Cache;
use crate::engine::PikeVM;
use regex_search_core::{Captures, Input};

impl PikeVM {
    /// Searches, and writes the result to the captures: the pattern that matched, and the slots that
    /// [`PikeVM::search_slots`] returns for that number of slots. If nothing matches, no pattern and no slot is set.
    /// The groups of the captures do not change, even if they are of another NFA.
    ///
    /// Requires a cache that fits. A search does not change its sizes.
    ///
    /// ```
    /// // vm of "foo(?<n>[0-9]+)"
    /// let mut captures = vm.create_captures(alloc)?;
    /// vm.search(cache, &Input::new(b"foo12345"), &mut captures);
    /// let digits = captures.get_group_by_name("n");
    /// assert_eq!(rt; digits, Some(Span { start: 3, end: 8 }));
    /// ```
    pub fn search(&self, cache: &mut Cache, input: &Input<'_>, captures: &mut Captures)
        requires { Fits cache.old self.now.nfa }
        ensures answer { let x = search_of input.now in
            IsAnswer self.now.nfa (kind_of self.now) x.earliest x captures.new.pattern captures.new.slots }
        ensures groups { captures.new.groups ≡ captures.old.groups }
        ensures count { length captures.new.slots ≡ length captures.old.slots }
        ensures unmatched { IfNone captures.new.pattern
            (captures.new.slots ≡ replicate (length captures.old.slots) None) }
        ensures pattern { IfSome captures.new.pattern (λ p. p < length self.now.nfa.patterns) }
        ensures inside { All (IsSlotInside (search_of input.now)) captures.new.slots }
        ensures spans { SpansInside (search_of input.now) captures.new }

        ensures counts { PikeSearches self.now (search_of input.now) cache.old cache.new }
    {
        let slots = captures.slots_mut();
        let pattern = self.search_slots(cache, input, slots);
        captures.set_pattern(pattern);
    }

    /// Searches as [`PikeVM::search`] does, but takes the input by value.
    ///
    /// Requires a cache that fits. A search does not change its sizes.
    ///
    /// ```
    /// // vm of "foo(?<n>[0-9]+)"
    /// let mut captures = vm.create_captures(alloc)?;
    /// vm.captures(cache, Input::new(b"foo12345"), &mut captures);
    /// assert_eq!(rt; captures.get_group(1), Some(Span { start: 3, end: 8 }));
    /// ```
    pub fn captures<'h>(&self, cache: &mut Cache, input: Input<'h>, captures: &mut Captures)
        requires { Fits cache.old self.now.nfa }
        ensures answer { let x = search_of input.entry in
            IsAnswer self.now.nfa (kind_of self.now) x.earliest x captures.new.pattern captures.new.slots }
        ensures groups { captures.new.groups ≡ captures.old.groups }
        ensures count { length captures.new.slots ≡ length captures.old.slots }
        ensures unmatched { IfNone captures.new.pattern
            (captures.new.slots ≡ replicate (length captures.old.slots) None) }
        ensures pattern { IfSome captures.new.pattern (λ p. p < length self.now.nfa.patterns) }
        ensures inside { All (IsSlotInside (search_of input.entry)) captures.new.slots }
        ensures spans { SpansInside (search_of input.entry) captures.new }

        ensures counts { PikeSearches self.now (search_of input.entry) cache.old cache.new }
    {
        self.search(cache, &input, captures);
    }
}
