//! The engine that picks one of the two for each search. No search fails. Only calls that allocate do, with
//! [`SearchError::Memory`]: those that make a choice, captures or a list.
//!
//! Use it if you do not need a particular engine. It holds both engines and their caches, so it takes the memory of
//! both. If the limits of one engine suit you, that engine takes less.
//!
//! ```
//! let mut choice = Choice::new(alloc, nfa, backtrack::Config::new(), pikevm::Config::new())?;
//! if let Some(found) = choice.find(Input::new(text)) {
//!     println!(rt; "{}..{}", found.start(), found.end())?;
//! }
//! ```
ghost use Rattle.std.specs.Prelude.{◌≡◌, ◌*◌, ◌<◌, length, not, None, Some, Ok, false, option_map, All, IfOk, IfSome};
ghost use Rattle.std.specs.Prelude.{OnOk, OnErr, IsOkUnless};
ghost use Rattle.regex_search_core.specs.Search.{search_of};
ghost use Rattle.regex_search_core.specs.PatternSets.{number_of};
ghost use Rattle.regex_search_core.specs.Found.{found_of};
ghost use Rattle.nfa_paths.specs.Paths.{IsAnswer, IsFindAnswer, IsBoolAnswer, is_utf8_empty};
ghost use Rattle.nfa_search_base.specs.Lists.{IsInside};
ghost use Rattle.nfa_backtrack.specs.Backtrack.{empty_cache, HoldsNoMore};
ghost use Rattle.nfa_pikevm.specs.Engines.{cache_for, IsFitFor};
ghost use Rattle.nfa_choice.specs.Answered.{FillsCaptures, WritesSlots};
ghost use Rattle.nfa_choice.specs.ChoiceState.{bytes_of, finds_in, is_for_backtracker, kind_in, KeepsEngines};
ghost use Rattle.nfa_choice.specs.ChoiceState.{RunsByRule};

mod captures;
mod captures_iter;
mod find_iter;
mod half;
mod may_begin;
mod overlap;

pub use captures_iter::ChoiceCaptures;
pub use find_iter::ChoiceMatches;
use nfa_engines::backtrack::{self, BoundedBacktracker};
use nfa_engines::error::SearchError;
use nfa_engines::pikevm::{self, PikeVM};
use regex_search_core::{Captures, Input, Match, MatchKind, NonMaxUsize, PatternID};
use std::alloc::Global;
use std::marker::Model;
use thompson_nfa::NFA;

/// One of the two engines.
#[derive(Clone, Copy, Debug, PartialEq, Eq)]
pub enum Engine {
    /// The engine that searches depth first.
    Backtracker,
    /// The engine that follows all states side by side.
    PikeVM,
}

/// A search engine for one NFA that picks the backtracker or the PikeVM for each search, and never fails.
///
/// The backtracker runs if the match kind is leftmost first, `earliest` is off, and the span is at most
/// [`BoundedBacktracker::max_haystack_len`] bytes long. If it refuses the search, and in all other cases, the PikeVM
/// runs. Contracts see the NFA, the settings of both engines, what both caches show, and which engine gave the last
/// answer.
#[derive(Debug)]
pub struct Choice {
    back: BoundedBacktracker,
    pike: PikeVM,
    back_cache: backtrack::Cache,
    pike_cache: pikevm::Cache,
    ran: Option<Engine>,
}

// Written out, so that a drop is one call in a proof, and not one for each field.
impl Drop for Choice {
    fn drop(self) {
        let Choice {
            back: _,
            pike: _,
            back_cache: _,
            pike_cache: _,
            ran: _,
        } = self;
    }
}

impl Model for Choice {
    ghost use Rattle.std.specs.Prelude.{◌≡◌};
    ghost use Rattle.nfa_pikevm.specs.Engines.{Fits};
    ghost use Rattle.nfa_choice.specs.ChoiceState.{ChoiceState};

    ghost Value = { ChoiceState };

    ghost view = { λ c. record {
      nfa = c.back.nfa;
      visited_capacity = c.back.visited_capacity;
      match_kind = c.pike.match_kind;
      back = c.back_cache;
      pike = c.pike_cache;
      ran = c.ran;
    } };

    ghost invariant = { λ c. (c.pike.nfa ≡ c.back.nfa) × Fits c.pike_cache c.back.nfa };
}

/// Makes a backtracker of the NFA.
fn backtracker(config: backtrack::Config, nfa: NFA) -> BoundedBacktracker
    ensures { result ≡ record { nfa = nfa; visited_capacity = config } }
{
    let mut builder = BoundedBacktracker::builder();
    builder.configure(config);
    match builder.build_from_nfa(nfa) {
        Ok(engine) => engine,
        Err(_) => unreachable!(),
    }
}

/// Makes a PikeVM of the NFA.
fn pikevm(config: pikevm::Config, nfa: NFA) -> PikeVM
    ensures { result ≡ record { nfa = nfa; match_kind = config } }
{
    let mut builder = PikeVM::builder();
    builder.configure(config);
    match builder.build_from_nfa(nfa) {
        Ok(engine) => engine,
        Err(_) => unreachable!(),
    }
}

impl Choice {
    /// Makes both engines for the NFA, each with its configuration and a cache. The only error is `Memory`.
    ///
    /// ```
    /// let nfa = Compiler::new().build(alloc, "foo[0-9]+")?;
    /// let mut choice = Choice::new(alloc, nfa, backtrack::Config::new(), pikevm::Config::new())?;
    /// let found = choice.find(Input::new(b"foo12345"));
    /// assert_eq!(rt; found.expect(rt, "a match").range(), 0..8);
    /// ```
    pub fn new(
        alloc: Global,
        nfa: NFA,
        back: backtrack::Config,
        pike: pikevm::Config,
    ) -> Result<Choice, SearchError>
        ensures made { IfOk result (λ made. made ≡ record {
          nfa = nfa;
          visited_capacity = back;
          match_kind = pike;
          back = empty_cache;
          pike = cache_for nfa;
          ran = None;
        }) }
        ensures memory { IsOkUnless result SearchError.Memory }
    {
        let Ok(copy) = nfa.clone() else {
            return Err(SearchError::Memory);
        };
        let back = backtracker(back, copy);
        let pike = pikevm(pike, nfa);
        let back_cache = back.create_cache(alloc);
        let pike_cache = pike.create_cache(alloc)?;
        Ok(Choice {
            back,
            pike,
            back_cache,
            pike_cache,
            ran: None,
        })
    }

    /// Returns the engine that gave the answer of the last search, including searches of an iteration. Returns `None`
    /// before the first search.
    ///
    /// ```
    /// // choice of "foo(?<n>[0-9]+)"
    /// choice.find(Input::new(b"foo12345"));
    /// assert_eq!(rt; choice.ran(), Some(Engine::Backtracker));
    /// choice.find(Input::new(b"foo12345").earliest(true));
    /// assert_eq!(rt; choice.ran(), Some(Engine::PikeVM));
    /// ```
    pub fn ran(&self) -> Option<Engine>
        ensures { result ≡ self.now.ran }
    {
        let Choice { ran, .. } = self;
        *ran
    }

    /// Returns the NFA.
    ///
    /// ```
    /// // choice of "foo(?<n>[0-9]+)"
    /// assert_eq!(rt; choice.get_nfa().group_info().slot_len(), 4);
    /// ```
    pub fn get_nfa(&self) -> &NFA
        ensures { result.now ≡ self.now.nfa }
    {
        self.back.get_nfa()
    }

    /// Returns the configuration of the backtracker.
    ///
    /// ```
    /// let capacity = choice.get_backtrack_config().get_visited_capacity();
    /// assert_eq!(rt; capacity, 256 * 1024);
    /// ```
    pub fn get_backtrack_config(&self) -> &backtrack::Config
        ensures { result.now ≡ self.now.visited_capacity }
    {
        self.back.get_config()
    }

    /// Returns the configuration of the PikeVM.
    ///
    /// ```
    /// // choice of [r"\w+", r"\d+", r"\pL+", "foo", "bar", "barfoo", "foobar"], with MatchKind::All
    /// assert_eq!(rt; choice.get_pikevm_config().get_match_kind(), MatchKind::All);
    /// ```
    pub fn get_pikevm_config(&self) -> &pikevm::Config
        ensures { result.now ≡ self.now.match_kind }
    {
        self.pike.get_config()
    }

    /// Returns the bytes that the entries of both caches take. The sum saturates at `usize::MAX`.
    ///
    /// ```
    /// // choice of "foo(?<n>[0-9]+)"
    /// let before = choice.memory_usage();
    /// choice.find(Input::new(b"foo12345"));
    /// assert!(rt; choice.memory_usage() > before);
    /// ```
    pub fn memory_usage(&self) -> usize
        ensures { result ≡ bytes_of self.now }
    {
        let back = self.back_cache.memory_usage();
        back.saturating_add(self.pike_cache.memory_usage())
    }

    /// Returns whether the search is one for the backtracker.
    fn is_for_backtracker(&self, input: &Input<'_>) -> bool
        ensures { result ≡ is_for_backtracker self.now (search_of input.now) }
    {
        !input.get_earliest()
            && self.pike.get_config().get_match_kind() == MatchKind::LeftmostFirst
            && input.get_span().len() <= self.back.max_haystack_len()
    }

    /// Searches, and writes byte offsets to the slots, as both engines do. Any number of slots may be given. Slots that
    /// the NFA does not have are set to `None`, and so are all slots if nothing matches.
    ///
    /// ```
    /// // choice of [r"\pL+", r"\d+"]
    /// let mut slots = [None; 4];
    /// let pattern = choice.search_slots(&Input::new(b"!@#123"), &mut slots);
    /// assert_eq!(rt; pattern.expect(rt, "a match").as_usize(), 1);
    /// let wanted = [None, None, NonMaxUsize::new(3), NonMaxUsize::new(6)];
    /// assert_eq!(rt; slots, wanted);
    /// ```
    pub fn search_slots(
        &mut self,
        input: &Input<'_>,
        slots: &mut [Option<NonMaxUsize>],
    ) -> Option<PatternID>
        ensures answer { IsAnswer self.old.nfa (kind_in self.old) (search_of input.now).earliest (search_of input.now)
            (option_map number_of result) slots.new }
        ensures runs { RunsByRule self.old (search_of input.now) (search_of input.now).earliest self.new }
        ensures writes { WritesSlots self.old.nfa (search_of input.now) result slots.old slots.new }
        ensures holds { HoldsNoMore 0 self.old.back self.new.back }
        ensures keeps { KeepsEngines self.old self.new }
    {
        if self.is_for_backtracker(input) {
            if let Ok(pattern) = self
                .back
                .try_search_slots(&mut self.back_cache, input, slots)
            {
                self.ran = Some(Engine::Backtracker);
                return pattern;
            }
        }
        self.ran = Some(Engine::PikeVM);
        self.pike.search_slots(&mut self.pike_cache, input, slots)
    }

    /// Searches, and writes the result to the captures: the pattern that matched, and the slots that
    /// [`Choice::search_slots`] returns for that number of slots. Their groups do not change. If nothing matches, no
    /// pattern and no slot is set. The captures may be of another NFA.
    ///
    /// ```
    /// // choice of "foo(?<n>[0-9]+)"
    /// let mut captures = choice.create_captures(alloc)?;
    /// choice.search(&Input::new(b"foo12345"), &mut captures);
    /// let digits = captures.get_group_by_name("n");
    /// assert_eq!(rt; digits, Some(Span { start: 3, end: 8 }));
    /// ```
    pub fn search(&mut self, input: &Input<'_>, captures: &mut Captures)
        ensures answer { IsAnswer self.old.nfa (kind_in self.old) (search_of input.now).earliest (search_of input.now)
            captures.new.pattern captures.new.slots }
        ensures runs { RunsByRule self.old (search_of input.now) (search_of input.now).earliest self.new }
        ensures fills { FillsCaptures self.old.nfa (search_of input.now) captures.old captures.new }
        ensures holds { HoldsNoMore 0 self.old.back self.new.back }
        ensures keeps { KeepsEngines self.old self.new }
    {
        if self.is_for_backtracker(input) {
            if let Ok(()) = self.back.try_search(&mut self.back_cache, input, captures) {
                self.ran = Some(Engine::Backtracker);
                return;
            }
        }
        self.ran = Some(Engine::PikeVM);
        self.pike.search(&mut self.pike_cache, input, captures);
    }

    /// Returns the match that a search of the input finds, in byte offsets into the haystack.
    ///
    /// ```
    /// // choice of "foo(?<n>[0-9]+)"
    /// let found = choice.find(Input::new(b"foo12345"));
    /// assert_eq!(rt; found.expect(rt, "a match").range(), 0..8);
    /// ```
    pub fn find<'h>(&mut self, input: Input<'h>) -> Option<Match>
        ensures answer { IsFindAnswer self.old.nfa (kind_in self.old) (search_of input.entry).earliest
            (search_of input.entry)
            (option_map found_of result) }
        ensures pattern { IfSome result (λ m. (found_of m).pattern < length self.old.nfa.patterns) }
        ensures inside { IfSome result (λ m. IsInside (search_of input.entry) (found_of m)) }
        ensures runs { RunsByRule self.old (search_of input.entry) (search_of input.entry).earliest self.new }
        ensures holds { HoldsNoMore (2 * length self.old.nfa.groups) self.old.back self.new.back }
        ensures keeps { KeepsEngines self.old self.new }
    {
        if self.is_for_backtracker(&input) {
            if let Ok(found) = self.back.try_find(&mut self.back_cache, input) {
                self.ran = Some(Engine::Backtracker);
                return found;
            }
        }
        self.ran = Some(Engine::PikeVM);
        self.pike.find(&mut self.pike_cache, input)
    }

    /// Returns whether a search of the input finds a match. The `earliest` flag of the input does not change the
    /// answer.
    ///
    /// ```
    /// // choice of "foo(?<n>[0-9]+)"
    /// assert!(rt; choice.is_match(Input::new(b"foo12345")));
    /// assert!(rt; !choice.is_match(Input::new(b"foobar")));
    /// ```
    pub fn is_match<'h>(&mut self, input: Input<'h>) -> bool
        ensures answer { IsBoolAnswer self.old.nfa (kind_in self.old) false (search_of input.entry) result }
        ensures finds { result ≡ finds_in self.old (search_of input.entry) }
        ensures runs { RunsByRule self.old (search_of input.entry) (not (is_utf8_empty self.old.nfa)) self.new }
        ensures holds { HoldsNoMore 0 self.old.back self.new.back }
        ensures keeps { KeepsEngines self.old self.new }
    {
        if self.is_for_backtracker(&input) {
            if let Ok(found) = self.back.try_is_match(&mut self.back_cache, input) {
                self.ran = Some(Engine::Backtracker);
                return found;
            }
        }
        self.ran = Some(Engine::PikeVM);
        self.pike.is_match(&mut self.pike_cache, input)
    }

    /// Replaces the NFA. The configurations stay. The only error is `Memory`. After an error the choice is unchanged.
    ///
    /// ```
    /// // nfa of r"\W"
    /// choice.replace(nfa)?;
    /// assert!(rt; choice.is_match(Input::new("☃".as_bytes())));
    /// ```
    pub fn replace(&mut self, nfa: NFA) -> Result<(), SearchError>
        ensures made { OnOk result (self.new ≡ record self.old { nfa = nfa; pike = self.new.pike }) }
        ensures reset_for { OnOk result (IsFitFor self.old.pike nfa self.new.pike) }
        ensures kept { OnErr result (self.new ≡ self.old) }
        ensures memory { IsOkUnless result SearchError.Memory }
    {
        let Ok(copy) = nfa.clone() else {
            return Err(SearchError::Memory);
        };
        let back = backtracker(*self.back.get_config(), copy);
        let pike = pikevm(*self.pike.get_config(), nfa);
        if !self.pike_cache.fits(&pike) {
            self.pike_cache.reset(&pike)?;
        }
        self.back = back;
        self.pike = pike;
        Ok(())
    }
}
