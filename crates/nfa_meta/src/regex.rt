//! The engine that runs a lazy DFA first, and an engine of `nfa_choice` for the match in its window.
ghost use Rattle.std.specs.Prelude.{◌≡◌, ◌*◌, ◌<◌, ◌≤◌, IfOk, IfSome, IsOkUnless, None, false, length, not, option_map};
ghost use Rattle.regex_search_core.specs.Found.{found_of, half_found_of};
ghost use Rattle.regex_search_core.specs.PatternSets.{number_of};
ghost use Rattle.regex_search_core.specs.Search.{search_of};
ghost use Rattle.regex_search_core.specs.declared.search.MatchKind.TheVariants.{LeftmostFirst};
ghost use Rattle.nfa_paths.specs.Paths.{IsAnswer, IsBoolAnswer, IsFindAnswer, IsHalfAnswer, max_scans};
ghost use Rattle.nfa_paths.specs.Starts.{IsUnbound, MatchesNothing};
ghost use Rattle.nfa_search_base.specs.Lists.{IsInside};
ghost use Rattle.nfa_choice.specs.Answered.{WritesSlots};
ghost use Rattle.nfa_choice.specs.ChoiceState.{finds_in, kind_in};
ghost use Rattle.nfa_lazy_dfa.specs.Configs.{kind_in as config_kind, kind_of, nfa_of};
ghost use Rattle.nfa_lazy_dfa.specs.Limits.{capacity_in, max_clears_in};
ghost use Rattle.nfa_lazy_dfa.specs.Rows.{capacity_of, max_clears_of};
ghost use Rattle.nfa_meta.specs.Built.{default_settings, regex_of, unsearched};
ghost use Rattle.nfa_meta.specs.RegexState.{KeepsRegex};
ghost use Rattle.nfa_meta.specs.Work.{WorksWithin};

mod at;
mod captures;
mod captures_iter;
mod counts;
mod fill;
mod find_iter;
mod groups;
mod half_matches;
mod match_slots;
mod may_begin;
mod overlap;
mod prefix;
mod quick;
mod replace;
mod rewrite;
mod runs;
mod search;
mod shown;
mod split;
mod split_iter;
mod start;
mod static_len;
mod texts;
mod unwritten;
mod window;

use crate::builder::{Config, Texts};
pub use captures_iter::CapturesMatches;
pub use find_iter::FindMatches;
pub use half_matches::HalfMatches;
use nfa_choice::choose::Choice;
use nfa_engines::error::SearchError;
use nfa_engines::pikevm;
use nfa_facts::{Literals, records_match_spans};
use nfa_lazy_dfa::{Cache, DFA};
use nfa_onepass::OnePass;
use regex_search_core::{HalfMatch, Input, Match, MatchKind, NonMaxUsize, PatternID};
pub use split_iter::{Split, SplitN};
use std::alloc::Global;
use std::marker::Model;
use thompson_nfa::NFA;

/// A search engine for one NFA over a lazy DFA and the two engines of a [`Choice`]. It searches leftmost first, and
/// never fails.
///
/// The DFA searches first. It gives the ends of matches, and for spans and groups a window in which the [`Choice`]
/// finds the match. If the DFA stops without an answer, the [`Choice`] searches the whole input. Contracts see the
/// settings, the bytes that the rows of the DFA take, and what they see of the [`Choice`], which does not change if the
/// DFA answers.
pub struct Regex {
    config: Config,
    texts: Texts,
    dfa: DFA,
    cache: Cache,
    choice: Choice,
    /// Finds the slots of a match whose span is known.
    one_pass: OnePass,
    /// Each way to a match writes where the match starts and ends.
    records_spans: bool,
    /// What each match begins with.
    literals: Literals,
    /// One of the last matches was at the first start of its search, so the next one may be, too.
    matched_at_first: bool,
    /// How many of the last matches were elsewhere.
    misses: u8,
    /// The last match that a window had was where the literals said that it may start, further on than its search.
    matched_at_literal: bool,
}

// Written out, so that a drop is one call in a proof, and not one for each field.
impl Drop for Regex {
    fn drop(self) {
        let Regex {
            config: _,
            texts: _,
            dfa: _,
            cache: _,
            choice: _,
            one_pass: _,
            records_spans: _,
            literals: _,
            matched_at_first: _,
            misses: _,
            matched_at_literal: _,
        } = self;
    }
}

impl Model for Regex {
    ghost use Rattle.std.specs.Prelude.{◌≡◌, ◌≤◌, true};
    ghost use Rattle.regex_search_core.specs.declared.search.MatchKind.TheVariants.{LeftmostFirst};
    ghost use Rattle.nfa_lazy_dfa.specs.Configs.{default_clears, kind_of, nfa_of};
    ghost use Rattle.nfa_lazy_dfa.specs.Rows.{IsFor, capacity_of, max_clears_of, memory_of, stops_of};
    ghost use Rattle.nfa_choice.specs.ChoiceState.{kind_in};
    ghost use Rattle.nfa_facts.specs.StatePaths.{RecordsMatchSpans};
    ghost use Rattle.nfa_facts.specs.Literals.{AreLiteralsOf};
    ghost use Rattle.thompson_nfa.specs.Automaton.{IsAutomaton};
    ghost use Rattle.nfa_onepass.specs.Tables.{IsFor as IsTableFor, limit_of, memory_of as steps_memory_of};
    ghost use Rattle.nfa_meta.specs.RegexState.{RegexState, row_capacity, step_capacity};

    ghost Value = { RegexState };

    ghost view = { λ r. record {
      choice = r.choice;
      config = r.config;
      texts = r.texts;
      rows = memory_of r.cache;
      stops = stops_of r.cache;
      steps = steps_memory_of r.one_pass;
    } };

    ghost invariant = { λ r. (nfa_of r.dfa ≡ r.choice.nfa) × (kind_of r.dfa ≡ LeftmostFirst)
        × (capacity_of r.dfa ≡ row_capacity r.config) × (max_clears_of r.dfa ≡ default_clears)
        × (memory_of r.cache ≤ row_capacity r.config)
        × (kind_in r.choice ≡ LeftmostFirst) × IsFor r.cache r.dfa
        × (r.config.backtrack_visited_capacity ≡ r.choice.visited_capacity)
        × IsAutomaton r.choice.nfa × (r.records_spans ≡ true → RecordsMatchSpans r.choice.nfa)
        × AreLiteralsOf r.choice.nfa r.literals
        × IsTableFor r.choice.nfa r.one_pass × (limit_of r.one_pass ≡ step_capacity r.config) };
}

/// Makes a lazy DFA of the NFA.
fn lazy_dfa(config: nfa_lazy_dfa::Config, nfa: NFA) -> DFA
    ensures nfa { nfa_of result ≡ nfa }
    ensures kind { kind_of result ≡ config_kind config }
    ensures capacity { capacity_of result ≡ capacity_in config }
    ensures clears { max_clears_of result ≡ max_clears_in config }
{
    let mut builder = DFA::builder();
    builder.configure(config);
    match builder.build_from_nfa(nfa) {
        Ok(dfa) => dfa,
        Err(_) => unreachable!(),
    }
}

impl Regex {
    /// Makes the engines for the NFA, with the default settings of [`Config`] and empty caches. The only error is
    /// `Memory`.
    ///
    /// ```
    /// let nfa = Compiler::new().build(alloc, "foo[0-9]+")?;
    /// let mut regex = Regex::new_from_nfa(alloc, nfa)?;
    /// let found = regex.find(Input::new(b"foo12345"));
    /// assert_eq!(rt; found.expect(rt, "a match").range(), 0..8);
    /// ```
    pub fn new_from_nfa(alloc: Global, nfa: NFA) -> Result<Regex, SearchError>
        ensures made { IfOk result (λ made. made ≡ regex_of nfa default_settings) }
        ensures memory { IsOkUnless result SearchError.Memory }
    {
        Regex::from_parts(alloc, nfa, Config::new())
    }

    /// Returns a regex for the same NFA with the same settings and texts and empty caches, for instance for another
    /// thread. The only error is `Memory`.
    ///
    /// ```
    /// // regex of "foo[0-9]+"
    /// let mut copy = regex.clone(alloc)?;
    /// let found = copy.find(Input::new(b"foo12345"));
    /// assert_eq!(rt; found.expect(rt, "a match").range(), 0..8);
    /// ```
    pub fn clone(&self, alloc: Global) -> Result<Regex, SearchError>
        ensures made { IfOk result (λ made. made ≡ unsearched self.now) }
        ensures capacity { IfOk result (λ made.
            made.choice.visited_capacity ≡ self.now.choice.visited_capacity) }
        ensures memory { IsOkUnless result SearchError.Memory }
    {
        let Ok(nfa) = self.get_nfa().clone() else {
            return Err(SearchError::Memory);
        };
        let Ok(texts) = self.texts.clone(alloc) else {
            return Err(SearchError::Memory);
        };
        let made = Regex::from_parts(alloc, nfa, self.config)?;
        Ok(made.with_texts(texts))
    }

    /// Makes the engines for the NFA, with these settings and empty caches. The only error is `Memory`.
    pub(crate) fn from_parts(alloc: Global, nfa: NFA, config: Config) -> Result<Regex, SearchError>
        ensures made { IfOk result (λ made. made ≡ regex_of nfa config) }
        ensures memory { IsOkUnless result SearchError.Memory }
    {
        let Ok(copy) = nfa.clone() else {
            return Err(SearchError::Memory);
        };
        let dfa = lazy_dfa(config.lazy_dfa(MatchKind::LeftmostFirst), copy);
        let Ok(cache) = dfa.create_cache(alloc) else {
            return Err(SearchError::Memory);
        };
        let Ok(records_spans) = records_match_spans(alloc, &nfa) else {
            return Err(SearchError::Memory);
        };
        let Ok(literals) = Literals::new(alloc, &nfa) else {
            return Err(SearchError::Memory);
        };
        let Ok(one_pass) = OnePass::new(alloc, &nfa, config.step_limit()) else {
            return Err(SearchError::Memory);
        };
        let choice = Choice::new(alloc, nfa, config.backtracker(), pikevm::Config::new())?;
        Ok(Regex {
            config,
            texts: Texts::none(alloc),
            dfa,
            cache,
            choice,
            one_pass,
            records_spans,
            literals,
            matched_at_first: true,
            misses: 0,
            matched_at_literal: false,
        })
    }

    /// Returns the match that a search of the input finds, in byte offsets into the haystack.
    ///
    /// If one of the last matches was at the first start of its search, or where the literals of the NFA said, the lazy
    /// DFA tries that start of this one, over the rows that it has. If it does not match there, the DFA scans on to the
    /// first end of a match, from where the literals say that a match may start, and tries the first starts after the
    /// last position at which no match had begun. If it matches at none of them, it finds the end of the match, and the
    /// [`Choice`] searches the window between the two. So the work of the slower engines depends on the window, and not
    /// on the haystack. There is no window if the search is anchored or `earliest`, or if the NFA is anchored. The DFA
    /// alone then answers an anchored search. The [`Choice`] searches the whole input otherwise, and if the DFA stops.
    /// It also does if the NFA can match the empty string and is in UTF-8 mode, and the match starts at none of the
    /// first starts.
    ///
    /// ```
    /// // regex of "foo[0-9]+"
    /// let found = regex.find(Input::new(b"foo12345"));
    /// assert_eq!(rt; found.expect(rt, "a match").range(), 0..8);
    /// ```
    pub fn find<'h>(&mut self, input: Input<'h>) -> Option<Match>
        ensures answer { IsFindAnswer self.old.choice.nfa (kind_in self.old.choice) (search_of input.entry).earliest
            (search_of input.entry)
            (option_map found_of result) }
        ensures pattern { IfSome result (λ m. (found_of m).pattern < length self.old.choice.nfa.patterns) }
        ensures inside { IfSome result (λ m. IsInside (search_of input.entry) (found_of m)) }
        ensures work { let x = search_of input.entry in
            WorksWithin (max_scans self.old.choice.nfa x) (2 * length self.old.choice.nfa.groups) x self.old self.new }
        // If nothing matches, and the lazy DFA does not stop, no engine of the choice searches.
        ensures rests { let x = search_of input.entry in
            IsUnbound self.old.choice.nfa x → x.earliest ≡ false → MatchesNothing self.old.choice.nfa x
            → self.new.stops ≡ self.old.stops → self.new.choice ≡ self.old.choice }
        ensures keeps { KeepsRegex self.old self.new }
    {
        self.find_by_ref(&input)
    }

    /// Searches, and writes byte offsets to the slots, as both engines of the [`Choice`] do. Any number of slots may be
    /// given. Slots that the NFA does not have are set to `None`, and so are all slots if nothing matches.
    ///
    /// The engines run as for [`Regex::find`], so the groups cost what the window does. If the lazy DFA finds the
    /// match, and at each byte of it only one way through the NFA goes on, the groups are those of this way, and the
    /// [`Choice`] does not search. The lazy DFA need not search either for an anchored match that has to end with the
    /// haystack, as that of `(\w+)=(\S*)\z` has to.
    ///
    /// ```
    /// // regex of [r"\pL+", r"\d+"]
    /// let mut slots = [None; 4];
    /// let pattern = regex.search_slots(&Input::new(b"!@#123"), &mut slots);
    /// assert_eq!(rt; pattern.expect(rt, "a match").as_usize(), 1);
    /// let wanted = [None, None, NonMaxUsize::new(3), NonMaxUsize::new(6)];
    /// assert_eq!(rt; slots, wanted);
    /// ```
    pub fn search_slots(
        &mut self,
        input: &Input<'_>,
        slots: &mut [Option<NonMaxUsize>],
    ) -> Option<PatternID>
        ensures answer { IsAnswer self.old.choice.nfa (kind_in self.old.choice) (search_of input.now).earliest
            (search_of input.now) (option_map number_of result) slots.new }
        ensures writes { WritesSlots self.old.choice.nfa (search_of input.now) result slots.old slots.new }
        ensures work { let x = search_of input.now in
            WorksWithin (max_scans self.old.choice.nfa x) 0 x self.old self.new }
        // If nothing matches, and the lazy DFA does not stop, no engine of the choice searches.
        ensures rests { let x = search_of input.now in
            IsUnbound self.old.choice.nfa x → x.earliest ≡ false → MatchesNothing self.old.choice.nfa x
            → self.new.stops ≡ self.old.stops → self.new.choice ≡ self.old.choice }
        ensures keeps { KeepsRegex self.old self.new }
    {
        self.write_slots(input, slots)
    }

    /// Returns the pattern of the match that a search of the input finds, and the offset of its end. The NFA need not
    /// record where its matches start and end.
    ///
    /// ```
    /// // regex of "foo[0-9]+"
    /// let half = regex.find_half(Input::new(b"foo12345"));
    /// assert_eq!(rt; half.expect(rt, "a match").offset(), 8);
    /// ```
    pub fn find_half<'h>(&mut self, input: Input<'h>) -> Option<HalfMatch>
        ensures answer { IsHalfAnswer self.old.choice.nfa (kind_in self.old.choice) (search_of input.entry).earliest
            (search_of input.entry) (option_map half_found_of result) }
        ensures pattern { IfSome result (λ m. (half_found_of m).pattern < length self.old.choice.nfa.patterns) }
        ensures inside { IfSome result (λ m. ((search_of input.entry).start ≤ (half_found_of m).offset)
            × ((half_found_of m).offset ≤ (search_of input.entry).end)) }
        ensures work { let x = search_of input.entry in
            WorksWithin (max_scans self.old.choice.nfa x) 0 x self.old self.new }
        // If the lazy DFA does not stop, no engine of the choice searches.
        ensures rests { self.new.stops ≡ self.old.stops → self.new.choice ≡ self.old.choice }
        ensures keeps { KeepsRegex self.old self.new }
    {
        self.half_of(input)
    }

    /// Returns whether a search of the input finds a match. The `earliest` flag of the input does not change the
    /// answer.
    ///
    /// ```
    /// // regex of "foo[0-9]+"
    /// assert!(rt; regex.is_match(Input::new(b"foo12345")));
    /// assert!(rt; !regex.is_match(Input::new(b"foobar")));
    /// ```
    pub fn is_match<'h>(&mut self, input: Input<'h>) -> bool
        ensures answer { IsBoolAnswer self.old.choice.nfa (kind_in self.old.choice) false (search_of input.entry)
            result }
        ensures finds { result ≡ finds_in self.old.choice (search_of input.entry) }
        ensures work { let x = search_of input.entry in
            WorksWithin (max_scans self.old.choice.nfa x) 0 x self.old self.new }
        // If the lazy DFA does not stop, no engine of the choice searches.
        ensures rests { self.new.stops ≡ self.old.stops → self.new.choice ≡ self.old.choice }
        ensures keeps { KeepsRegex self.old self.new }
    {
        self.is_found(input)
    }
}
