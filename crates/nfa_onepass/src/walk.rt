//! The walk over a span.
ghost use Rattle.std.specs.Prelude.{◌≡◌, ◌<◌, ◌≤◌, IfNone, IfOk, IfSome, IsErrOf, None, Some, false, length, option_map};
ghost use Rattle.std.specs.Prelude.{replicate, slice_get, true, ℕ};
ghost use Rattle.regex_search_core.specs.Search.{is_anchored, search_of};
ghost use Rattle.regex_search_core.specs.declared.search.MatchKind.TheVariants.{LeftmostFirst};
ghost use Rattle.nfa_paths.specs.Paths.{IsAnswer, is_utf8_empty, start_state};
ghost use Rattle.regex_search_core.specs.PatternSets.{number_of};
ghost use Rattle.nfa_paths.specs.Exploring.{Slots};
ghost use Rattle.nfa_onepass.specs.Ways.{IsDead, IsNowhere, IsOnly, IsWhole, write_each};
ghost use Rattle.nfa_onepass.specs.Lists.{HasEmptyList, list_at};
ghost use Rattle.nfa_onepass.specs.Tables.{IsFor, IsWalking, Takes, limit_of, state_at};
ghost use Rattle.nfa_onepass.specs.declared.table.Row.{Row};

use crate::lists::NO_SLOTS;
use crate::table::{Cell, END, NOTHING, OnePass, Row, has_only_ends};
use crate::way::NoWay;
use nfa_scan_core::starts::start_state;
use nfa_scan_core::transitions::byte_at;
use regex_search_core::{Input, NonMaxUsize, PatternID};
use thompson_nfa::NFA;

/// The sum of misses from which on a walk is not worth its time. A search that meets a step that is not sure adds two,
/// and one that meets none takes one off.
const MAX_MISSES: u32 = 16;

/// Sets each of these slots to the position.
#[inline(always)]
fn write_each(list: &[usize], slots: &mut [Option<NonMaxUsize>], at: usize)
    requires { at < usize.MAX }
    ensures { slots.new ≡ write_each list.now at slots.old }
{
    for slot in list {
        if *slot < slots.len() {
            slots[*slot] = NonMaxUsize::new(at);
        }
    }
}

/// Unsets all slots.
fn unset(slots: &mut [Option<NonMaxUsize>])
    ensures { slots.new ≡ replicate (length slots.old) None }
{
    slots.fill(None);
}

/// Where a walk is: a position, and the row there.
#[derive(Clone, Copy)]
struct Place {
    at: usize,
    row: u32,
}

/// The cell of the byte in the row, which always has one.
#[inline(always)]
fn cell_of(rows: &[Row], row: u32, byte: u8) -> Option<Cell>
    requires { row < length rows.now }
    ensures { IfSome result (λ cell. (r : Row) → slice_get rows.now row ≡ Some r
        → slice_get r.cells byte ≡ Some cell) }
{
    let cell = rows[row as usize].cells.get(byte as usize)?;
    Some(*cell)
}

/// Whether the search is anchored, its span ends with the haystack, and a match may end anywhere.
fn is_whole(nfa: &NFA, input: &Input<'_>) -> bool
    ensures anchored { result ≡ true → is_anchored (search_of input.now).anchored ≡ true }
    ensures order { result ≡ true → (search_of input.now).start ≤ (search_of input.now).end }
    ensures end { let x = search_of input.now in result ≡ true → x.end ≡ length x.haystack }
    ensures anywhere { result ≡ true → is_utf8_empty nfa.now ≡ false }
{
    input.get_anchored().is_anchored()
        && !input.is_done()
        && input.end() == input.haystack().len()
        && !(nfa.has_empty() && nfa.is_utf8())
}

/// The pattern of this number.
fn pattern_of(goal: u32) -> Option<PatternID>
    ensures { IfSome result (λ p. number_of p ≡ goal) }
{
    PatternID::new(goal as usize)
}

impl OnePass {
    /// Returns whether a search is worth its time: there is room for steps, and earlier searches met sure steps often
    /// enough.
    pub fn is_on(&self) -> bool {
        self.most_rows > 0 && self.misses < MAX_MISSES
    }

    /// Writes the slots of each path through the NFA that begins at the start of the span and ends at its end with a
    /// match, and returns their pattern, as far as each step is sure. Returns `None` if one is not.
    pub fn search_span(
        &mut self,
        nfa: &NFA,
        input: &Input<'_>,
        slots: &mut [Option<NonMaxUsize>],
    ) -> Option<PatternID>
        requires own { IsFor nfa.now self.old }
        ensures own { IsFor nfa.now self.new }
        ensures limit { limit_of self.new ≡ limit_of self.old }
        ensures only { IfSome result (λ p. IsOnly nfa.now (search_of input.now) (number_of p) slots.new) }
    {
        if input.is_done() {
            return None;
        }
        self.refresh(nfa);
        let found = self.walk_span(nfa, input, slots).ok();
        self.count(found.is_some());
        found
    }

    /// Writes the slots of the answer of a search that takes the leftmost first match and not `earliest`, and returns
    /// its pattern, if sure steps lead from the start of the span to a match at its end and no match ends before it.
    /// Returns `Some(None)`, with no slot set, if they lead to where nothing goes on: nothing matches. Otherwise it
    /// returns `None`.
    ///
    /// Only an anchored search has such an answer, of a span that ends with the haystack, by an NFA whose only
    /// assertion, if any, is that of the end of the haystack. If the NFA can match the empty string, it must not be in
    /// UTF-8 mode.
    pub fn search_whole(
        &mut self,
        nfa: &NFA,
        input: &Input<'_>,
        slots: &mut [Option<NonMaxUsize>],
    ) -> Option<Option<PatternID>>
        requires own { IsFor nfa.now self.old }
        ensures own { IsFor nfa.now self.new }
        ensures limit { limit_of self.new ≡ limit_of self.old }
        ensures answer { let x = search_of input.now in IfSome result (λ found.
            IsAnswer nfa.now LeftmostFirst false x (option_map number_of found) slots.new) }
        ensures unmatched { IfSome result (λ found. IfNone found (slots.new ≡ replicate (length slots.old) None)) }
    {
        if !is_whole(nfa, input) || !self.answers_alone(nfa) {
            return None;
        }
        let found = match self.walk_span(nfa, input, slots) {
            Ok(pattern) => Some(pattern),
            Err(NoWay::Nothing) => {
                unset(slots);
                None
            }
            Err(NoWay::Unsure | NoWay::Match) => return None,
        };
        self.count(true);
        Some(found)
    }

    /// Returns whether steps pass no assertion, so that they may answer a search alone. If they may from now on, all
    /// that are known are forgotten.
    fn answers_alone(&mut self, nfa: &NFA) -> bool
        requires own { IsFor nfa.now self.old }
        ensures own { IsFor nfa.now self.new }
        ensures limit { self.new.setup.limit ≡ self.old.setup.limit }
        ensures looks { result ≡ true → self.new.setup.looks ≡ false }
    {
        if !self.may_answer {
            return false;
        }
        if self.setup.looks {
            self.may_answer = has_only_ends(nfa);
            if !self.may_answer {
                return false;
            }
            self.rows.clear();
            self.setup.looks = false;
        }
        true
    }

    /// Forgets all steps if they pass no assertion and cannot answer a search alone. From then on they may pass one.
    fn refresh(&mut self, nfa: &NFA)
        requires own { IsFor nfa.now self.old }
        ensures own { IsFor nfa.now self.new }
        ensures limit { limit_of self.new ≡ limit_of self.old }
    {
        if !self.may_answer && !self.setup.looks {
            self.rows.clear();
            self.setup.looks = true;
        }
    }

    /// Counts a search.
    fn count(&mut self, found: bool)
        ensures rows { self.new.rows ≡ self.old.rows }
        ensures lists { self.new.lists ≡ self.old.lists }
        ensures setup { self.new.setup ≡ self.old.setup }
        ensures most { self.new.most_rows ≡ self.old.most_rows }
    {
        self.misses = if found {
            self.misses.saturating_sub(1)
        } else {
            self.misses.saturating_add(2)
        };
    }

    /// Writes the slots of each path over the span, as [`OnePass::search_span`] does. The span is not past its end.
    fn walk_span(
        &mut self,
        nfa: &NFA,
        input: &Input<'_>,
        slots: &mut [Option<NonMaxUsize>],
    ) -> Result<PatternID, NoWay>
        requires own { IsFor nfa.now self.old }
        requires order { (search_of input.now).start ≤ (search_of input.now).end }
        ensures own { IsFor nfa.now self.new }
        ensures setup { self.new.setup ≡ self.old.setup }
        ensures only { IfOk result (λ p. IsOnly nfa.now (search_of input.now) (number_of p) slots.new) }
        ensures whole { let x = search_of input.now in self.old.setup.looks ≡ false → x.end ≡ length x.haystack
            → IfOk result (λ p. IsWhole nfa.now x (number_of p) slots.new) }
        ensures nothing { self.old.setup.looks ≡ false → IsErrOf result NoWay.Nothing
            → IsNowhere nfa.now (search_of input.now) }
    {
        let Some(first) = self.first_row(nfa, input) else {
            return Err(NoWay::Unsure);
        };
        unset(slots);
        let row = self.walk(nfa, input, first, slots)?;
        let cell = self.cell(nfa, row, END)?;
        if !self.write_list(cell.list, slots, input.end()) {
            return Err(NoWay::Unsure);
        }
        match pattern_of(cell.goal) {
            Some(pattern) => Ok(pattern),
            None => Err(NoWay::Unsure),
        }
    }

    /// The row of the state that the search begins with.
    fn first_row(&mut self, nfa: &NFA, input: &Input<'_>) -> Option<u32>
        requires own { IsFor nfa.now self.old }
        ensures own { IsFor nfa.now self.new }
        ensures setup { self.new.setup ≡ self.old.setup }
        ensures row { IfSome result (λ row.
            (s : ℕ) × (start_state nfa.now (search_of input.now).anchored ≡ Some s)
            × (state_at self.new.rows.items row ≡ Some s)) }
    {
        let sid = start_state(nfa, input)?;
        self.row_of(nfa, sid)
    }

    /// Goes over the bytes of the span. Returns the row at its end.
    fn walk(
        &mut self,
        nfa: &NFA,
        input: &Input<'_>,
        first: u32,
        slots: &mut [Option<NonMaxUsize>],
    ) -> Result<u32, NoWay>
        requires own { IsFor nfa.now self.old }
        requires order { (search_of input.now).start ≤ (search_of input.now).end }
        requires walking { IsWalking nfa.now (search_of input.now) self.old first (search_of input.now).start
            slots.old }
        ensures own { IsFor nfa.now self.new }
        ensures setup { self.new.setup ≡ self.old.setup }
        ensures walking { IfOk result (λ row.
            IsWalking nfa.now (search_of input.now) self.new row (search_of input.now).end slots.new) }
        ensures nothing { self.old.setup.looks ≡ false → IsErrOf result NoWay.Nothing
            → IsNowhere nfa.now (search_of input.now) }
    {
        let mut place = self.pass(nfa, input, first, input.start());
        while place.at < input.end() {
            let Some(byte) = byte_at(input, place.at) else {
                return Err(NoWay::Unsure);
            };
            let row = self.step_over(nfa, place.row, byte, place.at, slots)?;
            place = self.pass(nfa, input, row, place.at + 1);
        }
        Ok(place.row)
    }

    /// Goes over the bytes from this position on whose steps are known and write no slot. Returns the position of the
    /// first other byte, or the end of the span, and the row there.
    #[inline(always)]
    fn pass(&self, nfa: &NFA, input: &Input<'_>, first: u32, from: usize) -> Place
        requires own { IsFor nfa.now self.now }
        requires row { first < length self.now.rows.items }
        requires from { from ≤ (search_of input.now).end }
        ensures low { from ≤ result.at }
        ensures high { result.at ≤ (search_of input.now).end }
        ensures walking { (slots : Slots) → IsWalking nfa.now (search_of input.now) self.now first from slots
            → IsWalking nfa.now (search_of input.now) self.now result.row result.at slots }
    {
        let rows = self.rows.as_slice();
        let haystack = input.haystack();
        let end = input.end();
        let mut row = first;
        let mut at = from;
        while at < end {
            let Some(cell) = cell_of(rows, row, haystack[at]) else {
                break;
            };
            if cell.list != NO_SLOTS || cell.goal >= NOTHING {
                break;
            }
            at += 1;
            if cell.goal == row {
                at = self.stay(nfa, input, row, at);
            }
            row = cell.goal;
        }
        Place { at, row }
    }

    /// Goes over the bytes from this position on whose steps lead back to the row and write no slot. Returns the
    /// position of the first other byte, or the end of the span. Most bytes of a group are read here.
    #[inline(always)]
    fn stay(&self, nfa: &NFA, input: &Input<'_>, row: u32, from: usize) -> usize
        requires own { IsFor nfa.now self.now }
        requires row { row < length self.now.rows.items }
        requires from { from ≤ (search_of input.now).end }
        ensures low { from ≤ result }
        ensures high { result ≤ (search_of input.now).end }
        ensures walking { (slots : Slots) → IsWalking nfa.now (search_of input.now) self.now row from slots
            → IsWalking nfa.now (search_of input.now) self.now row result slots }
    {
        let rows = self.rows.as_slice();
        let haystack = input.haystack();
        let end = input.end();
        let mut at = from;
        while at < end {
            let Some(cell) = cell_of(rows, row, haystack[at]) else {
                break;
            };
            if cell.goal != row || cell.list != NO_SLOTS {
                break;
            }
            at += 1;
        }
        at
    }

    /// Sets each slot of the list to the position. Returns whether there is such a list.
    #[inline(always)]
    fn write_list(&self, list: u32, slots: &mut [Option<NonMaxUsize>], at: usize) -> bool
        requires at { at < usize.MAX }
        requires first { HasEmptyList self.now.lists.items.items }
        ensures { result ≡ true → slots.new ≡ write_each (list_at self.now.lists.items.items list) at slots.old }
    {
        if list == NO_SLOTS {
            return true;
        }
        match self.lists.get(list) {
            Some(list) => {
                write_each(list, slots, at);
                true
            }
            None => false,
        }
    }

    /// Takes the step over the byte at the position. Returns the row that it leads to.
    #[inline(always)]
    fn step_over(
        &mut self,
        nfa: &NFA,
        row: u32,
        byte: u8,
        at: usize,
        slots: &mut [Option<NonMaxUsize>],
    ) -> Result<u32, NoWay>
        requires own { IsFor nfa.now self.old }
        requires at { at < usize.MAX }
        ensures own { IsFor nfa.now self.new }
        ensures setup { self.new.setup ≡ self.old.setup }
        ensures takes { (s : ℕ) → state_at self.old.rows.items row ≡ Some s
            → IfOk result (Takes nfa.now self.new s byte at slots.old slots.new) }
        ensures nothing { (s : ℕ) → state_at self.old.rows.items row ≡ Some s → IsErrOf result NoWay.Nothing
            → IsDead nfa.now self.old.setup.looks s (Some byte) }
    {
        let cell = self.cell(nfa, row, byte as usize)?;
        if !self.write_list(cell.list, slots, at) {
            return Err(NoWay::Unsure);
        }
        Ok(cell.goal)
    }
}
