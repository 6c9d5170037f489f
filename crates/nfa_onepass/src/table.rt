//! The table of sure steps: a row for each state that a walk came to, with a cell for each byte and one for the end.
ghost use Rattle.std.specs.Prelude.{◌≡◌, ℕ, ◌*◌, ◌<◌, ◌≤◌, IfOk, IfSome, IsErrOf, Some, length, min, true};
ghost use Rattle.nfa_onepass.specs.Tables.{IsAddedIf, IsCell, IsFor, IsFresh, IsReached, IsStep, KeepsRows, byte_of, limit_of};
ghost use Rattle.nfa_onepass.specs.Tables.{looks_over, memory_of, state_at};
ghost use Rattle.nfa_onepass.specs.Ways.{HasOnlyEnds, IsDead, IsOnlyEnd};
ghost use Rattle.thompson_nfa.specs.Automaton.{node_of};

use crate::lists::{Lists, NO_SLOTS};
use crate::way::{NoWay, Thread, WayEnd, only_way};
use regex_search_core::StateID;
use std::alloc::{AllocError, Global};
use thompson_nfa::{Look, NFA, State};

/// The number of cells of a row: one for each byte, and one for the end of the span.
pub const COLUMNS: usize = 257;

/// The column of the end of the span.
pub const END: usize = 256;

/// The goal of a cell whose step is not known yet.
const UNKNOWN: u32 = u32::MAX;

/// The goal of a cell whose step is not sure.
const UNSURE: u32 = u32::MAX - 1;

/// The goal of a cell over which no way leads. Goals of sure steps are below.
pub const NOTHING: u32 = u32::MAX - 2;

/// The maximum number of rows.
const MAX_ROWS: usize = 1024;

/// The bytes that a row takes.
const ROW_BYTES: usize = 2060;

/// A row that no state has.
const NO_ROW: u32 = u32::MAX;

/// A step: the row that it leads to, or at the end of the span the pattern, and the list of the slots that it writes.
#[derive(Clone, Copy)]
pub struct Cell {
    pub goal: u32,
    pub list: u32,
}

/// The steps from a state.
#[derive(Drop)]
pub struct Row {
    pub state: StateID,
    pub cells: [Cell; COLUMNS],
}

/// What a table is made for.
#[derive(Clone, Copy)]
pub struct Setup {
    /// The most bytes that rows and lists may take.
    limit: usize,
    /// Whether a step over a byte may pass an assertion. If not, the only assertion of the NFA is that of the end of
    /// the haystack, and no state that has a sure step leads to a match before it.
    pub(crate) looks: bool,
}

/// Sure steps of an NFA, as far as searches needed them.
#[derive(Drop)]
pub struct OnePass {
    pub(crate) rows: Vec<Row>,
    /// The row of each state, if it has one. It is compared before it is used.
    numbers: Vec<u32>,
    /// Lists of slots that a step writes. The first one is empty.
    pub(crate) lists: Lists,
    stack: Vec<Thread>,
    /// The number of rows that there is room for.
    pub(crate) most_rows: usize,
    pub(crate) setup: Setup,
    /// Whether steps that pass no assertion may answer a search alone, as far as is known.
    pub(crate) may_answer: bool,
    /// What searches that met a step that is not sure add, less what the others take off.
    pub(crate) misses: u32,
}

/// The byte of a column, or `None` for that of the end.
fn byte_of(column: usize) -> Option<u8>
    requires { column < 257 }
    ensures { result ≡ byte_of column }
{
    if column < END {
        Some(column as u8)
    } else {
        None
    }
}

/// The most rows that take no more than these bytes.
fn rows_within(bytes: usize) -> usize
    ensures within { 2060 * result ≤ bytes }
    ensures few { result ≤ 1024 }
{
    (bytes / ROW_BYTES).min(MAX_ROWS)
}

/// Whether an assertion of the state, if it has one, is that of the end of the haystack.
fn is_only_end(state: &State) -> bool
    ensures { result ≡ true → IsOnlyEnd (node_of state.now) }
{
    match state {
        State::Look { look, .. } => matches!(look, Look::End),
        _ => true,
    }
}

/// Whether each assertion of the NFA is that of the end of the haystack.
pub fn has_only_ends(nfa: &NFA) -> bool
    ensures { result ≡ true → HasOnlyEnds nfa.now }
{
    for state in nfa.states() {
        if !is_only_end(state) {
            return false;
        }
    }
    true
}

/// A row of the state, without steps.
fn fresh_row(state: StateID) -> Row
    ensures { IsFresh result state }
{
    let unknown = Cell {
        goal: UNKNOWN,
        list: NO_SLOTS,
    };
    Row {
        state,
        cells: [unknown; COLUMNS],
    }
}

/// The cell where no step is sure, for this reason.
fn cell_without(why: NoWay) -> Cell
    ensures goal { 4294967293 ≤ result.goal }
    ensures nothing { result.goal ≡ 4294967293 → why ≡ NoWay.Nothing }
{
    let goal = match why {
        NoWay::Nothing => NOTHING,
        NoWay::Unsure | NoWay::Match => UNSURE,
    };
    Cell {
        goal,
        list: NO_SLOTS,
    }
}

/// Adds the row, if there is memory.
fn push(rows: &mut Vec<Row>, row: Row)
    ensures { IsAddedIf rows.old.items row rows.new.items }
{
    let _ = rows.push(row).is_ok();
}

impl OnePass {
    /// Makes an empty table for searches of the NFA. Its rows and the slots of its lists may take this many bytes: 2060
    /// for each row, and 8 for each slot. Without room for a row it is off.
    pub fn new(alloc: Global, nfa: &NFA, limit: usize) -> Result<OnePass, AllocError>
        ensures own { IfOk result (IsFor nfa.now) }
        ensures none { IfOk result (λ made. memory_of made ≡ 0) }
        ensures limit { IfOk result (λ made. limit_of made ≡ limit) }
    {
        let of_lists = limit / 8;
        let most_rows = rows_within(limit - of_lists);
        let states = if most_rows == 0 {
            0
        } else {
            nfa.states().len()
        };
        let numbers = vec![in alloc; NO_ROW; states]?;
        Ok(OnePass {
            rows: Vec::new(alloc),
            numbers,
            lists: Lists::new(alloc, of_lists)?,
            stack: Vec::new(alloc),
            most_rows,
            setup: Setup { limit, looks: true },
            may_answer: true,
            misses: 0,
        })
    }

    /// Returns the bytes that the rows take, and the slots of the lists. They are no more than the limit.
    pub fn memory_usage(&self) -> usize
        ensures { result ≡ min (memory_of self.now) usize.MAX }
    {
        let rows = self.rows.len().saturating_mul(ROW_BYTES);
        rows.saturating_add(self.lists.memory_usage())
    }

    /// The row of the state, if it has one.
    fn find_row(&self, sid: StateID) -> Option<u32>
        ensures { IfSome result (λ row. state_at self.now.rows.items row ≡ Some sid) }
    {
        let number = *self.numbers.get(sid.as_usize())?;
        let row = self.rows.get(number as usize)?;
        if row.state == sid { Some(number) } else { None }
    }

    /// The row of the state, which is added if it is new. Returns `None` if there is no room or no memory for it.
    pub(crate) fn row_of(&mut self, nfa: &NFA, sid: StateID) -> Option<u32>
        requires own { IsFor nfa.now self.old }
        requires state { sid < length nfa.now.states }
        ensures own { IsFor nfa.now self.new }
        ensures keeps { KeepsRows self.old.rows.items self.new.rows.items }
        ensures setup { self.new.setup ≡ self.old.setup }
        ensures lists { self.new.lists ≡ self.old.lists }
        ensures row { IfSome result (λ row. state_at self.new.rows.items row ≡ Some sid) }
    {
        if let Some(row) = self.find_row(sid) {
            return Some(row);
        }
        self.add_row(nfa, sid);
        self.find_row(sid)
    }

    /// Adds a row for the state, without steps, if there is room.
    fn add_row(&mut self, nfa: &NFA, sid: StateID)
        requires own { IsFor nfa.now self.old }
        requires state { sid < length nfa.now.states }
        ensures own { IsFor nfa.now self.new }
        ensures keeps { KeepsRows self.old.rows.items self.new.rows.items }
        ensures setup { self.new.setup ≡ self.old.setup }
        ensures lists { self.new.lists ≡ self.old.lists }
    {
        let number = self.rows.len();
        if number >= self.most_rows {
            return;
        }
        self.push_row(nfa, sid);
        self.note(sid, number as u32);
    }

    /// Adds a row for the state, without steps, if there is memory.
    fn push_row(&mut self, nfa: &NFA, sid: StateID)
        requires own { IsFor nfa.now self.old }
        requires room { length self.old.rows.items < self.old.most_rows }
        requires state { sid < length nfa.now.states }
        ensures own { IsFor nfa.now self.new }
        ensures keeps { KeepsRows self.old.rows.items self.new.rows.items }
        ensures setup { self.new.setup ≡ self.old.setup }
        ensures lists { self.new.lists ≡ self.old.lists }
    {
        push(&mut self.rows, fresh_row(sid));
    }

    /// Notes the row of the state.
    fn note(&mut self, sid: StateID, number: u32)
        ensures rows { self.new.rows ≡ self.old.rows }
        ensures lists { self.new.lists ≡ self.old.lists }
        ensures setup { self.new.setup ≡ self.old.setup }
        ensures most { self.new.most_rows ≡ self.old.most_rows }
    {
        let index = sid.as_usize();
        if index < self.numbers.len() {
            self.numbers[index] = number;
        }
    }

    /// The state of the row.
    fn state_of(&self, row: u32) -> Option<StateID>
        ensures { IfSome result (λ s. state_at self.now.rows.items row ≡ Some s) }
    {
        Some(self.rows.get(row as usize)?.state)
    }

    /// The cell of the row, in the column.
    #[inline(always)]
    pub(crate) fn known(&self, nfa: &NFA, row: u32, column: usize) -> Option<Cell>
        requires own { IsFor nfa.now self.now }
        ensures { IfSome result (λ cell. (s : ℕ) → state_at self.now.rows.items row ≡ Some s
            → IsCell nfa.now self.now.rows.items self.now.lists.items.items self.now.setup.looks s column cell) }
    {
        let kept = self.rows.get(row as usize)?;
        let cell = kept.cells.get(column)?;
        Some(*cell)
    }

    /// The step from the row over the column, if it is sure.
    #[inline(always)]
    pub(crate) fn cell(&mut self, nfa: &NFA, row: u32, column: usize) -> Result<Cell, NoWay>
        requires own { IsFor nfa.now self.old }
        requires column { column < 257 }
        ensures own { IsFor nfa.now self.new }
        ensures keeps { KeepsRows self.old.rows.items self.new.rows.items }
        ensures setup { self.new.setup ≡ self.old.setup }
        ensures step { (s : ℕ) → state_at self.old.rows.items row ≡ Some s
            → IfOk result
            (IsStep nfa.now self.new.rows.items self.new.lists.items.items self.new.setup.looks s column) }
        ensures nothing { (s : ℕ) → state_at self.old.rows.items row ≡ Some s → IsErrOf result NoWay.Nothing
            → IsDead nfa.now (looks_over self.old.setup.looks (byte_of column)) s (byte_of column) }
    {
        let Some(cell) = self.known(nfa, row, column) else {
            return Err(NoWay::Unsure);
        };
        if cell.goal < NOTHING {
            return Ok(cell);
        }
        match cell.goal {
            NOTHING => Err(NoWay::Nothing),
            UNSURE => Err(NoWay::Unsure),
            _ => self.fill(nfa, row, column),
        }
    }

    /// Finds the step from the row over the column, and keeps it.
    #[cold]
    #[inline(never)]
    fn fill(&mut self, nfa: &NFA, row: u32, column: usize) -> Result<Cell, NoWay>
        requires own { IsFor nfa.now self.old }
        requires column { column < 257 }
        ensures own { IsFor nfa.now self.new }
        ensures keeps { KeepsRows self.old.rows.items self.new.rows.items }
        ensures setup { self.new.setup ≡ self.old.setup }
        ensures step { (s : ℕ) → state_at self.old.rows.items row ≡ Some s
            → IfOk result
            (IsStep nfa.now self.new.rows.items self.new.lists.items.items self.new.setup.looks s column) }
        ensures nothing { (s : ℕ) → state_at self.old.rows.items row ≡ Some s → IsErrOf result NoWay.Nothing
            → IsDead nfa.now (looks_over self.old.setup.looks (byte_of column)) s (byte_of column) }
    {
        let Some(sid) = self.state_of(row) else {
            return Err(NoWay::Unsure);
        };
        let reached = match self.find_way(nfa, sid, column) {
            Ok(reached) => reached,
            Err(why) => {
                self.keep(nfa, sid, row, column, cell_without(why));
                return Err(why);
            }
        };
        let Some(cell) = self.cell_to(nfa, sid, column, reached) else {
            return Err(NoWay::Unsure);
        };
        self.keep(nfa, sid, row, column, cell);
        Ok(cell)
    }

    /// Searches for the only way from the state over the column.
    fn find_way(&mut self, nfa: &NFA, sid: StateID, column: usize) -> Result<WayEnd, NoWay>
        requires own { IsFor nfa.now self.old }
        requires state { sid < length nfa.now.states }
        requires column { column < 257 }
        ensures own { IsFor nfa.now self.new }
        ensures rows { self.new.rows ≡ self.old.rows }
        ensures setup { self.new.setup ≡ self.old.setup }
        ensures reached { IfOk result (IsReached nfa.now self.new.lists.items.items
            (looks_over self.old.setup.looks (byte_of column)) sid (byte_of column)) }
        ensures nothing { IsErrOf result NoWay.Nothing
            → IsDead nfa.now (looks_over self.old.setup.looks (byte_of column)) sid (byte_of column) }
    {
        let looks = column == END || self.setup.looks;
        let byte = byte_of(column);
        let found = only_way(nfa, &mut self.lists, &mut self.stack, sid, byte, looks);
        self.may_answer &= !matches!(found, Err(NoWay::Match));
        found
    }

    /// The cell of a step from the state that leads there. Without room for a row there is none.
    fn cell_to(&mut self, nfa: &NFA, sid: StateID, column: usize, reached: WayEnd) -> Option<Cell>
        requires own { IsFor nfa.now self.old }
        requires column { column < 257 }
        requires reached { IsReached nfa.now self.old.lists.items.items
            (looks_over self.old.setup.looks (byte_of column)) sid (byte_of column) reached }
        ensures own { IsFor nfa.now self.new }
        ensures keeps { KeepsRows self.old.rows.items self.new.rows.items }
        ensures setup { self.new.setup ≡ self.old.setup }
        ensures step { IfSome result
            (IsStep nfa.now self.new.rows.items self.new.lists.items.items self.new.setup.looks sid column) }
        ensures small { IfSome result (λ cell. cell.goal < 4294967293) }
    {
        if column == END {
            return Some(Cell {
                goal: reached.goal,
                list: reached.list,
            });
        }
        let to = StateID::new(reached.goal as usize)?;
        if to.as_usize() >= nfa.states().len() {
            return None;
        }
        let next = self.row_of(nfa, to)?;
        Some(Cell {
            goal: next,
            list: reached.list,
        })
    }

    /// Keeps a cell of the row of the state.
    fn keep(&mut self, nfa: &NFA, sid: StateID, row: u32, column: usize, cell: Cell)
        requires own { IsFor nfa.now self.old }
        requires here { state_at self.old.rows.items row ≡ Some sid }
        requires column { column < 257 }
        requires cell { let s = self.old in
            IsCell nfa.now s.rows.items s.lists.items.items s.setup.looks sid column cell }
        ensures own { IsFor nfa.now self.new }
        ensures keeps { KeepsRows self.old.rows.items self.new.rows.items }
        ensures setup { self.new.setup ≡ self.old.setup }
        ensures lists { self.new.lists ≡ self.old.lists }
    {
        if row as usize >= self.rows.len() {
            return;
        }
        let kept = &mut self.rows[row as usize];
        kept.cells[column] = cell;
    }
}
