//! The cells of rows: where each byte leads.
ghost use Rattle.std.specs.Prelude.{◌≡◌, ◌+◌, ◌*◌, ◌%◌, ◌<◌, ◌≤◌, ◌∷◌, [], IfErr, IfOk, IsTrue, None, Some, false};
ghost use Rattle.std.specs.Prelude.{is_some, true, vec_len};
ghost use Rattle.nfa_lazy_dfa.specs.Assertions.{IsRead};
ghost use Rattle.nfa_lazy_dfa.specs.Capacities.{IsUsedUpBy};
ghost use Rattle.nfa_lazy_dfa.specs.Rows as rows;
ghost use Rattle.nfa_lazy_dfa.specs.Rows.{IsFor, LeadsTo, Spends, steps_of};
ghost use Rattle.nfa_lazy_dfa.specs.Stances.{stance_of};

use crate::cache::{Cache, DEAD, IDLE, MATCHED, ROW_CELLS, UNKNOWN};
use crate::dfa::DFA;
use crate::error::GaveUp;
use crate::follow::{Stand, follow};
use crate::index::MAX_ROWS;
use regex_search_core::StateID;

/// Whether the start is the only state of the stand.
pub fn is_idle(stand: &Stand, start: StateID) -> bool
    ensures { IsTrue result → (stance_of stand.now).states ≡ start ∷ [] }
{
    match &stand.states[..] {
        [only] => *only == start,
        _ => false,
    }
}

/// Whether cells that lead to the stand say that no path is under way in it.
fn is_marked_idle(dfa: &DFA, stand: &Stand) -> bool
    ensures idle { IsTrue result → (stance_of stand.now).states ≡ dfa.now.nfa.anchored ∷ [] }
    ensures looks { IsTrue result → dfa.now.looks ≡ false }
{
    dfa.marks && stand.more && is_idle(stand, dfa.nfa.start_anchored())
}

/// The cell that leads to the row.
fn cell_to(dfa: &DFA, row: u32, stand: &Stand) -> u32
    requires { row < MAX_ROWS }
    ensures row { rows.row_of result ≡ row }
    ensures whole { result % ROW_CELLS ≡ 0 }
    ensures plain { result < MATCHED → (stance_of stand.now).hit ≡ None }
    ensures idle { IDLE ≤ result → result < MATCHED → (stance_of stand.now).states ≡ dfa.now.nfa.anchored ∷ [] }
    ensures looks { IDLE ≤ result → result < MATCHED → dfa.now.looks ≡ false }
    ensures matched { MATCHED ≤ result → result < DEAD → is_some (stance_of stand.now).hit ≡ true }
    ensures dead { DEAD ≤ result → (stance_of stand.now).states ≡ [] }
    ensures dead_plain { DEAD ≤ result → result < DEAD + MATCHED → (stance_of stand.now).hit ≡ None }
    ensures dead_matched { DEAD + MATCHED ≤ result → is_some (stance_of stand.now).hit ≡ true }
{
    let first = row * ROW_CELLS as u32;
    if stand.is_dead() {
        if stand.hit.is_some() {
            first + DEAD + MATCHED
        } else {
            first + DEAD
        }
    } else if stand.hit.is_some() {
        first + MATCHED
    } else if is_marked_idle(dfa, stand) {
        first + IDLE
    } else {
        first
    }
}

/// Returns the row that the cell leads to.
#[inline(always)]
pub fn row_of(cell: u32) -> u32
    ensures { result ≡ rows.row_of cell }
{
    cell % IDLE / ROW_CELLS as u32
}

/// The place of the byte's cell.
#[inline(always)]
fn place_of(row: u32, byte: u8) -> usize
    ensures { result ≡ row * ROW_CELLS + byte }
{
    row as usize * ROW_CELLS + byte as usize
}

impl Cache {
    /// The row after the byte.
    #[inline(always)]
    pub(crate) fn next(&mut self, dfa: &DFA, row: u32, byte: u8) -> Result<u32, GaveUp>
        requires own { IsFor self.old dfa.now }
        requires row { row < vec_len self.old.stands }
        requires read { IsRead dfa.now.nfa (Some byte) }
        ensures own { IsFor self.new dfa.now }
        ensures leads { IfOk result (LeadsTo dfa.now self.old self.new row byte) }
        ensures spends { Spends self.old self.new 1 0 }
        ensures counts { steps_of self.new ≡ steps_of self.old + 1 }
        ensures full { IfErr result (IsUsedUpBy self.new dfa.now) }
    {
        self.steps.tick();
        let cell = self.cells[place_of(row, byte)];
        if cell != UNKNOWN {
            return Ok(row_of(cell));
        }
        let target = self.fill(dfa, row, byte)?;
        Ok(target)
    }

    /// Fills the cell. Returns the row that it leads to.
    #[cold]
    #[inline(never)]
    fn fill(&mut self, dfa: &DFA, row: u32, byte: u8) -> Result<u32, GaveUp>
        requires own { IsFor self.old dfa.now }
        requires row { row < vec_len self.old.stands }
        requires read { IsRead dfa.now.nfa (Some byte) }
        ensures own { IsFor self.new dfa.now }
        ensures leads { IfOk result (LeadsTo dfa.now self.old self.new row byte) }
        ensures spends { Spends self.old self.new 0 1 }
        ensures full { IfErr result (IsUsedUpBy self.new dfa.now) }
    {
        let stand = follow(self.alloc, dfa, &self.stands[row as usize], byte)?;
        let (target, kept) = self.intern(dfa, stand)?;
        if kept {
            self.write(dfa, row, byte, target);
            self.write_down(dfa, row, byte, target);
            self.write_up(dfa, row, byte, target);
        }
        Ok(target)
    }

    /// Writes the cell.
    fn write(&mut self, dfa: &DFA, row: u32, byte: u8, target: u32)
        requires own { IsFor self.old dfa.now }
        requires leads { LeadsTo dfa.now self.old self.old row byte target }
        ensures own { IsFor self.new dfa.now }
        ensures same { self.new.stands.items ≡ self.old.stands.items }
        ensures spends { Spends self.old self.new 0 0 }
    {
        let cell = cell_to(dfa, target, &self.stands[target as usize]);
        self.cells[place_of(row, byte)] = cell;
    }

    /// Writes the cells of the bytes below that are treated alike.
    fn write_down(&mut self, dfa: &DFA, row: u32, byte: u8, target: u32)
        requires own { IsFor self.old dfa.now }
        requires leads { LeadsTo dfa.now self.old self.old row byte target }
        ensures own { IsFor self.new dfa.now }
        ensures same { self.new.stands.items ≡ self.old.stands.items }
        ensures spends { Spends self.old self.new 0 0 }
    {
        let mut low = byte;
        while low > 0 && !dfa.cuts[low as usize - 1] {
            low -= 1;
            self.write(dfa, row, low, target);
        }
    }

    /// Writes the cells of the bytes above that are treated alike.
    fn write_up(&mut self, dfa: &DFA, row: u32, byte: u8, target: u32)
        requires own { IsFor self.old dfa.now }
        requires leads { LeadsTo dfa.now self.old self.old row byte target }
        ensures own { IsFor self.new dfa.now }
        ensures same { self.new.stands.items ≡ self.old.stands.items }
        ensures spends { Spends self.old self.new 0 0 }
    {
        let mut high = byte;
        while high < 255 && !dfa.cuts[high as usize] {
            high += 1;
            self.write(dfa, row, high, target);
        }
    }
}
