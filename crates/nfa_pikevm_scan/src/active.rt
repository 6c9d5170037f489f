//! The states that are followed at a position, in order, each with its slot row.
ghost use Rattle.std.specs.Prelude.{◌≡◌, ◌+◌, ◌*◌, ◌<◌, ◌≤◌, [], ◌∷◌, ◌++◌, None, length, take, replicate, IfOk};
ghost use Rattle.std.specs.Prelude.{IsTrue, ◌↔◌};

use crate::slot::{Slot, copy_row, unset_row};
use regex_search_core::{Refused, StateID};
use std::alloc::Global;
use std::marker::Model;

/// The states that are kept at a position, in order of preference, each with its slot row. Contracts see a list of
/// states with rows.
///
/// Rows are numbered in the order of entry, so they are as dense as the states that are kept.
///
/// The parts are boxed, so two sets are swapped by swapping two pointers.
#[derive(Debug, Drop)]
pub struct ActiveStates {
    pub(super) parts: Box<Parts>,
}

/// The states that are kept and their rows. Only the first `len` are in use.
#[derive(Debug, Drop)]
pub struct Parts {
    pub kept: Vec<StateID>,
    pub rows: Vec<Slot>,
    pub len: usize,
    /// The number of slots in a row.
    pub width: usize,
}

impl Model for ActiveStates {
    ghost use Rattle.std.specs.Prelude.{◌≤◌, ◌*◌, length, take};
    ghost use Rattle.nfa_pikevm_scan.specs.Rows.{Active, items_of};

    ghost Value = { Active };

    ghost view = { λ a. let p = a.parts.value in record {
      items = items_of p.width (take p.len p.kept.items) p.rows.items;
      width =
          p.width;
      capacity = length p.kept.items;
      cells = length p.rows.items;
    } };

    ghost invariant = { λ a. let p = a.parts.value in (p.len ≤ length p.kept.items)
        × (length p.kept.items * p.width ≤ length p.rows.items) };
}

/// Writes a row after `before` others.
#[inline(always)]
fn put_row(rows: &mut [Slot], before: usize, row: &[Slot])
    requires { before * length row.now + length row.now ≤ length rows.old }
    ensures { take (before * length row.now + length row.now) rows.new
        ≡ take (before * length row.now) rows.old ++ row.now }
{
    let start = before * row.len();
    copy_row(&mut rows[start..start + row.len()], row);
}

/// Writes a row with no slot set after `before` others.
#[inline(always)]
fn blank_row(rows: &mut [Slot], before: usize, width: usize)
    requires { before * width + width ≤ length rows.old }
    ensures { take (before * width + width) rows.new ≡ take (before * width) rows.old ++ replicate width None }
{
    let start = before * width;
    unset_row(&mut rows[start..start + width]);
}

impl ActiveStates {
    /// Makes a set with room for no state.
    pub fn new(alloc: Global) -> Result<ActiveStates, Refused>
        ensures { IfOk result (λ made. made ≡ record { items = []; width = 0; capacity = 0; cells = 0 }) }
    {
        let parts = Parts {
            kept: Vec::new(alloc),
            rows: Vec::new(alloc),
            len: 0,
            width: 0,
        };
        Ok(ActiveStates {
            parts: Box::new(alloc, parts)?,
        })
    }

    /// Returns the same states and rows.
    pub fn copied(&self) -> Result<ActiveStates, Refused>
        ensures { IfOk result (λ copy. copy ≡ self.now) }
    {
        let parts = Parts {
            kept: self.parts.kept.clone()?,
            rows: self.parts.rows.clone()?,
            len: self.parts.len,
            width: self.parts.width,
        };
        let alloc = *self.parts.kept.allocator();
        Ok(ActiveStates {
            parts: Box::new(alloc, parts)?,
        })
    }

    /// Removes all states, and sets the width of rows to `width` slots.
    pub fn set_up(&mut self, width: usize)
        requires { self.old.capacity * width ≤ self.old.cells }
        ensures { self.new ≡ record self.old { items = []; width = width } }
    {
        self.parts.len = 0;
        self.parts.width = width;
    }

    /// Removes all states.
    #[inline(always)]
    pub fn clear(&mut self)
        ensures { self.new ≡ record self.old { items = [] } }
    {
        self.parts.len = 0;
    }

    /// Returns whether no state is kept.
    #[inline(always)]
    pub fn is_empty(&self) -> bool
        ensures { IsTrue result ↔ (length self.now.items ≡ 0) }
    {
        self.parts.len == 0
    }

    /// Returns whether one state is kept.
    #[inline(always)]
    pub fn is_lone(&self) -> bool
        ensures { IsTrue result ↔ (length self.now.items ≡ 1) }
    {
        self.parts.len == 1
    }

    /// Adds a state with its row.
    #[inline(always)]
    pub fn push(&mut self, sid: StateID, row: &[Slot])
        requires room { length self.old.items < self.old.capacity }
        requires width { length row.now ≡ self.old.width }
        ensures { self.new ≡ record self.old { items = self.old.items ++ (sid, row.now) ∷ [] } }
    {
        let parts = &mut *self.parts;
        parts.kept[parts.len] = sid;
        put_row(parts.rows.as_mut_slice(), parts.len, row);
        parts.len += 1;
    }

    /// Adds a state with no slot set.
    #[inline(always)]
    pub fn push_blank(&mut self, sid: StateID)
        requires { length self.old.items < self.old.capacity }
        ensures { self.new ≡ record self.old { items = self.old.items ++ (sid, replicate self.old.width None) ∷ [] } }
    {
        let parts = &mut *self.parts;
        parts.kept[parts.len] = sid;
        blank_row(parts.rows.as_mut_slice(), parts.len, parts.width);
        parts.len += 1;
    }
}
