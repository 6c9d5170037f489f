//! A slot in eight bytes, and slot rows.
ghost use Rattle.std.specs.Prelude.{◌≡◌, ◌++◌, ◌+◌, ◌-◌, ◌<◌, ◌≤◌, Some, None, length, replicate, option_map};
ghost use Rattle.std.specs.Option.{SomeIff};
ghost use Rattle.regex_search_core.specs.Found.{found_of};
ghost use Rattle.regex_search_core.specs.PatternSets.{number_of};
ghost use Rattle.regex_search_core.specs.Slots.{match_of, offset_at};

use regex_search_core::{Match, NonMaxUsize, PatternID, Span};
use std::marker::Model;

/// A slot of a row, in eight bytes; an `Option` would take sixteen. `usize::MAX` means that the slot is unset.
///
/// Contracts see the offset, if there is one.
#[derive(Clone, Copy, Debug)]
pub struct Slot(usize);

impl Model for Slot {
    ghost use Rattle.std.specs.Prelude.{ℕ, ◌-◌, ◌^◌, ◌==◌, Option, Some, None, cond};
    ghost use Rattle.std.specs.Option.{option_map_or};

    ghost Value = { Option ℕ };

    ghost view = { λ s. cond (s.0 == 2 ^ 64 - 1) None (Some s.0) };

    ghost inverse = { λ o. record { 0 = option_map_or (λ offset. offset) o (2 ^ 64 - 1) } };
}

impl Slot {
    /// Returns a slot without an offset.
    #[inline(always)]
    pub fn unset() -> Slot
        ensures { result ≡ None }
    {
        Slot(usize::MAX)
    }

    /// Returns a slot with this offset, or an unset slot for `usize::MAX`.
    #[inline(always)]
    pub fn new(offset: usize) -> Slot
        ensures { SomeIff result (offset < usize.MAX) offset }
    {
        Slot(offset)
    }

    /// Returns the offset of the slot, if it is set.
    #[inline(always)]
    pub fn get(self) -> Option<NonMaxUsize>
        ensures { result ≡ self }
    {
        NonMaxUsize::new(self.0)
    }
}

/// Copies a row. In most searches it has two slots or four: those of the match of one pattern, or of two.
#[inline(always)]
pub fn copy_row(to: &mut [Slot], from: &[Slot])
    requires { length to.old ≡ length from.now }
    ensures { to.new ≡ from.now }
{
    match from.len() {
        2 => {
            to[0] = from[0];
            to[1] = from[1];
        }
        4 => {
            to[0] = from[0];
            to[1] = from[1];
            to[2] = from[2];
            to[3] = from[3];
        }
        _ => copy_long_row(to, from),
    }
}

/// Copies a row of any length.
#[inline(never)]
fn copy_long_row(to: &mut [Slot], from: &[Slot])
    requires { length to.old ≡ length from.now }
    ensures { to.new ≡ from.now }
{
    to.copy_from_slice(from);
}

/// Unsets all slots of a row. In most searches it has two slots or four, as for [`copy_row`].
#[inline(always)]
pub fn unset_row(row: &mut [Slot])
    ensures { row.new ≡ replicate (length row.old) None }
{
    match row.len() {
        2 => {
            row[0] = Slot::unset();
            row[1] = Slot::unset();
        }
        4 => {
            row[0] = Slot::unset();
            row[1] = Slot::unset();
            row[2] = Slot::unset();
            row[3] = Slot::unset();
        }
        _ => unset_long_row(row),
    }
}

/// Unsets all slots of a row of any length.
#[inline(never)]
fn unset_long_row(row: &mut [Slot])
    ensures { row.new ≡ replicate (length row.old) None }
{
    row.fill(Slot::unset());
}

/// Unsets all slots.
fn clear(slots: &mut [Option<NonMaxUsize>])
    ensures { slots.new ≡ replicate (length slots.old) None }
{
    slots.fill(None);
}

/// Copies the row to the first slots, and unsets those after it.
pub fn copy_out(row: &[Slot], slots: &mut [Option<NonMaxUsize>])
    requires { length row.now ≤ length slots.old }
    ensures { slots.new ≡ row.now ++ replicate (length slots.old - length row.now) None }
{
    clear(slots);
    for i in 0..row.len() {
        slots[i] = row[i].get();
    }
}

/// Returns the offset in this slot of the row, if there is one.
fn offset_in(row: &[Slot], slot: usize) -> Option<usize>
    ensures { result ≡ offset_at row.now slot }
{
    Some(row.get(slot)?.get()?.get())
}

/// Returns the match of the pattern, if the row has its start and its end, in order.
pub fn match_in(pattern: PatternID, row: &[Slot]) -> Option<Match>
    ensures { option_map found_of result ≡ match_of (Some (number_of pattern)) row.now }
{
    let slot = pattern.as_usize() * 2;
    let start = offset_in(row, slot)?;
    let end = offset_in(row, slot + 1)?;
    if start > end {
        return None;
    }
    Some(Match::new(pattern, Span { start, end }))
}
