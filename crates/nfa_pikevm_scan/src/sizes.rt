//! The room that an NFA needs.
ghost use Rattle.std.specs.Prelude.{◌≡◌, ◌^◌, ◌≤◌, None, IfSome, IfNone, IsOk, OnOk, OnErr, length, max, replicate};
ghost use Rattle.std.specs.Prelude.{vec_capacity};
ghost use Rattle.std.specs.List.{sum_by};
ghost use Rattle.thompson_nfa.specs.Automaton.{node_of};
ghost use Rattle.nfa_pikevm_scan.specs.Needs.{room_of, stack_frames};
ghost use Rattle.nfa_pikevm_scan.specs.Scans.{sizes_for, sizes_of, Holds, IsSize, IsSizeOf, IsTooLarge};

use crate::active::Parts;
use crate::frame::FollowEpsilon;
use crate::room::{refill, reserve};
use crate::slot::Slot;
use crate::threads::Threads;
use regex_search_core::{Refused, StateID};
use thompson_nfa::{NFA, State};

/// The sizes of a cache: its states and slots, the places and the cells of each set of states, and the frames of the
/// stack.
#[derive(Clone, Copy, Debug)]
pub struct Size {
    pub states: usize,
    pub slots: usize,
    pub capacity: usize,
    pub cells: usize,
    pub frames: usize,
}

/// Returns the most frames that the state pushes, besides the state that it goes on with.
fn room(state: &State) -> usize
    ensures { result ≡ room_of (node_of state.now) }
{
    match state {
        State::Union { alternates } => alternates.len().saturating_sub(1),
        State::BinaryUnion { .. } | State::Capture { .. } => 1,
        _ => 0,
    }
}

/// Returns the most frames that all these states push, if the sum fits a `usize`.
fn rooms(states: &[State]) -> Option<usize>
    ensures sum { IfSome result (λ n. n ≡ sum_by (λ s. room_of (node_of s)) states.now) }
    ensures past { IfNone result (2 ^ 64 ≤ sum_by (λ s. room_of (node_of s)) states.now) }
{
    let mut sum: usize = 0;
    for state in states {
        sum = sum.checked_add(room(state))?;
    }
    Some(sum)
}

/// Returns the number of frames that the stack of a search needs, if it fits a `usize`.
pub fn stack_frames(nfa: &NFA) -> Option<usize>
    ensures value { IfSome result (λ n. n ≡ stack_frames nfa.now) }
    ensures past { IfNone result (2 ^ 64 ≤ stack_frames nfa.now) }
{
    Some(rooms(nfa.states())?.max(1))
}

/// Returns the sizes that a search of the NFA needs, if they fit a `usize`.
pub fn size_for(nfa: &NFA) -> Option<Size>
    ensures value { IfSome result (λ size. IsSizeOf nfa.now size) }
    ensures past { IfNone result (IsTooLarge nfa.now) }
{
    let states = nfa.states().len();
    let slots = nfa.group_info().slot_len();
    let capacity = states.checked_add(1)?;
    let cells = capacity.checked_mul(slots)?;
    let frames = stack_frames(nfa)?;
    Some(Size {
        states,
        slots,
        capacity,
        cells,
        frames,
    })
}

/// Makes room for the states and the cells of a set, and changes none. Fails only if a part has to grow.
fn reserve_parts(parts: &mut Parts, size: &Size) -> Result<(), Refused>
    ensures granted { size.now.capacity ≤ length parts.old.kept.items → size.now.cells ≤ length parts.old.rows.items
        → IsOk result }
    ensures kept { parts.new.kept.items ≡ parts.old.kept.items }
    ensures rows { parts.new.rows.items ≡ parts.old.rows.items }
    ensures len { parts.new.len ≡ parts.old.len }
    ensures width { parts.new.width ≡ parts.old.width }
    ensures states { OnOk result (size.now.capacity ≤ vec_capacity parts.new.kept) }
    ensures cells { OnOk result (size.now.cells ≤ vec_capacity parts.new.rows) }
{
    reserve(&mut parts.kept, size.capacity)?;
    reserve(&mut parts.rows, size.cells)
}

/// Removes all states of a set, and gives its parts exactly these sizes. Requires room for them.
fn refill_parts(parts: &mut Parts, size: &Size, filler: StateID)
    requires states { size.now.capacity ≤ vec_capacity parts.old.kept }
    requires cells { size.now.cells ≤ vec_capacity parts.old.rows }
    ensures kept { parts.new.kept.items ≡ replicate size.now.capacity filler }
    ensures rows { parts.new.rows.items ≡ replicate size.now.cells None }
    ensures len { parts.new.len ≡ 0 }
    ensures width { parts.new.width ≡ 0 }
{
    parts.len = 0;
    parts.width = 0;
    refill(&mut parts.kept, size.capacity, filler);
    refill(&mut parts.rows, size.cells, Slot::unset());
}

/// Gives the parts of a cache exactly these sizes. All memory is allocated before anything changes. Fails only if a
/// part has to grow.
pub fn make_room(
    threads: &mut Threads,
    found: &mut Vec<Slot>,
    size: &Size,
    filler: StateID,
) -> Result<(), Refused>
    requires { IsSize size.now }
    ensures granted { Holds size.now threads.old (length found.old.items) → IsOk result }
    ensures sizes { OnOk result (sizes_of threads.new
        ≡ sizes_for size.now.states size.now.slots size.now.frames) }
    ensures row { OnOk result (length found.new.items ≡ size.now.slots) }
    ensures turns { threads.new.reached.seen.turns ≡ threads.old.reached.seen.turns }
    ensures scans { threads.new.scans ≡ threads.old.scans }
    ensures seen { OnErr result (threads.new.reached.seen ≡ threads.old.reached.seen) }
    ensures curr { OnErr result (threads.new.curr ≡ threads.old.curr) }
    ensures next { OnErr result (threads.new.reached.next ≡ threads.old.reached.next) }
    ensures frames { OnErr result (threads.new.frames.items ≡ threads.old.frames.items) }
    ensures found { OnErr result (found.new.items ≡ found.old.items) }
{
    reserve(&mut threads.frames, size.frames)?;
    reserve(&mut threads.reached.seen.stamps, size.states)?;
    reserve_parts(&mut *threads.curr.parts, size)?;
    reserve_parts(&mut *threads.reached.next.parts, size)?;
    reserve(found, size.slots)?;
    let unused = FollowEpsilon::Explore { sid: filler };
    refill(&mut threads.frames, size.frames, unused);
    refill(&mut threads.reached.seen.stamps, size.states, 0);
    threads.reached.seen.newest = 1;
    refill_parts(&mut *threads.curr.parts, size, filler);
    refill_parts(&mut *threads.reached.next.parts, size, filler);
    refill(found, size.slots, Slot::unset());
    Ok(())
}
