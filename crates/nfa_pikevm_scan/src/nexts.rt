//! All states side by side, from one position to the next.
//!
//! [`nexts`] is the step of a search, and hands [`nexts_with`] a sink that writes slots; `overlap` hands it one that
//! gathers patterns. `nexts_with` reads the byte, and [`nexts_of_states`] loops over the states. A search for the first
//! match has two steps without that loop: [`nexts_of_start`], where only the start is followed, and [`nexts_of_lone`],
//! where one state is left after a match; it goes through [`nexts_of_one_with`] and [`nexts_of_one`], as `nexts` does
//! through the other two.
ghost use Rattle.std.specs.Prelude.{◌≡◌, ◌*◌, ◌<◌, ◌≤◌, [], ◌∷◌, false, length, All};
ghost use Rattle.regex_search_core.specs.Search.{search_of};
ghost use Rattle.nfa_scan_core.specs.FirstBytes.{IsRefused};
ghost use Rattle.nfa_pikevm_scan.specs.States.{between, moment_of, IsClosureContext, KeepsRoom, MayFollow};
ghost use Rattle.nfa_pikevm_scan.specs.Rows.{items_of};
ghost use Rattle.nfa_pikevm_scan.specs.States.{NextsGive};
ghost use Rattle.nfa_pikevm_scan.specs.Sinks.{ClosuresGive};
ghost use Rattle.nfa_pikevm_scan.specs.Scans.{blank, held, HaveRows, KeepsThreads, MayCross, SameSizes};

use crate::closure::{ClosureContext, ClosureOutput, epsilon_closure, next_match};
use crate::frame::FollowEpsilon;
use crate::scan::Starts;
use crate::sink::{MatchSink, SlotsSink};
use crate::slot::{Slot, unset_row};
use crate::threads::Threads;
use nfa_scan_core::first_bytes::FirstBytes;
use nfa_scan_core::transitions::byte_at;
use regex_search_core::{Input, PatternID, StateID};
use std::mem;
use thompson_nfa::NFA;

/// Removes all states, and sets the width of rows to `width` slots.
pub fn set_up(threads: &mut Threads, width: usize)
    requires { threads.old.curr.capacity * width ≤ threads.old.curr.cells }
    ensures curr { threads.new.curr.items ≡ [] }
    ensures next { threads.new.reached.next.items ≡ [] }
    ensures width { threads.new.curr.width ≡ width }
    ensures sizes { SameSizes threads.old threads.new }
    ensures seen { threads.new.reached.seen ≡ threads.old.reached.seen }
    ensures scans { threads.new.scans ≡ threads.old.scans }
{
    threads.curr.set_up(width);
    threads.reached.next.set_up(width);
}

/// Makes the states at the next position those at this one.
#[inline(always)]
pub fn swap_state_sets(threads: &mut Threads)
    ensures curr { threads.new.curr.items ≡ threads.old.reached.next.items }
    ensures next { threads.new.reached.next.items ≡ [] }
    ensures keeps { KeepsThreads threads.old threads.new }
    ensures seen { threads.new.reached.seen ≡ threads.old.reached.seen }
{
    let Threads { curr, reached, .. } = threads;
    mem::swap(curr, &mut reached.next);
    reached.next.clear();
}

/// Follows the states at the position ([`epsilon_closure`]), in order, each with its row, up to the match that the
/// position ends with, and keeps the states that the byte leads to.
#[inline(always)]
fn nexts_of_states<T: MatchSink>(
    here: &ClosureContext<'_, '_>,
    kept: &[StateID],
    rows: &mut [Slot],
    frames: &mut [FollowEpsilon],
    reached: &mut ClosureOutput,
    sink: &mut T,
)
    requires ready { MayFollow here.now kept.now reached.old (length frames.old) (T.row_width sink.old) }
    requires rows { length kept.now * T.row_width sink.old ≤ length rows.old }
    ensures keeps { KeepsRoom reached.old reached.new }
    ensures grows { reached.old.seen.turns ≤ reached.new.seen.turns }
    ensures width { T.row_width sink.new ≡ T.row_width sink.old }
    ensures same_reference { T.reference sink.new ≡ T.reference sink.old }
    ensures arrive { ClosuresGive here.now.nfa.now (search_of here.now.input.now) T.takes here.now.at
        (between reached.old.seen (items_of (T.row_width sink.old) kept.now rows.old) []) sink.old
        (moment_of reached.new [] []) sink.new }
{
    let width = sink.width();
    let mut start = 0;
    for sid in kept {
        let row = &mut rows[start..start + width];
        if epsilon_closure(here, *sid, frames, reached, row, sink) {
            return;
        }
        start += width;
    }
}

/// [`nexts_of_states`], with one call where there is a byte and one where there is none, so that the loop over the
/// states does not test it at each one.
#[inline(always)]
fn nexts_by_case<T: MatchSink>(
    here: &ClosureContext<'_, '_>,
    kept: &[StateID],
    rows: &mut [Slot],
    frames: &mut [FollowEpsilon],
    reached: &mut ClosureOutput,
    sink: &mut T,
)
    requires ready { MayFollow here.now kept.now reached.old (length frames.old) (T.row_width sink.old) }
    requires rows { length kept.now * T.row_width sink.old ≤ length rows.old }
    ensures keeps { KeepsRoom reached.old reached.new }
    ensures grows { reached.old.seen.turns ≤ reached.new.seen.turns }
    ensures same_reference { T.reference sink.new ≡ T.reference sink.old }
    ensures arrive { ClosuresGive here.now.nfa.now (search_of here.now.input.now) T.takes here.now.at
        (between reached.old.seen (items_of (T.row_width sink.old) kept.now rows.old) []) sink.old
        (moment_of reached.new [] []) sink.new }
{
    match here.byte {
        Some(byte) => {
            let before = ClosureContext {
                byte: Some(byte),
                ..*here
            };
            nexts_of_states(&before, kept, rows, frames, reached, sink);
        }
        None => {
            let end = ClosureContext {
                byte: None,
                ..*here
            };
            nexts_of_states(&end, kept, rows, frames, reached, sink);
        }
    }
}

/// Follows the states at the position, gives their matches to the sink, and keeps the states that the position's byte
/// leads to for the next one.
#[inline(always)]
pub fn nexts_with<T: MatchSink>(
    nfa: &NFA,
    input: &Input<'_>,
    at: usize,
    threads: &mut Threads,
    sink: &mut T,
)
    requires ready { MayCross nfa.now (search_of input.now) at (T.row_width sink.old) threads.old }
    requires some { 0 < length threads.old.curr.items }
    ensures keeps { KeepsThreads threads.old threads.new }
    ensures grows { threads.old.reached.seen.turns ≤ threads.new.reached.seen.turns }
    ensures same_reference { T.reference sink.new ≡ T.reference sink.old }
    ensures arrive { ClosuresGive nfa.now (search_of input.now) T.takes at (held threads.old []) sink.old
        (moment_of threads.new.reached [] []) sink.new }
    ensures rows { All (λ i. length i.1 ≤ T.row_width sink.old) threads.old.curr.items }
{
    let Threads {
        frames,
        curr,
        reached,
        ..
    } = threads;
    reached.seen.clear();
    let parts = &mut *curr.parts;
    let here = ClosureContext {
        nfa,
        input,
        at,
        byte: byte_at(input, at),
    };
    nexts_by_case(
        &here,
        &parts.kept.as_slice()[..parts.len],
        parts.rows.as_mut_slice(),
        frames.as_mut_slice(),
        reached,
        sink,
    );
}

/// Follows the states at the position, and goes on to those that its byte leads to. Returns the last match, and writes
/// its slots. Without `past_match` it stops at the first match.
#[inline(always)]
pub fn nexts(
    nfa: &NFA,
    input: &Input<'_>,
    at: usize,
    past_match: bool,
    threads: &mut Threads,
    slots: &mut [Slot],
) -> Option<PatternID>
    requires ready { MayCross nfa.now (search_of input.now) at (length slots.old) threads.old }
    requires some { 0 < length threads.old.curr.items }
    ensures next { threads.new.reached.next.items ≡ [] }
    ensures keeps { KeepsThreads threads.old threads.new }
    ensures grows { threads.old.reached.seen.turns ≤ threads.new.reached.seen.turns }
    ensures crosses { NextsGive nfa.now (search_of input.now) at past_match (held threads.old slots.old) result
        (held threads.new slots.new) }
{
    let mut last = SlotsSink {
        slots,
        hit: None,
        past_match,
    };
    nexts_with(nfa, input, at, threads, &mut last);
    swap_state_sets(threads);
    last.hit
}

/// [`nexts_of_states`] for one state, without a loop.
#[inline(always)]
fn nexts_of_one<T: MatchSink>(
    here: &ClosureContext<'_, '_>,
    kept: &[StateID],
    rows: &mut [Slot],
    frames: &mut [FollowEpsilon],
    reached: &mut ClosureOutput,
    sink: &mut T,
)
    requires ready { MayFollow here.now kept.now reached.old (length frames.old) (T.row_width sink.old) }
    requires one { length kept.now ≡ 1 }
    requires rows { T.row_width sink.old ≤ length rows.old }
    ensures keeps { KeepsRoom reached.old reached.new }
    ensures grows { reached.old.seen.turns ≤ reached.new.seen.turns }
    ensures same_reference { T.reference sink.new ≡ T.reference sink.old }
    ensures arrive { ClosuresGive here.now.nfa.now (search_of here.now.input.now) T.takes here.now.at
        (between reached.old.seen (items_of (T.row_width sink.old) kept.now rows.old) []) sink.old
        (moment_of reached.new [] []) sink.new }
{
    let width = sink.width();
    let row = &mut rows[0..width];
    let _ = epsilon_closure(here, kept[0], frames, reached, row, sink);
}

/// [`nexts_with`] for one state, without a loop.
#[inline(always)]
fn nexts_of_one_with<T: MatchSink>(
    nfa: &NFA,
    input: &Input<'_>,
    at: usize,
    threads: &mut Threads,
    sink: &mut T,
)
    requires ready { MayCross nfa.now (search_of input.now) at (T.row_width sink.old) threads.old }
    requires one { length threads.old.curr.items ≡ 1 }
    ensures keeps { KeepsThreads threads.old threads.new }
    ensures grows { threads.old.reached.seen.turns ≤ threads.new.reached.seen.turns }
    ensures same_reference { T.reference sink.new ≡ T.reference sink.old }
    ensures arrive { ClosuresGive nfa.now (search_of input.now) T.takes at (held threads.old []) sink.old
        (moment_of threads.new.reached [] []) sink.new }
{
    let Threads {
        frames,
        curr,
        reached,
        ..
    } = threads;
    reached.seen.clear();
    let parts = &mut *curr.parts;
    let here = ClosureContext {
        nfa,
        input,
        at,
        byte: byte_at(input, at),
    };
    nexts_of_one(
        &here,
        &parts.kept.as_slice()[..parts.len],
        parts.rows.as_mut_slice(),
        frames.as_mut_slice(),
        reached,
        sink,
    );
}

/// [`nexts`] for one state and without `past_match`. It has no loop over states, so it keeps more values in registers.
#[inline(always)]
pub fn nexts_of_lone(
    nfa: &NFA,
    input: &Input<'_>,
    at: usize,
    threads: &mut Threads,
    slots: &mut [Slot],
) -> Option<PatternID>
    requires ready { MayCross nfa.now (search_of input.now) at (length slots.old) threads.old }
    requires one { length threads.old.curr.items ≡ 1 }
    ensures next { threads.new.reached.next.items ≡ [] }
    ensures keeps { KeepsThreads threads.old threads.new }
    ensures grows { threads.old.reached.seen.turns ≤ threads.new.reached.seen.turns }
    ensures crosses { NextsGive nfa.now (search_of input.now) at false (held threads.old slots.old) result
        (held threads.new slots.new) }
{
    let mut last = SlotsSink {
        slots,
        hit: None,
        past_match: false,
    };
    nexts_of_one_with(nfa, input, at, threads, &mut last);
    swap_state_sets(threads);
    last.hit
}

/// Follows the start state at a position where no other state is kept, and goes on to those that its byte leads to. It
/// writes to the slots as to the state's row, so it copies no row. Returns the first match, and leaves its slots. If
/// there is none, it unsets them.
///
/// Requires a position that may not be skipped for its byte. Only that clause uses the table of first bytes and
/// `starts.stop`.
#[inline(always)]
pub fn nexts_of_start(
    here: &ClosureContext<'_, '_>,
    first: &FirstBytes,
    starts: &Starts,
    threads: &mut Threads,
    slots: &mut [Slot],
) -> Option<PatternID>
    requires here { IsClosureContext here.now }
    requires due { here.now.at < starts.now.stop
        → IsRefused first.now.may_begin (search_of here.now.input.now) here.now.at → ⊥ }
    requires state { starts.now.state < length here.now.nfa.now.states }
    requires room { HaveRows here.now.nfa.now (length slots.old) threads.old }
    requires unset { slots.old ≡ blank (length slots.old) }
    requires empty { threads.old.reached.next.items ≡ [] }
    ensures next { threads.new.reached.next.items ≡ [] }
    ensures keeps { KeepsThreads threads.old threads.new }
    ensures grows { threads.old.reached.seen.turns ≤ threads.new.reached.seen.turns }
    ensures crosses { NextsGive here.now.nfa.now (search_of here.now.input.now) here.now.at false
        (between threads.old.reached.seen ((starts.now.state, blank (length slots.old)) ∷ []) slots.old) result
        (held threads.new slots.new) }
{
    let Threads {
        frames,
        reached,
        ..
    } = threads;
    reached.seen.clear();
    let mut top = 0;
    let frames = frames.as_mut_slice();
    let hit = next_match(here, starts.state, frames, &mut top, reached, slots);
    if hit.is_none() {
        unset_row(slots);
    }
    swap_state_sets(threads);
    hit
}
