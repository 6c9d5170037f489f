//! A walk: the search from one start, turn by turn, which skips marked pairs.
ghost use Rattle.std.specs.Prelude.{◌≡◌, ◌+◌, ◌<◌, ◌≤◌, [], ◌∷◌, ◌++◌, None, Some, length};
ghost use Rattle.std.specs.Prelude.{slice_index_or, slice_set, sum, All, IfOk, OnErr, OnOk};
ghost use Rattle.std.specs.Option.{option_map_or};
ghost use Rattle.regex_search_core.specs.Search.{search_of};
ghost use Rattle.thompson_nfa.specs.Looks.{look_holds};
ghost use Rattle.nfa_paths.specs.Restarts.{marked_sum};
ghost use Rattle.nfa_backtrack.specs.Walk.{pair_of, restoring, walk_of, weights, AppliesFrame, Begins, ComesTo};
ghost use Rattle.nfa_backtrack.specs.Walk.{Goes, HasBits, IsAfforded, IsStatePos, MayStep, MayWalk, Resumes};
ghost use Rattle.nfa_backtrack.specs.Walk.{StartGives};
ghost use Rattle.nfa_backtrack.specs.Walk.{WritesSlot};
ghost use Rattle.nfa_backtrack.specs.declared.walk.Move.TheVariants.{On, DeadEnd};
ghost use Rattle.nfa_backtrack.specs.declared.walk.Outcome.TheVariants.{Matched, Failed};

use crate::alternates::push_alternates;
use crate::byte_loop::{byte_loop_at, run_loop};
use crate::frame::{Frame, StatePos};
use crate::scratch::Scratch;
use crate::turn::{cross, mark, state_at};
use crate::visited::Visited;
use nfa_scan_core::transitions::{byte_at, dense_target, range_target, sparse_target};
use regex_search_core::{HalfMatch, Input, NonMaxUsize, PatternID, Refused};
use thompson_nfa::{Look, NFA, State, look_matches};

/// The result of a turn.
#[derive(Clone, Copy)]
pub enum Move {
    /// The search goes on at this place.
    On(StatePos),
    /// The turn leads nowhere.
    DeadEnd,
    /// The turn leads to a match of the pattern.
    Matched(PatternID),
}

/// The result of a turn and, if the turn leads nowhere, of the frames after it.
pub enum Outcome {
    /// The search goes on at this place.
    On(StatePos),
    /// The search ends with a match.
    Matched(HalfMatch),
    /// The search ends without a match.
    Failed,
}

/// Returns the move to the place, if there is one.
#[inline(always)]
fn move_to(next: Option<StatePos>) -> Move
    ensures { result ≡ option_map_or On next DeadEnd }
{
    match next {
        Some(place) => Move::On(place),
        None => Move::DeadEnd,
    }
}

/// Returns whether the assertion holds at the position. It is a function of its own, so that its values take no
/// registers from the walk.
#[inline(never)]
fn assertion_holds(look: Look, haystack: &[u8], at: usize) -> bool
    requires { at ≤ length haystack.now }
    ensures { result ≡ look_holds look haystack.now at }
{
    look_matches(look, haystack, at)
}

/// Writes the position to the slot, and pushes a frame that restores what the slot holds.
#[inline(always)]
fn save(
    stack: &mut Vec<Frame>,
    slots: &mut [Option<NonMaxUsize>],
    slot: usize,
    at: usize,
) -> Result<(), Refused>
    requires slot { slot < length slots.old }
    requires at { at < usize.MAX }
    ensures stack { OnOk result (stack.new.items
        ≡ stack.old.items ++ restoring slot (slice_index_or slots.old slot None) ∷ []) }
    ensures slots { OnOk result (slots.new ≡ slice_set slots.old slot (Some at)) }
{
    push_restore(stack, slot, slots[slot])?;
    write(slots, slot, at);
    Ok(())
}

/// Pushes a frame that restores the old value of the slot.
#[inline(always)]
fn push_restore(
    stack: &mut Vec<Frame>,
    slot: usize,
    old: Option<NonMaxUsize>,
) -> Result<(), Refused>
    ensures { OnOk result (stack.new.items ≡ stack.old.items ++ restoring slot old ∷ []) }
{
    match old {
        Some(offset) => {
            stack.push(Frame::Restore { slot, offset })?;
            Ok(())
        }
        None => {
            stack.push(Frame::Clear { slot })?;
            Ok(())
        }
    }
}

/// Takes one turn, or the turns of a loop over one byte: tries to mark the place, and returns where it leads.
#[inline(always)]
#[tactic(auto, using(crate::proofs::StepLemmas::same_size))]
fn step(
    nfa: &NFA,
    states: &[State],
    input: &Input<'_>,
    place: StatePos,
    scratch: &mut Scratch,
    slots: &mut [Option<NonMaxUsize>],
) -> Result<Move, Refused>
    requires ready { MayStep nfa.now states.now (search_of input.now) place (walk_of scratch.old slots.old) }
    ensures turns { scratch.old.visited.turns + 1 ≤ scratch.new.visited.turns }
    ensures scans { scratch.new.scans ≡ scratch.old.scans }
    ensures size { length scratch.new.visited.bits ≡ length scratch.old.visited.bits }
    ensures refused { OnErr result (IsAfforded nfa.now (search_of input.now) scratch.old.stack.items scratch.old.visited
        scratch.new.visited) }
    ensures goes { IfOk result (λ move. Goes nfa.now (search_of input.now) (pair_of place) move
        (walk_of scratch.old slots.old) (walk_of scratch.new slots.new)) }
{
    let StatePos { sid, at, .. } = place;
    let count = states.len();
    match state_at(nfa, states, sid) {
        State::ByteRange { trans } => {
            let target = range_target(trans, byte_at(input, at));
            let next = cross(nfa, input, place, target, count, &mut scratch.visited);
            Ok(move_to(next))
        }
        State::Sparse(transitions) => {
            let target = sparse_target(transitions, byte_at(input, at));
            let next = cross(nfa, input, place, target, count, &mut scratch.visited);
            Ok(move_to(next))
        }
        State::Dense(targets) => {
            let target = dense_target(targets, byte_at(input, at));
            let next = cross(nfa, input, place, target, count, &mut scratch.visited);
            Ok(move_to(next))
        }
        State::Look { look, next } => {
            if !mark(nfa, input, place, &mut scratch.visited) {
                return Ok(Move::DeadEnd);
            }
            if assertion_holds(*look, input.haystack(), at) {
                Ok(Move::On(place.to(*next)))
            } else {
                Ok(Move::DeadEnd)
            }
        }
        State::Union { alternates } => {
            if !mark(nfa, input, place, &mut scratch.visited) {
                return Ok(Move::DeadEnd);
            }
            let Some(first) = alternates.first() else {
                return Ok(Move::DeadEnd);
            };
            let byte = byte_at(input, at);
            push_alternates(nfa, &mut scratch.stack, alternates, place, byte)?;
            Ok(Move::On(place.to(*first)))
        }
        State::BinaryUnion { alt1, alt2 } => {
            if !mark(nfa, input, place, &mut scratch.visited) {
                return Ok(Move::DeadEnd);
            }
            // Read before the stack is written: the compiler then reads each arm's target in its arm.
            let preferred = place.to(*alt1);
            scratch.stack.push(place.later(*alt2))?;
            if let Some(trans) = byte_loop_at(nfa, states, input, at, *alt1, *alt2) {
                run_loop(nfa, input, preferred, trans, *alt2, scratch)?;
                return Ok(Move::DeadEnd);
            }
            Ok(Move::On(preferred))
        }
        State::Capture { next, slot } => {
            if !mark(nfa, input, place, &mut scratch.visited) {
                return Ok(Move::DeadEnd);
            }
            if *slot < slots.len() {
                save(&mut scratch.stack, slots, *slot, at)?;
            }
            Ok(Move::On(place.to(*next)))
        }
        State::Fail => {
            scratch.visited.pass();
            Ok(Move::DeadEnd)
        }
        State::Match { pattern_id } => {
            if !mark(nfa, input, place, &mut scratch.visited) {
                return Ok(Move::DeadEnd);
            }
            Ok(Move::Matched(*pattern_id))
        }
    }
}

/// Applies a frame: returns its place to search from, or restores the slot.
#[inline(always)]
fn apply_frame(frame: Frame, slots: &mut [Option<NonMaxUsize>]) -> Option<StatePos>
    requires { WritesSlot (length slots.old) frame }
    ensures { AppliesFrame frame slots.old result slots.new }
{
    match frame {
        Frame::Step { sid, at, row } => Some(StatePos { sid, at, row }),
        Frame::Restore { slot, offset } => {
            slots[slot] = Some(offset);
            None
        }
        Frame::Clear { slot } => {
            slots[slot] = None;
            None
        }
    }
}

/// Pops and applies frames, down to a place to search from.
#[inline(always)]
fn resume(stack: &mut Vec<Frame>, slots: &mut [Option<NonMaxUsize>]) -> Option<StatePos>
    requires { All (WritesSlot (length slots.old)) stack.old.items }
    ensures resumes { Resumes stack.old.items slots.old result stack.new.items slots.new }
    ensures over { result ≡ None → stack.new.items ≡ [] }
{
    while let Some(frame) = stack.pop() {
        if let Some(place) = apply_frame(frame, slots) {
            return Some(place);
        }
    }
    None
}

/// Takes a turn and, if it leads nowhere, pops frames.
#[inline(always)]
fn advance(
    nfa: &NFA,
    states: &[State],
    input: &Input<'_>,
    place: StatePos,
    scratch: &mut Scratch,
    slots: &mut [Option<NonMaxUsize>],
) -> Result<Outcome, Refused>
    requires ready { MayStep nfa.now states.now (search_of input.now) place (walk_of scratch.old slots.old) }
    ensures turns { scratch.old.visited.turns + 1 ≤ scratch.new.visited.turns }
    ensures scans { scratch.new.scans ≡ scratch.old.scans }
    ensures size { length scratch.new.visited.bits ≡ length scratch.old.visited.bits }
    ensures refused { OnErr result (IsAfforded nfa.now (search_of input.now) scratch.old.stack.items scratch.old.visited
        scratch.new.visited) }
    ensures advances { IfOk result (λ turn. ComesTo nfa.now (search_of input.now) (pair_of place) turn
        (walk_of scratch.old slots.old) (walk_of scratch.new slots.new)) }
{
    let at = place.at;
    match step(nfa, states, input, place, scratch, slots)? {
        Move::On(next) => Ok(Outcome::On(next)),
        Move::Matched(pattern) => Ok(Outcome::Matched(HalfMatch::new(pattern, at))),
        Move::DeadEnd => match resume(&mut scratch.stack, slots) {
            Some(next) => Ok(Outcome::On(next)),
            None => Ok(Outcome::Failed),
        },
    }
}

/// Writes the position to the slot.
#[inline(always)]
fn write(slots: &mut [Option<NonMaxUsize>], slot: usize, at: usize)
    requires slot { slot < length slots.old }
    requires at { at < usize.MAX }
    ensures { slots.new ≡ slice_set slots.old slot (Some at) }
{
    // A position in the span is an offset. With this stated, it is written without a test.
    let Some(offset) = NonMaxUsize::new(at) else {
        unreachable!()
    };
    slots[slot] = Some(offset);
}

/// Takes the first turn of a walk, if its state is a `Capture`, and returns the place that it leads to. Returns `None`
/// if the place is already marked.
///
/// No frame restores the slot: a later start has the same state, and writes it again.
#[inline(always)]
fn begin(
    nfa: &NFA,
    input: &Input<'_>,
    place: StatePos,
    visited: &mut Visited,
    slots: &mut [Option<NonMaxUsize>],
) -> Option<StatePos>
    requires place { IsStatePos nfa.now (search_of input.now) place }
    requires room { HasBits nfa.now (search_of input.now) visited.old.bits }
    ensures size { length visited.new.bits ≡ length visited.old.bits }
    ensures begins { Begins nfa.now (search_of input.now) (pair_of place) result
        record { stack = []; marks = visited.old; slots = slots.old }
        record { stack = []; marks = visited.new; slots = slots.new } }
{
    match state_at(nfa, nfa.states(), place.sid) {
        State::Capture { next, slot } => {
            if !mark(nfa, input, place, visited) {
                return None;
            }
            if *slot < slots.len() {
                write(slots, *slot, place.at);
            }
            Some(place.to(*next))
        }
        _ => Some(place),
    }
}

/// Searches from a start to the first match, skips marked pairs, and leaves the stack empty. If there is no match, the
/// slot that the first turn wrote stays written.
pub fn walk(
    nfa: &NFA,
    input: &Input<'_>,
    start: StatePos,
    scratch: &mut Scratch,
    slots: &mut [Option<NonMaxUsize>],
) -> Result<Option<HalfMatch>, Refused>
    requires place { IsStatePos nfa.now (search_of input.now) start }
    requires room { HasBits nfa.now (search_of input.now) scratch.old.visited.bits }
    requires empty { scratch.old.stack.items ≡ [] }
    ensures scans { scratch.new.scans ≡ scratch.old.scans }
    ensures size { length scratch.new.visited.bits ≡ length scratch.old.visited.bits }
    ensures bounded { scratch.new.visited.turns + marked_sum (weights nfa.now (search_of input.now))
        scratch.old.visited.bits ≤ scratch.old.visited.turns + 1 + sum (weights nfa.now (search_of input.now)) }
    ensures walks { IfOk result (λ half. StartGives nfa.now (search_of input.now) (pair_of start) half
        (walk_of scratch.old slots.old) (walk_of scratch.new slots.new)) }
    ensures over { OnOk result (scratch.new.stack.items ≡ []) }
{
    match begin(nfa, input, start, &mut scratch.visited, slots) {
        None => Ok(None),
        Some(place) => match walk_on(nfa, input, place, scratch, slots)? {
            Some(half) => {
                scratch.stack.clear();
                Ok(Some(half))
            }
            None => Ok(None),
        },
    }
}

/// Searches from a place to the first match, and skips marked pairs.
#[inline(always)]
fn walk_on(
    nfa: &NFA,
    input: &Input<'_>,
    start: StatePos,
    scratch: &mut Scratch,
    slots: &mut [Option<NonMaxUsize>],
) -> Result<Option<HalfMatch>, Refused>
    requires ready { MayWalk nfa.now (search_of input.now) start (walk_of scratch.old slots.old) }
    ensures scans { scratch.new.scans ≡ scratch.old.scans }
    ensures size { length scratch.new.visited.bits ≡ length scratch.old.visited.bits }
    ensures bounded { scratch.new.visited.turns + marked_sum (weights nfa.now (search_of input.now))
        scratch.old.visited.bits ≤ scratch.old.visited.turns + 1 + sum (weights nfa.now (search_of input.now)) }
    ensures walks { IfOk result (λ half. ComesTo nfa.now (search_of input.now) (pair_of start)
        (option_map_or Matched half Failed) (walk_of scratch.old slots.old) (walk_of scratch.new slots.new)) }
{
    // Both are read at each place. As local values they need not be read again after each write, as values behind a
    // reference would.
    let states = nfa.states();
    let own_input = *input;
    let mut place = start;
    loop {
        match advance(nfa, states, &own_input, place, scratch, slots)? {
            Outcome::On(next) => place = next,
            Outcome::Matched(half) => return Ok(Some(half)),
            Outcome::Failed => return Ok(None),
        }
    }
}
