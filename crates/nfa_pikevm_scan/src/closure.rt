//! The states that a state leads to without reading a byte.
ghost use Rattle.std.specs.Prelude.{◌≡◌, ℕ, ◌+◌, ◌<◌, ◌≤◌, [], ◌∷◌, ◌++◌, None, length, map, reverse, drop};
ghost use Rattle.std.specs.Prelude.{take, slice_index_or, All, IfSome};
ghost use Rattle.std.specs.Option.{option_to_list};
ghost use Rattle.regex_search_core.specs.Search.{search_of};
ghost use Rattle.thompson_nfa.specs.Automaton.{LeadsBelow, node_of};
ghost use Rattle.nfa_pikevm_scan.specs.Needs.{stack_frames};
ghost use Rattle.nfa_pikevm_scan.specs.States.{moment_of, state_of, state_on, undone, Entered, FindsMatch, HasRoom};
ghost use Rattle.nfa_pikevm_scan.specs.States.{HasSlot, IsClosureContext, IsWithin, KeepsRoom, Resumes, VisitsState};
ghost use Rattle.nfa_pikevm_scan.specs.States.{WasSeen};
ghost use Rattle.nfa_pikevm_scan.specs.Sinks.{ClosureGives};
ghost use Rattle.nfa_pikevm_scan.specs.declared.frame.FollowEpsilon.TheVariants.{Explore, Restore};

use crate::active::ActiveStates;
use crate::frame::FollowEpsilon;
use crate::seen::Seen;
use crate::sink::MatchSink;
use crate::slot::Slot;
use nfa_scan_core::transitions::{dense_target, range_target, sparse_target};
use regex_search_core::{Input, PatternID, StateID};
use thompson_nfa::{NFA, State, look_matches};

/// The place of a scan: all that does not change while the states of a position are followed.
#[derive(Clone, Copy)]
pub struct ClosureContext<'n, 'h> {
    pub nfa: &'n NFA,
    pub input: &'n Input<'h>,
    pub at: usize,
    /// The byte at the position, if it is before the end of the span.
    pub byte: Option<u8>,
}

/// What is reached from a position: the states that were entered there, and those that its byte leads to.
#[derive(Debug, Drop)]
pub struct ClosureOutput {
    pub seen: Seen,
    pub next: ActiveStates,
}

/// The result of a turn.
#[derive(Clone, Copy)]
pub enum Move {
    /// The turn leads to this state, at the same position.
    On(StateID),
    /// The turn leads to a match of the pattern.
    Matched(PatternID),
    /// The turn leads nowhere at this position.
    DeadEnd,
}

/// Puts a frame on top of the stack, which has `top` frames.
#[inline(always)]
fn push(frames: &mut [FollowEpsilon], top: &mut usize, frame: FollowEpsilon)
    requires { top.old < length frames.old }
    ensures top { top.new ≡ top.old + 1 }
    ensures stack { take top.new frames.new ≡ take top.old frames.old ++ frame ∷ [] }
{
    frames[*top] = frame;
    *top += 1;
}

/// Pushes all alternatives but the first, with the earliest on top.
#[inline(always)]
fn push_alternates(frames: &mut [FollowEpsilon], top: &mut usize, alternates: &[StateID])
    requires { top.old + length (drop 1 alternates.now) ≤ length frames.old }
    ensures top { top.new ≡ top.old + length (drop 1 alternates.now) }
    ensures stack { take top.new frames.new
        ≡ take top.old frames.old ++ map (λ sid. Explore sid) (reverse (drop 1 alternates.now)) }
{
    let mut left = alternates.len();
    while left > 1 {
        left -= 1;
        push(
            frames,
            top,
            FollowEpsilon::Explore {
                sid: alternates[left],
            },
        );
    }
}

/// Pushes a frame that restores what the slot holds, for the frames below it. If the stack is empty, it pushes nothing.
#[inline(always)]
fn push_restore(frames: &mut [FollowEpsilon], top: &mut usize, slots: &[Slot], slot: usize)
    requires room { top.old < length frames.old }
    requires slot { slot < length slots.now }
    ensures empty { top.old ≡ 0 → top.new ≡ 0 }
    ensures top { 0 < top.old → top.new ≡ top.old + 1 }
    ensures stack { 0 < top.old → take top.new frames.new ≡ take top.old frames.old
        ++ Restore slot (slice_index_or slots.now slot None) ∷ [] }
{
    if *top > 0 {
        let old = slots[slot];
        push(frames, top, FollowEpsilon::Restore { slot, old });
    }
}

/// Keeps the state that a byte leads to, if there is one.
#[inline(always)]
fn push_target(target: Option<StateID>, next: &mut ActiveStates, slots: &[Slot])
    requires room { length next.old.items < next.old.capacity }
    requires width { length slots.now ≡ next.old.width }
    ensures kept { next.new.items ≡ next.old.items ++ map (λ sid. (sid, slots.now)) (option_to_list target) }
    ensures same { next.new ≡ record next.old { items = next.new.items } }
{
    if let Some(sid) = target {
        next.push(sid, slots);
    }
}

/// Tries to mark the state, and returns it if it was unmarked. This is one turn.
#[inline(always)]
fn enter<'n>(nfa: &'n NFA, sid: StateID, seen: &mut Seen) -> Option<&'n State>
    requires state { sid < length nfa.now.states }
    requires marks { length nfa.now.states ≤ length seen.old.bits }
    ensures turns { seen.new.turns ≡ seen.old.turns + 1 }
    ensures size { length seen.new.bits ≡ length seen.old.bits }
    ensures marked { result ≡ None → WasSeen sid seen.old seen.new }
    ensures entered { IfSome result (λ state. Entered nfa.now sid (node_of state.now) seen.old seen.new) }
    ensures leads { IfSome result (λ state. LeadsBelow (length nfa.now.states) (node_of state.now)) }
{
    if !seen.insert(sid.as_usize()) {
        return None;
    }
    Some(nfa.state(sid))
}

/// Takes one turn: tries to enter the state, and returns where it leads. If the state matches the byte, the state that
/// the byte leads to is kept. The turn uses no more of the stack than the NFA needs, however long the stack is.
#[inline(always)]
pub fn visit_state(
    here: &ClosureContext<'_, '_>,
    sid: StateID,
    frames: &mut [FollowEpsilon],
    top: &mut usize,
    reached: &mut ClosureOutput,
    row: &mut [Slot],
) -> Move
    requires here { IsClosureContext here.now }
    requires state { sid < length here.now.nfa.now.states }
    requires top { top.old ≤ stack_frames here.now.nfa.now }
    requires room { HasRoom here.now.nfa.now reached.old top.old (length frames.old) }
    requires width { length row.old ≡ reached.old.next.width }
    requires within { All (IsWithin (length here.now.nfa.now.states) (length row.old)) (take top.old frames.old) }
    ensures turns { reached.new.seen.turns ≡ reached.old.seen.turns + 1 }
    ensures keeps { KeepsRoom reached.old reached.new }
    ensures top { top.new ≤ stack_frames here.now.nfa.now }
    ensures state { IfSome (state_on result) (λ on. on < length here.now.nfa.now.states) }
    ensures within { All (IsWithin (length here.now.nfa.now.states) (length row.old)) (take top.new frames.new) }
    ensures enters { VisitsState here.now.nfa.now (search_of here.now.input.now) here.now.at sid
        (moment_of reached.old (take top.old frames.old) row.old) result
        (moment_of reached.new (take top.new frames.new) row.new) }
{
    let Some(state) = enter(here.nfa, sid, &mut reached.seen) else {
        return Move::DeadEnd;
    };
    match state {
        State::ByteRange { trans } => {
            push_target(range_target(trans, here.byte), &mut reached.next, row);
            Move::DeadEnd
        }
        State::Sparse(transitions) => {
            push_target(
                sparse_target(transitions, here.byte),
                &mut reached.next,
                row,
            );
            Move::DeadEnd
        }
        State::Dense(targets) => {
            push_target(dense_target(targets, here.byte), &mut reached.next, row);
            Move::DeadEnd
        }
        State::Look { look, next } => {
            if look_matches(*look, here.input.haystack(), here.at) {
                Move::On(*next)
            } else {
                Move::DeadEnd
            }
        }
        State::Union { alternates } => {
            let Some(first) = alternates.first() else {
                return Move::DeadEnd;
            };
            push_alternates(frames, top, alternates);
            Move::On(*first)
        }
        State::BinaryUnion { alt1, alt2 } => {
            push(frames, top, FollowEpsilon::Explore { sid: *alt2 });
            Move::On(*alt1)
        }
        State::Capture { next, slot } => {
            if *slot < row.len() {
                push_restore(frames, top, row, *slot);
                row[*slot] = Slot::new(here.at);
            }
            Move::On(*next)
        }
        State::Fail => Move::DeadEnd,
        State::Match { pattern_id } => Move::Matched(*pattern_id),
    }
}

/// Applies a frame: returns its state to follow, or restores its slot.
#[inline(always)]
fn apply_frame(frame: FollowEpsilon, row: &mut [Slot]) -> Option<StateID>
    requires { HasSlot (length row.old) frame }
    ensures state { result ≡ state_of frame }
    ensures row { row.new ≡ undone frame row.old }
{
    match frame {
        FollowEpsilon::Explore { sid } => Some(sid),
        FollowEpsilon::Restore { slot, old } => {
            row[slot] = old;
            None
        }
    }
}

/// Pops and applies frames, down to a state to follow.
#[inline(always)]
pub fn resume(frames: &[FollowEpsilon], top: &mut usize, row: &mut [Slot]) -> Option<StateID>
    requires top { top.old ≤ length frames.now }
    requires slots { All (HasSlot (length row.old)) (take top.old frames.now) }
    ensures top { top.new ≤ top.old }
    ensures state { (states : ℕ) → All (IsWithin states (length row.old)) (take top.old frames.now)
        → IfSome result (λ state. state < states) }
    ensures over { result ≡ None → top.new ≡ 0 }
    ensures resumes { Resumes (take top.old frames.now) row.old result (take top.new frames.now) row.new }
{
    while *top > 0 {
        *top -= 1;
        if let Some(sid) = apply_frame(frames[*top], row) {
            return Some(sid);
        }
    }
    None
}

/// Follows the state, and then those on the stack, through all that they lead to without reading a byte, up to the next
/// match. It keeps the states that the byte leads to. Returns the match, and leaves the remaining frames on the stack.
#[inline(always)]
pub fn next_match(
    here: &ClosureContext<'_, '_>,
    from: StateID,
    frames: &mut [FollowEpsilon],
    top: &mut usize,
    reached: &mut ClosureOutput,
    row: &mut [Slot],
) -> Option<PatternID>
    requires here { IsClosureContext here.now }
    requires state { from < length here.now.nfa.now.states }
    requires top { top.old ≤ stack_frames here.now.nfa.now }
    requires room { HasRoom here.now.nfa.now reached.old top.old (length frames.old) }
    requires width { length row.old ≡ reached.old.next.width }
    requires within { All (IsWithin (length here.now.nfa.now.states) (length row.old)) (take top.old frames.old) }
    ensures turns { reached.old.seen.turns < reached.new.seen.turns }
    ensures keeps { KeepsRoom reached.old reached.new }
    ensures top { top.new ≤ stack_frames here.now.nfa.now }
    ensures over { result ≡ None → top.new ≡ 0 }
    ensures within { All (IsWithin (length here.now.nfa.now.states) (length row.old)) (take top.new frames.new) }
    ensures finds { FindsMatch here.now.nfa.now (search_of here.now.input.now) here.now.at from
        (moment_of reached.old (take top.old frames.old) row.old) result
        (moment_of reached.new (take top.new frames.new) row.new) }
{
    let mut sid = from;
    loop {
        match visit_state(here, sid, frames, top, reached, row) {
            Move::On(on) => {
                sid = on;
                continue;
            }
            Move::Matched(pattern) => return Some(pattern),
            Move::DeadEnd => {}
        }
        match resume(frames, top, row) {
            Some(waiting) => sid = waiting,
            None => return None,
        }
    }
}

/// Follows all that the root leads to at the position, from match to match ([`next_match`]). It gives each match to the
/// sink, up to the one that the position ends with. Returns whether it ended.
#[inline(always)]
pub fn epsilon_closure<T: MatchSink>(
    here: &ClosureContext<'_, '_>,
    root: StateID,
    frames: &mut [FollowEpsilon],
    reached: &mut ClosureOutput,
    row: &mut [Slot],
    sink: &mut T,
) -> bool
    requires here { IsClosureContext here.now }
    requires state { root < length here.now.nfa.now.states }
    requires room { HasRoom here.now.nfa.now reached.old 0 (length frames.old) }
    requires width { length row.old ≡ reached.old.next.width }
    requires takes { length row.old ≡ T.row_width sink.old }
    ensures keeps { KeepsRoom reached.old reached.new }
    ensures grows { reached.old.seen.turns ≤ reached.new.seen.turns }
    ensures width { T.row_width sink.new ≡ T.row_width sink.old }
    ensures same_reference { T.reference sink.new ≡ T.reference sink.old }
    ensures arrives { ClosureGives here.now.nfa.now (search_of here.now.input.now) T.takes here.now.at root
        (moment_of reached.old [] row.old) sink.old result (moment_of reached.new [] []) sink.new }
{
    let mut top = 0;
    let mut sid = root;
    while let Some(pattern) = next_match(here, sid, frames, &mut top, reached, row) {
        if sink.take(pattern, row) {
            return true;
        }
        let Some(waiting) = resume(frames, &mut top, row) else {
            return false;
        };
        sid = waiting;
    }
    false
}
