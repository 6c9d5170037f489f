//! All that a scan writes besides its slots.
ghost use Rattle.std.specs.Prelude.{◌≡◌, [], length, IfOk};

use crate::active::ActiveStates;
use crate::closure::ClosureOutput;
use crate::frame::FollowEpsilon;
use crate::seen::Seen;
use nfa_scan_core::counter::Counter;
use regex_search_core::Refused;
use std::alloc::Global;

/// All that a scan writes besides its slots: the frames of a closure, the states at its position, what is reached from
/// there, and the count of scans. The two sets of states have equal room, and rows of one width.
#[derive(Debug, Drop)]
pub struct Threads {
    pub frames: Vec<FollowEpsilon>,
    pub curr: ActiveStates,
    pub reached: ClosureOutput,
    /// The number of scans.
    pub scans: Counter,
    ghost same_capacity: { reached.next.capacity ≡ curr.capacity },
    ghost same_cells: { reached.next.cells ≡ curr.cells },
    ghost same_width: { reached.next.width ≡ curr.width },
}

impl Threads {
    /// Makes threads with room for no state.
    pub fn new(alloc: Global) -> Result<Threads, Refused>
        ensures seen { IfOk result (λ made. made.reached.seen ≡ record { bits = []; turns = 0 }) }
        ensures curr { IfOk result (λ made. made.curr ≡ record { items = []; width = 0; capacity = 0; cells = 0 }) }
        ensures next { IfOk result (λ made.
            made.reached.next ≡ record { items = []; width = 0; capacity = 0; cells = 0 }) }
        ensures frames { IfOk result (λ made. made.frames.items ≡ []) }
        ensures scans { IfOk result (λ made. made.scans ≡ 0) }
    {
        Ok(Threads {
            frames: Vec::new(alloc),
            curr: ActiveStates::new(alloc)?,
            reached: ClosureOutput {
                seen: Seen::new(alloc),
                next: ActiveStates::new(alloc)?,
            },
            scans: Counter::new(),
        })
    }

    /// Returns the same states, marks and frames.
    pub fn copied(&self) -> Result<Threads, Refused>
        ensures seen { IfOk result (λ copy. copy.reached.seen ≡ self.now.reached.seen) }
        ensures curr { IfOk result (λ copy. copy.curr ≡ self.now.curr) }
        ensures next { IfOk result (λ copy. copy.reached.next ≡ self.now.reached.next) }
        ensures frames { IfOk result (λ copy. length copy.frames.items ≡ length self.now.frames.items) }
        ensures scans { IfOk result (λ copy. copy.scans ≡ self.now.scans) }
    {
        Ok(Threads {
            frames: self.frames.clone()?,
            curr: self.curr.copied()?,
            reached: ClosureOutput {
                seen: self.reached.seen.copied()?,
                next: self.reached.next.copied()?,
            },
            scans: self.scans.copy(),
        })
    }
}
