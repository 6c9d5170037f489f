//! Places of a search, and the frames of its stack.
ghost use Rattle.std.specs.Prelude.{◌≡◌};

use regex_search_core::{NonMaxUsize, StateID};

/// A state, and a position in the haystack with the row of its marks.
#[derive(Clone, Copy, Debug)]
pub struct StatePos {
    pub sid: StateID,
    pub at: usize,
    /// The number of the position's first mark: its distance from the start of the span, times the number of states. A
    /// step on a byte adds the number of states, which is cheaper than to compute the row at each place.
    pub row: usize,
}

impl StatePos {
    ghost use Rattle.nfa_backtrack.specs.declared.frame.Frame.TheVariants.{Step};

    /// Returns another state at this position.
    #[inline(always)]
    pub fn to(&self, sid: StateID) -> StatePos
        ensures { result ≡ record self.now { sid = sid } }
    {
        StatePos {
            sid,
            at: self.at,
            row: self.row,
        }
    }

    /// Returns the frame that searches later from another state at this position.
    #[inline(always)]
    pub fn later(&self, sid: StateID) -> Frame
        ensures { result ≡ Step sid self.now.at self.now.row }
    {
        Frame::Step {
            sid,
            at: self.at,
            row: self.row,
        }
    }
}

/// What to do if the search from the current place finds nothing.
#[derive(Clone, Copy, Debug)]
pub enum Frame {
    /// Search from this place.
    Step { sid: StateID, at: usize, row: usize },
    /// Set the slot to this offset again.
    Restore { slot: usize, offset: NonMaxUsize },
    /// Unset the slot again.
    Clear { slot: usize },
}
