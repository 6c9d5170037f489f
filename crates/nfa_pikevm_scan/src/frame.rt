//! The frames of the stack of a closure.
use crate::slot::Slot;
use regex_search_core::StateID;

/// What to do at a position when the current state leads to nothing more.
#[derive(Clone, Copy, Debug)]
pub enum FollowEpsilon {
    /// Follow this state.
    Explore { sid: StateID },
    /// Restore this slot to what it held.
    Restore { slot: usize, old: Slot },
}
