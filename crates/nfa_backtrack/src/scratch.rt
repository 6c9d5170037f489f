//! The stack, the marks and the count of scans of one search.
use crate::frame::Frame;
use crate::visited::Visited;
use nfa_scan_core::counter::Counter;

/// All that a search writes besides its slots.
#[derive(Debug, Drop)]
pub struct Scratch {
    /// What is left to do, the next frame on top.
    pub stack: Vec<Frame>,
    /// The pairs that were tried.
    pub visited: Visited,
    /// The number of scans that the search has made.
    pub scans: Counter,
}
