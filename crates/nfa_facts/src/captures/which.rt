//! Which captures an NFA has.

/// Which groups of its patterns an NFA records.
#[derive(Clone, Copy, Debug, PartialEq, Eq)]
pub enum WhichCaptures {
    /// All that it has.
    All,
    /// Group 0 of each pattern, so the start and the end of each match.
    Implicit,
    /// None.
    None,
}
