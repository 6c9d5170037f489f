//! Takers of the matches that are found at a position, in order.
ghost use Rattle.std.specs.Prelude.{◌≡◌, ℕ, Bool, length};
ghost use Rattle.regex_search_core.specs.declared.primitives.PatternID.{PatternID};
ghost use Rattle.nfa_paths.specs.Exploring.{Slots};
ghost use Rattle.nfa_pikevm_scan.specs.Sinks.{SlotsSinkTakes};

use crate::slot::{Slot, copy_row};
use regex_search_core::PatternID;

/// Takes the matches of a position.
pub trait MatchSink {
    // The number of slots in the rows that it takes.
    ghost row_width: { Self → ℕ };

    // The result of taking a match of the pattern with this row: whether the position ends with it, and the new state
    // of the sink.
    ghost takes: { Self → PatternID → Slots → Bool → Self → Type 0 };

    // The reference that it holds.
    ghost reference: { Self → ℕ };

    /// Returns the number of slots in the rows.
    fn width(&self) -> usize
        ensures { result ≡ row_width self.now };

    /// Takes a match, and returns whether the position ends with it.
    fn take(&mut self, pattern: PatternID, row: &[Slot]) -> bool
        requires { length row.now ≡ row_width self.old }
        ensures width { row_width self.new ≡ row_width self.old }
        ensures same_reference { reference self.new ≡ reference self.old }
        ensures takes { takes self.old pattern row.now result self.new };
}

/// The row of the match that was taken last. Without `past_match` this is the first one.
#[derive(Drop)]
pub struct SlotsSink<'r> {
    pub slots: &'r mut [Slot],
    pub hit: Option<PatternID>,
    pub past_match: bool,
}

impl MatchSink for SlotsSink<'_> {
    ghost row_width = { λ s. length s.slots.now };

    ghost takes = { SlotsSinkTakes };

    ghost reference = { λ s. s.slots.ghost_name };

    #[inline(always)]
    fn width(&self) -> usize {
        self.slots.len()
    }

    #[inline(always)]
    fn take(&mut self, pattern: PatternID, row: &[Slot]) -> bool {
        copy_row(self.slots, row);
        self.hit = Some(pattern);
        !self.past_match
    }
}
