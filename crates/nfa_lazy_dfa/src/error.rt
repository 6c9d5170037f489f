//! Why a search of a lazy DFA stops without an answer.
ghost use Rattle.std.specs.Prelude.{◌≡◌};
ghost use Rattle.nfa_lazy_dfa.specs.Capacities.{stop_at};

use nfa_search_base::error::SearchError;
use regex_search_core::MatchError;
use std::alloc::{AllocError, AllocFailed};
use thiserror::Error;

/// Why a search stopped before it knew the answer. Another engine can search the same input: the error says nothing of
/// the haystack's matches. Making an error allocates nothing.
#[derive(Clone, Copy, Debug, PartialEq, Eq, Hash, Error)]
pub enum StopError {
    /// The rows filled the cache, and the search had cleared it as often as the configuration allows. The scan was at
    /// this offset of the haystack.
    #[error("the search gave up at offset {offset}")]
    GaveUp { offset: usize },
    /// The NFA has an assertion of a Unicode word, and the haystack has this byte, of 128 or more, at this offset: in
    /// the span, just before it or just after it.
    #[error("the search must stop at byte {byte}, at offset {offset}")]
    Quit { byte: u8, offset: usize },
    /// An allocation failed.
    #[error("out of memory")]
    Memory,
}

impl From<AllocError> for StopError {
    ghost use Rattle.std.specs.Prelude.{◌≡◌};
    ghost use Rattle.nfa_lazy_dfa.specs.declared.error.StopError.TheVariants as error;

    ghost from_gives = { λ _ made. made ≡ error.Memory };

    fn from(_: AllocError) -> StopError {
        StopError::Memory
    }
}

/// A search that is a step of an iteration (`nfa_search_base::iter`) fails with `Memory`, or as a finder that failed.
impl From<StopError> for SearchError {
    ghost use Rattle.std.specs.Prelude.{◌≡◌};
    ghost use Rattle.nfa_lazy_dfa.specs.Finders.{search_error_of};

    ghost from_gives = { λ stop made. made ≡ search_error_of stop };

    fn from(stop: StopError) -> SearchError {
        match stop {
            StopError::GaveUp { offset } => SearchError::Finder(MatchError::GaveUp { offset }),
            StopError::Quit { byte, offset } => {
                SearchError::Finder(MatchError::Quit { byte, offset })
            }
            StopError::Memory => SearchError::Memory,
        }
    }
}

/// Why a cache has no row that a scan needs.
#[derive(Clone, Copy, Debug)]
pub enum GaveUp {
    /// The rows filled the cache, and may not be cleared again.
    Full,
    /// An allocation failed.
    Memory,
}

impl GaveUp {
    /// Returns the error of a search whose scan is at this offset.
    pub fn at(self, offset: usize) -> StopError
        ensures { result ≡ stop_at self offset }
    {
        match self {
            GaveUp::Full => StopError::GaveUp { offset },
            GaveUp::Memory => StopError::Memory,
        }
    }
}

impl From<AllocError> for GaveUp {
    ghost use Rattle.std.specs.Prelude.{◌≡◌};
    ghost use Rattle.nfa_lazy_dfa.specs.declared.error.GaveUp.TheVariants as reasons;

    ghost from_gives = { λ _ made. made ≡ reasons.Memory };

    fn from(_: AllocError) -> GaveUp {
        GaveUp::Memory
    }
}

impl<T: Drop> From<AllocFailed<T>> for GaveUp {
    ghost use Rattle.std.specs.Prelude.{◌≡◌};
    ghost use Rattle.nfa_lazy_dfa.specs.declared.error.GaveUp.TheVariants as reasons;

    ghost from_gives = { λ _ made. made ≡ reasons.Memory };

    fn from(_: AllocFailed<T>) -> GaveUp {
        GaveUp::Memory
    }
}
