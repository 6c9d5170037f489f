//! Why a search fails.
//!
//! Searches of a PikeVM cannot fail. Its calls that allocate can, and so can every search of a backtracker. `?` turns a
//! [`Refused`], the error of a `push`, and the [`MatchError`] of a finder of your own into this error.
//!
//! ```
//! match engine.try_find(&mut cache, Input::new(text)) {
//!     Ok(found) => println!(rt; "{found:?}")?,
//!     Err(SearchError::HaystackTooLong { len }) => println!(rt; "{len} bytes are too many")?,
//!     Err(error) => return Err(error.into()),
//! }
//! ```
use regex_search_core::{MatchError, Refused};
use std::alloc::AllocFailed;
use thiserror::Error;

/// Why a search, or a step of an iteration, failed. Making an error allocates nothing.
#[derive(Clone, Copy, Debug, PartialEq, Eq, Error)]
pub enum SearchError {
    /// The span has `len` bytes, more than the engine's visited capacity allows for its NFA.
    #[error("the span of {len} bytes is too long for the visited capacity")]
    HaystackTooLong { len: usize },
    /// An allocation failed.
    #[error("out of memory")]
    Memory,
    /// The caller's finder failed with this error, which is passed on unread.
    #[error("the finder failed: {0}")]
    Finder(MatchError),
}

impl From<MatchError> for SearchError {
    ghost use Rattle.std.specs.Prelude.{◌≡◌};
    ghost use Rattle.nfa_search_base.specs.declared.error.SearchError.TheVariants as error;

    ghost from_gives = { λ e made. made ≡ error.Finder e };

    fn from(error: MatchError) -> SearchError {
        SearchError::Finder(error)
    }
}

impl<T: Drop> From<AllocFailed<T>> for SearchError {
    ghost use Rattle.std.specs.Prelude.{◌≡◌};
    ghost use Rattle.nfa_search_base.specs.declared.error.SearchError.TheVariants as error;

    ghost from_gives = { λ _ made. made ≡ error.Memory };

    fn from(_: AllocFailed<T>) -> SearchError {
        SearchError::Memory
    }
}

impl From<Refused> for SearchError {
    ghost use Rattle.std.specs.Prelude.{◌≡◌};
    ghost use Rattle.nfa_search_base.specs.declared.error.SearchError.TheVariants as error;

    ghost from_gives = { λ _ made. made ≡ error.Memory };

    fn from(_: Refused) -> SearchError {
        SearchError::Memory
    }
}
