//! A search that follows all states of an NFA side by side, under its public names.
//!
//! Use it if a search must not fail: for haystacks of any length, for every match kind and `earliest`, and for the set
//! of all patterns that match. It requires a cache that fits, which [`PikeVM::create_cache`] makes; no search changes
//! that. On short spans [`crate::backtrack`] is usually faster. `nfa_choice` holds both.
//!
//! ```
//! let vm = PikeVM::new_from_nfa(nfa)?;
//! let mut cache = vm.create_cache(alloc)?;
//! let mut captures = vm.create_captures(alloc)?;
//! vm.captures(&mut cache, Input::new(b"2010-03-14"), &mut captures);
//! if let Some(year) = captures.get_group(1) {
//!     println!(rt; "{}..{}", year.start, year.end)?;
//! }
//! ```

pub use nfa_pikevm::{Builder, Cache, CapturesMatches, Config, FindMatches, PikeVM};
