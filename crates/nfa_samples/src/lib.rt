//! Sample NFAs by name, for tests and for trying out the engines.
//!
//! Use this crate to try a search before you write an NFA of your own. `nfa_compiler` makes an NFA from a pattern, and
//! `thompson_nfa` from its states. [`answers`] has the answers of searches of the samples, and [`named_engine`] the
//! engine that an argument of a program names.
//!
//! ```
//! let nfa = sample(alloc, "foo_num")?.context("there is no NFA of this name")?;
//! let vm = PikeVM::new_from_nfa(nfa)?;
//! ```
#![tactic(auto)]

ghost use Rattle.std.specs.Prelude.{◌≡◌, ◌↔◌, Err, IfErr, IfOk, IsNone, IsOkUnless, IsSome};
ghost use Rattle.nfa_samples.specs.Names.{IsNoneOf, sample_names};

pub mod answers;
mod empties;
pub mod named_engine;
mod state_table;
mod tables;
mod words;

use std::alloc::Global;
use thompson_nfa::{BuildError, NFA};

/// Returns the sample NFA of this name, or `None` exactly if the name is unknown.
///
/// The samples are well formed, so the only error is `Memory`, if an allocation failed.
pub fn sample(alloc: Global, name: &str) -> Result<Option<NFA>, BuildError>
    ensures none { IfOk result (λ found. IsNone found ↔ IsNoneOf name.now sample_names) }
    ensures known { IfErr result (λ _. ¬ (IsNoneOf name.now sample_names)) }
    ensures memory { IsOkUnless result BuildError.Memory }
{
    if let Some(nfa) = words::named(alloc, name)? {
        return Ok(Some(nfa));
    }
    if let Some(nfa) = empties::named(alloc, name)? {
        return Ok(Some(nfa));
    }
    tables::named(alloc, name)
}

// Returns the NFA if it was made, or the error.
fn some(made: Result<NFA, BuildError>) -> Result<Option<NFA>, BuildError>
    ensures made { IfOk result IsSome }
    ensures error { IfErr result (λ error. made ≡ Err error) }
{
    Ok(Some(made?))
}
