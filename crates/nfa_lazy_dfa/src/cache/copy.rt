//! Copies of a cache.
ghost use Rattle.std.specs.Prelude.{◌≡◌, IfOk, IsOkUnless};
ghost use Rattle.nfa_lazy_dfa.specs.Rows.{IsCopyOf, stances_of};
ghost use Rattle.nfa_lazy_dfa.specs.Stances.{stance_of};

use super::Cache;
use crate::error::StopError;
use crate::follow::Stand;
use std::alloc::{AllocError, Global};

impl Stand {
    fn copied(&self) -> Result<Stand, AllocError>
        ensures { IfOk result (λ made. stance_of made ≡ stance_of self.now) }
    {
        Ok(Stand {
            states: self.states.clone()?,
            before: self.before,
            more: self.more,
            hit: self.hit,
            hits: self.hits.clone()?,
        })
    }
}

/// Copies of the stands.
fn copied_stands(alloc: Global, stands: &[Stand]) -> Result<Vec<Stand>, AllocError>
    ensures { IfOk result (λ made. stances_of made.items ≡ stances_of stands.now) }
{
    let mut copies = Vec::with_capacity(alloc, stands.len())?;
    for stand in stands {
        copies.push(stand.copied()?)?;
    }
    Ok(copies)
}

impl Cache {
    /// Returns a cache with the same rows and counts, for searches of the same DFA. The only error is `Memory`.
    ///
    /// ```
    /// // dfa of "foo[0-9]+"
    /// let half = dfa.try_find_half(cache, Input::new(b"foo12345"))?;
    /// let mut copy = cache.clone()?;
    /// assert_eq!(rt; copy.memory_usage(), cache.memory_usage());
    /// let again = dfa.try_find_half(&mut copy, Input::new(b"foo12345"))?;
    /// assert!(rt; again == half);
    /// ```
    pub fn clone(&self) -> Result<Cache, StopError>
        ensures copy { IfOk result (IsCopyOf self.now) }
        ensures memory { IsOkUnless result StopError.Memory }
    {
        Ok(self.copied()?)
    }

    fn copied(&self) -> Result<Cache, AllocError>
        ensures { IfOk result (IsCopyOf self.now) }
    {
        Ok(Cache {
            cells: self.cells.clone()?,
            stands: copied_stands(self.alloc, &self.stands)?,
            ends: self.ends.clone()?,
            index: self.index.copied()?,
            alloc: self.alloc,
            taken: self.taken,
            clears: self.clears,
            firsts: self.firsts,
            idles: self.idles,
            steps: self.steps.copy(),
            made: self.made.copy(),
            cleared: self.cleared.copy(),
            scans: self.scans.copy(),
            stops: self.stops.copy(),
        })
    }
}
