//! Calls that make a cache the DFA's.
ghost use Rattle.std.specs.Prelude.{◌≡◌, IfOk, IsOkUnless};
ghost use Rattle.nfa_lazy_dfa.specs.Rows.{IsFor, memory_of, stops_of};

use crate::cache::Cache;
use crate::dfa::DFA;
use crate::error::StopError;
use std::alloc::Global;

impl DFA {
    /// Makes a cache for searches of this DFA. It has no rows. The only error is `Memory`.
    pub fn create_cache(&self, alloc: Global) -> Result<Cache, StopError>
        ensures own { IfOk result (λ made. IsFor made self.now) }
        ensures none { IfOk result (λ made. memory_of made ≡ 0) }
        ensures stops { IfOk result (λ made. stops_of made ≡ 0) }
        ensures memory { IsOkUnless result StopError.Memory }
    {
        Cache::new(alloc, self)
    }

    /// Makes the cache one of this DFA, whichever DFA it was of. Its rows are dropped.
    ///
    /// ```
    /// // dfa of "foo[0-9]+"
    /// dfa.reset_cache(cache);
    /// assert!(rt; dfa.try_is_match(cache, Input::new(b"foo12345"))?);
    /// ```
    pub fn reset_cache(&self, cache: &mut Cache)
        ensures own { IsFor cache.new self.now }
        ensures none { memory_of cache.new ≡ 0 }
        ensures stops { stops_of cache.new ≡ stops_of cache.old }
    {
        cache.reset(self);
    }
}

impl Cache {
    /// Makes the cache one of the DFA, whichever DFA it was of. Its rows are dropped, and their memory is kept.
    ///
    /// ```
    /// // dfa of "foo[0-9]+"
    /// cache.reset(dfa);
    /// assert_eq!(rt; cache.memory_usage(), 0);
    /// assert!(rt; dfa.try_is_match(cache, Input::new(b"foo12345"))?);
    /// ```
    pub fn reset(&mut self, dfa: &DFA)
        ensures own { IsFor self.new dfa.now }
        ensures none { memory_of self.new ≡ 0 }
        ensures stops { stops_of self.new ≡ stops_of self.old }
    {
        self.clear(dfa);
    }
}
