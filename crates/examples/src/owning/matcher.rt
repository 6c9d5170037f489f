//! A user of one engine, which keeps the cache that fits it.
ghost use Rattle.nfa_engines.specs.Engines.{Fits};

use nfa_engines::error::SearchError;
use nfa_engines::pikevm::{Cache, PikeVM};
use nfa_engines::{Input, Match};
use std::alloc::Global;

/// A PikeVM and a cache that fits it.
#[derive(Drop)]
pub struct Matcher {
    vm: PikeVM,
    cache: Cache,
    ghost fits: { Fits cache vm.nfa },
}

impl Matcher {
    /// Makes a cache for the PikeVM. The only error is `Memory`.
    pub fn new(alloc: Global, vm: PikeVM) -> Result<Matcher, SearchError> {
        let cache = vm.create_cache(alloc)?;
        Ok(Matcher { vm, cache })
    }

    /// Returns the first match in the text.
    pub fn find(&mut self, text: &[u8]) -> Option<Match> {
        self.vm.find(&mut self.cache, Input::new(text))
    }
}
