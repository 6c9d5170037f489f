//! A struct that owns an engine and the cache that fits it, and loops over lines by a method that searches one.
use nfa_engines::Input;
use nfa_engines::error::SearchError;
use nfa_engines::pikevm::{Cache, PikeVM};
use std::alloc::Global;
use std::marker::Model;

/// A search of lines. A contract sees the engine.
#[derive(Drop)]
pub struct LineSearch {
    vm: PikeVM,
    cache: Cache,
}

impl Model for LineSearch {
    ghost use Rattle.nfa_engines.specs.Engines.{Fits, Pike};

    ghost Value = { Pike };

    ghost view = { λ s. s.vm };

    ghost invariant = { λ s. Fits s.cache s.vm.nfa };
}

impl LineSearch {
    ghost use Rattle.std.specs.Prelude.{◌≡◌, IfOk};
    ghost use Rattle.std.specs.List.{count_by};
    ghost use Rattle.callers.specs.Texts.{pikevm_finds};

    /// Makes a cache for the engine. Fails only if allocation fails.
    pub fn new(alloc: Global, vm: PikeVM) -> Result<LineSearch, SearchError>
        ensures { IfOk result (λ made. made ≡ vm) }
    {
        let cache = vm.create_cache(alloc)?;
        Ok(LineSearch { vm, cache })
    }

    /// Returns whether a search finds a match in the line.
    pub fn is_match(&mut self, line: &[u8]) -> bool
        ensures finds { result ≡ pikevm_finds self.old line.now }
        ensures keeps { self.new ≡ self.old }
    {
        self.vm.is_match(&mut self.cache, Input::new(line))
    }

    /// Returns the number of lines in which a search finds a match.
    pub fn count(&mut self, lines: &[&[u8]]) -> usize
        ensures count { result ≡ count_by (λ line. pikevm_finds self.old line.now) lines.now }
        ensures keeps { self.new ≡ self.old }
    {
        let mut count = 0;
        for line in lines {
            if self.is_match(line) {
                count += 1;
            }
        }
        count
    }
}
