//! A struct that owns an engine and its cache.
use anyhow::Result;
use nfa_compiler::written::{compile, is_match_of_pattern, matches_of_pattern};
use nfa_engines::pikevm::{Cache, PikeVM};
use nfa_engines::{Input, Match};
use std::alloc::Global;
use std::marker::Model;

/// A compiled pattern. A contract sees its text.
#[derive(Drop)]
pub struct Matcher {
    pattern: &'static str,
    vm: PikeVM,
    cache: Cache,
}

impl Model for Matcher {
    ghost use Rattle.std.specs.Prelude.{◌≡◌, List, None, ℕ};
    ghost use Rattle.nfa_engines.specs.Engines.{Fits};
    ghost use Rattle.nfa_compiler.specs.WrittenPatterns.{IsOfPattern};

    ghost Value = { List ℕ };

    ghost view = { λ m. m.pattern.now };

    ghost invariant = { λ m. IsOfPattern m.pattern.now m.vm.nfa × (m.vm.match_kind ≡ None) × Fits m.cache m.vm.nfa };
}

impl Matcher {
    ghost use Rattle.std.specs.Prelude.{◌≡◌, IfOk, None, map};
    ghost use Rattle.std.specs.List.{filter};
    ghost use Rattle.nfa_engines.specs.Found.{found_of};
    ghost use Rattle.nfa_engines.specs.Lists.{AreDisjoint};
    ghost use Rattle.nfa_engines.specs.Search.{whole};
    ghost use Rattle.nfa_compiler.specs.Patterns.{found_by};
    ghost use Rattle.nfa_compiler.specs.WrittenPatterns.{all_matches, has_match};

    /// Compiles the pattern.
    pub fn new(alloc: Global, pattern: &'static str) -> Result<Matcher>
        ensures { IfOk result (λ made. made ≡ pattern.now) }
    {
        let vm = PikeVM::new_from_nfa(compile(alloc, pattern)?)?;
        let cache = vm.create_cache(alloc)?;
        Ok(Matcher { pattern, vm, cache })
    }

    /// Returns whether the pattern matches somewhere in the text.
    pub fn is_match(&mut self, text: &[u8]) -> bool
        ensures finds { result ≡ has_match self.old text.now }
        ensures keeps { self.new ≡ self.old }
    {
        let found = self.vm.is_match(&mut self.cache, Input::new(text));
        is_match_of_pattern(self.pattern, self.vm.get_nfa(), text, found);
        found
    }

    /// Returns the lines in which the pattern matches.
    pub fn matching<'t>(&mut self, alloc: Global, lines: &[&'t [u8]]) -> Result<Vec<&'t [u8]>>
        ensures picked { IfOk result (λ picked. picked.items ≡ filter (λ line. has_match self.old line.now) lines.now) }
        ensures keeps { self.new ≡ self.old }
    {
        let mut picked = Vec::new(alloc);
        for line in lines {
            if self.is_match(line) {
                picked.push(*line)?;
            }
        }
        Ok(picked)
    }

    /// Returns all matches in the text, from left to right, without overlaps.
    pub fn find_all(&mut self, alloc: Global, text: &[u8]) -> Result<Vec<Match>>
        ensures all { IfOk result (λ found. map found_of found.items ≡ map found_by (all_matches self.old text.now)) }
        ensures apart { IfOk result (λ found. AreDisjoint (whole text.now) None (map found_of found.items)) }
        ensures keeps { self.new ≡ self.old }
    {
        let found = self.vm.find_all(alloc, &mut self.cache, Input::new(text))?;
        matches_of_pattern(self.pattern, self.vm.get_nfa(), text, &found);
        Ok(found)
    }
}
