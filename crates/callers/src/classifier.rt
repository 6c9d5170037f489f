//! The classes of a line, which may overlap: the patterns that match in it.
use anyhow::Result;
use nfa_engines::laws::overlap_is_complete;
use nfa_engines::pikevm::{Cache, Config, PikeVM};
use nfa_engines::{Input, MatchKind, NFA, PatternSet};
use std::alloc::Global;
use std::marker::Model;

/// A classifier of lines, one class for each pattern of an NFA. A contract sees the NFA.
#[derive(Drop)]
pub struct Classifier {
    vm: PikeVM,
    cache: Cache,
}

impl Model for Classifier {
    ghost use Rattle.std.specs.Prelude.{◌≡◌};
    ghost use Rattle.nfa_engines.specs.Automaton.{Automaton};
    ghost use Rattle.nfa_engines.specs.Engines.{Fits, kind_of};
    ghost use Rattle.nfa_engines.specs.MatchKind.TheVariants.{All};

    ghost Value = { Automaton };

    ghost view = { λ c. c.vm.nfa };

    ghost invariant = { λ c. Fits c.cache c.vm.nfa × (kind_of c.vm ≡ All) };
}

impl Classifier {
    ghost use Rattle.std.specs.Prelude.{◌≡◌, ◌↔◌, ℕ, IfOk, length};
    ghost use Rattle.nfa_engines.specs.Overlaps.{HoldsPattern, IsPatternOf, IsPermitted};
    ghost use Rattle.nfa_engines.specs.Search.{whole};

    /// Makes a classifier by the patterns of this NFA. Fails only if allocation fails.
    pub fn new(alloc: Global, nfa: NFA) -> Result<Classifier>
        ensures { IfOk result (λ made. made ≡ nfa) }
    {
        let mut builder = PikeVM::builder();
        builder.configure(Config::new().match_kind(MatchKind::All));
        let vm = builder.build_from_nfa(nfa)?;
        let cache = vm.create_cache(alloc)?;
        Ok(Classifier { vm, cache })
    }

    /// Returns the classes of the line: each pattern that matches somewhere in it, and no other. Fails only if
    /// allocation fails.
    pub fn classes(&mut self, alloc: Global, line: &[u8]) -> Result<PatternSet>
        ensures exact { IfOk result (λ set. (k : ℕ) → HoldsPattern set k
            ↔ IsPatternOf self.old (whole line.now) (IsPermitted self.old (whole line.now)) k) }
        ensures room { IfOk result (λ set. length set ≡ length self.old.patterns) }
        ensures keeps { self.new ≡ self.old }
    {
        overlap_is_complete();
        let mut set = PatternSet::new(alloc, self.vm.get_nfa().pattern_len())?;
        self.vm
            .which_overlapping_matches(&mut self.cache, &Input::new(line), &mut set);
        Ok(set)
    }
}
