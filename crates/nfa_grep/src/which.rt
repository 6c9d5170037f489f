//! Which of the patterns match in a line.
ghost use Rattle.std.specs.Prelude.{◌≡◌, ◌↔◌, ◌++◌, IfErr, IfOk, List, OnOk, false, length, ℕ};
ghost use Rattle.regex_hir.specs.Re.{Re};
ghost use Rattle.regex_search_core.specs.PatternSets.{patterns_of};
ghost use Rattle.regex_search_core.specs.Search.{whole};
ghost use Rattle.nfa_engines.specs.Overlaps.{HoldsPattern};
ghost use Rattle.nfa_compiler.specs.Compiled.{IsNfaOf, res_of};
ghost use Rattle.nfa_compiler.specs.Written.{PatternMatches};
ghost use Rattle.nfa_grep.specs.Meant.{ArePatterns, IsBuilt, which_found, IsTreeRefusal};
ghost use Rattle.nfa_grep.specs.Printed.{number_list};
ghost use Rattle.grep_options.specs.declared.options.Options.{Options};

use crate::fault::Fault;
use crate::joined::separate;
use itoa::Buffer;
use nfa_compiler::{Parsed, laws};
use nfa_engines::pikevm::{Cache, PikeVM};
use regex_search_core::{Input, MatchKind, PatternSet, Refused};
use std::alloc::{AllocError, Global};
use std::marker::Model;

/// A search for all patterns that match in a line. It owns the engine and its cache.
///
/// A contract sees the NFA of the patterns.
#[derive(Drop)]
pub struct Which {
    vm: PikeVM,
    cache: Cache,
}

impl Model for Which {
    ghost use Rattle.std.specs.Prelude.{◌≡◌, false};
    ghost use Rattle.nfa_compiler.specs.Compiled.{FindsFromAnyStart};
    ghost use Rattle.regex_search_core.specs.declared.search.MatchKind.TheVariants.{All};
    ghost use Rattle.nfa_engines.specs.Automaton.{Automaton};
    ghost use Rattle.nfa_engines.specs.Engines.{Fits, kind_of};
    ghost use Rattle.nfa_engines.specs.Paths.{is_utf8_empty};

    ghost Value = { Automaton };

    ghost view = { λ w. w.vm.nfa };

    ghost invariant = { λ w. Fits w.cache w.vm.nfa × (kind_of w.vm ≡ All) × (is_utf8_empty w.vm.nfa ≡ false)
        × FindsFromAnyStart w.vm.nfa };
}

impl Which {
    /// Compiles the patterns. Fails if they are too large, or if allocation failed.
    pub fn new(alloc: Global, patterns: &[Parsed]) -> Result<Which, Fault>
        ensures made { IfOk result (IsNfaOf (res_of patterns.now)) }
        ensures refused { IfErr result (IsTreeRefusal (length patterns.now) (res_of patterns.now)) }
    {
        let nfa = separate(alloc, patterns)?;
        let kind = PikeVM::config().match_kind(MatchKind::All);
        // It is always `Ok`.
        let Ok(vm) = PikeVM::builder().configure(kind).build_from_nfa(nfa) else {
            return Err(Fault::Memory);
        };
        let cache = vm.create_cache(alloc)?;
        Ok(Which { vm, cache })
    }

    /// Returns the set of the patterns that match somewhere in the text of a line, also if their matches overlap. The
    /// only error is that allocation failed.
    pub fn patterns_in(&mut self, alloc: Global, text: &[u8]) -> Result<PatternSet, Refused>
        ensures held { IfOk result (λ set. (res : List Re) → IsNfaOf res self.old
            → (k : ℕ) → HoldsPattern set k ↔ PatternMatches res false (whole text.now) k) }
        ensures found { IfOk result (λ set. (options : Options) → (texts : List (List ℕ)) → (res : List Re)
            → IsBuilt IsNfaOf options texts self.old → ArePatterns options texts res → set ≡ which_found res text.now) }
        ensures kept { self.new ≡ self.old }
    {
        laws::sets_hold_patterns_that_match();
        let mut set = PatternSet::new(alloc, self.vm.pattern_len())?;
        self.vm
            .which_overlapping_matches(&mut self.cache, &Input::new(text), &mut set);
        Ok(set)
    }

    /// Appends the numbers of the patterns that match somewhere in the text of a line, in ascending order, with commas
    /// between them.
    pub fn append_numbers(
        &mut self,
        alloc: Global,
        text: &[u8],
        out: &mut Vec<u8>,
    ) -> Result<(), AllocError>
        ensures numbers { OnOk result ((options : Options) → (texts : List (List ℕ)) → (res : List Re)
            → IsBuilt IsNfaOf options texts self.old → ArePatterns options texts res
            → out.new.items ≡ out.old.items ++ number_list (patterns_of (which_found res text.now))) }
        ensures kept { self.new ≡ self.old }
    {
        let Ok(set) = self.patterns_in(alloc, text) else {
            return Err(AllocError);
        };
        append_set(&set, out)
    }
}

/// Appends the numbers of the patterns in the set, in ascending order, with commas between them.
fn append_set(set: &PatternSet, out: &mut Vec<u8>) -> Result<(), AllocError>
    ensures { OnOk result (out.new.items ≡ out.old.items ++ number_list (patterns_of set.now)) }
{
    let mut buffer = Buffer::new();
    let mut first = true;
    for pattern in set.iter() {
        if !first {
            out.extend_from_slice(b",")?;
        }
        out.extend_from_slice(buffer.format(pattern.as_usize()).as_bytes())?;
        first = false;
    }
    Ok(())
}
