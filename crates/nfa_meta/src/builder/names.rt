//! The names of the groups of a pattern, as its text gives them.
ghost use Rattle.std.specs.Prelude.{◌≡◌, ◌∷◌, [], IfErr, IfOk, None, Some, drop, map, option_map, slice_get};
ghost use Rattle.std.specs.Prelude.{string_bytes};
ghost use Rattle.nfa_paths.specs.Common.{Automaton};
ghost use Rattle.nfa_facts.specs.Kept.{kept_groups};
ghost use Rattle.nfa_compiler.specs.Compiled.{IsNamed};
ghost use Rattle.nfa_compiler.specs.Written.{syntax_of};
ghost use Rattle.nfa_meta.specs.Built.{IsBuiltFrom, IsWhyNotBuilt, compiler_of};

use crate::builder::Builder;
use crate::error::BuildError;
use nfa_compiler::{Parsed, Syntax};
use std::alloc::Global;

impl Builder {
    /// Returns the names of the groups of a pattern in the order of their numbers, from group 0 on. A group without a
    /// name has `None`, and so has group 0, which is the whole match.
    ///
    /// They are read from the text, since a regex keeps its NFA only. The groups of each regex that this builder makes
    /// of the text have these names, as far as it keeps them ([`Config::which_captures`]). Fails as [`Builder::build`]
    /// does.
    ///
    /// ```
    /// let names = Regex::builder().capture_names(alloc, "(?<year>[0-9]+)-([0-9]+)")?;
    /// assert_eq!(rt; names.len(), 3);
    /// assert_eq!(rt; names[0].as_deref(), None);
    /// assert_eq!(rt; names[1].as_deref(), Some("year"));
    /// assert_eq!(rt; names[2].as_deref(), None);
    /// ```
    pub fn capture_names(
        &self,
        alloc: Global,
        pattern: &str,
    ) -> Result<Vec<Option<String>>, BuildError>
        ensures read { IfOk result (λ names. IsNamed (syntax_of (compiler_of self.now)) pattern.now
            (map (option_map string_bytes) names.items)) }
        ensures group_zero { IfOk result (λ names. slice_get names.items 0 ≡ Some None) }
        ensures names { IfOk result (λ names. (nfa : Automaton) → IsBuiltFrom self.now (pattern.now ∷ []) nfa
            → nfa.groups ≡ kept_groups self.now.config.which_captures
            (drop 1 (map (option_map string_bytes) names.items) ∷ [])) }
        ensures why { IfErr result (IsWhyNotBuilt self.now (pattern.now ∷ [])) }
    {
        // If the text is not a pattern, this says why. After it only allocation can fail.
        self.compiler().build(alloc, pattern)?;
        let syntax = Syntax {
            utf8: self.config.utf8,
            ..self.syntax
        };
        match regex_syntax::parse(alloc, pattern, &syntax) {
            Ok(Parsed { hir: _, names }) => Ok(names),
            Err(_) => Err(BuildError::Memory),
        }
    }
}
