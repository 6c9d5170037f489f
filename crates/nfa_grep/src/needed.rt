//! Bytes that are in each line that is selected.
ghost use Rattle.std.specs.Prelude.{IfOk, List};
ghost use Rattle.std.specs.List.{AllZip};
ghost use Rattle.regex_hir.specs.Re.{Re};
ghost use Rattle.regex_syntax.specs.Captures.{SameCaptures};
ghost use Rattle.nfa_compiler.specs.Compiled.{res_of};
ghost use Rattle.nfa_grep.specs.Printed.{IsNeeded};

use crate::required_literal::{laws, required_literal};
use grep_options::options::Options;
use nfa_compiler::Parsed;
use std::alloc::{AllocError, Global};

/// Returns bytes that are in each line that is selected with these options and patterns. They are empty if there are
/// none, if none are found, or if the selected lines are those without a match.
pub fn needed_bytes(
    alloc: Global,
    options: Options<'_>,
    trees: &[Parsed],
) -> Result<Vec<u8>, AllocError>
    ensures { IfOk result (λ needed. (res : List Re) → AllZip SameCaptures (res_of trees.now) res
        → IsNeeded options.entry res needed.items) }
{
    laws::hits_have_required_bytes();
    if options.inverted {
        return Ok(Vec::new(alloc));
    }
    required_literal(alloc, trees)
}
