//! Functions whose pattern is written out. The contracts of `holds_digit` and those after it say what a line holds, and
//! name no NFA and no compiler.
ghost use Rattle.std.specs.Prelude.{◌≡◌, ◌↔◌, IfOk, true};
ghost use Rattle.std.specs.Char.{is_ascii_digit};
ghost use Rattle.std.specs.List.{list_any};
ghost use Rattle.regex_hir.specs.Re.{Re};
ghost use Rattle.regex_syntax.specs.Verdict.{default_config};
ghost use Rattle.nfa_compiler.specs.Written.{IsReadAs, MatchesIn, MatchesInStr, byte_syntax};
ghost use Rattle.callers.specs.Texts.{HoldsMonth};

use anyhow::Result;
use nfa_compiler::calls::{is_match_in_str, is_match_of_text};
use nfa_compiler::{Compiler, Config};
use nfa_engines::Input;
use nfa_engines::pikevm::PikeVM;
use std::alloc::Global;

/// Returns whether the pattern matches somewhere in the line, which is bytes.
pub fn matches_text(alloc: Global, pattern: &str, line: &[u8]) -> Result<bool>
    ensures { IfOk result (λ found. (re : Re) → IsReadAs byte_syntax pattern.now re
        → (found ≡ true) ↔ MatchesIn line.now re) }
{
    let compiler = Compiler::new().configure(Config::new().utf8(false));
    let vm = PikeVM::new_from_nfa(compiler.build(alloc, pattern)?)?;
    let mut cache = vm.create_cache(alloc)?;
    let found = vm.is_match(&mut cache, Input::new(line));
    is_match_of_text(&compiler, pattern, vm.get_nfa(), line, found);
    Ok(found)
}

/// The same of a line that is a `str`, by a compiler in UTF-8 mode.
pub fn matches_text_in_str(alloc: Global, pattern: &str, line: &str) -> Result<bool>
    ensures { IfOk result (λ found. (re : Re) → IsReadAs default_config pattern.now re
        → (found ≡ true) ↔ MatchesInStr line.now re) }
{
    let compiler = Compiler::new();
    let vm = PikeVM::new_from_nfa(compiler.build(alloc, pattern)?)?;
    let mut cache = vm.create_cache(alloc)?;
    let bytes = line.as_bytes();
    let found = vm.is_match(&mut cache, Input::new(bytes));
    is_match_in_str(&compiler, pattern, vm.get_nfa(), bytes, found);
    Ok(found)
}

/// Returns whether the line has an ASCII digit.
pub fn holds_digit(alloc: Global, line: &[u8]) -> Result<bool>
    ensures { IfOk result (λ found. found ≡ list_any is_ascii_digit line.now) }
{
    let found = matches_text(alloc, "[0-9]", line)?;
    Ok(found)
}

/// Returns whether the line, which is a `str`, has an ASCII digit.
pub fn holds_digit_in_str(alloc: Global, line: &str) -> Result<bool>
    ensures { IfOk result (λ found. found ≡ list_any is_ascii_digit line.now) }
{
    let found = matches_text_in_str(alloc, "[0-9]", line)?;
    Ok(found)
}

/// Returns whether the line has a year and a month, such as `2024-02`.
pub fn holds_month(alloc: Global, line: &[u8]) -> Result<bool>
    ensures { IfOk result (λ found. (found ≡ true) ↔ HoldsMonth line.now) }
{
    let found = matches_text(alloc, "[0-9]{4}-[0-9]{2}", line)?;
    Ok(found)
}
