//! The names of the groups of a pattern.
ghost use Rattle.std.specs.Prelude.{IfOk, IsUtf8, OnOk, map, option_map, pos, string_bytes, ◌++◌, ◌≡◌, ◌≢◌, ◌⊎◌};
ghost use Rattle.regex_syntax.specs.declared.error.ErrorKind.TheVariants.{OutOfMemory};
ghost use Rattle.nfa_c.specs.Codes.{memory_code, pattern_code, utf8_code};
ghost use Rattle.nfa_c.specs.Names.{IsNoPattern, WritesNames, name_line, name_lines};
ghost use Rattle.nfa_c.specs.Options.{reading_in};

use crate::codes::{MEMORY, OK, PATTERN, UTF8};
use crate::options::{NfaOptions, reading};
use crate::room::write_counted;
use regex_syntax::{Error, ErrorKind};
use std::alloc::{AllocError, Global};

/// Appends the line of a group.
fn push_line(name: &Option<String>, lines: &mut Vec<u8>) -> Result<(), AllocError>
    ensures { OnOk result (lines.new.items ≡ lines.old.items ++ name_line (option_map string_bytes name.now)) }
{
    if let Some(name) = name {
        lines.extend_from_slice(name.as_bytes())?;
    }
    lines.push(b'\n')?;
    Ok(())
}

/// Returns the names, a line for each group.
fn lines_of(alloc: Global, names: &[Option<String>]) -> Result<Vec<u8>, AllocError>
    ensures { IfOk result (λ lines. lines.items ≡ name_lines (map (option_map string_bytes) names.now)) }
{
    let mut lines = Vec::new(alloc);
    for name in names {
        push_line(name, &mut lines)?;
    }
    Ok(lines)
}

/// Returns what an export returns for the parser's error.
fn refusal(error: Error) -> i32
    ensures memory { error.kind ≡ OutOfMemory → result ≡ memory_code }
    ensures other { error.kind ≢ OutOfMemory → result ≡ pattern_code }
{
    match error.kind {
        ErrorKind::OutOfMemory => MEMORY,
        _ => PATTERN,
    }
}

/// Writes the names of the pattern's groups, as far as there is room, and their length: a line for each group, which is
/// empty if the group has no name. The first line is that of group 0.
#[unsafe(no_mangle)]
#[tactic(auto, unfolding(regex_syntax::specs::Verdict::Reads))]
pub extern "C" fn nfa_regex_group_names(
    alloc: Global,
    pattern: &[u8],
    options: &NfaOptions,
    names: &mut [u8],
    count: &mut usize,
) -> i32
    ensures names { result ≡ pos 0 → WritesNames (reading_in options.now) pattern.now count.new names.old names.new }
    ensures stays { result ≢ pos 0 → (count.new ≡ count.old) × (names.new ≡ names.old) }
    ensures utf8 { (IsUtf8 pattern.now → ⊥) → result ≡ utf8_code }
    ensures refused { result ≡ pattern_code → IsNoPattern (reading_in options.now) pattern.now }
    ensures codes { IsUtf8 pattern.now → (result ≡ pos 0) ⊎ ((result ≡ memory_code) ⊎ (result ≡ pattern_code)) }
{
    let Ok(text) = std::str::from_utf8(pattern) else {
        return UTF8;
    };
    let parsed = match regex_syntax::parse(alloc, text, &reading(options)) {
        Ok(parsed) => parsed,
        Err(error) => return refusal(error),
    };
    let Ok(lines) = lines_of(alloc, &parsed.names) else {
        return MEMORY;
    };
    write_counted(&lines, names, count);
    OK
}
