//! What the exports return, as `nfa.h` has it.
ghost use Rattle.std.specs.Prelude.{pos, ◌≡◌, ◌≢◌};
ghost use Rattle.nfa_c.specs.Codes.{failure_code};

use nfa_meta::CompileError;

/// Something was found.
pub const FOUND: i32 = 1;

/// Nothing was found.
pub const NONE: i32 = 0;

/// The handle is full.
pub const OK: i32 = 0;

/// The handle is empty.
pub const EMPTY: i32 = -1;

/// The range is none of the haystack.
pub const RANGE: i32 = -2;

/// Allocation failed.
pub const MEMORY: i32 = -3;

/// A text is not UTF-8.
pub const UTF8: i32 = -4;

/// The text is not a pattern, or the pattern exceeds the size limit.
pub const PATTERN: i32 = -5;

/// A text is not a template: it names a group that the regex does not have, or a brace is not closed. The code between
/// is one of the inline functions of `nfa.h`.
pub const TEMPLATE: i32 = -7;

/// What is said if allocation failed.
pub(crate) const NO_MEMORY: &str = "out of memory";

/// The reason why no regex was made of a text.
#[derive(Drop)]
pub enum Failure {
    /// Allocation failed.
    Memory,
    /// The text is not UTF-8.
    Utf8,
    /// The text could not be compiled.
    Pattern(CompileError),
}

/// Returns what an export returns for the failure.
pub(crate) fn code(failure: &Failure) -> i32
    ensures code { result ≡ failure_code failure.now }
    ensures failed { (result ≢ pos 0) × (result ≢ pos 1) }
{
    match failure {
        Failure::Memory => MEMORY,
        Failure::Utf8 => UTF8,
        Failure::Pattern(_) => PATTERN,
    }
}
