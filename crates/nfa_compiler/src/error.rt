//! The errors of a compiler.
use crate::syntax_error::{Place, SyntaxError};
use regex_search_core::Refused;
use std::alloc::{AllocError, AllocFailed};
use std::fmt;

/// The reason why a compiler made no NFA. Patterns are numbered from 0 on.
///
/// `Display` writes the number of the pattern, if an error is about one: [`OnlyPattern`] leaves it out.
#[derive(Debug, Drop)]
pub enum CompileError {
    /// Allocation failed.
    Memory,
    /// A text is not a pattern, or nests too deeply.
    Syntax(SyntaxError),
    /// The states of the pattern with this number, or the work to make them, would exceed this size limit: that of
    /// [`Config::size_limit`](crate::Config::size_limit). The patterns before it do not exceed it.
    TooBig { pattern: usize, limit: usize },
    /// A tree passed to [`Compiler::build_from_hir`](crate::Compiler::build_from_hir) is not one that a parser returns:
    /// a byte class goes above 255, a group has the number 0, or a group has a number but no name entry.
    Tree { pattern: usize },
    /// The NFA would have more than 2³¹ − 1 states, as many as there are state numbers.
    TooManyStates,
    /// There are more than 2³¹ − 1 patterns, as many as there are pattern numbers.
    TooManyPatterns,
    /// The groups would need more than 2³¹ − 2 slots, as many as a `GroupInfo` holds.
    TooManyGroups,
}

impl fmt::Display for CompileError {
    ghost use Rattle.std.specs.Prelude.{Some};
    ghost use Rattle.nfa_compiler.specs.Rejected.{compile_error_text};

    ghost output = { λ e. Some (compile_error_text e) };

    fn fmt<W: fmt::Write>(&self, f: &mut fmt::Formatter<W>) -> fmt::Result {
        match self {
            CompileError::Memory => f.write_str("out of memory"),
            CompileError::Syntax(error) => write!(f, "{error}"),
            CompileError::TooBig { pattern, limit } => {
                write!(
                    f,
                    "pattern {pattern} exceeds the size limit of {limit} bytes"
                )
            }
            CompileError::Tree { pattern } => write!(
                f,
                "the tree of pattern {pattern} is not one that a parser returns"
            ),
            CompileError::TooManyStates => {
                f.write_str("the patterns need more than 2147483647 states")
            }
            CompileError::TooManyPatterns => {
                f.write_str("there are more than 2147483647 patterns")
            }
            CompileError::TooManyGroups => {
                f.write_str("the groups need more than 2147483646 slots")
            }
        }
    }
}

impl std::error::Error for CompileError {}

/// The error of a compiler for the only pattern of its caller. Its text does not have the number of the pattern:
/// `Display` writes `the pattern exceeds the size limit of 10485760 bytes`, and a [`SyntaxError`] from its place on.
#[derive(Debug, Drop)]
pub struct OnlyPattern(pub CompileError);

impl fmt::Display for OnlyPattern {
    ghost use Rattle.std.specs.Prelude.{Some};
    ghost use Rattle.nfa_compiler.specs.Rejected.{only_pattern_text};

    ghost output = { λ e. Some (only_pattern_text e.0) };

    fn fmt<W: fmt::Write>(&self, f: &mut fmt::Formatter<W>) -> fmt::Result {
        match &self.0 {
            CompileError::Memory => f.write_str("out of memory"),
            CompileError::Syntax(error) => {
                let place = Place(error);
                write!(f, "{place}")
            }
            CompileError::TooBig { limit, .. } => {
                write!(f, "the pattern exceeds the size limit of {limit} bytes")
            }
            CompileError::Tree { .. } => {
                f.write_str("the tree of the pattern is not one that a parser returns")
            }
            CompileError::TooManyStates => {
                f.write_str("the pattern needs more than 2147483647 states")
            }
            CompileError::TooManyPatterns => {
                f.write_str("there are more than 2147483647 patterns")
            }
            CompileError::TooManyGroups => {
                f.write_str("the groups need more than 2147483646 slots")
            }
        }
    }
}

impl std::error::Error for OnlyPattern {}

impl From<Refused> for CompileError {
    ghost use Rattle.std.specs.Prelude.{◌≡◌};
    ghost use Rattle.nfa_compiler.specs.declared.error.CompileError.TheVariants as error;

    ghost from_gives = { λ _ made. made ≡ error.Memory };

    fn from(_: Refused) -> CompileError {
        CompileError::Memory
    }
}

impl From<AllocError> for CompileError {
    ghost use Rattle.std.specs.Prelude.{◌≡◌};
    ghost use Rattle.nfa_compiler.specs.declared.error.CompileError.TheVariants as error;

    ghost from_gives = { λ _ made. made ≡ error.Memory };

    fn from(_: AllocError) -> CompileError {
        CompileError::Memory
    }
}

impl<T: Drop> From<AllocFailed<T>> for CompileError {
    ghost use Rattle.std.specs.Prelude.{◌≡◌};
    ghost use Rattle.nfa_compiler.specs.declared.error.CompileError.TheVariants as error;

    ghost from_gives = { λ _ made. made ≡ error.Memory };

    fn from(_: AllocFailed<T>) -> CompileError {
        CompileError::Memory
    }
}
