//! The error of a builder.
use nfa_compiler::CompileError;
use std::fmt;

/// The reason why a [`Builder`](crate::Builder) made no regex from the texts of patterns.
#[derive(Debug, Drop)]
pub enum BuildError {
    /// Allocation failed.
    Memory,
    /// The patterns could not be compiled. The cause is never [`CompileError::Memory`].
    Compile(CompileError),
}

impl fmt::Display for BuildError {
    ghost use Rattle.std.specs.Prelude.{Some};
    ghost use Rattle.nfa_meta.specs.Built.{build_error_text};

    ghost output = { λ e. Some (build_error_text e) };

    fn fmt<W: fmt::Write>(&self, f: &mut fmt::Formatter<W>) -> fmt::Result {
        match self {
            BuildError::Memory => f.write_str("out of memory"),
            BuildError::Compile(error) => write!(f, "{error}"),
        }
    }
}

impl std::error::Error for BuildError {}

impl From<CompileError> for BuildError {
    ghost use Rattle.std.specs.Prelude.{◌≡◌};
    ghost use Rattle.nfa_meta.specs.Built.{build_error_of};

    ghost from_gives = { λ error made. made ≡ build_error_of error };

    fn from(error: CompileError) -> BuildError {
        match error {
            CompileError::Memory => BuildError::Memory,
            error => BuildError::Compile(error),
        }
    }
}
