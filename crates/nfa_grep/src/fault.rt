//! Why the program ends with an error.
use grep_options::error::OptionsError;
use nfa_compiler::{CompileError, OnlyPattern};
use nfa_engines::error::SearchError;
use program_text::failure::Failure;
use std::alloc::{AllocError, AllocFailed};
use std::io::ErrorKind;
use std::{fmt, io};

/// Why nothing, or not all, was searched.
#[derive(Drop)]
pub enum Fault {
    /// Allocation failed.
    Memory,
    /// The arguments, or a file with patterns, were at fault.
    Options(OptionsError),
    /// The only pattern was refused.
    OnlyPattern(OnlyPattern),
    /// One of several patterns was refused.
    Pattern(CompileError),
    /// An input could not be read, or the output could not be written.
    Search(Failure),
    /// The help could not be written.
    Help(io::Error),
}

impl Fault {
    /// Returns whether the output is a pipe that nobody reads any more.
    pub fn is_closed_pipe(&self) -> bool {
        match self {
            Fault::Search(Failure::Write(error)) => error.kind() == ErrorKind::BrokenPipe,
            Fault::Help(error) => error.kind() == ErrorKind::BrokenPipe,
            _ => false,
        }
    }
}

impl fmt::Display for Fault {
    ghost use Rattle.nfa_grep.specs.Meant.{fault_text};

    ghost output = { fault_text };

    fn fmt<W: fmt::Write>(&self, f: &mut fmt::Formatter<W>) -> fmt::Result {
        match self {
            Fault::Memory => f.write_str("out of memory"),
            Fault::Options(error) => fmt::Display::fmt(error, f),
            Fault::OnlyPattern(error) => fmt::Display::fmt(error, f),
            Fault::Pattern(error) => fmt::Display::fmt(error, f),
            Fault::Search(failure) => fmt::Display::fmt(failure, f),
            Fault::Help(error) => write!(f, "cannot write standard output: {error}"),
        }
    }
}

impl From<AllocError> for Fault {
    ghost use Rattle.std.specs.Prelude.{◌≡◌};
    ghost use Rattle.nfa_grep.specs.declared.fault.Fault.TheVariants as fault;

    ghost from_gives = { λ _ made. made ≡ fault.Memory };

    fn from(_: AllocError) -> Fault {
        Fault::Memory
    }
}

impl<T: Drop> From<AllocFailed<T>> for Fault {
    ghost use Rattle.std.specs.Prelude.{◌≡◌};
    ghost use Rattle.nfa_grep.specs.declared.fault.Fault.TheVariants as fault;

    ghost from_gives = { λ _ made. made ≡ fault.Memory };

    fn from(_: AllocFailed<T>) -> Fault {
        Fault::Memory
    }
}

impl From<OptionsError> for Fault {
    ghost use Rattle.std.specs.Prelude.{◌≡◌};
    ghost use Rattle.nfa_grep.specs.declared.fault.Fault.TheVariants as fault;

    ghost from_gives = { λ error made. made ≡ fault.Options error };

    fn from(error: OptionsError) -> Fault {
        Fault::Options(error)
    }
}

impl From<Failure> for Fault {
    fn from(failure: Failure) -> Fault {
        Fault::Search(failure)
    }
}

impl From<SearchError> for Fault {
    ghost use Rattle.std.specs.Prelude.{◌≡◌};
    ghost use Rattle.nfa_grep.specs.declared.fault.Fault.TheVariants as fault;

    ghost from_gives = { λ _ made. made ≡ fault.Memory };

    /// The only error of a new engine is that allocation failed.
    fn from(_: SearchError) -> Fault {
        Fault::Memory
    }
}
