//! Why the work on an input ended before its end.
use std::alloc::{AllocError, AllocFailed};
use std::io;
use std::io::ErrorKind;
use thiserror::Error;

/// Why an input was not read to its end, or the output for it not written.
#[derive(Debug, Drop, Error)]
pub enum Failure {
    /// The input could not be read.
    #[error("cannot read the input: {0}")]
    Read(io::Error),
    /// The output could not be written.
    #[error("cannot write standard output: {0}")]
    Write(io::Error),
    /// Allocation failed for the line of this number, from 1, or for the output for it.
    #[error("no memory for line {0}")]
    Line(u64),
    /// Allocation failed.
    #[error("out of memory")]
    Memory,
    /// The input has more bytes, or more lines, than a `u64` counts.
    #[error("the input has more bytes or lines than a 64-bit number counts")]
    TooLong,
}

impl Failure {
    ghost use Rattle.std.specs.Prelude.{◌≡◌, IfErr, IsOk};
    ghost use Rattle.std.specs.IoError.{error_kind};
    ghost use Rattle.program_text.specs.Lines.{IsOfReading, is_of_input};

    /// Returns why the line of this number, from 1, could not be read: the input, or the memory for the line.
    pub fn of_reading(error: io::Error, number: u64) -> Failure
        ensures { IsOfReading number result }
    {
        if error.kind() == ErrorKind::OutOfMemory {
            Failure::Line(number)
        } else {
            Failure::Read(error)
        }
    }

    /// Fails as `of_reading` does, unless a signal interrupted the read, which is then tried again.
    pub fn unless_interrupted(error: io::Error, number: u64) -> Result<(), Failure>
        ensures again { IsOk result → error_kind error ≡ ErrorKind.Interrupted }
        ensures failed { IfErr result (IsOfReading number) }
    {
        if error.kind() == ErrorKind::Interrupted {
            Ok(())
        } else {
            Err(Failure::of_reading(error, number))
        }
    }

    /// Returns whether the fault is the input's, so that another input can be read.
    pub fn is_of_input(&self) -> bool
        ensures { result ≡ is_of_input self.now }
    {
        match self {
            Failure::Read(_) | Failure::Line(_) | Failure::TooLong => true,
            Failure::Write(_) | Failure::Memory => false,
        }
    }
}

impl From<AllocError> for Failure {
    fn from(_: AllocError) -> Failure {
        Failure::Memory
    }
}

impl<T: Drop> From<AllocFailed<T>> for Failure {
    fn from(_: AllocFailed<T>) -> Failure {
        Failure::Memory
    }
}
