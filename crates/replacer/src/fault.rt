//! Why a file was not replaced.
use program_text::failure::Failure;
use std::alloc::AllocError;
use std::io;
use thiserror::Error;

/// Why a file was not replaced. It is as it was.
#[derive(Debug, Drop, Error)]
pub enum Fault {
    /// The file could not be read, or there was no memory.
    #[error(transparent)]
    Text(Failure),
    /// The name is that of a folder, a device or a pipe.
    #[error("not a regular file")]
    NotRegular,
    /// All names for a new file are taken.
    #[error("there are too many new files of earlier runs")]
    Taken,
    /// The new file could not be made, or not be written.
    #[error("cannot write the new file: {0}")]
    New(io::Error),
    /// The new file could not get the owner, the group or the permissions of the old one.
    #[error("cannot keep the owner and the permissions: {0}")]
    Access(io::Error),
    /// The old file could not get its other name.
    #[error("cannot keep the old file: {0}")]
    Old(io::Error),
    /// The new file could not get the name of the old one.
    #[error("cannot rename the new file: {0}")]
    Rename(io::Error),
}

impl From<Failure> for Fault {
    fn from(failure: Failure) -> Fault {
        match failure {
            Failure::Write(error) => Fault::New(error),
            failure => Fault::Text(failure),
        }
    }
}

impl From<AllocError> for Fault {
    fn from(_: AllocError) -> Fault {
        Fault::Text(Failure::Memory)
    }
}
