//! What standard input and output are. If an input is the output, too, what is printed would be searched and printed
//! again, until the disk is full.
use std::fs;
use std::fs::Metadata;
use std::os::unix::fs::MetadataExt;

/// The paths at which the system has what is open as standard input, and as standard output.
const INPUT: &str = "/proc/self/fd/0";

const OUTPUT: &str = "/proc/self/fd/1";

/// Which file or folder of the system something is.
#[derive(Clone, Copy, PartialEq, Eq)]
pub struct FileId {
    device: u64,
    number: u64,
}

/// Returns whether the input of this name is a regular file to which standard output goes.
pub fn is_output(rt: &HostRuntime, name: &str) -> bool {
    match file_at(rt, OUTPUT) {
        Some(output) => file_at(rt, input_path(name)) == Some(output),
        None => false,
    }
}

/// Returns whether standard input is a regular file.
pub fn is_file_input(rt: &HostRuntime) -> bool {
    file_at(rt, INPUT).is_some()
}

/// Returns how many bytes the input of this name has. None if it is not a regular file.
pub fn input_size(rt: &HostRuntime, name: &str) -> Option<u64> {
    let metadata = regular_file(rt, input_path(name))?;
    Some(metadata.len())
}

/// Returns the path of the input of this name.
fn input_path(name: &str) -> &str {
    if name == "-" { INPUT } else { name }
}

/// Returns which regular file is at the path. There is none if something else is there.
fn file_at(rt: &HostRuntime, path: &str) -> Option<FileId> {
    let metadata = regular_file(rt, path)?;
    Some(id_of(&metadata))
}

/// Returns the properties of the regular file at the path. There are none if something else is there.
fn regular_file(rt: &HostRuntime, path: &str) -> Option<Metadata> {
    match fs::metadata(rt, path) {
        Ok(metadata) if metadata.is_file() => Some(metadata),
        _ => None,
    }
}

/// Returns which file or folder has these properties.
pub fn id_of(metadata: &Metadata) -> FileId {
    FileId {
        device: metadata.dev(),
        number: metadata.ino(),
    }
}
