//! Whether an input is the file to which the output goes. What is printed of such an input is read again, and printed
//! again, until the disk is full.
use std::fs;
use std::os::unix::fs::MetadataExt;

/// Names of the files that are standard input and standard output.
const INPUT: &str = "/dev/stdin";

const OUTPUT: &str = "/dev/stdout";

/// What is said of such an input.
pub const IS_OUTPUT: &str = "input file is also the output";

/// Returns the first of these inputs that is the regular file to which standard output goes. `-` is standard input.
pub fn first_output<'n>(rt: &HostRuntime, names: &[&'n str]) -> Option<&'n str> {
    let output = regular_file(rt, OUTPUT)?;
    for name in names {
        if regular_file(rt, path_of(name)) == Some(output) {
            return Some(name);
        }
    }
    None
}

/// Returns the path of the input of this name.
fn path_of<'n>(name: &'n str) -> &'n str {
    if name == "-" { INPUT } else { name }
}

/// Returns the device and the number of the file at this path, if there is one, and it is a regular file.
fn regular_file(rt: &HostRuntime, path: &str) -> Option<(u64, u64)> {
    match fs::metadata(rt, path) {
        Ok(found) if found.is_file() => Some((found.dev(), found.ino())),
        _ => None,
    }
}

/// Returns the name of an input, as messages have it.
pub fn shown_name(name: &str) -> &str {
    if name == "-" {
        "(standard input)"
    } else {
        name
    }
}
