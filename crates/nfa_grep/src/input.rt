//! The search of one input: of a file, or of standard input.
use crate::binary::search_input;
use crate::grep::Grep;
use crate::line::width_of;
use grep_options::options::{BinaryFiles, Report, Request};
use grep_options::output::{input_size, is_file_input};
use program_text::failure::Failure;
use std::fs;
use std::io::{BufReader, Read, Write};

/// Searches the input of this name, and returns how many of the lines that were searched are selected.
pub fn search_named<W: Write>(
    rt: &HostRuntime,
    grep: &mut Grep<'_, '_>,
    binary: BinaryFiles,
    request: Request<'_, '_>,
    name: &str,
    out: &mut W,
) -> Result<u64, Failure> {
    align(rt, grep, name);
    if name == "-" {
        return search_standard(rt, grep, binary, request, out);
    }
    match fs::open(rt, name) {
        Ok(file) => search_input(rt, grep, binary, request, &mut buffered(rt, file)?, out),
        Err(error) => Err(Failure::Read(error)),
    }
}

/// Prints numbers of one width, that of the size of the input of this name, if that is wanted.
fn align(rt: &HostRuntime, grep: &mut Grep<'_, '_>, name: &str) {
    let options = grep.options();
    if options.tabbed {
        grep.align(width_of(options.numbers, input_size(rt, name)));
    }
}

/// Returns the reader with a buffer.
fn buffered<R: Read + Drop>(rt: &HostRuntime, reader: R) -> Result<BufReader<R>, Failure> {
    match BufReader::new(rt.alloc(), reader) {
        Ok(input) => Ok(input),
        Err(_) => Err(Failure::Memory),
    }
}

/// Searches standard input. A file that is left after the last line that was read is read without a buffer of our own:
/// what `std` has read ahead of that it gives back at the end.
fn search_standard<W: Write>(
    rt: &HostRuntime,
    grep: &mut Grep<'_, '_>,
    binary: BinaryFiles,
    request: Request<'_, '_>,
    out: &mut W,
) -> Result<u64, Failure> {
    if may_go_on(request) && is_file_input(rt) {
        search_input(rt, grep, binary, request, &mut rt.reader(), out)
    } else {
        let mut input = buffered(rt, rt.reader())?;
        search_input(rt, grep, binary, request, &mut input, out)
    }
}

/// Returns whether another program may go on where the search ends: after a number of lines, and not at the first one
/// in any case.
fn may_go_on(request: Request<'_, '_>) -> bool {
    match request.report {
        Report::Lines | Report::Count => request.limit < u64::MAX,
        Report::With | Report::Without | Report::Nothing => false,
    }
}
