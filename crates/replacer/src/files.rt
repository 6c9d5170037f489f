//! The inputs that the arguments name.
use crate::changes::{Style, print_changes};
use crate::job::Job;
use program_text::failure::Failure;
use program_text::output::shown_name;
use std::alloc::{AllocError, Global};
use std::io::{BufReader, BufWriter, Read, Write};
use std::{fs, io};

/// What is printed of the inputs.
#[derive(Clone, Copy)]
pub enum Printing {
    /// What they become.
    Results,
    /// Their lines that change, in colour if this says so.
    Changes(bool),
}

/// What was done.
#[derive(Clone, Copy)]
pub struct Done {
    /// Whether an input was not read to its end.
    pub failed: bool,
    /// How many lines change, and how many inputs have one, if changes were printed.
    pub lines: u64,
    pub inputs: u64,
}

/// Does the job for these inputs, in order. An input that cannot be read, or that has a line for which there is no
/// memory, is named on standard error, and the next one is read.
///
/// Fails if the output cannot be written or allocation failed.
pub fn print_files(
    rt: &HostRuntime,
    job: &mut Job<'_>,
    names: &[&str],
    printing: Printing,
) -> Result<Done, Failure> {
    let Ok(mut out) = BufWriter::new(rt.alloc(), io::writer(rt)) else {
        return Err(Failure::Memory);
    };
    let done = print_each(rt, job, names, printing, &mut out)?;
    match out.flush() {
        Ok(()) => Ok(done),
        Err(error) => Err(Failure::Write(error)),
    }
}

/// Does the job for each of these inputs.
fn print_each<W: Write>(
    rt: &HostRuntime,
    job: &mut Job<'_>,
    names: &[&str],
    printing: Printing,
    out: &mut W,
) -> Result<Done, Failure> {
    let mut done = Done {
        failed: false,
        lines: 0,
        inputs: 0,
    };
    for name in names {
        let prefix = prefix_of(rt.alloc(), name, names.len() > 1)?;
        match print_named(rt, job, name, shown_by(printing, &prefix), out) {
            Ok(lines) => {
                done.lines = done.lines.saturating_add(lines);
                done.inputs = done.inputs.saturating_add(lines.min(1));
            }
            Err(error) if error.is_of_input() => {
                done.failed = true;
                // The status says so even if the line cannot be written.
                let shown = shown_name(name);
                let _ = eprintln!(rt; "replacer: {shown}: {error}");
            }
            Err(error) => return Err(error),
        }
    }
    Ok(done)
}

/// Returns what is before the number of a line: the name of its input, if it is wanted.
fn prefix_of(alloc: Global, name: &str, wanted: bool) -> Result<Vec<u8>, AllocError> {
    let mut prefix = Vec::new(alloc);
    if wanted {
        prefix.extend_from_slice(shown_name(name).as_bytes())?;
        prefix.extend_from_slice(b":")?;
    }
    Ok(prefix)
}

/// Returns how changes are printed, if they are.
fn shown_by<'p>(printing: Printing, prefix: &'p [u8]) -> Option<Style<'p>> {
    match printing {
        Printing::Results => None,
        Printing::Changes(coloured) => Some(Style { prefix, coloured }),
    }
}

/// Does the job for the input of this name. Returns how many lines change, if changes are printed.
fn print_named<W: Write>(
    rt: &HostRuntime,
    job: &mut Job<'_>,
    name: &str,
    style: Option<Style<'_>>,
    out: &mut W,
) -> Result<u64, Failure> {
    if name == "-" {
        return print_input(rt.alloc(), job, rt.reader(), style, out);
    }
    match fs::open(rt, name) {
        Ok(file) => print_input(rt.alloc(), job, file, style, out),
        Err(error) => Err(Failure::Read(error)),
    }
}

/// Does the job for this input.
fn print_input<R: Read + Drop, W: Write>(
    alloc: Global,
    job: &mut Job<'_>,
    input: R,
    style: Option<Style<'_>>,
    out: &mut W,
) -> Result<u64, Failure> {
    let Ok(mut input) = BufReader::new(alloc, input) else {
        return Err(Failure::Memory);
    };
    match style {
        Some(style) => print_changes(alloc, job, style, &mut input, out),
        None => {
            job.print(alloc, &mut input, out)?;
            Ok(0)
        }
    }
}
