//! The output for all inputs that the arguments name.
use crate::command::Arguments;
use crate::count::{Counts, count_lines, no_counts, print_count_head, print_counts};
use crate::output::{Form, Output};
use crate::report::{print_head, print_lines};
use crate::rows::Rows;
use program_text::failure::Failure;
use std::alloc::Global;
use std::io::{BufRead, BufReader, BufWriter, IsTerminal, Read, Write};
use std::{fs, io};

/// What standard error says if no line has a row.
const NO_ROW: &str =
    "log_extractor: no line matched from its start; --rejects prints lines that have no row";

/// The names of the inputs if none is given.
const STANDARD_INPUT: &[&str] = &["-"];

/// What is done with the lines of the inputs.
#[derive(Drop)]
struct Work {
    output: Output,
    /// The number of the column whose values are counted, if rows are not printed.
    column: Option<usize>,
    /// How often its values occur so far.
    counts: Counts,
    /// Whether a line had a row.
    rows: bool,
}

/// What was printed of the inputs.
#[derive(Clone, Copy)]
pub enum Printed {
    /// All that was asked for.
    All,
    /// All, but no line has a row, and rows were asked for.
    NoRow,
    /// Not all: an input was not read to its end.
    Part,
}

/// Returns the names of the inputs.
pub fn inputs_of<'a, 'w>(arguments: &'a Arguments<'w>) -> &'a [&'w str] {
    if arguments.files.is_empty() {
        STANDARD_INPUT
    } else {
        &arguments.files
    }
}

/// Prints what is to be printed of the files that the arguments name, in order, or of standard input if there are none.
/// If a column is given, its values are counted, and the counts are printed.
///
/// A file that cannot be read, or that has a line for which there is no memory, is named on standard error, and the
/// next one is read. The error is one of the output, or of memory.
pub fn print_all(
    rt: &HostRuntime,
    rows: &mut Rows<'_, '_>,
    arguments: &Arguments<'_>,
    column: Option<usize>,
) -> Result<Printed, Failure> {
    if arguments.line_buffered || rt.stdout().is_terminal() {
        // The output for a line is written by one call.
        return print_to(rt, rows, arguments, column, &mut io::writer(rt));
    }
    let Ok(mut out) = BufWriter::new(rt.alloc(), io::writer(rt)) else {
        return Err(Failure::Memory);
    };
    let printed = print_to(rt, rows, arguments, column, &mut out)?;
    match out.flush() {
        Ok(()) => Ok(printed),
        Err(error) => Err(Failure::Write(error)),
    }
}

/// The same, to this writer.
fn print_to<W: Write>(
    rt: &HostRuntime,
    rows: &mut Rows<'_, '_>,
    arguments: &Arguments<'_>,
    column: Option<usize>,
    out: &mut W,
) -> Result<Printed, Failure> {
    let output = arguments.output;
    if column.is_none() {
        print_head(rt.alloc(), rows, output, out)?;
    }
    let mut work = Work {
        output,
        column,
        counts: no_counts(rt.alloc()),
        rows: false,
    };
    let complete = print_each(rt, rows, &mut work, inputs_of(arguments), out)?;
    if let Some(name) = arguments.count {
        print_counted(rt, output, name, &work.counts, out)?;
    }
    Ok(printed_if(rt, complete, work.rows || matches!(output, Output::Rejects)))
}

/// Returns what was printed, by whether each input was read to its end, and whether what was asked for was found. Says
/// so if no line has a row.
fn printed_if(rt: &HostRuntime, complete: bool, found: bool) -> Printed {
    if !complete {
        return Printed::Part;
    }
    if found {
        return Printed::All;
    }
    let _ = eprintln!(rt; "{NO_ROW}");
    Printed::NoRow
}

/// Prints the counts of the values of the column of this name.
fn print_counted<W: Write>(
    rt: &HostRuntime,
    output: Output,
    name: &str,
    counts: &Counts,
    out: &mut W,
) -> Result<(), Failure> {
    let form = match output {
        Output::Table(form) => {
            print_count_head(rt.alloc(), form, name, out)?;
            form
        }
        Output::Rows(form) => form,
        // These exclude counts.
        Output::Objects(_) | Output::Rejects => Form::Tabs,
    };
    print_counts(rt.alloc(), form, counts, out)
}

/// Does what is to be done with the lines of these inputs. Returns whether each was read to its end.
fn print_each<W: Write>(
    rt: &HostRuntime,
    rows: &mut Rows<'_, '_>,
    work: &mut Work,
    names: &[&str],
    out: &mut W,
) -> Result<bool, Failure> {
    let mut complete = true;
    for name in names {
        if let Err(error) = print_named(rt, rows, work, name, out) {
            if !error.is_of_input() {
                return Err(error);
            }
            complete = false;
            tell(rt, name, &error);
        }
    }
    Ok(complete)
}

/// Says why the input of this name was not read to its end. The status says so even if the line cannot be written.
fn tell(rt: &HostRuntime, name: &str, error: &Failure) {
    let _ = if name == "-" {
        eprintln!(rt; "log_extractor: {error}")
    } else {
        eprintln!(rt; "log_extractor: {name}: {error}")
    };
}

/// Does what is to be done with the lines of the input of this name.
fn print_named<W: Write>(
    rt: &HostRuntime,
    rows: &mut Rows<'_, '_>,
    work: &mut Work,
    name: &str,
    out: &mut W,
) -> Result<(), Failure> {
    if name == "-" {
        return work_on(rt.alloc(), rows, work, rt.reader(), out);
    }
    match fs::open(rt, name) {
        Ok(file) => work_on(rt.alloc(), rows, work, file, out),
        Err(error) => Err(Failure::Read(error)),
    }
}

/// Does what is to be done with the lines of this input, which is read through a buffer.
fn work_on<R: Read + Drop, W: Write>(
    alloc: Global,
    rows: &mut Rows<'_, '_>,
    work: &mut Work,
    input: R,
    out: &mut W,
) -> Result<(), Failure> {
    let Ok(mut input) = BufReader::new(alloc, input) else {
        return Err(Failure::Memory);
    };
    work_on_lines(alloc, rows, work, &mut input, out)
}

/// Does what is to be done with the lines of this input.
fn work_on_lines<R: BufRead, W: Write>(
    alloc: Global,
    rows: &mut Rows<'_, '_>,
    work: &mut Work,
    input: &mut R,
    out: &mut W,
) -> Result<(), Failure> {
    match work.column {
        Some(column) => {
            count_lines(alloc, rows, column, input, &mut work.counts)?;
            work.rows = !work.counts.is_empty();
        }
        None => {
            let found = print_lines(alloc, rows, work.output, input, out)?;
            work.rows |= found;
        }
    }
    Ok(())
}
