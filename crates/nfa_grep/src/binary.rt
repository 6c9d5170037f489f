//! The search of an input that may not be text.
ghost use Rattle.std.specs.Prelude.{OnOk};
ghost use Rattle.std.specs.Io.KnownBytes.{Keeps};
ghost use Rattle.nfa_paths.specs.Common.{Appends};
ghost use Rattle.nfa_grep.specs.Printed.{summary};

use crate::grep::Grep;
use crate::line::append_summary;
use crate::progress::erase_line;
use crate::search::print_matches;
use grep_options::options::{BinaryFiles, Options, Report, Request};
use program_text::failure::Failure;
use program_text::stream::write_bytes;
use std::alloc::Global;
use std::io::{BufRead, Write};

/// Searches an input. If it is not text, it has no lines, or they are not printed, but a message on standard error if
/// one is selected.
pub fn search_input<R: BufRead, W: Write>(
    rt: &HostRuntime,
    grep: &mut Grep<'_, '_>,
    binary: BinaryFiles,
    request: Request<'_, '_>,
    input: &mut R,
    out: &mut W,
) -> Result<u64, Failure> {
    if is_any_text(binary, request.report, grep.options().end) || !has_zero(input)? {
        return print_matches(rt.alloc(), grep, request, input, out);
    }
    if binary == BinaryFiles::WithoutMatch {
        print_none(rt.alloc(), grep.options(), request, out)?;
        return Ok(0);
    }
    let name = request.name;
    let quiet = Request {
        report: Report::Nothing,
        ..request
    };
    let count = print_matches(rt.alloc(), grep, quiet, input, out)?;
    if count > 0 {
        if request.progress {
            erase_line(rt);
        }
        // The status says so even if the line cannot be written.
        let _ = eprintln!(rt; "nfa_grep: {name}: binary file matches");
    }
    Ok(count)
}

/// Returns whether all inputs are searched as text.
fn is_any_text(binary: BinaryFiles, report: Report, end: u8) -> bool {
    match binary {
        BinaryFiles::Text => true,
        BinaryFiles::Message => !report.shows() || end == 0,
        BinaryFiles::WithoutMatch => end == 0,
    }
}

/// Prints what is printed of an input without a selected line.
fn print_none<W: Write>(
    alloc: Global,
    options: Options<'_>,
    request: Request<'_, '_>,
    out: &mut W,
) -> Result<(), Failure>
    ensures { OnOk result (Appends (W.contents out.old) (W.contents out.new)
        (summary request.entry.report options.entry request.entry.name.now 0)) }
{
    let mut last = Vec::new(alloc);
    let name = request.name.as_bytes();
    append_summary(request.report, options, name, 0, &mut last)?;
    write_bytes(out, &last)
}

/// Returns whether there is a byte 0 in what is read first. Nothing is taken from the input.
fn has_zero<R: BufRead>(input: &mut R) -> Result<bool, Failure>
    ensures { OnOk result (Keeps (R.remaining input.old) (R.remaining input.new)) }
{
    match input.fill_buf() {
        Ok(bytes) => Ok(bytes.contains(&0)),
        Err(error) => Err(Failure::Read(error)),
    }
}
