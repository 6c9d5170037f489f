//! What is printed of an input, line by line.
ghost use Rattle.std.specs.Prelude.{◌≡◌, ◌++◌, IfOk, IfSome, List, OnOk, is_some, map, option_map, string_bytes};
ghost use Rattle.std.specs.Io.KnownBytes.{Appends};
ghost use Rattle.program_text.specs.Lines.{content, lines_of};
ghost use Rattle.log_extractor.specs.Fields.{fields_now};
ghost use Rattle.log_extractor.specs.Selected.{row_in, selected_names};
ghost use Rattle.log_extractor.specs.Several.{AreLinePatterns, LabelledPattern};
ghost use Rattle.log_extractor.specs.Taken.{TakesNext};
ghost use Rattle.log_extractor.specs.Printed.{PartsAreJoined, table_head, extracted_lines, has_row, shown_line};
ghost use Rattle.log_extractor.specs.Printed.{shown_as, shown_fields, shown_reject};
ghost use Rattle.log_extractor.specs.declared.output.Form.{Form};
ghost use Rattle.log_extractor.specs.declared.output.Output.TheVariants as output;
ghost use Rattle.log_extractor.specs.declared.output.Values.{Values};

use crate::object::append_object;
use crate::output::Output;
use crate::row::{append_names, append_row};
use crate::rows::Rows;
use program_text::failure::Failure;
use program_text::held::first_record;
use program_text::line::{append_whole, content};
use program_text::stream::{read_line, write_bytes};
use std::alloc::{AllocError, Global};
use std::io::{BufRead, Write};

/// The rows of a text, its objects and its rejects are those of its parts, if it is cut after line feeds. So the parts
/// of a log can be printed side by side, each by a process of its own.
pub fn parts_are_joined()
    ensures rows { (form : Form) → PartsAreJoined (output.Rows form) }
    ensures objects { (values : Values) → PartsAreJoined (output.Objects values) }
    ensures rejects { PartsAreJoined output.Rejects }
{}

/// Prints what comes before the lines of all inputs.
pub fn print_head<W: Write>(
    alloc: Global,
    rows: &Rows<'_, '_>,
    output: Output,
    out: &mut W,
) -> Result<(), Failure>
    ensures { OnOk result ((ps : List LabelledPattern) → AreLinePatterns rows.now.parsers ps
        → Appends (W.contents out.old) (W.contents out.new)
        (table_head output (selected_names rows.now.selection ps))) }
{
    let mut names = Vec::new(alloc);
    append_head(output, rows.names(), &mut names)?;
    write_bytes(out, &names)
}

/// Appends what comes before the lines.
fn append_head(output: Output, names: &[String], out: &mut Vec<u8>) -> Result<(), AllocError>
    ensures { OnOk result (out.new.items ≡ out.old.items ++ table_head output (map string_bytes names.now)) }
{
    match output {
        Output::Table(form) => append_names(form, names, out),
        Output::Rows(_) | Output::Objects(_) | Output::Rejects => Ok(()),
    }
}

/// Prints what is to be printed of the lines of an input. Returns whether a line has a row.
///
/// What is printed is said of a reader and a writer of known bytes: the text is all that the reader had left. After an
/// error, what was printed is a beginning of it. The input is read a line at a time, so the memory is bounded by the
/// longest line and what is printed of it.
pub fn print_lines<R: BufRead, W: Write>(
    alloc: Global,
    rows: &mut Rows<'_, '_>,
    output: Output,
    input: &mut R,
    out: &mut W,
) -> Result<bool, Failure>
    ensures printed { OnOk result ((ps : List LabelledPattern) → AreLinePatterns rows.old.parsers ps
        → IfSome (R.remaining input.old) (λ text.
        Appends (W.contents out.old) (W.contents out.new) (extracted_lines output rows.old.selection ps text))) }
    ensures rows { IfOk result (λ found. (ps : List LabelledPattern) → AreLinePatterns rows.old.parsers ps
        → IfSome (R.remaining input.old) (λ text. found ≡ has_row rows.old.selection ps (lines_of text))) }
    ensures kept { rows.new ≡ rows.old }
{
    let mut shown = Vec::new(alloc);
    let mut found = false;
    for before in 0..u64::MAX {
        shown.clear();
        let row = append_next(alloc, rows, output, input, before + 1, &mut shown)?;
        let Some(row) = row else {
            return Ok(found);
        };
        found |= row;
        write_bytes(out, &shown)?;
    }
    Err(Failure::TooLong)
}

/// Appends what is printed of the next line, which has this number, from 1. Returns whether it has a row, or `None` if
/// there is no line. It is copied only if it is not whole in what the reader holds.
fn append_next<R: BufRead>(
    alloc: Global,
    rows: &mut Rows<'_, '_>,
    output: Output,
    input: &mut R,
    number: u64,
    out: &mut Vec<u8>,
) -> Result<Option<bool>, Failure>
    ensures taken { IfOk result (λ row. TakesNext (R.remaining input.old) (R.remaining input.new) (λ line.
        (ps : List LabelledPattern) → AreLinePatterns rows.old.parsers ps
        → (out.new.items ≡ out.old.items ++ shown_line output rows.old.selection ps line)
        × IfSome row (λ found. found ≡ is_some (row_in rows.old.selection ps (content line)))) (is_some row)) }
    ensures kept { rows.new ≡ rows.old }
{
    let held = match input.fill_buf() {
        Ok(held) => held,
        Err(error) => {
            Failure::unless_interrupted(error, number)?;
            return append_copy(alloc, rows, output, input, number, out);
        }
    };
    let Some(len) = first_record(held, b'\n') else {
        if held.is_empty() {
            return Ok(None);
        }
        return append_copy(alloc, rows, output, input, number, out);
    };
    let row = append_line(alloc, rows, output, &held[..len], number, out)?;
    input.consume(len);
    Ok(Some(row))
}

/// The same, of a copy of the line.
#[inline(never)]
fn append_copy<R: BufRead>(
    alloc: Global,
    rows: &mut Rows<'_, '_>,
    output: Output,
    input: &mut R,
    number: u64,
    out: &mut Vec<u8>,
) -> Result<Option<bool>, Failure>
    ensures taken { IfOk result (λ row. TakesNext (R.remaining input.old) (R.remaining input.new) (λ line.
        (ps : List LabelledPattern) → AreLinePatterns rows.old.parsers ps
        → (out.new.items ≡ out.old.items ++ shown_line output rows.old.selection ps line)
        × IfSome row (λ found. found ≡ is_some (row_in rows.old.selection ps (content line)))) (is_some row)) }
    ensures kept { rows.new ≡ rows.old }
{
    let mut line = Vec::new(alloc);
    if !read_line(input, number, &mut line)? {
        return Ok(None);
    }
    let row = append_line(alloc, rows, output, &line, number, out)?;
    Ok(Some(row))
}

/// Appends what is printed of the line, which may have its end, and has this number, from 1. Returns whether it has a
/// row.
fn append_line(
    alloc: Global,
    rows: &mut Rows<'_, '_>,
    output: Output,
    line: &[u8],
    number: u64,
    out: &mut Vec<u8>,
) -> Result<bool, Failure>
    ensures shown { OnOk result ((ps : List LabelledPattern) → AreLinePatterns rows.old.parsers ps
        → out.new.items ≡ out.old.items ++ shown_line output rows.old.selection ps line.now) }
    ensures row { IfOk result (λ found. (ps : List LabelledPattern) → AreLinePatterns rows.old.parsers ps
        → found ≡ is_some (row_in rows.old.selection ps (content line.now))) }
    ensures kept { rows.new ≡ rows.old }
{
    let Ok(row) = rows.row_of(alloc, content(line)) else {
        return Err(Failure::Line(number));
    };
    let Ok(()) = append_shown(alloc, output, rows.names(), line, &row, out) else {
        return Err(Failure::Line(number));
    };
    Ok(row.is_some())
}

/// Appends what is printed of a line that has this row.
fn append_shown(
    alloc: Global,
    output: Output,
    names: &[String],
    line: &[u8],
    row: &Option<Vec<Option<&[u8]>>>,
    out: &mut Vec<u8>,
) -> Result<(), AllocError>
    ensures { OnOk result (out.new.items ≡ out.old.items ++ shown_as output (map string_bytes names.now) line.now
        (option_map (λ fields. fields_now fields.items) row.now)) }
{
    match row {
        Some(fields) => append_fields(alloc, output, names, fields, out),
        None => append_reject(output, line, out),
    }
}

/// Appends what is printed of a line that has these fields.
fn append_fields(
    alloc: Global,
    output: Output,
    names: &[String],
    fields: &[Option<&[u8]>],
    out: &mut Vec<u8>,
) -> Result<(), AllocError>
    ensures { OnOk result (out.new.items
        ≡ out.old.items ++ shown_fields output (map string_bytes names.now) (fields_now fields.now)) }
{
    match output {
        Output::Table(form) | Output::Rows(form) => append_row(form, fields, out),
        Output::Objects(values) => append_object(alloc, values, names, fields, out),
        Output::Rejects => Ok(()),
    }
}

/// Appends what is printed of a line that has no fields.
fn append_reject(output: Output, line: &[u8], out: &mut Vec<u8>) -> Result<(), AllocError>
    ensures { OnOk result (out.new.items ≡ out.old.items ++ shown_reject output line.now) }
{
    match output {
        Output::Rejects => append_whole(line, out),
        Output::Table(_) | Output::Rows(_) | Output::Objects(_) => Ok(()),
    }
}
