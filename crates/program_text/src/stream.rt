//! Reading an input line by line, and writing.
ghost use Rattle.std.specs.Prelude.{◌≡◌, IfErr, IfOk, OnOk, false, true};
ghost use Rattle.std.specs.Io.KnownBytes.{Appends, Keeps};
ghost use Rattle.program_text.specs.Lines.{HasNoRecord, IsOfReading, TakesRecord, line_feed};

use crate::failure::Failure;
use std::io::{BufRead, Write};

/// Reads the next line, which is that of this number, and puts it into `line` in place of what was there. The line has
/// its end. Returns whether there is a line: there is none at the end of the input.
///
/// Fails with `Read` if the input cannot be read, or with `Line` and this number if there is no memory for the line.
pub fn read_line<R: BufRead>(
    input: &mut R,
    number: u64,
    line: &mut Vec<u8>,
) -> Result<bool, Failure>
    ensures taken { IfOk result (λ read. read ≡ true
        → TakesRecord line_feed (R.remaining input.old) (R.remaining input.new) line.new.items) }
    ensures ended { IfOk result (λ read. read ≡ false → HasNoRecord line_feed (R.remaining input.old)) }
    ensures failed { IfErr result (IsOfReading number) }
{
    read_record(input, b'\n', number, line)
}

/// Reads the next record, which is that of this number, and puts it into `line` in place of what was there. A record
/// goes up to its end, the first byte of this value, and has it. Returns whether there is a record: there is none at
/// the end of the input.
///
/// Fails with `Read` if the input cannot be read, or with `Line` and this number if there is no memory for the record.
pub fn read_record<R: BufRead>(
    input: &mut R,
    end: u8,
    number: u64,
    line: &mut Vec<u8>,
) -> Result<bool, Failure>
    ensures taken { IfOk result (λ read. read ≡ true
        → TakesRecord end (R.remaining input.old) (R.remaining input.new) line.new.items) }
    ensures ended { IfOk result (λ read. read ≡ false → HasNoRecord end (R.remaining input.old)) }
    ensures stays { IfOk result (λ read. read ≡ false → Keeps (R.remaining input.old) (R.remaining input.new)) }
    ensures failed { IfErr result (IsOfReading number) }
{
    line.clear();
    match input.read_until(end, line) {
        Ok(len) => Ok(len > 0),
        Err(error) => Err(Failure::of_reading(error, number)),
    }
}

/// Writes these bytes, if there are any. Fails if the output cannot be written.
#[inline]
pub fn write_bytes<W: Write>(out: &mut W, bytes: &[u8]) -> Result<(), Failure>
    ensures { OnOk result (Appends (W.contents out.old) (W.contents out.new) bytes.now) }
{
    if bytes.is_empty() {
        return Ok(());
    }
    match out.write_all(bytes) {
        Ok(()) => Ok(()),
        Err(error) => Err(Failure::Write(error)),
    }
}
