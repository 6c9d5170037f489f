//! A line and its end.
ghost use Rattle.std.specs.Prelude.{◌≡◌, ◌++◌, OnOk};
ghost use Rattle.std.specs.Io.BufRead.{ends_with_byte, strip_last};
ghost use Rattle.program_text.specs.Lines.{content, line_feed, record_content, with_end};

use std::alloc::AllocError;

/// Returns whether the line ends with this byte.
fn ends_with(line: &[u8], byte: u8) -> bool
    ensures { result ≡ ends_with_byte byte line.now }
{
    !line.is_empty() && line[line.len() - 1] == byte
}

/// Returns the line without its last byte, if that is this one.
fn without_last(line: &[u8], byte: u8) -> &[u8]
    ensures { result.now ≡ strip_last byte line.now }
{
    if ends_with(line, byte) {
        &line[..line.len() - 1]
    } else {
        line
    }
}

/// Returns the line without its end: without the line feed at its end, and without a carriage return before that line
/// feed.
pub fn content(line: &[u8]) -> &[u8]
    ensures { result.now ≡ content line.now }
{
    if ends_with(line, b'\n') {
        without_last(without_last(line, b'\n'), b'\r')
    } else {
        line
    }
}

/// Returns the record without its end. A record that ends at a line feed is a line.
pub fn record_content(line: &[u8], end: u8) -> &[u8]
    ensures { result.now ≡ record_content end line.now }
{
    if end == b'\n' {
        content(line)
    } else {
        without_last(line, end)
    }
}

/// Appends the line, and a line feed if it has none at its end.
pub fn append_whole(line: &[u8], out: &mut Vec<u8>) -> Result<(), AllocError>
    ensures { OnOk result (out.new.items ≡ out.old.items ++ with_end line_feed line.now) }
{
    append_record(line, b'\n', out)
}

/// Appends the record, and its end if it has none.
pub fn append_record(line: &[u8], end: u8, out: &mut Vec<u8>) -> Result<(), AllocError>
    ensures { OnOk result (out.new.items ≡ out.old.items ++ with_end end line.now) }
{
    out.extend_from_slice(line)?;
    if !ends_with(line, end) {
        out.push(end)?;
    }
    Ok(())
}
