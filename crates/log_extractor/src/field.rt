//! The text of a field in a row.
ghost use Rattle.std.specs.Prelude.{◌≡◌, ◌++◌, OnOk};
ghost use Rattle.log_extractor.specs.Printed.{AreReadBack, HaveNoSeparator, doubled, doubled_byte, escaped};
ghost use Rattle.log_extractor.specs.Printed.{escaped_byte};
ghost use Rattle.log_extractor.specs.Printed.{is_special, needs_quotes, quoted_text, written};

use crate::output::Form;
use std::alloc::AllocError;

/// Appends the text as a field of a row of this form.
pub fn append_text(form: Form, text: &[u8], out: &mut Vec<u8>) -> Result<(), AllocError>
    ensures { OnOk result (out.new.items ≡ out.old.items ++ written form text.now) }
{
    match form {
        Form::Tabs => append_escaped(text, out),
        Form::Commas if needs_quotes(text) => append_quoted(text, out),
        Form::Commas => out.extend_from_slice(text),
    }
}

/// A field between tabs has no tab, line feed or carriage return, and its text can be read back. So a row is one line,
/// and has as many fields as there are columns.
pub fn escapes_are_read_back()
    ensures separators { HaveNoSeparator }
    ensures texts { AreReadBack }
{}

/// Appends the text with escapes for tabs, line feeds, carriage returns and backslashes.
fn append_escaped(text: &[u8], out: &mut Vec<u8>) -> Result<(), AllocError>
    ensures { OnOk result (out.new.items ≡ out.old.items ++ escaped text.now) }
{
    for byte in text {
        append_escaped_byte(*byte, out)?;
    }
    Ok(())
}

/// Appends the byte, or its escape.
fn append_escaped_byte(byte: u8, out: &mut Vec<u8>) -> Result<(), AllocError>
    ensures { OnOk result (out.new.items ≡ out.old.items ++ escaped_byte byte) }
{
    match byte {
        b'\t' => out.extend_from_slice(b"\\t"),
        b'\n' => out.extend_from_slice(b"\\n"),
        b'\r' => out.extend_from_slice(b"\\r"),
        b'\\' => out.extend_from_slice(b"\\\\"),
        _ => Ok(out.push(byte)?),
    }
}

/// Returns whether a field between commas has quotes around it: an empty one has too, so that no row is an empty line.
fn needs_quotes(text: &[u8]) -> bool
    ensures { result ≡ needs_quotes text.now }
{
    text.is_empty() || text.iter().any(|byte| is_special(*byte))
}

/// Returns whether the byte has a meaning between commas.
fn is_special(byte: u8) -> bool
    ensures { result ≡ is_special byte }
{
    matches!(byte, b'"' | b',' | b'\n' | b'\r')
}

/// Appends the text in quotes. A quote in it is doubled.
fn append_quoted(text: &[u8], out: &mut Vec<u8>) -> Result<(), AllocError>
    ensures { OnOk result (out.new.items ≡ out.old.items ++ quoted_text text.now) }
{
    out.push(b'"')?;
    append_doubled(text, out)?;
    out.push(b'"')?;
    Ok(())
}

/// Appends the text, with each quote doubled.
fn append_doubled(text: &[u8], out: &mut Vec<u8>) -> Result<(), AllocError>
    ensures { OnOk result (out.new.items ≡ out.old.items ++ doubled text.now) }
{
    for byte in text {
        append_doubled_byte(*byte, out)?;
    }
    Ok(())
}

/// Appends the byte, twice if it is a quote.
fn append_doubled_byte(byte: u8, out: &mut Vec<u8>) -> Result<(), AllocError>
    ensures { OnOk result (out.new.items ≡ out.old.items ++ doubled_byte byte) }
{
    if byte == b'"' {
        return out.extend_from_slice(b"\"\"");
    }
    out.push(byte)?;
    Ok(())
}
