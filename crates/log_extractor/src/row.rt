//! Rows as lines, with a byte between the fields.
ghost use Rattle.std.specs.Prelude.{◌≡◌, ◌∷◌, ◌++◌, OnOk, flat_map, map, option_map, string_bytes};
ghost use Rattle.log_extractor.specs.Fields.{field_text, fields_now};
ghost use Rattle.log_extractor.specs.Printed.{RowsAreLines, RowsAreReadBack, row_line, separated};
ghost use Rattle.log_extractor.specs.Printed.{separator, written};

use crate::field::append_text;
use crate::output::Form;
use std::alloc::AllocError;

/// A row with tabs is one line. Between its tabs it has as many fields as there are columns, and each means its text.
pub fn rows_are_read_back()
    ensures lines { RowsAreLines }
    ensures texts { RowsAreReadBack }
{}

/// Returns the byte between the fields.
pub fn separator(form: Form) -> u8
    ensures { result ≡ separator form }
{
    match form {
        Form::Tabs => b'\t',
        Form::Commas => b',',
    }
}

/// Appends a line with the names.
pub fn append_names(form: Form, names: &[String], out: &mut Vec<u8>) -> Result<(), AllocError>
    ensures { OnOk result (out.new.items
        ≡ out.old.items ++ row_line form (map string_bytes names.now)) }
{
    append_joined_names(form, names, out)?;
    out.push(b'\n')?;
    Ok(())
}

/// Appends the names, separated.
fn append_joined_names(form: Form, names: &[String], out: &mut Vec<u8>) -> Result<(), AllocError>
    ensures { OnOk result (out.new.items ≡ out.old.items
        ++ separated (separator form) (map (written form) (map string_bytes names.now))) }
{
    let [name, names @ ..] = names else {
        return Ok(());
    };
    append_text(form, name.as_bytes(), out)?;
    append_more_names(form, names, out)?;
    Ok(())
}

/// Appends each name, with a separator before it.
fn append_more_names(form: Form, names: &[String], out: &mut Vec<u8>) -> Result<(), AllocError>
    ensures { OnOk result (out.new.items ≡ out.old.items ++ flat_map (λ name. separator form ∷ name)
        (map (written form) (map string_bytes names.now))) }
{
    for name in names {
        out.push(separator(form))?;
        append_text(form, name.as_bytes(), out)?;
    }
    Ok(())
}

/// Appends a line with the fields. A field that is `None` is empty.
pub fn append_row(form: Form, fields: &[Option<&[u8]>], out: &mut Vec<u8>) -> Result<(), AllocError>
    ensures { OnOk result (out.new.items ≡ out.old.items ++ row_line form (map field_text (fields_now fields.now))) }
{
    append_joined(form, fields, out)?;
    out.push(b'\n')?;
    Ok(())
}

/// Appends the fields, separated.
fn append_joined(form: Form, fields: &[Option<&[u8]>], out: &mut Vec<u8>) -> Result<(), AllocError>
    ensures { OnOk result (out.new.items ≡ out.old.items
        ++ separated (separator form) (map (written form) (map field_text (fields_now fields.now)))) }
{
    let [field, fields @ ..] = fields else {
        return Ok(());
    };
    append_field(form, *field, out)?;
    append_more(form, fields, out)?;
    Ok(())
}

/// Appends each field, with a separator before it.
fn append_more(form: Form, fields: &[Option<&[u8]>], out: &mut Vec<u8>) -> Result<(), AllocError>
    ensures { OnOk result (out.new.items ≡ out.old.items ++ flat_map (λ text. separator form ∷ text)
        (map (written form) (map field_text (fields_now fields.now)))) }
{
    for field in fields {
        out.push(separator(form))?;
        append_field(form, *field, out)?;
    }
    Ok(())
}

/// Appends the field. One that is `None` is written as an empty text.
fn append_field(form: Form, field: Option<&[u8]>, out: &mut Vec<u8>) -> Result<(), AllocError>
    ensures { OnOk result (out.new.items ≡ out.old.items
        ++ written form (field_text (option_map (λ text. text.now) field.entry))) }
{
    append_text(form, field.unwrap_or(b""), out)
}
