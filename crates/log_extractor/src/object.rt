//! Rows as JSON objects.
ghost use Rattle.std.specs.Prelude.{◌≡◌, ◌∷◌, ◌++◌, OnOk, flat_map, map, option_map, string_bytes};
ghost use Rattle.json.specs.Print.{quoted};
ghost use Rattle.log_extractor.specs.Fields.{fields_now};
ghost use Rattle.log_extractor.specs.Printed.{is_number, json_value, member_text, members, object_line, separated};

use crate::output::Values;
use serde_json::Value;
use std::alloc::{AllocError, Global};

/// Appends a line with the fields of the columns of these names as a JSON object. Bytes that are not UTF-8 are replaced
/// by U+FFFD, and a field that is `None` is null.
pub fn append_object(
    alloc: Global,
    values: Values,
    names: &[String],
    fields: &[Option<&[u8]>],
    out: &mut Vec<u8>,
) -> Result<(), AllocError>
    ensures { OnOk result (out.new.items
        ≡ out.old.items ++ object_line values (map string_bytes names.now) (fields_now fields.now)) }
{
    out.push(b'{')?;
    append_members(alloc, values, names, fields, out)?;
    out.extend_from_slice(b"}\n")?;
    Ok(())
}

/// Appends a member for each name, with commas between them.
#[tactic(auto, using(crate::proofs::RowLemmas::members_none))]
fn append_members(
    alloc: Global,
    values: Values,
    names: &[String],
    fields: &[Option<&[u8]>],
    out: &mut Vec<u8>,
) -> Result<(), AllocError>
    ensures { OnOk result (out.new.items
        ≡ out.old.items ++ separated 44 (members values (map string_bytes names.now) (fields_now fields.now))) }
{
    let [name, names @ ..] = names else {
        return Ok(());
    };
    let [field, fields @ ..] = fields else {
        return Ok(());
    };
    append_member(alloc, values, name, *field, out)?;
    append_more_members(alloc, values, names, fields, out)?;
    Ok(())
}

/// Appends a member for each name, with a comma before it.
fn append_more_members(
    alloc: Global,
    values: Values,
    names: &[String],
    fields: &[Option<&[u8]>],
    out: &mut Vec<u8>,
) -> Result<(), AllocError>
    ensures { OnOk result (out.new.items ≡ out.old.items
        ++ flat_map (λ m. 44 ∷ m) (members values (map string_bytes names.now) (fields_now fields.now))) }
{
    for (name, field) in names.iter().zip(fields) {
        out.push(b',')?;
        append_member(alloc, values, name, *field, out)?;
    }
    Ok(())
}

/// Appends the name, a colon and the field.
fn append_member(
    alloc: Global,
    values: Values,
    name: &String,
    field: Option<&[u8]>,
    out: &mut Vec<u8>,
) -> Result<(), AllocError>
    ensures { OnOk result (out.new.items ≡ out.old.items
        ++ member_text values (string_bytes name.now) (option_map (λ text. text.now) field.entry)) }
{
    append_string(alloc, name.clone()?, out)?;
    out.push(b':')?;
    match field {
        Some(text) => append_value(alloc, values, String::from_utf8_lossy(alloc, text)?, out),
        None => out.extend_from_slice(b"null"),
    }
}

/// Appends the text as a value: as it is, if it is a number and numbers are wanted, and else in quotes.
fn append_value(
    alloc: Global,
    values: Values,
    text: String,
    out: &mut Vec<u8>,
) -> Result<(), AllocError>
    ensures { OnOk result (out.new.items ≡ out.old.items ++ json_value values (string_bytes text)) }
{
    match values {
        Values::Numbers if is_number(text.as_str()) => out.extend_from_slice(text.as_bytes()),
        Values::Numbers | Values::Texts => append_string(alloc, text, out),
    }
}

/// Returns whether the whole text is a number of JSON.
fn is_number(text: &str) -> bool
    ensures { result ≡ is_number text.now }
{
    json::is_number(text)
}

/// Appends the text in quotes, with the escapes of JSON.
fn append_string(alloc: Global, text: String, out: &mut Vec<u8>) -> Result<(), AllocError>
    ensures { OnOk result (out.new.items ≡ out.old.items ++ quoted (string_bytes text)) }
{
    let quoted = Value::String(text).to_string(alloc)?;
    out.extend_from_slice(quoted.as_bytes())
}
