//! The columns of several patterns by their names.
ghost use Rattle.std.specs.Prelude.{◌≡◌, ◌++◌, IfOk, List, OnOk, map, option_map, string_bytes};
ghost use Rattle.std.specs.List.{list_any};
ghost use Rattle.std.specs.Str.{bytes_eq};
ghost use Rattle.log_extractor.specs.Fields.{column_names, fields_now, group_of};
ghost use Rattle.log_extractor.specs.Several.{AreLinePatterns, LabelledPattern, field_at, field_named, labelled_text};
ghost use Rattle.log_extractor.specs.Several.{union_names, with_name, with_names};

use crate::parsers::LabelledParser;
use crate::pattern::Column;
use std::alloc::{AllocError, Global};

/// Returns the names of the columns of all parsers, each once, in the order of their first appearance.
pub fn union_of(alloc: Global, parsers: &[LabelledParser<'_>]) -> Result<Vec<String>, AllocError>
    ensures { IfOk result (λ names. (ps : List LabelledPattern) → AreLinePatterns (map labelled_text parsers.now) ps
        → map string_bytes names.items ≡ union_names ps) }
{
    let mut names = Vec::new(alloc);
    for labelled in parsers {
        push_names(labelled.parser.columns(), &mut names)?;
    }
    Ok(names)
}

/// Adds the names of the columns that are not there yet.
fn push_names(columns: &[Column], names: &mut Vec<String>) -> Result<(), AllocError>
    ensures { OnOk result (map string_bytes names.new.items
        ≡ with_names (map string_bytes names.old.items) (column_names (map group_of columns.now))) }
{
    for column in columns {
        push_name(&column.name, names)?;
    }
    Ok(())
}

/// Adds the name, if it is not there yet.
fn push_name(name: &String, names: &mut Vec<String>) -> Result<(), AllocError>
    ensures { OnOk result (map string_bytes names.new.items
        ≡ with_name (map string_bytes names.old.items) (string_bytes name.now)) }
{
    if has_name(names, name.as_str()) {
        return Ok(());
    }
    names.push(name.clone()?)?;
    Ok(())
}

/// Returns whether the name is among the names.
pub fn has_name(names: &[String], name: &str) -> bool
    ensures { result ≡ list_any (λ other. bytes_eq other name.now) (map string_bytes names.now) }
{
    for other in names {
        if is_name(other, name) {
            return true;
        }
    }
    false
}

/// Returns whether the names are the same.
pub fn is_name(other: &String, name: &str) -> bool
    ensures { result ≡ bytes_eq (string_bytes other.now) name.now }
{
    other.as_str() == name
}

/// Adds the fields of the columns of these names.
pub fn push_fields<'l>(
    names: &[String],
    columns: &[Column],
    fields: &[Option<&'l [u8]>],
    row: &mut Vec<Option<&'l [u8]>>,
) -> Result<(), AllocError>
    ensures { OnOk result (fields_now row.new.items ≡ fields_now row.old.items
        ++ map (field_named (map group_of columns.now) (fields_now fields.now)) (map string_bytes names.now)) }
{
    for name in names {
        row.push(field_named(columns, fields, name))?;
    }
    Ok(())
}

/// Returns the field of the first column of this name, or `None` if no column has it.
fn field_named<'l>(
    columns: &[Column],
    fields: &[Option<&'l [u8]>],
    name: &String,
) -> Option<&'l [u8]>
    ensures { option_map (λ text. text.now) result
        ≡ field_named (map group_of columns.now) (fields_now fields.now) (string_bytes name.now) }
{
    for (number, column) in columns.iter().enumerate() {
        if is_name(&column.name, name.as_str()) {
            return field_at(fields, number);
        }
    }
    None
}

/// Returns the field of this number, or `None` if there are not as many.
pub fn field_at<'l>(fields: &[Option<&'l [u8]>], number: usize) -> Option<&'l [u8]>
    ensures { option_map (λ text. text.now) result ≡ field_at (fields_now fields.now) number }
{
    *fields.get(number)?
}
