//! Which rows are taken, and which of their columns are shown.
ghost use Rattle.std.specs.Prelude.{◌≡◌, ℕ, IfOk, List, Option, Some, map, option_map, true};
ghost use Rattle.log_extractor.specs.Fields.{field_text, fields_now};
ghost use Rattle.log_extractor.specs.Selected.{all_hold, holds, selected};
ghost use Rattle.log_extractor.specs.Several.{field_at};

use crate::names::field_at;
use std::alloc::{AllocError, Global};

/// What the field of a column has to be.
#[derive(Clone, Copy)]
pub struct Condition<'w> {
    /// The number of the column, from 0.
    pub column: usize,
    /// The field has this text, and not another one.
    pub equal: bool,
    pub text: &'w [u8],
}

/// The columns that are shown, in their order.
#[derive(Drop)]
pub struct Chosen {
    /// Their numbers, from 0.
    pub columns: Vec<usize>,
    pub names: Vec<String>,
}

/// Which rows are taken, and which of their columns are shown.
#[derive(Drop)]
pub struct Selection<'w> {
    /// All of these hold of a row that is taken.
    pub conditions: Vec<Condition<'w>>,
    /// Without these all columns are shown.
    pub chosen: Option<Chosen>,
}

impl Selection<'_> {
    /// Returns whether each row is taken, and all of its columns are shown.
    pub fn takes_all(&self) -> bool
        ensures { result ≡ true → (fields : List (Option (List ℕ))) → selected self.now fields ≡ Some fields }
    {
        self.conditions.is_empty() && self.chosen.is_none()
    }
}

/// Returns what is shown of a row of these fields, if it is taken. The only error is that allocation failed.
pub fn selected<'l>(
    alloc: Global,
    selection: &Selection<'_>,
    fields: Vec<Option<&'l [u8]>>,
) -> Result<Option<Vec<Option<&'l [u8]>>>, AllocError>
    ensures { IfOk result (λ row. option_map (λ fields. fields_now fields.items) row
        ≡ selected selection.now (fields_now fields.entry.items)) }
{
    if !all_hold(&selection.conditions, &fields) {
        return Ok(None);
    }
    let Some(chosen) = &selection.chosen else {
        return Ok(Some(fields));
    };
    let shown = fields_at(alloc, &chosen.columns, &fields)?;
    Ok(Some(shown))
}

/// Returns whether all conditions hold of these fields.
fn all_hold(conditions: &[Condition<'_>], fields: &[Option<&[u8]>]) -> bool
    ensures { result ≡ all_hold (fields_now fields.now) conditions.now }
{
    match conditions {
        [] => true,
        [first, others @ ..] => holds(*first, fields) && all_hold(others, fields),
    }
}

/// Returns whether the condition holds of these fields.
fn holds(condition: Condition<'_>, fields: &[Option<&[u8]>]) -> bool
    ensures { result ≡ holds (fields_now fields.now) condition.entry }
{
    let same = text_at(fields, condition.column) == condition.text;
    if condition.equal { same } else { !same }
}

/// Returns the text of the field of this number, which is empty if there is none.
fn text_at<'l>(fields: &[Option<&'l [u8]>], column: usize) -> &'l [u8]
    ensures { result.now ≡ field_text (field_at (fields_now fields.now) column) }
{
    field_at(fields, column).unwrap_or(b"")
}

/// Returns the fields of these numbers.
fn fields_at<'l>(
    alloc: Global,
    columns: &[usize],
    fields: &[Option<&'l [u8]>],
) -> Result<Vec<Option<&'l [u8]>>, AllocError>
    ensures { IfOk result (λ shown. fields_now shown.items ≡ map (field_at (fields_now fields.now)) columns.now) }
{
    let mut shown = Vec::with_capacity(alloc, columns.len())?;
    for column in columns {
        shown.push(field_at(fields, *column))?;
    }
    Ok(shown)
}
