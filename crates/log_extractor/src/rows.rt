//! The rows that are taken of lines.
ghost use Rattle.std.specs.Prelude.{◌≡◌, IfOk, List, Some, map, option_map, string_bytes};
ghost use Rattle.log_extractor.specs.Counts.{value_at};
ghost use Rattle.log_extractor.specs.Fields.{fields_now};
ghost use Rattle.log_extractor.specs.Selected.{row_in, selected_names};
ghost use Rattle.log_extractor.specs.Several.{AreLinePatterns, LabelledPattern};

use crate::parsers::Parsers;
use crate::selection::{Selection, selected};
use std::alloc::{AllocError, Global};

/// Finds the rows of lines, and takes those that are selected.
#[derive(Drop)]
pub struct Rows<'p, 'w> {
    pub parsers: Parsers<'p>,
    pub selection: Selection<'w>,
}

impl<'p, 'w> Rows<'p, 'w> {
    /// Returns the names of the columns that are shown.
    pub fn names(&self) -> &[String]
        ensures { (ps : List LabelledPattern) → AreLinePatterns self.now.parsers ps
            → map string_bytes result.now ≡ selected_names self.now.selection ps }
    {
        match &self.selection.chosen {
            Some(chosen) => &chosen.names,
            None => self.parsers.names(),
        }
    }

    /// Returns the fields that are shown of the line. Returns `None` if no pattern matches the line from its start, or
    /// if a condition does not hold of its row. The only error is that allocation failed.
    pub fn row_of<'l>(
        &mut self,
        alloc: Global,
        line: &'l [u8],
    ) -> Result<Option<Vec<Option<&'l [u8]>>>, AllocError>
    where
        'p: 'l,
        ensures fields { IfOk result (λ found. (ps : List LabelledPattern) → AreLinePatterns self.old.parsers ps
            → option_map (λ fields. fields_now fields.items) found ≡ row_in self.old.selection ps line.now) }
        ensures kept { self.new ≡ self.old }
    {
        let Some(fields) = self.parsers.parse_line(line)? else {
            return Ok(None);
        };
        selected(alloc, &self.selection, fields)
    }

    /// Returns the text of the field of this number among those that are shown of the line, as `row_of` gives them. A
    /// field that is `None` has an empty text. Returns `None` if there are no fields, or not as many.
    pub fn value_of<'l>(
        &mut self,
        alloc: Global,
        line: &'l [u8],
        column: usize,
    ) -> Result<Option<&'l [u8]>, AllocError>
    where
        'p: 'l,
        ensures value { IfOk result (λ value. (ps : List LabelledPattern) → AreLinePatterns self.old.parsers ps
            → option_map (λ value. value.now) value ≡ value_at column (row_in self.old.selection ps line.now)) }
        ensures kept { self.new ≡ self.old }
    {
        if self.selection.takes_all() && self.parsers.is_one() {
            // No list of fields is made for the only one that is wanted.
            return Ok(self.parsers.parse_value(line, column));
        }
        let row = self.row_of(alloc, line)?;
        Ok(value_at(&row, column))
    }
}

/// Returns the text of the field of this number, if there are fields.
fn value_at<'l>(row: &Option<Vec<Option<&'l [u8]>>>, column: usize) -> Option<&'l [u8]>
    ensures { option_map (λ value. value.now) result
        ≡ value_at column (option_map (λ fields. fields_now fields.items) row.now) }
{
    let Some(fields) = row else {
        return None;
    };
    field_at(fields, column)
}

/// Returns the text of the field of this number, which is empty if its group took no part.
fn field_at<'l>(fields: &[Option<&'l [u8]>], column: usize) -> Option<&'l [u8]>
    ensures { option_map (λ value. value.now) result ≡ value_at column (Some (fields_now fields.now)) }
{
    let field = *fields.get(column)?;
    Some(field.unwrap_or(b""))
}
