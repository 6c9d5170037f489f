//! The rows of lines by the first of several patterns that matches.
ghost use Rattle.std.specs.Prelude.{◌≡◌, ◌++◌, ◌∷◌, [], IfOk, List, OnOk, drop, false, length, map, option_map};
ghost use Rattle.std.specs.Prelude.{string_bytes};
ghost use Rattle.log_extractor.specs.Fields.{fields_now, group_of};
ghost use Rattle.log_extractor.specs.Several.{AreLinePatterns, IsLabelledPattern, LabelledPattern, label_field};
ghost use Rattle.log_extractor.specs.Several.{row_of_first, row_of_one, labelled_text};

use crate::names::{push_fields, union_of};
use crate::parser::Parser;
use std::alloc::{AllocError, Global};
use std::marker::Model;

/// The name of the column that says by which pattern a line has its row.
pub const LABEL: &str = "pattern";

/// A parser, and what the rows of its lines have in the column of labels.
#[derive(Drop)]
pub struct LabelledParser<'p> {
    pub label: &'p str,
    pub parser: Parser<'p>,
}

/// Finds the rows of lines. A line has the row of the first parser whose pattern matches it from its start.
///
/// A contract sees the labels and the texts of the patterns.
#[derive(Drop)]
pub struct Parsers<'p> {
    alloc: Global,
    parsers: Vec<LabelledParser<'p>>,
    /// The name of the column of labels, and the names of the other columns.
    names: Vec<String>,
}

impl<'p> Model for Parsers<'p> {
    ghost use Rattle.std.specs.Prelude.{◌≡◌, ◌∷◌, List, codes, map, string_bytes};
    ghost use Rattle.log_extractor.specs.Several.{AreLinePatterns, LabelledPattern, LabelledText, labelled_text};
    ghost use Rattle.log_extractor.specs.Several.{union_names};

    ghost Value = { List LabelledText };

    ghost view = { λ p. map labelled_text p.parsers.items };

    ghost invariant = { λ p. (ps : List LabelledPattern) → AreLinePatterns (map labelled_text p.parsers.items) ps
        → map string_bytes p.names.items ≡ codes "pattern" ∷ union_names ps };
}

impl<'p> Parsers<'p> {
    ghost use Rattle.std.specs.Prelude.{length, true};
    ghost use Rattle.log_extractor.specs.Counts.{value_at};
    ghost use Rattle.log_extractor.specs.Several.{shown_names, row_by_first};

    /// Joins the parsers. The columns are the named groups of all, each name once, in the order of their first
    /// appearance. If there are several parsers, a column of labels is first.
    ///
    /// The only error is that allocation failed.
    pub fn new(alloc: Global, parsers: Vec<LabelledParser<'p>>) -> Result<Parsers<'p>, AllocError>
        ensures { IfOk result (λ made. made ≡ map labelled_text parsers.entry.items) }
    {
        let mut names = union_of(alloc, &parsers)?;
        names.insert(0, String::from_str(alloc, LABEL)?)?;
        Ok(Parsers {
            alloc,
            parsers,
            names,
        })
    }

    /// Returns the names of the columns.
    pub fn names(&self) -> &[String]
        ensures { (ps : List LabelledPattern) → AreLinePatterns self.now ps
            → map string_bytes result.now ≡ shown_names ps }
    {
        if self.parsers.len() > 1 {
            &self.names
        } else {
            after_first(&self.names)
        }
    }

    /// Returns the fields of the line, one for each column: the text that the match last wrote for the group. A field
    /// is `None` if the match wrote nothing for its group, or the pattern has no such group. Returns `None` if no
    /// pattern matches the line from its start. The only error is that allocation failed.
    pub fn parse_line<'l>(
        &mut self,
        line: &'l [u8],
    ) -> Result<Option<Vec<Option<&'l [u8]>>>, AllocError>
    where
        'p: 'l,
        ensures fields { IfOk result (λ found. (ps : List LabelledPattern) → AreLinePatterns self.old ps
            → option_map (λ fields. fields_now fields.items) found ≡ row_by_first ps line.now) }
        ensures kept { self.new ≡ self.old }
    {
        let several = self.parsers.len() > 1;
        let names = after_first(&self.names);
        first_row(self.alloc, several, names, &mut self.parsers, line)
    }

    /// Returns whether there is only one pattern.
    pub fn is_one(&self) -> bool
        ensures { result ≡ true → length self.now ≡ 1 }
    {
        self.parsers.len() == 1
    }

    /// Returns the text of the field of this number in the row of the line, which is empty if the match wrote nothing
    /// for its group. Returns `None` if the line has no row, or not as many fields. There has to be one pattern.
    pub fn parse_value<'l>(&mut self, line: &'l [u8], column: usize) -> Option<&'l [u8]>
    where
        'p: 'l,
        requires one { length self.old ≡ 1 }
        ensures value { (ps : List LabelledPattern) → AreLinePatterns self.old ps
            → option_map (λ value. value.now) result ≡ value_at column (row_by_first ps line.now) }
        ensures kept { self.new ≡ self.old }
    {
        let name = after_first(&self.names).get(column)?;
        let field = field_by_one(&mut self.parsers, line, name)?;
        Some(field.unwrap_or(b""))
    }
}

/// Returns the names after the first one.
fn after_first(names: &[String]) -> &[String]
    ensures { result.now ≡ drop 1 names.now }
{
    match names {
        [_, names @ ..] => names,
        [] => names,
    }
}

/// Returns the row of the line by the first of the parsers that has one.
fn first_row<'l, 'p: 'l>(
    alloc: Global,
    several: bool,
    names: &[String],
    parsers: &mut [LabelledParser<'p>],
    line: &'l [u8],
) -> Result<Option<Vec<Option<&'l [u8]>>>, AllocError>
    ensures fields { IfOk result (λ found. (ps : List LabelledPattern)
        → AreLinePatterns (map labelled_text parsers.old) ps
        → option_map (λ fields. fields_now fields.items) found
        ≡ row_of_first several (map string_bytes names.now) ps line.now) }
    ensures kept { parsers.new ≡ parsers.old }
{
    for number in 0..parsers.len() {
        let row = row_by(alloc, several, names, &mut parsers[number], line)?;
        if row.is_some() {
            return Ok(row);
        }
    }
    Ok(None)
}

/// Returns the field of the column of this name in the row of the line by the only parser, if it has one.
fn field_by_one<'l, 'p: 'l>(
    parsers: &mut [LabelledParser<'p>],
    line: &'l [u8],
    name: &String,
) -> Option<Option<&'l [u8]>>
    requires one { length parsers.old ≡ 1 }
    ensures field { (ps : List LabelledPattern) → AreLinePatterns (map labelled_text parsers.old) ps
        → option_map (λ field. option_map (λ text. text.now) field ∷ []) result
        ≡ row_of_first false (string_bytes name.now ∷ []) ps line.now }
    ensures kept { parsers.new ≡ parsers.old }
{
    parsers[0].parser.parse_field(line, name)
}

/// Returns the row of the line by the parser: its label, if there are several parsers, and the fields of the columns
/// of these names.
fn row_by<'l, 'p: 'l>(
    alloc: Global,
    several: bool,
    names: &[String],
    labelled: &mut LabelledParser<'p>,
    line: &'l [u8],
) -> Result<Option<Vec<Option<&'l [u8]>>>, AllocError>
    ensures fields { IfOk result (λ found. (p : LabelledPattern) → IsLabelledPattern (labelled_text labelled.old) p
        → option_map (λ fields. fields_now fields.items) found
        ≡ row_of_one several (map string_bytes names.now) p line.now) }
    ensures kept { labelled.new ≡ labelled.old }
{
    let Some(fields) = labelled.parser.parse_line(line)? else {
        return Ok(None);
    };
    let room = names.len().saturating_add(1);
    let mut row = label_field(alloc, several, labelled.label, room)?;
    push_fields(names, labelled.parser.columns(), &fields, &mut row)?;
    Ok(Some(row))
}

/// Returns the field of the label, if there are several parsers, with room for this many fields.
fn label_field<'l>(
    alloc: Global,
    several: bool,
    label: &'l str,
    room: usize,
) -> Result<Vec<Option<&'l [u8]>>, AllocError>
    ensures { IfOk result (λ fields. fields_now fields.items ≡ label_field several label.now) }
{
    let mut fields = Vec::with_capacity(alloc, room)?;
    if !several {
        return Ok(fields);
    }
    fields.push(Some(label.as_bytes()))?;
    Ok(fields)
}
