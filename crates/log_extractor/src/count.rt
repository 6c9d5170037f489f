//! How often each value of a column occurs.
ghost use Rattle.std.specs.Prelude.{◌≡◌, ◌++◌, ◌∷◌, [], IfErr, IfNone, IfOk, IfSome, List, OnOk, map, option_map};
ghost use Rattle.std.specs.Prelude.{false, slice_get, string_bytes, ℕ, flat_map};
ghost use Rattle.std.specs.Io.KnownBytes.{Appends};
ghost use Rattle.program_text.specs.Lines.{content, lines_of};
ghost use Rattle.std.specs.BTreeMap.{IsOrdered};
ghost use Rattle.log_extractor.specs.Counts.{IsCountList, IsFound, IsTally, count_head, tally_line, counted};
ghost use Rattle.log_extractor.specs.Counts.{entry_counted, key_cmp, value_in};
ghost use Rattle.log_extractor.specs.Several.{AreLinePatterns, LabelledPattern};
ghost use Rattle.log_extractor.specs.Taken.{TakesNext};

use crate::field::append_text;
use crate::names::is_name;
use crate::output::Form;
use crate::row::separator;
use crate::rows::Rows;
use program_text::failure::Failure;
use program_text::held::first_record;
use program_text::line::content;
use program_text::stream::{read_line, write_bytes};
use std::alloc::{AllocError, Global};
use std::cmp::Reverse;
use std::collections::BTreeMap;
use std::io::{BufRead, Write};

/// How often each value occurs, by the values that occur.
pub type Counts = BTreeMap<Vec<u8>, u64>;

/// A value, and how often it occurs. Those that occur more often are less, and then those that are less as bytes.
pub type Counted<'c> = (Reverse<u64>, &'c [u8]);

/// Returns counts of no values.
pub fn no_counts(alloc: Global) -> Counts
    ensures { IsTally [] result }
{
    BTreeMap::new(alloc)
}

/// Returns the number of the column of this name, from 0, if there are columns of these names.
pub fn column_named(names: &[String], name: &str) -> Option<usize>
    ensures found { IfSome result (λ k. slice_get (map string_bytes names.now) k ≡ Some name.now) }
    ensures missing { IfNone result ((k : ℕ) → ¬ (slice_get (map string_bytes names.now) k ≡ Some name.now)) }
{
    for (number, other) in names.iter().enumerate() {
        if is_name(other, name) {
            return Some(number);
        }
    }
    None
}

/// Counts the values of the column of this number in the rows of an input. A field that is `None` is an empty value.
///
/// The input is read a line at a time, so the memory is bounded by the longest line and the values that differ.
pub fn count_lines<R: BufRead>(
    alloc: Global,
    rows: &mut Rows<'_, '_>,
    column: usize,
    input: &mut R,
    counts: &mut Counts,
) -> Result<(), Failure>
    ensures counted { OnOk result ((ps : List LabelledPattern) → AreLinePatterns rows.old.parsers ps
        → (values : List (List ℕ)) → IsTally values counts.old → IfSome (R.remaining input.old)
        (λ text. IsTally (values ++ flat_map (value_in rows.old.selection ps column) (lines_of text)) counts.new)) }
    ensures kept { rows.new ≡ rows.old }
{
    for before in 0..u64::MAX {
        if !count_next(alloc, rows, column, input, before + 1, counts)? {
            return Ok(());
        }
    }
    Err(Failure::TooLong)
}

/// Counts the value of the column in the row of the next line, which has this number, from 1. Returns whether there is
/// a line. It is copied only if it is not whole in what the reader holds.
fn count_next<R: BufRead>(
    alloc: Global,
    rows: &mut Rows<'_, '_>,
    column: usize,
    input: &mut R,
    number: u64,
    counts: &mut Counts,
) -> Result<bool, Failure>
    ensures counted { IfOk result (TakesNext (R.remaining input.old) (R.remaining input.new) (λ line.
        (ps : List LabelledPattern) → AreLinePatterns rows.old.parsers ps
        → (values : List (List ℕ)) → IsTally values counts.old
        → IsTally (values ++ value_in rows.old.selection ps column line) counts.new)) }
    ensures ended { IfOk result (λ more. more ≡ false → counts.new ≡ counts.old) }
    ensures kept { rows.new ≡ rows.old }
{
    let held = match input.fill_buf() {
        Ok(held) => held,
        Err(error) => {
            Failure::unless_interrupted(error, number)?;
            return count_copy(alloc, rows, column, input, number, counts);
        }
    };
    let Some(len) = first_record(held, b'\n') else {
        if held.is_empty() {
            return Ok(false);
        }
        return count_copy(alloc, rows, column, input, number, counts);
    };
    count_one(alloc, rows, column, &held[..len], number, counts)?;
    input.consume(len);
    Ok(true)
}

/// The same, of a copy of the line.
#[inline(never)]
fn count_copy<R: BufRead>(
    alloc: Global,
    rows: &mut Rows<'_, '_>,
    column: usize,
    input: &mut R,
    number: u64,
    counts: &mut Counts,
) -> Result<bool, Failure>
    ensures counted { IfOk result (TakesNext (R.remaining input.old) (R.remaining input.new) (λ line.
        (ps : List LabelledPattern) → AreLinePatterns rows.old.parsers ps
        → (values : List (List ℕ)) → IsTally values counts.old
        → IsTally (values ++ value_in rows.old.selection ps column line) counts.new)) }
    ensures ended { IfOk result (λ more. more ≡ false → counts.new ≡ counts.old) }
    ensures kept { rows.new ≡ rows.old }
{
    let mut line = Vec::new(alloc);
    if !read_line(input, number, &mut line)? {
        return Ok(false);
    }
    count_one(alloc, rows, column, &line, number, counts)?;
    Ok(true)
}

/// Counts the value of the column in the row of the line, if it has one. The line may have its end, and has this
/// number, from 1.
fn count_one(
    alloc: Global,
    rows: &mut Rows<'_, '_>,
    column: usize,
    line: &[u8],
    number: u64,
    counts: &mut Counts,
) -> Result<(), Failure>
    ensures counted { OnOk result ((ps : List LabelledPattern) → AreLinePatterns rows.old.parsers ps
        → (values : List (List ℕ)) → IsTally values counts.old
        → IsTally (values ++ value_in rows.old.selection ps column line.now) counts.new) }
    ensures kept { rows.new ≡ rows.old }
{
    let Ok(value) = rows.value_of(alloc, content(line), column) else {
        return Err(Failure::Line(number));
    };
    let Some(value) = value else {
        return Ok(());
    };
    add(alloc, counts, value, number)
}

/// Counts the value once more. It is of the line of this number. Only a value that was not counted before is copied.
fn add(alloc: Global, counts: &mut Counts, value: &[u8], number: u64) -> Result<(), Failure>
    ensures { OnOk result ((values : List (List ℕ)) → IsTally values counts.old
        → IsTally (values ++ value.now ∷ []) counts.new) }
{
    if let Some(count) = counts.get_mut(value) {
        let Some(next) = count.checked_add(1) else {
            return Err(Failure::TooLong);
        };
        *count = next;
        return Ok(());
    }
    let Ok(key) = Vec::from_slice(alloc, value) else {
        return Err(Failure::Line(number));
    };
    let Ok(_) = counts.insert(key, 1) else {
        return Err(Failure::Line(number));
    };
    Ok(())
}

/// Prints a line with the names of the columns of the counts.
pub fn print_count_head<W: Write>(
    alloc: Global,
    form: Form,
    name: &str,
    out: &mut W,
) -> Result<(), Failure>
    ensures { OnOk result (Appends (W.contents out.old) (W.contents out.new) (count_head form name.now)) }
{
    let mut line = Vec::new(alloc);
    append_count_head(form, name, &mut line)?;
    write_bytes(out, &line)
}

fn append_count_head(form: Form, name: &str, out: &mut Vec<u8>) -> Result<(), AllocError>
    ensures { OnOk result (out.new.items ≡ out.old.items ++ count_head form name.now) }
{
    out.extend_from_slice(b"count")?;
    out.push(separator(form))?;
    append_text(form, name.as_bytes(), out)?;
    out.push(b'\n')?;
    Ok(())
}

/// Prints a row for each value, with its count. The most frequent are first, and values that occur as often as each
/// other are in the order of their bytes.
pub fn print_counts<W: Write>(
    alloc: Global,
    form: Form,
    counts: &Counts,
    out: &mut W,
) -> Result<(), Failure>
    ensures { OnOk result ((values : List (List ℕ)) → IsTally values counts.now
        → (listed : List (ℕ × List ℕ)) × IsCountList values listed
        × Appends (W.contents out.old) (W.contents out.new) (flat_map (tally_line form) listed)) }
{
    let mut listed = listed_values(alloc, counts)?;
    listed.sort()?;
    let mut rows = Vec::new(alloc);
    append_counts(alloc, form, &listed, &mut rows)?;
    write_bytes(out, &rows)?;
    Ok(())
}

/// Returns the values with their counts, in the order of the values.
fn listed_values<'c>(alloc: Global, counts: &'c Counts) -> Result<Vec<Counted<'c>>, AllocError>
    ensures entries { IfOk result (λ listed. map counted listed.items ≡ map entry_counted counts.now.entries) }
    ensures ordered { IfOk result (λ _. IsOrdered key_cmp counts.now) }
    ensures found { IfOk result (λ _. IsFound counts.now) }
{
    let mut listed = Vec::with_capacity(alloc, counts.len())?;
    for (value, count) in counts.iter() {
        listed.push((Reverse(*count), value.as_slice()))?;
    }
    Ok(listed)
}

/// Appends a row for each of these values.
fn append_counts(
    alloc: Global,
    form: Form,
    listed: &[Counted<'_>],
    out: &mut Vec<u8>,
) -> Result<(), AllocError>
    ensures { OnOk result (out.new.items ≡ out.old.items ++ flat_map (tally_line form) (map counted listed.now)) }
{
    for (count, value) in listed {
        append_count(alloc, form, count.0, value, out)?;
    }
    Ok(())
}

/// Appends a row with the count and the value.
fn append_count(
    alloc: Global,
    form: Form,
    count: u64,
    value: &[u8],
    out: &mut Vec<u8>,
) -> Result<(), AllocError>
    ensures { OnOk result (out.new.items ≡ out.old.items ++ tally_line form (count, value.now)) }
{
    let digits = format!(in alloc; "{count}")?;
    out.extend_from_slice(digits.as_bytes())?;
    out.push(separator(form))?;
    append_text(form, value, out)?;
    out.push(b'\n')?;
    Ok(())
}
