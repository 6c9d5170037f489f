//! The rows and columns that the arguments ask for.
ghost use Rattle.std.specs.Prelude.{◌≡◌, IfErr, IfOk, map, slice_get, string_bytes};
ghost use Rattle.log_extractor.specs.Asked.{IsNoColumn};

use crate::count::column_named;
use crate::selection::{Chosen, Condition, Selection};
use std::alloc::{AllocError, AllocFailed, Global};
use thiserror::Error;

/// Why rows or columns cannot be selected.
#[derive(Debug, Drop, Error)]
pub enum AskedError {
    /// Allocation failed.
    #[error("out of memory")]
    Memory,
    /// No column has this name.
    #[error("no column has the name {0}")]
    NoColumn(String),
    /// A condition has no equals sign.
    #[error("--where {0}: write it as COLUMN=TEXT or COLUMN!=TEXT")]
    NoText(String),
}

impl From<AllocError> for AskedError {
    ghost use Rattle.std.specs.Prelude.{◌≡◌};
    ghost use Rattle.log_extractor.specs.declared.asked.AskedError.TheVariants as error;

    ghost from_gives = { λ _ made. made ≡ error.Memory };

    fn from(_: AllocError) -> AskedError {
        AskedError::Memory
    }
}

impl<T: Drop> From<AllocFailed<T>> for AskedError {
    ghost use Rattle.std.specs.Prelude.{◌≡◌};
    ghost use Rattle.log_extractor.specs.declared.asked.AskedError.TheVariants as error;

    ghost from_gives = { λ _ made. made ≡ error.Memory };

    fn from(_: AllocFailed<T>) -> AskedError {
        AskedError::Memory
    }
}

/// Returns the number of the column of this name, from 0. Fails if no column has it.
pub fn column_of(alloc: Global, names: &[String], name: &str) -> Result<usize, AskedError>
    ensures found { IfOk result (λ k. slice_get (map string_bytes names.now) k ≡ Some name.now) }
    ensures missing { IfErr result (IsNoColumn (map string_bytes names.now) name.now) }
{
    match column_named(names, name) {
        Some(column) => Ok(column),
        None => Err(AskedError::NoColumn(String::from_str(alloc, name)?)),
    }
}

/// Returns the selection that these conditions, each `NAME=TEXT` or `NAME!=TEXT`, and these names of columns, with
/// commas between them, ask for.
pub fn selection_of<'w>(
    alloc: Global,
    names: &[String],
    conditions: &[&'w str],
    columns: Option<&str>,
) -> Result<Selection<'w>, AskedError> {
    let chosen = match columns {
        Some(words) => Some(chosen_of(alloc, names, words)?),
        None => None,
    };
    let conditions = conditions_of(alloc, names, conditions)?;
    Ok(Selection { conditions, chosen })
}

/// Returns the columns of the names that stand between commas.
fn chosen_of(alloc: Global, names: &[String], words: &str) -> Result<Chosen, AskedError> {
    let words: Vec<&str> = words.split(',').collect(alloc)?;
    let mut own = Vec::new(alloc);
    for word in &words {
        own.push(String::from_str(alloc, word)?)?;
    }
    let columns = columns_of(alloc, names, &words)?;
    Ok(Chosen {
        columns,
        names: own,
    })
}

/// Returns the numbers of the columns of these names, in their order.
fn columns_of(alloc: Global, names: &[String], words: &[&str]) -> Result<Vec<usize>, AskedError>
    ensures { IfOk result (λ columns. map (slice_get (map string_bytes names.now)) columns.items
        ≡ map (λ word. Some word.now) words.now) }
{
    let mut columns = Vec::new(alloc);
    for word in words {
        columns.push(column_of(alloc, names, word)?)?;
    }
    Ok(columns)
}

/// Returns the conditions that these words give.
fn conditions_of<'w>(
    alloc: Global,
    names: &[String],
    words: &[&'w str],
) -> Result<Vec<Condition<'w>>, AskedError> {
    let mut conditions = Vec::new(alloc);
    for word in words {
        conditions.push(condition_of(alloc, names, word)?)?;
    }
    Ok(conditions)
}

/// Returns the condition that the word gives.
fn condition_of<'w>(
    alloc: Global,
    names: &[String],
    word: &'w str,
) -> Result<Condition<'w>, AskedError> {
    let Some((name, text)) = word.split_once('=') else {
        return Err(AskedError::NoText(String::from_str(alloc, word)?));
    };
    let (name, equal) = match name.strip_suffix('!') {
        Some(name) => (name, false),
        None => (name, true),
    };
    Ok(Condition {
        column: column_of(alloc, names, name)?,
        equal,
        text: text.as_bytes(),
    })
}
