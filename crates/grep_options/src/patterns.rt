//! The texts of all patterns.
ghost use Rattle.std.specs.Prelude.{◌≡◌, ◌++◌, IfOk, OnOk, map};
ghost use Rattle.std.specs.List.{flat_map};
ghost use Rattle.grep_options.specs.Texts.{lines_in};

use crate::error::OptionsError;
use std::alloc::{AllocError, Global};
use std::{fs, io};

/// Reads these files. Standard input is the file `-`.
pub fn read_files(rt: &HostRuntime, names: &[&str]) -> Result<Vec<String>, OptionsError> {
    let alloc = rt.alloc();
    let mut texts = Vec::new(alloc);
    for name in names {
        match read_file(rt, name) {
            Ok(text) => texts.push(text)?,
            Err(error) => {
                let name = String::from_str(alloc, name)?;
                return Err(OptionsError::PatternFile { name, error });
            }
        }
    }
    Ok(texts)
}

/// Reads a file of text, or standard input.
fn read_file(rt: &HostRuntime, name: &str) -> io::Result<String> {
    if name == "-" {
        io::read_to_string(rt.alloc(), rt.reader())
    } else {
        fs::read_to_string(rt, name)
    }
}

/// Returns all patterns: the lines of the given texts, and then those of the files.
pub fn all_patterns<'t>(
    alloc: Global,
    given: &[&'t str],
    files: &'t [String],
) -> Result<Vec<&'t str>, AllocError> {
    let mut all = Vec::new(alloc);
    push_given(alloc, given, &mut all)?;
    push_files(files, &mut all)?;
    Ok(all)
}

/// Appends the lines of these texts.
fn push_given<'t>(
    alloc: Global,
    given: &[&'t str],
    all: &mut Vec<&'t str>,
) -> Result<(), AllocError>
    ensures { OnOk result (map (λ text. text.now) all.new.items
        ≡ map (λ text. text.now) all.old.items ++ flat_map (λ text. lines_in text.now) given.now) }
{
    for text in given {
        push_lines(alloc, text, all)?;
    }
    Ok(())
}

/// Appends the lines of these files.
fn push_files<'t>(files: &'t [String], all: &mut Vec<&'t str>) -> Result<(), AllocError> {
    for file in files {
        push_file(file.as_str(), all)?;
    }
    Ok(())
}

/// Appends the lines of a file, without their ends. A line feed at its end begins no line.
fn push_file<'t>(file: &'t str, all: &mut Vec<&'t str>) -> Result<(), AllocError> {
    for line in file.split_inclusive('\n') {
        all.push(without_end(line))?;
    }
    Ok(())
}

/// Returns the line without its end, as lines that are searched lose it: without the line feed, and without a carriage
/// return before that. A carriage return at the end of a file belongs to the pattern.
fn without_end(line: &str) -> &str {
    match line.strip_suffix('\n') {
        Some(line) => line.strip_suffix('\r').unwrap_or(line),
        None => line,
    }
}

/// Appends the lines of the text.
fn push_lines<'t>(alloc: Global, text: &'t str, all: &mut Vec<&'t str>) -> Result<(), AllocError>
    ensures { OnOk result (map (λ text. text.now) all.new.items
        ≡ map (λ text. text.now) all.old.items ++ lines_in text.entry.now) }
{
    let lines = lines_in(alloc, text)?;
    all.extend_from_slice(&lines)?;
    Ok(())
}

/// Returns what is between the line feeds of the text.
fn lines_in<'t>(alloc: Global, text: &'t str) -> Result<Vec<&'t str>, AllocError>
    ensures { IfOk result (λ lines. map (λ line. line.now) lines.items ≡ lines_in text.entry.now) }
{
    text.split('\n').collect(alloc)
}
