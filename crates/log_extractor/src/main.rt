//! Prints the fields of log lines from files, or from standard input.
#![tactic(auto)]

mod asked;
mod command;
mod count;
mod field;
mod files;
mod names;
mod object;
mod output;
mod parser;
mod parsers;
mod pattern;
mod report;
mod row;
mod rows;
mod selection;

use crate::asked::{AskedError, column_of, selection_of};
use crate::command::{Arguments, Command, Given, help_below, labels_of, parse, split};
use crate::files::{Printed, inputs_of, print_all};
use crate::names::has_name;
use crate::parser::Parser;
use crate::parsers::{LABEL, LabelledParser, Parsers};
use crate::pattern::PatternError;
use crate::rows::Rows;
use crate::selection::Selection;
use anyhow::Result;
use clap::Error;
use clap::error::ErrorKind;
use program_text::failure::Failure;
use program_text::output::{IS_OUTPUT, first_output, shown_name};
use program_text::words::{arguments, texts, words};
use std::alloc::{AllocError, Global};
use std::fmt::Display;
use std::io;
use std::process::ExitCode;

/// No line has a row.
const NO_ROW: u8 = 1;

/// The arguments or a pattern are wrong, or an input, the output or memory failed.
const FAILED: u8 = 2;

/// Nobody reads the output any more: the status that a shell has of a program which the signal for that ends.
const CLOSED: u8 = 128 + 13;

/// What is wrong with a group of the name of the column of labels.
const NAME_TAKEN: &str = "of several patterns none may have a group of the name pattern";

fn main(rt: HostRuntime) -> ExitCode {
    match answer(&rt) {
        Ok(code) => code,
        Err(error) => ended(&rt, error, FAILED),
    }
}

fn answer(rt: &HostRuntime) -> Result<ExitCode> {
    let arguments = arguments(rt)?;
    let words = words(rt.alloc(), &arguments)?;
    match texts(rt.alloc(), &words)? {
        Ok(words) => obey(rt, &words),
        Err(error) => Ok(ended(rt, error, FAILED)),
    }
}

/// Does what the arguments ask for.
fn obey(rt: &HostRuntime, words: &[&str]) -> Result<ExitCode> {
    let words = split(rt.alloc(), words)?;
    let below = help_below(rt.alloc())?;
    match parse(rt.alloc(), below.as_str(), &words)? {
        Command::Extract(arguments) => extract(rt, &arguments),
        Command::Say(error) => say(rt, &error),
    }
}

/// Prints the help, or what is wrong with the arguments.
fn say(rt: &HostRuntime, error: &Error) -> Result<ExitCode> {
    match error.print(rt) {
        Ok(()) => Ok(ExitCode::from(status_of(error))),
        Err(failure) if failure.kind() == io::ErrorKind::BrokenPipe => Ok(ExitCode::from(CLOSED)),
        Err(failure) => Err(failure.into()),
    }
}

/// The status after an error of the arguments was printed.
fn status_of(error: &Error) -> u8 {
    match error.kind() {
        ErrorKind::DisplayHelp | ErrorKind::DisplayVersion => 0,
        _ => FAILED,
    }
}

fn extract(rt: &HostRuntime, arguments: &Arguments<'_>) -> Result<ExitCode> {
    let labels = labels_of(rt.alloc(), &arguments.patterns)?;
    match parsers_of(rt.alloc(), &arguments.patterns, &labels)? {
        Ok(parsers) => print_selected(rt, arguments, parsers),
        Err((_, PatternError::Memory)) => Err(PatternError::Memory.into()),
        Err((_, error)) if labels.len() == 1 => Ok(ended(rt, error, FAILED)),
        Err((label, error)) => Ok(ended(rt, format_args!("pattern {label}: {error}"), FAILED)),
    }
}

/// Returns the parsers of these patterns, which have these labels, or the label of the first pattern that has none, and
/// why. The only other error is that allocation failed.
fn parsers_of<'p>(
    alloc: Global,
    patterns: &[Given<'p>],
    labels: &'p [String],
) -> Result<Result<Parsers<'p>, (&'p str, PatternError)>, AllocError> {
    let mut parsers = Vec::new(alloc);
    for (given, label) in patterns.iter().zip(labels) {
        match Parser::new(alloc, given.pattern) {
            Ok(parser) => parsers.push(LabelledParser { label, parser })?,
            Err(error) => return Ok(Err((label.as_str(), error))),
        }
    }
    Ok(Ok(Parsers::new(alloc, parsers)?))
}

/// Prints what is asked for of the rows by these parsers.
fn print_selected<'w, 'p>(
    rt: &HostRuntime,
    arguments: &Arguments<'w>,
    parsers: Parsers<'p>,
) -> Result<ExitCode> {
    if has_label_twice(parsers.names()) {
        return Ok(ended(rt, NAME_TAKEN, FAILED));
    }
    let asked = asked_of(rt.alloc(), arguments, parsers.names());
    match asked {
        Ok((column, selection)) => print_rows(
            rt,
            arguments,
            &mut Rows { parsers, selection },
            column,
        ),
        Err(AskedError::Memory) => Err(AskedError::Memory.into()),
        Err(error) => Ok(ended(rt, error, FAILED)),
    }
}

/// Returns the number of the column that is counted, if one is, and which rows and columns are selected.
fn asked_of<'w>(
    alloc: Global,
    arguments: &Arguments<'w>,
    names: &[String],
) -> Result<(Option<usize>, Selection<'w>), AskedError> {
    let column = match arguments.count {
        Some(name) => Some(column_of(alloc, names, name)?),
        None => None,
    };
    let selection = selection_of(alloc, names, &arguments.conditions, arguments.columns)?;
    Ok((column, selection))
}

fn print_rows(
    rt: &HostRuntime,
    arguments: &Arguments<'_>,
    rows: &mut Rows<'_, '_>,
    column: Option<usize>,
) -> Result<ExitCode> {
    if let Some(name) = first_output(rt, inputs_of(arguments)) {
        return Ok(ended(
            rt,
            format_args!("{}: {IS_OUTPUT}", shown_name(name)),
            FAILED,
        ));
    }
    status_after(print_all(rt, rows, arguments, column))
}

/// Returns the status after all was printed, or printing failed.
fn status_after(printed: Result<Printed, Failure>) -> Result<ExitCode> {
    match printed {
        Ok(Printed::All) => Ok(ExitCode::SUCCESS),
        Ok(Printed::NoRow) => Ok(ExitCode::from(NO_ROW)),
        Ok(Printed::Part) => Ok(ExitCode::from(FAILED)),
        Err(error) if is_closed_pipe(&error) => Ok(ExitCode::from(CLOSED)),
        Err(error) => Err(error.into()),
    }
}

/// Returns whether a column has the name of the column of labels, which is the first one then.
fn has_label_twice(names: &[String]) -> bool {
    match names {
        [first, names @ ..] => first.as_str() == LABEL && has_name(names, LABEL),
        [] => false,
    }
}

/// Returns whether the output is a pipe that is closed: its reader has what it wants.
fn is_closed_pipe(error: &Failure) -> bool {
    match error {
        Failure::Write(error) => error.kind() == io::ErrorKind::BrokenPipe,
        _ => false,
    }
}

/// Prints why the program ended. The status says so even if that cannot be written.
fn ended<T: Display + Drop>(rt: &HostRuntime, why: T, status: u8) -> ExitCode {
    let _ = eprintln!(rt; "log_extractor: {why}");
    ExitCode::from(status)
}
