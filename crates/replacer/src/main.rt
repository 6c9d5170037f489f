//! Reads texts, and replaces the matches of patterns in them, or splits them there.
#![tactic(auto)]

mod action;
mod case;
mod changes;
mod command;
mod escapes;
mod fault;
mod fields;
mod files;
mod filled;
mod filling;
mod hint;
mod in_place;
mod job;
mod line;
mod misuse;
mod options;
mod pattern;
mod replace;
mod shown;
mod stretches;

use crate::command::{Arguments, Asked, HELP, Target, USAGE, VERSION};
use crate::files::{Done, Printing, print_files};
use crate::hint::{HINT, has_foreign};
use crate::in_place::replace_files;
use crate::job::{Job, Mistake};
use crate::options::parse;
use crate::stretches::all_stretches;
use anyhow::Result;
use program_text::failure::Failure;
use program_text::output::{IS_OUTPUT, first_output, shown_name};
use program_text::words::{arguments, words};
use std::fmt::Display;
use std::io::{ErrorKind, IsTerminal};
use std::process::ExitCode;

/// The arguments, the pattern or the template are wrong, or an input, the output or memory failed.
const FAILED: u8 = 2;

/// Nobody reads the output any more: the status that a shell has of a program which the signal for that ends.
const CLOSED: u8 = 128 + 13;

/// The names of the inputs if none is given.
const STANDARD_INPUT: &[&str] = &["-"];

fn main(rt: HostRuntime) -> ExitCode {
    match answer(&rt) {
        Ok(code) => code,
        Err(error) => failed(&rt, error),
    }
}

fn answer(rt: &HostRuntime) -> Result<ExitCode> {
    let arguments = arguments(rt)?;
    let words = words(rt.alloc(), &arguments)?;
    match parse(rt.alloc(), &words)? {
        Ok(Asked::Help) => say(rt, format_args!("{USAGE}\n{HELP}")),
        Ok(Asked::Version) => say(rt, VERSION),
        Ok(Asked::Work(arguments)) => run(rt, &arguments),
        Err(misuse) => {
            let said = format_args!("{misuse}\n{USAGE}\nreplacer --help says more.");
            Ok(failed(rt, said))
        }
    }
}

/// Prints what the arguments ask for, if it is no text.
fn say<T: Display + Drop>(rt: &HostRuntime, text: T) -> Result<ExitCode> {
    match println!(rt; "{text}") {
        Ok(()) => Ok(ExitCode::SUCCESS),
        Err(error) if error.kind() == ErrorKind::BrokenPipe => Ok(ExitCode::from(CLOSED)),
        Err(error) => Err(error.into()),
    }
}

/// Reads the escapes of the templates, and compiles the patterns.
fn run(rt: &HostRuntime, arguments: &Arguments<'_>) -> Result<ExitCode> {
    let templates = match all_stretches(rt.alloc(), &arguments.templates) {
        Ok(templates) => templates,
        Err(bad) => return Ok(failed_for(rt, arguments, bad.number, bad.error)),
    };
    let request = arguments
        .task
        .request(arguments.settings, &arguments.patterns, &templates);
    match Job::new(rt.alloc(), request) {
        Ok(mut job) => obey(rt, arguments, &mut job),
        Err(Mistake::Template(filling)) => {
            Ok(failed_for(rt, arguments, filling.number, filling.bad))
        }
        Err(mistake) => Ok(failed(rt, mistake)),
    }
}

/// Says what is wrong with the template of this number, and whose it is, if there are several patterns.
fn failed_for<T: Display + Drop>(
    rt: &HostRuntime,
    arguments: &Arguments<'_>,
    number: usize,
    why: T,
) -> ExitCode {
    if arguments.patterns.len() == 1 {
        return failed(rt, why);
    }
    failed(rt, format_args!("pattern {number}: {why}"))
}

/// Does the job for the inputs that the arguments name.
fn obey(rt: &HostRuntime, arguments: &Arguments<'_>, job: &mut Job<'_>) -> Result<ExitCode> {
    give_hint(rt, &arguments.templates);
    let names = inputs_of(arguments);
    match arguments.settings.target {
        Target::Files(suffix) if !arguments.settings.preview => {
            status_after(Ok(replace_files(rt, job, names, suffix)))
        }
        _ => print_all(rt, job, names, arguments.settings.preview),
    }
}

/// Prints the inputs, or their lines that change.
fn print_all(
    rt: &HostRuntime,
    job: &mut Job<'_>,
    names: &[&str],
    preview: bool,
) -> Result<ExitCode> {
    if let Some(name) = first_output(rt, names) {
        let shown = shown_name(name);
        return Ok(failed(rt, format_args!("{shown}: {IS_OUTPUT}")));
    }
    if !preview {
        return status_after(print_files(rt, job, names, Printing::Results).map(|done| done.failed));
    }
    let coloured = rt.stdout().is_terminal();
    let printed = print_files(rt, job, names, Printing::Changes(coloured));
    if let Ok(Done { lines, inputs, .. }) = printed {
        // If that cannot be written, nothing else changes.
        let _ = eprintln!(rt; "replacer: changed lines: {lines}, in files: {inputs}");
    }
    status_after(printed.map(|done| done.failed))
}

/// Says what a template may mean otherwise than its author thinks. If that cannot be written, nothing else changes.
fn give_hint(rt: &HostRuntime, templates: &[&[u8]]) {
    for template in templates {
        if has_foreign(template) {
            let _ = eprintln!(rt; "replacer: {HINT}");
            return;
        }
    }
}

/// Returns the status after the job was done. It failed for one of the inputs, or not, or the output could not be
/// written.
fn status_after(done: Result<bool, Failure>) -> Result<ExitCode> {
    match done {
        Ok(false) => Ok(ExitCode::SUCCESS),
        Ok(true) => Ok(ExitCode::from(FAILED)),
        Err(error) if is_closed_pipe(&error) => Ok(ExitCode::from(CLOSED)),
        Err(error) => Err(error.into()),
    }
}

/// Returns the names of the inputs.
fn inputs_of<'a, 'w>(arguments: &'a Arguments<'w>) -> &'a [&'w str] {
    if arguments.files.is_empty() {
        STANDARD_INPUT
    } else {
        &arguments.files
    }
}

/// Returns whether the output is a pipe that is closed: its reader has what it wants.
fn is_closed_pipe(error: &Failure) -> bool {
    match error {
        Failure::Write(error) => error.kind() == ErrorKind::BrokenPipe,
        _ => false,
    }
}

// The status says so even if the line cannot be written.
fn failed<T: Display + Drop>(rt: &HostRuntime, why: T) -> ExitCode {
    let _ = eprintln!(rt; "replacer: {why}");
    ExitCode::from(FAILED)
}
