//! Prints the lines of files, or of standard input, in which a pattern matches.
#![tactic(auto)]

mod binary;
mod count;
mod fault;
mod files;
mod grep;
mod groups;
mod input;
mod joined;
mod line;
mod needed;
mod paint;
mod pattern;
mod progress;
mod required_literal;
mod search;
mod walk;
mod which;

use crate::fault::Fault;
use crate::files::{Outcome, is_coloured, run};
use grep_options::arguments::{arguments, need_text};
use grep_options::colours::{Colours, chosen_text, colours_in};
use grep_options::command::{Command, parse};
use grep_options::options::When;
use grep_options::words::split;
use std::process::ExitCode;

/// No line was selected.
const NONE: u8 = 1;

/// The arguments, a pattern, a file or the output were at fault.
const FAILED: u8 = 2;

/// Nobody reads the output any more: the status that a shell has of a program which the signal for that ends.
const CLOSED: u8 = 128 + 13;

fn main(rt: HostRuntime) -> ExitCode {
    match answer(&rt) {
        Ok(code) => code,
        Err(fault) if fault.is_closed_pipe() => ExitCode::from(CLOSED),
        Err(fault) => {
            // The status says so even if the line cannot be written.
            let _ = eprintln!(rt; "nfa_grep: {fault}");
            ExitCode::from(FAILED)
        }
    }
}

fn answer(rt: &HostRuntime) -> Result<ExitCode, Fault> {
    let words = arguments(rt)?;
    let words: Vec<&str> = words.iter().map(|word| word.as_str()).collect(rt.alloc())?;
    obey(rt, &words)
}

/// Does what the arguments ask for. Of these only the names of files may be no text.
fn obey(rt: &HostRuntime, words: &[&str]) -> Result<ExitCode, Fault> {
    let split = split(rt.alloc(), words)?;
    let chosen = chosen_text(rt)?;
    match parse(rt.alloc(), &split)? {
        Command::Search(arguments) => {
            need_text(rt.alloc(), words, &arguments.patterns)?;
            need_text(rt.alloc(), words, &arguments.pattern_files)?;
            need_text(rt.alloc(), words, &arguments.texts)?;
            let colours = colours_of(rt, arguments.coloured, &chosen)?;
            Ok(code_of(run(rt, &arguments, colours)?))
        }
        Command::Say(error) => {
            need_text(rt.alloc(), words, words)?;
            let code = if error.use_stderr() { FAILED } else { 0 };
            match error.print(rt) {
                Ok(()) => Ok(ExitCode::from(code)),
                Err(error) => Err(Fault::Help(error)),
            }
        }
    }
}

/// Returns the colours that the text names, if colours are printed.
fn colours_of<'c>(
    rt: &HostRuntime,
    when: When,
    text: &'c [u8],
) -> Result<Option<Colours<'c>>, Fault> {
    if !is_coloured(rt, when) {
        return Ok(None);
    }
    Ok(Some(colours_in(rt.alloc(), text)?))
}

/// Returns the status of what the search came to.
fn code_of(outcome: Outcome) -> ExitCode {
    if outcome.failed {
        ExitCode::from(FAILED)
    } else if outcome.selected {
        ExitCode::SUCCESS
    } else {
        ExitCode::from(NONE)
    }
}
