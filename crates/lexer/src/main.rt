//! Reads a source text, and prints each of its tokens in a line.
#![tactic(auto)]

ghost use Rattle.std.specs.Prelude.{◌≡◌};
ghost use Rattle.lexer.specs.Rules.{rule_patterns};

mod command;
mod lexer;
mod names;
mod position;
mod report;
mod rules;
mod shown;

use crate::command::{Arguments, Asked, HELP, USAGE, VERSION, parse};
use crate::lexer::Lexer;
use crate::names::unknown_name;
use crate::position::Position;
use crate::report::{Outcome, Style};
use crate::rules::Rule;
use anyhow::Result;
use program_text::words::{arguments, words};
use std::fmt::Display;
use std::io::{BufWriter, ErrorKind, Read};
use std::process::ExitCode;
use std::{fs, io};

/// The text has a place where no token starts.
const STUCK: u8 = 1;

/// The arguments or the rules are wrong, or the input, the output or memory failed.
const FAILED: u8 = 2;

/// Nobody reads the output any more: the status that a shell has of a program which the signal for that ends.
const CLOSED: u8 = 128 + 13;

fn main(rt: HostRuntime) -> ExitCode {
    match answer(&rt) {
        Ok(code) => code,
        Err(error) => failed(&rt, error),
    }
}

fn answer(rt: &HostRuntime) -> Result<ExitCode> {
    let arguments = arguments(rt)?;
    let words = words(rt.alloc(), &arguments)?;
    match parse(rt.alloc(), &words)? {
        Ok(Asked::Help) => said(rt, format_args!("{USAGE}\n{HELP}")),
        Ok(Asked::Version) => said(rt, VERSION),
        Ok(Asked::Tokens(arguments)) => run_file(rt, &arguments),
        Err(misuse) => {
            let said = format_args!("{misuse}\n{USAGE}\nlexer --help says more.");
            Ok(failed(rt, said))
        }
    }
}

// Prints what the arguments ask for, if it is no tokens.
fn said<T: Display + Drop>(rt: &HostRuntime, text: T) -> Result<ExitCode> {
    match println!(rt; "{text}") {
        Ok(()) => Ok(ExitCode::SUCCESS),
        Err(error) => unwritten(error),
    }
}

// Returns the status after this error of the output.
fn unwritten(error: io::Error) -> Result<ExitCode> {
    if error.kind() == ErrorKind::BrokenPipe {
        return Ok(ExitCode::from(CLOSED));
    }
    Err(error.into())
}

// Takes the rules from the file that the arguments name, if they name one.
fn run_file(rt: &HostRuntime, arguments: &Arguments<'_>) -> Result<ExitCode> {
    let Some(name) = arguments.rules else {
        return run(rt, rules::DEFAULT, arguments);
    };
    match fs::read_to_string(rt, name) {
        Ok(text) => run(rt, &text, arguments),
        Err(error) => Ok(failed(rt, format_args!("cannot read the rules in {name}: {error}"))),
    }
}

fn run(rt: &HostRuntime, text: &str, arguments: &Arguments<'_>) -> Result<ExitCode> {
    let rules = match rules::parse(rt.alloc(), text) {
        Ok(rules) => rules,
        Err(error) => return Ok(failed(rt, error)),
    };
    if let Some(name) = unknown_name(&arguments.skip, &rules) {
        return Ok(failed(rt, format_args!("no rule has the name {name}")));
    }
    match Lexer::new(rt.alloc(), &rules) {
        Ok(mut lexer) => print_input(rt, &mut lexer, &rules, arguments),
        Err(error) => Ok(failed(rt, error)),
    }
}

// Opens the input that the arguments name.
fn print_input(
    rt: &HostRuntime,
    lexer: &mut Lexer<'_>,
    rules: &[Rule<'_>],
    arguments: &Arguments<'_>,
) -> Result<ExitCode>
    requires { lexer.old ≡ rule_patterns rules.now }
{
    let Some(name) = arguments.file else {
        return print_tokens(rt, lexer, rules, arguments.style(), rt.reader());
    };
    match fs::open(rt, name) {
        Ok(file) => print_tokens(rt, lexer, rules, arguments.style(), file),
        Err(error) => Ok(failed(rt, format_args!("{name}: {error}"))),
    }
}

fn print_tokens<R: Read + Drop>(
    rt: &HostRuntime,
    lexer: &mut Lexer<'_>,
    rules: &[Rule<'_>],
    style: Style<'_>,
    input: R,
) -> Result<ExitCode>
    requires { lexer.old ≡ rule_patterns rules.now }
{
    let mut out = BufWriter::new(rt.alloc(), io::writer(rt))?;
    match report::run(rt.alloc(), lexer, rules, style, input, &mut out) {
        Ok(outcome) => Ok(status(rt, outcome)),
        Err(error) => unwritten(error),
    }
}

// Returns the status, and says where the lexer is stuck.
fn status(rt: &HostRuntime, outcome: Outcome) -> ExitCode {
    match outcome {
        Outcome::Whole => ExitCode::SUCCESS,
        Outcome::Errors => ExitCode::from(STUCK),
        Outcome::Stuck(at, Position { line, column }) => {
            let place = format_args!("no token at {at}, line {line}, column {column}");
            ended(rt, STUCK, place)
        }
    }
}

fn failed<T: Display + Drop>(rt: &HostRuntime, why: T) -> ExitCode {
    ended(rt, FAILED, why)
}

// Says why, and returns the status, which says so even if the line cannot be written.
fn ended<T: Display + Drop>(rt: &HostRuntime, status: u8, why: T) -> ExitCode {
    let _ = eprintln!(rt; "lexer: {why}");
    ExitCode::from(status)
}
