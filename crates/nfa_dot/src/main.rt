//! Prints an NFA as a graph for Graphviz, and marks the path that a search answers.
#![tactic(auto)]

mod command;
mod edges;
mod graph;
mod path;

use crate::command::{Command, Source, parse};
use crate::graph::{Marks, write_graph};
use crate::path::answered_path;
use anyhow::{Context, Result, bail};
use clap::Error;
use nfa_compiler::{Compiler, OnlyPattern};
use nfa_engines::pikevm::PikeVM;
use nfa_samples::sample;
use std::alloc::Global;
use std::io::{BufWriter, ErrorKind};
use std::process::ExitCode;
use std::{env, io};
use thompson_nfa::NFA;

/// The arguments or the pattern are wrong, the output cannot be written, or memory ran out.
const FAILED: u8 = 2;

/// Nobody reads the output any more: the status that a shell has of a program which the signal for that ends.
const CLOSED: u8 = 128 + 13;

fn main(rt: HostRuntime) -> ExitCode {
    match answer(&rt) {
        Ok(code) => code,
        Err(error) => {
            // The status says so even if the line cannot be written.
            let _ = eprintln!(rt; "nfa_dot: {error}");
            ExitCode::from(FAILED)
        }
    }
}

fn answer(rt: &HostRuntime) -> Result<ExitCode> {
    let alloc = rt.alloc();
    let words: Vec<String> = env::args(rt)?.collect(alloc)?;
    let words: Vec<&str> = words.iter().map(|word| word.as_str()).collect(alloc)?;
    match parse(alloc, &words)? {
        Command::Draw { source, haystack } => draw(rt, source, haystack),
        Command::Say(error) => say(rt, &error),
    }
}

/// Prints the help or the version, or what is wrong with the arguments.
fn say(rt: &HostRuntime, error: &Error) -> Result<ExitCode> {
    let code = if error.use_stderr() { FAILED } else { 0 };
    match error.print(rt) {
        Ok(()) => Ok(ExitCode::from(code)),
        Err(failure) if failure.kind() == ErrorKind::BrokenPipe => Ok(ExitCode::from(CLOSED)),
        Err(failure) => Err(failure.into()),
    }
}

fn draw(rt: &HostRuntime, source: Source<'_>, haystack: Option<&str>) -> Result<ExitCode> {
    let alloc = rt.alloc();
    let vm = PikeVM::new_from_nfa(nfa_of(alloc, source)?)?;
    let marks = marks_of(alloc, &vm, haystack)?;
    print_graph(rt, vm.get_nfa(), &marks)
}

/// What is marked: the path that a search of the haystack answers.
fn marks_of(alloc: Global, vm: &PikeVM, haystack: Option<&str>) -> Result<Marks> {
    let Some(haystack) = haystack else {
        return Ok(Marks::None);
    };
    match answered_path(alloc, vm, haystack.as_bytes())? {
        Some(path) => Ok(Marks::Path(path)),
        None => Ok(Marks::NoMatch),
    }
}

fn print_graph(rt: &HostRuntime, nfa: &NFA, marks: &Marks) -> Result<ExitCode> {
    let mut out = BufWriter::new(rt.alloc(), io::writer(rt))?;
    match write_graph(rt.alloc(), &mut out, nfa, marks) {
        Ok(()) => Ok(ExitCode::SUCCESS),
        Err(error) if error.kind() == ErrorKind::BrokenPipe => Ok(ExitCode::from(CLOSED)),
        Err(error) => bail!("cannot write the graph: {error}"),
    }
}

/// The NFA that is drawn.
fn nfa_of(alloc: Global, source: Source<'_>) -> Result<NFA> {
    match source {
        Source::Sample(name) => {
            sample(alloc, name)?.context(format_args!(
                "no sample NFA has the name {name:?}: docs/NFAS.md lists the names"
            ))
        }
        Source::Pattern(text) => Ok(Compiler::new().build(alloc, text).map_err(OnlyPattern)?),
    }
}
