//! Searches standard input with a sample NFA, over and over, to be timed.
#![tactic(auto)]

mod run;

use std::io::BufWriter;
use std::process::ExitCode;
use std::{env, io};

fn main(rt: HostRuntime) -> io::Result<ExitCode> {
    let arguments: Vec<String> = env::args(&rt)?.skip(1).collect(rt.alloc())?;
    let words: Vec<&str> = arguments
        .iter()
        .map(|word| word.as_str())
        .collect(rt.alloc())?;
    answer(&rt, &words)
}

fn answer(rt: &HostRuntime, words: &[&str]) -> io::Result<ExitCode> {
    let mut out = BufWriter::new(rt.alloc(), io::writer(rt))?;
    let status = run::run(rt.alloc(), words, &mut rt.reader(), &mut out);
    Ok(ExitCode::from(status))
}
