//! Searches standard input for a pattern over and over, to be timed: with one of our engines, with a lazy DFA or with
//! the crate regex.
#![tactic(auto)]

mod call;
mod ends;
mod speed;
mod stop;

use std::io::BufWriter;
use std::process::ExitCode;
use std::{env, io};

// Memory that is refused for the arguments or for the buffer is reported as that of a search.
fn main(rt: HostRuntime) -> io::Result<ExitCode> {
    match answer(&rt) {
        Ok(status) => Ok(ExitCode::from(status)),
        Err(error) if error.kind() == io::ErrorKind::OutOfMemory => {
            Ok(ExitCode::from(speed::refuse(&mut io::writer(&rt))))
        }
        Err(error) => Err(error),
    }
}

/// Does what the arguments say, and returns the status to end with.
fn answer(rt: &HostRuntime) -> io::Result<u8> {
    let alloc = rt.alloc();
    let arguments: Vec<String> = env::args(rt)?.skip(1).collect(alloc)?;
    let words: Vec<&str> = arguments.iter().map(|word| word.as_str()).collect(alloc)?;
    let mut out = BufWriter::new(alloc, io::writer(rt))?;
    Ok(speed::run(alloc, &words, &mut rt.reader(), &mut out))
}
