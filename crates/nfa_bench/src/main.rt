//! Searches a text with a sample NFA and prints the matches.
#![tactic(auto)]

mod run;

use std::io::BufWriter;
use std::process::ExitCode;
use std::{env, io};

// If allocation fails for the arguments or for the buffer, the program says so as its searches do.
fn main(rt: HostRuntime) -> io::Result<ExitCode> {
    let status = match answer(&rt) {
        Err(error) if error.kind() == io::ErrorKind::OutOfMemory => {
            run::refuse(&mut io::writer(&rt))
        }
        answered => answered?,
    };
    Ok(ExitCode::from(status))
}

fn answer(rt: &HostRuntime) -> io::Result<u8> {
    let alloc = rt.alloc();
    let arguments: Vec<String> = env::args(rt)?.skip(1).collect(alloc)?;
    let words: Vec<&str> = arguments.iter().map(|word| word.as_str()).collect(alloc)?;
    let mut out = BufWriter::new(alloc, io::writer(rt))?;
    let status = run::run(alloc, &words, &mut out);
    // A buffer that is dropped is written once more, so what a failed write has left in it is taken out.
    let (_, _) = out.into_parts();
    Ok(status)
}
