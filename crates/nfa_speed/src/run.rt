//! The program: its arguments, the searches of the haystack, and the line that it prints.
ghost use Rattle.std.specs.Prelude.{◌≤◌, IfOk};

use nfa_samples::named_engine::{Engine, Failure, read_haystack};
use nfa_samples::sample;
use std::alloc::Global;
use std::io::{Read, Write};
use std::{fmt, io};
use thompson_nfa::BuildError;

/// The search returned an error, or its answer was not written.
const FAILED: u8 = 1;

/// The arguments are wrong.
const MISUSED: u8 = 2;

/// Searches the bytes of `haystack` as the arguments after the program's name say, and prints the number of matches of
/// the last round in a line. If that fails, prints one line that says why.
///
/// If the arguments are wrong, nothing is read.
///
/// Returns the status to end with: 0, 1 if the search returned an error or a read or write failed, or 2 if the
/// arguments are wrong.
pub fn run<R: Read, W: Write>(alloc: Global, words: &[&str], haystack: &mut R, out: &mut W) -> u8
    ensures { result ≤ 2 }
{
    print(alloc, words, haystack, out).unwrap_or(FAILED)
}

fn print<R: Read, W: Write>(
    alloc: Global,
    words: &[&str],
    haystack: &mut R,
    out: &mut W,
) -> io::Result<u8>
    ensures { IfOk result (λ status. status ≤ 2) }
{
    let status = match matches_of_words(alloc, words, haystack) {
        Ok(count) => {
            writeln!(out, "{count}")?;
            0
        }
        Err(stop) => {
            writeln!(out, "{stop}")?;
            stop.status()
        }
    };
    out.flush()?;
    Ok(status)
}

/// Returns the number of matches of the last round.
fn matches_of_words<R: Read>(alloc: Global, words: &[&str], haystack: &mut R) -> Result<u64, Stop> {
    let [engine, name, rounds] = words else {
        return Err(Stop::Usage);
    };
    let engine = Engine::from_word(engine).ok_or(Stop::Usage)?;
    let rounds = rounds.parse::<u64>().ok().ok_or(Stop::Usage)?;
    let nfa = sample(alloc, name)?.ok_or(Stop::UnknownName)?;
    let bytes = read_haystack(alloc, haystack)?;
    let count = engine.count_matches(alloc, nfa, &bytes, rounds)?;
    Ok(count)
}

/// Why the program stops before it is done.
#[derive(Debug, Drop)]
enum Stop {
    Usage,
    UnknownName,
    Failed(Failure),
}

impl Stop {
    fn status(&self) -> u8
        ensures { result ≤ 2 }
    {
        match self {
            Stop::Usage | Stop::UnknownName => MISUSED,
            Stop::Failed(_) => FAILED,
        }
    }
}

impl fmt::Display for Stop {
    fn fmt<W: fmt::Write>(&self, f: &mut fmt::Formatter<W>) -> fmt::Result {
        match self {
            Stop::Usage => f.write_str("usage: nfa-speed back|pike NAME ROUNDS"),
            Stop::UnknownName => {
                f.write_str("no sample NFA has this name: docs/NFAS.md lists the names")
            }
            Stop::Failed(failure) => write!(f, "{failure}"),
        }
    }
}

impl From<BuildError> for Stop {
    fn from(error: BuildError) -> Stop {
        Stop::Failed(Failure::from(error))
    }
}

impl From<Failure> for Stop {
    fn from(failure: Failure) -> Stop {
        Stop::Failed(failure)
    }
}
