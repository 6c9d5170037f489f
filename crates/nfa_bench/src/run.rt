//! Reads the arguments of the command line, searches, and prints the matches.
ghost use Rattle.std.specs.Prelude.{◌≡◌, ◌≤◌, ◌↔◌, IfErr, IfOk};
ghost use Rattle.nfa_bench.specs.Stops.{ending};
ghost use Rattle.nfa_bench.specs.declared.run.Stop.TheVariants.{UnknownName};
ghost use Rattle.nfa_samples.specs.Names.{IsNoneOf, sample_names};

use nfa_engines::backtrack::BoundedBacktracker;
use nfa_engines::error::SearchError;
use nfa_engines::pikevm::PikeVM;
use nfa_samples::named_engine::Engine;
use nfa_samples::sample;
use regex_search_core::{Input, Match};
use std::alloc::Global;
use std::io::Write;
use std::{fmt, io};
use thompson_nfa::{BuildError, NFA};

/// The search returned an error, or its answer was not written.
const FAILED: u8 = 1;

/// The arguments are wrong.
const MISUSED: u8 = 2;

/// Searches as the arguments after the program's name say, and prints each match in a line, and then `end`. If that
/// fails, prints one line that says why.
///
/// Returns the status to end with: 0, 1 if the search returned an error or a write failed, after which nothing more is
/// written, or 2 if the arguments are wrong.
pub fn run<W: Write>(alloc: Global, words: &[&str], out: &mut W) -> u8
    ensures { result ≤ 2 }
{
    print(alloc, words, out).unwrap_or(FAILED)
}

/// Prints that allocation failed before there were arguments, as [`run`] does for a search, and returns the status.
pub fn refuse<W: Write>(out: &mut W) -> u8
    ensures { result ≤ 2 }
{
    print_end(Err(Stop::Memory), out).unwrap_or(FAILED)
}

fn print<W: Write>(alloc: Global, words: &[&str], out: &mut W) -> io::Result<u8>
    ensures { IfOk result (λ status. status ≤ 2) }
{
    let searched = print_matches(alloc, words, out);
    print_end(searched, out)
}

/// Prints what comes after the matches: `end`, or one line that says why there are no more. Returns the status to end
/// with, or the error of a write, also of one that stopped the search.
fn print_end<W: Write>(searched: Result<(), Stop>, out: &mut W) -> io::Result<u8>
    ensures { IfOk result (λ status. status ≤ 2) }
{
    let status = match searched {
        Ok(()) => {
            out.write_all(b"end\n")?;
            0
        }
        Err(Stop::Write(error)) => return Err(error),
        Err(stop) => {
            writeln!(out, "{stop}")?;
            stop.status()
        }
    };
    out.flush()?;
    Ok(status)
}

fn print_matches<W: Write>(alloc: Global, words: &[&str], out: &mut W) -> Result<(), Stop> {
    let [engine, name, haystack] = words else {
        return Err(Stop::Usage);
    };
    let engine = Engine::from_word(engine).ok_or(Stop::Usage)?;
    let nfa = nfa_named(alloc, name)?;
    let input = Input::new(haystack.as_bytes());
    match engine {
        Engine::Backtracker => print_backtracked(alloc, nfa, input, out),
        Engine::PikeVM => print_piked(alloc, nfa, input, out),
    }
}

/// Returns the sample of this name. The error is `UnknownName` exactly if no sample has the name.
fn nfa_named(alloc: Global, name: &str) -> Result<NFA, Stop>
    ensures { IfErr result (λ stop. (stop ≡ UnknownName) ↔ IsNoneOf name.now sample_names) }
{
    match sample(alloc, name) {
        Ok(Some(nfa)) => Ok(nfa),
        Ok(None) => Err(Stop::UnknownName),
        Err(error) => Err(Stop::from(error)),
    }
}

fn print_backtracked<W: Write>(
    alloc: Global,
    nfa: NFA,
    input: Input<'_>,
    out: &mut W,
) -> Result<(), Stop> {
    let engine = BoundedBacktracker::new_from_nfa(nfa)?;
    let mut cache = engine.create_cache(alloc);
    for found in engine.try_find_iter(&mut cache, input) {
        print_match(out, found?)?;
    }
    Ok(())
}

fn print_piked<W: Write>(
    alloc: Global,
    nfa: NFA,
    input: Input<'_>,
    out: &mut W,
) -> Result<(), Stop> {
    let engine = PikeVM::new_from_nfa(nfa)?;
    let mut cache = engine.create_cache(alloc)?;
    for found in engine.find_iter(&mut cache, input) {
        print_match(out, found)?;
    }
    Ok(())
}

fn print_match<W: Write>(out: &mut W, found: Match) -> io::Result<()> {
    let mut digits = itoa::Buffer::new();
    for (number, after) in [
        (found.pattern().as_usize(), " "),
        (found.start(), ".."),
        (found.end(), "\n"),
    ] {
        out.write_all(digits.format(number).as_bytes())?;
        out.write_all(after.as_bytes())?;
    }
    Ok(())
}

/// Why the program stops before it is done.
#[derive(Debug, Drop)]
pub enum Stop {
    /// The arguments are not those of the usage.
    Usage,
    /// No sample has that name.
    UnknownName,
    /// The haystack is too long for the engine.
    TooLong { len: usize },
    /// An allocation failed.
    Memory,
    /// What was found could not be written.
    Write(io::Error),
}

impl Stop {
    /// The status to end with.
    fn status(&self) -> u8
        ensures status { result ≡ (ending self.now).1 }
        ensures known { result ≤ 2 }
    {
        match self {
            Stop::Usage | Stop::UnknownName => MISUSED,
            Stop::TooLong { .. } | Stop::Memory | Stop::Write(_) => FAILED,
        }
    }
}

impl fmt::Display for Stop {
    ghost use Rattle.nfa_bench.specs.Stops.{ending};

    ghost output = { λ stop. (ending stop).0 };

    fn fmt<W: fmt::Write>(&self, f: &mut fmt::Formatter<W>) -> fmt::Result {
        match self {
            Stop::Usage => f.write_str("usage: nfa-bench back|pike NAME HAYSTACK"),
            Stop::UnknownName => f.write_str("unknown name"),
            Stop::TooLong { len } => write!(f, "haystack too long: {len}"),
            Stop::Memory => f.write_str("out of memory"),
            Stop::Write(error) => write!(f, "{error}"),
        }
    }
}

impl From<BuildError> for Stop {
    ghost use Rattle.std.specs.Prelude.{◌≡◌};
    ghost use Rattle.nfa_bench.specs.declared.run.Stop.TheVariants as stop;

    ghost from_gives = { λ _ gives. gives ≡ stop.Memory };

    // The samples are well formed, so only an allocation can have failed.
    fn from(_: BuildError) -> Stop {
        Stop::Memory
    }
}

impl From<SearchError> for Stop {
    ghost use Rattle.std.specs.Prelude.{◌≡◌};
    ghost use Rattle.nfa_bench.specs.Stops.{stop_of};

    ghost from_gives = { λ error gives. gives ≡ stop_of error };

    fn from(error: SearchError) -> Stop {
        match error {
            SearchError::HaystackTooLong { len } => Stop::TooLong { len },
            // A search calls no finder but the engine, so no finder fails.
            SearchError::Memory | SearchError::Finder(_) => Stop::Memory,
        }
    }
}

impl From<io::Error> for Stop {
    fn from(error: io::Error) -> Stop {
        Stop::Write(error)
    }
}
