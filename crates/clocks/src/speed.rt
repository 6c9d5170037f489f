//! What the program does: makes a call on its input over and over, with one of our engines, with a lazy DFA or with the
//! crate regex; or prints the number of states.
ghost use Rattle.std.specs.Prelude.{◌≤◌, IfOk};

use crate::call::Call;
use crate::ends::Ends;
use crate::stop::{FAILED, Stop};
use nfa_compiler::Compiler;
use nfa_meta::Regex as Meta;
use nfa_samples::named_engine::{Engine, Failure, read_haystack};
use regex::bytes::Regex;
use std::alloc::Global;
use std::io;
use std::io::{Read, Write};
use thompson_nfa::NFA;

/// Searches the text as the arguments after the program's name say, and prints the number of matches of the last round,
/// or the number of states, in a line. Prints one line with the error if that fails.
///
/// Returns the status to end with: 0; 1 if a pattern or a search was refused, or if a read or a write failed; 2 for
/// other arguments.
pub fn run<R: Read, W: Write>(alloc: Global, words: &[&str], text: &mut R, out: &mut W) -> u8
    ensures { result ≤ 2 }
{
    let counted = count(alloc, words, text);
    print(counted, out).unwrap_or(FAILED)
}

/// Prints that memory was refused before there were arguments, and returns the status to end with.
pub fn refuse<W: Write>(out: &mut W) -> u8
    ensures { result ≤ 2 }
{
    print(Err(Stop::Failed(Failure::Memory)), out).unwrap_or(FAILED)
}

fn print<W: Write>(counted: Result<u64, Stop>, out: &mut W) -> io::Result<u8>
    ensures { IfOk result (λ status. status ≤ 2) }
{
    let status = match counted {
        Ok(count) => {
            writeln!(out, "{count}")?;
            0
        }
        Err(stop) => {
            writeln!(out, "{stop}")?;
            stop.status()
        }
    };
    out.flush()?;
    Ok(status)
}

/// The number that the arguments want.
fn count<R: Read>(alloc: Global, words: &[&str], text: &mut R) -> Result<u64, Stop> {
    if let [word, pattern] = words {
        if *word == "states" {
            return count_states(alloc, pattern);
        }
    }
    let [engine, pattern, rounds] = words else {
        return Err(Stop::Usage);
    };
    let finder = Finder::from_word(engine).ok_or(Stop::Usage)?;
    let rounds = rounds.parse::<u64>().ok().ok_or(Stop::Usage)?;
    let bytes = read_haystack(alloc, text)?;
    match finder {
        Finder::Regex(call) => regex_rounds(alloc, pattern, &bytes, rounds, call),
        Finder::Meta(call) => meta_rounds(alloc, pattern, &bytes, rounds, call),
        Finder::Lazy(ends) => ends.rounds(alloc, compiled(alloc, pattern)?, &bytes, rounds),
        Finder::Ours(engine) => {
            let count = engine.count_matches(alloc, compiled(alloc, pattern)?, &bytes, rounds)?;
            Ok(count)
        }
    }
}

fn count_states(alloc: Global, pattern: &str) -> Result<u64, Stop> {
    let nfa = compiled(alloc, pattern)?;
    Ok(nfa.states().len() as u64)
}

fn compiled(alloc: Global, pattern: &str) -> Result<NFA, Stop> {
    let nfa = Compiler::new().build(alloc, pattern)?;
    Ok(nfa)
}

/// The count of the last round, with one matcher for all rounds.
fn regex_rounds(
    alloc: Global,
    pattern: &str,
    text: &[u8],
    rounds: u64,
    call: Call,
) -> Result<u64, Stop> {
    let regex = Regex::new(alloc, pattern)?;
    let mut matcher = regex.matcher(alloc)?;
    let mut count = 0;
    for _ in 0..rounds {
        count = call.of_matcher(alloc, &mut matcher, text)?;
    }
    Ok(count)
}

/// The count of the last round, with one engine of `nfa_meta` for all rounds.
fn meta_rounds(
    alloc: Global,
    pattern: &str,
    text: &[u8],
    rounds: u64,
    call: Call,
) -> Result<u64, Stop> {
    let mut meta = Meta::new(alloc, pattern)?;
    let mut captures = meta.create_captures(alloc)?;
    let mut count = 0;
    for _ in 0..rounds {
        count = call.of_meta(alloc, &mut meta, &mut captures, text)?;
    }
    Ok(count)
}

/// What searches, and by which call.
#[derive(Clone, Copy, Debug)]
enum Finder {
    Ours(Engine),
    Lazy(Ends),
    Meta(Call),
    Regex(Call),
}

impl Finder {
    fn from_word(word: &str) -> Option<Finder> {
        if let Some(call) = word.strip_prefix("meta") {
            return Call::from_word(call).map(Finder::Meta);
        }
        if let Some(call) = word.strip_prefix("regex") {
            return Call::from_word(call).map(Finder::Regex);
        }
        if let Some(ends) = word.strip_prefix("dfa") {
            return Ends::from_word(ends).map(Finder::Lazy);
        }
        Engine::from_word(word).map(Finder::Ours)
    }
}
