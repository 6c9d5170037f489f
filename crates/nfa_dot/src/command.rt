//! What the arguments of the command line ask for.
use anyhow::{Result, bail};
use clap::{Arg, ArgAction, ArgMatches, Error};
use std::alloc::{AllocError, Global};

/// How the program is called.
const USAGE: &str = "nfa_dot NAME [HAYSTACK]\n       nfa_dot --pattern TEXT [HAYSTACK]";

/// What `--version` prints after the name of the program.
const VERSION: &str = "0.1.0";

/// What the help says below the options.
const AFTER: &str = "\
With a haystack, the path of the match that a search of it finds is red.
Make a picture of the graph with Graphviz: nfa_dot --pattern 'ab+' xabb | dot -Tsvg > picture.svg

Status: 0, or 2 after an error. If nobody reads the output any more, the program ends silently with status 141.";

/// Where the NFA comes from.
#[derive(Clone, Copy)]
pub enum Source<'w> {
    /// The sample of this name.
    Sample(&'w str),
    /// The text of a pattern.
    Pattern(&'w str),
}

/// What the arguments ask for.
#[derive(Drop)]
pub enum Command<'w> {
    /// Print the graph of an NFA, with the path through it that a search of the haystack answers.
    Draw {
        source: Source<'w>,
        haystack: Option<&'w str>,
    },
    /// Print this, which is the help or says what is wrong with the arguments.
    Say(Error),
}

/// Reads the arguments, the first of which is the name of the program.
pub fn parse<'w>(alloc: Global, words: &'w [&'w str]) -> Result<Command<'w>> {
    let mut args = Vec::new(alloc);
    args.push(pattern_argument(alloc))?;
    args.push(words_argument(alloc)?)?;
    let command = clap::Command::new(alloc, "nfa_dot")
        .about("Prints an NFA as a graph for Graphviz.")
        .version(VERSION)
        .override_usage(USAGE)
        .after_help(AFTER)
        .args(args)?;
    match command.try_get_matches_from(words) {
        Ok(matches) => read_matches(alloc, &matches),
        Err(error) => Ok(Command::Say(error)),
    }
}

/// The option with a pattern.
fn pattern_argument<'w>(alloc: Global) -> Arg<'w> {
    Arg::new(alloc, "pattern")
        .short('p')
        .long("pattern")
        .action(ArgAction::Set)
        .value_name("TEXT")
        .help("Draw the NFA that this pattern is compiled to")
}

/// The arguments that belong to no option: the name of a sample if there is no pattern, and the haystack.
fn words_argument<'w>(alloc: Global) -> Result<Arg<'w>, AllocError> {
    Arg::new(alloc, "words")
        .action(ArgAction::Append)
        .num_args(0..)
        .value_name("NAME|HAYSTACK")
        .help("The name of a sample NFA, unless --pattern is given, and the haystack")
        .required_unless_present("pattern")
}

fn read_matches<'w>(alloc: Global, matches: &ArgMatches<'w>) -> Result<Command<'w>> {
    let mut words = Vec::new(alloc);
    if let Some(given) = matches.get_strs("words") {
        words.extend_from_slice(given)?;
    }
    match matches.get_str("pattern") {
        Some(pattern) => drawn(Source::Pattern(pattern), &words),
        None => match words.as_slice() {
            [name, words @ ..] => drawn(Source::Sample(*name), words),
            [] => bail!("expected the name of a sample NFA, found no argument"),
        },
    }
}

/// Returns the command to draw the NFA. The one word after that of the NFA, if there is one, is the haystack.
fn drawn<'w>(source: Source<'w>, words: &[&'w str]) -> Result<Command<'w>> {
    let haystack = match words {
        [] => None,
        [haystack] => Some(*haystack),
        [.., last] => bail!("expected no argument after the haystack, found {last:?}"),
    };
    Ok(Command::Draw { source, haystack })
}
