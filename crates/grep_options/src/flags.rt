//! The options that the command line has, as `clap` reads them: what an option of a table is (`entry`), and the tables
//! (`selecting`, `printing`).
mod entry;
mod printing;
mod selecting;

use crate::flags::entry::{Entry, with_each};
use crate::flags::printing::{COLOURS, LINES, NAMES, REPORTS};
use crate::flags::selecting::{FILES, KINDS, LIMITS, PATTERNS};
use clap::{Arg, ArgAction, Command};
use std::alloc::{AllocError, Global};

/// How many tables there are.
const TABLES: usize = 8;

/// Adds all options.
pub fn with_flags<'w>(alloc: Global, mut command: Command<'w>) -> Result<Command<'w>, AllocError> {
    for number in 0..TABLES {
        command = with_each(alloc, command, table(number))?;
    }
    Ok(command)
}

/// Returns the table of this number, in the order of the help.
fn table(number: usize) -> &'static [Entry] {
    match number {
        0 => PATTERNS,
        1 => REPORTS,
        2 => LIMITS,
        3 => LINES,
        4 => NAMES,
        5 => FILES,
        6 => KINDS,
        _ => COLOURS,
    }
}

/// Returns the arguments that belong to no option. Without `-e` and `-f` there has to be one.
pub fn words_argument<'w>(alloc: Global) -> Result<Arg<'w>, AllocError> {
    let options = ["regexp", "file"];
    optional_words(alloc).required_unless_present_any(&options)
}

/// Returns the arguments that belong to no option: the pattern if there is no `-e` and no `-f`, and the files.
fn optional_words<'w>(alloc: Global) -> Arg<'w> {
    Arg::new(alloc, "words")
        .help("The pattern, unless -e or -f is given, and the files")
        .action(ArgAction::Append)
        .value_name("PATTERN|FILE")
        .num_args(0..)
}
