//! The search of all files that the arguments name.
use crate::fault::Fault;
use crate::grep::Grep;
use crate::input::search_named;
use crate::progress::Progress;
use crate::walk::Walk;
use grep_options::chosen::{Step, is_passed, step_of};
use grep_options::colours::Colours;
use grep_options::command::Arguments;
use grep_options::marked::{is_marked, without_mark};
use grep_options::options::{Context, Options, Report, Request, When};
use grep_options::output::is_output;
use grep_options::patterns::{all_patterns, read_files};
use grep_options::syntax::need_same;
use grep_options::walk::is_folder;
use program_text::failure::Failure;
use std::env::FillError;
use std::io::{BufWriter, IsTerminal, Write};
use std::rt::Env;
use std::{fmt, io};

/// Why an input was not searched: nothing is opened by a name that is not UTF-8.
const NOT_TEXT: &str = "cannot read the input: its name is not UTF-8";

/// Why an input was not searched: it would have what was printed.
const IS_OUTPUT: &str = "input file is also the output";

/// Why what a folder has may be searched although it is to be left out.
const NO_RULES: &str = "cannot read its .gitignore";

/// Why a folder was not searched again, in itself.
const IS_LOOP: &str = "warning: recursive directory loop";

/// What the search of all inputs came to.
#[derive(Clone, Copy)]
pub struct Outcome {
    /// Some line was selected.
    pub selected: bool,
    /// Some input was not searched to its end.
    pub failed: bool,
    /// How many inputs were searched, which may be shown.
    progress: Progress,
}

/// Searches the inputs that the arguments name, in order. An input that cannot be read, or that has a line for which
/// there is no memory, is named on standard error, and the search goes on with the next one. The error is one that ends
/// the search: of a pattern, of the output, or of memory.
pub fn run(
    rt: &HostRuntime,
    arguments: &Arguments<'_>,
    colours: Option<Colours<'_>>,
) -> Result<Outcome, Fault> {
    let files = read_files(rt, &arguments.pattern_files)?;
    let patterns = all_patterns(rt.alloc(), &arguments.patterns, &files)?;
    need_same(rt.alloc(), arguments.syntax, &patterns)?;
    search_for(rt, arguments, colours, &patterns)
}

/// Searches for these patterns, and prints in these colours.
fn search_for(
    rt: &HostRuntime,
    arguments: &Arguments<'_>,
    colours: Option<Colours<'_>>,
    patterns: &[&str],
) -> Result<Outcome, Fault> {
    let options = Options {
        named: arguments.options.named || names_folder(rt, arguments),
        colours,
        ..arguments.options
    };
    let mut grep = Grep::new(rt.alloc(), patterns, options)?;
    let begin = Outcome {
        selected: false,
        failed: false,
        progress: Progress::new(rt, arguments.progress),
    };
    // No line can be selected, so no input is read.
    if arguments.limit == 0 && arguments.report != Report::Without {
        return Ok(begin);
    }
    let outcome = if arguments.line_buffered || rt.stdout().is_terminal() {
        search_all(rt, &mut grep, arguments, begin, &mut io::writer(rt))
    } else {
        search_buffered(rt, &mut grep, arguments, begin)
    };
    begin.progress.erase(rt);
    Ok(outcome?)
}

/// Returns whether colours are printed. A terminal has colours, unless its type is not known or `dumb`.
pub fn is_coloured(rt: &HostRuntime, when: When) -> bool {
    match when {
        When::Never => false,
        When::Always => true,
        When::Auto => rt.stdout().is_terminal() && has_colours(rt),
    }
}

/// Returns whether the type of the terminal is known, and is not `dumb`.
fn has_colours(rt: &HostRuntime) -> bool {
    let mut buffer = [0u8; 5];
    match rt.var("TERM", &mut buffer) {
        Ok(len) => &buffer[..len] != b"dumb".as_slice(),
        Err(FillError::TooLong) => true,
        Err(FillError::NotPresent) => false,
    }
}

/// Returns whether names are printed because the only input is a folder.
fn names_folder(rt: &HostRuntime, arguments: &Arguments<'_>) -> bool {
    if !arguments.recurses() || arguments.unnamed {
        return false;
    }
    match arguments.files.first() {
        Some(name) => *name != "-" && is_folder(rt, name),
        None => true,
    }
}

/// Searches the inputs, and writes many lines at once.
fn search_buffered(
    rt: &HostRuntime,
    grep: &mut Grep<'_, '_>,
    arguments: &Arguments<'_>,
    begin: Outcome,
) -> Result<Outcome, Failure> {
    let Ok(mut out) = BufWriter::new(rt.alloc(), io::writer(rt)) else {
        return Err(Failure::Memory);
    };
    let outcome = search_all(rt, grep, arguments, begin, &mut out)?;
    match out.flush() {
        Ok(()) => Ok(outcome),
        Err(error) => Err(Failure::Write(error)),
    }
}

/// Searches the inputs. Without names, that is the folder in which the program runs, if folders are searched, and else
/// standard input.
fn search_all<W: Write>(
    rt: &HostRuntime,
    grep: &mut Grep<'_, '_>,
    arguments: &Arguments<'_>,
    begin: Outcome,
    out: &mut W,
) -> Result<Outcome, Failure> {
    if !arguments.files.is_empty() {
        search_each(rt, grep, arguments, &arguments.files, begin, out)
    } else if arguments.recurses() {
        search_each(rt, grep, arguments, &["."], begin, out)
    } else {
        search_each(rt, grep, arguments, &["-"], begin, out)
    }
}

/// Searches these inputs. If nothing is printed, it ends at the first selected line.
fn search_each<W: Write>(
    rt: &HostRuntime,
    grep: &mut Grep<'_, '_>,
    arguments: &Arguments<'_>,
    names: &[&str],
    begin: Outcome,
    out: &mut W,
) -> Result<Outcome, Failure> {
    let mut outcome = begin;
    for name in names {
        search_name(rt, grep, arguments, name, &mut outcome, out)?;
        if is_over(arguments, outcome) {
            outcome.failed = false;
            return Ok(outcome);
        }
    }
    Ok(outcome)
}

/// Searches the input or the folder that an argument names, unless it is left out.
fn search_name<W: Write>(
    rt: &HostRuntime,
    grep: &mut Grep<'_, '_>,
    arguments: &Arguments<'_>,
    name: &str,
    outcome: &mut Outcome,
    out: &mut W,
) -> Result<(), Failure> {
    if is_marked(name) {
        name_fault(rt, arguments, name, NOT_TEXT, outcome);
        return Ok(());
    }
    if is_passed(rt, arguments, name)? {
        return Ok(());
    }
    if arguments.recurses() && name != "-" && is_folder(rt, name) {
        search_folder(rt, grep, arguments, name, outcome, out)
    } else {
        search_one(rt, grep, arguments, name, outcome, out)
    }
}

/// Returns whether no other input matters.
fn is_over(arguments: &Arguments<'_>, outcome: Outcome) -> bool {
    outcome.selected && arguments.report == Report::Nothing
}

/// Searches the files in the folder, and in those in it, in the order of names.
fn search_folder<W: Write>(
    rt: &HostRuntime,
    grep: &mut Grep<'_, '_>,
    arguments: &Arguments<'_>,
    folder: &str,
    outcome: &mut Outcome,
    out: &mut W,
) -> Result<(), Failure> {
    let mut walk = Walk::new(rt.alloc(), folder, arguments.ignoring);
    push_folder(rt, arguments, folder, &mut walk, outcome);
    for _ in 0..u64::MAX {
        if is_over(arguments, *outcome) {
            return Ok(());
        }
        let Some(path) = walk.next() else {
            return Ok(());
        };
        if enter(rt, arguments, path.as_str(), &mut walk, outcome)? {
            search_one(rt, grep, arguments, path.as_str(), outcome, out)?;
        }
    }
    Ok(())
}

/// Pushes the paths in the folder, if the path is that of one. Returns whether it is that of a file that is searched.
fn enter(
    rt: &HostRuntime,
    arguments: &Arguments<'_>,
    path: &str,
    walk: &mut Walk<'_>,
    outcome: &mut Outcome,
) -> Result<bool, Failure> {
    if walk.leaves_out(rt, path)? {
        return Ok(false);
    }
    if is_marked(path) {
        name_fault(rt, arguments, path, NOT_TEXT, outcome);
        return Ok(false);
    }
    match step_of(rt, arguments, walk.top(), path) {
        Ok(Step::Search) => return Ok(true),
        Ok(Step::Enter) => push_folder(rt, arguments, path, walk, outcome),
        Ok(Step::Loop) => say(rt, arguments, path, IS_LOOP, outcome.progress),
        Ok(Step::Pass) => {}
        Err(error) => name_fault(rt, arguments, path, Failure::Read(error), outcome),
    }
    Ok(false)
}

/// Pushes the paths in the folder. It is named on standard error if they, or its rules, cannot be read.
fn push_folder(
    rt: &HostRuntime,
    arguments: &Arguments<'_>,
    folder: &str,
    walk: &mut Walk<'_>,
    outcome: &mut Outcome,
) {
    if walk.read_rules(rt, folder).is_err() {
        name_fault(rt, arguments, folder, NO_RULES, outcome);
    }
    if let Err(error) = walk.push_folder(rt, folder) {
        name_fault(rt, arguments, folder, Failure::Read(error), outcome);
    }
}

/// Searches one input, and notes in `outcome` what the search came to.
fn search_one<W: Write>(
    rt: &HostRuntime,
    grep: &mut Grep<'_, '_>,
    arguments: &Arguments<'_>,
    name: &str,
    outcome: &mut Outcome,
    out: &mut W,
) -> Result<(), Failure> {
    let request = Request {
        name: shown_name(arguments, name),
        report: arguments.report,
        limit: arguments.limit,
        context: Context {
            colours: grep.options().colours,
            ..arguments.context
        },
        used: outcome.selected,
        progress: outcome.progress.is_shown(),
    };
    // A search that ends at its first line, or that prints less, does not read what it prints.
    if request.report.shows() && request.limit > 1 && is_output(rt, name) {
        name_fault(rt, arguments, name, IS_OUTPUT, outcome);
        return Ok(());
    }
    outcome.progress.begin(rt, request.name);
    match search_named(rt, grep, arguments.binary, request, name, out) {
        Ok(count) => outcome.selected |= count > 0,
        Err(error) => {
            if !error.is_of_input() {
                return Err(error);
            }
            name_fault(rt, arguments, name, error, outcome);
        }
    }
    Ok(())
}

/// Says on standard error why an input was not searched to its end, if that is wanted.
fn name_fault<E: fmt::Display + Drop>(
    rt: &HostRuntime,
    arguments: &Arguments<'_>,
    name: &str,
    error: E,
    outcome: &mut Outcome,
) {
    outcome.failed = true;
    say(rt, arguments, name, error, outcome.progress);
}

/// Says this of an input on standard error, if that is wanted.
fn say<E: fmt::Display + Drop>(
    rt: &HostRuntime,
    arguments: &Arguments<'_>,
    name: &str,
    said: E,
    progress: Progress,
) {
    if !arguments.silent {
        progress.erase(rt);
        // The status says so even if the line cannot be written.
        let shown = shown_name(arguments, name);
        let _ = eprintln!(rt; "nfa_grep: {shown}: {said}");
    }
}

/// The name of an input, as it is printed. That of the folder in which the program runs is left out if it was not
/// given.
fn shown_name<'n>(arguments: &'n Arguments<'_>, name: &'n str) -> &'n str {
    let name = without_mark(name);
    if name == "-" {
        arguments.label
    } else if arguments.files.is_empty() {
        name.strip_prefix("./").unwrap_or(name)
    } else {
        name
    }
}
