//! What the arguments of the command line ask for.
ghost use Rattle.std.specs.Prelude.{◌≡◌, IfOk, map, string_bytes};
ghost use Rattle.log_extractor.specs.Several.{pattern_label, labels_from};

use crate::output::{Form, Output, Values};
use crate::pattern::{COMBINED, LINE, SYSLOG};
use anyhow::Result;
use clap::{Arg, ArgAction, ArgMatches, Error};
use program_text::split::{Valued, split_values};
use std::alloc::{AllocError, Global};

/// How the program is called.
const USAGE: &str = "log_extractor [OPTIONS] [FILE]..";

/// What `--version` prints after the name of the program.
const VERSION: &str = "0.1.0";

/// The names of formats.
const FORMATS: &[&str] = &["syslog", "combined"];

/// What the help says below the options, before the patterns of the formats.
const AFTER: &str = "\
The named groups of the pattern are the columns, in order. A line has a row if the pattern matches it from its start.
With several -p or --format the first of the patterns that matches a line gives its row. The columns are the named
groups of all, each name once, in the order of their first appearance. Before them is a column `pattern`: the number of
that pattern, from 0 in the order of the arguments, or the name of its format.
A field is the text of its group, and empty if the group took no part or the pattern has no such group. Fields are
separated by tabs. In a field, \\t is a tab, \\n a line feed, \\r a carriage return and \\\\ a backslash, so a row is
always one line with all its columns.
With --types a field is a number if its whole text is one in JSON: 404 and -1.5e3 are, and 007, +1 and 1. are not.
With --where a line has a row only if the field is the text after the first =; several conditions all have to hold.
With --count the most frequent value is first, and those that occur as often as each other are in the order of bytes.
A field without a text counts as an empty value.
With --csv a field is in quotes if it is empty or has a comma, a quote or an end of a line, and its quotes are doubled.
Without a file, or for the file -, standard input is read. Options stand before the files, after them or among them,
but after -- no word is one.
A line is of any bytes. It ends at a line feed, and a carriage return before the line feed belongs to the end.

Examples:
  log_extractor --json app.log
  log_extractor --format combined --count status access.log
  log_extractor --where level=ERROR --columns time,message app.log
  log_extractor --csv -p '(?<user>[a-z]+): (?<said>.*)' < chat.log

Status: 0, 1 if no line has a row and rows are asked for, 2 if an input cannot be read, the output cannot be written or
memory runs out, the arguments or the pattern are wrong, or a file that is read is also the output. If nobody
reads the output any more, the program ends silently with status 141.

The default pattern is of lines such as `2026-11-22 14:03:07 ERROR disk full`. The patterns of the formats:";

/// A pattern of lines, and the name of its format, if it has one.
#[derive(Clone, Copy)]
pub struct Given<'w> {
    pub format: Option<&'w str>,
    pub pattern: &'w str,
}

/// By which patterns fields are found, where, and what is printed.
#[derive(Drop)]
pub struct Arguments<'w> {
    /// The patterns, in the order in which they are tried. There is at least one.
    pub patterns: Vec<Given<'w>>,
    pub output: Output,
    /// The columns that are shown, with commas between them; without it all are.
    pub columns: Option<&'w str>,
    /// What has to hold of rows.
    pub conditions: Vec<&'w str>,
    /// The column whose values are counted, if rows are not printed.
    pub count: Option<&'w str>,
    /// Whether the output for a line is written before the next line is read.
    pub line_buffered: bool,
    pub files: Vec<&'w str>,
}

/// What the arguments ask for.
#[derive(Drop)]
pub enum Command<'w> {
    /// Print fields.
    Extract(Arguments<'w>),
    /// Print this, which is the help or says what is wrong with the arguments.
    Say(Error),
}

/// Splits the arguments, so that a pattern that is attached to `-p` is an argument of its own, with each of its bytes.
/// The first of the result is the name of the program, which is none of the arguments.
pub fn split<'w>(alloc: Global, words: &[&'w str]) -> Result<Vec<&'w str>, AllocError> {
    let mut all = Vec::new(alloc);
    all.push("log_extractor")?;
    all.extend_from_slice(words)?;
    let pattern = Valued {
        letter: 'p',
        short: "-p",
        long: "--pattern",
    };
    split_values(alloc, pattern, &all)
}

/// Returns what the help says below the options.
pub fn help_below(alloc: Global) -> Result<String, AllocError> {
    format!(in alloc; "{AFTER}\n  syslog    {SYSLOG}\n  combined  {COMBINED}")
}

/// Reads the split arguments, the first of which is the name of the program. The help ends with `below`. The only error
/// is that allocation failed.
pub fn parse<'w>(alloc: Global, below: &'w str, words: &'w [&'w str]) -> Result<Command<'w>> {
    let mut args = Vec::new(alloc);
    push_arguments(alloc, &mut args)?;
    let command = clap::Command::new(alloc, "log_extractor")
        .about("Prints the fields of log lines.")
        .version(VERSION)
        .override_usage(USAGE)
        .after_help(below)
        .args(args)?;
    match command.try_get_matches_from(words) {
        Ok(matches) => Ok(Command::Extract(read_matches(alloc, &matches)?)),
        Err(error) => Ok(Command::Say(error)),
    }
}

/// Adds the options, in the order in which the help has them, and the files.
fn push_arguments<'w>(alloc: Global, args: &mut Vec<Arg<'w>>) -> Result<(), AllocError> {
    args.push(pattern_argument(alloc))?;
    args.push(format_argument(alloc))?;
    push_output(alloc, args)?;
    args.push(columns_argument(alloc)?)?;
    args.push(condition_argument(alloc))?;
    args.push(count_argument(alloc)?)?;
    args.push(files_argument(alloc))?;
    Ok(())
}

/// The option with a pattern.
fn pattern_argument<'w>(alloc: Global) -> Arg<'w> {
    Arg::new(alloc, "pattern")
        .short('p')
        .long("pattern")
        .action(ArgAction::Append)
        // A pattern may begin with a hyphen.
        .allow_hyphen_values(true)
        .value_name("PATTERN")
        .help("Find fields by this pattern")
}

/// The option that names a pattern.
fn format_argument<'w>(alloc: Global) -> Arg<'w> {
    Arg::new(alloc, "format")
        .long("format")
        .action(ArgAction::Append)
        .value_parser(FORMATS)
        .value_name("FORMAT")
        .help("Find fields by the pattern of this format, which is shown below")
}

/// The option with the column whose values are counted.
fn count_argument<'w>(alloc: Global) -> Result<Arg<'w>, AllocError> {
    let arg = Arg::new(alloc, "count")
        .long("count")
        .visible_alias("count-by")?
        .action(ArgAction::Set)
        .value_name("COLUMN")
        .help("Print how often each value of this column occurs, and no rows");
    for_rows(arg)
}

/// The option with the columns that are shown.
fn columns_argument<'w>(alloc: Global) -> Result<Arg<'w>, AllocError> {
    Arg::new(alloc, "columns")
        .long("columns")
        .action(ArgAction::Set)
        .value_name("COLUMN,..")
        .help("Print only these columns, in this order")
        .conflicts_with("rejects")?
        .conflicts_with("count")
}

/// The option that says which rows are taken.
fn condition_argument<'w>(alloc: Global) -> Arg<'w> {
    Arg::new(alloc, "where")
        .long("where")
        .action(ArgAction::Append)
        .value_name("COLUMN=TEXT")
        .help(
            "Take only rows whose field of this column is this text, or with != is not; may be given several times",
        )
}

/// Adds the options that say what is printed.
fn push_output<'w>(alloc: Global, args: &mut Vec<Arg<'w>>) -> Result<(), AllocError> {
    args.push(rows_argument(alloc)?)?;
    args.push(csv_argument(alloc)?)?;
    args.push(json_argument(alloc)?)?;
    args.push(types_argument(alloc)?)?;
    args.push(flag(alloc, "rejects")?.help("Print the lines that have no row, and no rows"))?;
    args.push(flag(alloc, "line-buffered")?.help(
        "Write the output for a line before reading on, as to a terminal",
    ))?;
    Ok(())
}

/// The option without a line of names.
fn rows_argument<'w>(alloc: Global) -> Result<Arg<'w>, AllocError> {
    let arg = flag(alloc, "rows")?.help("Print no line with the names of the columns");
    for_rows(arg)
}

/// The option with commas.
fn csv_argument<'w>(alloc: Global) -> Result<Arg<'w>, AllocError> {
    let arg = flag(alloc, "csv")?.help("Separate fields by commas");
    for_rows(arg)
}

/// The option with objects.
fn json_argument<'w>(alloc: Global) -> Result<Arg<'w>, AllocError> {
    flag(alloc, "json")?
        .help("Print a JSON object for each row")
        .conflicts_with("rejects")
}

/// The option with numbers.
fn types_argument<'w>(alloc: Global) -> Result<Arg<'w>, AllocError> {
    flag(alloc, "types")?
        .help("With --json, print fields that are numbers of JSON as numbers")
        // An argument that excludes --json lifts what is required.
        .requires_arg("json")?
        .conflicts_with("rows")?
        .conflicts_with("csv")?
        .conflicts_with("rejects")?
        .conflicts_with("count")
}

/// Makes the option exclude those with objects and with rejects.
fn for_rows<'w>(arg: Arg<'w>) -> Result<Arg<'w>, AllocError> {
    arg.conflicts_with("json")?.conflicts_with("rejects")
}

/// The arguments that belong to no option: the files.
fn files_argument<'w>(alloc: Global) -> Arg<'w> {
    Arg::new(alloc, "files")
        .action(ArgAction::Append)
        .num_args(0..)
        .value_name("FILE")
        .help("The files to read, in order")
}

/// An option without a value, of this name. It may be given several times.
fn flag<'w>(alloc: Global, name: &'w str) -> Result<Arg<'w>, AllocError> {
    Arg::new(alloc, name)
        .long(name)
        .action(ArgAction::SetTrue)
        .overrides_with(name)
}

/// Returns the patterns that are given, in order. Without one it is the default pattern.
fn patterns_of<'w>(alloc: Global, matches: &ArgMatches<'w>) -> Result<Vec<Given<'w>>> {
    let words = pattern_words(alloc, matches)?;
    let mut patterns = Vec::new(alloc);
    for (_, is_format, word) in &words {
        patterns.push(given_by(*is_format, word))?;
    }
    if patterns.is_empty() {
        patterns.push(Given {
            format: None,
            pattern: LINE,
        })?;
    }
    Ok(patterns)
}

/// Returns the values of both options, in the order of the arguments: the place of each among all arguments, whether it
/// names a format, and the value.
fn pattern_words<'w>(
    alloc: Global,
    matches: &ArgMatches<'w>,
) -> Result<Vec<(usize, bool, &'w str)>> {
    let mut words = Vec::new(alloc);
    push_words(matches, "pattern", false, &mut words)?;
    push_words(matches, "format", true, &mut words)?;
    words.sort()?;
    Ok(words)
}

/// Adds the values of the option, each with its place among all arguments.
fn push_words<'w>(
    matches: &ArgMatches<'w>,
    id: &str,
    is_format: bool,
    words: &mut Vec<(usize, bool, &'w str)>,
) -> Result<()> {
    let (Some(values), Some(places)) = (matches.get_strs(id), matches.indices_of(id)) else {
        return Ok(());
    };
    for (value, place) in values.iter().zip(places) {
        words.push((*place, is_format, *value))?;
    }
    Ok(())
}

/// Returns the pattern that is given by a word: the name of a format, or the pattern itself.
fn given_by<'w>(is_format: bool, word: &'w str) -> Given<'w> {
    if !is_format {
        return Given {
            format: None,
            pattern: word,
        };
    }
    let pattern = if word == "syslog" { SYSLOG } else { COMBINED };
    Given {
        format: Some(word),
        pattern,
    }
}

/// Returns what the rows of each pattern have in the column of labels: the name of its format, or its number.
pub fn labels_of(alloc: Global, patterns: &[Given<'_>]) -> Result<Vec<String>, AllocError>
    ensures { IfOk result (λ labels. map string_bytes labels.items ≡ labels_from 0 patterns.now) }
{
    let mut labels = Vec::new(alloc);
    for (number, given) in patterns.iter().enumerate() {
        labels.push(pattern_label(alloc, number, given)?)?;
    }
    Ok(labels)
}

/// Returns the label of the pattern of this number.
fn pattern_label(alloc: Global, number: usize, given: &Given<'_>) -> Result<String, AllocError>
    ensures { IfOk result (λ label. string_bytes label ≡ pattern_label number given.now) }
{
    match given.format {
        Some(name) => String::from_str(alloc, name),
        None => format!(in alloc; "{number}"),
    }
}

/// Returns what is to be printed.
fn output_of(matches: &ArgMatches<'_>) -> Output {
    let form = if matches.get_flag("csv") {
        Form::Commas
    } else {
        Form::Tabs
    };
    let values = if matches.get_flag("types") {
        Values::Numbers
    } else {
        Values::Texts
    };
    if matches.get_flag("rejects") {
        Output::Rejects
    } else if matches.get_flag("json") {
        Output::Objects(values)
    } else if matches.get_flag("rows") {
        Output::Rows(form)
    } else {
        Output::Table(form)
    }
}

fn read_matches<'w>(alloc: Global, matches: &ArgMatches<'w>) -> Result<Arguments<'w>> {
    let patterns = patterns_of(alloc, matches)?;
    let files = strs_of(alloc, matches, "files")?;
    let conditions = strs_of(alloc, matches, "where")?;
    Ok(Arguments {
        patterns,
        output: output_of(matches),
        columns: matches.get_str("columns"),
        conditions,
        count: matches.get_str("count"),
        line_buffered: matches.get_flag("line-buffered"),
        files,
    })
}

/// Returns the values of the argument of this name, in order.
fn strs_of<'w>(
    alloc: Global,
    matches: &ArgMatches<'w>,
    name: &str,
) -> Result<Vec<&'w str>, AllocError> {
    let mut values = Vec::new(alloc);
    if let Some(words) = matches.get_strs(name) {
        values.extend_from_slice(words)?;
    }
    Ok(values)
}
