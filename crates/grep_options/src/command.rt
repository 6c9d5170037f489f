//! What the arguments of the command line ask for.
use crate::error::OptionsError;
use crate::flags::{with_flags, words_argument};
use crate::given::{push_file_rules, push_folder_rules, push_texts};
use crate::options::{BinaryFiles, Bounds, Context, Devices, Folders, Options, Report, When};
use crate::rules::Rule;
use crate::syntax::Syntax;
use clap::{ArgMatches, Error};
use std::alloc::{AllocError, Global};

/// What `--version` prints after the name of the program.
const VERSION: &str = "0.1.0";

/// How the program is called.
const USAGE: &str = "nfa_grep [OPTIONS] [-e PATTERN].. [-f FILE].. [PATTERN] [FILE]..";

/// What the help says below the options.
const AFTER: &str = "\
Without -e and -f, the first argument is the pattern. Without a file, or for the file -, standard input is searched.
A line is of any bytes. It ends at a line feed, and a carriage return before the line feed belongs to the end. So it is
in the file of -f. Text is UTF-8; with -w, a byte that is not UTF-8 belongs to no word.
A file that is the output, too, is not searched, and neither is one whose name is not UTF-8: the status is 2 then.
Of a file that is not text, which has a byte 0 in what is read first, no lines are printed without -a.
The beginning of a long option will do, if no other one begins with it.
Colours are those of GREP_COLORS, as in grep. Without it, they are ms=01;31:mc=01;31:sl=:cx=:fn=35:ln=32:bn=32:se=36.

In a glob, ? is any character, * any text, slashes too, and [a-z] one of these characters, or [!a-z] any other one.
A backslash takes the meaning of the next character. A glob has to match a whole name: in a folder, the name there;
as an argument, the argument, or what comes after a slash in it. The last of --include and --exclude that matches
decides. If none does, the file is searched unless the first one is --include. Hidden folders are searched, too, and
what .gitignore names, unless --ignore-files is given. It passes over .git, and what git would by the .gitignore files
in the folders that are searched, from the named one down: not by those above it, and not by a line with [[:alpha:]] or
of more than 4096 bytes.

Status: 0 if a line was selected, 1 if none was, 2 after an error.";

/// What is searched for, where, and what is printed.
#[derive(Drop)]
pub struct Arguments<'w> {
    pub options: Options<'w>,
    /// What is printed of each file.
    pub report: Report,
    /// The search of a file ends after this many selected lines.
    pub limit: u64,
    /// Which lines around a selected one are printed.
    pub context: Context<'w, 'w>,
    /// When colours are printed, of which the options do not know yet.
    pub coloured: When,
    /// The syntax that the patterns are said to have.
    pub syntax: Syntax,
    pub binary: BinaryFiles,
    pub folders: Folders,
    pub devices: Devices,
    /// Links in folders are followed.
    pub links: bool,
    /// What `.gitignore` files in folders name is passed over.
    pub ignoring: bool,
    /// The name of standard input, as it is printed.
    pub label: &'w str,
    /// The names of inputs are not printed.
    pub unnamed: bool,
    /// Files that cannot be read are not named.
    pub silent: bool,
    /// A terminal shows how many files were searched.
    pub progress: bool,
    /// Each line is written at once.
    pub line_buffered: bool,
    /// The patterns, one on each line of these.
    pub patterns: Vec<&'w str>,
    /// The files with more patterns, one on each line.
    pub pattern_files: Vec<&'w str>,
    pub files: Vec<&'w str>,
    /// Which files are left out, and which folders.
    pub file_rules: Vec<Rule<'w>>,
    pub folder_rules: Vec<Rule<'w>>,
    /// The other values of options, which have to be text.
    pub texts: Vec<&'w str>,
}

impl<'w> Arguments<'w> {
    /// Returns whether folders are searched, with all in them.
    pub fn recurses(&self) -> bool {
        self.folders == Folders::Recurse
    }
}

/// What the arguments ask for.
#[derive(Drop)]
pub enum Command<'w> {
    /// Search.
    Search(Arguments<'w>),
    /// Print this, which is the help or says what is wrong with the arguments.
    Say(Error),
}

/// Reads the split arguments, the first of which is the name of the program. Fails if the value of `-m` is not a
/// number, or if allocation failed.
pub fn parse<'w>(alloc: Global, words: &'w [&'w str]) -> Result<Command<'w>, OptionsError> {
    match matches_of(alloc, words)? {
        Ok(matches) => search_of(alloc, &matches),
        Err(error) => Ok(Command::Say(error)),
    }
}

/// Returns what `clap` makes of the arguments: the values of options, or what is printed in place of a search.
fn matches_of<'w>(
    alloc: Global,
    words: &'w [&'w str],
) -> Result<Result<ArgMatches<'w>, Error>, AllocError> {
    let command = whole_command(alloc)?;
    Ok(command.try_get_matches_from(words))
}

/// Returns the command with its options and arguments.
fn whole_command<'w>(alloc: Global) -> Result<clap::Command<'w>, AllocError> {
    // What may fail comes first, while there is no command to let go.
    let others = words_argument(alloc)?;
    with_flags(alloc, without_options(alloc).arg(others)?)
}

/// Returns the search that these values of options ask for.
fn search_of<'w>(alloc: Global, matches: &ArgMatches<'w>) -> Result<Command<'w>, OptionsError> {
    Ok(Command::Search(read_matches(alloc, matches)?))
}

/// Returns the command, without its options and arguments.
fn without_options<'w>(alloc: Global) -> clap::Command<'w> {
    clap::Command::new(alloc, "nfa_grep")
        .about("Prints the lines in which a pattern matches.")
        .version(VERSION)
        .override_usage(USAGE)
        .after_help(AFTER)
        // -h has a meaning of its own.
        .disable_help_flag(true)
        // An option may be given several times.
        .args_override_self(true)
        // The beginning of a long option that no other one has will do.
        .infer_long_args(true)
}

fn read_matches<'w>(
    alloc: Global,
    matches: &ArgMatches<'w>,
) -> Result<Arguments<'w>, OptionsError> {
    let limit = limit_of(matches.get_str("max-count"))?;
    let context = context_of(matches)?;
    let mut arguments = without_lists(alloc, matches, limit, context);
    fill_rules(alloc, matches, &mut arguments)?;
    fill_words(matches, &mut arguments)?;
    arguments.options = options_of(matches, arguments.files.len() > 1);
    Ok(arguments)
}

/// Returns the arguments, without those of which there may be several.
fn without_lists<'w>(
    alloc: Global,
    matches: &ArgMatches<'w>,
    limit: u64,
    context: Context<'w, 'w>,
) -> Arguments<'w> {
    Arguments {
        options: options_of(matches, false),
        report: report_of(matches),
        limit,
        context,
        coloured: when_of(matches.get_str("color")),
        syntax: syntax_of(matches),
        binary: binary_of(matches),
        folders: folders_of(matches),
        devices: devices_of(matches),
        links: matches.get_flag("dereference-recursive"),
        ignoring: matches.get_flag("ignore-files"),
        label: matches.get_str("label").unwrap_or("(standard input)"),
        unnamed: matches.get_flag("no-filename"),
        silent: matches.get_flag("no-messages"),
        progress: matches.get_flag("progress"),
        line_buffered: matches.get_flag("line-buffered"),
        patterns: Vec::new(alloc),
        pattern_files: Vec::new(alloc),
        files: Vec::new(alloc),
        file_rules: Vec::new(alloc),
        folder_rules: Vec::new(alloc),
        texts: Vec::new(alloc),
    }
}

/// Reads the globs, and the other values that have to be text. Fails if a glob has a class.
fn fill_rules<'w>(
    alloc: Global,
    matches: &ArgMatches<'w>,
    arguments: &mut Arguments<'w>,
) -> Result<(), OptionsError> {
    push_file_rules(alloc, matches, &mut arguments.file_rules)?;
    push_folder_rules(alloc, matches, &mut arguments.folder_rules)?;
    push_texts(matches, &mut arguments.texts)?;
    Ok(())
}

/// Reads the patterns, and the names of files. Without `-e` and `-f`, the first argument is the pattern.
fn fill_words<'w>(
    matches: &ArgMatches<'w>,
    arguments: &mut Arguments<'w>,
) -> Result<(), AllocError> {
    push_strs(matches, "regexp", &mut arguments.patterns)?;
    push_strs(matches, "file", &mut arguments.pattern_files)?;
    push_strs(matches, "words", &mut arguments.files)?;
    if arguments.patterns.is_empty() && arguments.pattern_files.is_empty() {
        move_first(&mut arguments.files, &mut arguments.patterns)?;
    }
    Ok(())
}

/// Moves the first word, if there is one, to the others.
fn move_first<'w>(words: &mut Vec<&'w str>, others: &mut Vec<&'w str>) -> Result<(), AllocError> {
    if !words.is_empty() {
        others.push(words.remove(0))?;
    }
    Ok(())
}

/// Appends the values of the option of this name.
fn push_strs<'w>(
    matches: &ArgMatches<'w>,
    name: &str,
    values: &mut Vec<&'w str>,
) -> Result<(), AllocError> {
    if let Some(given) = matches.get_strs(name) {
        values.extend_from_slice(given)?;
    }
    Ok(())
}

fn options_of<'w>(matches: &ArgMatches<'w>, several: bool) -> Options<'w> {
    let with = matches.get_flag("with-filename");
    let without = matches.get_flag("no-filename");
    Options {
        fixed: matches.get_flag("fixed-strings"),
        ignore_case: matches.get_flag("ignore-case"),
        bounds: bounds_of(matches),
        end: if matches.get_flag("null-data") {
            0
        } else {
            b'\n'
        },
        inverted: matches.get_flag("invert-match"),
        only: matches.get_flag("only-matching"),
        named: with || several && !without,
        zero_names: matches.get_flag("null"),
        which: matches.get_flag("which"),
        numbers: matches.get_flag("line-number"),
        offsets: matches.get_flag("byte-offset"),
        tabbed: matches.get_flag("initial-tab"),
        // It depends on the input.
        width: 0,
        colours: None,
    }
}

/// Returns when colours are printed with this value of `--color`: never without the option.
fn when_of(value: Option<&str>) -> When {
    match value {
        Some("always") => When::Always,
        Some("auto") => When::Auto,
        _ => When::Never,
    }
}

/// Returns what bounds a match. A whole line goes before a word.
fn bounds_of(matches: &ArgMatches<'_>) -> Bounds {
    if matches.get_flag("line-regexp") {
        Bounds::Line
    } else if matches.get_flag("word-regexp") {
        Bounds::Words
    } else {
        Bounds::Anywhere
    }
}

/// Returns what is printed of each file. Nothing goes before names, and these before a count.
fn report_of(matches: &ArgMatches<'_>) -> Report {
    if matches.get_flag("quiet") {
        Report::Nothing
    } else if matches.get_flag("files-with-matches") {
        Report::With
    } else if matches.get_flag("files-without-match") {
        Report::Without
    } else if matches.get_flag("count") {
        Report::Count
    } else {
        Report::Lines
    }
}

/// Returns the limit that this value of `-m` gives. There is none without a value, for a negative number, and for one
/// that is too large for a `u64`.
fn limit_of(value: Option<&str>) -> Result<u64, OptionsError> {
    let Some(value) = value else {
        return Ok(u64::MAX);
    };
    match number_of(value) {
        Some((limit, false)) => Ok(limit),
        Some((_, true)) => Ok(u64::MAX),
        None => Err(OptionsError::Limit),
    }
}

/// Returns the number, at most `u64::MAX`, and whether it has a minus. There is none if the text is not a number.
fn number_of(text: &str) -> Option<(u64, bool)> {
    let (digits, negative) = match text.strip_prefix('-') {
        Some(digits) => (digits, true),
        None => (text.strip_prefix('+').unwrap_or(text), false),
    };
    if digits.is_empty() || !digits.bytes().all(|byte| byte.is_ascii_digit()) {
        return None;
    }
    Some((digits.parse::<u64>().unwrap_or(u64::MAX), negative))
}

/// Returns which lines around a selected one are printed. `-A` and `-B` go before `-C`.
fn context_of<'w>(matches: &ArgMatches<'w>) -> Result<Context<'w, 'w>, OptionsError> {
    let around = count_of(matches.get_str("context"))?;
    let before = count_of(matches.get_str("before-context"))?.or(around);
    let after = count_of(matches.get_str("after-context"))?.or(around);
    Ok(Context {
        before: before.unwrap_or(0) as usize,
        after: after.unwrap_or(0),
        separated: (before.is_some() || after.is_some()) && !matches.get_flag("no-group-separator"),
        colours: None,
        separator: matches
            .get_str("group-separator")
            .unwrap_or("--")
            .as_bytes(),
    })
}

/// Returns the number of lines that this value gives.
fn count_of(value: Option<&str>) -> Result<Option<u64>, OptionsError> {
    let Some(value) = value else {
        return Ok(None);
    };
    match number_of(value) {
        Some((count, false)) => Ok(Some(count)),
        _ => Err(OptionsError::Context),
    }
}

/// Returns the syntax that the patterns are said to have.
fn syntax_of(matches: &ArgMatches<'_>) -> Syntax {
    if matches.get_flag("basic-regexp") {
        Syntax::Basic
    } else if matches.get_flag("perl-regexp") {
        Syntax::Perl
    } else {
        Syntax::Own
    }
}

/// Returns what is done with files that are not text.
fn binary_of(matches: &ArgMatches<'_>) -> BinaryFiles {
    if matches.get_flag("text") {
        return BinaryFiles::Text;
    }
    if matches.get_flag("no-binary") {
        return BinaryFiles::WithoutMatch;
    }
    match matches.get_str("binary-files") {
        Some("text") => BinaryFiles::Text,
        Some("without-match") => BinaryFiles::WithoutMatch,
        _ => BinaryFiles::Message,
    }
}

/// Returns what is done with folders.
fn folders_of(matches: &ArgMatches<'_>) -> Folders {
    if matches.get_flag("recursive") || matches.get_flag("dereference-recursive") {
        return Folders::Recurse;
    }
    match matches.get_str("directories") {
        Some("recurse") => Folders::Recurse,
        Some("skip") => Folders::Skip,
        _ => Folders::Read,
    }
}

/// Returns which devices are searched. Without an option `-R` searches all.
fn devices_of(matches: &ArgMatches<'_>) -> Devices {
    match matches.get_str("devices") {
        Some("read") => Devices::Read,
        Some("skip") => Devices::Skip,
        _ if matches.get_flag("dereference-recursive") => Devices::Read,
        _ => Devices::Named,
    }
}
