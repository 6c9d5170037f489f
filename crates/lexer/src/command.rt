//! What the arguments of the command line ask for.
use crate::lexer::Prefer;
use crate::report::Style;
use program_text::parted::part_words;
use program_text::words::{NotText, Word, texts};
use std::alloc::{AllocError, Global};
use std::fmt;

/// The line that says how the program is called.
pub const USAGE: &str = "usage: lexer [OPTIONS] [FILE]";

/// What `--version` prints.
pub const VERSION: &str = "lexer 0.1.0";

/// The options that have a value, which is the next word.
const VALUED: &[&str] = &["--rules", "-r", "--skip"];

/// What `--help` prints below it.
pub const HELP: &str = "
Prints each token of FILE in a line: the name of its rule, its span in bytes, and its text. Without FILE, or for -, it
reads standard input. Options stand before FILE or after it. After -- no word is one.
The rules are those of a language like C: identifier, number, string, space and operator. A token of the rule `space`
is printed without its text.

Options:
-r, --rules RULES  takes the rules from a file, one in a line: NAME = PATTERN. Empty lines, and lines that start with #,
                   are left out.
--longest          takes the rule with the longest match, and the first of those that are as long. Otherwise the first
                   rule that matches is taken. Each rule matches as long as its pattern prefers: a|ab prefers a.
--json             prints each token as a JSON object, with its text.
--positions        prints LINE:COLUMN of each token after its span, both from 1. Columns count characters: all bytes but
                   those that continue a character of UTF-8.
--recover          goes on after text of which no rule takes a byte: up to the next place at which a token starts, or to
                   the end, it is a token of the name `error`, among the others.
--skip NAME        prints no tokens of the rule of this name. It may be given several times.
-h, --help         prints this, and nothing else.
--version          prints the name and the version of the program.

Status: 0 if the tokens of rules are the whole text, 1 if no token starts at some place, which standard error names, and
2 if the arguments or the rules are wrong, the text cannot be read, a token cannot be written or there is no memory. If
nobody reads the output any more, the program ends silently with status 141.

Examples:
lexer --skip space main.c
    prints the words, numbers, strings and operators of a program.
lexer --recover --positions main.c | grep '^error'
    prints where the program has text that no rule takes.
printf 'if = if\\nword = [a-z]+\\nspace = \\s+\\n' > rules; echo 'if iffy' | lexer --longest --rules rules
    prints an if, a word, and the white space after each.";

/// What the arguments ask for.
#[derive(Drop)]
pub struct Arguments<'w> {
    /// The name of the file of the rules, if one is given.
    pub rules: Option<&'w str>,
    /// The name of the file of the text, if it is not standard input.
    pub file: Option<&'w str>,
    /// The names of the rules whose tokens are not printed.
    pub skip: Vec<&'w str>,
    /// Whether tokens are printed as JSON objects.
    pub json: bool,
    /// Whether the lexer goes on after text that no rule takes.
    pub recover: bool,
    /// Whether the line and the column of each token are printed.
    pub positions: bool,
    /// Which rule gives a token.
    pub prefer: Prefer,
}

impl<'w> Arguments<'w> {
    /// Returns how tokens are printed.
    pub fn style(&self) -> Style<'_> {
        Style {
            skip: &self.skip,
            json: self.json,
            recover: self.recover,
            positions: self.positions,
            prefer: self.prefer,
        }
    }
}

/// What the arguments ask for.
#[derive(Drop)]
pub enum Asked<'w> {
    /// Print the help.
    Help,
    /// Print the version.
    Version,
    /// Print tokens.
    Tokens(Arguments<'w>),
}

/// Why the arguments are wrong.
#[derive(Clone, Copy)]
pub enum Misuse<'w> {
    /// There is no such option.
    NoOption(&'w str),
    /// This word is not UTF-8.
    NotText(NotText<'w>),
    /// The last word is this option, which needs a value.
    NoValue(&'static str),
    /// There is a name of a file, and this word.
    TwoFiles(&'w str),
}

impl fmt::Display for Misuse<'_> {
    fn fmt<W: fmt::Write>(&self, f: &mut fmt::Formatter<W>) -> fmt::Result {
        match self {
            Misuse::NoOption(word) => write!(
                f,
                "there is no option {word}; after -- no word is one"
            ),
            Misuse::NotText(error) => fmt::Display::fmt(error, f),
            Misuse::NoValue(what) => write!(f, "{what}"),
            Misuse::TwoFiles(word) => write!(f, "FILE is one file, and {word} is one word more"),
        }
    }
}

/// Returns what the arguments ask for, or why they are wrong. The only other error is that allocation failed.
pub fn parse<'w>(
    alloc: Global,
    words: &[Word<'w>],
) -> Result<Result<Asked<'w>, Misuse<'w>>, AllocError> {
    let parted = part_words(alloc, VALUED, words)?;
    match texts(alloc, &parted.options)? {
        Ok(options) => match file_of(&parted.operands) {
            Ok(file) => with_options(alloc, file, &options),
            Err(misuse) => Ok(Err(misuse)),
        },
        Err(error) => Ok(Err(Misuse::NotText(error))),
    }
}

/// What the words so far ask for, besides the arguments, and what the next one is.
#[derive(Clone, Copy)]
struct Reading {
    help: bool,
    version: bool,
    next: Next,
}

/// What the next word is.
#[derive(Clone, Copy, PartialEq, Eq)]
enum Next {
    Option,
    Name,
    Rules,
}

/// Returns what these options ask for.
fn with_options<'w>(
    alloc: Global,
    file: Option<&'w str>,
    options: &[&'w str],
) -> Result<Result<Asked<'w>, Misuse<'w>>, AllocError> {
    let mut arguments = Arguments {
        rules: None,
        file,
        skip: Vec::new(alloc),
        json: false,
        recover: false,
        positions: false,
        prefer: Prefer::First,
    };
    match read_options(&mut arguments, options)? {
        Ok(reading) if reading.help => Ok(Ok(Asked::Help)),
        Ok(reading) if reading.version => Ok(Ok(Asked::Version)),
        Ok(_) => Ok(Ok(Asked::Tokens(arguments))),
        Err(misuse) => Ok(Err(misuse)),
    }
}

/// Reads the options with their values.
fn read_options<'w>(
    arguments: &mut Arguments<'w>,
    options: &[&'w str],
) -> Result<Result<Reading, Misuse<'w>>, AllocError> {
    let mut reading = Reading {
        help: false,
        version: false,
        next: Next::Option,
    };
    for option in options {
        match reading.next {
            Next::Option => match read_option(arguments, reading, option) {
                Ok(read) => reading = read,
                Err(misuse) => return Ok(Err(misuse)),
            },
            Next::Name => {
                arguments.skip.push(*option)?;
                reading.next = Next::Option;
            }
            Next::Rules => {
                arguments.rules = Some(*option);
                reading.next = Next::Option;
            }
        }
    }
    Ok(match reading.next {
        Next::Option => Ok(reading),
        Next::Name => Err(Misuse::NoValue("--skip needs the name of a rule")),
        Next::Rules => Err(Misuse::NoValue("--rules needs the name of a file")),
    })
}

/// Reads an option.
fn read_option<'w>(
    arguments: &mut Arguments<'w>,
    reading: Reading,
    option: &'w str,
) -> Result<Reading, Misuse<'w>> {
    let mut reading = reading;
    match option {
        "-h" | "--help" => reading.help = true,
        "--version" => reading.version = true,
        "--json" => arguments.json = true,
        "--recover" => arguments.recover = true,
        "--positions" => arguments.positions = true,
        "--longest" => arguments.prefer = Prefer::Longest,
        "--skip" => reading.next = Next::Name,
        "-r" | "--rules" => reading.next = Next::Rules,
        other => return Err(Misuse::NoOption(other)),
    }
    Ok(reading)
}

/// Returns the name of the file of the text, if it is not standard input.
fn file_of<'w>(words: &[Word<'w>]) -> Result<Option<&'w str>, Misuse<'w>> {
    match words {
        [] => Ok(None),
        [name] => Ok(named_file(name.text()?)),
        [_, word, ..] => Err(Misuse::TwoFiles(word.text()?)),
    }
}

/// Returns the name of a file; none for `-`, which is standard input.
fn named_file<'w>(name: &'w str) -> Option<&'w str> {
    if name == "-" { None } else { Some(name) }
}

impl<'w> From<NotText<'w>> for Misuse<'w> {
    fn from(error: NotText<'w>) -> Misuse<'w> {
        Misuse::NotText(error)
    }
}
