//! What the program can be asked for, and its help.
use crate::stretches::Stretch;

/// The line that says how the program is called.
pub const USAGE: &str =
    "usage: replacer [OPTIONS] replace PATTERN TEMPLATE [FILE..] | split PATTERN [FILE..] | \
splitn PATTERN LIMIT [FILE..]";

/// What `--version` prints.
pub const VERSION: &str = "replacer 0.1.0";

/// What `--help` prints below it.
pub const HELP: &str = "
Replaces the matches of patterns in each line of the files, or splits the lines there.
replace  prints the line with the template in place of each match.
split    prints what is before, between and after the matches, a line for each field.
splitn   prints at most LIMIT fields of a line. The last one is the rest of it.
In TEMPLATE, $1, $name and ${name} are what a group matched, $0 is the match, and $$ is a dollar. There \\n is a line
feed, \\t a tab, \\r a carriage return, \\\\ a backslash, \\x41 the byte of these two hexadecimal digits, and
\\u{e9} the character of this number. \\U puts what comes after it in upper case, \\L in lower case, and \\E ends that.
\\u puts the next byte in upper case, \\l in lower case, also after \\U or \\L: \\L\\u$1 is like `Title`. Only the
letters of ASCII have another case. All else stays.
Standard input is read if there is no file, and for the file `-`.

An option stands anywhere before `--`. After that no word is an option, as in `replacer replace -- -x +x`.

Options:
-i       lets letters match in either case.
-F       takes PATTERN as a text in which no character has a meaning of its own.
-e PATTERN  is the pattern, which the command then goes without. It may begin with a hyphen. If there are several, a
         match is one of any of them. Of those that match from one place the first is taken, whatever its length.
-t TEMPLATE  is the template for the pattern of the -e before it, and replace goes without TEMPLATE. Each -e has one, or
         none has one, and TEMPLATE is for all. A group in it is one of its own pattern.
--whole  takes each file as one text, so that the pattern sees its line feeds.
-n NUM   replaces only the first NUM matches of each file.
--preview  prints only the lines that replace would change, and touches no file: the number of the line, a hyphen and
         the line, and the number, a plus and what it becomes. On a terminal they are red and green. The name of the
         file is before them if there are several, and standard error has the number of such lines, and of files with
         them.
--in-place[=SUFFIX]  prints nothing, but puts what would be printed of each file in its place. There must be files,
         and `-` is none. All is written to a new file in its folder, NAME.replacer-0, or up to 99 if that is there.
         The new file gets the owner, the group and the permissions of the old one, and is renamed over it. With SUFFIX
         the old file stays under NAME and SUFFIX; if there is such a file, that is an error. After an error the old
         file is as it was, and the new one is removed. Times, access lists and other attributes are not kept, and
         other hard links stay links to the old file. A symbolic link stays, and the file to which it leads is replaced.
-h, --help  prints this, and nothing else.
--version   prints the name and the version of the program.

Status: 0 if the output was written, whether or not a pattern matched, and 2 after an error: if the arguments, a
pattern or a template are wrong or a file that is read is also the output, and then no file is touched; if a file
cannot be read, the output cannot be written or there is no memory. If nobody reads the output any more, the
program ends silently with status 141.

Examples:
replacer replace '(?<year>[0-9]+)-(?<month>[0-9]+)' '$month.$year' dates
    prints the file with each `2026-11` as `11.2026`.
replacer replace -e cat -t dog -e dog -t cat pets
    prints the file with cats for dogs, and dogs for cats.
replacer replace '[a-z]+' '\\u$0' names
    prints the file with a capital at the start of each word.
replacer -F --in-place=.old replace http:// https:// *.html
    changes the files, and keeps each old one under its name and `.old`.
replacer splitn ', *' 2 < list
    prints the first field of each line, and a line with the rest.
replacer --whole replace '\\s+$' '' notes
    prints the file without the white space at its end.";

/// What to do at the matches of a text.
#[derive(Clone, Copy)]
pub enum Command<'w> {
    /// Replace each match by the template that has the number of its pattern, or by nothing if there is none.
    Replace(&'w [Vec<Stretch>]),
    /// Print the text between the matches.
    Split,
    /// The same, but at most this many fields.
    SplitN(usize),
}

/// Patterns, what to do at their matches, and how a text is read.
#[derive(Clone, Copy)]
pub struct Request<'w> {
    /// The patterns, numbered from 0 on. If two match from one place, the earlier one is preferred.
    pub patterns: &'w [String],
    /// Whether the patterns are texts, in which no character has a meaning of its own.
    pub fixed: bool,
    /// Whether letters match in either case.
    pub ignore_case: bool,
    pub command: Command<'w>,
    /// Whether the text is taken as a whole, and not line by line.
    pub whole: bool,
    /// At most this many matches of the text are replaced, if there is a limit.
    pub limit: Option<usize>,
}

/// The commands.
#[derive(Clone, Copy)]
pub enum Task {
    /// Replace each match by a template.
    Replace,
    /// Print the text between the matches.
    Split,
    /// The same, but at most this many fields.
    SplitN(usize),
}

/// Where the result goes.
#[derive(Clone, Copy)]
pub enum Target<'w> {
    /// Standard output.
    Output,
    /// The place of each file. If there is a suffix, the old file stays under its name with the suffix.
    Files(Option<&'w str>),
}

/// The settings that options change.
#[derive(Clone, Copy)]
pub struct Settings<'w> {
    /// Whether the patterns are texts, in which no character has a meaning of its own.
    pub fixed: bool,
    /// Whether letters match in either case.
    pub ignore_case: bool,
    /// Whether the text is taken as a whole, and not line by line.
    pub whole: bool,
    /// At most this many matches of the text are replaced, if there is a limit.
    pub limit: Option<usize>,
    pub target: Target<'w>,
    /// Whether only the lines that change are printed, and no file is touched.
    pub preview: bool,
}

/// The work that the arguments ask for.
#[derive(Drop)]
pub struct Arguments<'w> {
    pub task: Task,
    pub settings: Settings<'w>,
    /// The patterns, in order.
    pub patterns: Vec<String>,
    /// The template of each pattern, as it was given; none if nothing is replaced.
    pub templates: Vec<&'w [u8]>,
    /// The names of the inputs, in order; standard input if there are none.
    pub files: Vec<&'w str>,
}

impl Task {
    /// Returns what is to be done with these patterns, if these are the stretches of their templates.
    pub fn request<'r>(
        self,
        settings: Settings<'_>,
        patterns: &'r [String],
        templates: &'r [Vec<Stretch>],
    ) -> Request<'r> {
        let command = match self {
            Task::Replace => Command::Replace(templates),
            Task::Split => Command::Split,
            Task::SplitN(limit) => Command::SplitN(limit),
        };
        Request {
            patterns,
            fixed: settings.fixed,
            ignore_case: settings.ignore_case,
            command,
            whole: settings.whole,
            limit: settings.limit,
        }
    }
}

/// What the arguments ask for.
#[derive(Drop)]
pub enum Asked<'w> {
    /// Print the help.
    Help,
    /// Print the version.
    Version,
    /// Replace, or print fields.
    Work(Arguments<'w>),
}
