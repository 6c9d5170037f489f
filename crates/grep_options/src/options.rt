//! The options: which lines are selected, and what is printed of them.
use crate::colours::Colours;

/// What bounds a match.
#[derive(Clone, Copy)]
pub enum Bounds {
    /// Nothing.
    Anywhere,
    /// A match has no letter, digit or underscore next to it.
    Words,
    /// A match is a whole line.
    Line,
}

/// The options that change which lines are selected, and what is printed of a line.
#[derive(Clone, Copy)]
pub struct Options<'c> {
    /// The patterns are texts, in which no character has a meaning of its own.
    pub fixed: bool,
    /// Letters match in upper case and in lower case.
    pub ignore_case: bool,
    /// What bounds a match.
    pub bounds: Bounds,
    /// The byte at the end of a line.
    pub end: u8,
    /// Select the lines in which no pattern matches.
    pub inverted: bool,
    /// Print each match on a line of its own.
    pub only: bool,
    /// Print the name of the input.
    pub named: bool,
    /// Print a byte 0 after a name, and not what else is there.
    pub zero_names: bool,
    /// Print the numbers, from 0, of the patterns that match in the line.
    pub which: bool,
    /// Print the number of the line, from 1.
    pub numbers: bool,
    /// Print the offset of the line, or of the match, in bytes from the start of the input.
    pub offsets: bool,
    /// Print a tab between what comes before a line and the line.
    pub tabbed: bool,
    /// Numbers of lines and offsets with fewer digits than this have blanks before them.
    pub width: usize,
    /// Print matches, and what comes before lines, in these colours.
    pub colours: Option<Colours<'c>>,
}

/// When colours are printed.
#[derive(Clone, Copy)]
pub enum When {
    Never,
    /// If the output is a terminal that has colours.
    Auto,
    Always,
}

/// What is done with files that are not text.
#[derive(Clone, Copy, PartialEq, Eq)]
pub enum BinaryFiles {
    /// Their lines are not printed, but a message if one is selected.
    Message,
    /// They are searched as text.
    Text,
    /// No line of them is selected.
    WithoutMatch,
}

/// What is done with folders.
#[derive(Clone, Copy, PartialEq, Eq)]
pub enum Folders {
    /// They are read as files, which is an error.
    Read,
    /// They are searched, with all in them.
    Recurse,
    /// They are passed over.
    Skip,
}

/// Which devices, pipes and sockets are searched.
#[derive(Clone, Copy, PartialEq, Eq)]
pub enum Devices {
    /// Those that an argument names.
    Named,
    /// All of them.
    Read,
    /// None of them.
    Skip,
}

/// Which lines around a selected one are printed, too.
#[derive(Clone, Copy)]
pub struct Context<'s, 'c> {
    /// This many lines before it.
    pub before: usize,
    /// This many lines after it.
    pub after: u64,
    /// Print the separator, as a line, between groups of lines that are not next to each other in an input.
    pub separated: bool,
    /// The colours that it is printed in.
    pub colours: Option<Colours<'c>>,
    pub separator: &'s [u8],
}

/// What is printed of an input.
#[derive(Clone, Copy, PartialEq, Eq)]
pub enum Report {
    /// The selected lines.
    Lines,
    /// The number of selected lines.
    Count,
    /// The name of the input, if a line is selected.
    With,
    /// The name of the input, if no line is selected.
    Without,
    /// Nothing.
    Nothing,
}

impl Report {
    ghost use Rattle.std.specs.Prelude.{◌≡◌};
    ghost use Rattle.grep_options.specs.Reports.{limit_of, shows};

    /// Returns whether selected lines are printed.
    pub fn shows(self) -> bool
        ensures { result ≡ shows self }
    {
        self == Report::Lines
    }

    /// Returns after how many selected lines a search ends that would end after this number: after one, if only it
    /// matters.
    pub fn limit(self, limit: u64) -> u64
        ensures { result ≡ limit_of self limit }
    {
        match self {
            Report::Lines | Report::Count => limit,
            Report::With | Report::Without | Report::Nothing => limit.min(1),
        }
    }
}

/// What is searched for in one input.
#[derive(Clone, Copy)]
pub struct Request<'n, 'c> {
    /// The name of the input, as it is printed.
    pub name: &'n str,
    /// What is printed of it.
    pub report: Report,
    /// The search ends after this many selected lines.
    pub limit: u64,
    /// Which lines around a selected one are printed.
    pub context: Context<'n, 'c>,
    /// Some line of an input before this one was selected.
    pub used: bool,
    /// A line on standard error says how far the search is, and is erased before a message.
    pub progress: bool,
}
