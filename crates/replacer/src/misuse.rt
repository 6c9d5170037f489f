//! What is wrong with arguments.
use program_text::words::NotText;
use std::alloc::{AllocError, AllocFailed};
use std::fmt;

/// Why the arguments are wrong.
#[derive(Clone, Copy)]
pub enum Misuse<'w> {
    /// They are not: allocation failed.
    Memory,
    /// There is no command.
    NoCommand,
    /// There is no such command.
    NoSuch(&'w str),
    /// There is no such option.
    NoOption(&'w str),
    /// This word is not UTF-8.
    NotText(NotText<'w>),
    /// The command has too few arguments: it needs these.
    Short(&'static str),
    /// This word is not a number.
    NoNumber(&'w str),
    /// The last word is an option that needs this value.
    NoValue(&'static str),
    /// A template has no pattern before it, or two templates have the same one.
    NoPattern,
    /// Some patterns have a template, and others have none.
    NoTemplate,
    /// Templates are given, and nothing is replaced.
    TemplateOfFields,
    /// The matches to be replaced are limited, and the command replaces none.
    LimitOfFields,
    /// Only changes are printed, and lines are split, an input is one text, or the matches to be replaced are limited.
    NoPreview,
    /// The suffix is empty or has a slash.
    NoSuffix,
    /// Files are to be replaced, and there is none, or standard input is one.
    NoFiles,
}

impl fmt::Display for Misuse<'_> {
    fn fmt<W: fmt::Write>(&self, f: &mut fmt::Formatter<W>) -> fmt::Result {
        match self {
            Misuse::Memory => f.write_str("out of memory"),
            Misuse::NoCommand => f.write_str("one of replace, split and splitn is needed"),
            Misuse::NoSuch(word) => write!(f, "there is no command {word}"),
            Misuse::NoOption(word) => write!(
                f,
                "there is no option {word}; after -- no word is one"
            ),
            Misuse::NotText(error) => fmt::Display::fmt(error, f),
            Misuse::Short(needs) | Misuse::NoValue(needs) => f.write_str(needs),
            Misuse::NoNumber(word) => write!(f, "{word} is not a number, or too large"),
            Misuse::NoPattern => f.write_str("-t needs an -e before it, and each -e has one -t"),
            Misuse::NoTemplate => f.write_str("-t is needed after each -e, or after none"),
            Misuse::TemplateOfFields => f.write_str("-t is for replace"),
            Misuse::LimitOfFields => f.write_str("-n is for replace; splitn has a limit"),
            Misuse::NoPreview => f.write_str("--preview is for replace, without --whole and -n"),
            Misuse::NoSuffix => f.write_str("--in-place= needs a suffix without a slash"),
            Misuse::NoFiles => f.write_str("--in-place needs the names of files, and - is none"),
        }
    }
}

impl<'w> From<NotText<'w>> for Misuse<'w> {
    fn from(error: NotText<'w>) -> Misuse<'w> {
        Misuse::NotText(error)
    }
}

impl From<AllocError> for Misuse<'_> {
    fn from(_: AllocError) -> Self {
        Misuse::Memory
    }
}

impl<T: Drop> From<AllocFailed<T>> for Misuse<'_> {
    fn from(_: AllocFailed<T>) -> Self {
        Misuse::Memory
    }
}
