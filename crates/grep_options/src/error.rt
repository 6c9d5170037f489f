//! Why the arguments cannot be obeyed.
use std::alloc::{AllocError, AllocFailed};
use std::{fmt, io};

/// Why the arguments, or the files with patterns that they name, are of no use.
#[derive(Drop)]
pub enum OptionsError {
    /// Allocation failed.
    Memory,
    /// The argument of this number, from 1, is not UTF-8. This is its text, as far as it is one.
    NotText(usize, String),
    /// The arguments could not be read.
    Arguments(io::Error),
    /// The value of `-m` is not a number.
    Limit,
    /// The value of `-A`, `-B` or `-C` is not a number.
    Context,
    /// This glob has a class of characters in a set.
    Class(String),
    /// This pattern may mean something else in grep's basic syntax.
    Basic(String),
    /// This pattern may mean something else in Perl's syntax.
    Perl(String),
    /// The file with patterns that has this name could not be read.
    PatternFile { name: String, error: io::Error },
}

impl fmt::Display for OptionsError {
    ghost use Rattle.grep_options.specs.Texts.{options_error_text};

    ghost output = { options_error_text };

    fn fmt<W: fmt::Write>(&self, f: &mut fmt::Formatter<W>) -> fmt::Result {
        match self {
            OptionsError::Memory => f.write_str("out of memory"),
            OptionsError::NotText(number, text) => {
                write!(f, "argument {number} is not UTF-8: {text}")
            }
            OptionsError::Arguments(error) => write!(f, "cannot read the arguments: {error}"),
            OptionsError::Limit => f.write_str("invalid max count"),
            OptionsError::Context => f.write_str("invalid context length argument"),
            OptionsError::Class(glob) => write!(f, "{glob}: write [a-z] and not [[:lower:]]"),
            OptionsError::Basic(pattern) => {
                write!(f, "{pattern}: write it as for -E, and -E and not -G")
            }
            OptionsError::Perl(pattern) => {
                write!(f, "{pattern}: write it as for -E, and -E and not -P")
            }
            OptionsError::PatternFile { name, error } => write!(f, "{name}: {error}"),
        }
    }
}

impl From<AllocError> for OptionsError {
    ghost use Rattle.std.specs.Prelude.{◌≡◌};
    ghost use Rattle.grep_options.specs.declared.error.OptionsError.TheVariants as error;

    ghost from_gives = { λ _ made. made ≡ error.Memory };

    fn from(_: AllocError) -> OptionsError {
        OptionsError::Memory
    }
}

impl<T: Drop> From<AllocFailed<T>> for OptionsError {
    ghost use Rattle.std.specs.Prelude.{◌≡◌};
    ghost use Rattle.grep_options.specs.declared.error.OptionsError.TheVariants as error;

    ghost from_gives = { λ _ made. made ≡ error.Memory };

    fn from(_: AllocFailed<T>) -> OptionsError {
        OptionsError::Memory
    }
}
