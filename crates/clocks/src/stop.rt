//! Why the program stops before it is done.
ghost use Rattle.std.specs.Prelude.{◌≤◌};

use nfa_compiler::CompileError;
use nfa_engines::error::SearchError;
use nfa_lazy_dfa::StopError;
use nfa_meta::BuildError;
use nfa_samples::named_engine::Failure;
use std::alloc::AllocError;
use std::fmt;

/// The pattern or the search was refused, or reading or writing failed.
pub const FAILED: u8 = 1;

/// The arguments are not those of the program.
const MISUSED: u8 = 2;

const USAGE: &str =
    "usage: clocks [back|pike|dfa[-windows]|meta[-CALL]|regex[-CALL] PATTERN ROUNDS|states PATTERN]";

/// Why the program stops before it is done.
#[derive(Debug, Drop)]
pub enum Stop {
    Usage,
    Pattern(CompileError),
    OtherPattern(regex::Error),
    Lazy(StopError),
    Failed(Failure),
}

impl Stop {
    /// The status to end with.
    pub fn status(&self) -> u8
        ensures { result ≤ 2 }
    {
        match self {
            Stop::Usage => MISUSED,
            Stop::Pattern(_) | Stop::OtherPattern(_) | Stop::Lazy(_) | Stop::Failed(_) => FAILED,
        }
    }
}

impl fmt::Display for Stop {
    fn fmt<W: fmt::Write>(&self, f: &mut fmt::Formatter<W>) -> fmt::Result {
        match self {
            Stop::Usage => f.write_str(USAGE),
            Stop::Pattern(error) => write!(f, "{error}"),
            Stop::OtherPattern(error) => write!(f, "{error}"),
            Stop::Lazy(error) => write!(f, "the lazy DFA has no answer: {error}"),
            Stop::Failed(failure) => write!(f, "{failure}"),
        }
    }
}

impl From<CompileError> for Stop {
    fn from(error: CompileError) -> Stop {
        Stop::Pattern(error)
    }
}

impl From<BuildError> for Stop {
    fn from(error: BuildError) -> Stop {
        match error {
            BuildError::Memory => Stop::Failed(Failure::Memory),
            BuildError::Compile(error) => Stop::Pattern(error),
        }
    }
}

impl From<regex::Error> for Stop {
    fn from(error: regex::Error) -> Stop {
        match error {
            regex::Error::OutOfMemory => Stop::Failed(Failure::Memory),
            error => Stop::OtherPattern(error),
        }
    }
}

impl From<thompson_nfa::BuildError> for Stop {
    fn from(error: thompson_nfa::BuildError) -> Stop {
        Stop::Failed(Failure::from(error))
    }
}

impl From<StopError> for Stop {
    fn from(error: StopError) -> Stop {
        match error {
            StopError::Memory => Stop::Failed(Failure::Memory),
            error => Stop::Lazy(error),
        }
    }
}

impl From<SearchError> for Stop {
    fn from(error: SearchError) -> Stop {
        Stop::Failed(Failure::from(error))
    }
}

impl From<AllocError> for Stop {
    fn from(error: AllocError) -> Stop {
        Stop::Failed(Failure::from(error))
    }
}

impl From<Failure> for Stop {
    fn from(failure: Failure) -> Stop {
        Stop::Failed(failure)
    }
}
