//! The pattern of a line: its columns and its NFA.
ghost use Rattle.std.specs.Prelude.{◌≡◌, ◌∷◌, ◌++◌, [], IfErr, IfOk, List, OnOk, Option, map, option_map};
ghost use Rattle.std.specs.Prelude.{string_bytes, ℕ};
ghost use Rattle.nfa_compiler.specs.Compiled.{IsNamed};
ghost use Rattle.nfa_compiler.specs.Rejected.{TextsFitIn};
ghost use Rattle.nfa_compiler.specs.Written.{byte_syntax};
ghost use Rattle.nfa_meta.specs.Built.{IsRegexOf};
ghost use Rattle.log_extractor.specs.Fields.{IsPatternMistake, columns_in, group_of};
ghost use Rattle.log_extractor.specs.Fields.{named_groups};

use nfa_compiler::{OnlyPattern, Syntax};
use nfa_meta::{BuildError, Regex};
use std::alloc::{AllocError, AllocFailed, Global};
use thiserror::Error;

/// What a log line looks like, if no other pattern is given: `2026-11-22 14:03:07 ERROR disk full`. A message may be
/// empty, and of bytes that are not text.
pub const LINE: &str = concat!(
    "(?<date>[0-9]{4}-[0-9]{2}-[0-9]{2}) (?<time>[0-9]{2}:[0-9]{2}:[0-9]{2}) ",
    r"(?<level>[A-Z]+) (?<message>(?s-u:.)*)\z",
);

/// A line of the system's log: `Nov 22 14:03:07 host program[17]: message`, with or without the number of the process,
/// and with a time as `2026-11-22T14:03:07.123456+01:00` too.
pub const SYSLOG: &str = concat!(
    r"(?s-u)(?<time>[A-Z][a-z]{2} [ 0-9][0-9] [0-9:]{8}|[0-9]{4}-[^ ]+) (?<host>[^ ]+) ",
    r"(?<program>[^ :\[]+)(?:\[(?<pid>[0-9]+)\])?: (?<message>.*)\z",
);

/// A line of a web server's log in the combined format. A quote in a quoted field has a backslash before it.
pub const COMBINED: &str = concat!(
    r"(?s-u)(?<host>[^ ]+) (?<ident>[^ ]+) (?<user>[^ ]+) \[(?<time>[^\]]+)\] ",
    r#""(?<request>(?:[^"\\]|\\.)*)" (?<status>[0-9]{3}) (?<bytes>[0-9]+|-) "#,
    r#""(?<referer>(?:[^"\\]|\\.)*)" "(?<agent>(?:[^"\\]|\\.)*)"\z"#,
);

/// A column: a group of the pattern that has a name.
#[derive(Drop)]
pub struct Column {
    pub group: usize,
    pub name: String,
}

/// Why a text is not a pattern of lines.
#[derive(Debug, Drop, Error)]
pub enum PatternError {
    /// Allocation failed.
    #[error("out of memory")]
    Memory,
    /// The text is not a pattern, or the pattern is too large.
    #[error(transparent)]
    Compile(OnlyPattern),
    /// No group of the pattern has a name, so there are no columns.
    #[error("the pattern has no named group, such as (?<level>[A-Z]+)")]
    NoColumns,
}

impl From<AllocError> for PatternError {
    ghost use Rattle.std.specs.Prelude.{◌≡◌};
    ghost use Rattle.log_extractor.specs.declared.pattern.PatternError.TheVariants as error;

    ghost from_gives = { λ _ made. made ≡ error.Memory };

    fn from(_: AllocError) -> PatternError {
        PatternError::Memory
    }
}

impl<T: Drop> From<AllocFailed<T>> for PatternError {
    ghost use Rattle.std.specs.Prelude.{◌≡◌};
    ghost use Rattle.log_extractor.specs.declared.pattern.PatternError.TheVariants as error;

    ghost from_gives = { λ _ made. made ≡ error.Memory };

    fn from(_: AllocFailed<T>) -> PatternError {
        PatternError::Memory
    }
}

/// Makes a regex of the text of a pattern. A match is bound to the start of the line, and may be of any bytes.
pub fn compile(alloc: Global, text: &str) -> Result<Regex, PatternError>
    ensures compiled { IfOk result (IsRegexOf (text.now ∷ [])) }
    ensures fits { IfOk result (λ _. TextsFitIn 10485760 byte_syntax (text.now ∷ [])) }
    ensures mistake { IfErr result (IsPatternMistake text.now) }
{
    let config = Regex::config().utf8(false).anchored(true);
    match Regex::builder().configure(config).build(alloc, text) {
        Ok(regex) => Ok(regex),
        Err(BuildError::Memory) => Err(PatternError::Memory),
        Err(BuildError::Compile(error)) => Err(PatternError::Compile(OnlyPattern(error))),
    }
}

/// Reads the columns of a pattern. The text is read once more for that, as an NFA does not give the names of groups.
pub fn columns(alloc: Global, text: &str) -> Result<Vec<Column>, PatternError>
    ensures read { IfOk result (λ columns. (names : List (Option (List ℕ))) → IsNamed byte_syntax text.now names
        → map group_of columns.items ≡ columns_in names) }
    ensures mistake { IfErr result (IsPatternMistake text.now) }
{
    let syntax = Syntax {
        utf8: false,
        ..Syntax::default()
    };
    match regex_syntax::parse(alloc, text, &syntax) {
        Ok(tree) => Ok(named_columns(alloc, &tree.names)?),
        // The text was compiled before, so it is a pattern.
        Err(_) => Err(PatternError::Memory),
    }
}

/// Returns the groups that have a name.
fn named_columns(alloc: Global, names: &[Option<String>]) -> Result<Vec<Column>, AllocError>
    ensures { IfOk result (λ columns. map group_of columns.items
        ≡ named_groups 0 (map (option_map string_bytes) names.now)) }
{
    let mut columns = Vec::new(alloc);
    for (group, name) in names.iter().enumerate() {
        push_named(group, name, &mut columns)?;
    }
    Ok(columns)
}

/// Adds the group to the columns, if it has a name.
fn push_named(
    group: usize,
    name: &Option<String>,
    columns: &mut Vec<Column>,
) -> Result<(), AllocError>
    ensures { OnOk result (map group_of columns.new.items
        ≡ map group_of columns.old.items ++ named_groups group (option_map string_bytes name.now ∷ [])) }
{
    let Some(name) = name else {
        return Ok(());
    };
    columns.push(Column {
        group,
        name: name.clone()?,
    })?;
    Ok(())
}
