//! The rules of a language: in each line of a text the name of a rule, `=`, and its pattern.
ghost use Rattle.std.specs.Prelude.{◌≡◌, ◌≤◌, ◌<◌, ◌+◌, ◌-◌, ◌^◌, IfErr, IfNone, IfOk, IfSome, chars, length, map};
ghost use Rattle.std.specs.Str.{trim_start};
ghost use Rattle.std.specs.Str.Lines.{lines};
ghost use Rattle.nfa_compiler.specs.Rejected.{IsOfOneText, NamesText, TextsFitIn};
ghost use Rattle.nfa_compiler.specs.declared.error.CompileError.TheVariants.{Syntax, TooBig};
ghost use Rattle.nfa_compiler.specs.Written.{byte_syntax};
ghost use Rattle.nfa_meta.specs.Built.{IsRegexOf};
ghost use Rattle.lexer.specs.Rules.{IsCompileMistake, AreRulesOf, HasRule, IsRuleOf, IsRulesError};
ghost use Rattle.lexer.specs.Rules.{is_left_out, rule_patterns};

use nfa_compiler::{CompileError, SyntaxError};
use nfa_meta::{BuildError, Regex};
use std::alloc::{AllocError, AllocFailed, Global};
use std::fmt;

/// The rules of the program if no others are given.
///
/// A string is of any bytes without a line feed, and a backslash keeps the byte after it. The operators of two bytes
/// come before those of one, so they are preferred.
pub const DEFAULT: &str = concat!(
    "identifier = [A-Za-z_][0-9A-Za-z_]*\n",
    "number = [0-9]+(?:\\.[0-9]+)?\n",
    "string = \"(?:(?-u:[^\\n\"\\\\])|\\\\(?-u:[^\\n]))*\"\n",
    "space = [\\t\\n\\r ]+\n",
    "operator = ==|!=|<=|>=|->|[!%&(-/:->{-}]\n",
);

/// A rule: what matches its pattern is a token of its name.
#[derive(Clone, Copy)]
pub struct Rule<'t> {
    pub name: &'t str,
    pub pattern: &'t str,
    /// Whether the text of a token is left out of its line: that of `space`.
    pub hidden: bool,
    /// The number of its line, from 1.
    pub line: usize,
    /// The character of the line, from 1, where the pattern starts.
    pub column: usize,
}

/// Why a text is not a list of rules. Lines and columns are numbered from 1, and columns count characters.
#[derive(Debug, Drop)]
pub enum RulesError {
    /// The line has no name, no `=` or no pattern.
    NoRule {
        line: usize,
    },
    /// The pattern of the line is not one, for a reason that is at this column.
    NoPattern {
        line: usize,
        column: usize,
        reason: &'static str,
    },
    /// The pattern of the line exceeds this size limit, in bytes.
    TooLarge {
        line: usize,
        limit: usize,
    },
    /// Allocation failed, or the patterns need more states, numbers or slots than an NFA has.
    Compile(CompileError),
}

impl fmt::Display for RulesError {
    ghost use Rattle.std.specs.Prelude.{Some};
    ghost use Rattle.lexer.specs.Rules.{rules_error_text};

    ghost output = { λ e. Some (rules_error_text e) };

    fn fmt<W: fmt::Write>(&self, f: &mut fmt::Formatter<W>) -> fmt::Result {
        match self {
            RulesError::NoRule { line } => {
                write!(f, "line {line} of the rules is not NAME = PATTERN")
            }
            RulesError::NoPattern {
                line,
                column,
                reason,
            } => { write!(f, "line {line} of the rules, column {column}: {reason}") }
            RulesError::TooLarge { line, limit } => {
                write!(
                    f,
                    "line {line} of the rules: the pattern exceeds the size limit of {limit} bytes"
                )
            }
            RulesError::Compile(error) => write!(f, "{error}"),
        }
    }
}

impl std::error::Error for RulesError {}

impl<T: Drop> From<AllocFailed<T>> for RulesError {
    ghost use Rattle.std.specs.Prelude.{◌≡◌};
    ghost use Rattle.nfa_compiler.specs.declared.error.CompileError.TheVariants.{Memory};
    ghost use Rattle.lexer.specs.declared.rules.RulesError.TheVariants as error;

    ghost from_gives = { λ _ made. made ≡ error.Compile Memory };

    fn from(_: AllocFailed<T>) -> RulesError {
        RulesError::Compile(CompileError::Memory)
    }
}

impl From<AllocError> for RulesError {
    ghost use Rattle.std.specs.Prelude.{◌≡◌};
    ghost use Rattle.nfa_compiler.specs.declared.error.CompileError.TheVariants.{Memory};
    ghost use Rattle.lexer.specs.declared.rules.RulesError.TheVariants as error;

    ghost from_gives = { λ _ made. made ≡ error.Compile Memory };

    fn from(_: AllocError) -> RulesError {
        RulesError::Compile(CompileError::Memory)
    }
}

/// Returns the rules of the lines of the text, in order. Lines that are empty but for white space, and lines that start
/// with `#`, have none.
///
/// Fails with [`RulesError::NoRule`] at the first other line that has no rule, or if allocation failed.
pub fn parse<'t>(alloc: Global, text: &'t str) -> Result<Vec<Rule<'t>>, RulesError>
    ensures rules { IfOk result (λ rules. AreRulesOf (lines text.now) rules.items) }
    ensures error { IfErr result (IsRulesError (lines text.now)) }
{
    let lines = lines_of(alloc, text)?;
    rules_of(alloc, &lines)
}

/// Returns the lines of the text, each without its end.
fn lines_of<'t>(alloc: Global, text: &'t str) -> Result<Vec<&'t str>, AllocError>
    ensures { IfOk result (λ found. map (λ line. line.now) found.items ≡ lines text.now) }
{
    text.lines().collect(alloc)
}

/// Returns the rules of these lines.
fn rules_of<'t>(alloc: Global, lines: &[&'t str]) -> Result<Vec<Rule<'t>>, RulesError>
    ensures rules { IfOk result (λ rules. AreRulesOf (map (λ line. line.now) lines.now) rules.items) }
    ensures error { IfErr result (IsRulesError (map (λ line. line.now) lines.now)) }
{
    let mut rules = Vec::new(alloc);
    for (index, line) in lines.iter().enumerate() {
        let number = index + 1;
        if is_left_out(line) {
            continue;
        }
        match rule_of(line, number) {
            Some(rule) => rules.push(rule)?,
            None => return Err(RulesError::NoRule { line: number }),
        }
    }
    Ok(rules)
}

/// Returns whether the line is empty but for white space, or starts with `#`.
fn is_left_out(line: &str) -> bool
    ensures { result ≡ is_left_out line.now }
{
    line.trim().is_empty() || line.starts_with('#')
}

/// Returns the rule of the line of this number: the name is before the first `=` and the pattern after it, both without
/// white space around them. Returns `None` if one of the three is missing.
fn rule_of<'t>(line: &'t str, number: usize) -> Option<Rule<'t>>
    ensures rule { IfSome result (IsRuleOf line.now) }
    ensures number { IfSome result (λ rule. rule.line ≡ number) }
    ensures none { IfNone result (¬ HasRule line.now) }
{
    let (before, behind) = line.split_once('=')?;
    let (name, pattern) = (before.trim(), behind.trim());
    if name.is_empty() || pattern.is_empty() {
        return None;
    }
    Some(Rule {
        name,
        pattern,
        hidden: name == "space",
        line: number,
        column: column_of(before, behind),
    })
}

/// Returns the number of the character, from 1, at which the pattern starts: after the `=` and white space.
fn column_of(before: &str, behind: &str) -> usize
    requires { length before.now + length behind.now < 2 ^ 63 }
    ensures { result ≡ length (chars before.now)
        + (length (chars behind.now) - length (chars (trim_start behind.now))) + 2 }
{
    let space = char_count(behind).saturating_sub(char_count(behind.trim_start()));
    char_count(before) + space + 2
}

/// Returns the number of characters of the text.
#[tactic(auto, using(std::proofs::lemmas::Str::chars_from_encodes))]
fn char_count(text: &str) -> usize
    ensures value { result ≡ length (chars text.now) }
    ensures bound { result ≤ length text.now }
{
    text.chars().count()
}

/// Makes one regex of the patterns of these rules. Each search is bound to its start, and patterns match bytes.
pub fn compile(alloc: Global, rules: &[Rule<'_>]) -> Result<Regex, RulesError>
    ensures compiled { IfOk result (IsRegexOf (rule_patterns rules.now)) }
    ensures fits { IfOk result (λ _. TextsFitIn 10485760 byte_syntax (rule_patterns rules.now)) }
    ensures error { IfErr result (IsCompileMistake rules.now) }
{
    let patterns = patterns_of(alloc, rules)?;
    let config = Regex::config().utf8(false).anchored(true);
    match Regex::builder()
        .configure(config)
        .build_many(alloc, &patterns)
    {
        Ok(regex) => Ok(regex),
        Err(BuildError::Memory) => Err(RulesError::Compile(CompileError::Memory)),
        Err(BuildError::Compile(error)) => Err(refusal(rules, error)),
    }
}

/// Returns the error of the compiler as one of the rules.
fn refusal(rules: &[Rule<'_>], error: CompileError) -> RulesError
    requires rejected { IsOfOneText byte_syntax (rule_patterns rules.now) error }
    requires named { NamesText byte_syntax 10485760 (rule_patterns rules.now) error }
    ensures { IsCompileMistake rules.now result }
{
    match error {
        CompileError::Syntax(error) => syntax_error(rules, &error),
        CompileError::TooBig { pattern, limit } => too_large(rules, pattern, limit),
        error => RulesError::Compile(error),
    }
}

/// Returns the patterns of these rules.
fn patterns_of<'t>(alloc: Global, rules: &[Rule<'t>]) -> Result<Vec<&'t str>, AllocError>
    ensures { IfOk result (λ patterns.
        map (λ text. text.now) patterns.items ≡ rule_patterns rules.now) }
{
    let mut patterns = Vec::new(alloc);
    for rule in rules {
        patterns.push(rule.pattern)?;
    }
    Ok(patterns)
}

/// Returns the error as one of the line that has the pattern.
fn syntax_error(rules: &[Rule<'_>], error: &SyntaxError) -> RulesError
    requires { IsOfOneText byte_syntax (rule_patterns rules.now) (Syntax error.now) }
    ensures { IsCompileMistake rules.now result }
{
    let rule = &rules[error.pattern()];
    let (before, _) = error.text().split_at(error.span().start);
    RulesError::NoPattern {
        line: rule.line,
        column: rule.column.saturating_add(char_count(before)),
        reason: error.reason(),
    }
}

/// Returns the error that the pattern of this rule exceeds the size limit.
fn too_large(rules: &[Rule<'_>], pattern: usize, limit: usize) -> RulesError
    requires within { pattern < length rules.now }
    requires named { NamesText byte_syntax 10485760 (rule_patterns rules.now) (TooBig pattern limit) }
    ensures { IsCompileMistake rules.now result }
{
    RulesError::TooLarge {
        line: rules[pattern].line,
        limit,
    }
}
