//! Which files are left out of the search, by the globs of `--include`, `--exclude` and `--exclude-dir`.
ghost use Rattle.std.specs.Prelude.{◌≡◌, IfOk};
ghost use Rattle.grep_options.specs.Globs.{begins_with_included, decided, is_left_out, rule_fits};

use crate::glob::{Letter, Token, chars_of, letters_of, tokens_of};
use crate::matching::{parts_match, some_tail_matches};
use std::alloc::{AllocError, Global};

/// A glob, and whether files whose names it matches are left in or out.
#[derive(Clone, Copy)]
pub struct Rule<'w> {
    /// The place of the glob among the arguments.
    pub place: usize,
    /// The files are left in, and not out.
    pub included: bool,
    pub glob: &'w str,
}

/// Returns whether these rules leave the name out. The last one that fits it decides. If none does, the name is left
/// out if the first rule says what is left in. A name that is an argument is matched from any slash on, too.
pub fn is_left_out(
    alloc: Global,
    rules: &[Rule<'_>],
    named: bool,
    name: &str,
) -> Result<bool, AllocError>
    ensures { IfOk result (λ out. out ≡ is_left_out named rules.now name.now) }
{
    let text = chars_of(alloc, name)?;
    decide(alloc, rules, named, &text, begins_with_included(rules))
}

/// Returns whether the last one of these rules that fits leaves the name out, or `out` if none fits.
fn decide(
    alloc: Global,
    rules: &[Rule<'_>],
    named: bool,
    text: &[char],
    out: bool,
) -> Result<bool, AllocError>
    ensures { IfOk result (λ decision. decision ≡ decided named text.now out rules.now) }
{
    match rules {
        [] => Ok(out),
        [first, others @ ..] => {
            let fits = rule_fits(alloc, *first, named, text)?;
            let out = if fits { !first.included } else { out };
            decide(alloc, others, named, text, out)
        }
    }
}

/// Returns whether the first rule says what is left in.
fn begins_with_included(rules: &[Rule<'_>]) -> bool
    ensures { result ≡ begins_with_included rules.now }
{
    match rules {
        [] => false,
        [first, ..] => first.included,
    }
}

/// Returns whether the rule fits the name, of these characters.
fn rule_fits(alloc: Global, rule: Rule<'_>, named: bool, text: &[char]) -> Result<bool, AllocError>
    ensures { IfOk result (λ fits. fits ≡ rule_fits named text.now rule.entry) }
{
    let letters = letters_of(alloc, rule.glob)?;
    let tokens = tokens_of(alloc, &letters)?;
    Ok(parts_match(&tokens, text) || named && some_tail_matches(&tokens, text))
}

/// Returns whether a set in the glob has a class, as `[:alpha:]`, which globs do not have here.
pub fn has_class(alloc: Global, glob: &str) -> Result<bool, AllocError> {
    let letters = letters_of(alloc, glob)?;
    let tokens = tokens_of(alloc, &letters)?;
    Ok(tokens.iter().any(|token| begins_class(token)))
}

/// Returns whether a class begins in the set.
fn begins_class(token: &Token<'_>) -> bool {
    match token {
        Token::Set(_, letters) => has_class_start(letters),
        _ => false,
    }
}

/// Returns whether a bracket and one of the characters that begin a class are among these.
fn has_class_start(letters: &[Letter]) -> bool {
    let mut after_bracket = false;
    for letter in letters {
        if after_bracket && matches!(letter.value, ':' | '=' | '.') {
            return true;
        }
        after_bracket = letter.means('[');
    }
    false
}
