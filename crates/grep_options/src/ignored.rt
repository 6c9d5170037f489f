//! Which paths the rules of files such as `.gitignore` leave out.
ghost use Rattle.std.specs.Prelude.{◌≡◌, ◌==◌, IfOk, false, map, not, true};
ghost use Rattle.std.specs.List.{list_all, slice_split};
ghost use Rattle.std.specs.Str.{chars};
ghost use Rattle.grep_options.specs.Globs.{is_match, is_nil, is_short, means, some_rest, takes_first};
ghost use Rattle.grep_options.specs.Ignored.{fits, is_deep, is_ignored, is_slash, name_fits, path_fits, said};

use crate::glob::{Letter, chars_of, has_open_set, tokens_of};
use crate::ignoring::{IgnoreRule, is_slash};
use crate::matching::{Outcome, parts_match};
use std::alloc::{AllocError, Global};

/// Returns whether these rules leave the path out, which is that of a folder or not. The last rule that fits decides.
pub fn is_ignored(
    alloc: Global,
    rules: &[IgnoreRule],
    folder: bool,
    path: &str,
) -> Result<bool, AllocError>
    ensures { IfOk result (λ ignored. ignored ≡ is_ignored (map said rules.now) folder (chars path.now)) }
{
    let path = chars_of(alloc, path)?;
    let names = names_of(alloc, &path)?;
    let mut out = false;
    for rule in rules {
        if fits(alloc, folder, &names, rule)? {
            out = !rule.included;
        }
    }
    Ok(out)
}

/// Returns the names of a path.
fn names_of<'p>(alloc: Global, path: &'p [char]) -> Result<Vec<&'p [char]>, AllocError>
    ensures { IfOk result (λ names. map (λ name. name.now) names.items ≡ slice_split (λ c. c == 47) path.entry.now) }
{
    path.split(|value| *value == '/').collect(alloc)
}

/// Returns the parts of a glob, which match names.
fn parts_of<'g>(alloc: Global, glob: &'g [Letter]) -> Result<Vec<&'g [Letter]>, AllocError>
    ensures { IfOk result (λ parts. map (λ part. part.now) parts.items ≡ slice_split is_slash glob.entry.now) }
{
    glob.split(|letter| is_slash(*letter)).collect(alloc)
}

/// Returns whether the rule is one for the path of these names, which is that of a folder or not.
fn fits(
    alloc: Global,
    folder: bool,
    names: &[&[char]],
    rule: &IgnoreRule,
) -> Result<bool, AllocError>
    ensures { IfOk result (λ yes. yes ≡ fits folder (map (λ name. name.now) names.now) (said rule.now)) }
{
    if rule.folders && !folder {
        return Ok(false);
    }
    let parts = parts_of(alloc, &rule.glob)?;
    path_fits(alloc, &parts, &names[rule.depth.min(names.len())..])
}

/// Returns whether these parts of a glob match the path of these names, in time that grows with their number times
/// that of the names.
fn path_fits(alloc: Global, parts: &[&[Letter]], names: &[&[char]]) -> Result<bool, AllocError>
    ensures { IfOk result (λ yes. yes
        ≡ path_fits (map (λ part. part.now) parts.now) (map (λ name. name.now) names.now)) }
{
    match outcome_of_names(alloc, parts, names)? {
        Outcome::Match => Ok(true),
        Outcome::Other | Outcome::Short => Ok(false),
    }
}

/// Matches the parts with all names. As in `matching`, the parts after `**` are tried at one name after another, until
/// they match or there are too few names for them.
#[cycle(names)]
fn outcome_of_names(
    alloc: Global,
    parts: &[&[Letter]],
    names: &[&[char]],
) -> Result<Outcome, AllocError>
    ensures matched { IfOk result (λ outcome. is_match outcome
        ≡ path_fits (map (λ part. part.now) parts.now) (map (λ name. name.now) names.now)) }
    ensures short { IfOk result (λ outcome. is_short outcome ≡ true
        → some_rest (path_fits (map (λ part. part.now) parts.now)) (map (λ name. name.now) names.now) ≡ false) }
{
    match parts {
        [] => match names {
            [] => Ok(Outcome::Match),
            _ => Ok(Outcome::Other),
        },
        [first, others @ ..] => {
            if !is_deep(first) {
                return outcome_of_name(alloc, first, others, names);
            }
            if others.is_empty() {
                return Ok(outcome_of_any(names));
            }
            outcome_of_later_names(alloc, others, names)
        }
    }
}

/// Matches this part with the first name, and the other ones with the other names.
#[cycle(names)]
fn outcome_of_name(
    alloc: Global,
    first: &[Letter],
    others: &[&[Letter]],
    names: &[&[char]],
) -> Result<Outcome, AllocError>
    ensures matched { IfOk result (λ outcome. is_match outcome
        ≡ takes_first (name_fits first.now) (path_fits (map (λ part. part.now) others.now))
        (map (λ name. name.now) names.now)) }
    ensures short { IfOk result (λ outcome. is_short outcome ≡ true
        → some_rest (takes_first (name_fits first.now) (path_fits (map (λ part. part.now) others.now)))
        (map (λ name. name.now) names.now) ≡ false) }
{
    match names {
        [] => Ok(Outcome::Short),
        [name, rest @ ..] => {
            if name_fits(alloc, first, name)? {
                outcome_of_names(alloc, others, rest)
            } else {
                Ok(Outcome::Other)
            }
        }
    }
}

/// Returns whether there are names, which `**` as the last part of a glob matches.
fn outcome_of_any(names: &[&[char]]) -> Outcome
    ensures matched { is_match result ≡ not (is_nil names.now) }
    ensures short { is_short result ≡ is_nil names.now }
{
    if names.is_empty() {
        Outcome::Short
    } else {
        Outcome::Match
    }
}

/// Matches the parts with the names, or with the other ones after some of them.
#[cycle(names)]
fn outcome_of_later_names(
    alloc: Global,
    parts: &[&[Letter]],
    names: &[&[char]],
) -> Result<Outcome, AllocError>
    ensures { IfOk result (λ outcome. is_match outcome
        ≡ some_rest (path_fits (map (λ part. part.now) parts.now)) (map (λ name. name.now) names.now)) }
{
    match outcome_of_names(alloc, parts, names)? {
        Outcome::Match => Ok(Outcome::Match),
        Outcome::Short => Ok(Outcome::Short),
        Outcome::Other => match names {
            [] => Ok(Outcome::Short),
            [_, rest @ ..] => outcome_of_later_names(alloc, parts, rest),
        },
    }
}

/// Returns whether the part is any number of folders.
fn is_deep(part: &[Letter]) -> bool
    ensures { result ≡ is_deep part.now }
{
    part.len() >= 2 && has_only_stars(part)
}

/// Returns whether each character is a star.
fn has_only_stars(part: &[Letter]) -> bool
    ensures { result ≡ list_all (λ l. means l 42) part.now }
{
    part.iter().all(|letter| letter.means('*'))
}

/// Returns whether the part matches the name.
fn name_fits(alloc: Global, part: &[Letter], name: &[char]) -> Result<bool, AllocError>
    ensures { IfOk result (λ yes. yes ≡ name_fits part.now name.now) }
{
    if has_open_set(0, part) {
        return Ok(false);
    }
    let tokens = tokens_of(alloc, part)?;
    Ok(parts_match(&tokens, name))
}
