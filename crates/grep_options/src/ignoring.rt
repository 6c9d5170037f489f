//! What the lines of files such as `.gitignore` say, as git reads them.
ghost use Rattle.std.specs.Prelude.{◌≡◌, ◌≤◌, ◌<◌, ◌==◌, IfOk, IfSome, length, not, option_map, position, reverse};
ghost use Rattle.std.specs.List.{list_any};
ghost use Rattle.std.specs.Str.{chars};
ghost use Rattle.grep_options.specs.Globs.{means};
ghost use Rattle.grep_options.specs.Ignored.{count_at_end, ends_in_escape, ends_in_quoted_slash, ends_in_slash};
ghost use Rattle.grep_options.specs.Ignored.{is_slash, path_glob, rule_of_glob, rule_of_letters, rule_of_line, said};
ghost use Rattle.grep_options.specs.Ignored.{without_blanks, without_first_slash, without_last_slash};

use crate::glob::{Letter, chars_of, letters_of};
use std::alloc::{AllocError, Global};

/// What a line says of paths.
#[derive(Drop)]
pub struct IgnoreRule {
    /// How many names the path of the folder of the file has.
    pub depth: usize,
    /// Paths are taken in again, and not left out.
    pub included: bool,
    /// Only folders are meant.
    pub folders: bool,
    /// The glob that paths in the folder of the file match.
    pub glob: Vec<Letter>,
}

/// Returns what the line says, without its end, if it says something. The path of the folder of its file has `depth`
/// names.
pub fn rule_of_line(
    alloc: Global,
    depth: usize,
    line: &str,
) -> Result<Option<IgnoreRule>, AllocError>
    ensures { IfOk result (λ rule. option_map said rule ≡ rule_of_line depth (chars line.now)) }
{
    let values = chars_of(alloc, line)?;
    if ends_in_escape(&values) {
        return Ok(None);
    }
    let letters = letters_of(alloc, line)?;
    rule_of_letters(alloc, depth, without_blanks(&letters))
}

/// Returns whether a backslash at the end of the line has no character after it.
fn ends_in_escape(line: &[char]) -> bool
    ensures { result ≡ ends_in_escape line.now }
{
    escapes_at_end(line) % 2 == 1
}

/// Returns how many backslashes are at the end of the line.
fn escapes_at_end(line: &[char]) -> usize
    ensures { result ≡ count_at_end (λ c. c == 92) line.now }
{
    last_unescaping(line).unwrap_or(line.len())
}

/// Returns how many characters are after the last one that is not a backslash.
fn last_unescaping(line: &[char]) -> Option<usize>
    ensures { result ≡ position (λ c. not (c == 92)) (reverse line.now) }
{
    line.iter().rev().position(|value| !(*value == '\\'))
}

/// Returns the characters without blanks at the end, other than one after a backslash.
fn without_blanks(letters: &[Letter]) -> &[Letter]
    ensures { result.now ≡ without_blanks letters.entry.now }
{
    &letters[..letters.len() - blanks_at_end(letters)]
}

/// Returns how many blanks are at the end.
fn blanks_at_end(letters: &[Letter]) -> usize
    ensures count { result ≡ count_at_end (λ l. means l 32) letters.now }
    ensures within { result ≤ length letters.now }
{
    last_other(letters).unwrap_or(letters.len())
}

/// Returns how many characters are after the last one that is not a blank.
fn last_other(letters: &[Letter]) -> Option<usize>
    ensures place { result ≡ position (λ l. not (means l 32)) (reverse letters.now) }
    ensures within { IfSome result (λ at. at < length letters.now) }
{
    letters.iter().rev().position(|letter| !letter.means(' '))
}

/// Returns what a line of these characters says.
fn rule_of_letters(
    alloc: Global,
    depth: usize,
    letters: &[Letter],
) -> Result<Option<IgnoreRule>, AllocError>
    ensures { IfOk result (λ rule. option_map said rule ≡ rule_of_letters depth letters.now) }
{
    match letters {
        [] => Ok(None),
        [first, ..] if first.means('#') => Ok(None),
        [first, others @ ..] if first.means('!') => rule_of_glob(alloc, depth, true, others),
        _ => rule_of_glob(alloc, depth, false, letters),
    }
}

/// Returns what a glob of these characters says.
fn rule_of_glob(
    alloc: Global,
    depth: usize,
    included: bool,
    letters: &[Letter],
) -> Result<Option<IgnoreRule>, AllocError>
    ensures { IfOk result (λ rule. option_map said rule ≡ rule_of_glob depth included letters.now) }
{
    if ends_in_quoted_slash(letters) {
        return Ok(None);
    }
    let folders = ends_in_slash(letters);
    let glob = path_glob(alloc, without_last_slash(letters))?;
    Ok(Some(IgnoreRule {
        depth,
        included,
        folders,
        glob,
    }))
}

/// Returns whether a slash is last.
fn ends_in_slash(letters: &[Letter]) -> bool
    ensures { result ≡ ends_in_slash letters.now }
{
    match letters.last() {
        Some(last) => is_slash(*last),
        None => false,
    }
}

/// Returns whether a slash is last, and after a backslash.
fn ends_in_quoted_slash(letters: &[Letter]) -> bool
    ensures { result ≡ ends_in_quoted_slash letters.now }
{
    match letters.last() {
        Some(last) => is_slash(*last) && last.quoted,
        None => false,
    }
}

/// Returns the characters without a slash after them.
fn without_last_slash(letters: &[Letter]) -> &[Letter]
    ensures { result.now ≡ without_last_slash letters.entry.now }
{
    if ends_in_slash(letters) {
        &letters[..letters.len().saturating_sub(1)]
    } else {
        letters
    }
}

/// Returns the glob of a whole path in the folder of the file.
fn path_glob(alloc: Global, letters: &[Letter]) -> Result<Vec<Letter>, AllocError>
    ensures { IfOk result (λ glob. glob.items ≡ path_glob letters.now) }
{
    if has_slash(letters) {
        let mut glob = Vec::new(alloc);
        glob.extend_from_slice(without_first_slash(letters))?;
        Ok(glob)
    } else {
        let mut glob = letters_of(alloc, "**/")?;
        glob.extend_from_slice(letters)?;
        Ok(glob)
    }
}

/// Returns whether a slash is among these.
fn has_slash(letters: &[Letter]) -> bool
    ensures { result ≡ list_any is_slash letters.now }
{
    letters.iter().any(|letter| is_slash(*letter))
}

/// Returns whether the character separates names: a slash does, also after a backslash.
pub fn is_slash(letter: Letter) -> bool
    ensures { result ≡ is_slash letter }
{
    letter.value == '/'
}

/// Returns the characters without a slash before them.
fn without_first_slash(letters: &[Letter]) -> &[Letter]
    ensures { result.now ≡ without_first_slash letters.entry.now }
{
    match letters {
        [first, others @ ..] if first.means('/') => others,
        _ => letters,
    }
}
