//! A text with stars in place of what a named group holds, or with a mark in place of each match.
ghost use Rattle.std.specs.Prelude.{◌≡◌, IfOk};
ghost use Rattle.nfa_choice.specs.ChoiceState.{KeepsEngines};
ghost use Rattle.nfa_meta.specs.Rewritten.{IsRewrittenBy};
ghost use Rattle.callers.specs.Texts.{IsRedacted, is_hidden, is_within, starred};

use anyhow::Result;
use nfa_choice::Choice;
use nfa_engines::{Captures, Input, Span};
use nfa_meta::Regex;
use std::alloc::{AllocError, Global};

/// Whether the offset is in the span, if there is one.
fn is_within(span: Option<Span>, at: usize) -> bool
    ensures { result ≡ is_within span at }
{
    match span {
        Some(span) => span.start <= at && at < span.end,
        None => false,
    }
}

/// Whether the group of this name holds the byte at this offset in one of the matches.
fn is_hidden(caught: &[Captures], name: &str, at: usize) -> bool
    ensures { result ≡ is_hidden caught.now name.now at }
{
    caught
        .iter()
        .any(|captures| is_within(captures.get_group_by_name(name), at))
}

/// The text, with a star in place of each byte that is hidden.
fn starred(
    alloc: Global,
    caught: &[Captures],
    name: &str,
    text: &[u8],
) -> Result<Vec<u8>, AllocError>
    ensures { IfOk result (λ out. out.items ≡ starred caught.now name.now text.now) }
{
    text.iter()
        .enumerate()
        .map(|(at, byte)| if is_hidden(caught, name, at) {
            b'*'
        } else {
            *byte
        })
        .collect(alloc)
}

/// Returns the text with a star in place of each byte that the group of this name holds in some match. Fails only if
/// allocation fails. It tests each byte against each match, so it suits lines.
pub fn redact(alloc: Global, choice: &mut Choice, name: &str, text: &[u8]) -> Result<Vec<u8>>
    ensures redacted { IfOk result (λ out. IsRedacted choice.old name.now text.now out.items) }
    ensures keeps { KeepsEngines choice.old choice.new }
{
    let caught = choice.captures_all(alloc, Input::new(text))?;
    Ok(starred(alloc, &caught, name, text)?)
}

/// Returns the text with the mark in place of each match. The only error is that allocation failed.
pub fn masked(
    alloc: Global,
    regex: &mut Regex,
    text: &[u8],
    mark: &[u8],
) -> Result<Vec<u8>, AllocError>
    ensures { IfOk result (λ out. IsRewrittenBy regex.old.choice text.now (λ _. mark.now) out.items) }
{
    regex.replace_all_with(alloc, text, |_, output| output.extend_from_slice(mark))
}
