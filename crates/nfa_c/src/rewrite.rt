//! Texts that are made of others: a pattern that means a text, and a text with its matches replaced.
ghost use Rattle.std.specs.Prelude.{IfErr, IfOk, IsSome, IsSomeAnd, IsUtf8, None, pos, ◌≡◌, ◌≢◌, ◌⊎◌};
ghost use Rattle.nfa_meta.specs.RegexState.{KeepsRegex};
ghost use Rattle.nfa_meta.specs.TemplateTexts.{IsMistake};
ghost use Rattle.nfa_meta.specs.declared.interpolate.TemplateError.TheVariants.{Memory};
ghost use Rattle.nfa_c.specs.Answers.{Keeps};
ghost use Rattle.nfa_c.specs.Codes.{empty_code, memory_code, template_code, utf8_code};
ghost use Rattle.nfa_c.specs.Rewrites.{IsNoTemplate, IsReplaced, WritesEscaped, WritesFilled};

use crate::codes::{EMPTY, MEMORY, OK, TEMPLATE, UTF8};
use crate::handle::{NfaRegex, full, take};
use crate::room::write_counted;
use nfa_meta::Regex;
use nfa_meta::interpolate::TemplateError;
use std::alloc::Global;

/// Writes a pattern that matches this text, as far as there is room, and its length.
#[unsafe(no_mangle)]
pub extern "C" fn nfa_regex_escape(
    alloc: Global,
    text: &[u8],
    output: &mut [u8],
    count: &mut usize,
) -> i32
    ensures escaped { result ≡ pos 0 → WritesEscaped text.now count.new output.old output.new }
    ensures stays { result ≢ pos 0 → (count.new ≡ count.old) × (output.new ≡ output.old) }
    ensures utf8 { (IsUtf8 text.now → ⊥) → result ≡ utf8_code }
    ensures memory { IsUtf8 text.now → (result ≡ pos 0) ⊎ (result ≡ memory_code) }
{
    let Ok(text) = std::str::from_utf8(text) else {
        return UTF8;
    };
    let Ok(escaped) = regex_syntax::escape(alloc, text) else {
        return MEMORY;
    };
    write_counted(escaped.as_bytes(), output, count);
    OK
}

/// Returns the haystack with the template, filled by the captures of each match, in place of the match.
fn replaced(
    alloc: Global,
    regex: &mut Regex,
    haystack: &[u8],
    template: &[u8],
) -> Result<Vec<u8>, TemplateError>
    ensures filled { IfOk result (λ text. IsReplaced regex.old.choice template.now haystack.now text.items) }
    ensures mistake { IfErr result (IsMistake regex.old.choice.nfa.groups 0 template.now) }
    ensures keeps { KeepsRegex regex.old regex.new }
{
    let parts = match regex.parse_template(alloc, template) {
        Ok(parts) => parts,
        Err(error) => return Err(error),
    };
    match regex.replace_all_template(alloc, haystack, &parts) {
        Ok(text) => Ok(text),
        Err(_) => Err(TemplateError::Memory),
    }
}

/// Returns what an export returns for the error.
fn refusal(error: TemplateError) -> i32
    ensures memory { error ≡ Memory → result ≡ memory_code }
    ensures other { error ≢ Memory → result ≡ template_code }
{
    match error {
        TemplateError::Memory => MEMORY,
        _ => TEMPLATE,
    }
}

/// Writes the haystack with the template, filled by the captures of each match, in place of the match, as far as there
/// is room, and its length. The template has the groups of the first pattern.
#[unsafe(no_mangle)]
pub extern "C" fn nfa_regex_replace_all(
    alloc: Global,
    regex: &mut NfaRegex,
    haystack: &[u8],
    template: &[u8],
    output: &mut [u8],
    count: &mut usize,
) -> i32
    ensures filled { result ≡ pos 0 → IsSomeAnd regex.old.slot.value (λ own.
        WritesFilled own.regex.choice template.now haystack.now count.new output.old output.new) }
    ensures stays { result ≢ pos 0 → (count.new ≡ count.old) × (output.new ≡ output.old) }
    ensures mistake { result ≡ template_code → IsSomeAnd regex.old.slot.value (λ own.
        IsNoTemplate own.regex.choice template.now) }
    ensures codes { IsSome regex.old.slot.value →
        (result ≡ pos 0) ⊎ ((result ≡ memory_code) ⊎ (result ≡ template_code)) }
    ensures empty { regex.old.slot.value ≡ None → result ≡ empty_code }
    ensures keeps { Keeps regex.old.slot.value regex.new.slot.value }
{
    let Some(mut own) = take(regex, alloc) else {
        return EMPTY;
    };
    let made = replaced(alloc, &mut own.regex, haystack, template);
    *regex = full(own);
    match made {
        Ok(text) => {
            write_counted(&text, output, count);
            OK
        }
        Err(error) => refusal(error),
    }
}
