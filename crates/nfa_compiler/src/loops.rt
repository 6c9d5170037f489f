//! Whether a pattern has a loop whose part may match the empty string, and whether it begins with `Start`.
ghost use Rattle.std.specs.Prelude.{◌≡◌, ◌↔◌, IsTrue, map};
ghost use Rattle.regex_hir.specs.Meaning.{alt_all, cat_all, meaning};
ghost use Rattle.regex_hir.specs.Re.{byte_in, char_in, literal, look};
ghost use Rattle.nfa_compiler.specs.Compiled.{res_of};
ghost use Rattle.nfa_compiler.specs.Loops.{HasEmptyLoop, all_begin_at_start, form_either, form_of, form_repeated};
ghost use Rattle.nfa_compiler.specs.Loops.{form_then};

use regex_class::ClassRange;
use regex_hir::{Hir, Look};
use regex_syntax::Parsed;

/// What the form of a pattern says of it.
#[derive(Clone, Copy)]
struct Form {
    /// Whether each way through the pattern has a part that reads a byte.
    always_reads: bool,
    /// Whether no part of the pattern reads a byte.
    never_reads: bool,
    /// Whether a loop in the pattern has a part that may match the empty string, and more.
    has_empty_loop: bool,
    /// Whether each way through the pattern has the assertion `Start`, and no part before it that reads a byte.
    begins_at_start: bool,
}

/// The form of a pattern that matches only the empty string.
const EMPTY: Form = Form {
    always_reads: false,
    never_reads: true,
    has_empty_loop: false,
    begins_at_start: false,
};

/// The form of a pattern that reads a byte, without a loop.
const READS: Form = Form {
    always_reads: true,
    never_reads: false,
    has_empty_loop: false,
    begins_at_start: false,
};

/// The form of a pattern that matches nothing: no way leads through it.
const NOTHING: Form = Form {
    always_reads: true,
    never_reads: false,
    has_empty_loop: false,
    begins_at_start: true,
};

/// The form of the assertion `Start`.
const START: Form = Form {
    always_reads: false,
    never_reads: true,
    has_empty_loop: false,
    begins_at_start: true,
};

/// Returns whether the pattern has a loop whose part may match the empty string, and more than that: a repetition
/// without an upper bound, such as `(a?b??)+`.
///
/// In such a loop each round after the first has to read a byte. The crate regex has another rule there: it may find a
/// match with another end, or groups with other spans. Both find a match from the same starts.
///
/// ```
/// let tree = parse(alloc, "(?:a?b??)+", &Syntax::default())?;
/// assert!(rt; nfa_compiler::has_empty_loop(&tree));
/// let tree = parse(alloc, "(?:ab?)+", &Syntax::default())?;
/// assert!(rt; !nfa_compiler::has_empty_loop(&tree));
/// ```
pub fn has_empty_loop(pattern: &Parsed) -> bool
    ensures { IsTrue result ↔ HasEmptyLoop (meaning pattern.now.hir) }
{
    form_of(&pattern.hir).has_empty_loop
}

/// Returns whether each of these patterns begins with the assertion `Start`, so that it can match only from the start
/// of a haystack.
pub(crate) fn all_begin_at_start(patterns: &[Parsed]) -> bool
    ensures { result ≡ all_begin_at_start (res_of patterns.now) }
{
    let mut all = NOTHING;
    for index in (0..patterns.len()).rev() {
        all = either(form_of(&patterns[index].hir), all);
    }
    all.begins_at_start
}

/// Returns the form of the tree.
#[cycle(form)]
fn form_of(tree: &Hir) -> Form
    ensures { result ≡ form_of (meaning tree.now) }
{
    match tree {
        Hir::Empty => EMPTY,
        Hir::Literal(bytes) => literal(bytes),
        Hir::Bytes(bytes) => class(&bytes.ranges),
        Hir::Chars(chars) => class(&chars.ranges),
        Hir::Look(look) => assertion(*look),
        Hir::Repetition { min, max, sub, .. } => repeated(form_of(sub), *min, *max),
        Hir::Capture { sub, .. } => form_of(sub),
        Hir::Concat(subs) => form_of_all(subs),
        Hir::Alternation(subs) => form_of_any(subs),
    }
}

// Both loops go from the last part back, as `cat_all` and `alt_all` are built.
/// Returns the form of these trees, one after another.
#[cycle(form)]
fn form_of_all(subs: &[Hir]) -> Form
    ensures { result ≡ form_of (cat_all (map meaning subs.now)) }
{
    let mut all = EMPTY;
    for index in (0..subs.len()).rev() {
        all = then(form_of(&subs[index]), all);
    }
    all
}

/// Returns the form of the alternation of these trees.
#[cycle(form)]
fn form_of_any(subs: &[Hir]) -> Form
    ensures { result ≡ form_of (alt_all (map meaning subs.now)) }
{
    let mut any = NOTHING;
    for index in (0..subs.len()).rev() {
        any = either(form_of(&subs[index]), any);
    }
    any
}

/// Returns the form of a text that is written out.
fn literal(bytes: &[u8]) -> Form
    ensures { result ≡ form_of (literal bytes.now) }
{
    if bytes.is_empty() { EMPTY } else { READS }
}

/// Returns the form of a class with these ranges.
fn class(ranges: &[ClassRange]) -> Form
    ensures bytes { result ≡ form_of (byte_in ranges.now) }
    ensures chars { result ≡ form_of (char_in ranges.now) }
{
    if ranges.is_empty() { NOTHING } else { READS }
}

/// Returns the form of an assertion.
fn assertion(kind: Look) -> Form
    ensures { result ≡ form_of (look kind) }
{
    match kind {
        Look::Start => START,
        _ => EMPTY,
    }
}

/// Returns the form of a pattern of the first form, and then one of the second.
fn then(first: Form, second: Form) -> Form
    ensures { result ≡ form_then first second }
{
    Form {
        always_reads: first.always_reads || second.always_reads,
        never_reads: first.never_reads && second.never_reads,
        has_empty_loop: first.has_empty_loop || second.has_empty_loop,
        begins_at_start: first.begins_at_start || (first.never_reads && second.begins_at_start),
    }
}

/// Returns the form of the alternation of patterns of these forms.
fn either(first: Form, second: Form) -> Form
    ensures { result ≡ form_either first second }
{
    Form {
        always_reads: first.always_reads && second.always_reads,
        never_reads: first.never_reads && second.never_reads,
        has_empty_loop: first.has_empty_loop || second.has_empty_loop,
        begins_at_start: first.begins_at_start && second.begins_at_start,
    }
}

/// Returns the form of `part{min,max}` for a part of this form, with no upper bound if `max` is `None`.
fn repeated(part: Form, min: u32, max: Option<u32>) -> Form
    ensures { result ≡ form_repeated part min max }
{
    if min == 0 && matches!(max, Some(0)) {
        return EMPTY;
    }
    let loops = max.is_none() && !part.always_reads && !part.never_reads;
    Form {
        always_reads: min > 0 && part.always_reads,
        never_reads: part.never_reads,
        has_empty_loop: loops || part.has_empty_loop,
        begins_at_start: min > 0 && part.begins_at_start,
    }
}
