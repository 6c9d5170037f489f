//! How many lines of an input are selected, where no line is printed.
ghost use Rattle.std.specs.Prelude.{◌≡◌, ◌<◌, ◌≤◌, IfOk, IfSome, List, length, take};
ghost use Rattle.regex_hir.specs.Re.{Re};
ghost use Rattle.nfa_grep.specs.Counted.{CountsLines, CountsNext, IsCounted};
ghost use Rattle.nfa_grep.specs.Meant.{Mean};

use crate::grep::Grep;
use program_text::failure::Failure;
use program_text::held::first_record;
use program_text::passed::pass_records;
use program_text::stream::read_record;
use std::alloc::Global;
use std::io::BufRead;

/// How many lines were searched, how many bytes they have, and how many of them are selected.
#[derive(Clone, Copy)]
struct Counted {
    selected: u64,
    lines: usize,
    len: usize,
}

/// No line was searched.
const NONE: Counted = Counted {
    selected: 0,
    lines: 0,
    len: 0,
};

/// Returns how many lines of an input are selected, up to the limit. Nothing is read after the line with which the
/// limit is reached.
///
/// Lines are searched where the reader holds them, so the memory is bounded by one line.
pub fn count_lines<R: BufRead>(
    alloc: Global,
    grep: &mut Grep<'_, '_>,
    limit: u64,
    input: &mut R,
) -> Result<u64, Failure>
    ensures counted { IfOk result (λ count. (res : List Re) → Mean grep.old res
        → CountsLines grep.old.options res limit (R.remaining input.old) (R.remaining input.new) count) }
    ensures kept { grep.new ≡ grep.old }
{
    let mut line = Vec::new(alloc);
    let mut count = 0;
    let mut number = 1;
    for _ in 0..u64::MAX {
        if count == limit {
            return Ok(count);
        }
        let passed = pass_records(input, grep.options().end, grep.needed(), number)?;
        number = after(number, passed.count)?;
        let counted = count_next(grep, limit - count, number, input, &mut line)?;
        let Some(counted) = counted else {
            return Ok(count);
        };
        number = after(number, counted.lines)?;
        count += counted.selected;
    }
    Err(Failure::TooLong)
}

/// Returns the number of the line after this many more.
fn after(number: u64, lines: usize) -> Result<u64, Failure> {
    match number.checked_add(lines as u64) {
        Some(next) => Ok(next),
        None => Err(Failure::TooLong),
    }
}

/// Counts lines that come next: those that are whole in what the reader holds, or else one that is copied. If each line
/// that is selected has bytes that are looked for first, only one is counted. There is none at the end of the input.
fn count_next<R: BufRead>(
    grep: &mut Grep<'_, '_>,
    limit: u64,
    number: u64,
    input: &mut R,
    line: &mut Vec<u8>,
) -> Result<Option<Counted>, Failure>
    requires { 0 < limit }
    ensures counted { IfOk result (λ counted. (res : List Re) → Mean grep.old res
        → CountsNext grep.old.options res limit (R.remaining input.old) (R.remaining input.new) counted) }
    ensures at_most { IfOk result (λ counted. IfSome counted (λ c. c.selected ≤ limit)) }
    ensures kept { grep.new ≡ grep.old }
{
    let most = if grep.needed().is_empty() {
        usize::MAX
    } else {
        1
    };
    let held = match input.fill_buf() {
        Ok(held) => held,
        Err(error) => {
            Failure::unless_interrupted(error, number)?;
            return count_copy(grep, limit, number, input, line);
        }
    };
    if held.is_empty() {
        return Ok(None);
    }
    let counted = count_first(grep, held, most, limit);
    if counted.len == 0 {
        return count_copy(grep, limit, number, input, line);
    }
    input.consume(counted.len);
    Ok(Some(counted))
}

/// Counts the next line, and copies it first.
#[inline(never)]
fn count_copy<R: BufRead>(
    grep: &mut Grep<'_, '_>,
    limit: u64,
    number: u64,
    input: &mut R,
    line: &mut Vec<u8>,
) -> Result<Option<Counted>, Failure>
    requires { 0 < limit }
    ensures counted { IfOk result (λ counted. (res : List Re) → Mean grep.old res
        → CountsNext grep.old.options res limit (R.remaining input.old) (R.remaining input.new) counted) }
    ensures at_most { IfOk result (λ counted. IfSome counted (λ c. c.selected ≤ limit)) }
    ensures kept { grep.new ≡ grep.old }
{
    if !read_record(input, grep.options().end, number, line)? {
        return Ok(None);
    }
    Ok(Some(Counted {
        selected: u64::from(grep.selects(line)),
        lines: 1,
        len: line.len(),
    }))
}

/// Counts the lines at the start of the text that have their ends: at most this many, and none after the one with which
/// the limit is reached.
fn count_first(grep: &mut Grep<'_, '_>, text: &[u8], most: usize, limit: u64) -> Counted
    ensures within { result.len ≤ length text.now }
    ensures at_most { result.selected ≤ limit }
    ensures counted { (res : List Re) → Mean grep.old res
        → IsCounted grep.old.options res limit (take result.len text.now) result }
    ensures kept { grep.new ≡ grep.old }
{
    let end = grep.options().end;
    let mut counted = NONE;
    for _ in 0..most {
        if counted.selected == limit {
            return counted;
        }
        let rest = &text[counted.len..];
        let Some(len) = first_record(rest, end) else {
            return counted;
        };
        if grep.selects(&rest[..len]) {
            counted.selected += 1;
        }
        counted.lines += 1;
        counted.len += len;
    }
    counted
}
