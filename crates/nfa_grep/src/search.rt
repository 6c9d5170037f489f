//! The search of one input, line by line.
ghost use Rattle.std.specs.Prelude.{◌≡◌, ◌+◌, ◌<◌, ◌^◌, IfOk, IfSome, List, OnOk};
ghost use Rattle.regex_hir.specs.Re.{Re};
ghost use Rattle.nfa_grep.specs.Going.{HasPassed, IsInOrder, PrintsLines, PrintsOutput, PrintsReport};
ghost use Rattle.nfa_grep.specs.Going.{StopsInTime, TakesLine, TakesNext};
ghost use Rattle.nfa_grep.specs.Meant.{Mean};

use crate::count::count_lines;
use crate::grep::Grep;
use crate::groups::Groups;
use crate::line::{Place, append_summary};
use grep_options::options::Request;
use program_text::failure::Failure;
use program_text::held::first_record;
use program_text::passed::pass_records;
use program_text::stream::{read_record, write_bytes};
use std::alloc::Global;
use std::io::{BufRead, Write};

/// Where a line is: its number, from 1, and the offset of its first byte.
#[derive(Clone, Copy)]
struct LineStart {
    number: u64,
    offset: u64,
}

/// Where the first line is.
const FIRST: LineStart = LineStart {
    number: 1,
    offset: 0,
};

impl LineStart {
    /// Returns where the line after this many lines of this many bytes is. There is none if a number is too large.
    fn after(self, count: usize, len: usize) -> Option<LineStart>
        ensures number { IfSome result (λ next. next.number ≡ self.number + count) }
        ensures offset { IfSome result (λ next. next.offset ≡ self.offset + len) }
        ensures counted { IfSome result (λ next. self.offset + len < 2 ^ 64) }
    {
        Some(LineStart {
            number: self.number.checked_add(count as u64)?,
            offset: self.offset.checked_add(len as u64)?,
        })
    }

    /// Returns where the line is in the input of this name.
    #[inline]
    fn place(self, name: &str) -> Place<'_>
        ensures name { result.name.now ≡ name.now }
        ensures number { result.number ≡ self.number }
        ensures offset { result.offset ≡ self.offset }
    {
        Place {
            name: name.as_bytes(),
            number: self.number,
            offset: self.offset,
            end: b':',
        }
    }
}

/// A line that was taken: whether it is selected, and where the next one is.
#[derive(Clone, Copy)]
struct Taken {
    selected: bool,
    next: LineStart,
}

/// Prints all that is to be printed of an input, and returns how many of the lines that were searched are selected.
///
/// Nothing is read after the line with which the limit is reached, and after those that are printed because of it.
pub fn print_matches<R: BufRead, W: Write>(
    alloc: Global,
    grep: &mut Grep<'_, '_>,
    request: Request<'_, '_>,
    input: &mut R,
    out: &mut W,
) -> Result<u64, Failure>
    ensures printed { IfOk result (λ count. (res : List Re) → Mean grep.old res
        → PrintsOutput request.entry.report grep.old.options res request.entry.name.now request.entry.context
        request.entry.used request.entry.limit
        (R.remaining input.old) (W.contents out.old) (W.contents out.new) count) }
    ensures stops { IfOk result (λ count. (res : List Re) → Mean grep.old res
        → StopsInTime request.entry.report grep.old.options res request.entry.context request.entry.limit
        (R.remaining input.old) (R.remaining input.new)) }
    ensures kept { grep.new ≡ grep.old }
{
    let count = print_lines(alloc, grep, request, input, out)?;
    let mut last = Vec::new(alloc);
    append_summary(
        request.report,
        grep.options(),
        request.name.as_bytes(),
        count,
        &mut last,
    )?;
    write_bytes(out, &last)?;
    Ok(count)
}

/// Prints what is to be printed of the lines of an input, and returns how many of the lines that were searched are
/// selected.
fn print_lines<R: BufRead, W: Write>(
    alloc: Global,
    grep: &mut Grep<'_, '_>,
    request: Request<'_, '_>,
    input: &mut R,
    out: &mut W,
) -> Result<u64, Failure>
    ensures printed { IfOk result (λ count. (res : List Re) → Mean grep.old res
        → PrintsReport request.entry.report grep.old.options res request.entry.name.now request.entry.context
        request.entry.used request.entry.limit (R.remaining input.old) (R.remaining input.new)
        (W.contents out.old) (W.contents out.new) count) }
    ensures kept { grep.new ≡ grep.old }
{
    if request.report.shows() {
        search(alloc, grep, request, input, out)
    } else {
        count_lines(alloc, grep, request.report.limit(request.limit), input)
    }
}

/// Prints what is to be printed of the lines of an input, if lines are printed, and returns how many are selected.
///
/// The input is read a line at a time, but for lines that are passed, and a line is searched where the reader holds it.
/// So the memory is bounded by what is printed of one line more than are printed before a selected one. After an error,
/// what was printed is a beginning of what is printed of the input.
fn search<R: BufRead, W: Write>(
    alloc: Global,
    grep: &mut Grep<'_, '_>,
    request: Request<'_, '_>,
    input: &mut R,
    out: &mut W,
) -> Result<u64, Failure>
    ensures printed { IfOk result (λ count. (res : List Re) → Mean grep.old res
        → PrintsLines grep.old.options res request.entry.name.now request.entry.context request.entry.used
        request.entry.limit (R.remaining input.old) (R.remaining input.new) (W.contents out.old) (W.contents out.new)
        count) }
    ensures kept { grep.new ≡ grep.old }
{
    let limit = request.limit;
    let mut line = Vec::new(alloc);
    let mut groups = Groups::new(alloc, request);
    let mut count = 0;
    let mut at = FIRST;
    for _ in 0..u64::MAX {
        let searched = count < limit;
        if groups.is_done(searched) {
            return Ok(count);
        }
        at = pass_lines(grep, &mut groups, at, input)?;
        let place = at.place(request.name);
        let taken = take_next(grep, &mut groups, searched, place, input, &mut line)?;
        let Some(taken) = taken else {
            return Ok(count);
        };
        if taken.selected {
            count += 1;
        }
        write_bytes(out, &groups.ahead)?;
        write_bytes(out, &groups.text)?;
        at = taken.next;
    }
    Err(Failure::TooLong)
}

/// Passes lines that come next, if they are not selected and not printed, and returns where the line after them is.
#[inline(always)]
fn pass_lines<R: BufRead>(
    grep: &Grep<'_, '_>,
    groups: &mut Groups<'_, '_>,
    at: LineStart,
    input: &mut R,
) -> Result<LineStart, Failure>
    requires { IsInOrder groups.old }
    ensures passed { IfOk result (λ next. (res : List Re) → Mean grep.now res
        → IfSome (R.remaining input.old) (λ text.
        HasPassed grep.now.options res text (R.remaining input.new) at next groups.old groups.new)) }
    ensures in_order { OnOk result (IsInOrder groups.new) }
    ensures same_left { OnOk result (groups.new.left ≡ groups.old.left) }
    ensures same_context { OnOk result (groups.new.context ≡ groups.old.context) }
{
    let needed = grep.needed();
    if needed.is_empty() {
        return Ok(at);
    }
    if !groups.prints_only_selected() {
        return Ok(at);
    }
    let passed = pass_records(input, grep.options().end, needed, at.number)?;
    groups.pass_all(passed.count);
    let Some(next) = at.after(passed.count, passed.len) else {
        return Err(Failure::TooLong);
    };
    Ok(next)
}

/// Takes the next line. It is copied only if it is not whole in what the reader holds. There is none at the end of the
/// input.
#[inline]
fn take_next<R: BufRead>(
    grep: &mut Grep<'_, '_>,
    groups: &mut Groups<'_, '_>,
    searched: bool,
    place: Place<'_>,
    input: &mut R,
    line: &mut Vec<u8>,
) -> Result<Option<Taken>, Failure>
    requires { IsInOrder groups.old }
    ensures taken { IfOk result (λ taken. (res : List Re) → Mean grep.old res
        → TakesNext grep.old.options res place.entry searched groups.old groups.new (R.remaining input.old)
        (R.remaining input.new) taken) }
    ensures in_order { OnOk result (IsInOrder groups.new) }
    ensures same_context { OnOk result (groups.new.context ≡ groups.old.context) }
    ensures kept { grep.new ≡ grep.old }
{
    let held = match input.fill_buf() {
        Ok(held) => held,
        Err(error) => {
            Failure::unless_interrupted(error, place.number)?;
            return take_copy(grep, groups, searched, place, input, line);
        }
    };
    let Some(len) = first_record(held, grep.options().end) else {
        if held.is_empty() {
            return Ok(None);
        }
        return take_copy(grep, groups, searched, place, input, line);
    };
    let taken = take_line(grep, groups, searched, place, &held[..len])?;
    input.consume(len);
    Ok(Some(taken))
}

/// Takes the next line, and copies it first.
#[inline(never)]
fn take_copy<R: BufRead>(
    grep: &mut Grep<'_, '_>,
    groups: &mut Groups<'_, '_>,
    searched: bool,
    place: Place<'_>,
    input: &mut R,
    line: &mut Vec<u8>,
) -> Result<Option<Taken>, Failure>
    requires { IsInOrder groups.old }
    ensures taken { IfOk result (λ taken. (res : List Re) → Mean grep.old res
        → TakesNext grep.old.options res place.entry searched groups.old groups.new (R.remaining input.old)
        (R.remaining input.new) taken) }
    ensures in_order { OnOk result (IsInOrder groups.new) }
    ensures same_context { OnOk result (groups.new.context ≡ groups.old.context) }
    ensures kept { grep.new ≡ grep.old }
{
    if !read_record(input, grep.options().end, place.number, line)? {
        return Ok(None);
    }
    let taken = take_line(grep, groups, searched, place, line)?;
    Ok(Some(taken))
}

/// Takes this line, which may have its end.
#[inline]
fn take_line(
    grep: &mut Grep<'_, '_>,
    groups: &mut Groups<'_, '_>,
    searched: bool,
    place: Place<'_>,
    line: &[u8],
) -> Result<Taken, Failure>
    requires { IsInOrder groups.old }
    ensures taken { IfOk result (λ taken. (res : List Re) → Mean grep.old res
        → TakesLine grep.old.options res place.entry searched groups.old groups.new taken line.now) }
    ensures in_order { OnOk result (IsInOrder groups.new) }
    ensures same_context { OnOk result (groups.new.context ≡ groups.old.context) }
    ensures kept { grep.new ≡ grep.old }
{
    let at = LineStart {
        number: place.number,
        offset: place.offset,
    };
    let Some(next) = at.after(1, line.len()) else {
        return Err(Failure::TooLong);
    };
    let Ok(selected) = groups.take_line(grep, searched, place, line) else {
        return Err(Failure::Line(place.number));
    };
    Ok(Taken { selected, next })
}
