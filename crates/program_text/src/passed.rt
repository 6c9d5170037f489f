//! Passing records in which some bytes do not occur. They are not copied.
ghost use Rattle.std.specs.Prelude.{◌<◌, ◌≤◌, ℕ, IfErr, IfOk, length, take};
ghost use Rattle.memchr.specs.Find.{OccursAt};
ghost use Rattle.program_text.specs.Lines.{EndsRecord, HasWhole, IsOfReading, PassesRecords};

use crate::failure::Failure;
use memchr::{memchr_iter, memmem, memrchr};
use std::io::BufRead;

/// How many records were passed, and how many bytes they have.
#[derive(Clone, Copy, Debug, PartialEq, Eq)]
pub struct Passed {
    pub count: usize,
    pub len: usize,
}

/// No record was passed.
const NONE: Passed = Passed { count: 0, len: 0 };

/// Passes the next records of the input up to the first in which these bytes occur, and returns how many. The next one
/// has this number.
///
/// It passes only whole records that the reader has at hand, and so it may pass none. `read_record` reads any record.
///
/// Fails with `Read` if the input cannot be read.
pub fn pass_records<R: BufRead>(
    input: &mut R,
    end: u8,
    bytes: &[u8],
    number: u64,
) -> Result<Passed, Failure>
    ensures passed { IfOk result (PassesRecords end bytes.now (R.remaining input.old) (R.remaining input.new)) }
    ensures failed { IfErr result (IsOfReading number) }
{
    let held = match input.fill_buf() {
        Ok(held) => held,
        Err(error) => {
            Failure::unless_interrupted(error, number)?;
            return Ok(NONE);
        }
    };
    let passed = first_without(held, end, bytes);
    input.consume(passed.len);
    Ok(passed)
}

/// Returns how many whole records at the start of the text are before the first one in which these bytes occur.
fn first_without(text: &[u8], end: u8, bytes: &[u8]) -> Passed
    ensures within { result.len ≤ length text.now }
    ensures whole { HasWhole end bytes.now (take result.len text.now) result.count }
{
    if bytes.is_empty() {
        return NONE;
    }
    let before = first_or_len(text, bytes);
    let len = whole_len(&text[..before], end);
    let count = memchr_iter(end, &text[..len]).count();
    Passed { count, len }
}

/// Returns the first offset at which these bytes occur in the text, or the length of the text.
fn first_or_len(text: &[u8], bytes: &[u8]) -> usize
    ensures within { result ≤ length text.now }
    ensures before { (k : ℕ) → k < result → ¬ OccursAt text.now bytes.now k }
{
    match memmem::find(text, bytes) {
        Some(at) => at,
        None => text.len(),
    }
}

/// Returns the length of the whole records at the start of the text.
fn whole_len(text: &[u8], end: u8) -> usize
    ensures within { result ≤ length text.now }
    ensures whole { EndsRecord end (take result text.now) }
{
    match memrchr(end, text) {
        Some(at) => at + 1,
        None => 0,
    }
}
