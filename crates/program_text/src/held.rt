//! Records that are whole in what a reader holds. They can be searched there, and need no copy.
ghost use Rattle.std.specs.Prelude.{◌≡◌, ◌≢◌, ◌≤◌, All, IfSome, None, length, take};
ghost use Rattle.program_text.specs.Lines.{IsRecord};

use memchr::memchr;

/// Returns the length of the first record of the text, with its end. There is none if the text has no end of a record:
/// what it has may then go on.
///
/// A caller of `fill_buf` that consumes this many of the bytes that it showed has taken the next record.
#[inline]
pub fn first_record(text: &[u8], end: u8) -> Option<usize>
    ensures within { IfSome result (λ len. len ≤ length text.now) }
    ensures whole { IfSome result (λ len. IsRecord end (take len text.now)) }
    ensures none { result ≡ None → All (λ b. b ≢ end) text.now }
{
    match memchr(end, text) {
        Some(at) => Some(at + 1),
        None => None,
    }
}
