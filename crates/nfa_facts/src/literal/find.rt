//! A search for bytes in a part of a haystack.
ghost use Rattle.std.specs.Prelude.{◌≤◌, IfNone, IfSome, length};
ghost use Rattle.memchr.specs.Find.{FindsNeedle};
ghost use Rattle.nfa_facts.specs.Prefixes.{IsFirstOccurrence, OccursNowhere};

use memchr::{memchr, memmem};

/// Returns the first position from `from` on at which all bytes of the prefix are in the haystack, before `end`.
///
/// Returns `None` if there is none. `from` may be past `end`. Requires that `end` is not past the end of the haystack.
/// An empty prefix is at each position up to `end`.
///
/// ```
/// assert!(rt; find_prefix(b"foo foo", 1, 7, b"foo") == Some(4));
/// assert!(rt; find_prefix(b"foo foo", 1, 6, b"foo") == None);
/// ```
pub fn find_prefix(haystack: &[u8], from: usize, end: usize, prefix: &[u8]) -> Option<usize>
    requires { end ≤ length haystack.now }
    ensures first { IfSome result (IsFirstOccurrence haystack.now end prefix.now from) }
    ensures nowhere { IfNone result (OccursNowhere haystack.now end prefix.now from) }
{
    if from > end {
        return None;
    }
    let at = find_in(&haystack[from..end], prefix)?;
    Some(from + at)
}

/// Returns the first position at which all bytes of the prefix are in the part. One byte is found faster by itself.
fn find_in(part: &[u8], prefix: &[u8]) -> Option<usize>
    ensures { FindsNeedle part.now prefix.now 0 result }
{
    if prefix.len() == 1 {
        return memchr(prefix[0], part);
    }
    find_text(part, prefix)
}

/// The same, for a prefix of other than one byte. A call of its own, so that a search for one byte saves no registers.
#[inline(never)]
fn find_text(part: &[u8], prefix: &[u8]) -> Option<usize>
    ensures { FindsNeedle part.now prefix.now 0 result }
{
    memmem::find(part, prefix)
}
