//! The spans of a fixed number of groups.
ghost use Rattle.std.specs.Prelude.{IfNone, IfSome};
ghost use Rattle.nfa_meta.specs.Extracted.{AreExtracted, HasSpans};

use regex_search_core::{Captures, Span};

/// Returns the span of the match of these captures, and those of its `N` explicit groups. Returns `None` if the pattern
/// has another number of explicit groups, or if one of them took no part in the match.
///
/// ```
/// // regex of r"(\w+)@(\w+)"
/// let text = b"to me@home";
/// let mut captures = regex.create_captures(alloc)?;
/// regex.captures(Input::new(text), &mut captures);
/// let (found, groups) = extract::<2>(&captures).expect(rt, "two groups");
/// assert_eq!(rt; found, Span { start: 3, end: 10 });
/// assert_eq!(rt; groups[1], Span { start: 6, end: 10 });
/// ```
pub fn extract<const N: usize>(captures: &Captures) -> Option<(Span, [Span; N])>
    ensures some { IfSome result (AreExtracted N captures.now) }
    ensures none { IfNone result (HasSpans N captures.now → ⊥) }
{
    if captures.group_len().checked_sub(1) != Some(N) {
        return None;
    }
    let found = captures.get_group(0)?;
    let mut groups = [found; N];
    for index in 0..N {
        groups[index] = captures.get_group(index + 1)?;
    }
    Some((found, groups))
}
