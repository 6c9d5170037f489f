//! The match that a row of slots gives.
ghost use Rattle.std.specs.Prelude.{◌≡◌, ◌<◌};
ghost use Rattle.regex_search_core.specs.Slots.{offset_at, span_at};

use crate::primitives::NonMaxUsize;
use crate::search::Span;

/// The offset in the slot. `None` if there is no such slot or if it is not set.
fn offset_in(slots: &[Option<NonMaxUsize>], slot: usize) -> Option<usize>
    ensures { result ≡ offset_at slots.now slot }
{
    match slots.get(slot) {
        Some(Some(offset)) => Some(offset.get()),
        _ => None,
    }
}

/// The span from the offset in this slot to the offset in the next one. `None` unless both are set and in order.
pub(crate) fn span_in(slots: &[Option<NonMaxUsize>], slot: usize) -> Option<Span>
    requires { slot < usize.MAX }
    ensures { result ≡ span_at slots.now slot }
{
    let start = offset_in(slots, slot)?;
    let end = offset_in(slots, slot + 1)?;
    if start > end {
        return None;
    }
    Some(Span { start, end })
}
