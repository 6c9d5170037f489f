//! The handle that C holds.
ghost use Rattle.std.specs.Prelude.{None, Some, is_some, option_map, ◌≡◌};

use crate::parts::Parts;
use crate::slot::Slot;
use nfa_meta::Regex;
use regex_search_core::NonMaxUsize;
use std::alloc::Global;

/// What a full handle owns.
pub struct Compiled {
    pub regex: Regex,
    /// One element for each slot of the regex, so that no search allocates for its answer.
    pub row: Vec<Option<NonMaxUsize>, Global>,
}

// Written out, so that a drop is one call in a proof.
impl Drop for Compiled {
    fn drop(self) {
        let Compiled { regex: _, row: _ } = self;
    }
}

/// A regex, or nothing. All bytes zero is an empty handle.
#[repr(C)]
#[derive(Drop)]
pub struct NfaRegex {
    /// Whether the slot has a box. It is beside the slot, since a test of the pointer would need a proof by hand.
    pub ready: bool,
    pub slot: Slot,
    pub ghost full: { is_some slot.value ≡ ready },
}

/// Returns a handle that owns nothing.
fn empty() -> NfaRegex
    ensures { result.slot.value ≡ None }
{
    NfaRegex {
        ready: false,
        slot: Slot::none(),
    }
}

/// Returns a handle that owns this.
pub(crate) fn full(made: Box<Compiled, Global>) -> NfaRegex
    ensures { result.slot.value ≡ Some made.value }
{
    NfaRegex {
        ready: true,
        slot: Slot::of_parts(Parts::of(made)),
    }
}

/// Takes out what the handle owns, if it is full, and leaves it empty.
pub(crate) fn take(handle: &mut NfaRegex, alloc: Global) -> Option<Box<Compiled, Global>>
    ensures taken { option_map (λ made. made.value) result ≡ handle.old.slot.value }
    ensures empty { handle.new.slot.value ≡ None }
{
    let NfaRegex { ready, slot } = std::mem::replace(handle, empty());
    if ready {
        Some(slot.into_parts(alloc).into_box())
    } else {
        None
    }
}
