//! The handle of a set that C holds.
ghost use Rattle.std.specs.Prelude.{None, Some, is_some, option_map, ◌≡◌};

use crate::parts::Parts;
use crate::set_slot::SetSlot;
use nfa_meta::RegexSet;
use std::alloc::Global;

/// What a full handle owns.
pub struct CompiledSet {
    pub set: RegexSet,
}

// Written out, so that a drop is one call in a proof.
impl Drop for CompiledSet {
    fn drop(self) {
        let CompiledSet { set: _ } = self;
    }
}

/// A set of patterns, or nothing. All bytes zero is an empty handle.
#[repr(C)]
#[derive(Drop)]
pub struct NfaSet {
    /// Whether the slot has a box, as in [`NfaRegex`](crate::NfaRegex).
    pub ready: bool,
    pub slot: SetSlot,
    pub ghost full: { is_some slot.value ≡ ready },
}

/// Returns a handle that owns nothing.
fn empty_set() -> NfaSet
    ensures { result.slot.value ≡ None }
{
    NfaSet {
        ready: false,
        slot: SetSlot::none(),
    }
}

/// Returns a handle that owns this.
pub(crate) fn full_set(made: Box<CompiledSet, Global>) -> NfaSet
    ensures { result.slot.value ≡ Some made.value }
{
    NfaSet {
        ready: true,
        slot: SetSlot::of_parts(Parts::of(made)),
    }
}

/// Takes out what the handle owns, if it is full, and leaves it empty.
pub(crate) fn take_set(handle: &mut NfaSet, alloc: Global) -> Option<Box<CompiledSet, Global>>
    ensures taken { option_map (λ made. made.value) result ≡ handle.old.slot.value }
    ensures empty { handle.new.slot.value ≡ None }
{
    let NfaSet { ready, slot } = std::mem::replace(handle, empty_set());
    if ready {
        Some(slot.into_parts(alloc).into_box())
    } else {
        None
    }
}
