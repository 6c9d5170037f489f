// The box of a set that C may hold, or none.
ghost use Rattle.std.specs.Prelude.{None, Option, Some, is_some, true, ◌≡◌};
ghost use Rattle.nfa_c.specs.Held.{held};
ghost use Rattle.nfa_c.specs.contracts.set_handle.CompiledSet.{the_row};
ghost use Rattle.nfa_c.specs.declared.set_handle.CompiledSet.{CompiledSet};

use crate::parts::Parts;
use crate::set_handle::CompiledSet;
use std::alloc::Global;
use std::marker::Model;

/// A box as a pointer without the type of what it holds, since no type that a box or a vector is part of crosses to C.
#[repr(C)]
#[derive(Drop)]
pub struct SetSlot {
    at: *mut u8,
    pub ghost value: { Option CompiledSet },
}

impl Model for SetSlot {
    ghost also_owns = { λ slot. held the_row slot.at slot.value };
}

impl SetSlot {
    /// Returns a slot without a box.
    pub fn none() -> SetSlot
        ensures { result.value ≡ None }
    {
        SetSlot {
            at: std::ptr::null_mut(),
        }
    }

    /// Puts the box into a slot.
    pub fn of_parts(parts: Parts<CompiledSet, Global>) -> SetSlot
        ensures { result.value ≡ Some parts.value }
    {
        let Parts { block, alloc: _ } = parts;
        SetSlot { at: block.cast() }
    }

    /// Takes the box out.
    pub fn into_parts(self, alloc: Global) -> Parts<CompiledSet, Global>
        requires { is_some self.value ≡ true }
        ensures { self.value ≡ Some result.value }
    {
        let SetSlot { at } = self;
        Parts {
            block: at.cast(),
            alloc,
        }
    }
}

// It owns its box alone, and what is in the box may move to another thread.
unsafe impl Send for SetSlot {}
