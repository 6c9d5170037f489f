// A box that C may hold, or none.
ghost use Rattle.std.specs.Prelude.{None, Option, Some, is_some, true, ◌≡◌};
ghost use Rattle.nfa_c.specs.Held.{held};
ghost use Rattle.nfa_c.specs.contracts.handle.Compiled.{the_row};
ghost use Rattle.nfa_c.specs.declared.handle.Compiled.{Compiled};

use crate::handle::Compiled;
use crate::parts::Parts;
use std::alloc::Global;
use std::marker::Model;

/// A box as a pointer without the type of what it holds, since no type that a box or a vector is part of crosses to C.
#[repr(C)]
#[derive(Drop)]
pub struct Slot {
    at: *mut u8,
    pub ghost value: { Option Compiled },
}

impl Model for Slot {
    ghost also_owns = { λ slot. held the_row slot.at slot.value };
}

impl Slot {
    /// Returns a slot without a box.
    pub fn none() -> Slot
        ensures { result.value ≡ None }
    {
        Slot {
            at: std::ptr::null_mut(),
        }
    }

    /// Puts the box into a slot.
    pub fn of_parts(parts: Parts<Compiled, Global>) -> Slot
        ensures { result.value ≡ Some parts.value }
    {
        let Parts { block, alloc: _ } = parts;
        Slot { at: block.cast() }
    }

    /// Takes the box out.
    pub fn into_parts(self, alloc: Global) -> Parts<Compiled, Global>
        requires { is_some self.value ≡ true }
        ensures { self.value ≡ Some result.value }
    {
        let Slot { at } = self;
        Parts {
            block: at.cast(),
            alloc,
        }
    }
}

// It owns its box alone, and what is in the box may move to another thread.
unsafe impl Send for Slot {}
