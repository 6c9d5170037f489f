// A box as its pointer and its allocator.
ghost use Rattle.std.specs.Prelude.{◌≡◌};
ghost use Rattle.std.specs.Box.Ownership.{box_owns};

use std::alloc::Allocator;
use std::marker::Model;

/// What a box has, with fields that can be read. It owns what the box does.
pub struct Parts<T, A: Allocator> {
    pub block: *mut T,
    pub alloc: A,
    pub ghost value: { T },
}

impl<T, A: Allocator> Model for Parts<T, A> {
    ghost also_owns = { λ parts. box_owns (A.dealloc_token parts.alloc) T.row parts.block parts.value };
}

impl<T, A: Allocator> Parts<T, A> {
    /// Takes the box apart.
    pub fn of(whole: Box<T, A>) -> Parts<T, A>
    where
        T: Drop,
        ensures { result.value ≡ whole.value }
    {
        let (block, alloc) = Box::into_raw_with_allocator(whole);
        Parts { block, alloc }
    }

    /// Makes it a box again.
    pub fn into_box(self) -> Box<T, A>
        ensures { result.value ≡ self.value }
    {
        let Parts { block, alloc } = self;
        unsafe { Box::from_raw(alloc, block) }
    }
}
