//! A box as its pointer and its allocator.

ghost use Rattle.std.specs.Prelude.{◌≡◌};
ghost use Rattle.std.specs.Box.Ownership.{box_owns};

use std::alloc::Allocator;
use std::marker::Model;

/// The pointer and the allocator of a box. It owns what the box owned.
pub(crate) struct BoxParts<T, A: Allocator> {
    /// The pointer to the value.
    pub(crate) pointer: *mut T,
    /// The allocator of the box.
    pub(crate) alloc: A,
    pub(crate) ghost value: { T },
}

impl<T, A: Allocator> Model for BoxParts<T, A> {
    ghost also_owns = { λ p. box_owns (A.dealloc_token p.alloc) T.row p.pointer p.value };
}

impl<T, A: Allocator> BoxParts<T, A> {
    /// Takes a box apart without freeing it.
    pub(crate) fn of(boxed: Box<T, A>) -> BoxParts<T, A>
    where
        T: Drop,
        ensures { result.value ≡ boxed.value }
    {
        let (pointer, alloc) = Box::into_raw_with_allocator(boxed);
        BoxParts { pointer, alloc }
    }

    /// Returns the box.
    pub(crate) fn into_box(self) -> Box<T, A>
        ensures { result.value ≡ self.value }
    {
        let BoxParts { pointer, alloc } = self;
        unsafe { Box::from_raw(alloc, pointer) }
    }
}
