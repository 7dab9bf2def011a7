//! Values in blocks of their own.
ghost use Rattle.std.specs.Prelude.{◌≡◌};
ghost use Rattle.std.specs.Box.Ownership.{box_owns};

use std::alloc::Allocator;
use std::marker::Model;

/// A value in a block of its own, by the block's pointer.
pub(crate) struct Block<T, A: Allocator> {
    pub(crate) start: *mut T,
    pub(crate) heap: A,
    pub(crate) ghost value: { T },
}

impl<T, A: Allocator> Model for Block<T, A> {
    ghost also_owns = { λ b. box_owns (A.dealloc_token b.heap) T.row b.start b.value };
}

impl<T, A: Allocator> Block<T, A> {
    /// The block of a box.
    pub(crate) fn new(boxed: Box<T, A>) -> Block<T, A>
    where
        T: Drop,
        ensures { result.value ≡ boxed.value }
    {
        let (start, heap) = Box::into_raw_with_allocator(boxed);
        Block { start, heap }
    }

    /// The block as a box.
    pub(crate) fn boxed(self) -> Box<T, A>
        ensures { result.value ≡ self.value }
    {
        let Block { start, heap } = self;
        unsafe { Box::from_raw(heap, start) }
    }
}
