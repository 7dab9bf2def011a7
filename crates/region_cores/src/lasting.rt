//! Values that lie where they are for good.
ghost use Rattle.std.specs.Prelude.{◌≡◌};
ghost use Rattle.std.specs.Ptr.{points_to};

use std::alloc::Allocator;
use std::marker::Model;

/// A value behind a pointer, whose memory is never given back.
pub(crate) struct Lasting<T> {
    pub(crate) start: *mut T,
    pub(crate) ghost value: { T },
}

impl<T> Model for Lasting<T> {
    ghost also_owns = { λ l. points_to T.row l.start l.value };
}

impl<T> Lasting<T> {
    /// The value of a box, where it is.
    pub(crate) fn new<A: Allocator>(boxed: Box<T, A>) -> Lasting<T>
    where
        T: Drop,
        ensures { result.value ≡ boxed.value }
    {
        let start = Box::into_raw(boxed);
        Lasting { start }
    }
}
