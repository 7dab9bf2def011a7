//! Memory that can be refused: an allocator for tests, which refuses the allocations that a test chooses.
#![tactic(auto)]

use std::alloc::{AllocError, Allocator};
use std::cell::Cell;

/// Passes each request to another allocator, but for those that it refuses: one, or all from one on.
pub struct Refusing<B: Allocator> {
    inner: B,
    // Twice the number of allocations up to the one that is refused, and 1 more where all after it are too.
    left: Cell<u64>,
}

impl<B: Allocator> Refusing<B> {
    /// An allocator that refuses nothing.
    pub fn new(inner: B) -> Refusing<B> {
        Refusing {
            inner,
            left: Cell::new(0),
        }
    }

    /// Refuses the allocation of this number from now, the first being 1; none for 0.
    pub fn refuse(&self, number: u64) {
        self.left.set(number.saturating_mul(2));
    }

    /// Refuses the allocation of this number from now, and all after it; none for 0.
    pub fn refuse_from(&self, number: u64) {
        if number == 0 {
            self.left.set(0);
        } else {
            self.left.set(number.saturating_mul(2) | 1);
        }
    }

    /// Whether that allocation has come; true also where none is to be refused.
    pub fn has_refused(&self) -> bool {
        self.left.get() < 2
    }
}

impl<B: Allocator> Drop for Refusing<B> {
    fn drop(self) {
        let Self { inner: _, left: _ } = self;
    }
}

// Counts an allocation, and returns whether it is refused.
fn is_time(left: &Cell<u64>) -> bool {
    let before = left.get();
    left.set(before.checked_sub(2).unwrap_or(before));
    (1..=3).contains(&before)
}

unsafe impl<B: Allocator> Allocator for Refusing<B> {
    ghost dealloc_token = { λ heap ty ptr. B.dealloc_token heap.inner ty ptr };

    fn allocate(&self, size: usize, align: usize) -> Result<*mut u8, AllocError> {
        if is_time(&self.left) {
            return Err(AllocError);
        }
        self.inner.allocate(size, align)
    }

    unsafe fn deallocate(&self, ptr: *mut u8, size: usize, align: usize) {
        self.inner.deallocate(ptr, size, align);
    }
}
