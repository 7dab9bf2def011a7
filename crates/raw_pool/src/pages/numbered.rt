//! Pages of a heap that are those of a machine.
ghost use Rattle.std.specs.Prelude.{◌≡◌, ◌<◌, [], IfSome};
ghost use Rattle.raw_pool.specs.PageNumbers.{AreNumbered};

use super::heap::PageHeap;
use crate::raw_bytes::RawBytes;

/// Pages of memory that are those of a machine, from one on.
#[derive(Clone, Copy, Drop)]
pub struct PoolMemory {
    pub heap: &'static PageHeap,
    /// The machine's page that is the first of the heap's.
    pub first: u64,
}

impl PoolMemory {
    /// Takes a number of the machine's pages from one on, where the heap has all of them and they are free.
    pub(crate) fn take(self, page: u64, pages: usize) -> Option<RawBytes>
        requires { 0 < pages }
        ensures { IfSome result (λ b. (b.set ≡ []) × AreNumbered self page pages b) }
    {
        let at = page.checked_sub(self.first)?;
        self.heap.take(at as usize, pages)
    }

    /// Gives pages back that were taken.
    pub(crate) fn give(self, bytes: RawBytes, page: u64, pages: usize)
        requires { AreNumbered self page pages bytes }
    {
        self.heap.give(bytes, (page - self.first) as usize, pages);
    }
}
