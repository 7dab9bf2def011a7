//! Pages that many take from.
ghost use Rattle.std.specs.Prelude.{◌≡◌, ◌<◌, ◌≤◌, [], IfSome};
ghost use Rattle.raw_pool.specs.PagePlaces.{ArePages};

use super::cells::Cells;
use super::memory::PageRun;
use super::slot::Slot;
use crate::raw_bytes::{Lease, RawBytes};
use std::alloc::{AllocError, Allocator};
use std::mem::ManuallyDrop;

/// Pages of memory in a row. Through a `&` to it runs of them are taken and given back.
pub struct PageHeap {
    slot: Slot,
}

impl PageHeap {
    /// A heap of a run of pages, all of them free, with bytes for their marks.
    pub fn new(run: PageRun, marks: RawBytes) -> PageHeap
        requires { (marks.set ≡ []) × (run.pages ≤ marks.room) }
    {
        let (pages, run) = run.with_pages();
        let mut marks = marks;
        marks.clear(0, pages);
        PageHeap {
            slot: Slot::new(Cells::new(run.free(), marks, pages)),
        }
    }

    /// The same, with the heap and the marks in memory that an allocator gives, and never gets back.
    pub fn lasting<'a, A: Allocator + 'a>(
        alloc: A,
        run: PageRun,
    ) -> Result<&'a PageHeap, AllocError> {
        let (pages, run) = run.with_pages();
        let (marks, none, lease) = Lease::reserve(&alloc, pages, 0)?;
        let _row = unsafe { ManuallyDrop::new_unchecked(none) };
        let _right = unsafe { ManuallyDrop::new_unchecked(lease) };
        let heap = Box::new(alloc, PageHeap::new(run, marks))?;
        Ok(Box::leak(heap))
    }

    /// Takes a number of pages from one on as bytes of which none is set, where all of them are free.
    pub fn take(&self, at: usize, pages: usize) -> Option<RawBytes>
        requires { 0 < pages }
        ensures { IfSome result (λ b. (b.set ≡ []) × ArePages self.now.slot at pages b) }
    {
        // The slot is empty only while this or `give` runs, and neither calls what could come back here.
        let (cells, bytes) = self.slot.replace(None)?.take(at, pages);
        drop(self.slot.replace(Some(cells)));
        bytes
    }

    /// Gives pages back that were taken.
    pub fn give(&self, bytes: RawBytes, at: usize, pages: usize)
        requires { ArePages self.now.slot at pages bytes }
    {
        match self.slot.replace(None) {
            Some(cells) => {
                drop(self.slot.replace(Some(cells.give(bytes, at, pages))));
            }
            None => {
                let _lost = unsafe { ManuallyDrop::new_unchecked(bytes) };
            }
        }
    }
}

// The memory is its maker's, and is never freed here.
impl Drop for PageHeap {
    fn drop(self) {
        let _ended = unsafe { ManuallyDrop::new_unchecked(self) };
    }
}
