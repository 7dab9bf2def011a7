//! The pages of memory that are free, of those that a maker hands over. No other file names a pointer.
ghost use Rattle.std.specs.Prelude.{◌≡◌, ◌<◌, ◌≤◌, ◌+◌, ◌*◌, ◌^◌, ℕ, List, [], length, replicate, IfOk};
ghost use types.Logic.{sem};
ghost use denote.RawPtr.{room_for};
ghost use Rattle.raw_pool.specs.Ownership.{byte_row};
ghost use Rattle.raw_pool.specs.PageMarks.{AreFree, remarked};
ghost use Rattle.raw_pool.specs.PageOwnership.{free_from};
ghost use Rattle.raw_pool.specs.PagePlaces.{ArePages, IsStart, Place, page_ptr};

use crate::raw_bytes::{Lease, RawBytes};
use std::alloc::{AllocError, Allocator};
use std::marker::Model;
use std::mem::ManuallyDrop;

/// The bytes of a page.
pub(crate) const PAGE: usize = 4096;

/// Pages of memory in a row that are their owner's alone.
#[repr(C)]
#[derive(Drop)]
pub struct PageRun {
    start: *mut u8,
    pub pages: usize,
    ghost few: { 4096 * pages < 2 ^ 63 },
}

impl Model for PageRun {
    ghost also_owns = { λ r. room_for (byte_row (4096 * r.pages)) r.start };
}

/// The free pages of a number of pages in a row: those whose mark is 0.
#[derive(Drop)]
pub(crate) struct FreePages {
    start: *mut u8,
    pub(crate) ghost place: { Place },
    pub(crate) ghost marks: { List ℕ },
    ghost placed: { IsStart place start × (length marks ≡ place.pages) },
}

impl Model for FreePages {
    ghost also_owns = { λ f. free_from f.place.object f.place.start f.marks };
}

impl PageRun {
    /// The memory of a number of pages from an address on. The caller gives it up.
    pub unsafe fn from_raw_parts(start: *mut u8, pages: usize) -> PageRun
        requires few { 4096 * pages < 2 ^ 63 }
        requires* memory { sem 𝓛 (room_for (byte_row (4096 * pages)) start) }
        ensures { result.pages ≡ pages }
    {
        PageRun { start, pages }
    }

    /// Memory that another allocator gives, and never gets back.
    pub fn within<A: Allocator>(alloc: &A, pages: usize) -> Result<PageRun, AllocError>
        requires { 4096 * pages < 2 ^ 63 }
        ensures { IfOk result (λ r. r.pages ≡ pages) }
    {
        let (bytes, none, lease) = Lease::reserve(alloc, PAGE * pages, 0)?;
        let _row = unsafe { ManuallyDrop::new_unchecked(none) };
        let _right = unsafe { ManuallyDrop::new_unchecked(lease) };
        Ok(PageRun::of(bytes, pages))
    }

    /// The memory of a row of bytes.
    fn of(bytes: RawBytes, pages: usize) -> PageRun
        requires { bytes.room ≡ 4096 * pages }
        ensures { result.pages ≡ pages }
    {
        let RawBytes { ptr, len: _ } = bytes;
        PageRun { start: ptr, pages }
    }

    /// How many pages there are, and the run again.
    pub(crate) fn with_pages(self) -> (usize, PageRun)
        ensures { (result.0 ≡ self.pages) × (result.1.pages ≡ self.pages)
            × (4096 * self.pages < 2 ^ 63) }
    {
        let PageRun { start, pages } = self;
        (pages, PageRun { start, pages })
    }

    /// The pages, all of them free.
    pub(crate) fn free(self) -> FreePages
        ensures { (result.place.pages ≡ self.pages) × (result.marks ≡ replicate self.pages 0) }
    {
        let PageRun { start, pages: _ } = self;
        FreePages { start }
    }
}

impl FreePages {
    /// Takes a number of free pages from one on, which begins at an offset, as bytes of which none is set.
    pub(crate) fn cut(self, at: usize, pages: usize, offset: usize) -> (FreePages, RawBytes)
        requires inside { (0 < pages) × (at + pages ≤ self.place.pages) × (offset ≡ 4096 * at) }
        requires free { AreFree self.marks at pages }
        ensures free { (result.0.place ≡ self.place)
            × (result.0.marks ≡ remarked self.marks at pages 1) }
        ensures bytes { (result.1.set ≡ []) × ArePages self.place at pages result.1 }
    {
        let FreePages { start } = self;
        let ptr = unsafe { start.add(offset) };
        (FreePages { start }, RawBytes { ptr, len: 0 })
    }

    /// Makes pages free again.
    pub(crate) fn put(self, bytes: RawBytes, at: usize, pages: usize) -> FreePages
        requires { ArePages self.place at pages bytes }
        ensures { (result.place ≡ self.place) × (result.marks ≡ remarked self.marks at pages 0) }
    {
        let FreePages { start } = self;
        let RawBytes { ptr: _, len: _ } = bytes;
        FreePages { start }
    }
}
