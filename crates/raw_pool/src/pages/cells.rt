//! Pages with their marks.
ghost use Rattle.std.specs.Prelude.{◌≡◌, ◌≤◌, ◌<◌, ◌+◌, ◌↔◌, length, replicate, IsTrue};
ghost use Rattle.raw_pool.specs.PageMarks.{AreFree, remarked};
ghost use Rattle.raw_pool.specs.PagePlaces.{ArePages};

use super::memory::{FreePages, PAGE};
use crate::raw_bytes::RawBytes;
use std::mem::ManuallyDrop;

/// The free pages of a row, and a mark for each page.
pub(crate) struct Cells {
    free: FreePages,
    marks: RawBytes,
    ghost agree: { free.marks ≡ marks.set },
}

impl Cells {
    ghost use Rattle.raw_pool.specs.PageCells.{TakesPages};

    /// Pages all of which are free.
    pub(crate) fn new(free: FreePages, marks: RawBytes, pages: usize) -> Cells
        requires { (free.marks ≡ replicate pages 0) × (marks.set ≡ replicate pages 0) }
        ensures { result.free.place ≡ free.place }
    {
        Cells { free, marks }
    }

    /// Takes a number of pages from one on, where all of them are free.
    pub(crate) fn take(self, at: usize, pages: usize) -> (Cells, Option<RawBytes>)
        requires { 0 < pages }
        ensures place { result.0.free.place ≡ self.free.place }
        ensures taken { TakesPages self at pages result.0 result.1 }
        ensures same { result.1 ≡ None → result.0 ≡ self }
    {
        if !are_free(self.marks.bytes(), at, pages) {
            return (self, None);
        }
        let Cells { free, mut marks } = self;
        let (free, bytes) = free.cut(at, pages, PAGE * at);
        mark(&mut marks, at, pages, 1);
        (Cells { free, marks }, Some(bytes))
    }

    /// Gives pages back.
    pub(crate) fn give(self, bytes: RawBytes, at: usize, pages: usize) -> Cells
        requires { ArePages self.free.place at pages bytes }
        ensures place { result.free.place ≡ self.free.place }
        ensures marks { result.marks.set ≡ remarked self.marks.set at pages 0 }
    {
        let Cells { free, mut marks } = self;
        let free = free.put(bytes, at, pages);
        mark(&mut marks, at, pages, 0);
        Cells { free, marks }
    }
}

// The memory is its maker's, and is never freed here.
impl Drop for Cells {
    fn drop(self) {
        let _ended = unsafe { ManuallyDrop::new_unchecked(self) };
    }
}

/// Gives a number of pages from one on a mark.
fn mark(marks: &mut RawBytes, at: usize, count: usize, mark: u8)
    requires { at + count ≤ length marks.old.set }
    ensures { marks.new.set ≡ remarked marks.old.set at count mark }
{
    marks.bytes_mut()[at..at + count].fill(mark);
}

/// Whether a number of pages from one on are free.
fn are_free(marks: &[u8], at: usize, pages: usize) -> bool
    requires { 0 < pages }
    ensures { IsTrue result ↔ AreFree marks.now at pages }
{
    if at > marks.len() || pages > marks.len() - at {
        return false;
    }
    for i in at..at + pages {
        if marks[i] != 0 {
            return false;
        }
    }
    true
}
