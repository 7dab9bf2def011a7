//! The memory of a region: one block, with the bytes of its cells and behind them their marks.
ghost use Rattle.std.specs.Prelude.{◌≡◌, ◌≤◌, ◌<◌, ◌+◌, ◌*◌, ◌^◌, [], ◌∷◌, length, replicate, IfOk, None, Some};
ghost use Rattle.byteorder.specs.Endian.{little_bytes};
ghost use Rattle.raw_pool.specs.Answers.{IsUnset};
ghost use Rattle.raw_pool.specs.Bytes.{with_extended, with_put, with_words, word};

use crate::pages::PoolMemory;
use crate::raw_bytes::{Lease, RawBytes};
use std::alloc::{AllocError, Allocator, Global};
use std::marker::Model;

/// Pages of a machine that are a region's bytes, in place of a part of its own block.
pub(crate) struct Given {
    home: PoolMemory,
    page: u64,
    pages: usize,
    // The part of the block that they are in place of, which has no byte.
    none: RawBytes,
}

/// The bytes of cells and their marks, each set from its first byte on. Both are parts of a block of memory, or the bytes
/// are pages of a heap.
pub(crate) struct Region<A: Allocator = Global> {
    alloc: A,
    bytes: RawBytes,
    marks: RawBytes,
    lease: Lease<A>,
    given: Option<Given>,
}

impl<A: Allocator> Model for Region<A> {
    ghost use Rattle.std.specs.Prelude.{◌≡◌};
    ghost use Rattle.raw_pool.specs.Bytes.{Parts};
    ghost use Rattle.raw_pool.specs.RawRows.{bytes_of};
    ghost use Rattle.raw_pool.specs.GivenRows.{AreHeld, lies_at};

    ghost Value = { Parts };

    ghost view = { λ r.
        record { bytes = bytes_of r.bytes; marks = bytes_of r.marks; lies = lies_at r.given } };

    ghost invariant = { λ r.
        AreHeld r.given r.bytes r.marks r.lease × (r.lease.alloc ≡ r.alloc) };
}

impl<A: Allocator> Region<A> {
    /// Room for the given numbers of bytes and marks, none of which is set. It touches none of the memory.
    pub(crate) fn new(alloc: A, bytes: usize, marks: usize) -> Result<Region<A>, AllocError>
        requires { bytes + marks < 2 ^ 63 }
        ensures { IfOk result (λ r. IsUnset bytes marks r × (r.lies ≡ None)) }
    {
        let (bytes, marks, lease) = Lease::reserve(&alloc, bytes, marks)?;
        Ok(Region {
            alloc,
            bytes,
            marks,
            lease,
            given: None,
        })
    }

    /// The same over pages of a machine, from one on, where all of them are free.
    pub(crate) fn over(
        alloc: A,
        home: PoolMemory,
        page: u64,
        pages: usize,
        marks: usize,
    ) -> Result<Region<A>, AllocError>
        requires { (0 < pages) × (marks < 2 ^ 63) }
        ensures { IfOk result (λ r. IsUnset (4096 * pages) marks r × (r.lies ≡ Some page)) }
    {
        let Some(bytes) = home.take(page, pages) else {
            return Err(AllocError);
        };
        let (none, marks, lease) = match Lease::reserve(&alloc, 0, marks) {
            Ok(block) => block,
            Err(refused) => {
                home.give(bytes, page, pages);
                return Err(refused);
            }
        };
        let given = Some(Given {
            home,
            page,
            pages,
            none,
        });
        Ok(Region {
            alloc,
            bytes,
            marks,
            lease,
            given,
        })
    }

    /// The first of the machine's pages that the bytes are, where they are pages of a machine.
    pub(crate) fn page(&self) -> Option<u64>
        ensures { result ≡ self.now.lies }
    {
        match &self.given {
            Some(given) => Some(given.page),
            None => None,
        }
    }

    /// The bytes that are set.
    pub(crate) fn bytes(&self) -> &[u8]
        ensures { result.now ≡ self.now.bytes.set }
    {
        self.bytes.bytes()
    }

    /// How many bytes are set.
    pub(crate) fn len(&self) -> usize
        ensures len { result ≡ length self.now.bytes.set }
        ensures within { result ≤ self.now.bytes.room }
    {
        self.bytes.len()
    }

    /// Writes bytes from an index on, at most behind those that are set.
    pub(crate) fn write(&mut self, at: usize, bytes: &[u8])
        requires { (at ≤ length self.old.bytes.set)
            × (at + length bytes.now ≤ self.old.bytes.room) }
        ensures bytes { self.new.bytes ≡ with_put self.old.bytes at bytes.now }
        ensures marks { self.new.marks ≡ self.old.marks }
        ensures lies { self.new.lies ≡ self.old.lies }
    {
        self.bytes.write(at, bytes);
    }

    /// Sets the given number of bytes from an index on to 0.
    pub(crate) fn clear(&mut self, at: usize, count: usize)
        requires { (at ≤ length self.old.bytes.set) × (at + count ≤ self.old.bytes.room) }
        ensures bytes { self.new.bytes ≡ with_put self.old.bytes at (replicate count 0) }
        ensures marks { self.new.marks ≡ self.old.marks }
        ensures lies { self.new.lies ≡ self.old.lies }
    {
        self.bytes.clear(at, count);
    }

    /// Sets the given number of bytes from an index on to 0, and writes two numbers behind them.
    pub(crate) fn clear_and_write(&mut self, at: usize, count: usize, first: u64, second: u64)
        requires { (at ≤ length self.old.bytes.set) × (at + count + 16 ≤ self.old.bytes.room) }
        ensures bytes { self.new.bytes
            ≡ with_words (with_put self.old.bytes at (replicate count 0))
            (at + count) first second }
        ensures marks { self.new.marks ≡ self.old.marks }
        ensures lies { self.new.lies ≡ self.old.lies }
    {
        self.bytes.clear_and_write(at, count, first, second);
    }

    /// The number in the 8 bytes from an index on.
    pub(crate) fn word(&self, at: usize) -> u64
        requires { at + 8 ≤ length self.now.bytes.set }
        ensures { result ≡ word self.now.bytes.set at }
    {
        self.bytes.word(at)
    }

    /// Writes a number into the 8 bytes from an index on, which are set.
    pub(crate) fn overwrite_word(&mut self, at: usize, number: u64)
        requires { at + 8 ≤ length self.old.bytes.set }
        ensures bytes { self.new.bytes ≡ with_put self.old.bytes at (little_bytes 8 number) }
        ensures marks { self.new.marks ≡ self.old.marks }
        ensures lies { self.new.lies ≡ self.old.lies }
    {
        self.bytes.overwrite_word(at, number);
    }

    /// Writes two numbers into the 16 bytes from an index on.
    pub(crate) fn write_words(&mut self, at: usize, first: u64, second: u64)
        requires { (at ≤ length self.old.bytes.set) × (at + 16 ≤ self.old.bytes.room) }
        ensures bytes { self.new.bytes ≡ with_words self.old.bytes at first second }
        ensures marks { self.new.marks ≡ self.old.marks }
        ensures lies { self.new.lies ≡ self.old.lies }
    {
        self.bytes.write_words(at, first, second);
    }

    /// The marks that are set.
    pub(crate) fn marks(&self) -> &[u8]
        ensures { result.now ≡ self.now.marks.set }
    {
        self.marks.bytes()
    }

    /// Sets the mark of a cell, which is set.
    pub(crate) fn overwrite_mark(&mut self, cell: usize, mark: u8)
        requires { cell < length self.old.marks.set }
        ensures marks { self.new.marks ≡ with_put self.old.marks cell (mark ∷ []) }
        ensures bytes { self.new.bytes ≡ self.old.bytes }
        ensures lies { self.new.lies ≡ self.old.lies }
    {
        self.marks.overwrite(cell, mark);
    }

    /// Sets the mark of a cell. The marks before `end` that are not set yet become 0.
    pub(crate) fn put_mark(&mut self, cell: usize, end: usize, mark: u8)
        requires { (cell < end) × (end ≤ self.old.marks.room) }
        ensures marks { self.new.marks
            ≡ with_put (with_extended self.old.marks end) cell (mark ∷ []) }
        ensures bytes { self.new.bytes ≡ self.old.bytes }
        ensures lies { self.new.lies ≡ self.old.lies }
    {
        self.marks.put(cell, end, mark);
    }
}

impl<A: Allocator> Drop for Region<A> {
    fn drop(self) {
        let Region {
            alloc,
            bytes,
            marks,
            lease,
            given,
        } = self;
        match given {
            None => lease.release(bytes, marks, &alloc),
            Some(
                Given {
                    home,
                    page,
                    pages,
                    none,
                },
            ) => {
                home.give(bytes, page, pages);
                lease.release(none, marks, &alloc);
            }
        }
    }
}
