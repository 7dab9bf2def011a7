//! Rows of bytes behind raw pointers, each of which has a front that is set. The two rows of a
//! block are taken and freed together. No other file names a pointer.
ghost use Rattle.std.specs.Prelude.{◌≡◌, ◌≤◌, ◌<◌, ◌+◌, ◌^◌, ℕ, List, [], ◌∷◌, ◌++◌, length, replicate, IfOk};
ghost use Rattle.std.specs.Borrow.{full_share, sem, u8};
ghost use denote.Array.{Array};
ghost use denote.RawPtr.{Ptr, lies_at, room_for};
ghost use Rattle.raw_pool.specs.Ownership.{byte_row, leased, row_lent, row_owned};

use std::alloc::{AllocError, Allocator};
use std::marker::{Model, PhantomData};
use std::slice;

mod edits;

pub(crate) use edits::word_in;

/// Bytes in a row, of which the first `len` are set. The others are never read.
pub struct RawBytes {
    pub ptr: *mut u8,
    pub len: usize,
    pub ghost room: { ℕ },
    pub ghost set: { List ℕ },
    pub ghost ok: { (len ≡ length set) × (len ≤ room) × (room < 2 ^ 63) },
}

impl Model for RawBytes {
    ghost also_owns = { λ r. row_owned r.ptr r.len r.room r.set };

    ghost also_shares = { λ r _ κ. row_lent r.ptr r.len r.set κ };
}

/// The right to free a block of `size` bytes.
pub(crate) struct Lease<A: Allocator> {
    size: usize,
    by: PhantomData<A>,
    ghost alloc: { A },
    ghost ptr: { Ptr },
}

impl<A: Allocator> Model for Lease<A> {
    ghost also_owns = { λ l. leased (A.dealloc_token l.alloc) l.ptr l.size };
}

impl<A: Allocator> Lease<A> {
    ghost use Rattle.raw_pool.specs.RawRows.{AreLeased};

    /// Takes a block for two rows, one behind the other, in which no byte is set.
    pub(crate) fn reserve(
        alloc: &A,
        first: usize,
        second: usize,
    ) -> Result<(RawBytes, RawBytes, Lease<A>), AllocError>
        requires { first + second < 2 ^ 63 }
        ensures rows { IfOk result
            (λ p. (p.0.set ≡ []) × (p.0.room ≡ first) × (p.1.set ≡ []) × (p.1.room ≡ second)) }
        ensures block { IfOk result
            (λ p. AreLeased p.0 p.1 p.2 × (p.2.alloc ≡ alloc.now)) }
    {
        let size = first + second;
        match alloc.allocate(size, 1) {
            Ok(ptr) => {
                let behind = unsafe { ptr.add(first) };
                let by = PhantomData;
                Ok((
                    RawBytes { ptr, len: 0 },
                    RawBytes {
                        ptr: behind,
                        len: 0,
                    },
                    Lease { size, by },
                ))
            }
            Err(refused) => Err(refused),
        }
    }

    /// Frees the block of two rows.
    pub(crate) fn release(self, first: RawBytes, second: RawBytes, alloc: &A)
        requires { AreLeased first second self × (self.alloc ≡ alloc.now) }
    {
        let Lease { size, by: _ } = self;
        let RawBytes { ptr, len: _ } = first;
        let RawBytes { ptr: _, len: _ } = second;
        unsafe { alloc.deallocate(ptr, size, 1) }
    }
}

impl RawBytes {
    ghost use denote.Follow.{follows};
    ghost use Rattle.raw_pool.specs.RawRows.{with_set};
    ghost use Rattle.raw_pool.specs.contracts.raw_bytes.RawBytes.{the_row};

    /// The bytes that are set.
    pub fn bytes(&self) -> &[u8]
        ensures { result.now ≡ self.now.set }
    {
        unsafe { slice::from_raw_parts(self.ptr, self.len) }
    }

    /// The bytes that are set, to be written.
    pub fn bytes_mut(&mut self) -> &mut [u8]
        ensures* writes_back { sem 𝓛
            (follows the_row (Array u8 0) self.entry.ghost_name result.ghost_name
            (with_set self.old)) }
        ensures value { result.now ≡ self.old.set }
    {
        unsafe { slice::from_raw_parts_mut(self.ptr, self.len) }
    }

    /// Sets the given number of further bytes to 0. Most blocks are small, so mostly these are those of one cell.
    pub(crate) fn extend(&mut self, count: usize)
        requires { length self.old.set + count ≤ self.old.room }
        ensures set { self.new.set ≡ self.old.set ++ replicate count 0 }
        ensures place { (self.new.room ≡ self.old.room) × (self.new.ptr ≡ self.old.ptr) }
    {
        if count == PART {
            self.extend_part();
        } else {
            self.extend_by(count);
        }
    }

    /// The same for as many bytes as are set to 0 at a time.
    fn extend_part(&mut self)
        requires { length self.old.set + 32 ≤ self.old.room }
        ensures set { self.new.set ≡ self.old.set ++ replicate 32 0 }
        ensures place { (self.new.room ≡ self.old.room) × (self.new.ptr ≡ self.old.ptr) }
    {
        let zeros = &[0; PART];
        let len = self.len;
        unsafe { (self.ptr.add(len) as *mut [u8; PART]).write(*zeros) };
        self.len = len + PART;
    }

    /// The same for any number.
    fn extend_by(&mut self, count: usize)
        requires { length self.old.set + count ≤ self.old.room }
        ensures set { self.new.set ≡ self.old.set ++ replicate count 0 }
        ensures place { (self.new.room ≡ self.old.room) × (self.new.ptr ≡ self.old.ptr) }
    {
        let len = self.len;
        unsafe { zero(self.ptr.add(len), count) };
        self.len = len + count;
    }
}

/// How many bytes are set to 0 at a time.
const PART: usize = 32;

/// Sets the given number of bytes at a pointer to 0.
unsafe fn zero(start: *mut u8, count: usize)
    requires few { count < 2 ^ 63 }
    requires* memory { sem 𝓛 (room_for (byte_row count) start) }
    ensures* { sem 𝓛 (lies_at (Array u8 count) full_share start (replicate count 0)) }
{
    let zeros = &[0; PART];
    let mut i = 0;
    while i + PART <= count {
        unsafe { (start.add(i) as *mut [u8; PART]).write(*zeros) };
        i += PART;
    }
    while i < count {
        unsafe { start.add(i).write(0) };
        i += 1;
    }
}
