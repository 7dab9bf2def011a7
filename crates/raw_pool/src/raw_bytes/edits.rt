//! Bytes of a row are read and written by their indexes.
ghost use Rattle.std.specs.Prelude.{◌≡◌, ◌≤◌, ◌<◌, ◌+◌, ◌-◌, [], ◌∷◌, length, replicate};
ghost use Rattle.byteorder.specs.Endian.{little_bytes};
ghost use Rattle.raw_pool.specs.Bytes.{extended, put, put_words, word};

use super::RawBytes;
use byteorder::{ByteOrder, LittleEndian};

/// The number in the 8 bytes from an index on.
#[inline(always)]
pub(crate) fn word_in(bytes: &[u8], at: usize) -> u64
    requires { at + 8 ≤ length bytes.now }
    ensures { result ≡ word bytes.now at }
{
    LittleEndian::read_u64(&bytes[at..at + 8])
}

/// Writes a number over 8 bytes. Into an array it goes without a look at whether its source overlaps it.
#[inline(always)]
fn set_word(bytes: &mut [u8], number: u64)
    requires { length bytes.old ≡ 8 }
    ensures { bytes.new ≡ little_bytes 8 number }
{
    let Some(word) = bytes.as_mut_array::<8>() else {
        unreachable!();
    };
    *word = number.to_le_bytes();
}

/// How many bytes are set to 0 at a time.
const CLEARED: usize = 32;

/// Writes an array over as many bytes.
#[inline(always)]
fn set_array(bytes: &mut [u8], array: &[u8; CLEARED])
    requires { length bytes.old ≡ 32 }
    ensures { bytes.new ≡ array.now }
{
    let Some(place) = bytes.as_mut_array::<CLEARED>() else {
        unreachable!();
    };
    *place = *array;
}

/// Sets bytes to 0. Most blocks are small, so mostly these are the bytes of one cell.
fn set_zeros(bytes: &mut [u8])
    ensures { bytes.new ≡ replicate (length bytes.old) 0 }
{
    if bytes.len() == CLEARED {
        set_array(bytes, &[0; CLEARED]);
    } else {
        set_parts(bytes);
    }
}

/// The same, one part after the other. They are copied, which is two moves of 16 bytes where a fill makes four of eight.
fn set_parts(bytes: &mut [u8])
    ensures { bytes.new ≡ replicate (length bytes.old) 0 }
{
    let count = bytes.len() / CLEARED;
    for k in 0..count {
        let at = CLEARED * k;
        set_array(&mut bytes[at..at + CLEARED], &[0; CLEARED]);
    }
    bytes[CLEARED * count..].fill(0);
}

impl RawBytes {
    /// How many bytes are set.
    pub(crate) fn len(&self) -> usize
        ensures { result ≡ length self.now.set }
    {
        self.bytes().len()
    }

    /// Sets the bytes up to an index that are not set yet to 0.
    fn extend_to(&mut self, end: usize)
        requires { end ≤ self.old.room }
        ensures set { self.new.set ≡ extended self.old.set end }
        ensures place { (self.new.room ≡ self.old.room) × (self.new.ptr ≡ self.old.ptr) }
    {
        let len = self.len();
        if end > len {
            self.extend(end - len);
        }
    }

    /// Writes bytes from an index on, at most behind those that are set.
    pub(crate) fn write(&mut self, at: usize, bytes: &[u8])
        requires { (at ≤ length self.old.set) × (at + length bytes.now ≤ self.old.room) }
        ensures set { self.new.set ≡ put self.old.set at bytes.now }
        ensures place { (self.new.room ≡ self.old.room) × (self.new.ptr ≡ self.old.ptr) }
    {
        self.extend_to(at + bytes.len());
        self.bytes_mut()[at..at + bytes.len()].copy_from_slice(bytes);
    }

    /// Sets the byte at an index, which is set.
    pub(crate) fn overwrite(&mut self, at: usize, byte: u8)
        requires { at < length self.old.set }
        ensures set { self.new.set ≡ put self.old.set at (byte ∷ []) }
        ensures place { (self.new.room ≡ self.old.room) × (self.new.ptr ≡ self.old.ptr) }
    {
        self.bytes_mut()[at] = byte;
    }

    /// Sets the byte at an index. The bytes before `end` that are not set yet become 0.
    pub(crate) fn put(&mut self, at: usize, end: usize, byte: u8)
        requires { (at < end) × (end ≤ self.old.room) }
        ensures set { self.new.set ≡ put (extended self.old.set end) at (byte ∷ []) }
        ensures place { (self.new.room ≡ self.old.room) × (self.new.ptr ≡ self.old.ptr) }
    {
        self.extend_to(end);
        self.overwrite(at, byte);
    }

    /// Sets the given number of bytes that are set to 0.
    fn overwrite_zeros(&mut self, at: usize, count: usize)
        requires { at + count ≤ length self.old.set }
        ensures set { self.new.set ≡ put self.old.set at (replicate count 0) }
        ensures place { (self.new.room ≡ self.old.room) × (self.new.ptr ≡ self.old.ptr) }
    {
        set_zeros(&mut self.bytes_mut()[at..at + count]);
    }

    /// Sets the bytes that are set from an index on to 0. Mostly these are two numbers, the header of a free run
    /// behind which nothing is set yet.
    #[inline(always)]
    fn clear_rest(&mut self, at: usize)
        requires { at ≤ length self.old.set }
        ensures set { self.new.set
            ≡ put self.old.set at (replicate (length self.old.set - at) 0) }
        ensures place { (self.new.room ≡ self.old.room) × (self.new.ptr ≡ self.old.ptr) }
    {
        let count = self.len() - at;
        if count == 16 {
            self.overwrite_word(at, 0);
            self.overwrite_word(at + 8, 0);
        } else {
            self.overwrite_zeros(at, count);
        }
    }

    /// Sets the given number of bytes from an index on to 0.
    pub fn clear(&mut self, at: usize, count: usize)
        requires { (at ≤ length self.old.set) × (at + count ≤ self.old.room) }
        ensures set { self.new.set ≡ put self.old.set at (replicate count 0) }
        ensures place { (self.new.room ≡ self.old.room) × (self.new.ptr ≡ self.old.ptr) }
    {
        let over = self.len() - at;
        if count <= over {
            self.overwrite_zeros(at, count);
        } else {
            self.clear_rest(at);
            self.extend(count - over);
        }
    }

    /// The number in the 8 bytes from an index on.
    pub(crate) fn word(&self, at: usize) -> u64
        requires { at + 8 ≤ length self.now.set }
        ensures { result ≡ word self.now.set at }
    {
        word_in(self.bytes(), at)
    }

    /// Writes a number into the 8 bytes from an index on, which are set.
    pub(crate) fn overwrite_word(&mut self, at: usize, number: u64)
        requires { at + 8 ≤ length self.old.set }
        ensures set { self.new.set ≡ put self.old.set at (little_bytes 8 number) }
        ensures place { (self.new.room ≡ self.old.room) × (self.new.ptr ≡ self.old.ptr) }
    {
        set_word(&mut self.bytes_mut()[at..at + 8], number);
    }

    /// Writes two numbers into the 16 bytes from an index on, which are set.
    #[inline(always)]
    fn overwrite_words(&mut self, at: usize, first: u64, second: u64)
        requires { at + 16 ≤ length self.old.set }
        ensures set { self.new.set ≡ put_words self.old.set at first second }
        ensures place { (self.new.room ≡ self.old.room) × (self.new.ptr ≡ self.old.ptr) }
    {
        self.overwrite_word(at, first);
        self.overwrite_word(at + 8, second);
    }

    /// Writes two numbers into the 16 bytes from an index on.
    pub(crate) fn write_words(&mut self, at: usize, first: u64, second: u64)
        requires { (at ≤ length self.old.set) × (at + 16 ≤ self.old.room) }
        ensures set { self.new.set ≡ put_words self.old.set at first second }
        ensures place { (self.new.room ≡ self.old.room) × (self.new.ptr ≡ self.old.ptr) }
    {
        self.extend_to(at + 16);
        self.overwrite_words(at, first, second);
    }

    /// Sets the given number of bytes from an index on to 0, and writes two numbers behind them.
    pub(crate) fn clear_and_write(&mut self, at: usize, count: usize, first: u64, second: u64)
        requires { (at ≤ length self.old.set) × (at + count + 16 ≤ self.old.room) }
        ensures set { self.new.set
            ≡ put_words (put self.old.set at (replicate count 0)) (at + count) first second }
        ensures place { (self.new.room ≡ self.old.room) × (self.new.ptr ≡ self.old.ptr) }
    {
        let over = self.len() - at;
        if count + 16 <= over {
            self.overwrite_zeros(at, count);
            self.overwrite_words(at + count, first, second);
            return;
        }
        self.clear_rest(at);
        self.extend(count + 16 - over);
        self.overwrite_words(at + count, first, second);
    }
}
