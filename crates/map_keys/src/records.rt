//! Records of 48 bytes, each of which encodes an entry of a memory map.
ghost use Rattle.std.specs.Prelude.{◌≡◌, ◌<◌, ◌≤◌, ◌*◌, ◌++◌, length, drop, IfOk};
ghost use Rattle.std.specs.Option.{option_map};
ghost use Rattle.page_ranges.specs.MemoryTypes.{page_count, page_size};
ghost use Rattle.map_keys.specs.Records.{ReadBackLaw, ReadsRecord, ReadsRecords, record_of, record_size};

use byteorder::{ByteOrder, LittleEndian};
use page_ranges::{Descriptor, MemoryType, PAGE_COUNT, PAGE_SIZE};
use std::alloc::{AllocError, Allocator};

/// The bytes of a record (EFI_MEMORY_DESCRIPTOR, with 8 bytes more).
pub const RECORD_SIZE: usize = 48;

/// A page has 2 to the power of this many bytes.
const PAGE_SHIFT: u32 = 12;

/// The address of a page. A page number has 52 bits, so the rotation is the product; the compiler
/// makes one store of its 8 bytes, where it takes those of the product apart.
#[inline(always)]
fn address_of(page: u64) -> u64
    requires { page < page_count }
    ensures { result ≡ page * page_size }
{
    page.rotate_left(PAGE_SHIFT)
}

/// The bytes of an entry's record.
#[inline(always)]
fn record_bytes(entry: &Descriptor) -> [u8; RECORD_SIZE]
    requires { entry.now.first < page_count }
    ensures { result ≡ record_of entry.now }
{
    let t = entry.mtype.number().to_le_bytes();
    let s = address_of(entry.first).to_le_bytes();
    let p = entry.pages.to_le_bytes();
    let a = entry.attributes.to_le_bytes();
    [
        t[0], t[1], t[2], t[3], 0, 0, 0, 0, s[0], s[1], s[2], s[3], s[4], s[5], s[6], s[7], 0, 0,
        0, 0, 0, 0, 0, 0, p[0], p[1], p[2], p[3], p[4], p[5], p[6], p[7], a[0], a[1], a[2], a[3],
        a[4], a[5], a[6], a[7], 0, 0, 0, 0, 0, 0, 0, 0,
    ]
}

/// Writes the record of an entry into the front of some bytes.
#[inline(always)]
pub(crate) fn write_record(bytes: &mut [u8], entry: &Descriptor)
    requires room { record_size ≤ length bytes.old }
    requires within { entry.now.first < page_count }
    ensures { bytes.new ≡ record_of entry.now ++ drop record_size bytes.old }
{
    if let Some(record) = bytes.first_chunk_mut() {
        *record = record_bytes(entry);
    }
}

/// The entry of a record, if the bytes are one.
fn read_record(bytes: &[u8]) -> Option<Descriptor>
    requires { length bytes.now ≡ record_size }
    ensures { ReadsRecord bytes.now result }
{
    let padding = LittleEndian::read_u32(&bytes[4..]);
    let start = LittleEndian::read_u64(&bytes[8..]);
    let virtual_start = LittleEndian::read_u64(&bytes[16..]);
    let pages = LittleEndian::read_u64(&bytes[24..]);
    let rest = LittleEndian::read_u64(&bytes[40..]);
    if padding != 0 || virtual_start != 0 || rest != 0 {
        return None;
    }
    let first = start / PAGE_SIZE;
    if start % PAGE_SIZE != 0 || pages == 0 || pages > PAGE_COUNT - first {
        return None;
    }
    Some(Descriptor {
        mtype: MemoryType::new(LittleEndian::read_u32(bytes)),
        first,
        pages,
        attributes: LittleEndian::read_u64(&bytes[32..]),
    })
}

/// The entries whose records some bytes are, in order. They need not make a memory map.
///
/// `None` unless the bytes are records of 48 bytes, each with its padding and its VirtualStart 0,
/// an aligned start, and at least one page and none past the last. `Err` if memory runs out.
pub fn read_descriptors<A: Allocator>(
    alloc: A,
    bytes: &[u8],
) -> Result<Option<Vec<Descriptor, A>>, AllocError>
    ensures { IfOk result
        (λ found. ReadsRecords bytes.now (option_map (λ entries. entries.items) found)) }
{
    if bytes.len() % RECORD_SIZE != 0 {
        return Ok(None);
    }
    let mut entries = Vec::with_capacity(alloc, bytes.len() / RECORD_SIZE)?;
    for record in bytes.chunks_exact(RECORD_SIZE) {
        let Some(entry) = read_record(record) else {
            return Ok(None);
        };
        entries.push(entry)?;
    }
    Ok(Some(entries))
}

/// What is read of the records of entries is those entries, and no others have these records.
pub fn read_back_law()
    ensures { ReadBackLaw }
{}
