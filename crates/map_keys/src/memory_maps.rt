//! GetMemoryMap.
ghost use Rattle.std.specs.Prelude.{◌≡◌, length};
ghost use Rattle.map_keys.specs.MapReplies.{map_reply, buffer_with_map};

use crate::map_records::write_map;
use crate::records::RECORD_SIZE;
use page_ranges::Status;
use page_services::PageBook;
use std::alloc::Allocator;

/// The version of the memory descriptors (EFI_MEMORY_DESCRIPTOR_VERSION).
pub const DESCRIPTOR_VERSION: u32 = 1;

/// What GetMemoryMap returns beside the bytes of the map.
#[derive(Clone, Copy, Debug, PartialEq, Eq)]
pub struct MapReply {
    /// SUCCESS or BUFFER_TOO_SMALL.
    pub status: Status,
    /// The bytes that the map takes.
    pub size: u64,
    /// The map key, 0 if the buffer is too small.
    pub key: u64,
    /// The bytes of a descriptor, 0 if the buffer is too small.
    pub descriptor_size: u64,
    /// The version of the descriptors, 0 if the buffer is too small.
    pub version: u32,
}

/// Writes the memory map into the front of a buffer, a record of 48 bytes for each entry by
/// ascending page, and returns the bytes used, the map key, 48 and 1. All bytes behind the map stay.
///
/// BUFFER_TOO_SMALL where the buffer has fewer bytes than the map: the reply has the size needed,
/// and 0 in all other fields, and the buffer stays as it was. Takes no memory.
pub fn get_memory_map<A: Allocator + Copy>(book: &PageBook<A>, buffer: &mut [u8]) -> MapReply
    ensures reply { result ≡ map_reply book.now (length buffer.old) }
    ensures buffer { buffer.new ≡ buffer_with_map book.now buffer.old }
{
    let table = book.table();
    let size = table.descriptors() * RECORD_SIZE;
    if buffer.len() < size {
        return MapReply {
            status: Status::BufferTooSmall,
            size: size as u64,
            key: 0,
            descriptor_size: 0,
            version: 0,
        };
    }
    write_map(buffer, table.leaves());
    MapReply {
        status: Status::Success,
        size: size as u64,
        key: book.key(),
        descriptor_size: RECORD_SIZE as u64,
        version: DESCRIPTOR_VERSION,
    }
}
