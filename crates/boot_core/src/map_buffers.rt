//! GetMemoryMap with a buffer of its own.
ghost use Rattle.std.specs.Prelude.{◌≡◌, ◌<◌, ◌≤◌, vec_len, IfOk, OnErr};
ghost use Rattle.map_keys.specs.MapReplies.{map_size};
ghost use Rattle.boot_core.specs.MapCalls.{AnswersMap, refused_map, room_for_map};

use map_keys::{MapReply, get_memory_map};
use page_ranges::Status;
use page_services::PageBook;
use std::alloc::{AllocError, Allocator};

/// GetMemoryMap with a buffer made for it in place of one of a given size: its reply, and the
/// bytes that are used. OUT_OF_RESOURCES: there is no memory for the buffer.
pub fn map_in_buffer<A: Allocator + Copy>(book: &PageBook<A>, size: u64) -> (MapReply, Vec<u8, A>)
    ensures { AnswersMap book.now size result.0 result.1.items }
{
    match room_for_map(book, size) {
        Ok(mut bytes) => {
            let reply = get_memory_map(book, bytes.as_mut_slice());
            (reply, bytes)
        }
        Err(_) => (
            refused_map(Status::OutOfResources),
            Vec::new(book.table().allocator()),
        ),
    }
}

/// A buffer as long as the map, where the map has entries and fits into a number of bytes; else an
/// empty one.
fn room_for_map<A: Allocator + Copy>(
    book: &PageBook<A>,
    size: u64,
) -> Result<Vec<u8, A>, AllocError>
    ensures room { IfOk result (λ bytes. vec_len bytes ≡ room_for_map book.now size) }
    ensures needed { OnErr result ((0 < map_size book.now) × (map_size book.now ≤ size)) }
{
    let alloc = book.table().allocator();
    let needed = map_size(book);
    if needed == 0 || size < needed {
        return Ok(Vec::new(alloc));
    }
    vec![in alloc; 0u8; needed as usize]
}

/// How many bytes the map takes: what is returned where there is no buffer.
fn map_size<A: Allocator + Copy>(book: &PageBook<A>) -> u64
    ensures { result ≡ map_size book.now }
{
    let mut none = [0u8; 0];
    get_memory_map(book, &mut none).size
}

/// A reply of GetMemoryMap with a status and no other field.
pub fn refused_map(status: Status) -> MapReply
    ensures { result ≡ refused_map status }
{
    MapReply {
        status,
        size: 0,
        key: 0,
        descriptor_size: 0,
        version: 0,
    }
}
