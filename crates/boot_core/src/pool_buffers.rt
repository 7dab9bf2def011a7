//! A read of the pool's bytes with a buffer of its own.
ghost use Rattle.std.specs.Prelude.{◌≡◌};
ghost use Rattle.boot_core.specs.PoolCalls.{AnswersRead};
ghost use Rattle.boot_replies.specs.Returned.{returned_status};

use page_ranges::Status;
use pool_services::Pools;
use std::alloc::Allocator;

/// A number of bytes from an address on, all of which one block must have, and the status of the
/// read. OUT_OF_RESOURCES: there is no memory for the buffer.
pub fn read_bytes<A: Allocator + Copy>(
    alloc: A,
    pools: &Pools<A>,
    address: u64,
    size: u64,
) -> (Status, Vec<u8, A>)
    ensures { AnswersRead pools.now.extents address size result.0 result.1.items }
{
    let front = match pools.tail(address) {
        Some(bytes) if size <= bytes.len() as u64 => &bytes[..size as usize],
        _ => return (Status::InvalidParameter, Vec::new(alloc)),
    };
    if size == 0 {
        return (Status::Success, Vec::new(alloc));
    }
    match front.to_vec(alloc) {
        Ok(bytes) => (Status::Success, bytes),
        Err(_) => (Status::OutOfResources, Vec::new(alloc)),
    }
}

/// The status that a result is returned as.
pub fn returned_status(answer: Result<(), Status>) -> Status
    ensures { result ≡ returned_status answer }
{
    match answer {
        Ok(()) => Status::Success,
        Err(status) => status,
    }
}
