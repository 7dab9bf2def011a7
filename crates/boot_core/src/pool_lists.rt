//! Lists in pool blocks of their own, which the caller frees.
ghost use Rattle.std.specs.Prelude.{◌≡◌, ◌<◌, ◌^◌};
ghost use Rattle.page_services.specs.PageRules.{IsBestChoice};
ghost use Rattle.pool_services.specs.PoolRules.{OwnsExtents};
ghost use Rattle.protocol_services.specs.Lists.{IsRaised};
ghost use Rattle.boot_core.specs.Machines.{parts_in};
ghost use Rattle.boot_core.specs.PoolLists.{ListsOpens, LocatesBuffer};

use boot_replies::{BOOT_SERVICES_DATA, PoolList};
use page_ranges::Status;
use page_services::PageBook;
use pool_services::Pools;
use protocol_services::{Protocols, handle_bytes, item_bytes};
use std::alloc::Allocator;
use uuid::Uuid;

/// LocateHandleBuffer: puts the handles that a search is for into a pool block, 8 bytes each. A search by
/// a key takes its handle, but where it is refused.
///
/// INVALID_PARAMETER: another search, or a key of no registration. NOT_FOUND: there are none. OUT_OF_RESOURCES: memory
/// ran out, the machine's or the host's.
pub(crate) fn locate_buffer<A: Allocator + Copy>(
    book: &mut PageBook<A>,
    pools: &mut Pools<A>,
    protocols: &mut Protocols<A>,
    search: u32,
    guid: Uuid,
    key: u64,
) -> Result<PoolList<A>, Status>
    requires key { book.old.key < 2 ^ 62 }
    requires owns { OwnsExtents book.old.memory pools.old.extents }
    ensures raised { IsRaised protocols.old protocols.new }
    ensures locates { LocatesBuffer IsBestChoice
        (parts_in book.old pools.old protocols.old) search guid key result
        (parts_in book.new pools.new protocols.new) }
    ensures memory { pools.new.memory ≡ pools.old.memory }
{
    let found = protocols.find(search, guid, key, u64::MAX);
    if found.status != Status::Success {
        return Err(found.status);
    }
    let bytes = match handle_bytes(book.table().allocator(), found.handles.as_slice()) {
        Ok(bytes) => bytes,
        Err(_) => return Err(Status::OutOfResources),
    };
    let (address, certificate) = pools.allocate_filled(book, BOOT_SERVICES_DATA, bytes.as_slice())?;
    protocols.take_found(search, key);
    Ok(PoolList {
        count: found.handles.len() as u64,
        address,
        certificate,
    })
}

/// OpenProtocolInformation: puts the open items of an interface into a pool block, 24 bytes each, in the
/// order in which they were made. Without any there is no block.
///
/// NOT_FOUND: the handle is not live, or does not carry the GUID. OUT_OF_RESOURCES: memory ran out, the
/// machine's or the host's.
pub(crate) fn list_opens<A: Allocator + Copy>(
    book: &mut PageBook<A>,
    pools: &mut Pools<A>,
    protocols: &Protocols<A>,
    handle: u64,
    guid: Uuid,
) -> Result<PoolList<A>, Status>
    requires key { book.old.key < 2 ^ 62 }
    requires owns { OwnsExtents book.old.memory pools.old.extents }
    ensures lists { ListsOpens IsBestChoice
        (parts_in book.old pools.old protocols.now) handle guid result
        (parts_in book.new pools.new protocols.now) }
    ensures memory { pools.new.memory ≡ pools.old.memory }
{
    let items = protocols.items(handle, guid)?;
    if items.is_empty() {
        return Ok(PoolList {
            count: 0,
            address: 0,
            certificate: None,
        });
    }
    let bytes = match item_bytes(book.table().allocator(), items.as_slice()) {
        Ok(bytes) => bytes,
        Err(_) => return Err(Status::OutOfResources),
    };
    let (address, certificate) = pools.allocate_filled(book, BOOT_SERVICES_DATA, bytes.as_slice())?;
    Ok(PoolList {
        count: items.len() as u64,
        address,
        certificate,
    })
}
