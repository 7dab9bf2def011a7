//! The certificates that replies carry.
ghost use Rattle.std.specs.Prelude.{◌≡◌, ◌<◌, option_and_then, option_map};
ghost use Rattle.page_services.specs.PageRules.{if_counted};
ghost use Rattle.boot_replies.specs.Certified.{certificate_in, certified, list_request, may_be_certified, request_for, returned_count};

use crate::replies::Reply;
use boot_calls::{Call, ENTRY_SIZE, HANDLE_SIZE};
use page_ranges::MemoryType;
use page_services::placement_request;
use placement_certificate::{Certificate, Request};
use pool_services::extent_request;
use std::alloc::Allocator;

/// EfiBootServicesData, the memory type of the pool blocks that the core allocates itself.
pub const BOOT_SERVICES_DATA: u32 = 4;

/// The certificate of the reply to a call on a machine with a granule of this many pages, and the request
/// that it is for.
pub fn certified<'a, A: Allocator>(
    granule: u64,
    call: &Call<A>,
    reply: &'a Reply<A>,
) -> Option<(Request, &'a Certificate<A>)>
    ensures { option_map (λ returned. (returned.0, returned.1.now)) result
        ≡ certified granule call.now reply.now }
{
    match (request_for(granule, call, reply), certificate_in(reply)) {
        (Some(request), Some(certificate)) => Some((request, certificate)),
        _ => None,
    }
}

/// Whether a reply to the call on a machine with a granule of this many pages may carry a certificate,
/// which says nothing without the memory map before the call.
pub fn may_be_certified<A: Allocator>(granule: u64, call: &Call<A>) -> bool
    ensures { result ≡ may_be_certified granule call.now }
{
    match call {
        Call::AllocatePages {
            kind,
            mtype,
            pages,
            memory,
        } => placement_request(granule, *kind, MemoryType::new(*mtype), *pages, *memory).is_some(),
        Call::AllocatePool { mtype, size } => {
            let request = extent_request(granule, MemoryType::new(*mtype), *size);
            request.is_some()
        }
        Call::LocateHandleBuffer { .. } | Call::OpenProtocolInformation { .. } => true,
        _ => false,
    }
}

/// The request that a call on a machine with a granule leaves to the service to place.
fn request_for<A: Allocator>(granule: u64, call: &Call<A>, reply: &Reply<A>) -> Option<Request>
    ensures { result ≡ request_for granule call.now reply.now }
{
    match call {
        Call::AllocatePages {
            kind,
            mtype,
            pages,
            memory,
        } => placement_request(granule, *kind, MemoryType::new(*mtype), *pages, *memory),
        Call::AllocatePool { mtype, size } => {
            extent_request(granule, MemoryType::new(*mtype), *size)
        }
        Call::LocateHandleBuffer { .. } => list_request(
            granule,
            HANDLE_SIZE as u64,
            returned_count(reply),
        ),
        Call::OpenProtocolInformation { .. } => list_request(
            granule,
            ENTRY_SIZE as u64,
            returned_count(reply),
        ),
        _ => None,
    }
}

/// How many items a reply says are in a pool block.
fn returned_count<A: Allocator>(reply: &Reply<A>) -> Option<u64>
    ensures { result ≡ returned_count reply.now }
{
    match reply {
        Reply::LocateHandleBuffer(Ok(returned)) => Some(returned.count),
        Reply::OpenProtocolInformation(Ok(returned)) => Some(returned.count),
        _ => None,
    }
}

/// The request on a machine with a granule for a block of `count` items of `size` bytes each, where
/// they are so few that a block can have them.
fn list_request(granule: u64, size: u64, count: Option<u64>) -> Option<Request>
    requires { 0 < size }
    ensures { result ≡ option_and_then if_counted (list_request granule size count) }
{
    let bytes = count?.checked_mul(size)?;
    extent_request(granule, MemoryType::new(BOOT_SERVICES_DATA), bytes)
}

/// The certificate that a reply carries.
fn certificate_in<A: Allocator>(reply: &Reply<A>) -> Option<&Certificate<A>>
    ensures { option_map (λ c. c.now) result ≡ certificate_in reply.now }
{
    match reply {
        Reply::AllocatePages(Ok(placed)) => placed.certificate.as_ref(),
        Reply::AllocatePool(Ok((_, certificate))) => certificate.as_ref(),
        Reply::LocateHandleBuffer(Ok(returned)) => returned.certificate.as_ref(),
        Reply::OpenProtocolInformation(Ok(returned)) => returned.certificate.as_ref(),
        _ => None,
    }
}
