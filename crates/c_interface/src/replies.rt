//! What replies carry.
ghost use Rattle.std.specs.Prelude.{◌≡◌};
ghost use Rattle.page_ranges.specs.Statuses.{status_number};
ghost use Rattle.boot_replies.specs.declared.replies.Reply.TheVariants as reply;
ghost use Rattle.c_interface.specs.Replies.{events_in, number_in, numbers_in, opened_or, returned_or, returned_status, status_in, value_or};

use boot_core::Reply;
use page_ranges::Status;
use page_services::Placed;
use placement_certificate::Certificate;
use std::alloc::Allocator;

/// The status of a result.
#[inline(always)]
pub(crate) fn returned_status<R>(returned: &Result<R, Status>) -> Status
    ensures { result ≡ returned_status returned.now }
{
    match returned {
        Ok(_) => Status::Success,
        Err(status) => *status,
    }
}

/// The status of a reply. Inlined, it costs nothing where the service is known.
#[inline(always)]
pub(crate) fn status_in<A: Allocator>(reply: &Reply<A>) -> Status
    ensures { result ≡ status_in reply.now }
{
    match reply {
        Reply::AllocatePages(returned) => returned_status(returned),
        Reply::FreePages(returned) => returned_status(returned),
        Reply::GetMemoryMap { reply, .. } => reply.status,
        Reply::AllocatePool(returned) => returned_status(returned),
        Reply::FreePool(returned) => returned_status(returned),
        Reply::PoolRead { status, .. } => *status,
        Reply::PoolWrite(returned) => returned_status(returned),
        Reply::InstallProtocolInterface(returned) => returned_status(returned),
        Reply::InstallMultipleProtocolInterfaces(returned) => returned_status(returned),
        Reply::UninstallProtocolInterface(returned) => returned_status(returned),
        Reply::ReinstallProtocolInterface(returned) => returned_status(returned),
        Reply::RegisterProtocolNotify(returned) => returned_status(returned),
        Reply::LocateHandle(returned) => returned.status,
        Reply::LocateHandleBuffer(returned) => returned_status(returned),
        Reply::LocateProtocol(returned) => returned_status(returned),
        Reply::ProtocolsPerHandle(returned) => returned_status(returned),
        Reply::OpenProtocol(returned) => returned_status(returned),
        Reply::CloseProtocol(returned) => returned_status(returned),
        Reply::OpenProtocolInformation(returned) => returned_status(returned),
        Reply::HandleProtocol(returned) => returned_status(returned),
        Reply::ConnectController(returned) => returned_status(returned),
        Reply::DisconnectController(returned) => returned_status(returned),
        Reply::LocateDevicePath(returned) => returned_status(returned),
        Reply::ExitBootServices(returned) => returned_status(returned),
    }
}

/// The number that a reply carries: an address, a handle, a registration's key or the value of an
/// interface.
#[inline(always)]
pub(crate) fn number_in<A: Allocator>(reply: &Reply<A>) -> Option<u64>
    ensures { result ≡ number_in reply.now }
{
    match reply {
        Reply::AllocatePages(Ok(placed)) => Some(placed.address),
        Reply::AllocatePool(Ok((address, _))) => Some(*address),
        Reply::InstallProtocolInterface(Ok(installed)) => Some(installed.handle),
        Reply::InstallMultipleProtocolInterfaces(Ok(installed)) => Some(installed.handle),
        Reply::RegisterProtocolNotify(Ok(key)) => Some(*key),
        Reply::LocateProtocol(Ok(value)) => Some(*value),
        Reply::OpenProtocol(Ok(value)) => *value,
        Reply::HandleProtocol(Ok(value)) => Some(*value),
        _ => None,
    }
}

/// The status of a result as a number of EFI_STATUS; the number that it has is put in the caller's variable.
#[inline(always)]
pub(crate) fn return_value(returned: Result<u64, Status>, place: &mut u64) -> u64
    ensures status { result ≡ status_number (returned_status returned) }
    ensures value { place.new ≡ value_or place.old returned }
{
    match returned {
        Ok(value) => {
            *place = value;
            Status::Success.number()
        }
        Err(status) => status.number(),
    }
}

/// The same of OpenProtocol, which has no number for TEST_PROTOCOL.
#[inline(always)]
pub(crate) fn return_opened(returned: Result<Option<u64>, Status>, place: &mut u64) -> u64
    ensures status { result ≡ status_number (returned_status returned) }
    ensures value { place.new ≡ opened_or place.old returned }
{
    match returned {
        Ok(Some(value)) => {
            *place = value;
            Status::Success.number()
        }
        Ok(None) => Status::Success.number(),
        Err(status) => status.number(),
    }
}

/// The same of AllocatePages, whose number is an address.
#[inline(always)]
pub(crate) fn return_pages<A: Allocator>(returned: Result<Placed<A>, Status>, out: &mut u64) -> u64
    ensures status { result ≡ status_number (returned_status returned) }
    ensures value { out.new
        ≡ returned_or out.old (number_in (reply.AllocatePages returned)) }
{
    match returned {
        Ok(placed) => {
            *out = placed.address;
            Status::Success.number()
        }
        Err(status) => status.number(),
    }
}

/// The same of AllocatePool.
#[inline(always)]
pub(crate) fn return_block<A: Allocator>(
    returned: Result<(u64, Option<Certificate<A>>), Status>,
    out: &mut u64,
) -> u64
    ensures status { result ≡ status_number (returned_status returned) }
    ensures value { out.new
        ≡ returned_or out.old (number_in {A = A} (reply.AllocatePool returned)) }
{
    match returned {
        Ok((address, _certificate)) => {
            *out = address;
            Status::Success.number()
        }
        Err(status) => status.number(),
    }
}

/// The two numbers that a reply carries: how many items are in a block of the pool, and its address; or
/// a handle, and the address behind the nodes that its device path matched.
pub(crate) fn numbers_in<A: Allocator>(reply: &Reply<A>) -> Option<(u64, u64)>
    ensures { result ≡ numbers_in reply.now }
{
    match reply {
        Reply::LocateHandleBuffer(Ok(returned)) => Some((returned.count, returned.address)),
        Reply::OpenProtocolInformation(Ok(returned)) => Some((returned.count, returned.address)),
        Reply::LocateDevicePath(Ok(found)) => Some(*found),
        _ => None,
    }
}

/// The events that a call signals.
pub(crate) fn events_in<A: Allocator>(reply: &Reply<A>) -> &[u64]
    ensures { result.now ≡ events_in reply.now }
{
    match reply {
        Reply::InstallProtocolInterface(Ok(installed)) => installed.events.as_slice(),
        Reply::InstallMultipleProtocolInterfaces(Ok(installed)) => installed.events.as_slice(),
        Reply::ReinstallProtocolInterface(Ok(events)) => events.as_slice(),
        Reply::ConnectController(Ok(events)) => events.as_slice(),
        _ => &[],
    }
}
