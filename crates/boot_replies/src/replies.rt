//! The replies to the calls of the boot services: a variant for each service.
use boot_calls::{Installed, LocateReply};
use map_keys::MapReply;
use page_ranges::Status;
use page_services::Placed;
use placement_certificate::Certificate;
use std::alloc::{Allocator, Global};
use uuid::Uuid;

/// A list in a pool block of its own, which the caller frees.
#[derive(Drop)]
pub struct PoolList<A: Allocator = Global> {
    /// How many items are in it.
    pub count: u64,
    /// The address of the block; 0 where there are no items and no block.
    pub address: u64,
    /// Where new pages were placed for the block, why their place is the best.
    pub certificate: Option<Certificate<A>>,
}

/// What a boot service returns; of a buffer, the bytes that were used.
#[derive(Drop)]
pub enum Reply<A: Allocator = Global> {
    AllocatePages(Result<Placed<A>, Status>),
    FreePages(Result<(), Status>),
    GetMemoryMap { reply: MapReply, bytes: Vec<u8, A> },
    /// The address of the block, and where new pages were placed for it, why their place is the best.
    AllocatePool(Result<(u64, Option<Certificate<A>>), Status>),
    FreePool(Result<(), Status>),
    PoolRead { status: Status, bytes: Vec<u8, A> },
    PoolWrite(Result<(), Status>),
    InstallProtocolInterface(Result<Installed<A>, Status>),
    InstallMultipleProtocolInterfaces(Result<Installed<A>, Status>),
    UninstallProtocolInterface(Result<(), Status>),
    /// The events that are signaled.
    ReinstallProtocolInterface(Result<Vec<u64, A>, Status>),
    /// The key of the registration.
    RegisterProtocolNotify(Result<u64, Status>),
    LocateHandle(LocateReply<A>),
    LocateHandleBuffer(Result<PoolList<A>, Status>),
    /// The value of the interface.
    LocateProtocol(Result<u64, Status>),
    /// The GUIDs on the handle, in order of installation.
    ProtocolsPerHandle(Result<Vec<Uuid, A>, Status>),
    /// The value of the interface, none for TEST_PROTOCOL.
    OpenProtocol(Result<Option<u64>, Status>),
    CloseProtocol(Result<(), Status>),
    OpenProtocolInformation(Result<PoolList<A>, Status>),
    /// The value of the interface.
    HandleProtocol(Result<u64, Status>),
    /// The events that are signaled.
    ConnectController(Result<Vec<u64, A>, Status>),
    DisconnectController(Result<(), Status>),
    /// The handle, and the address behind the nodes that its path matched.
    LocateDevicePath(Result<(u64, u64), Status>),
    ExitBootServices(Result<(), Status>),
}
