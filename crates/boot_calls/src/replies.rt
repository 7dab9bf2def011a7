//! What the protocol services return.
use page_ranges::Status;
use std::alloc::{Allocator, Global};

/// What an installation returns that succeeds.
#[derive(Drop)]
pub struct Installed<A: Allocator = Global> {
    pub handle: u64,
    /// The events that are signaled: for each interface in turn, those of the registrations for its
    /// GUID by ascending key.
    pub events: Vec<u64, A>,
}

/// What LocateHandle returns.
#[derive(Drop)]
pub struct LocateReply<A: Allocator = Global> {
    pub status: Status,
    /// The bytes that the handles take, 8 each, on SUCCESS and on BUFFER_TOO_SMALL; else 0.
    pub size: u64,
    /// The handles, ascending; none but on SUCCESS.
    pub handles: Vec<u64, A>,
}
